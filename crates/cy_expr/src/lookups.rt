//! What an expression reads of a graph, and what is read for the entity in a cell.

ghost use Rattle.std.specs.Prelude.{◌≡◌, ◌⊎◌, Option, option_map, MatchResult, IfOk, IsTrue, Result, Ok, Err, map};
ghost use Rattle.std.specs.List.{list_any, list_all};
ghost use Rattle.std.specs.Str.{bytes_eq};
ghost use Rattle.cy_values.specs.declared.numbers.Entity.{Entity};
ghost use Rattle.cy_values.specs.declared.scalars.Scalar.TheVariants as scalar;
ghost use Rattle.cy_values.specs.declared.scalars.Value.{Value};
ghost use Rattle.cy_values.specs.Compare.{lent};
ghost use Rattle.cy_expr.specs.declared.faults.EvalFault.TheVariants.{NoMemory};
ghost use Rattle.cy_expr.specs.internal.Lent.{lent_cell};
ghost use Rattle.cy_expr.specs.Lookups as spec;
ghost use Rattle.cy_expr.specs.internal.Empty.{empty};

use crate::faults::EvalFault;
use crate::views::CellView;
use cy_values::{Entity, Fault, NodeId, RelId, Scalar, Shared, Text, Value, ValueRef};
use std::alloc::Global;

/// A graph, as far as expressions read it (Francis et al., property graphs). Its ghost member `lookups` is what it answers.
pub trait Lookups {
    ghost lookups: { Self → spec.Lookups };

    /// A property of an entity, if it is there.
    fn property(&self, entity: Entity, key: &str) -> Option<&Value>
        ensures { option_map (λ v. v.now) result ≡ (lookups self.now).property_of entity key.now };

    /// Whether a node has a label.
    fn has_label(&self, node: NodeId, label: &str) -> bool
        ensures { result ≡ list_any (bytes_eq label.now) ((lookups self.now).labels_of node) };

    /// The labels of a node by rising bytes, each once, as the elements of a list. Fails only when out of memory.
    fn labels(&self, alloc: Global, node: NodeId) -> Result<Vec<Scalar>, Fault>
        ensures rising { IsTrue (spec.names_rise ((lookups self.now).labels_of node)) }
        ensures all { IfOk result (λ labels. labels.items ≡ map (λ l. scalar.Text l) ((lookups self.now).labels_of node)) };

    /// The type of a relationship.
    fn type_of(&self, rel: RelId) -> &str
        ensures { result.now ≡ (lookups self.now).type_of rel };
}

/// A graph that answers nothing, for expressions that read columns alone.
#[derive(Clone, Copy)]
pub(crate) struct Empty;

impl Lookups for Empty {
    ghost lookups = { λ _. empty };

    fn property(&self, _entity: Entity, _key: &str) -> Option<&Value> {
        None
    }

    fn has_label(&self, _node: NodeId, _label: &str) -> bool {
        false
    }

    fn labels(&self, alloc: Global, _node: NodeId) -> Result<Vec<Scalar>, Fault> {
        Ok(Vec::new(alloc))
    }

    fn type_of(&self, _rel: RelId) -> &str {
        ""
    }
}

/// A property of the entity in a cell: null where it isn't there.
pub(crate) fn property<'a, G: Lookups>(
    graph: &'a G,
    key: &str,
    cell: CellView<'_>,
) -> Result<ValueRef<'a>, EvalFault>
    ensures { MatchResult result (λ v. spec.property_value (G.lookups graph.now) key.now (lent_cell cell.entry) ≡ Ok (lent v)) (λ fault. spec.property_value (G.lookups graph.now) key.now (lent_cell cell.entry) ≡ Err fault) }
{
    let entity = match cell {
        CellView::Node(number) => Entity::Node(number),
        CellView::Rel(number) => Entity::Rel(number),
        CellView::Value(ValueRef::Null) => return Ok(ValueRef::Null),
        CellView::Value(_) | CellView::Rels(_) => return Err(EvalFault::WrongType),
    };
    match graph.property(entity, key) {
        Some(value) => Ok(value.view()),
        None => Ok(ValueRef::Null),
    }
}

/// Whether the entity in a cell has a property.
pub(crate) fn has_property<G: Lookups>(
    graph: &G,
    key: &str,
    cell: CellView<'_>,
) -> Result<Value, EvalFault>
    ensures { result ≡ spec.existence (G.lookups graph.now) key.now (lent_cell cell.entry) }
{
    match cell {
        CellView::Node(number) => Ok(Value::Bool(
            graph.property(Entity::Node(number), key).is_some(),
        )),
        CellView::Rel(number) => Ok(Value::Bool(
            graph.property(Entity::Rel(number), key).is_some(),
        )),
        CellView::Value(ValueRef::Null) => Ok(Value::Null),
        CellView::Value(_) | CellView::Rels(_) => Err(EvalFault::WrongType),
    }
}

/// The type of the relationship in a cell.
pub(crate) fn type_in<'a, G: Lookups>(
    graph: &'a G,
    cell: CellView<'_>,
) -> Result<ValueRef<'a>, EvalFault>
    ensures { MatchResult result (λ v. spec.type_value (G.lookups graph.now) (lent_cell cell.entry) ≡ Ok (lent v)) (λ fault. spec.type_value (G.lookups graph.now) (lent_cell cell.entry) ≡ Err fault) }
{
    match cell {
        CellView::Rel(number) => Ok(ValueRef::Text(graph.type_of(number))),
        CellView::Value(ValueRef::Null) => Ok(ValueRef::Null),
        CellView::Value(_) | CellView::Node(_) | CellView::Rels(_) => Err(EvalFault::WrongType),
    }
}

/// The labels of the node in a cell.
pub(crate) fn labels_in<G: Lookups>(
    alloc: Global,
    graph: &G,
    cell: CellView<'_>,
) -> Result<Value, EvalFault>
    ensures { (result ≡ spec.labels_value (G.lookups graph.now) (lent_cell cell.entry)) ⊎ (result ≡ Err NoMemory) }
{
    match cell {
        CellView::Node(number) => Ok(Value::List(Shared::new(graph.labels(alloc, number)?)?)),
        CellView::Value(ValueRef::Null) => Ok(Value::Null),
        CellView::Value(_) | CellView::Rel(_) | CellView::Rels(_) => Err(EvalFault::WrongType),
    }
}

/// The number of the entity in a cell.
pub(crate) fn number_in(cell: CellView<'_>) -> Result<Value, EvalFault>
    requires { spec.IsNumbered (lent_cell cell) }
    ensures { result ≡ spec.id_value (lent_cell cell.entry) }
{
    match cell {
        CellView::Node(number) => Ok(Value::Int(number.0 as i64)),
        CellView::Rel(number) => Ok(Value::Int(number.0 as i64)),
        CellView::Value(ValueRef::Null) => Ok(Value::Null),
        CellView::Value(_) | CellView::Rels(_) => Err(EvalFault::WrongType),
    }
}

/// Whether the node in a cell has each of the labels.
pub(crate) fn has_labels<G: Lookups>(
    graph: &G,
    labels: &[Text],
    cell: CellView<'_>,
) -> Result<Value, EvalFault>
    ensures { result ≡ spec.labels_test (G.lookups graph.now) labels.now (lent_cell cell.entry) }
{
    match cell {
        CellView::Node(number) => Ok(Value::Bool(has_each(graph, number, labels))),
        CellView::Value(ValueRef::Null) => Ok(Value::Null),
        CellView::Value(_) | CellView::Rel(_) | CellView::Rels(_) => Err(EvalFault::WrongType),
    }
}

fn has_each<G: Lookups>(graph: &G, node: NodeId, labels: &[Text]) -> bool
    ensures { result ≡ list_all (λ l. list_any (bytes_eq l) ((G.lookups graph.now).labels_of node)) labels.now }
{
    for label in labels {
        if !graph.has_label(node, label.as_str()) {
            return false;
        }
    }
    true
}
