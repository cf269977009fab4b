//! What expressions give properties, and what properties keep of it (openCypher 9, Setting properties; what can be stored, and
//! faults: own).

ghost use Rattle.std.specs.Prelude.{◌≡◌, Ok, Err, IfErr, IfOk, IfSome, IsTrue, MatchResult, OnOk, map, not};
ghost use Rattle.std.specs.BTreeMap.{IsOrdered};
ghost use Rattle.std.specs.List.{list_all};
ghost use Rattle.cy_trees.specs.TreeModels.{entry_of, expression_of, properties_of};
ghost use Rattle.cy_graph.specs.Graph.{set_or_removed};
ghost use Rattle.cy_graph.specs.Maps.{text_order};
ghost use Rattle.cy_graph.specs.Stored as graphs;
ghost use Rattle.cy_graph.specs.Stored.{IsStorable};
ghost use Rattle.cy_oneshot_meaning.specs.internal.Answers.{IsRowThere};
ghost use Rattle.cy_updates_meaning.specs.declared.faults.UpdateFault.TheVariants.{NoMemory};
ghost use Rattle.cy_updates_meaning.specs.Values as spec;
ghost use Rattle.cy_updates_meaning.specs.Values.{settable, unless_null};
ghost use Rattle.cy_updates_meaning.specs.internal.Answers.{IsAnswer};
ghost use Rattle.cy_updates.specs.internal.Properties.{ArePropertiesOf};
ghost use Rattle.cy_values.specs.Compare.{value_in, is_null};

use cy_expr::eval_value;
use cy_graph::{Labels, Props, TextMap};
use cy_index::Store;
use cy_trees::{Expr, MapEntry};
use cy_updates_meaning::UpdateFault;
use cy_values::{Duplicate, Row, Scalar, Text, Value};
use std::alloc::Global;
use std::collections::BTreeMap;

// How many entries of a map, or labels, are put one by one where they go. More of them are put into an ordered map, so that their time is
// near to linear.
const FEW: usize = 16;

/// The value of an expression on a row and the graph as it stands.
pub(crate) fn value_on(
    alloc: Global,
    store: &Store,
    expression: &Expr,
    row: &Row,
) -> Result<Value, UpdateFault>
    requires { IsRowThere store.now.graph.now.content row.now }
    ensures { IsAnswer result (λ value. value) (spec.value_on store.now.graph.now row.now (expression_of expression.now)) }
{
    store.laws();
    let value = eval_value(alloc, expression, row, store)?;
    Ok(value)
}

/// What is stored of a value: nothing where it is null. `NotStorable` for a list with null in it.
pub(crate) fn stored(value: Value) -> Result<Option<Value>, UpdateFault>
    ensures { MatchResult result (λ stored. (settable value ≡ Ok value) × (stored ≡ unless_null value) × IfSome stored (λ v. IsTrue (graphs.is_storable v))) (λ why. settable value ≡ Err why) }
{
    match value {
        Value::Null => Ok(None),
        Value::List(elements) => {
            if has_null(elements.as_slice()) {
                return Err(UpdateFault::NotStorable);
            }
            Ok(Some(Value::List(elements)))
        }
        value => Ok(Some(value)),
    }
}

// Whether null is among the elements of a list.
fn has_null(elements: &[Scalar]) -> bool
    ensures { result ≡ not (list_all (λ e. not (is_null (value_in e))) elements.now) }
{
    for element in elements {
        if let Scalar::Null = element {
            return true;
        }
    }
    false
}

/// The properties that a map makes on a row; null isn't stored.
pub(crate) fn map_properties(
    alloc: Global,
    store: &Store,
    row: &Row,
    entries: &Option<Vec<MapEntry>>,
) -> Result<Props, UpdateFault>
    requires { IsRowThere store.now.graph.now.content row.now }
    ensures answer { IsAnswer result (λ props. props) (spec.map_properties store.now.graph.now row.now (properties_of entries.now)) }
    ensures storable { IfOk result (λ props. IsStorable props) }
{
    match entries {
        Some(entries) => properties(alloc, store, row, entries),
        None => Ok(TextMap::new(alloc)),
    }
}

// The properties that the entries of a map make, which are set from the left.
fn properties(
    alloc: Global,
    store: &Store,
    row: &Row,
    entries: &[MapEntry],
) -> Result<Props, UpdateFault>
    requires { IsRowThere store.now.graph.now.content row.now }
    ensures answer { ArePropertiesOf result store.now.graph.now row.now (map entry_of entries.now) }
    ensures storable { IfOk result (λ props. IsStorable props) }
{
    if entries.len() <= FEW {
        few_properties(alloc, store, row, entries)
    } else {
        many_properties(alloc, store, row, entries)
    }
}

// The properties, of which each is put where it goes.
fn few_properties(
    alloc: Global,
    store: &Store,
    row: &Row,
    entries: &[MapEntry],
) -> Result<Props, UpdateFault>
    requires { IsRowThere store.now.graph.now.content row.now }
    ensures answer { ArePropertiesOf result store.now.graph.now row.now (map entry_of entries.now) }
    ensures storable { IfOk result (λ props. IsStorable props) }
{
    let mut props = TextMap::with_capacity(alloc, entries.len())?;
    for entry in entries {
        let value = value_on(alloc, store, &entry.value, row)?;
        let kept = stored(value)?;
        set(alloc, &mut props, &entry.key, kept)?;
    }
    Ok(props)
}

// Sets a property, or removes it where there is no value.
fn set(
    alloc: Global,
    props: &mut Props,
    key: &Text,
    value: Option<Value>,
) -> Result<(), UpdateFault>
    ensures ok { OnOk result (props.new ≡ set_or_removed key.now value props.old) }
    ensures memory { IfErr result (λ why. why ≡ NoMemory) }
{
    match value {
        Some(value) => props.insert(key.copy(alloc)?, value)?,
        None => props.remove(key.as_str()),
    }
    Ok(())
}

// The properties, which an ordered map puts in order.
fn many_properties(
    alloc: Global,
    store: &Store,
    row: &Row,
    entries: &[MapEntry],
) -> Result<Props, UpdateFault>
    requires { IsRowThere store.now.graph.now.content row.now }
    ensures answer { ArePropertiesOf result store.now.graph.now row.now (map entry_of entries.now) }
    ensures storable { IfOk result (λ props. IsStorable props) }
{
    let mut props = BTreeMap::new(alloc);
    for entry in entries {
        let value = value_on(alloc, store, &entry.value, row)?;
        let kept = stored(value)?;
        set_ordered(alloc, &mut props, &entry.key, kept)?;
    }
    Ok(TextMap::collected(alloc, props)?)
}

// Sets a property in an ordered map, or removes it where there is no value.
#[tactic(auto, using(cy_graph::proofs::Ordered::rises_in_order, cy_graph::proofs::Ordered::entry_added, cy_graph::proofs::Ordered::entry_removed))]
fn set_ordered(
    alloc: Global,
    props: &mut BTreeMap<Text, Value>,
    key: &Text,
    value: Option<Value>,
) -> Result<(), UpdateFault>
    requires ordered { IsOrdered text_order props.old }
    ensures ok { OnOk result (props.new.entries ≡ set_or_removed key.now value props.old.entries) }
    ensures ordered { OnOk result (IsOrdered text_order props.new) }
    ensures memory { IfErr result (λ why. why ≡ NoMemory) }
{
    match value {
        Some(value) => {
            let name = key.copy(alloc)?;
            props.insert(name, value)?;
        }
        None => {
            props.remove(key);
        }
    }
    Ok(())
}

/// The set of these labels.
pub(crate) fn label_set(alloc: Global, labels: &[Text]) -> Result<Labels, UpdateFault>
    ensures set { IfOk result (λ set. set ≡ spec.label_set labels.now) }
    ensures memory { IfErr result (λ why. why ≡ NoMemory) }
{
    if labels.len() <= FEW {
        few_labels(alloc, labels)
    } else {
        many_labels(alloc, labels)
    }
}

// The set of labels, of which each is put where it goes.
fn few_labels(alloc: Global, labels: &[Text]) -> Result<Labels, UpdateFault>
    ensures set { IfOk result (λ set. set ≡ spec.label_set labels.now) }
    ensures memory { IfErr result (λ why. why ≡ NoMemory) }
{
    let mut set = TextMap::with_capacity(alloc, labels.len())?;
    for label in labels {
        let name = label.copy(alloc)?;
        set.insert(name, ())?;
    }
    Ok(set)
}

// The set of labels, which an ordered map puts in order.
fn many_labels(alloc: Global, labels: &[Text]) -> Result<Labels, UpdateFault>
    ensures set { IfOk result (λ set. set ≡ spec.label_set labels.now) }
    ensures memory { IfErr result (λ why. why ≡ NoMemory) }
{
    let mut set = BTreeMap::new(alloc);
    for label in labels {
        let name = label.copy(alloc)?;
        set.insert(name, ())?;
    }
    Ok(TextMap::collected(alloc, set)?)
}
