//! CREATE: new nodes and relationships (openCypher 9, CREATE; the order of numbers, and faults: own).

ghost use Rattle.std.specs.Prelude.{◌≡◌, ◌++◌, List, [], IfErr, IfOk, IsSome, OnOk, Some, map, option_map, slice_get};
ghost use Rattle.std.specs.Option.{option_and_then, option_map_or};
ghost use Rattle.cy_values.specs.declared.rows.Cell.{Cell};
ghost use Rattle.cy_trees.specs.TreeModels.{node_of, path_of, relationship_of, step_of};
ghost use Rattle.cy_graph.specs.Stored.{IsStorable};
ghost use Rattle.cy_oneshot_meaning.specs.Reading.{AreInGraph};
ghost use Rattle.cy_oneshot_meaning.specs.internal.Answers.{IsRowThere};
ghost use Rattle.cy_updates_meaning.specs.declared.faults.UpdateFault.TheVariants.{NoMemory};
ghost use Rattle.cy_updates_meaning.specs.Creating as spec;
ghost use Rattle.cy_updates_meaning.specs.Creating.{node_in_cell, source_of, target_of, with_column, with_new_node, with_node_place, with_path, with_step};
ghost use Rattle.cy_updates_meaning.specs.Faults.{each_in_turn};
ghost use Rattle.cy_updates_meaning.specs.Statements as statements;
ghost use Rattle.cy_updates_meaning.specs.internal.Answers.{IsAnswer, graph_table};
ghost use Rattle.cy_updates.specs.internal.Creating.{IsCreation, variable_column, creation, graph_row, row_created, row_so_far};

use crate::writes::maps::{label_set, map_properties};
use cy_graph::Rel;
use cy_index::Store;
use cy_trees::{Direction, NodePattern, Path, RelationshipPattern, Step, Variable};
use cy_updates_meaning::UpdateFault;
use cy_values::{Cell, Duplicate, NodeId, RelId, Row, Sequence, Text};
use std::alloc::Global;

// The first number that is never given out, 2^40 + 1.
const NUMBER_END: u64 = (1 << 40) + 1;

// What the clause has made so far on a row.
#[derive(Drop)]
struct Made {
    /// The cells of its new variables, which come after those of the row.
    cells: Vec<Cell>,
    /// Within a path, the node at the place before, if that isn't null.
    last: Option<NodeId>,
}

/// CREATE: makes the paths for each row, one row after another, and gives the rows with a column for each new variable (openCypher 9,
/// CREATE). Fails with the first fault that the clause means, or with `NoMemory`; what was made before it is left in the change.
pub(crate) fn create(
    alloc: Global,
    store: &mut Store,
    paths: &[Path],
    rows: Vec<Row>,
) -> Result<Vec<Row>, UpdateFault>
    requires open { IsSome store.old.graph.was }
    requires there { AreInGraph store.old.graph.now.content rows.items }
    ensures meaning { IsAnswer result (λ longer. graph_table store.new.graph.now longer.items) (each_in_turn (statements.create_row (map path_of paths.now)) rows.items (graph_table store.old.graph.now [])) }
    ensures open { store.new.graph.was ≡ store.old.graph.was }
    ensures indexes { store.new.chosen ≡ store.old.chosen }
{
    let mut longer = Vec::with_capacity(alloc, rows.len())?;
    for row in rows {
        store.laws();
        let made = create_row(alloc, store, paths, row)?;
        longer.push(made)?;
    }
    Ok(longer)
}

// Makes the paths for a row.
fn create_row(
    alloc: Global,
    store: &mut Store,
    paths: &[Path],
    row: Row,
) -> Result<Row, UpdateFault>
    requires open { IsSome store.old.graph.was }
    requires there { IsRowThere store.old.graph.now.content row }
    ensures meaning { IsAnswer result (λ longer. graph_row store.new.graph.now longer) (row_created store.old.graph.now (map path_of paths.now) row) }
    ensures open { store.new.graph.was ≡ store.old.graph.was }
    ensures indexes { store.new.chosen ≡ store.old.chosen }
{
    let mut made = Made {
        cells: Vec::new(alloc),
        last: None,
    };
    for path in paths {
        store.laws();
        create_path(alloc, store, &row, path, &mut made)?;
    }
    let mut cells = row.into_vec();
    cells.append(&mut made.cells)?;
    Ok(Sequence::new(cells))
}

// Makes a path from left to right.
fn create_path(
    alloc: Global,
    store: &mut Store,
    before: &Row,
    path: &Path,
    made: &mut Made,
) -> Result<(), UpdateFault>
    requires open { IsSome store.old.graph.was }
    requires there { IsCreation (creation store.old.graph.now before.now made.old) }
    ensures meaning { IsAnswer result (λ _. creation store.new.graph.now before.now made.new) (with_path before.now (path_of path.now) (creation store.old.graph.now before.now made.old)) }
    ensures open { store.new.graph.was ≡ store.old.graph.was }
    ensures indexes { store.new.chosen ≡ store.old.chosen }
{
    store.laws();
    place_node(alloc, store, before, &path.start, made)?;
    create_steps(alloc, store, before, &path.steps, made)
}

// Makes steps from left to right.
fn create_steps(
    alloc: Global,
    store: &mut Store,
    before: &Row,
    steps: &[Step],
    made: &mut Made,
) -> Result<(), UpdateFault>
    requires open { IsSome store.old.graph.was }
    requires there { IsCreation (creation store.old.graph.now before.now made.old) }
    ensures meaning { IsAnswer result (λ _. creation store.new.graph.now before.now made.new) (each_in_turn (with_step before.now) (map step_of steps.now) (creation store.old.graph.now before.now made.old)) }
    ensures open { store.new.graph.was ≡ store.old.graph.was }
    ensures indexes { store.new.chosen ≡ store.old.chosen }
{
    for step in steps {
        store.laws();
        create_step(alloc, store, before, step, made)?;
    }
    Ok(())
}

// Makes a relationship and the node after it.
fn create_step(
    alloc: Global,
    store: &mut Store,
    before: &Row,
    step: &Step,
    made: &mut Made,
) -> Result<(), UpdateFault>
    requires open { IsSome store.old.graph.was }
    requires there { IsCreation (creation store.old.graph.now before.now made.old) }
    ensures meaning { IsAnswer result (λ _. creation store.new.graph.now before.now made.new) (with_step before.now (step_of step.now) (creation store.old.graph.now before.now made.old)) }
    ensures open { store.new.graph.was ≡ store.old.graph.was }
    ensures indexes { store.new.chosen ≡ store.old.chosen }
{
    store.laws();
    let (next_node, next_rel) = store.next_numbers();
    add_column(made, &step.relationship.variable, Cell::Rel(next_rel))?;
    let right = node_at(&step.node.variable, before, &made.cells, next_node);
    let rel = new_relationship(alloc, store, before, &step.relationship, made.last, right)?;
    place_node(alloc, store, before, &step.node, made)?;
    let Rel {
        source,
        target,
        kind,
        props,
    } = rel;
    store.add_rel(source, target, kind, props)?;
    Ok(())
}

// The node at a place: the one that its variable is bound to, else a new one.
fn place_node(
    alloc: Global,
    store: &mut Store,
    before: &Row,
    place: &NodePattern,
    made: &mut Made,
) -> Result<(), UpdateFault>
    requires open { IsSome store.old.graph.was }
    requires there { IsRowThere store.old.graph.now.content before.now }
    ensures meaning { IsAnswer result (λ _. creation store.new.graph.now before.now made.new) (with_node_place before.now (node_of place.now) (creation store.old.graph.now before.now made.old)) }
    ensures open { store.new.graph.was ≡ store.old.graph.was }
    ensures indexes { store.new.chosen ≡ store.old.chosen }
{
    match bound_node(&place.variable, before, &made.cells) {
        Some(node) => {
            made.last = node;
            Ok(())
        }
        None => create_node(alloc, store, before, place, made),
    }
}

// Makes the node of a place.
fn create_node(
    alloc: Global,
    store: &mut Store,
    before: &Row,
    place: &NodePattern,
    made: &mut Made,
) -> Result<(), UpdateFault>
    requires open { IsSome store.old.graph.was }
    requires there { IsRowThere store.old.graph.now.content before.now }
    ensures meaning { IsAnswer result (λ _. creation store.new.graph.now before.now made.new) (with_new_node before.now (node_of place.now) (creation store.old.graph.now before.now made.old)) }
    ensures open { store.new.graph.was ≡ store.old.graph.was }
    ensures indexes { store.new.chosen ≡ store.old.chosen }
{
    let labels = label_set(alloc, &place.labels)?;
    let props = map_properties(alloc, store, before, &place.properties)?;
    let id = store.add_node(labels, props)?;
    add_column(made, &place.variable, Cell::Node(id))?;
    made.last = Some(id);
    Ok(())
}

// Gives a new variable, if there is one, its cell.
fn add_column(made: &mut Made, variable: &Option<Variable>, cell: Cell) -> Result<(), UpdateFault>
    ensures column { OnOk result ((row : List Cell) → row_so_far row made.new ≡ with_column variable.now cell (row_so_far row made.old)) }
    ensures last { made.new.last ≡ made.old.last }
    ensures memory { IfErr result (λ why. why ≡ NoMemory) }
{
    if variable.is_some() {
        made.cells.push(cell)?;
    }
    Ok(())
}

// The node that a variable is bound to before the clause or in it, if it is bound; there is none where that is null.
fn bound_node(variable: &Option<Variable>, before: &Row, cells: &[Cell]) -> Option<Option<NodeId>>
    ensures { result ≡ option_map node_in_cell (option_and_then (slice_get (before.now ++ cells.now)) (variable_column variable.now)) }
{
    let column = variable.as_ref()?.column?;
    let row = before.as_slice();
    if column < row.len() {
        return Some(node_in(&row[column]));
    }
    let cell = cells.get(column - row.len())?;
    Some(node_in(cell))
}

// The node in a cell, if it isn't null.
fn node_in(cell: &Cell) -> Option<NodeId>
    ensures { result ≡ node_in_cell cell.now }
{
    match cell {
        Cell::Node(id) => Some(*id),
        Cell::Rel(_) | Cell::Rels(_) | Cell::Value(_) => None,
    }
}

// The node at a place, where the next new one has this number.
fn node_at(
    variable: &Option<Variable>,
    before: &Row,
    cells: &[Cell],
    next: NodeId,
) -> Option<NodeId>
    ensures { result ≡ option_map_or node_in_cell (option_and_then (slice_get (before.now ++ cells.now)) (variable_column variable.now)) (Some next) }
{
    match bound_node(variable, before, cells) {
        Some(node) => node,
        None => Some(next),
    }
}

// The relationship of a place between two nodes, if neither of them is null and a number is left.
fn new_relationship(
    alloc: Global,
    store: &Store,
    before: &Row,
    place: &RelationshipPattern,
    left: Option<NodeId>,
    right: Option<NodeId>,
) -> Result<Rel, UpdateFault>
    requires { IsRowThere store.now.graph.now.content before.now }
    ensures meaning { IsAnswer result (λ rel. rel) (spec.new_relationship before.now (relationship_of place.now) right (record { graph = store.now.graph.now; row = before.now; last = left })) }
    ensures storable { IfOk result (λ rel. IsStorable rel.props) }
{
    let props = map_properties(alloc, store, before, &place.properties)?;
    let (left, right) = ends_of(left, right)?;
    unless_full(store.next_numbers().1)?;
    let (source, target) = directed(place.direction, left, right);
    let kind = type_of(alloc, &place.types)?;
    Ok(Rel {
        source,
        target,
        kind,
        props,
    })
}

// Two nodes, neither of them null.
fn ends_of(left: Option<NodeId>, right: Option<NodeId>) -> Result<(NodeId, NodeId), UpdateFault>
    ensures { result ≡ spec.ends_of left right }
{
    match (left, right) {
        (Some(left), Some(right)) => Ok((left, right)),
        _ => Err(UpdateFault::NullEndpoint),
    }
}

// Whether a number is left, of which this is the next one.
fn unless_full(next: RelId) -> Result<(), UpdateFault>
    ensures { result ≡ spec.unless_full next.0 }
{
    if next.0 == NUMBER_END {
        return Err(UpdateFault::Full);
    }
    Ok(())
}

// The source and the target of a relationship between two nodes.
fn directed(direction: Direction, left: NodeId, right: NodeId) -> (NodeId, NodeId)
    ensures { result ≡ (source_of direction left right, target_of direction left right) }
{
    match direction {
        Direction::Left => (right, left),
        Direction::Right | Direction::Either => (left, right),
    }
}

// The one type of a relationship.
fn type_of(alloc: Global, types: &[Text]) -> Result<Text, UpdateFault>
    ensures kind { IfOk result (λ kind. kind ≡ spec.type_of types.now) }
    ensures memory { IfErr result (λ why. why ≡ NoMemory) }
{
    match types.first() {
        Some(kind) => Ok(kind.copy(alloc)?),
        None => Ok(Text::from_str(alloc, "")?),
    }
}
