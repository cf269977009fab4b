//! UNWIND (openCypher 9, UNWIND; what isn't a list: own).

ghost use Rattle.std.specs.Prelude.{◌≡◌, [], ◌∷◌, ◌++◌, IfOk, map, slice_set, if◌then◌else◌};
ghost use Rattle.cy_values.specs.declared.rows.Cell.TheVariants as cell;
ghost use Rattle.cy_values.specs.declared.scalars.Value.TheVariants as value;
ghost use Rattle.cy_values.specs.Compare.{value_in};
ghost use Rattle.cy_trees.specs.TreeModels.{expression_of};
ghost use Rattle.cy_oneshot_patterns.specs.Matching as spec;
ghost use Rattle.cy_oneshot_patterns.specs.Outcomes.{joined};
ghost use Rattle.cy_oneshot.specs.Carried as carrying;
ghost use Rattle.cy_oneshot.specs.Carried.{carried, carried_from};
ghost use Rattle.cy_oneshot_meaning.specs.Reading.{AreInGraph};
ghost use Rattle.cy_oneshot_meaning.specs.internal.Answers.{IsAnswer, IsRowThere};

use crate::needed::is_needed;
use cy_expr::EvalFault;
use cy_index::Store;
use cy_oneshot_outcomes::{Gathered, value_on};
use cy_trees::Expr;
use cy_values::{Cell, Duplicate, Fault, Row, Scalar, Sequence, Value};
use std::alloc::Global;

/// The rows with each element of their lists, in their order, and with null for each cell that isn't needed.
pub(crate) fn unwound(
    alloc: Global,
    store: &Store,
    list: &Expr,
    needed: &[bool],
    rows: Vec<Row>,
) -> Result<Vec<Row>, EvalFault>
    requires { AreInGraph store.now.graph.now.content rows.items }
    ensures { IsAnswer result (λ unwound. unwound.items) (carried needed.now (joined (map (spec.unwound store.now.graph.now.content (expression_of list.now)) rows.items))) }
{
    let mut unwound = Gathered::new(alloc);
    for row in rows {
        let outcome = unwound_row(alloc, store, list, needed, row);
        unwound.add_all(outcome)?;
    }
    unwound.finish()
}

// A row with each element of its list; null has none, and anything else that is no list is a fault.
fn unwound_row(
    alloc: Global,
    store: &Store,
    list: &Expr,
    needed: &[bool],
    row: Row,
) -> Result<Vec<Row>, EvalFault>
    requires { IsRowThere store.now.graph.now.content row }
    ensures { IsAnswer result (λ unwound. unwound.items) (carried needed.now (spec.unwound store.now.graph.now.content (expression_of list.now) row)) }
{
    match value_on(alloc, store, list, &row)? {
        Value::List(elements) => Ok(with_each(alloc, needed, row, elements.as_slice())?),
        Value::Null => Ok(Vec::new(alloc)),
        Value::Text(_) | Value::Bool(_) | Value::Int(_) => Err(EvalFault::WrongType),
    }
}

// The row with each of the elements after it. It is copied for all of them but the last, which takes it over.
fn with_each(
    alloc: Global,
    needed: &[bool],
    row: Row,
    elements: &[Scalar],
) -> Result<Vec<Row>, Fault>
    ensures { IfOk result (λ rows. rows.items ≡ map (carried_from needed.now 0) (map (λ v. row ++ cell.Value v ∷ []) (map value_in elements.now))) }
{
    let Some((last, others)) = elements.split_last() else {
        return Ok(Vec::new(alloc));
    };
    let mut rows = copies_with_each(alloc, needed, &row, others)?;
    let last = Cell::Value(value_of(last.copy(alloc)?));
    rows.push(extended(needed, row, last)?)?;
    Ok(rows)
}

// Copies of the row with each of the elements after it, and room for one more.
fn copies_with_each(
    alloc: Global,
    needed: &[bool],
    row: &Row,
    elements: &[Scalar],
) -> Result<Vec<Row>, Fault>
    ensures { IfOk result (λ rows. rows.items ≡ map (carried_from needed.now 0) (map (λ v. row.now ++ cell.Value v ∷ []) (map value_in elements.now))) }
{
    let mut rows = Vec::with_capacity(alloc, elements.len().saturating_add(1))?;
    for element in elements {
        let last = Cell::Value(value_of(element.copy(alloc)?));
        rows.push(with_cell(alloc, needed, row, last)?)?;
    }
    Ok(rows)
}

// The row itself with a cell after it, and with null for each cell that isn't needed.
fn extended(needed: &[bool], row: Row, last: Cell) -> Result<Row, Fault>
    ensures { IfOk result (λ longer. longer ≡ carried_from needed.now 0 (row ++ last ∷ [])) }
{
    let mut cells = row.into_vec();
    cells.push(last)?;
    clear_unneeded(needed, &mut cells);
    Ok(Sequence::new(cells))
}

// Puts null in place of each cell that isn't needed.
fn clear_unneeded(needed: &[bool], cells: &mut Vec<Cell>)
    ensures { cells.new.items ≡ carried_from needed.now 0 cells.old.items }
{
    for place in 0..needed.len() {
        if !needed[place] {
            clear_at(cells, place);
        }
    }
}

// Puts null in a place, if there is one.
fn clear_at(cells: &mut Vec<Cell>, place: usize)
    ensures { cells.new.items ≡ slice_set cells.old.items place (cell.Value value.Null) }
{
    if place < cells.len() {
        cells[place] = Cell::Value(Value::Null);
    }
}

// A copy of the row with a cell after it, and with null for each cell that isn't needed.
fn with_cell(alloc: Global, needed: &[bool], row: &Row, last: Cell) -> Result<Row, Fault>
    ensures { IfOk result (λ longer. longer ≡ carried_from needed.now 0 (row.now ++ last ∷ [])) }
{
    let mut cells = copied_cells(alloc, needed, row.as_slice())?;
    let last = if_needed(needed, cells.len(), last);
    cells.push(last)?;
    Ok(Sequence::new(cells))
}

// Copies of cells, and null for each that isn't needed, with room for one more.
fn copied_cells(alloc: Global, needed: &[bool], row: &[Cell]) -> Result<Vec<Cell>, Fault>
    ensures { IfOk result (λ cells. cells.items ≡ carried_from needed.now 0 row.now) }
{
    let mut cells = Vec::with_capacity(alloc, row.len().saturating_add(1))?;
    for cell in row {
        let place = cells.len();
        let next = copied_if_needed(alloc, needed, place, cell)?;
        cells.push(next)?;
    }
    Ok(cells)
}

// A copy of a cell, if its place is needed; else null.
fn copied_if_needed(
    alloc: Global,
    needed: &[bool],
    place: usize,
    original: &Cell,
) -> Result<Cell, Fault>
    ensures { IfOk result (λ copied. copied ≡ (if carrying.is_needed needed.now place then original.now else cell.Value value.Null)) }
{
    if is_needed(needed, place) {
        return original.copy(alloc);
    }
    Ok(Cell::Value(Value::Null))
}

// A cell, if its place is needed; else null.
fn if_needed(needed: &[bool], place: usize, original: Cell) -> Cell
    ensures { result ≡ (if carrying.is_needed needed.now place then original else cell.Value value.Null) }
{
    if is_needed(needed, place) {
        return original;
    }
    Cell::Value(Value::Null)
}

// An element of a list as a value of its own.
fn value_of(element: Scalar) -> Value
    ensures { result ≡ value_in element }
{
    match element {
        Scalar::Text(text) => Value::Text(text),
        Scalar::Bool(truth) => Value::Bool(truth),
        Scalar::Int(number) => Value::Int(number),
        Scalar::Null => Value::Null,
    }
}
