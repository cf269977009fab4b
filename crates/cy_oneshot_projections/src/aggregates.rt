//! Aggregates over the rows of a group (openCypher 9, Aggregating functions; faults and canonical order: own).

ghost use Rattle.std.specs.Prelude.{◌≡◌, ◌⊎◌, IsTrue, Result, Some, Ok, Err, map};
ghost use Rattle.cy_trees.specs.Trees.{call};
ghost use Rattle.cy_trees.specs.TreeModels.{expression_of, expressions_from};
ghost use Rattle.cy_expr.specs.declared.faults.EvalFault.TheVariants.{NoMemory};
ghost use Rattle.cy_expr.specs.Arithmetic.{integer};
ghost use Rattle.cy_expr.specs.Comparison.{is_null_cell};
ghost use Rattle.cy_expr.specs.Evaluation.{as_cell, cell_of};
ghost use Rattle.cy_expr.specs.Graphs.{lookups};
ghost use Rattle.cy_expr.specs.Operators.{value_in_cell};
ghost use Rattle.cy_oneshot_meaning.specs.Groups as spec;
ghost use Rattle.cy_oneshot_patterns.specs.Outcomes.{gathered};
ghost use Rattle.cy_oneshot_meaning.specs.Reading.{AreInGraph};
ghost use Rattle.cy_oneshot_meaning.specs.internal.Answers.{IsAnswer};
ghost use Rattle.cy_oneshot_projections.specs.internal.Integers.{integer_in};

use crate::order::{sort_cells, sort_cells_once};
use cy_expr::{EvalFault, list_of};
use cy_index::Store;
use cy_oneshot_outcomes::{Gathered, cell_on};
use cy_scope_kinds::Function;
use cy_trees::Expr;
use cy_values::{Cell, Row, Text, Value};
use std::alloc::Global;

/// The cell of an aggregate over the rows of a group. A fault among its arguments comes before its own, and `*` counts the rows.
pub(crate) fn over_rows(
    alloc: Global,
    store: &Store,
    expression: &Expr,
    rows: &[Row],
) -> Result<Cell, EvalFault>
    requires { AreInGraph store.now.graph.now.content rows.now }
    ensures { (result ≡ as_cell (spec.over_rows store.now.graph.now.content (expression_of expression.now) rows.now)) ⊎ (result ≡ Err NoMemory) }
{
    Ok(Cell::Value(value_over(alloc, store, expression, rows)?))
}

// The value of an aggregate.
fn value_over(
    alloc: Global,
    store: &Store,
    expression: &Expr,
    rows: &[Row],
) -> Result<Value, EvalFault>
    requires { AreInGraph store.now.graph.now.content rows.now }
    ensures { (result ≡ spec.over_rows store.now.graph.now.content (expression_of expression.now) rows.now) ⊎ (result ≡ Err NoMemory) }
{
    match expression {
        Expr::Call(name, distinct, arguments) => {
            over_call(alloc, store, name, *distinct, arguments, rows)
        }
        Expr::CallStar(_) => Ok(Value::Int(rows.len() as i64)),
        _ => Err(EvalFault::WrongType),
    }
}

// The value of a call, which takes one argument.
fn over_call(
    alloc: Global,
    store: &Store,
    name: &Text,
    distinct: bool,
    arguments: &[Expr],
    rows: &[Row],
) -> Result<Value, EvalFault>
    requires { AreInGraph store.now.graph.now.content rows.now }
    ensures { (result ≡ spec.over_rows store.now.graph.now.content (call name.now distinct (expressions_from (map expression_of arguments.now))) rows.now) ⊎ (result ≡ Err NoMemory) }
{
    match arguments {
        [argument] => {
            let cells = on_each(alloc, store, argument, rows)?;
            let function = Function::named(name.as_str());
            aggregate_of(alloc, function, distinct, cells)
        }
        _ => Err(EvalFault::WrongType),
    }
}

// What an expression gives on each row.
fn on_each(
    alloc: Global,
    store: &Store,
    expression: &Expr,
    rows: &[Row],
) -> Result<Vec<Cell>, EvalFault>
    requires { AreInGraph store.now.graph.now.content rows.now }
    ensures { IsAnswer result (λ cells. cells.items) (gathered (map (λ row. cell_of (lookups store.now.graph.now.content) row (expression_of expression.now)) rows.now)) }
{
    let mut cells = Gathered::with_capacity(alloc, rows.len())?;
    for row in rows {
        let outcome = cell_on(alloc, store, expression, row);
        cells.add(outcome)?;
    }
    cells.finish()
}

// What an aggregate gives for the cells of its argument. How many there are doesn't depend on their order.
fn aggregate_of(
    alloc: Global,
    function: Option<Function>,
    distinct: bool,
    cells: Vec<Cell>,
) -> Result<Value, EvalFault>
    ensures { (result ≡ spec.aggregate_if function (spec.taken distinct cells.items)) ⊎ (result ≡ Err NoMemory) }
{
    if !distinct && is_count(function) {
        let counted = without_nulls(cells);
        return Ok(count(&counted));
    }
    aggregate(alloc, function, taken(distinct, cells))
}

fn is_count(function: Option<Function>) -> bool
    ensures { IsTrue result → function ≡ Some Function.Count }
{
    matches!(function, Some(Function::Count))
}

// What an aggregate takes of its arguments: no null, with DISTINCT each value once, in canonical order.
fn taken(distinct: bool, cells: Vec<Cell>) -> Vec<Cell>
    ensures { result.items ≡ spec.taken distinct cells.items }
{
    let mut taken = without_nulls(cells);
    if distinct {
        sort_cells_once(&mut taken);
    } else {
        sort_cells(&mut taken);
    }
    taken
}

fn without_nulls(mut cells: Vec<Cell>) -> Vec<Cell>
    ensures { result.items ≡ spec.without_nulls cells.items }
{
    cells.retain(|cell| !is_null(cell));
    cells
}

fn is_null(cell: &Cell) -> bool
    ensures { result ≡ is_null_cell cell.now }
{
    matches!(cell, Cell::Value(Value::Null))
}

// What an aggregate gives for what it takes.
fn aggregate(
    alloc: Global,
    function: Option<Function>,
    cells: Vec<Cell>,
) -> Result<Value, EvalFault>
    ensures { (result ≡ spec.aggregate_if function cells.items) ⊎ (result ≡ Err NoMemory) }
{
    match function {
        Some(Function::Count) => Ok(count(&cells)),
        Some(Function::Sum) => sum(&cells),
        Some(Function::Min) => Ok(first(values_in(alloc, cells)?)),
        Some(Function::Max) => Ok(last(values_in(alloc, cells)?)),
        Some(Function::Collect) => list_of(alloc, values_in(alloc, cells)?),
        _ => Err(EvalFault::WrongType),
    }
}

// How many cells there are.
fn count(cells: &[Cell]) -> Value
    ensures { Ok result ≡ spec.aggregate Function.Count cells.now }
{
    Value::Int(cells.len() as i64)
}

// The values in cells.
fn values_in(alloc: Global, cells: Vec<Cell>) -> Result<Vec<Value>, EvalFault>
    ensures { IsAnswer result (λ values. values.items) (spec.values_in cells.items) }
{
    let mut values = Gathered::with_capacity(alloc, cells.len())?;
    for cell in cells {
        let outcome = value_in(cell);
        values.add(outcome)?;
    }
    values.finish()
}

// The value in a cell.
fn value_in(cell: Cell) -> Result<Value, EvalFault>
    ensures { result ≡ value_in_cell cell }
{
    match cell {
        Cell::Value(value) => Ok(value),
        Cell::Node(_) | Cell::Rel(_) | Cell::Rels(_) => Err(EvalFault::WrongType),
    }
}

// The exact total of integers, where 64 bits hold it.
fn sum(cells: &[Cell]) -> Result<Value, EvalFault>
    ensures { result ≡ spec.aggregate Function.Sum cells.now }
{
    let mut total: i128 = 0;
    for cell in cells {
        let number = integer_in(cell).ok_or(EvalFault::WrongType)?;
        total += i128::from(number);
    }
    total_value(total)
}

// An exact total as a value, where 64 bits hold it.
fn total_value(total: i128) -> Result<Value, EvalFault>
    ensures { result ≡ integer total }
{
    match i64::try_from(total) {
        Ok(total) => Ok(Value::Int(total)),
        Err(_) => Err(EvalFault::Overflow),
    }
}

// The integer in a cell, if one is there.
fn integer_in(cell: &Cell) -> Option<i64>
    ensures { result ≡ integer_in cell.now }
{
    match cell {
        Cell::Value(Value::Int(number)) => Some(*number),
        _ => None,
    }
}

// The first value; null where there is none.
fn first(values: Vec<Value>) -> Value
    ensures { result ≡ spec.first_or_null values.items }
{
    match values.into_iter().next() {
        Some(value) => value,
        None => Value::Null,
    }
}

// The last value; null where there is none.
fn last(mut values: Vec<Value>) -> Value
    ensures { result ≡ spec.last_or_null values.items }
{
    match values.pop() {
        Some(value) => value,
        None => Value::Null,
    }
}
