//! The cell of an expression.

ghost use Rattle.std.specs.Prelude.{◌≡◌, ◌⊎◌, IfOk, IsOk, IsTrue, Result, Ok, Err, All};
ghost use Rattle.cy_trees.specs.TreeModels.{expression_of};
ghost use Rattle.cy_expr.specs.declared.faults.EvalFault.TheVariants.{NoMemory};
ghost use Rattle.cy_expr.specs.Lookups as graphs;
ghost use Rattle.cy_expr.specs.Lookups.{IsNumbered};
ghost use Rattle.cy_expr.specs.Evaluation.{cell_of};
ghost use Rattle.cy_expr.specs.Faults.{on_one};
ghost use Rattle.cy_expr.specs.Logic as logic;
ghost use Rattle.cy_expr.specs.Operators.{value_in_cell};
ghost use Rattle.cy_expr.specs.Reading.{reads_columns};

use crate::evaluation::evaluate;
use crate::faults::EvalFault;
use crate::logic::truth_of;
use crate::lookups::{Empty, Lookups};
use cy_trees::Expr;
use cy_values::{Cell, Fault, Row, Truth, Value};
use std::alloc::Global;

/// The cell of an expression on a row and a graph, or its fault; a variable is the column of the row that it has. Fails
/// besides only with `NoMemory`. (openCypher 9, Expressions; the faults: own)
pub fn eval<G: Lookups>(
    alloc: Global,
    expression: &Expr,
    row: &Row,
    graph: &G,
) -> Result<Cell, EvalFault>
    requires { All IsNumbered row.now }
    ensures { (result ≡ cell_of (G.lookups graph.now) row.now (expression_of expression.now)) ⊎ (result ≡ Err NoMemory) }
{
    evaluate(alloc, expression, row.as_slice(), graph)?.into_cell(alloc)
}

/// The value of an expression, as `eval` gives it in a cell; `WrongType` for an entity and for relationships, which are no
/// values.
pub fn eval_value<G: Lookups>(
    alloc: Global,
    expression: &Expr,
    row: &Row,
    graph: &G,
) -> Result<Value, EvalFault>
    requires { All IsNumbered row.now }
    ensures { (result ≡ on_one value_in_cell (cell_of (G.lookups graph.now) row.now (expression_of expression.now))) ⊎ (result ≡ Err NoMemory) }
{
    evaluate(alloc, expression, row.as_slice(), graph)?.into_value(alloc)
}

/// The truth of a condition: that of its value, which isn't copied. `NotBoolean` for what is neither boolean nor null.
pub fn eval_truth<G: Lookups>(
    alloc: Global,
    expression: &Expr,
    row: &Row,
    graph: &G,
) -> Result<Truth, EvalFault>
    requires { All IsNumbered row.now }
    ensures { (result ≡ on_one logic.truth_of (on_one value_in_cell (cell_of (G.lookups graph.now) row.now (expression_of expression.now)))) ⊎ (result ≡ Err NoMemory) }
{
    let cell = evaluate(alloc, expression, row.as_slice(), graph)?;
    truth_of(cell.value()?)
}

/// The cell of an expression that reads columns alone and has no fault, which is the same on every graph. Fails only when
/// out of memory.
pub fn eval_sure(alloc: Global, expression: &Expr, row: &Row) -> Result<Cell, Fault>
    requires columns { IsTrue (reads_columns (expression_of expression.now)) }
    requires sure { (graph : graphs.Lookups) → IsOk (cell_of graph row.now (expression_of expression.now)) }
    requires numbered { All IsNumbered row.now }
    ensures { IfOk result (λ c. (graph : graphs.Lookups) → cell_of graph row.now (expression_of expression.now) ≡ Ok c) }
{
    match eval(alloc, expression, row, &Empty) {
        Ok(cell) => Ok(cell),
        Err(_) => Err(Fault::NoMemory),
    }
}
