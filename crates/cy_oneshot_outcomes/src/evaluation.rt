//! Expressions on the rows of a table, whose cells name nodes and relationships of the graph.

ghost use Rattle.std.specs.Prelude.{◌≡◌, ◌⊎◌, Result, Err};
ghost use Rattle.cy_trees.specs.TreeModels.{expression_of};
ghost use Rattle.cy_expr.specs.declared.faults.EvalFault.TheVariants.{NoMemory};
ghost use Rattle.cy_expr.specs.Evaluation.{cell_of};
ghost use Rattle.cy_expr.specs.Faults.{on_one};
ghost use Rattle.cy_expr.specs.Graphs.{lookups};
ghost use Rattle.cy_expr.specs.Operators.{value_in_cell};
ghost use Rattle.cy_oneshot_patterns.specs.Matching.{condition};
ghost use Rattle.cy_oneshot_meaning.specs.internal.Answers.{IsRowThere};

use cy_expr::{EvalFault, eval, eval_truth, eval_value};
use cy_index::Store;
use cy_trees::Expr;
use cy_values::{Cell, Row, Truth, Value};
use std::alloc::Global;

/// The cell of an expression on a row.
pub fn cell_on(
    alloc: Global,
    store: &Store,
    expression: &Expr,
    row: &Row,
) -> Result<Cell, EvalFault>
    requires { IsRowThere store.now.graph.now.content row.now }
    ensures { (result ≡ cell_of (lookups store.now.graph.now.content) row.now (expression_of expression.now)) ⊎ (result ≡ Err NoMemory) }
{
    store.laws();
    eval(alloc, expression, row, store)
}

/// The value of an expression on a row.
pub fn value_on(
    alloc: Global,
    store: &Store,
    expression: &Expr,
    row: &Row,
) -> Result<Value, EvalFault>
    requires { IsRowThere store.now.graph.now.content row.now }
    ensures { (result ≡ on_one value_in_cell (cell_of (lookups store.now.graph.now.content) row.now (expression_of expression.now))) ⊎ (result ≡ Err NoMemory) }
{
    store.laws();
    eval_value(alloc, expression, row, store)
}

/// The truth of a condition on a row.
pub fn truth_on(alloc: Global, store: &Store, test: &Expr, row: &Row) -> Result<Truth, EvalFault>
    requires { IsRowThere store.now.graph.now.content row.now }
    ensures { (result ≡ condition store.now.graph.now.content (expression_of test.now) row.now) ⊎ (result ≡ Err NoMemory) }
{
    store.laws();
    eval_truth(alloc, test, row, store)
}
