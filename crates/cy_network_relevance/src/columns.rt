//! Columns that stand alone in what a projection makes.

ghost use Rattle.std.specs.Prelude.{◌≡◌};
ghost use Rattle.cy_trees.specs.TreeModels.{expression_of};
ghost use Rattle.cy_planner_algebra.specs.Plans.{computed};
ghost use Rattle.cy_planner_algebra.specs.PlanModels.{output_of};
ghost use Rattle.cy_network_relevance.specs.Lists as lists;

use cy_planner_algebra::Output;
use cy_trees::Expr;

/// The column that stands alone in one that a projection makes.
pub fn column_alone(output: &Output) -> Option<usize>
    ensures { result ≡ lists.column_alone (output_of output.now) }
{
    match output {
        Output::Cell(expression) => variable_column(expression),
        Output::Rels(_) => None,
    }
}

/// The column of an expression that is a column alone.
pub(crate) fn variable_column(expression: &Expr) -> Option<usize>
    ensures { result ≡ lists.column_alone (computed (expression_of expression.now)) }
{
    match expression {
        Expr::Variable(variable) => variable.column,
        _ => None,
    }
}
