//! In which column the rows of a scan name their entity.

ghost use Rattle.std.specs.Prelude.{◌≡◌, map};
ghost use Rattle.cy_trees.specs.TreeModels.{expression_of};
ghost use Rattle.cy_planner_algebra.specs.Plans.{computed};
ghost use Rattle.cy_planner_algebra.specs.PlanModels.{output_of, plan_of};
ghost use Rattle.cy_network_sources.specs.Scans as scans;

use cy_planner_algebra::{Operator, Output};
use cy_trees::Expr;

/// In which column each row of an operator of a plan names its entity, where that of the one operator below it is given; none of an operator that is no
/// scan.
pub fn column_over(part: &Operator, below: Option<usize>) -> Option<usize>
    ensures { result ≡ scans.column_over (plan_of part.now) below }
{
    match part {
        Operator::Nodes | Operator::Rels(_, _) => Some(0),
        Operator::Lookup(_, column, _) => if_this(*column, below),
        Operator::Filter(_, _) | Operator::AllDifferent(_, _) => below,
        Operator::Project(_, outputs) => kept(outputs, below),
        _ => None,
    }
}

// A column, if it is this one.
fn if_this(column: usize, other: Option<usize>) -> Option<usize>
    ensures { result ≡ scans.if_this column other }
{
    match other {
        Some(other) if other == column => Some(other),
        _ => None,
    }
}

/// Where a column stands among those that a projection makes: the first that is this column alone.
pub fn kept_at(outputs: &[Output], column: usize) -> Option<usize>
    ensures { result ≡ scans.kept_at column (map output_of outputs.now) }
{
    for at in 0..outputs.len() {
        if is_column(&outputs[at], column) {
            return Some(at);
        }
    }
    None
}

// Where a column, if there is one, stands among those that a projection makes.
fn kept(outputs: &[Output], column: Option<usize>) -> Option<usize>
    ensures { result ≡ scans.kept column (map output_of outputs.now) }
{
    match column {
        Some(column) => kept_at(outputs, column),
        None => None,
    }
}

/// Whether a column that a projection makes is a column alone: this one.
pub(crate) fn is_column(output: &Output, column: usize) -> bool
    ensures { result ≡ scans.is_column column (output_of output.now) }
{
    match output {
        Output::Cell(expression) => is_variable(expression, column),
        Output::Rels(_) => false,
    }
}

/// Whether an expression is a column alone: this one.
pub(crate) fn is_variable(expression: &Expr, column: usize) -> bool
    ensures { result ≡ scans.is_column column (computed (expression_of expression.now)) }
{
    match expression {
        Expr::Variable(variable) => is_this(variable.column, column),
        _ => false,
    }
}

// Whether a column, if there is one, is this one.
fn is_this(found: Option<usize>, column: usize) -> bool
    ensures { result ≡ scans.is_this column found }
{
    match found {
        Some(found) => found == column,
        None => false,
    }
}
