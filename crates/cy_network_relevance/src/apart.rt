//! Operators of a plan that have no row in common.

ghost use Rattle.std.specs.Prelude.{◌≡◌, true, List};
ghost use Rattle.cy_values.specs.declared.rows.Cell.{Cell};
ghost use Rattle.cy_planner_algebra.specs.PlanModels.{plan_of};
ghost use Rattle.cy_planner_algebra.specs.WellFormed.{IsWellFormed};
ghost use Rattle.cy_network_relevance.specs.Lists as lists;
ghost use Rattle.cy_network_relevance.specs.Lists.{IsInOne};

use crate::at_least::least_named;
use crate::at_most::most_named;
use cy_planner_algebra::Operator;

/// Whether the first cells of the rows of the one operator name more relationships than those of the other, as far as the plan shows it. Then
/// no row stands among those of both, whatever the graph.
pub fn are_apart(left: &Operator, right: &Operator) -> bool
    requires left { IsWellFormed (plan_of left.now) }
    requires right { IsWellFormed (plan_of right.now) }
    ensures apart { result ≡ lists.are_apart (plan_of left.now) (plan_of right.now) }
    ensures rows { result ≡ true → (row : List Cell) → IsInOne (plan_of left.now) (plan_of right.now) row }
{
    is_above(right, left) || is_above(left, right)
}

/// Whether the first cells of the rows of an operator name more relationships than those of another one.
fn is_above(part: &Operator, other: &Operator) -> bool
    requires part { IsWellFormed (plan_of part.now) }
    requires other { IsWellFormed (plan_of other.now) }
    ensures { result ≡ lists.is_above (lists.least_named (plan_of part.now) 0) (lists.most_named (plan_of other.now) 0) }
{
    match most_named(other, 0) {
        Some(most) => {
            let enough = usize::from(most) + 1;
            least_named(part, 0, enough) == enough
        }
        None => false,
    }
}
