//! Outer joins of plans.

ghost use Rattle.std.specs.Prelude.{◌+◌, ◌≤◌, IfOk};
ghost use Rattle.std.specs.List.{All};
ghost use Rattle.cy_trees.specs.TreeModels.{expression_of};
ghost use Rattle.cy_planner_algebra.specs.Plans as plan;
ghost use Rattle.cy_planner_algebra.specs.PlanModels.{plan_of};
ghost use Rattle.cy_planner_algebra.specs.WellFormed.{IsKeyBetween, IsOver, greatest_width};
ghost use Rattle.cy_planner.specs.internal.Standing.{StandsFor};

use crate::outer_filters::splitting::{Split, taken_apart};
use cy_planner_algebra::{KeyColumns, Plan};
use cy_planner_rows::or_true;
use cy_trees::Expr;
use cy_values::Fault;
use std::alloc::Global;

/// An outer join: what its predicate asks of the right rows alone is asked of the right input. Fails only when out of memory.
pub(crate) fn outer(
    alloc: Global,
    left: Plan,
    right: Plan,
    keys: Vec<KeyColumns>,
    test: Expr,
) -> Result<Plan, Fault>
    requires keys { All (IsKeyBetween (plan.width (plan_of left)) (plan.width (plan_of right))) keys.items }
    requires room { plan.width (plan_of left) + plan.width (plan_of right) ≤ greatest_width }
    requires test { IsOver (plan.width (plan_of left) + plan.width (plan_of right)) (expression_of test) }
    ensures { IfOk result (λ p. StandsFor (plan.outer (plan_of left) (plan_of right) keys.items (expression_of test)) (plan_of p)) }
{
    let Split { right, rest } = taken_apart(alloc, left.width(), right, test)?;
    let made = Plan::outer(alloc, left, right, keys, or_true(rest))?;
    made.meant();
    Ok(made)
}
