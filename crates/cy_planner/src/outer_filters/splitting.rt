//! The predicate of an outer join, taken apart: what it asks of the right rows alone is put on the right input.

ghost use Rattle.std.specs.Prelude.{IfOk, option_map};
ghost use Rattle.cy_trees.specs.TreeModels.{expression_of};
ghost use Rattle.cy_planner_algebra.specs.PlanModels.{plan_of};
ghost use Rattle.cy_planner.specs.internal.SplitPredicates as spec;

use cy_planner_algebra::Plan;
use cy_planner_pushdown::{Kept, keep_after};
use cy_planner_rows::{all_of, conjuncts};
use cy_trees::Expr;
use cy_values::Fault;
use std::alloc::Global;

/// The right input of an outer join, and what is left of the predicate.
#[derive(Drop)]
pub(crate) struct Split {
    pub(crate) right: Plan,
    pub(crate) rest: Option<Expr>,
}

/// Those of the conditions that AND joins are put on the right input that read it alone and have a truth whatever stands there. The others are
/// joined in halves: many of them make no deep tree. Fails only when out of memory.
pub(crate) fn taken_apart(
    alloc: Global,
    before: usize,
    right: Plan,
    test: Expr,
) -> Result<Split, Fault>
    ensures { IfOk result (λ s. spec.IsSplit before (plan_of right) (expression_of test) (plan_of s.right) (option_map expression_of s.rest)) }
{
    let tests = conjuncts(alloc, test)?;
    let Kept { plan, rest } = keep_after(alloc, before, right, tests)?;
    let rest = all_of(alloc, rest)?;
    Ok(Split { right: plan, rest })
}
