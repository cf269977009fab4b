//! What stands above an operator of a plan. Each call fails only when out of memory.

ghost use Rattle.std.specs.Prelude.{◌≡◌, IfOk};
ghost use Rattle.cy_planner_algebra.specs.Plans as plan;
ghost use Rattle.cy_planner_algebra.specs.PlanModels.{plan_of};
ghost use Rattle.cy_planner_algebra.specs.WellFormed.{IsWellFormed};
ghost use Rattle.cy_planner_pushdown.specs.internal.Above as spec;
ghost use Rattle.cy_planner_pushdown.specs.internal.Pairs.{paired};

use cy_planner_algebra::{Attribute, Keeping, KeyColumns, Output, Plan};
use cy_trees::Expr;
use cy_values::Fault;
use std::alloc::Global;

/// An operator without one that stands right below it. The other one below it, if there is one, is there.
#[derive(Drop)]
pub enum Above {
    Lookup(usize, Attribute),
    Filter(Expr),
    AllDifferent(Vec<usize>),
    Project(Vec<Output>),
    Distinct,
    /// A join with this right input.
    JoinLeft(Plan, Vec<KeyColumns>),
    /// A join with this left input.
    JoinRight(Plan, Vec<KeyColumns>),
    /// An outer join with this right input.
    Outer(Plan, Vec<KeyColumns>, Expr),
    /// A semi join with this right input.
    Semi(Plan, Vec<KeyColumns>, Keeping),
    /// A union with this right input.
    Union(Plan),
}

/// How the two operators below an operator stand together.
#[derive(Drop)]
pub(crate) enum Pair {
    Join(Vec<KeyColumns>),
    Union,
}

/// What stands above the left input, where the right one is done.
pub(crate) fn above_left(pair: Pair, right: Plan) -> Above
    ensures { (left : plan.Plan) → spec.placed result left ≡ paired pair left (plan_of right) }
{
    match pair {
        Pair::Join(keys) => Above::JoinLeft(right, keys),
        Pair::Union => Above::Union(right),
    }
}

/// An operator over a plan. Fails only when out of memory.
pub(crate) fn placed(alloc: Global, below: Plan, above: Above) -> Result<Plan, Fault>
    requires { IsWellFormed (spec.placed above (plan_of below)) }
    ensures { IfOk result (λ p. plan_of p ≡ spec.placed above (plan_of below)) }
{
    match above {
        Above::Lookup(column, attribute) => below.lookup(alloc, column, attribute),
        Above::Filter(test) => below.filter(alloc, test),
        Above::AllDifferent(columns) => below.all_different(alloc, columns),
        Above::Project(outputs) => below.project(alloc, outputs),
        Above::Distinct => below.distinct(alloc),
        Above::JoinLeft(right, keys) => Plan::join(alloc, below, right, keys),
        Above::JoinRight(left, keys) => Plan::join(alloc, left, below, keys),
        Above::Outer(right, keys, test) => Plan::outer(alloc, below, right, keys, test),
        Above::Semi(right, keys, keeping) => Plan::semi(alloc, below, right, keys, keeping),
        Above::Union(right) => Plan::union(alloc, below, right),
    }
}

/// Operators over a plan, the uppermost first. Fails only when out of memory.
pub fn placed_over(alloc: Global, below: Plan, above: Vec<Above>) -> Result<Plan, Fault>
    requires { IsWellFormed (spec.placed_over above.items (plan_of below)) }
    ensures { IfOk result (λ p. plan_of p ≡ spec.placed_over above.items (plan_of below)) }
{
    let mut above = above;
    let mut plan = below;
    while let Some(part) = above.pop() {
        plan = placed(alloc, plan, part)?;
    }
    Ok(plan)
}
