//! Conditions on what stands in columns of a plan, put on the operators that this comes from. Each call fails only when out of memory.

ghost use Rattle.std.specs.Prelude.{IfOk};
ghost use Rattle.cy_planner_algebra.specs.PlanModels.{plan_of};
ghost use Rattle.cy_planner_algebra.specs.WellFormed.{IsWellFormed};
ghost use Rattle.cy_planner_pushdown.specs.internal.Above as standing;
ghost use Rattle.cy_planner_pushdown.specs.internal.Pushed.{IsSifted};
ghost use Rattle.cy_planner_pushdown.specs.internal.Tests.{CanAllBePushed, are_true, tests_of};

use crate::above::{above_left, placed};
use crate::places::Place;
use crate::sifting::filter_all;
use crate::steps::step_from;
use crate::ways::{Frame, Step};
use cy_planner_algebra::Plan;
use cy_values::Fault;
use std::alloc::Global;

/// The conditions can be put on an operator.
fn can_go_on(place: &Place)
    requires good { IsWellFormed (plan_of place.now.part) }
    requires can { CanAllBePushed (plan_of place.now.part) (tests_of place.now.tests.items) }
    ensures good { IsWellFormed (plan_of place.now.part) }
    ensures can { CanAllBePushed (plan_of place.now.part) (tests_of place.now.tests.items) }
{}

/// An operator over what was made below it, with the conditions that stay on it.
fn put_back(alloc: Global, below: Plan, frame: Frame) -> Result<Plan, Fault>
    requires good { IsWellFormed (standing.placed frame.above (plan_of below)) }
    requires can { CanAllBePushed (standing.placed frame.above (plan_of below)) (tests_of frame.here.items) }
    ensures { IfOk result (λ p. IsSifted (standing.placed frame.above (plan_of below)) (are_true (tests_of frame.here.items)) (plan_of p)) }
{
    let Frame { above, here } = frame;
    let plan = placed(alloc, below, above)?;
    if here.is_empty() {
        return Ok(plan);
    }
    filter_all(alloc, plan, here)
}

/// The rows of an operator for which all conditions are true. It is taken apart once for them, and those below it as far down as some go; of two
/// operators below one the left one is taken in a loop, and the right one by a call.
pub(crate) fn push(alloc: Global, place: Place) -> Result<Plan, Fault>
    requires good { IsWellFormed (plan_of place.part) }
    requires can { CanAllBePushed (plan_of place.part) (tests_of place.tests.items) }
    ensures { IfOk result (λ p. IsSifted (plan_of place.part) (are_true (tests_of place.tests.items)) (plan_of p)) }
{
    let mut frames = Vec::new(alloc);
    let mut place = place;
    let mut plan = loop {
        match step_from(alloc, place)? {
            Step::Here(part, here) => break filter_all(alloc, Plan::from_root(part), here)?,
            Step::Below(frame, below) => {
                frames.push(frame)?;
                place = below;
            }
            Step::Both(pair, here, left, right) => {
                can_go_on(&right);
                let right = push(alloc, right)?;
                right.meant();
                frames.push(Frame {
                    above: above_left(pair, right),
                    here,
                })?;
                place = left;
            }
        }
    };
    plan.meant();
    while let Some(frame) = frames.pop() {
        plan = put_back(alloc, plan, frame)?;
        plan.meant();
    }
    Ok(plan)
}
