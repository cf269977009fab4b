//! Plans whose outer joins ask little in their predicates. Each call fails only when out of memory.

mod bases;
mod outers;
mod splitting;

ghost use Rattle.std.specs.Prelude.{IfOk};
ghost use Rattle.cy_planner_algebra.specs.PlanModels.{plan_of};
ghost use Rattle.cy_planner_algebra.specs.WellFormed.{IsWellFormed};
ghost use Rattle.cy_planner_rewriting.specs.internal.Opened.{together};
ghost use Rattle.cy_planner.specs.internal.Standing.{StandsFor};
ghost use Rattle.cy_planner.specs.internal.OuterAbove as spec;

use crate::outer_filters::bases::{Layers, layers_of, put_together};
use cy_planner_algebra::{Operator, Plan};
use cy_planner_rewriting::{Joint, Layer, Part, layered, open_operator};
use cy_values::Fault;
use std::alloc::Global;

/// What stands above the left one of two inputs: how they go together, the right one, and the layers on that.
#[derive(Drop)]
pub(crate) struct OuterAbove {
    joint: Joint,
    right: Plan,
    layers: Vec<Layer>,
}

/// A plan with what stands above it, the uppermost first.
fn put_outer_over(alloc: Global, base: Plan, above: Vec<OuterAbove>) -> Result<Plan, Fault>
    requires { IsWellFormed (spec.put_outer_over above.items (plan_of base)) }
    ensures { IfOk result (λ p. StandsFor (spec.put_outer_over above.items (plan_of base)) (plan_of p)) }
{
    let mut above = above;
    let mut plan = base;
    while let Some(
        OuterAbove {
            joint,
            right,
            layers,
        },
    ) = above.pop()
    {
        let both = put_together(alloc, joint, plan, right)?;
        plan = layered(alloc, both, layers)?;
    }
    Ok(plan)
}

/// Of two operators that go together and can be meant each can be meant.
fn each_meant(_joint: &Joint, _left: &Operator, _right: &Operator)
    requires { IsWellFormed (together _joint.now (plan_of _left.now) (plan_of _right.now)) }
    ensures left { IsWellFormed (plan_of _left.now) }
    ensures right { IsWellFormed (plan_of _right.now) }
{}

/// The plan that stands for an operator and those below it. Of two operators below another one the left one is taken in a loop, and the right one
/// by a call.
fn lowered(alloc: Global, part: Operator) -> Result<Plan, Fault>
    requires { IsWellFormed (plan_of part) }
    ensures { IfOk result (λ p. StandsFor (plan_of part) (plan_of p)) }
{
    let mut above = Vec::new(alloc);
    let mut part = part;
    loop {
        let Layers { layers, base } = layers_of(alloc, part)?;
        match open_operator(base) {
            Part::Leaf(leaf) => {
                let plan = layered(alloc, leaf, layers)?;
                return put_outer_over(alloc, plan, above);
            }
            Part::Both(joint, left, right) => {
                each_meant(&joint, &left, &right);
                let right = lowered(alloc, right)?;
                above.push(OuterAbove {
                    joint,
                    right,
                    layers,
                })?;
                part = left;
            }
            Part::Over(_, _) => unreachable!(),
        }
    }
}

/// A plan in place of another one: what the predicate of an outer join asks of the right rows alone, and what has a truth whatever stands
/// there, is asked of the right input before it is joined, as far down as it can be. Fails only when out of memory.
pub(crate) fn with_low_predicates(alloc: Global, plan: Plan) -> Result<Plan, Fault>
    ensures { IfOk result (λ p. StandsFor (plan_of plan) (plan_of p)) }
{
    lowered(alloc, plan.into_root())
}
