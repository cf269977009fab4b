//! Plans in place of others. Each call fails only when out of memory.

ghost use Rattle.std.specs.Prelude.{IfOk};
ghost use Rattle.cy_planner_algebra.specs.PlanModels.{plan_of};
ghost use Rattle.cy_planner_algebra.specs.WellFormed.{IsWellFormed};
ghost use Rattle.cy_planner_rewriting.specs.Rewritten.{IsRewritten};
ghost use Rattle.cy_planner_rewriting.specs.internal.Above as standing;
ghost use Rattle.cy_planner_rewriting.specs.internal.Splits as spec;

use crate::layers::{Layer, Layers, taken_apart};
use crate::parts::layered;
use crate::splits::{Rejoin, Side, Split, bare_side, put_together, split_base};
use cy_planner_algebra::Plan;
use cy_values::Fault;
use std::alloc::Global;

/// What stands above the left one of two inputs: how they go together, the right one, and the layers on that.
#[derive(Drop)]
pub(crate) struct Above {
    joint: Rejoin,
    right: Plan,
    layers: Vec<Layer>,
}

/// A plan with what stands above it, the uppermost first.
fn put_over(alloc: Global, base: Plan, above: Vec<Above>) -> Result<Plan, Fault>
    requires { IsWellFormed (standing.put_over above.items (plan_of base)) }
    ensures { IfOk result (λ p. IsRewritten (standing.put_over above.items (plan_of base)) (plan_of p)) }
{
    let mut above = above;
    let mut plan = base;
    while let Some(
        Above {
            joint,
            right,
            layers,
        },
    ) = above.pop()
    {
        plan = put_together(alloc, joint, plan, right, layers)?;
    }
    Ok(plan)
}

/// An operator with look-ups on it. Of two operators below each other the left one is taken in a loop, and the right one by a call.
fn rewritten_side(alloc: Global, side: Side) -> Result<Plan, Fault>
    requires { IsWellFormed (spec.side_plan side) }
    ensures { IfOk result (λ p. IsRewritten (spec.side_plan side) (plan_of p)) }
{
    let mut above = Vec::new(alloc);
    let mut side = side;
    loop {
        let Layers {
            layers,
            lookups,
            base,
        } = taken_apart(alloc, side.part, side.lookups)?;
        match split_base(alloc, base, lookups)? {
            Split::Leaf(base) => {
                let plan = layered(alloc, base, layers)?;
                return put_over(alloc, plan, above);
            }
            Split::Both(joint, left, right) => {
                let right = rewritten_side(alloc, right)?;
                above.push(Above {
                    joint,
                    right,
                    layers,
                })?;
                side = left;
            }
        }
    }
}

/// A plan that can stand in place of another one, and costs less to keep up. A join with the empty row, a projection to all columns
/// in their order and a test that no relationship stands twice in no column go. A projection that takes over columns alone goes up
/// over conditions and tests, and is one with a projection over it. What is looked up of an entity is looked up where the entity comes
/// from, below the joins. Fails only when out of memory.
pub fn rewritten(alloc: Global, plan: Plan) -> Result<Plan, Fault>
    ensures { IfOk result (λ p. IsRewritten (plan_of plan) (plan_of p)) }
{
    rewritten_side(alloc, bare_side(alloc, plan.into_root()))
}
