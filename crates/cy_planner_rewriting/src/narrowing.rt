//! Plans in place of others, with narrower rows. Each call fails only when out of memory.

mod joints;
mod layers;
mod narrows;
mod ranks;

ghost use Rattle.std.specs.Prelude.{IfOk};
ghost use Rattle.cy_planner_algebra.specs.PlanModels.{plan_of};
ghost use Rattle.cy_planner_algebra.specs.WellFormed.{IsWellFormed};
ghost use Rattle.cy_planner_rewriting.specs.Rewritten.{IsRewritten};
ghost use Rattle.cy_planner_rewriting.specs.internal.NarrowAbove as standing;
ghost use Rattle.cy_planner_rewriting.specs.internal.Narrows.{restored};

use crate::layers::{Joint, Layer, Part, open_operator};
use crate::narrowing::joints::put_together;
use crate::narrowing::layers::put_layer;
use crate::narrowing::narrows::{Narrow, exact, whole};
use cy_planner_algebra::{Operator, Plan};
use cy_values::Fault;
use std::alloc::Global;

/// What stands above an operator, the left one of two that go together.
#[derive(Drop)]
pub(crate) enum Above {
    Layer(Layer),
    Joint(Joint, Narrow),
}

/// What stands above an operator, put over it.
fn put(alloc: Global, below: Narrow, above: Above) -> Result<Narrow, Fault>
    requires { IsWellFormed (standing.over_one above (restored below)) }
    ensures { IfOk result (λ n. IsRewritten (standing.over_one above (restored below)) (restored n)) }
{
    match above {
        Above::Layer(layer) => put_layer(alloc, below, layer),
        Above::Joint(joint, right) => put_together(alloc, joint, below, right),
    }
}

/// A plan with all that stands above it, the uppermost first.
fn put_over(alloc: Global, base: Narrow, above: Vec<Above>) -> Result<Narrow, Fault>
    requires { IsWellFormed (standing.over_all above.items (restored base)) }
    ensures { IfOk result (λ n. IsRewritten (standing.over_all above.items (restored base)) (restored n)) }
{
    let mut above = above;
    let mut narrow = base;
    while let Some(next) = above.pop() {
        narrow = put(alloc, narrow, next)?;
    }
    Ok(narrow)
}

/// An operator with narrower rows. Of two operators below another one the left one is taken in a loop, and the right one by a call.
fn narrow(alloc: Global, part: Operator) -> Result<Narrow, Fault>
    requires { IsWellFormed (plan_of part) }
    ensures { IfOk result (λ n. IsRewritten (plan_of part) (restored n)) }
{
    let mut above = Vec::new(alloc);
    let mut part = part;
    loop {
        match open_operator(part) {
            Part::Leaf(plan) => {
                let base = whole(alloc, plan)?;
                return put_over(alloc, base, above);
            }
            Part::Over(layer, below) => {
                above.push(Above::Layer(layer))?;
                part = below;
            }
            Part::Both(joint, left, right) => {
                let right = narrow(alloc, right)?;
                above.push(Above::Joint(joint, right))?;
                part = left;
            }
        }
    }
}

/// A plan that can stand in place of another one, with narrower rows below joins and look-ups: of two columns that a join's key makes the same
/// the left one is kept, and a column that nobody reads goes before the rows are kept. Fails only when out of memory.
pub fn narrowed(alloc: Global, plan: Plan) -> Result<Plan, Fault>
    ensures { IfOk result (λ p. IsRewritten (plan_of plan) (plan_of p)) }
{
    let narrow = narrow(alloc, plan.into_root())?;
    exact(alloc, narrow)
}
