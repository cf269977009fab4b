//! What the layers of a plan stand on. Each call fails only when out of memory.

ghost use Rattle.std.specs.Prelude.{◌≤◌, IfOk};
ghost use Rattle.cy_planner_algebra.specs.declared.operators.Operator.{size-Operator};
ghost use Rattle.cy_planner_algebra.specs.PlanModels.{plan_of};
ghost use Rattle.cy_planner_algebra.specs.WellFormed.{IsWellFormed};
ghost use Rattle.cy_planner_rewriting.specs.Rewritten.{IsRewritten};
ghost use Rattle.cy_planner_rewriting.specs.internal.Opened.{together};
ghost use Rattle.cy_planner_rewriting.specs.internal.Layers as layers;
ghost use Rattle.cy_planner.specs.internal.Standing.{StandsFor};

use crate::outer_filters::outers::outer;
use cy_planner_algebra::{Operator, Plan};
use cy_planner_rewriting::{Joint, Layer, Opened, joined, open_part};
use cy_values::Fault;
use std::alloc::Global;

/// The layers of a plan, the uppermost first, and what these stand on.
#[derive(Drop)]
pub(crate) struct Layers {
    pub(crate) layers: Vec<Layer>,
    pub(crate) base: Operator,
}

/// A plan taken apart into layers and what these stand on.
pub(crate) fn layers_of(alloc: Global, part: Operator) -> Result<Layers, Fault>
    ensures same { IfOk result (λ r. IsRewritten (plan_of part) (layers.layered r.layers.items (plan_of r.base))) }
    ensures base { IfOk result (λ r. layers.IsBase (plan_of r.base)) }
    ensures no_deeper { IfOk result (λ r. size-Operator r.base ≤ size-Operator part) }
{
    let mut layers = Vec::new(alloc);
    let mut part = part;
    loop {
        match open_part(part) {
            Opened::Over(layer, below) => {
                layers.push(layer)?;
                part = below;
            }
            Opened::Same(other) => part = other,
            Opened::Base(base) => return Ok(Layers { layers, base }),
        }
    }
}

/// Two plans together: what the predicate of an outer join asks of the right rows alone is asked of the right input.
pub(crate) fn put_together(
    alloc: Global,
    joint: Joint,
    left: Plan,
    right: Plan,
) -> Result<Plan, Fault>
    requires { IsWellFormed (together joint (plan_of left) (plan_of right)) }
    ensures { IfOk result (λ p. StandsFor (together joint (plan_of left) (plan_of right)) (plan_of p)) }
{
    match joint {
        Joint::Outer(keys, test) => outer(alloc, left, right, keys, test),
        joint => joined(alloc, joint, left, right),
    }
}
