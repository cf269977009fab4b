//! Layers put on plans. Each call fails only when out of memory.

ghost use Rattle.std.specs.Prelude.{IfOk, map};
ghost use Rattle.cy_planner_algebra.specs.Plans as plan;
ghost use Rattle.cy_planner_algebra.specs.PlanModels.{output_of, plan_of};
ghost use Rattle.cy_planner_algebra.specs.WellFormed.{IsWellFormed};
ghost use Rattle.cy_planner_rows.specs.internal.Lookups.{over};
ghost use Rattle.cy_planner_rewriting.specs.internal.Opened.{over_layer};
ghost use Rattle.cy_planner_rewriting.specs.Rewritten.{IsRewritten};
ghost use Rattle.cy_planner_rewriting.specs.internal.Layers as spec;

use crate::layers::{Layer, add_projection, settle};
use crate::outputs::are_first_columns;
use cy_planner_algebra::{Output, Plan};
use cy_planner_rows::Wanted;
use cy_values::Fault;
use std::alloc::Global;

/// Of each row of a plan another one. A projection to all columns in their order changes nothing.
fn projected(alloc: Global, below: Plan, outputs: Vec<Output>) -> Result<Plan, Fault>
    requires { IsWellFormed (plan.project (plan_of below) (map output_of outputs.items)) }
    ensures { IfOk result (λ p. IsRewritten (plan.project (plan_of below) (map output_of outputs.items)) (plan_of p)) }
{
    if below.width() == outputs.len() && are_first_columns(outputs.as_slice()) {
        Ok(below)
    } else {
        below.project(alloc, outputs)
    }
}

/// A layer over a plan.
fn with_layer(alloc: Global, below: Plan, layer: Layer) -> Result<Plan, Fault>
    requires { IsWellFormed (over_layer layer (plan_of below)) }
    ensures { IfOk result (λ p. IsRewritten (over_layer layer (plan_of below)) (plan_of p)) }
{
    match layer {
        Layer::Lookup(column, attribute) => below.lookup(alloc, column, attribute),
        Layer::Filter(test) => below.filter(alloc, test),
        Layer::AllDifferent(columns) => below.all_different(alloc, columns),
        Layer::Project(outputs) => projected(alloc, below, outputs),
        Layer::Distinct => below.distinct(alloc),
    }
}

/// Layers over a plan, the uppermost first. Fails only when out of memory.
pub fn layered(alloc: Global, base: Plan, layers: Vec<Layer>) -> Result<Plan, Fault>
    requires { IsWellFormed (spec.layered layers.items (plan_of base)) }
    ensures { IfOk result (λ p. IsRewritten (spec.layered layers.items (plan_of base)) (plan_of p)) }
{
    let mut layers = layers;
    let mut plan = base;
    while let Some(layer) = layers.pop() {
        plan = with_layer(alloc, plan, layer)?;
    }
    Ok(plan)
}

/// Layers over look-ups on a plan.
pub(crate) fn over_lookups(
    alloc: Global,
    base: Plan,
    lookups: Vec<Wanted>,
    layers: Vec<Layer>,
) -> Result<Plan, Fault>
    requires { IsWellFormed (spec.layered layers.items (over (plan_of base) lookups.items)) }
    ensures { IfOk result (λ p. IsRewritten (spec.layered layers.items (over (plan_of base) lookups.items)) (plan_of p)) }
{
    let mut layers = layers;
    let mut lookups = lookups;
    lookups.reverse();
    settle(&mut layers, &mut lookups)?;
    layered(alloc, base, layers)
}

/// Layers over a plan, or over a projection of it, if there is one.
pub(crate) fn over_outputs(
    alloc: Global,
    base: Plan,
    outputs: Option<Vec<Output>>,
    layers: Vec<Layer>,
) -> Result<Plan, Fault>
    requires { IsWellFormed (spec.layered layers.items (spec.over_outputs outputs (plan_of base))) }
    ensures { IfOk result (λ p. IsRewritten (spec.layered layers.items (spec.over_outputs outputs (plan_of base))) (plan_of p)) }
{
    match outputs {
        Some(outputs) => over_projection(alloc, base, outputs, layers),
        None => layered(alloc, base, layers),
    }
}

/// Layers over a projection of a plan.
fn over_projection(
    alloc: Global,
    base: Plan,
    outputs: Vec<Output>,
    layers: Vec<Layer>,
) -> Result<Plan, Fault>
    requires { IsWellFormed (spec.layered layers.items (plan.project (plan_of base) (map output_of outputs.items))) }
    ensures { IfOk result (λ p. IsRewritten (spec.layered layers.items (plan.project (plan_of base) (map output_of outputs.items))) (plan_of p)) }
{
    let mut layers = layers;
    add_projection(alloc, &mut layers, outputs)?;
    layered(alloc, base, layers)
}
