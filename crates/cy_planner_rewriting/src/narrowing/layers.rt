//! Operators with one operator below them. Each call fails only when out of memory.

ghost use Rattle.std.specs.Prelude.{IfOk, map};
ghost use Rattle.cy_trees.specs.TreeModels.{expression_of};
ghost use Rattle.cy_planner_algebra.specs.Plans as plan;
ghost use Rattle.cy_planner_algebra.specs.PlanModels.{output_of};
ghost use Rattle.cy_planner_algebra.specs.WellFormed.{IsWellFormed};
ghost use Rattle.cy_planner_rewriting.specs.Rewritten.{IsRewritten};
ghost use Rattle.cy_planner_rewriting.specs.internal.Opened.{over_layer};
ghost use Rattle.cy_planner_rewriting.specs.internal.Narrows.{restored};

use crate::layers::Layer;
use crate::narrowing::narrows::{Narrow, exact, settled, whole};
use crate::outputs::{columns_of, renumber_members, renumber_outputs};
use cy_planner_algebra::{Attribute, Output};
use cy_planner_rows::renumber;
use cy_trees::Expr;
use cy_values::Fault;
use std::alloc::Global;

/// A look-up keeps the rows below it, so these are settled.
fn looked_up(
    alloc: Global,
    below: Narrow,
    column: usize,
    attribute: Attribute,
) -> Result<Narrow, Fault>
    requires { IsWellFormed (plan.lookup (restored below) column attribute) }
    ensures { IfOk result (λ n. IsRewritten (plan.lookup (restored below) column attribute) (restored n)) }
{
    let Narrow { plan, columns } = settled(alloc, below)?;
    let mut columns = columns;
    let place = columns[column];
    columns.push(plan.width())?;
    let plan = plan.lookup(alloc, place, attribute)?;
    Ok(Narrow { plan, columns })
}

fn filtered(alloc: Global, below: Narrow, test: Expr) -> Result<Narrow, Fault>
    requires { IsWellFormed (plan.filter (restored below) (expression_of test)) }
    ensures { IfOk result (λ n. IsRewritten (plan.filter (restored below) (expression_of test)) (restored n)) }
{
    let Narrow { plan, columns } = below;
    let test = renumber(alloc, &test, columns.as_slice())?;
    let plan = plan.filter(alloc, test)?;
    Ok(Narrow { plan, columns })
}

fn all_different(alloc: Global, below: Narrow, members: Vec<usize>) -> Result<Narrow, Fault>
    requires { IsWellFormed (plan.all_different (restored below) members.items) }
    ensures { IfOk result (λ n. IsRewritten (plan.all_different (restored below) members.items) (restored n)) }
{
    let Narrow { plan, columns } = below;
    let members = renumber_members(alloc, members.as_slice(), columns.as_slice())?;
    let plan = plan.all_different(alloc, members)?;
    Ok(Narrow { plan, columns })
}

/// A projection to columns is put off.
fn projected(alloc: Global, below: Narrow, outputs: Vec<Output>) -> Result<Narrow, Fault>
    requires { IsWellFormed (plan.project (restored below) (map output_of outputs.items)) }
    ensures { IfOk result (λ n. IsRewritten (plan.project (restored below) (map output_of outputs.items)) (restored n)) }
{
    let Narrow { plan, columns } = below;
    match columns_of(alloc, outputs.as_slice())? {
        Some(taken) => {
            let columns = renumber_members(alloc, taken.as_slice(), columns.as_slice())?;
            Ok(Narrow { plan, columns })
        }
        None => {
            let outputs = renumber_outputs(alloc, outputs.as_slice(), columns.as_slice())?;
            whole(alloc, plan.project(alloc, outputs)?)
        }
    }
}

fn distinct(alloc: Global, below: Narrow) -> Result<Narrow, Fault>
    requires { IsWellFormed (plan.distinct (restored below)) }
    ensures { IfOk result (λ n. IsRewritten (plan.distinct (restored below)) (restored n)) }
{
    let below = exact(alloc, below)?;
    whole(alloc, below.distinct(alloc)?)
}

/// A layer over a plan.
pub(crate) fn put_layer(alloc: Global, below: Narrow, layer: Layer) -> Result<Narrow, Fault>
    requires { IsWellFormed (over_layer layer (restored below)) }
    ensures { IfOk result (λ n. IsRewritten (over_layer layer (restored below)) (restored n)) }
{
    match layer {
        Layer::Lookup(column, attribute) => looked_up(alloc, below, column, attribute),
        Layer::Filter(test) => filtered(alloc, below, test),
        Layer::AllDifferent(members) => all_different(alloc, below, members),
        Layer::Project(outputs) => projected(alloc, below, outputs),
        Layer::Distinct => distinct(alloc, below),
    }
}
