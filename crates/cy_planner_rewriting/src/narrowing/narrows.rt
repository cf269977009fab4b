//! Plans with columns of their rows. Each call fails only when out of memory.

ghost use Rattle.std.specs.Prelude.{◌≤◌, IfOk, IsTrue, length};
ghost use Rattle.cy_planner_algebra.specs.Plans.{width};
ghost use Rattle.cy_planner_algebra.specs.PlanModels.{plan_of};
ghost use Rattle.cy_planner_algebra.specs.WellFormed.{IsWellFormed};
ghost use Rattle.cy_planner_rewriting.specs.Rewritten.{IsRewritten};
ghost use Rattle.cy_planner_rewriting.specs.internal.Narrows as spec;

use crate::layers::Layer;
use crate::narrowing::ranks::{Ranks, ranked};
use crate::parts::layered;
use cy_planner_algebra::{Operator, Plan, row_columns};
use cy_planner_rows::column_outputs;
use cy_values::{Fault, row_order_laws};
use std::alloc::Global;

/// A plan, and columns of its rows. They make the rows of another plan, which it stands for.
#[derive(Drop)]
pub(crate) struct Narrow {
    pub(crate) plan: Plan,
    pub(crate) columns: Vec<usize>,
}

/// A plan with all columns of its rows.
pub(crate) fn whole(alloc: Global, plan: Plan) -> Result<Narrow, Fault>
    ensures { IfOk result (λ n. IsRewritten (plan_of plan) (spec.restored n)) }
{
    let columns = row_columns(alloc, plan.width())?;
    Ok(Narrow { plan, columns })
}

/// The plan that is stood for.
pub(crate) fn exact(alloc: Global, narrow: Narrow) -> Result<Plan, Fault>
    requires { IsWellFormed (spec.restored narrow) }
    ensures { IfOk result (λ p. IsRewritten (spec.restored narrow) (plan_of p)) }
{
    let Narrow { plan, columns } = narrow;
    let mut layers = Vec::new(alloc);
    layers.push(Layer::Project(column_outputs(alloc, columns.as_slice())?))?;
    layered(alloc, plan, layers)
}

/// Whether a look-up stands above all, whose rows were settled below it, and no column is read by nobody, as far as the number of columns tells.
fn is_looked_up(narrow: &Narrow) -> bool
    ensures { IsTrue result → width (plan_of narrow.now.plan) ≤ length narrow.now.columns.items }
{
    narrow.plan.width() <= narrow.columns.len()
        && matches!(narrow.plan.root(), Operator::Lookup(_, _, _))
}

/// A plan without columns that nobody reads.
pub(crate) fn settled(alloc: Global, narrow: Narrow) -> Result<Narrow, Fault>
    requires { IsWellFormed (spec.restored narrow) }
    ensures same { IfOk result (λ n. IsRewritten (spec.restored narrow) (spec.restored n)) }
    ensures few { IfOk result (λ n. width (plan_of n.plan) ≤ length n.columns.items) }
{
    if is_looked_up(&narrow) {
        return Ok(narrow);
    }
    row_order_laws();
    let Narrow { plan, columns } = narrow;
    let Ranks { kept, places } = ranked(alloc, columns.as_slice(), plan.width())?;
    if kept.len() == plan.width() {
        return Ok(Narrow { plan, columns });
    }
    let outputs = column_outputs(alloc, kept.as_slice())?;
    let plan = plan.project(alloc, outputs)?;
    Ok(Narrow {
        plan,
        columns: places,
    })
}
