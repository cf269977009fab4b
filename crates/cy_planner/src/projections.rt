//! WITH and RETURN.

ghost use Rattle.std.specs.Prelude.{◌≡◌, IfOk, length};
ghost use Rattle.cy_trees.specs.TreeModels.{filter_of, projection_of};
ghost use Rattle.cy_scope_kinds.specs.Scopes.{Scope};
ghost use Rattle.cy_planner_algebra.specs.PlanModels.{plan_of};
ghost use Rattle.cy_planner_rows.specs.Rows.{AreReadOver};
ghost use Rattle.cy_planner_optional.specs.Matched.{IsTestKinded};
ghost use Rattle.cy_planner.specs.internal.Projections as spec;

use cy_oneshot_meaning::laws::distinct_and_order;
use cy_planner_algebra::Plan;
use cy_planner_pushdown::filter_low;
use cy_planner_rows::project_items;
use cy_trees::{Expr, Projection};
use cy_values::{Fault, row_order_laws};
use std::alloc::Global;

/// The rows of a projection without aggregates and without order, which stand in no query of a view (openCypher 9, WITH and RETURN).
/// Fails only when out of memory.
pub(crate) fn project_rows(
    alloc: Global,
    below: Plan,
    projection: &Projection,
) -> Result<Plan, Fault>
    requires read { AreReadOver (plan_of below) (spec.expressions_in (projection_of projection.now).items) }
    requires plain { spec.IsPlain (projection_of projection.now) }
    ensures { IfOk result (λ p. spec.IsProjection (plan_of below) (projection_of projection.now) (plan_of p)) }
{
    distinct_and_order();
    let made = project_items(alloc, below, projection.items.as_slice())?;
    if projection.distinct {
        return made.distinct(alloc);
    }
    Ok(made)
}

/// The rows of WITH, with its WHERE (openCypher 9, WITH and WHERE), where its projection is without aggregates and without order. Fails
/// only when out of memory.
pub(crate) fn with_rows(
    alloc: Global,
    below: Plan,
    projection: &Projection,
    filter: &Option<Expr>,
) -> Result<Plan, Fault>
    requires read { AreReadOver (plan_of below) (spec.expressions_in (projection_of projection.now).items) }
    requires plain { spec.IsPlain (projection_of projection.now) }
    requires test { (after : Scope) × (length after ≡ length (projection_of projection.now).items) × IsTestKinded after (filter_of filter.now) }
    ensures { IfOk result (λ p. spec.IsWith (plan_of below) (projection_of projection.now) (filter_of filter.now) (plan_of p)) }
{
    row_order_laws();
    let made = project_rows(alloc, below, projection)?;
    match filter {
        None => Ok(made),
        Some(test) => filter_low(alloc, made, test),
    }
}
