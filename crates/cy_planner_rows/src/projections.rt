//! Expressions as the columns of a plan.

ghost use Rattle.std.specs.Prelude.{◌≡◌, ◌+◌, ◌≤◌, IfOk, OnOk, length, map, flat_map};
ghost use Rattle.cy_trees.specs.TreeModels.{expression_of};
ghost use Rattle.cy_planner_algebra.specs.Plans.{computed};
ghost use Rattle.cy_planner_algebra.specs.PlanModels.{output_of, plan_of};
ghost use Rattle.cy_planner_algebra.specs.WellFormed.{greatest_width};
ghost use Rattle.cy_planner_rows.specs.internal.Lowered.{lowered};
ghost use Rattle.cy_planner_rows.specs.Places.{place};
ghost use Rattle.cy_planner_rows.specs.internal.Asked.{asked, with_asked};
ghost use Rattle.cy_planner_rows.specs.Rows as spec;

use crate::asked::add_asked;
use crate::filters::check_room;
use crate::lookups::with_lookups;
use crate::lowering::lower;
use crate::wanted::WantedList;
use cy_planner_algebra::{Output, Plan};
use cy_trees::Item;
use cy_values::Fault;
use std::alloc::Global;

/// Adds what the expressions of several items ask.
fn add_asked_by_items(alloc: Global, wanted: &mut WantedList, items: &[Item]) -> Result<(), Fault>
    ensures { OnOk result (wanted.new ≡ with_asked wanted.old (flat_map asked (map (λ i. expression_of i.expression) items.now))) }
{
    for item in items {
        add_asked(alloc, wanted, &item.expression)?;
    }
    Ok(())
}

/// The columns of several items, over columns alone.
fn item_outputs(
    alloc: Global,
    items: &[Item],
    first: usize,
    wanted: &WantedList,
) -> Result<Vec<Output>, Fault>
    requires { first + length wanted.now ≤ greatest_width }
    ensures { IfOk result (λ outputs. map output_of outputs.items ≡ map (λ e. computed (lowered (place first wanted.now) e)) (map (λ i. expression_of i.expression) items.now)) }
{
    let mut outputs = Vec::with_capacity(alloc, items.len())?;
    for item in items {
        outputs.push(Output::Cell(lower(alloc, &item.expression, first, wanted)?))?;
    }
    Ok(outputs)
}

/// Of each row of a plan the cells of the items of WITH or RETURN (openCypher 9, WITH and RETURN): what they ask of the graph is looked
/// up before. Fails only when out of memory.
pub fn project_items(alloc: Global, below: Plan, items: &[Item]) -> Result<Plan, Fault>
    requires { spec.AreReadOver (plan_of below) (map (λ i. expression_of i.expression) items.now) }
    ensures { IfOk result (λ p. spec.IsProjected (plan_of below) (map (λ i. expression_of i.expression) items.now) (plan_of p)) }
{
    let width = below.width();
    let mut wanted = WantedList::new(alloc);
    add_asked_by_items(alloc, &mut wanted, items)?;
    check_room(width, wanted.len())?;
    check_room(0, items.len())?;
    let outputs = item_outputs(alloc, items, width, &wanted)?;
    let wide = with_lookups(alloc, below, wanted.as_slice())?;
    wide.project(alloc, outputs)
}
