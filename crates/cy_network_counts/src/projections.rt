//! How a change goes through `Project`.

ghost use Rattle.std.specs.Prelude.{◌≡◌, ◌+◌, ◌*◌, ◌<◌, ◌≤◌, true, List, IfOk, IfErr, OnOk, length, map, nat_lt};
ghost use Rattle.std.specs.List.{All, list_all};
ghost use Rattle.cy_values.specs.declared.rows.Cell.{Cell};
ghost use Rattle.cy_expr.specs.Lookups.{IsNumbered};
ghost use Rattle.cy_network_memory.specs.declared.faults.MemoryFault.TheVariants.{TooManyRows};
ghost use Rattle.cy_network_memory.specs.Counts.{greatest_count};
ghost use Rattle.cy_planner_algebra.specs.Expressions as expressions;
ghost use Rattle.cy_planner_algebra.specs.Sure.{HasCells};
ghost use Rattle.cy_planner_algebra.specs.Plans as plan;
ghost use Rattle.cy_planner_algebra.specs.PlanModels.{output_of};
ghost use Rattle.cy_network_memory.specs.declared.memory.RowDelta.{RowDelta};
ghost use Rattle.cy_network_operators.specs.Deltas.{IsBounded, IsDelta, counts};
ghost use Rattle.cy_network_counts.specs.Merges.{AreBounded, IsImageChange, IsOneToOneOn, image};

use crate::greatest::together;
use crate::merges::merge;
use cy_network_memory::{Memory, MemoryFault, RowDelta};
use cy_planner_algebra::{Output, rows};
use cy_values::Fault;
use std::alloc::Global;

/// The row deltas with the rows that a projection makes of theirs. Where it makes different rows of different ones, this is what changes of its rows.
/// Fails only when out of memory, and never where there are none.
pub fn images_of(
    alloc: Global,
    outputs: &[Output],
    deltas: Vec<RowDelta>,
) -> Result<Vec<RowDelta>, Fault>
    requires sure { All (λ s. HasCells (map output_of outputs.now) s.row) deltas.items }
    requires numbered { All (λ s. All IsNumbered s.row) deltas.items }
    ensures images { IfOk result (λ images. images.items ≡ map (image (expressions.projected (map output_of outputs.now))) deltas.items) }
    ensures nothing { IfErr result (λ _. 0 < length deltas.items) }
{
    let mut images = Vec::with_capacity(alloc, deltas.len())?;
    for row_delta in deltas {
        let row = rows::projected(alloc, outputs, &row_delta.row)?;
        images.push(RowDelta {
            row,
            before: row_delta.before,
            after: row_delta.after,
        })?;
    }
    Ok(images)
}

/// What changes of the rows of a projection, by the images of the rows below it that change. The memory holds the projection's rows as
/// they were; its key is the whole row. What it counts after the change is staged. `TooManyRows` where a row of the projection counts
/// too often after the change; otherwise it fails only when out of memory, and never where nothing changes. After a refusal a part may
/// be staged.
pub fn project<M: Memory>(
    alloc: Global,
    memory: &mut M,
    images: Vec<RowDelta>,
) -> Result<Vec<RowDelta>, MemoryFault>
    requires bounded { All IsBounded images.items }
    requires settled { M.staged memory.old ≡ M.was memory.old }
    requires counts { AreBounded (M.was memory.old) }
    requires held { (outputs : List plan.Output) × ((before : List (List Cell)) × ((after : List (List Cell)) × IsImageChange outputs (M.was memory.old) images.items before after)) }
    ensures delta { IfOk result (λ made. (outputs : List plan.Output) (before after : List (List Cell)) → IsImageChange outputs (M.was memory.old) images.items before after
        → IsDelta (counts (map (expressions.projected outputs) before)) (counts (map (expressions.projected outputs) after)) made.items) }
    ensures staged { OnOk result ((outputs : List plan.Output) (before after : List (List Cell)) → IsImageChange outputs (M.was memory.old) images.items before after
        → M.staged memory.new ≡ counts (map (expressions.projected outputs) after)) }
    ensures deltas { IfOk result (λ made. All IsBounded made.items) }
    ensures counts { OnOk result (AreBounded (M.staged memory.new)) }
    ensures was { M.was memory.new ≡ M.was memory.old }
    ensures columns { M.key_columns memory.new ≡ M.key_columns memory.old }
    ensures too_many { IfErr result (λ fault. fault ≡ TooManyRows → (outputs : List plan.Output) (before after : List (List Cell)) → IsImageChange outputs (M.was memory.old) images.items before after
        → (row : List Cell) × (greatest_count < counts (map (expressions.projected outputs) after) row)) }
    ensures steps { M.EXACT ≡ true → M.step_count memory.new ≤ M.step_count memory.old + 2 * length images.items }
    ensures grows { M.step_count memory.old ≤ M.step_count memory.new }
    ensures nothing { IfErr result (λ _. 0 < length images.items) }
{
    merge(alloc, memory, images)
}

/// What changes of the rows of a projection that makes different rows of different ones of those before, and of those after, by the images of the
/// rows below it that change: a row that comes may give what one gave that goes, so the two are taken together, and no memory is needed that
/// outlasts the change. Fails only when out of memory, and never where nothing changes.
pub fn gather(alloc: Global, images: Vec<RowDelta>) -> Result<Vec<RowDelta>, Fault>
    ensures delta { IfOk result (λ made. (outputs : List plan.Output) (deltas : List RowDelta) (before after : List (List Cell))
        → images.items ≡ map (image (expressions.projected outputs)) deltas → IsOneToOneOn before outputs → IsOneToOneOn after outputs → IsDelta (counts before) (counts after) deltas
        → IsDelta (counts (map (expressions.projected outputs) before)) (counts (map (expressions.projected outputs) after)) made.items) }
    ensures bounded { IfOk result (λ made. All IsBounded images.items → All IsBounded made.items) }
    ensures nothing { IfErr result (λ _. 0 < length images.items) }
{
    if none_come(&images) || none_go(&images) {
        return Ok(images);
    }
    together(alloc, images)
}

// Whether each row counts before.
fn none_come(deltas: &[RowDelta]) -> bool
    ensures { result ≡ list_all (λ (s : RowDelta). nat_lt 0 s.before) deltas.now }
{
    deltas.iter().all(|row_delta| 0 < row_delta.before)
}

// Whether each row counts after.
fn none_go(deltas: &[RowDelta]) -> bool
    ensures { result ≡ list_all (λ (s : RowDelta). nat_lt 0 s.after) deltas.now }
{
    deltas.iter().all(|row_delta| 0 < row_delta.after)
}
