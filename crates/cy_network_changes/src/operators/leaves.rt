//! What changes of the rows of the lowest operators of a plan: of scans, and of the empty row.

ghost use Rattle.std.specs.Prelude.{◌≡◌, ◌≤◌, ◌+◌, ◌⊎◌, true, [], List, Option, IfOk, if◌then◌else◌, is_none, map};
ghost use Rattle.cy_values.specs.declared.rows.Cell.{Cell};
ghost use Rattle.cy_graph.specs.Graph.{State};
ghost use Rattle.cy_planner_algebra.specs.Plans as plan;
ghost use Rattle.cy_planner_algebra.specs.Plans.{Plan};
ghost use Rattle.cy_planner_algebra.specs.PlanModels.{plan_of};
ghost use Rattle.cy_network_operators.specs.Deltas.{row_delta_between};
ghost use Rattle.cy_network_parts.specs.Memories.{is_scan};
ghost use Rattle.cy_network_parts.specs.Parts as parts;
ghost use Rattle.cy_network_parts.specs.internal.Upkeep.{IsDeltaOf, IsStep};
ghost use Rattle.cy_network_sources.specs.Work.{all_reads};

use cy_index::Sight;
use cy_network_memory::RowDelta;
use cy_network_operators::add_row_delta;
use cy_network_parts::is_unit;
use cy_network_sources::{GraphChange, scan};
use cy_planner_algebra::Operator;
use cy_values::{Fault, Sequence};
use std::alloc::Global;

/// What changes of the rows of a scan, with its operators from the top down, or of the empty row, where the graph changes: from nothing, where
/// there was no graph before. Fails only when out of memory.
pub(crate) fn lowest_deltas<'a>(
    alloc: Global,
    part: &Operator,
    scanned: &[&Operator],
    from_nothing: bool,
    change: &GraphChange<'a>,
    sight: &mut Sight<'a>,
) -> Result<Vec<RowDelta>, Fault>
    requires lowest { (is_scan (plan_of part.now) ≡ true) ⊎ (plan_of part.now ≡ plan.unit) }
    requires scanned { map (λ q. plan_of q.now) scanned.now ≡ parts.chain (plan_of part.now) }
    requires begun { (old : Option State) × ((from_nothing ≡ is_none old) × IsStep old sight.old.graph.now change.now (plan_of part.now)) }
    ensures delta { IfOk result (λ deltas. (old : Option State) → from_nothing ≡ is_none old → IsStep old sight.old.graph.now change.now (plan_of part.now)
        → IsDeltaOf old sight.old.graph.now (plan_of part.now) deltas.items) }
    ensures graph { sight.new.graph ≡ sight.old.graph }
    ensures reads { (rows rows_now : Plan → List (List Cell)) → sight.new.reads ≤ sight.old.reads + all_reads rows rows_now change.now (plan_of part.now) }
{
    if is_unit(part) {
        return unit_deltas(alloc, from_nothing);
    }
    scan(alloc, scanned, from_nothing, change, sight)
}

// The empty row is there as soon as there is a graph. Fails only when out of memory.
fn unit_deltas(alloc: Global, from_nothing: bool) -> Result<Vec<RowDelta>, Fault>
    ensures { IfOk result (λ deltas. deltas.items ≡ row_delta_between [] (if from_nothing then 0 else 1) 1) }
{
    let mut deltas = Vec::new(alloc);
    let row = Sequence::new(Vec::new(alloc));
    add_row_delta(&mut deltas, row, u64::from(!from_nothing), 1)?;
    Ok(deltas)
}
