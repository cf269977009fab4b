//! How a change goes through `Union`.

ghost use Rattle.std.specs.Prelude.{◌≡◌, ◌++◌, ◌+◌, ◌*◌, ◌<◌, ◌≤◌, true, List, IfOk, IfErr, OnOk, length};
ghost use Rattle.std.specs.List.{All};
ghost use Rattle.cy_values.specs.declared.rows.Cell.{Cell};
ghost use Rattle.cy_network_memory.specs.declared.faults.MemoryFault.TheVariants.{TooManyRows};
ghost use Rattle.cy_network_memory.specs.Counts.{greatest_count};
ghost use Rattle.cy_network_operators.specs.Deltas.{IsBounded, IsDelta, counts};
ghost use Rattle.cy_network_counts.specs.Merges.{AreBounded, IsUnionChange, Sides};

use crate::merges::merge;
use cy_network_memory::{Memory, MemoryFault, RowDelta};
use std::alloc::Global;

/// What changes of the rows of a union, where the rows of its two inputs change. The memory holds the union's rows as they were; its
/// key is the whole row. What it counts after the change is staged. `TooManyRows` where a row of the union counts too often after
/// the change; otherwise it fails only when out of memory, and never where nothing changes. After a refusal a part may be staged.
pub fn union<M: Memory>(
    alloc: Global,
    memory: &mut M,
    left: Vec<RowDelta>,
    right: Vec<RowDelta>,
) -> Result<Vec<RowDelta>, MemoryFault>
    requires bounded_left { All IsBounded left.items }
    requires bounded_right { All IsBounded right.items }
    requires settled { M.staged memory.old ≡ M.was memory.old }
    requires counts { AreBounded (M.was memory.old) }
    requires held { (before : Sides) × ((after : Sides) × IsUnionChange (M.key_columns memory.old) (M.was memory.old) left.items right.items before after) }
    ensures delta { IfOk result (λ made. (before after : Sides) → IsUnionChange (M.key_columns memory.old) (M.was memory.old) left.items right.items before after
        → IsDelta (counts (before.left ++ before.right)) (counts (after.left ++ after.right)) made.items) }
    ensures staged { OnOk result ((before after : Sides) → IsUnionChange (M.key_columns memory.old) (M.was memory.old) left.items right.items before after
        → M.staged memory.new ≡ counts (after.left ++ after.right)) }
    ensures deltas { IfOk result (λ made. All IsBounded made.items) }
    ensures counts { OnOk result (AreBounded (M.staged memory.new)) }
    ensures was { M.was memory.new ≡ M.was memory.old }
    ensures columns { M.key_columns memory.new ≡ M.key_columns memory.old }
    ensures too_many { IfErr result (λ fault. fault ≡ TooManyRows → (before after : Sides) → IsUnionChange (M.key_columns memory.old) (M.was memory.old) left.items right.items before after
        → (row : List Cell) × (greatest_count < counts (after.left ++ after.right) row)) }
    ensures steps { M.EXACT ≡ true → M.step_count memory.new ≤ M.step_count memory.old + 2 * (length left.items + length right.items) }
    ensures grows { M.step_count memory.old ≤ M.step_count memory.new }
    ensures nothing { IfErr result (λ _. 0 < length left.items + length right.items) }
{
    let mut changes = left;
    for row_delta in right {
        changes.push(row_delta)?;
    }
    merge(alloc, memory, changes)
}
