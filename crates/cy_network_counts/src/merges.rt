//! The delta of sums of counts: one row may have several row deltas, and what it counts is their sum.

mod distinct_rows;
mod stages;

ghost use Rattle.std.specs.Prelude.{◌≡◌, ◌++◌, ◌+◌, ◌*◌, ◌<◌, ◌≤◌, true, List, IfOk, IfErr, OnOk, length};
ghost use Rattle.std.specs.List.{All};
ghost use Rattle.cy_values.specs.declared.rows.Cell.{Cell};
ghost use Rattle.cy_network_memory.specs.declared.faults.MemoryFault.TheVariants.{NoMemory, TooManyRows};
ghost use Rattle.cy_network_memory.specs.Counts.{greatest_count};
ghost use Rattle.cy_network_operators.specs.Deltas.{IsBounded, IsDelta, row_delta_between};
ghost use Rattle.cy_network_operators.specs.internal.Reading.{IsRead};
ghost use Rattle.cy_network_counts.specs.Merges.{AreBounded};
ghost use Rattle.cy_network_counts.specs.internal.Sums.{AreRowDeltasOf, lost, gained, deltas_at};

use crate::merges::distinct_rows::{distinct_rows, few_distinct_rows};
use crate::merges::stages::{stage_gains, stage_losses};
use cy_network_memory::{Memory, MemoryFault, RowDelta};
use cy_network_operators::add_row_delta;
use cy_values::{Fault, Row};
use indexmap::IndexSet;
use std::alloc::Global;

/// The rows of this many changes are compared with one another; those of more are hashed.
const FEW_CHANGES: usize = 24;

/// Adds some changes of counts to those of a memory whose key is the whole row, and gives what changes there: of each row whose
/// count differs, both counts. One row may stand in several changes. `TooManyRows` where a row counts too often after all of them;
/// otherwise it fails only when out of memory, and never where nothing changes. After a refusal a part may be staged.
pub(crate) fn merge<M: Memory>(
    alloc: Global,
    memory: &mut M,
    changes: Vec<RowDelta>,
) -> Result<Vec<RowDelta>, MemoryFault>
    requires settled { M.staged memory.old ≡ M.was memory.old }
    requires held { (row : List Cell) → lost row changes.items ≤ M.was memory.old row }
    requires bounded { All IsBounded changes.items }
    requires counts { AreBounded (M.was memory.old) }
    ensures delta { IfOk result (λ made. IsDelta (M.was memory.old) (M.staged memory.new) made.items) }
    ensures staged { OnOk result ((row : List Cell) → M.staged memory.new row + lost row changes.items ≡ M.was memory.old row + gained row changes.items) }
    ensures deltas { IfOk result (λ made. All IsBounded made.items) }
    ensures counts { OnOk result (AreBounded (M.staged memory.new)) }
    ensures was { M.was memory.new ≡ M.was memory.old }
    ensures columns { M.key_columns memory.new ≡ M.key_columns memory.old }
    ensures too_many { IfErr result (λ fault. fault ≡ TooManyRows → (row : List Cell) × (greatest_count + lost row changes.items < M.was memory.old row + gained row changes.items)) }
    ensures steps { M.EXACT ≡ true → M.step_count memory.new ≤ M.step_count memory.old + 2 * length changes.items }
    ensures grows { M.step_count memory.old ≤ M.step_count memory.new }
    ensures nothing { IfErr result (λ _. 0 < length changes.items) }
{
    if changes.is_empty() {
        return Ok(changes);
    }
    stage_losses(alloc, memory, &changes)?;
    stage_gains(alloc, memory, &changes)?;
    let made = deltas_of_changes(alloc, memory, changes)?;
    Ok(made)
}

// What changes of the rows of some changes. Fails only when out of memory.
fn deltas_of_changes<M: Memory>(
    alloc: Global,
    memory: &mut M,
    changes: Vec<RowDelta>,
) -> Result<Vec<RowDelta>, Fault>
    ensures made { IfOk result (λ made. AreRowDeltasOf (M.was memory.old) (M.staged memory.old) changes.items made.items) }
    ensures read { IsRead M.key_columns M.was M.staged M.step_count memory.old memory.new }
    ensures steps { M.EXACT ≡ true → M.step_count memory.new ≤ M.step_count memory.old + 2 * length changes.items }
{
    if changes.len() == 1 {
        return row_delta_of_change(memory, changes);
    }
    if changes.len() <= FEW_CHANGES {
        let rows = few_distinct_rows(alloc, changes)?;
        return deltas_of_rows(alloc, memory, rows);
    }
    let rows = distinct_rows(alloc, changes)?;
    deltas_of_set(alloc, memory, rows)
}

// What changes of the row of a single change. Fails only when out of memory.
fn row_delta_of_change<M: Memory>(
    memory: &mut M,
    mut changes: Vec<RowDelta>,
) -> Result<Vec<RowDelta>, Fault>
    requires single { length changes.items ≡ 1 }
    ensures made { IfOk result (λ made. AreRowDeltasOf (M.was memory.old) (M.staged memory.old) changes.items made.items) }
    ensures read { IsRead M.key_columns M.was M.staged M.step_count memory.old memory.new }
    ensures steps { M.EXACT ≡ true → M.step_count memory.new ≤ M.step_count memory.old + 2 }
{
    let Some(change) = changes.pop() else {
        return Ok(changes);
    };
    add_change(memory, change.row, &mut changes)?;
    Ok(changes)
}

// What changes of some rows. Fails only when out of memory.
fn deltas_of_rows<M: Memory>(
    alloc: Global,
    memory: &mut M,
    rows: Vec<Row>,
) -> Result<Vec<RowDelta>, Fault>
    ensures made { IfOk result (λ made. made.items ≡ deltas_at (M.was memory.old) (M.staged memory.old) rows.items) }
    ensures read { IsRead M.key_columns M.was M.staged M.step_count memory.old memory.new }
    ensures steps { M.EXACT ≡ true → M.step_count memory.new ≤ M.step_count memory.old + 2 * length rows.items }
{
    let mut made = Vec::new(alloc);
    for row in rows {
        add_change(memory, row, &mut made)?;
    }
    Ok(made)
}

// What changes of the rows of a set. Fails only when out of memory.
fn deltas_of_set<M: Memory>(
    alloc: Global,
    memory: &mut M,
    rows: IndexSet<Row>,
) -> Result<Vec<RowDelta>, Fault>
    ensures made { IfOk result (λ made. made.items ≡ deltas_at (M.was memory.old) (M.staged memory.old) rows.keys) }
    ensures read { IsRead M.key_columns M.was M.staged M.step_count memory.old memory.new }
    ensures steps { M.EXACT ≡ true → M.step_count memory.new ≤ M.step_count memory.old + 2 * length rows.keys }
{
    let mut made = Vec::new(alloc);
    for row in rows {
        add_change(memory, row, &mut made)?;
    }
    Ok(made)
}

// Adds what changes of a row. Fails only when out of memory.
fn add_change<M: Memory>(memory: &mut M, row: Row, made: &mut Vec<RowDelta>) -> Result<(), Fault>
    ensures made { OnOk result (made.new.items ≡ made.old.items ++ row_delta_between row (M.was memory.old row) (M.staged memory.old row)) }
    ensures read { IsRead M.key_columns M.was M.staged M.step_count memory.old memory.new }
    ensures steps { M.EXACT ≡ true → M.step_count memory.new ≤ M.step_count memory.old + 2 }
{
    let (before, after) = memory.counts(&row);
    add_row_delta(made, row, before, after)
}
