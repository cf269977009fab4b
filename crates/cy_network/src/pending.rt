//! What is pending: by how much rows count less and more after a change.

ghost use Rattle.std.specs.Prelude.{◌≡◌, ◌≤◌, [], IfOk, flat_map, length, map};
ghost use Rattle.indexmap.specs.IndexMap.{spare};
ghost use Rattle.cy_network_parts.specs.Counted.{ArePositive};
ghost use Rattle.cy_network.specs.internal.Roots.{AreDeltas, CountsRowsBy, IsDifferenceBy, LeaveRowsBy, excess};

use crate::rows::{sorted, write_counts};
use cy_bags::Change;
use cy_network_memory::RowDelta;
use cy_values::{Duplicate, Fault, Row, Sequence};
use indexmap::IndexMap;
use std::alloc::Global;

/// No row goes, and none comes.
pub(crate) fn nothing(alloc: Global) -> Change
    ensures removed { result.removed ≡ [] }
    ensures added { result.added ≡ [] }
{
    Change {
        removed: Sequence::new(Vec::new(alloc)),
        added: Sequence::new(Vec::new(alloc)),
    }
}

/// What rows change, as a change. Fails only when out of memory.
pub(crate) fn pending_change(alloc: Global, deltas: &[RowDelta]) -> Result<Change, Fault>
    requires { AreDeltas deltas.now }
    ensures { IfOk result (IsDifferenceBy deltas.now) }
{
    let removed = sorted(losses(alloc, deltas)?)?;
    let added = sorted(gains(alloc, deltas)?)?;
    Ok(Change {
        removed: Sequence::new(removed),
        added: Sequence::new(added),
    })
}

// The rows that count less, with by how much. Fails only when out of memory.
fn losses(alloc: Global, deltas: &[RowDelta]) -> Result<Vec<(Row, u64)>, Fault>
    ensures { IfOk result (λ pairs. pairs.items ≡ flat_map (excess (λ s. s.before) (λ s. s.after)) deltas.now) }
{
    let mut pairs = Vec::new(alloc);
    for row_delta in deltas {
        if row_delta.after < row_delta.before {
            pairs.push((
                row_delta.row.copy(alloc)?,
                row_delta.before - row_delta.after,
            ))?;
        }
    }
    Ok(pairs)
}

// The rows that count more, with by how much. Fails only when out of memory.
fn gains(alloc: Global, deltas: &[RowDelta]) -> Result<Vec<(Row, u64)>, Fault>
    ensures { IfOk result (λ pairs. pairs.items ≡ flat_map (excess (λ s. s.after) (λ s. s.before)) deltas.now) }
{
    let mut pairs = Vec::new(alloc);
    for row_delta in deltas {
        if row_delta.before < row_delta.after {
            pairs.push((
                row_delta.row.copy(alloc)?,
                row_delta.after - row_delta.before,
            ))?;
        }
    }
    Ok(pairs)
}

/// What rows change, as a change: they go over into it. Fails only when out of memory.
pub(crate) fn change_of(alloc: Global, deltas: Vec<RowDelta>) -> Result<Change, Fault>
    requires { AreDeltas deltas.items }
    ensures { IfOk result (IsDifferenceBy deltas.items) }
{
    let pairs = losses_and_gains(alloc, deltas)?;
    let removed = sorted(pairs.0)?;
    let added = sorted(pairs.1)?;
    Ok(Change {
        removed: Sequence::new(removed),
        added: Sequence::new(added),
    })
}

// The rows that count less, and those that count more, each with by how much. Fails only when out of memory.
fn losses_and_gains(
    alloc: Global,
    deltas: Vec<RowDelta>,
) -> Result<(Vec<(Row, u64)>, Vec<(Row, u64)>), Fault>
    ensures losses { IfOk result (λ pairs. pairs.0.items ≡ flat_map (excess (λ s. s.before) (λ s. s.after)) deltas.items) }
    ensures gains { IfOk result (λ pairs. pairs.1.items ≡ flat_map (excess (λ s. s.after) (λ s. s.before)) deltas.items) }
{
    let mut removed = Vec::new(alloc);
    let mut added = Vec::new(alloc);
    for row_delta in deltas {
        let RowDelta { row, before, after } = row_delta;
        if after < before {
            removed.push((row, before - after))?;
        } else if before < after {
            added.push((row, after - before))?;
        }
    }
    Ok((removed, added))
}

/// The rows that change with their counts after it. Fails only when out of memory.
pub(crate) fn counts_after(alloc: Global, deltas: Vec<RowDelta>) -> Result<Vec<(Row, u64)>, Fault>
    ensures { IfOk result (λ next. next.items ≡ map (λ s. (s.row, s.after)) deltas.items) }
{
    let mut next = Vec::with_capacity(alloc, deltas.len())?;
    for row_delta in deltas {
        next.push((row_delta.row, row_delta.after))?;
    }
    Ok(next)
}

/// Rows with their counts, where there were none before. Fails only when out of memory.
pub(crate) fn rows_from(alloc: Global, deltas: Vec<RowDelta>) -> Result<IndexMap<Row, u64>, Fault>
    ensures counts { IfOk result (λ rows. CountsRowsBy deltas.items rows.entries) }
    ensures positive { IfOk result (λ rows. ArePositive rows.entries) }
{
    let next = counts_after(alloc, deltas)?;
    let mut rows = IndexMap::with_capacity(alloc, next.len())?;
    write_counts(&mut rows, next);
    Ok(rows)
}

/// The rows that change with their counts after it, for which there is room then, and what they change. Fails only when out of memory.
pub(crate) fn prepared(
    alloc: Global,
    deltas: Vec<RowDelta>,
    rows: &mut IndexMap<Row, u64>,
) -> Result<(Vec<(Row, u64)>, Change), Fault>
    requires { AreDeltas deltas.items }
    ensures leaves { IfOk result (λ made. LeaveRowsBy deltas.items made.0.items) }
    ensures difference { IfOk result (λ made. IsDifferenceBy deltas.items made.1) }
    ensures room { IfOk result (λ made. length made.0.items ≤ spare rows.new) }
    ensures entries { rows.new.entries ≡ rows.old.entries }
{
    if deltas.is_empty() {
        return Ok((Vec::new(alloc), nothing(alloc)));
    }
    let change = pending_change(alloc, &deltas)?;
    let next = counts_after(alloc, deltas)?;
    rows.reserve(next.len())?;
    Ok((next, change))
}
