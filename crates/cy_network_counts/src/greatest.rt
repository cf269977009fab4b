//! Row deltas of which several are of one row: the greatest count before, and the greatest one after.

ghost use Rattle.std.specs.Prelude.{◌≡◌, List, IfOk, OnOk, if◌then◌else◌, max};
ghost use Rattle.cy_values.specs.declared.rows.Cell.{Cell};
ghost use Rattle.cy_values.specs.Same.{is_row};
ghost use Rattle.cy_network_operators.specs.Deltas.{IsDelta, row_delta_between, deltas_of};
ghost use Rattle.cy_network_counts.specs.internal.Sums.{counts_at, most_after, most_before};

use cy_network_memory::RowDelta;
use cy_network_operators::add_row_delta;
use cy_values::{Fault, Row, rows_equal};
use indexmap::IndexMap;
use std::alloc::Global;

/// What changes from the greatest count of each row before to the greatest one after. Fails only when out of memory.
pub(crate) fn together(alloc: Global, deltas: Vec<RowDelta>) -> Result<Vec<RowDelta>, Fault>
    ensures { IfOk result (λ made. IsDelta (most_before deltas.items) (most_after deltas.items) made.items) }
{
    let counts = greatest_counts(alloc, deltas)?;
    deltas_of_counts(alloc, counts)
}

// The greatest counts of each row, before and after.
fn greatest_counts(alloc: Global, deltas: Vec<RowDelta>) -> Result<IndexMap<Row, (u64, u64)>, Fault>
    ensures { IfOk result (λ counts. (row : List Cell) → counts_at row counts.entries ≡ (most_before deltas.items row, most_after deltas.items row)) }
{
    let mut counts = IndexMap::new(alloc);
    for row_delta in deltas {
        add_counts(&mut counts, row_delta)?;
    }
    Ok(counts)
}

// Adds the counts of a row delta to those of its row.
fn add_counts(counts: &mut IndexMap<Row, (u64, u64)>, row_delta: RowDelta) -> Result<(), Fault>
    ensures { OnOk result ((row : List Cell) → counts_at row counts.new.entries
        ≡ (if is_row row_delta.row row then (max (counts_at row counts.old.entries).0 row_delta.before, max (counts_at row counts.old.entries).1 row_delta.after) else counts_at row counts.old.entries)) }
{
    rows_equal();
    let (before, after) = counts_of(counts, &row_delta.row);
    counts.insert(
        row_delta.row,
        (before.max(row_delta.before), after.max(row_delta.after)),
    )?;
    Ok(())
}

// The counts of a row.
fn counts_of(counts: &IndexMap<Row, (u64, u64)>, row: &Row) -> (u64, u64)
    ensures { result ≡ counts_at row.now counts.now.entries }
{
    rows_equal();
    counts.get(row).copied().unwrap_or((0, 0))
}

// What changes where the two counts of a row differ.
fn deltas_of_counts(
    alloc: Global,
    counts: IndexMap<Row, (u64, u64)>,
) -> Result<Vec<RowDelta>, Fault>
    ensures { IfOk result (λ made. (row : List Cell) → deltas_of row made.items ≡ row_delta_between row (counts_at row counts.entries).0 (counts_at row counts.entries).1) }
{
    rows_equal();
    let mut made = Vec::new(alloc);
    for (row, (before, after)) in counts {
        add_row_delta(&mut made, row, before, after)?;
    }
    Ok(made)
}
