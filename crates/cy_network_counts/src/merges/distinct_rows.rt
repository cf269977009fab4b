//! Rows that stand several times among others, each once.

ghost use Rattle.std.specs.Prelude.{◌≡◌, ◌≤◌, ◌∷◌, ◌++◌, [], List, IfOk, OnOk, if◌then◌else◌, length};
ghost use Rattle.std.specs.List.{list_any};
ghost use Rattle.cy_values.specs.declared.rows.Cell.{Cell};
ghost use Rattle.cy_values.specs.Same.{is_row};
ghost use Rattle.cy_values.specs.Bag.{count_of};
ghost use Rattle.cy_network_counts.specs.internal.Sums.{is_changed};

use cy_network_memory::RowDelta;
use cy_values::{Fault, Row, rows_equal};
use indexmap::IndexSet;
use std::alloc::Global;

/// The rows of some row deltas, each once. Fails only when out of memory.
pub(crate) fn distinct_rows(alloc: Global, deltas: Vec<RowDelta>) -> Result<IndexSet<Row>, Fault>
    ensures once { IfOk result (λ rows. (row : List Cell) → count_of row rows.keys ≡ (if is_changed row deltas.items then 1 else 0)) }
    ensures few { IfOk result (λ rows. length rows.keys ≤ length deltas.items) }
{
    rows_equal();
    let mut rows = IndexSet::new(alloc);
    for row_delta in deltas {
        rows.insert(row_delta.row)?;
    }
    Ok(rows)
}

/// The rows of a few row deltas, each once: each is compared with the others, and none is hashed. Fails only when out of memory.
pub(crate) fn few_distinct_rows(alloc: Global, deltas: Vec<RowDelta>) -> Result<Vec<Row>, Fault>
    ensures once { IfOk result (λ rows. (row : List Cell) → count_of row rows.items ≡ (if is_changed row deltas.items then 1 else 0)) }
    ensures few { IfOk result (λ rows. length rows.items ≤ length deltas.items) }
{
    let mut rows = Vec::with_capacity(alloc, deltas.len())?;
    for row_delta in deltas {
        add_new(&mut rows, row_delta.row)?;
    }
    Ok(rows)
}

// Adds a row, unless it stands among the rows. Fails only when out of memory.
fn add_new(rows: &mut Vec<Row>, row: Row) -> Result<(), Fault>
    ensures added { OnOk result (rows.new.items ≡ (if list_any (is_row row) rows.old.items then rows.old.items else rows.old.items ++ row ∷ [])) }
{
    if !is_among(&row, rows) {
        rows.push(row)?;
    }
    Ok(())
}

// Whether a row stands among some.
fn is_among(row: &Row, rows: &[Row]) -> bool
    ensures { result ≡ list_any (is_row row.now) rows.now }
{
    rows_equal();
    for other in rows {
        if row == other {
            return true;
        }
    }
    false
}
