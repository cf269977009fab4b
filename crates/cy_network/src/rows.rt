//! The rows of a network, each with its count under itself.

ghost use Rattle.std.specs.Prelude.{◌≡◌, ◌+◌, ◌<◌, ◌≤◌, List, IfOk, length};
ghost use Rattle.std.specs.List.{All};
ghost use Rattle.indexmap.specs.IndexMap.{IsUnique, spare};
ghost use Rattle.cy_values.specs.declared.rows.Cell.{Cell};
ghost use Rattle.cy_values.specs.Bag.{IsCanonical, weight_of};
ghost use Rattle.cy_values.specs.Same.{is_row};
ghost use Rattle.cy_network_memory.specs.Counts.{with_count};
ghost use Rattle.cy_network_parts.specs.Counted.{ArePositive, counted, written};
ghost use Rattle.cy_network_memory.specs.Listings.{AreOnce, IsListing};

use cy_values::{Duplicate, Fault, Row, row_order_laws, rows_equal};
use indexmap::IndexMap;
use std::alloc::Global;

/// Writes the counts of some rows, one after another. There is room for each that is new.
pub(crate) fn write_counts(rows: &mut IndexMap<Row, u64>, next: Vec<(Row, u64)>)
    requires room { length next.items ≤ spare rows.old }
    requires positive { ArePositive rows.old.entries }
    ensures counts { counted rows.new.entries ≡ written next.items (counted rows.old.entries) }
    ensures positive { ArePositive rows.new.entries }
{
    for (row, count) in next {
        write_count(rows, row, count);
    }
}

/// Copies of the rows with their counts, in no set order. Fails only when out of memory.
pub(crate) fn table_rows(alloc: Global, rows: &IndexMap<Row, u64>) -> Result<Vec<(Row, u64)>, Fault>
    requires { ArePositive rows.now.entries }
    ensures { IfOk result (λ pairs. IsListing (counted rows.now.entries) pairs.items) }
{
    let pairs = copied(alloc, rows)?;
    Ok(pairs)
}

// Copies of the rows with their counts. Fails only when out of memory.
fn copied(alloc: Global, rows: &IndexMap<Row, u64>) -> Result<Vec<(Row, u64)>, Fault>
    ensures pairs { IfOk result (λ pairs. pairs.items ≡ rows.now.entries) }
    ensures unique { IfOk result (λ _. IsUnique is_row rows.now) }
{
    rows_equal();
    let mut pairs = Vec::with_capacity(alloc, rows.len())?;
    for (row, count) in rows.iter() {
        pairs.push((row.copy(alloc)?, *count))?;
    }
    Ok(pairs)
}

// Writes the count of a row, for which there is room if it is new. A row that counts 0 is removed.
fn write_count(rows: &mut IndexMap<Row, u64>, row: Row, count: u64)
    requires room { 0 < spare rows.old }
    requires positive { ArePositive rows.old.entries }
    ensures counts { (other : List Cell) → counted rows.new.entries other ≡ with_count row count (counted rows.old.entries) other }
    ensures positive { ArePositive rows.new.entries }
    ensures room { spare rows.old ≤ spare rows.new + 1 }
{
    rows_equal();
    if count == 0 {
        let _ = rows.swap_remove(&row);
    } else {
        let _ = rows.insert(row, count);
    }
}

/// Rows with their counts, in canonical order. Fails only when out of memory.
pub(crate) fn sorted(mut pairs: Vec<(Row, u64)>) -> Result<Vec<(Row, u64)>, Fault>
    requires once { AreOnce pairs.items }
    requires positive { All (λ p. 0 < p.1) pairs.items }
    ensures counts { IfOk result (λ sorted. (row : List Cell) → weight_of row sorted.items ≡ weight_of row pairs.items) }
    ensures canonical { IfOk result (λ sorted. IsCanonical sorted.items) }
{
    row_order_laws();
    pairs.sort()?;
    Ok(pairs)
}
