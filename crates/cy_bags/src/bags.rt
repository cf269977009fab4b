//! Bags of rows: rows with their counts.

ghost use Rattle.std.specs.Prelude.{◌≡◌, ◌++◌, IfOk, reverse};
ghost use Rattle.cy_values.specs.Bag.{IsBagOf, IsCanonical};
ghost use Rattle.cy_bags.specs.internal.Counting.{counted_rows};

use cy_values::{Duplicate, Fault, Row, row_order, row_order_laws};
use std::alloc::Global;

/// Rows, each once with its count, in canonical order. Fails only when out of memory.
pub fn counted_in_order(alloc: Global, mut rows: Vec<Row>) -> Result<Vec<(Row, u64)>, Fault>
    ensures bag { IfOk result (λ pairs. IsBagOf rows.items pairs.items) }
    ensures canonical { IfOk result (λ pairs. IsCanonical pairs.items) }
{
    rows.sort()?;
    rows.reverse();
    row_order_laws();
    counted(alloc, rows)
}

// Rows that stand in order from the end on, each once with how often it stands there.
fn counted(alloc: Global, mut rows: Vec<Row>) -> Result<Vec<(Row, u64)>, Fault>
    ensures { IfOk result (λ pairs. pairs.items ≡ counted_rows (reverse rows.items)) }
{
    let mut counted = Vec::new(alloc);
    let Some(mut row) = rows.pop() else {
        return Ok(counted);
    };
    let mut count = 1;
    while let Some(next) = rows.pop() {
        if row_order(&next, &row).is_eq() {
            count += 1;
        } else {
            counted.push((row, count))?;
            count = 1;
        }
        row = next;
    }
    counted.push((row, count))?;
    Ok(counted)
}

/// A copy of rows with their counts. Fails only when out of memory.
pub fn copied(alloc: Global, pairs: &[(Row, u64)]) -> Result<Vec<(Row, u64)>, Fault>
    ensures { IfOk result (λ copied. copied.items ≡ pairs.now) }
{
    extended(alloc, Vec::with_capacity(alloc, pairs.len())?, pairs)
}

/// Rows with their counts, and copies of others after them. Fails only when out of memory.
pub(crate) fn extended(
    alloc: Global,
    mut pairs: Vec<(Row, u64)>,
    others: &[(Row, u64)],
) -> Result<Vec<(Row, u64)>, Fault>
    ensures { IfOk result (λ extended. extended.items ≡ pairs.items ++ others.now) }
{
    for (row, count) in others.iter() {
        pairs.push((row.copy(alloc)?, *count))?;
    }
    Ok(pairs)
}
