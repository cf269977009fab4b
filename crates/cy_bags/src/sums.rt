//! The sum of two bags of rows.

ghost use Rattle.std.specs.Prelude.{◌+◌, ◌^◌, ◌<◌, List, IfOk};
ghost use Rattle.cy_values.specs.Bag.{IsCanonical, weight_of};
ghost use Rattle.cy_values.specs.declared.rows.Cell.{Cell};
ghost use Rattle.cy_bags.specs.Difference.{IsCountedSum};

use crate::bags::extended;
use cy_values::{Duplicate, Fault, Row, row_order, row_order_laws};
use std::alloc::Global;
use std::cmp::Ordering;

/// The sum of two bags, both with their counts, in canonical order. Fails only when out of memory.
pub fn sum(
    alloc: Global,
    left: &[(Row, u64)],
    right: &[(Row, u64)],
) -> Result<Vec<(Row, u64)>, Fault>
    requires left { IsCanonical left.now }
    requires right { IsCanonical right.now }
    requires bounded { (row : List Cell) → weight_of row left.now + weight_of row right.now < 2 ^ 64 }
    ensures { IfOk result (λ sum. IsCountedSum left.now right.now sum.items) }
{
    row_order_laws();
    let mut sum = Vec::new(alloc);
    let mut i = 0;
    let mut j = 0;
    while i < left.len() && j < right.len() {
        let (row, count) = &left[i];
        let (other, more) = &right[j];
        match row_order(row, other) {
            Ordering::Less => {
                sum.push((row.copy(alloc)?, *count))?;
                i += 1;
            }
            Ordering::Greater => {
                sum.push((other.copy(alloc)?, *more))?;
                j += 1;
            }
            Ordering::Equal => {
                sum.push((row.copy(alloc)?, *count + *more))?;
                i += 1;
                j += 1;
            }
        }
    }
    let sum = extended(alloc, sum, &left[i..])?;
    extended(alloc, sum, &right[j..])
}
