//! Lists of rows with their counts.

ghost use Rattle.std.specs.Prelude.{◌≡◌, ◌++◌, OnOk};
ghost use Rattle.cy_network_memory.specs.internal.Listings.{listed_row};

use cy_values::{Duplicate, Fault, Row};
use std::alloc::Global;

/// Adds a copy of a row with its count, if it counts. Fails only when out of memory.
pub(crate) fn push_counted(
    alloc: Global,
    pairs: &mut Vec<(Row, u64)>,
    row: &Row,
    count: u64,
) -> Result<(), Fault>
    ensures { OnOk result (pairs.new.items ≡ pairs.old.items ++ listed_row row.now count) }
{
    if count > 0 {
        pairs.push((row.copy(alloc)?, count))?;
    }
    Ok(())
}
