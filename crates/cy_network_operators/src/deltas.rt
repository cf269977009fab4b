//! What changes for a row.

ghost use Rattle.std.specs.Prelude.{◌≡◌, ◌++◌, OnOk};
ghost use Rattle.cy_network_operators.specs.Deltas.{row_delta_between};

use cy_network_memory::RowDelta;
use cy_values::{Fault, Row};

/// Adds the row delta of a row with these counts, if they differ. Fails only when out of memory.
pub fn add_row_delta(
    deltas: &mut Vec<RowDelta>,
    row: Row,
    before: u64,
    after: u64,
) -> Result<(), Fault>
    ensures { OnOk result (deltas.new.items ≡ deltas.old.items ++ row_delta_between row before after) }
{
    if before != after {
        deltas.push(RowDelta { row, before, after })?;
    }
    Ok(())
}
