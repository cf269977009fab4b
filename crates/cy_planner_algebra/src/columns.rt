//! Columns by their numbers: those of a row, and those of the keys between two inputs. Each call fails only when out of memory.

ghost use Rattle.std.specs.Prelude.{◌≡◌, IfOk, map};
ghost use Rattle.std.specs.List.{range_with_len};

use crate::operators::KeyColumns;
use cy_values::Fault;
use std::alloc::Global;

/// The columns of a row of this width.
pub fn row_columns(alloc: Global, width: usize) -> Result<Vec<usize>, Fault>
    ensures { IfOk result (λ columns. columns.items ≡ range_with_len 0 width) }
{
    let mut columns = Vec::with_capacity(alloc, width)?;
    for column in 0..width {
        columns.push(column)?;
    }
    Ok(columns)
}

/// The columns of the keys in the left input.
pub fn left_columns(alloc: Global, keys: &[KeyColumns]) -> Result<Vec<usize>, Fault>
    ensures { IfOk result (λ columns. columns.items ≡ map (λ k. k.left) keys.now) }
{
    Ok(keys.iter().map(|key| key.left).collect(alloc)?)
}

/// The columns of the keys in the right input.
pub fn right_columns(alloc: Global, keys: &[KeyColumns]) -> Result<Vec<usize>, Fault>
    ensures { IfOk result (λ columns. columns.items ≡ map (λ k. k.right) keys.now) }
{
    Ok(keys.iter().map(|key| key.right).collect(alloc)?)
}
