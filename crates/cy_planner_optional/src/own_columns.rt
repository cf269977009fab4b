//! The columns of the variables of a pattern.

ghost use Rattle.std.specs.Prelude.{◌≡◌, ◌+◌, IfOk, OnOk, map};
ghost use Rattle.cy_oneshot_patterns.specs.internal.Patterns.{place_of};
ghost use Rattle.cy_planner_tables.specs.OwnPatterns as spec;

use cy_oneshot_patterns::Place;
use cy_values::Fault;
use std::alloc::Global;

/// The number of a column among others; how many these are, if it isn't there.
pub(crate) fn position(columns: &[usize], column: usize) -> usize
    ensures { result ≡ spec.position 0 columns.now column }
{
    let mut number = 0;
    for other in columns {
        if *other == column {
            return number;
        }
        number += 1;
    }
    number
}

/// Adds a column, unless it is there.
fn add_column(columns: &mut Vec<usize>, column: Option<usize>) -> Result<(), Fault>
    ensures { OnOk result (columns.new.items ≡ spec.with_column columns.old.items column) }
{
    if let Some(column) = column {
        if !columns.contains(&column) {
            columns.push(column)?;
        }
    }
    Ok(())
}

/// The columns of the variables of places, each once, in the order in which they first stand. Fails only when out of memory.
pub(crate) fn columns_of(alloc: Global, places: &[Place<'_>]) -> Result<Vec<usize>, Fault>
    ensures { IfOk result (λ columns. columns.items ≡ spec.columns_of (map place_of places.now)) }
{
    let mut columns = Vec::new(alloc);
    for place in places {
        add_column(&mut columns, place.column())?;
    }
    Ok(columns)
}
