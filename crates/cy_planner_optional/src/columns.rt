//! The columns that an OPTIONAL MATCH keeps: those of the row before it, and those of the places of its new variables.

ghost use Rattle.std.specs.Prelude.{◌≡◌, ◌+◌, ◌≤◌, IfOk, OnOk, length, map};
ghost use Rattle.std.specs.List.{range_with_len};
ghost use Rattle.cy_oneshot_patterns.specs.Places.{variable_at};
ghost use Rattle.cy_oneshot_patterns.specs.internal.Patterns.{place_of};
ghost use Rattle.cy_planner_algebra.specs.WellFormed.{greatest_width};
ghost use Rattle.cy_planner_tables.specs.MatchColumns as spec;

use cy_oneshot_patterns::Place;
use cy_values::Fault;
use std::alloc::Global;

/// Adds the column of a place whose variable is a new one.
#[tactic(auto, using(cy_planner_tables::proofs::CodeLemmas::place_kept))]
fn add_column(kept: &mut Vec<usize>, column: usize, place: Place<'_>) -> Result<(), Fault>
    ensures { OnOk result (kept.new.items ≡ spec.with_place kept.old.items column (variable_at (place_of place.entry))) }
{
    if place.column() == Some(kept.len()) {
        kept.push(column)?;
    }
    Ok(())
}

/// The columns that MATCH keeps of a row, whose columns are given, with the cells of its places after it. Fails only when out of memory.
pub(crate) fn kept_columns(
    alloc: Global,
    width: usize,
    first: &[usize],
    places: &[Place<'_>],
) -> Result<Vec<usize>, Fault>
    requires room { width + length places.now ≤ greatest_width }
    requires first { first.now ≡ range_with_len 0 width }
    ensures { IfOk result (λ kept. kept.items ≡ spec.with_places (range_with_len 0 width) width (map place_of places.now)) }
{
    let mut kept = Vec::with_capacity(alloc, width + places.len())?;
    kept.extend_from_slice(first)?;
    let mut column = width;
    for place in places {
        add_column(&mut kept, column, *place)?;
        column += 1;
    }
    Ok(kept)
}
