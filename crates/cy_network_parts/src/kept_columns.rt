//! Which columns of the rows below it a projection keeps.

ghost use Rattle.std.specs.Prelude.{◌≡◌, ◌<◌, ◌==◌, ◌||◌, ℕ, false, IfOk, length, map, slice_index_or};
ghost use Rattle.std.specs.List.{list_all};
ghost use Rattle.cy_planner_algebra.specs.PlanModels.{output_of};
ghost use Rattle.cy_network_sources.specs.Scans.{is_this};
ghost use Rattle.cy_network_parts.specs.Memories as spec;
ghost use Rattle.cy_network_parts.specs.internal.Kept.{kept_flags};

use cy_network_relevance::column_alone;
use cy_network_sources::kept_at;
use cy_planner_algebra::Output;
use cy_values::Fault;
use std::alloc::Global;

/// Up to this many columns are looked for one by one, which allocates nothing.
const FEW_COLUMNS: usize = 16;

/// Whether each of the first columns, this many, stands alone among those that a projection makes. Fails only when out of memory.
pub(crate) fn keeps_all(alloc: Global, outputs: &[Output], number: usize) -> Result<bool, Fault>
    ensures { IfOk result (λ all. all ≡ spec.keeps_all number (map output_of outputs.now)) }
{
    if outputs.len() < number {
        return Ok(false);
    }
    if number <= FEW_COLUMNS {
        return Ok(keeps_each(outputs, number));
    }
    let flags = flags_of(alloc, outputs, number)?;
    Ok(are_all_set(&flags))
}

// Whether each of the first columns stands alone, where each is looked for among the outputs.
fn keeps_each(outputs: &[Output], number: usize) -> bool
    ensures { result ≡ spec.keeps_all number (map output_of outputs.now) }
{
    (0..number).all(|column| kept_at(outputs, column).is_some())
}

// Whether each of some flags is set.
fn are_all_set(flags: &[bool]) -> bool
    ensures { result ≡ list_all (λ flag. flag) flags.now }
{
    flags.iter().all(|flag| *flag)
}

// Of each of the first columns, this many, whether it stands alone among those that a projection makes. Fails only when out of memory.
fn flags_of(alloc: Global, outputs: &[Output], number: usize) -> Result<Vec<bool>, Fault>
    ensures { IfOk result (λ flags. flags.items ≡ kept_flags number (map output_of outputs.now)) }
{
    let mut flags = vec![in alloc; false; number]?;
    for output in outputs {
        mark(&mut flags, column_alone(output));
    }
    Ok(flags)
}

// Marks a column, if one is given and it is one of the first.
fn mark(flags: &mut Vec<bool>, column: Option<usize>)
    ensures long { length flags.new.items ≡ length flags.old.items }
    ensures marked { (k : ℕ) → k < length flags.old.items → slice_index_or flags.new.items k false ≡ (slice_index_or flags.old.items k false || is_this k column) }
{
    if let Some(column) = column {
        mark_one(flags, column);
    }
}

// Marks a column, if it is one of the first.
fn mark_one(flags: &mut Vec<bool>, column: usize)
    ensures long { length flags.new.items ≡ length flags.old.items }
    ensures marked { (k : ℕ) → k < length flags.old.items → slice_index_or flags.new.items k false ≡ (slice_index_or flags.old.items k false || column == k) }
{
    if column < flags.len() {
        flags[column] = true;
    }
}
