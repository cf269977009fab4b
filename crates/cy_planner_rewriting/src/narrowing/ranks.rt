//! Columns, each once, and where each stands among them. Each call fails only when out of memory.

ghost use Rattle.std.specs.Prelude.{◌≡◌, ◌+◌, ◌<◌, ◌≤◌, ℕ, List, IfOk, OnOk, length};
ghost use Rattle.std.specs.List.{AllByRecursion};
ghost use Rattle.cy_planner_rewriting.specs.internal.Ranks as spec;

use cy_values::Fault;
use std::alloc::Global;

/// Columns of which none stands twice, and where among them those of a list stand.
#[derive(Drop)]
pub(crate) struct Ranks {
    pub(crate) kept: Vec<usize>,
    pub(crate) places: Vec<usize>,
}

/// Where a column stands among those that are kept. It is kept from now on.
fn rank(
    ranks: &mut Vec<Option<usize>>,
    kept: &mut Vec<usize>,
    column: usize,
) -> Result<usize, Fault>
    requires inside { column < length ranks.old.items }
    requires ranked { spec.AreRanks ranks.old.items kept.old.items }
    ensures place { IfOk result (λ place. spec.IsPlace kept.new.items column place) }
    ensures ranked { OnOk result (spec.AreRanks ranks.new.items kept.new.items) }
    ensures longer { OnOk result (spec.IsLonger kept.old.items kept.new.items) }
    ensures few { OnOk result (length kept.new.items ≤ length kept.old.items + 1) }
    ensures all { OnOk result (length ranks.new.items ≡ length ranks.old.items) }
    ensures there { OnOk result (AllByRecursion (λ c. c < length ranks.old.items) kept.old.items → AllByRecursion (λ c. c < length ranks.old.items) kept.new.items) }
{
    if let Some(place) = ranks[column] {
        return Ok(place);
    }
    let place = kept.len();
    kept.push(column)?;
    ranks[column] = Some(place);
    Ok(place)
}

/// No column so far is kept.
fn no_ranks(alloc: Global, width: usize) -> Result<Vec<Option<usize>>, Fault>
    ensures ranks { IfOk result (λ ranks. (kept : List ℕ) → spec.AreRanks ranks.items kept) }
    ensures all { IfOk result (λ ranks. length ranks.items ≡ width) }
{
    let mut ranks = Vec::with_capacity(alloc, width)?;
    for _column in 0..width {
        ranks.push(None)?;
    }
    Ok(ranks)
}

/// Columns of rows that are this wide, each once, in the order in which they come first.
pub(crate) fn ranked(alloc: Global, columns: &[usize], width: usize) -> Result<Ranks, Fault>
    requires { AllByRecursion (λ c. c < width) columns.now }
    ensures { IfOk result (λ r. spec.AreRanked width columns.now r.kept.items r.places.items) }
{
    let mut ranks = no_ranks(alloc, width)?;
    let mut kept = Vec::new(alloc);
    let mut places = Vec::with_capacity(alloc, columns.len())?;
    for column in columns {
        let place = rank(&mut ranks, &mut kept, *column)?;
        places.push(place)?;
    }
    Ok(Ranks { kept, places })
}
