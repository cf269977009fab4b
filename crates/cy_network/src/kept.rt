//! Where the rows of a network stand with their counts.

ghost use Rattle.std.specs.Prelude.{◌≡◌, ◌≤◌, IfOk, length, map};
ghost use Rattle.cy_network_memory.specs.Listings.{IsListing};
ghost use Rattle.cy_network_parts.specs.Counted.{ArePositive, counted, written};
ghost use Rattle.cy_planner_algebra.specs.PlanModels.{plan_of};
ghost use Rattle.cy_planner_algebra.specs.WellFormed.{IsWellFormed};
ghost use Rattle.cy_network.specs.Places as places;
ghost use Rattle.cy_network.specs.internal.Roots.{AreDeltas, CountsRowsBy, IsDifferenceBy, LeaveRowsBy};

use crate::pending::{change_of, prepared, rows_from};
use crate::rows::{table_rows, write_counts};
use cy_bags::Change;
use cy_network_memory::{Listed, RowDelta};
use cy_network_parts::keeps_rows;
use cy_planner_algebra::Operator;
use cy_values::{Fault, Row};
use indexmap::IndexMap;
use std::alloc::Global;

/// Where the rows of a network stand with their counts.
#[derive(Drop)]
pub(crate) enum Rows {
    /// In a table of their own.
    Table(IndexMap<Row, u64>),
    /// In the last memory of the plan.
    LastMemory,
    /// In the last memory of the plan, and each row that counts there is one of them.
    LastMemoryOnce,
}

impl Rows {
    ghost use Rattle.cy_network.specs.Places.{entries_in, in_table, place_in, place_of, room_in, rows_by};

    /// The rows of a plan, where there were none before and these come. Those that its last memory holds stand there. Fails only when out of
    /// memory.
    pub(crate) fn first(
        alloc: Global,
        root: &Operator,
        deltas: Vec<RowDelta>,
    ) -> Result<Rows, Fault>
        requires { IsWellFormed (plan_of root.now) }
        ensures place { IfOk result (λ rows. place_in rows ≡ place_of (plan_of root.now)) }
        ensures counts { IfOk result (λ rows. place_in rows ≡ in_table → CountsRowsBy deltas.items (entries_in rows)) }
        ensures positive { IfOk result (λ rows. ArePositive (entries_in rows)) }
    {
        match root {
            Operator::Distinct(below) => {
                if keeps_rows(alloc, below)? {
                    return Ok(Rows::LastMemoryOnce);
                }
                Rows::table(alloc, deltas)
            }
            Operator::Project(_, _) | Operator::Union(_, _) => {
                if keeps_rows(alloc, root)? {
                    return Ok(Rows::LastMemory);
                }
                Rows::table(alloc, deltas)
            }
            _ => Rows::table(alloc, deltas),
        }
    }

    // A table of rows, where there were none before and these come. Fails only when out of memory.
    fn table(alloc: Global, deltas: Vec<RowDelta>) -> Result<Rows, Fault>
        ensures place { IfOk result (λ rows. place_in rows ≡ in_table) }
        ensures counts { IfOk result (λ rows. CountsRowsBy deltas.items (entries_in rows)) }
        ensures positive { IfOk result (λ rows. ArePositive (entries_in rows)) }
    {
        let rows = rows_from(alloc, deltas)?;
        Ok(Rows::Table(rows))
    }

    /// The rows of the table that change, with their counts after it, for which there is room then: none where the rows stand in a memory; and
    /// what is changed of the rows. Fails only when out of memory.
    pub(crate) fn prepare(
        &mut self,
        alloc: Global,
        deltas: Vec<RowDelta>,
    ) -> Result<(Vec<(Row, u64)>, Change), Fault>
        requires { AreDeltas deltas.items }
        ensures leaves { IfOk result (λ made. place_in self.old ≡ in_table → LeaveRowsBy deltas.items made.0.items) }
        ensures difference { IfOk result (λ made. IsDifferenceBy deltas.items made.1) }
        ensures room { IfOk result (λ made. length made.0.items ≤ room_in self.new) }
        ensures entries { entries_in self.new ≡ entries_in self.old }
        ensures place { place_in self.new ≡ place_in self.old }
    {
        match self {
            Rows::Table(rows) => prepared(alloc, deltas, rows),
            Rows::LastMemory | Rows::LastMemoryOnce => {
                let change = change_of(alloc, deltas)?;
                Ok((Vec::new(alloc), change))
            }
        }
    }

    /// Writes the counts of some rows into the table, one after another. There is room for each that is new.
    pub(crate) fn write(&mut self, next: Vec<(Row, u64)>)
        requires room { length next.items ≤ room_in self.old }
        requires positive { ArePositive (entries_in self.old) }
        ensures counts { place_in self.old ≡ in_table → counted (entries_in self.new) ≡ written next.items (counted (entries_in self.old)) }
        ensures positive { ArePositive (entries_in self.new) }
        ensures place { place_in self.new ≡ place_in self.old }
    {
        if let Rows::Table(rows) = self {
            write_counts(rows, next);
        }
    }

    /// Copies of the rows, each with its count, in no set order. Fails only when out of memory.
    pub(crate) fn list<M: Listed>(
        &self,
        alloc: Global,
        memories: &[M],
    ) -> Result<Vec<(Row, u64)>, Fault>
        requires { ArePositive (entries_in self.now) }
        ensures { IfOk result (λ pairs. IsListing (rows_by (place_in self.now) (counted (entries_in self.now)) (map M.was memories.now)) pairs.items) }
    {
        match self {
            Rows::Table(rows) => table_rows(alloc, rows),
            Rows::LastMemory => last_rows(alloc, memories),
            Rows::LastMemoryOnce => {
                let rows = last_rows(alloc, memories)?;
                let once = once_each(alloc, rows)?;
                Ok(once)
            }
        }
    }
}

// Copies of the rows of the last memory, each with its count. Fails only when out of memory.
fn last_rows<M: Listed>(alloc: Global, memories: &[M]) -> Result<Vec<(Row, u64)>, Fault>
    ensures { IfOk result (λ pairs. IsListing (places.last_of (map M.was memories.now)) pairs.items) }
{
    match memories.last() {
        Some(memory) => memory.counted(alloc),
        None => Ok(Vec::new(alloc)),
    }
}

// The rows, each once. Fails only when out of memory.
fn once_each(alloc: Global, pairs: Vec<(Row, u64)>) -> Result<Vec<(Row, u64)>, Fault>
    ensures { IfOk result (λ once. once.items ≡ map (λ p. (p.0, 1)) pairs.items) }
{
    let mut once = Vec::with_capacity(alloc, pairs.len())?;
    for (row, _) in pairs {
        once.push((row, 1))?;
    }
    Ok(once)
}
