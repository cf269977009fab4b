//! Changes: the differences of two bags of rows, and entries, which are changes at a tick.

ghost use Rattle.std.specs.Prelude.{◌≡◌, IfOk};
ghost use Rattle.cy_values.specs.Bag.{IsCanonical, weight_of};
ghost use Rattle.cy_bags.specs.Difference.{IsCountedSurplus, is_nothing};
ghost use Rattle.cy_bags.specs.internal.Surplus.{surplus_of};

use crate::bags::copied;
use cy_values::{Duplicate, Fault, Row, Sequence, row_order, row_order_laws};
use std::alloc::Global;

/// What changes one bag of rows into another: the surplus of the bag before over the bag after, and that of the bag after over the
/// bag before. Each row stands once with its count, in canonical order, and none in both.
#[derive(Debug, Drop)]
pub struct Change {
    pub removed: Sequence<(Row, u64)>,
    pub added: Sequence<(Row, u64)>,
}

impl Change {
    /// Whether nothing changes.
    pub fn is_empty(&self) -> bool
        ensures { result ≡ is_nothing self.now }
    {
        self.removed.as_slice().is_empty() && self.added.as_slice().is_empty()
    }
}

impl Duplicate for Change {
    fn copy(&self, alloc: Global) -> Result<Self, Fault> {
        Ok(Change {
            removed: Sequence::new(copied(alloc, self.removed.as_slice())?),
            added: Sequence::new(copied(alloc, self.added.as_slice())?),
        })
    }
}

/// What one line changed in the rows of a view, with the tick of that line.
#[derive(Debug, Drop)]
pub struct Entry {
    pub tick: u64,
    pub change: Change,
}

impl Duplicate for Entry {
    fn copy(&self, alloc: Global) -> Result<Self, Fault> {
        Ok(Entry {
            tick: self.tick,
            change: self.change.copy(alloc)?,
        })
    }
}

/// The difference of rows before and after, both with their counts, in canonical order. Fails only when out of memory.
pub fn difference(
    alloc: Global,
    before: &[(Row, u64)],
    after: &[(Row, u64)],
) -> Result<Change, Fault>
    requires before { IsCanonical before.now }
    requires after { IsCanonical after.now }
    ensures removed { IfOk result (λ change. IsCountedSurplus before.now after.now change.removed) }
    ensures added { IfOk result (λ change. IsCountedSurplus after.now before.now change.added) }
{
    Ok(Change {
        removed: Sequence::new(surplus(alloc, before, after)?),
        added: Sequence::new(surplus(alloc, after, before)?),
    })
}

/// The surplus of the first rows over the second ones, both with their counts, in canonical order. Fails only when out of memory.
pub fn surplus(
    alloc: Global,
    more: &[(Row, u64)],
    less: &[(Row, u64)],
) -> Result<Vec<(Row, u64)>, Fault>
    requires more { IsCanonical more.now }
    requires less { IsCanonical less.now }
    ensures { IfOk result (λ surplus. IsCountedSurplus more.now less.now surplus.items) }
{
    row_order_laws();
    surplus_rows(alloc, more, less)
}

// Each row that counts more than it does among the others, with by how much.
fn surplus_rows(
    alloc: Global,
    more: &[(Row, u64)],
    less: &[(Row, u64)],
) -> Result<Vec<(Row, u64)>, Fault>
    requires { IsCanonical less.now }
    ensures { IfOk result (λ surplus. surplus.items ≡ surplus_of more.now less.now) }
{
    let mut surplus = Vec::new(alloc);
    for (row, count) in more.iter() {
        let other = count_among(row, less);
        if other < *count {
            surplus.push((row.copy(alloc)?, *count - other))?;
        }
    }
    Ok(surplus)
}

// How often a row counts among rows that stand in canonical order.
fn count_among(row: &Row, pairs: &[(Row, u64)]) -> u64
    requires { IsCanonical pairs.now }
    ensures { result ≡ weight_of row.now pairs.now }
{
    row_order_laws();
    match pairs.binary_search_by(|pair| row_order(&pair.0, row)) {
        Ok(at) => pairs[at].1,
        Err(_) => 0,
    }
}
