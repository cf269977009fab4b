//! How a follower goes on.

ghost use Rattle.std.specs.Prelude.{IfOk};
ghost use Rattle.cy_values.specs.Bag.{IsCanonical};
ghost use Rattle.cy_feeds.specs.Following.{IsBounded, IsChangedBy};

use cy_bags::{Entry, sum, surplus};
use cy_values::{Fault, Row};
use std::alloc::Global;

/// The rows of a follower once it has taken over an entry: less those that go, plus those that come, in canonical order, each once,
/// none at count 0. Fails only when out of memory.
pub fn apply(alloc: Global, rows: &[(Row, u64)], entry: &Entry) -> Result<Vec<(Row, u64)>, Fault>
    requires rows { IsCanonical rows.now }
    requires removed { IsCanonical entry.now.change.removed }
    requires added { IsCanonical entry.now.change.added }
    requires bounded { IsBounded rows.now entry.now.change }
    ensures { IfOk result (λ next. IsChangedBy rows.now entry.now.change next.items) }
{
    let kept = surplus(alloc, rows, entry.change.removed.as_slice())?;
    sum(alloc, kept.as_slice(), entry.change.added.as_slice())
}
