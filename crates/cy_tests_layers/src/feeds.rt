//! Sums and differences of bags, and feeds, with ample memory.

ghost use Rattle.std.specs.Prelude.{◌≤◌, IfOk, length, List};
ghost use Rattle.cy_values.specs.Bag.{IsCanonical, weight_of};
ghost use Rattle.cy_values.specs.declared.rows.Cell.{Cell};

use cy_bags::{Change, Entry, counted_in_order, difference, sum};
use cy_feeds::{Answer, Feed, apply};
use cy_values::{Cell, Fault, NodeId, Row, Sequence};
use std::alloc::Global;
use std::process::Abort;
use std::test::Fail;

// The bag of some nodes, each a row of one cell.
fn bag(alloc: Global, numbers: &[u64]) -> Result<Vec<(Row, u64)>, Fault>
    requires { length numbers.now ≤ 8 }
    ensures canonical { IfOk result (λ bag. IsCanonical bag.items) }
    ensures few { IfOk result (λ bag. (row : List Cell) → weight_of row bag.items ≤ 8) }
{
    let mut rows = Vec::new(alloc);
    for number in numbers {
        let mut cells = Vec::new(alloc);
        cells.push(Cell::Node(NodeId(*number)))?;
        rows.push(Sequence::new(cells))?;
    }
    counted_in_order(alloc, rows)
}

#[test]
fn adds_bags(rt: HostRuntime) -> Result<(), Fail> {
    let alloc = rt.alloc();
    let left = bag(alloc, &[3, 1, 1])?;
    let right = bag(alloc, &[2, 3, 1])?;
    let both = bag(alloc, &[1, 1, 1, 2, 3, 3])?;
    assert_eq!(&rt; sum(alloc, left.as_slice(), right.as_slice())?, both);
    Ok(())
}

// Whether the only row is that of a node, once.
fn is_alone(rows: &[(Row, u64)], number: u64) -> bool {
    for (row, count) in rows {
        let is_node = matches!(row.as_slice(), [Cell::Node(NodeId(held))] if *held == number);
        if !is_node || *count != 1 {
            return false;
        }
    }
    rows.len() == 1
}

#[test]
fn takes_over_an_entry(rt: HostRuntime) -> Result<(), Fail> {
    let alloc = rt.alloc();
    let before = bag(alloc, &[3, 1, 1])?;
    let after = bag(alloc, &[2, 3, 1])?;
    let change = difference(alloc, before.as_slice(), after.as_slice())?;
    assert!(&rt; is_alone(change.removed.as_slice(), 1) && is_alone(change.added.as_slice(), 2));
    let entry = Entry { tick: 1, change };
    assert_eq!(&rt; apply(alloc, before.as_slice(), &entry)?, after);
    Ok(())
}

// The feed of a view that was made at tick 1, and in which each tick to 6 made a row more.
fn feed(alloc: Global, history: usize) -> Result<Feed, Fault>
    requires from { 1 ≤ history }
    requires to { history ≤ 4096 }
{
    let mut feed = Feed::new(alloc, history, 1);
    for tick in 2..7 {
        let added = Sequence::new(bag(alloc, &[tick])?);
        let removed = Sequence::new(Vec::new(alloc));
        feed.reserve()?;
        feed.push(Entry {
            tick,
            change: Change { removed, added },
        });
    }
    Ok(feed)
}

// Each tick from the base on is answered with what came since, and each one below it lags.
fn expect_since(rt: &impl Abort, feed: &Feed, base: u64) -> Result<(), Fail> {
    for tick in 0..7 {
        match feed.since(tick)? {
            Answer::Lagged => assert!(rt; tick < base, "{tick}"),
            Answer::Entries(entries) => {
                let entries = entries.as_slice();
                assert!(rt; base <= tick && entries.len() as u64 == 6 - tick, "{tick}");
                for (at, entry) in entries.iter().enumerate() {
                    assert!(rt; entry.tick == tick + 1 + at as u64, "{tick}");
                }
            }
        }
    }
    Ok(())
}

#[test]
fn feeds_with_a_history(rt: HostRuntime) -> Result<(), Fail> {
    expect_since(&rt, &feed(rt.alloc(), 4096)?, 1)?;
    expect_since(&rt, &feed(rt.alloc(), 5)?, 1)?;
    expect_since(&rt, &feed(rt.alloc(), 2)?, 4)?;
    expect_since(&rt, &feed(rt.alloc(), 1)?, 5)
}
