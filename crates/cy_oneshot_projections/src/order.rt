//! Things in order, and each once (openCypher 9, ORDER BY and DISTINCT; ties: own).

ghost use Rattle.std.specs.Prelude.{◌≡◌, map, if◌then◌else◌};
ghost use Rattle.std.specs.Ordering.{ordering_reverse};
ghost use Rattle.cy_values.specs.Order as values;
ghost use Rattle.cy_values.specs.Order.{row_cmp};
ghost use Rattle.cy_oneshot_meaning.specs.Order as spec;
ghost use Rattle.cy_oneshot_projections.specs.internal.Keys.{keyed_of};

use cy_oneshot_outcomes::{cell_order, sort_all, sort_once};
use cy_values::{Cell, Row, row_order, row_order_laws};
use std::cmp::Ordering;

/// A row with the cells of its keys.
#[derive(Drop)]
pub(crate) struct Keyed {
    pub(crate) row: Row,
    pub(crate) keys: Row,
}

/// Puts cells in canonical order.
pub(crate) fn sort_cells(cells: &mut Vec<Cell>)
    ensures { cells.new.items ≡ spec.in_order values.cell_order cells.old.items }
{
    sort_all(cells);
}

/// Puts cells in canonical order, each once.
pub(crate) fn sort_cells_once(cells: &mut Vec<Cell>)
    ensures { cells.new.items ≡ spec.in_order values.cell_order (spec.each_once values.cell_order cells.old.items) }
{
    sort_once(cells);
}

/// Puts rows in canonical order.
pub fn sort_rows(rows: &mut Vec<Row>)
    ensures { rows.new.items ≡ spec.in_order row_cmp rows.old.items }
{
    sort_all(rows);
}

/// Puts rows in canonical order, each once.
pub(crate) fn sort_rows_once(rows: &mut Vec<Row>)
    ensures { rows.new.items ≡ spec.in_order row_cmp (spec.each_once row_cmp rows.old.items) }
{
    sort_once(rows);
}

/// Puts rows in the order of their keys, of which some are descending, those that tie in canonical order.
pub(crate) fn sort_keyed(keyed: &mut Vec<Keyed>, descending: &[bool])
    ensures { map (λ k. k.row) keyed.new.items ≡ map (λ k. k.row) (spec.in_order (spec.keyed_order descending.now) (map keyed_of keyed.old.items)) }
{
    row_order_laws();
    keyed.sort_unstable_by(|left, right| compare_keyed(descending, left, right));
}

// The order of two rows by their keys, and then canonical.
fn compare_keyed(descending: &[bool], left: &Keyed, right: &Keyed) -> Ordering
    ensures { result ≡ spec.keyed_order descending.now (keyed_of left.now) (keyed_of right.now) }
{
    match compare_keys(descending, left.keys.as_slice(), right.keys.as_slice()) {
        Ordering::Less => Ordering::Less,
        Ordering::Equal => row_order(&left.row, &right.row),
        Ordering::Greater => Ordering::Greater,
    }
}

// The order of the cells of two rows' keys, from the left.
fn compare_keys(descending: &[bool], left: &[Cell], right: &[Cell]) -> Ordering
    ensures { result ≡ spec.keys_order descending.now left.now right.now }
{
    for (place, turned) in descending.iter().enumerate() {
        match (left.get(place), right.get(place)) {
            (None, None) => return Ordering::Equal,
            (None, Some(_)) => return Ordering::Less,
            (Some(_), None) => return Ordering::Greater,
            (Some(x), Some(y)) => match compare_at(*turned, x, y) {
                Ordering::Less => return Ordering::Less,
                Ordering::Equal => {}
                Ordering::Greater => return Ordering::Greater,
            },
        }
    }
    Ordering::Equal
}

// The order of two cells of a key, reversed where it is descending.
fn compare_at(descending: bool, left: &Cell, right: &Cell) -> Ordering
    ensures { result ≡ (if descending then ordering_reverse (values.cell_order left.now right.now) else values.cell_order left.now right.now) }
{
    if descending {
        cell_order(left, right).reverse()
    } else {
        cell_order(left, right)
    }
}
