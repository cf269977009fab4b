//! The canonical order of rows, and which rows are the same.

ghost use Rattle.std.specs.Prelude.{◌≡◌, ◌↔◌, List};
ghost use Rattle.std.specs.Cmp.{IsTotalOrder};
ghost use Rattle.std.specs.Ordering.{is_eq};
ghost use Rattle.std.specs.declared.cmp.Ordering.TheVariants.{Equal};
ghost use Rattle.cy_values.specs.Order.{row_cmp};
ghost use Rattle.cy_values.specs.Same.{is_cell, is_row};
ghost use Rattle.cy_values.specs.declared.rows.Cell.{Cell};

use crate::rows::{Cell, Row};
use std::cmp::Ordering;

/// The canonical order of two rows: cell by cell from the left, a prefix first. Cells go nodes,
/// relationships, lists of relationships, lists, texts, booleans, integers, null; nodes and relationships
/// by number, lists element by element, texts by bytes, false before true, integers by value. (own)
pub fn row_order(left: &Row, right: &Row) -> Ordering
    ensures { result ≡ row_cmp left.now right.now }
{
    left.cmp(right)
}

/// The canonical order is total, and calls equal exactly the rows that are the same.
pub fn row_order_laws()
    ensures total { IsTotalOrder row_cmp }
    // The order of rows that sorts and comparisons go by.
    ensures ordered { (left right : List Cell) → ⟦<Row as Ord>⟧.cmp left right ≡ row_cmp left right }
    ensures identity { (left right : List Cell) → (row_cmp left right ≡ Equal) ↔ (left ≡ right) }
{
    order_is_total::<Row>();
}

// The law of every derived order, at a type.
fn order_is_total<T: Ord>()
    ensures { IsTotalOrder T.cmp }
{}

/// `==` of rows tells whether they are the same: a law, for whoever keeps rows in a hashed set or map.
pub fn rows_equal()
    ensures { (x y : List Cell) → ⟦<Row as PartialEq>⟧.eq x y ≡ is_row x y }
{
    row_order_laws();
    equal_in_order::<Row>();
}

/// `==` of cells tells whether they are the same: a law.
pub fn cells_equal()
    ensures { (x y : Cell) → ⟦<Cell as PartialEq>⟧.eq x y ≡ is_cell x y }
{
    rows_equal();
}

// The law of every derived equality, at a type with an order.
fn equal_in_order<T: Ord>()
    ensures { (x y : T) → T.eq x y ≡ is_eq (T.cmp x y) }
{}
