//! Things in order, and each once. (openCypher 9, ORDER BY and DISTINCT)

ghost use Rattle.std.specs.Prelude.{◌≡◌, IsTrue};
ghost use Rattle.std.specs.Ordering.{eq_by_cmp};
ghost use Rattle.cy_values.specs.Order as values;
ghost use Rattle.cy_oneshot_meaning.specs.Order as spec;

use cy_values::Cell;
use std::cmp::Ordering;

/// The canonical order of two cells.
pub fn cell_order(left: &Cell, right: &Cell) -> Ordering
    ensures { result ≡ values.cell_order left.now right.now }
{
    left.cmp(right)
}

/// Puts things in order, where those that tie are the same.
pub fn sort_all<T: Ord>(things: &mut Vec<T>)
    requires { (x y : T) → IsTrue (eq_by_cmp T.cmp x y) → x ≡ y }
    ensures { things.new.items ≡ spec.in_order T.cmp things.old.items }
{
    things.sort_unstable();
}

/// Puts things in order and keeps each once.
pub fn sort_once<T: Ord + Drop>(things: &mut Vec<T>)
    requires { (x y : T) → IsTrue (eq_by_cmp T.cmp x y) → x ≡ y }
    ensures { things.new.items ≡ spec.in_order T.cmp (spec.each_once T.cmp things.old.items) }
{
    things.sort_unstable();
    things.dedup();
}
