//! Comparisons, which take no memory.

ghost use Rattle.std.specs.Prelude.{◌≡◌};
ghost use Rattle.cy_values.specs.Compare.{lent};
ghost use Rattle.cy_expr.specs.internal.Lent.{lent_cell};
ghost use Rattle.cy_expr.specs.Comparison as spec;

use crate::views::CellView;
use cy_values::{Truth, ValueRef};

/// Whether a cell is null, as an entity is that isn't there.
pub(crate) fn is_null(cell: CellView<'_>) -> bool
    ensures { result ≡ spec.is_null_cell (lent_cell cell.entry) }
{
    matches!(cell, CellView::Value(ValueRef::Null))
}

/// `=`: entities are equal by number. (openCypher 9, Comparison operators; lists and different types: own)
pub(crate) fn equal(left: CellView<'_>, right: CellView<'_>) -> Truth
    ensures { result ≡ spec.cell_equality (lent_cell left.entry) (lent_cell right.entry) }
{
    match (left, right) {
        (CellView::Node(left), CellView::Node(right)) => Truth::known(left.0 == right.0),
        (CellView::Rel(left), CellView::Rel(right)) => Truth::known(left.0 == right.0),
        (CellView::Value(left), CellView::Value(right)) => left.equal(right),
        (CellView::Value(ValueRef::Null), _) | (_, CellView::Value(ValueRef::Null)) =>
            Truth::Unknown,
        _ => Truth::No,
    }
}

/// `<>`, the NOT of `=`.
pub(crate) fn unequal(left: CellView<'_>, right: CellView<'_>) -> Truth
    ensures { result ≡ spec.cell_inequality (lent_cell left.entry) (lent_cell right.entry) }
{
    equal(left, right).not()
}

/// `<=`: whether the left value is less or equal, unknown between different types. `>=` is this with its sides exchanged. (own)
pub(crate) fn less_or_equal(left: ValueRef<'_>, right: ValueRef<'_>) -> Truth
    ensures { result ≡ spec.less_or_equal (lent left.entry) (lent right.entry) }
{
    match (left, right) {
        (ValueRef::List(_), ValueRef::List(_))
        | (ValueRef::Text(_), ValueRef::Text(_))
        | (ValueRef::Bool(_), ValueRef::Bool(_))
        | (ValueRef::Int(_), ValueRef::Int(_)) => left.less(right).or(left.equal(right)),
        _ => Truth::Unknown,
    }
}
