//! Tests of texts, which take no memory.

ghost use Rattle.std.specs.Prelude.{◌≡◌};
ghost use Rattle.cy_values.specs.Compare.{lent};
ghost use Rattle.cy_expr.specs.Predicates as spec;

use cy_values::{Truth, ValueRef};

/// `STARTS WITH`: unknown unless both are texts. (openCypher 9, String operators)
pub(crate) fn starts_with(left: ValueRef<'_>, right: ValueRef<'_>) -> Truth
    ensures { result ≡ spec.text_starts (lent left.entry) (lent right.entry) }
{
    match (left, right) {
        (ValueRef::Text(text), ValueRef::Text(start)) => {
            Truth::known(text.as_bytes().starts_with(start.as_bytes()))
        }
        _ => Truth::Unknown,
    }
}

/// `ENDS WITH`: unknown unless both are texts.
pub(crate) fn ends_with(left: ValueRef<'_>, right: ValueRef<'_>) -> Truth
    ensures { result ≡ spec.text_ends (lent left.entry) (lent right.entry) }
{
    match (left, right) {
        (ValueRef::Text(text), ValueRef::Text(end)) => {
            Truth::known(text.as_bytes().ends_with(end.as_bytes()))
        }
        _ => Truth::Unknown,
    }
}

/// `CONTAINS`: unknown unless both are texts.
pub(crate) fn contains(left: ValueRef<'_>, right: ValueRef<'_>) -> Truth
    ensures { result ≡ spec.text_contains (lent left.entry) (lent right.entry) }
{
    match (left, right) {
        (ValueRef::Text(text), ValueRef::Text(part)) => Truth::known(text.contains(part)),
        _ => Truth::Unknown,
    }
}
