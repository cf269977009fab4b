//! Values that are lent, and the equality and the order of values.

ghost use Rattle.std.specs.Prelude.{◌≡◌};
ghost use Rattle.cy_values.specs.Compare.{value_in, lent, plain_equality, equality, plain_less, list_less, less};

use crate::scalars::{Scalar, Value};
use crate::truth::Truth;

/// A value that is lent: its text or its elements stay where they are.
#[derive(Clone, Copy, Debug, Drop)]
pub enum ValueRef<'a> {
    List(&'a [Scalar]),
    Text(&'a str),
    Bool(bool),
    Int(i64),
    Null,
}

impl Value {
    /// This value, lent.
    pub fn view(&self) -> ValueRef<'_>
        ensures { lent result ≡ self.now }
    {
        match self {
            Value::List(elements) => ValueRef::List(elements.as_slice()),
            Value::Text(text) => ValueRef::Text(text.as_str()),
            Value::Bool(truth) => ValueRef::Bool(*truth),
            Value::Int(number) => ValueRef::Int(*number),
            Value::Null => ValueRef::Null,
        }
    }
}

impl Scalar {
    /// This element as a value of its own, lent.
    pub fn view(&self) -> ValueRef<'_>
        ensures { lent result ≡ value_in self.now }
    {
        match self {
            Scalar::Text(text) => ValueRef::Text(text.as_str()),
            Scalar::Bool(truth) => ValueRef::Bool(*truth),
            Scalar::Int(number) => ValueRef::Int(*number),
            Scalar::Null => ValueRef::Null,
        }
    }
}

impl ValueRef<'_> {
    /// Whether two values are equal, the `=` of expressions. `Unknown` with null; `No` between different types and for
    /// lists of different lengths; else lists are equal as far as all their elements are. (one type: openCypher 9; the
    /// rest: own)
    pub fn equal(self, other: ValueRef<'_>) -> Truth
        ensures { result ≡ equality (lent self.entry) (lent other.entry) }
    {
        match (self, other) {
            (ValueRef::List(left), ValueRef::List(right)) => lists_equal(left, right),
            _ => plain_equal(self, other),
        }
    }

    /// Whether this value is less than the other one, the `<` of expressions. `Unknown` with null and between different
    /// types; texts go by code points, false before true. Lists go by their first elements that aren't surely equal, and
    /// where there are none a shorter list is less. (one type: openCypher 9; the rest: own)
    pub fn less(self, other: ValueRef<'_>) -> Truth
        ensures { result ≡ less (lent self.entry) (lent other.entry) }
    {
        match (self, other) {
            (ValueRef::List(left), ValueRef::List(right)) => list_less(left, right),
            _ => plain_less(self, other),
        }
    }
}

/// Whether two values are equal, as `ValueRef::equal` says.
pub fn equal3(left: &Value, right: &Value) -> Truth
    ensures { result ≡ equality left.now right.now }
{
    left.view().equal(right.view())
}

/// Whether the left value is less than the right one, as `ValueRef::less` says.
pub fn less3(left: &Value, right: &Value) -> Truth
    ensures { result ≡ less left.now right.now }
{
    left.view().less(right.view())
}

// `=` of two values that aren't both lists.
fn plain_equal(left: ValueRef<'_>, right: ValueRef<'_>) -> Truth
    ensures { result ≡ plain_equality (lent left.entry) (lent right.entry) }
{
    match (left, right) {
        (ValueRef::Null, _) | (_, ValueRef::Null) => Truth::Unknown,
        (ValueRef::Text(left), ValueRef::Text(right)) => Truth::known(left == right),
        (ValueRef::Bool(left), ValueRef::Bool(right)) => Truth::known(left == right),
        (ValueRef::Int(left), ValueRef::Int(right)) => Truth::known(left == right),
        _ => Truth::No,
    }
}

// `<` of two values that aren't both lists.
fn plain_less(left: ValueRef<'_>, right: ValueRef<'_>) -> Truth
    ensures { result ≡ plain_less (lent left.entry) (lent right.entry) }
{
    match (left, right) {
        (ValueRef::Text(left), ValueRef::Text(right)) => Truth::known(left < right),
        (ValueRef::Bool(left), ValueRef::Bool(right)) => Truth::known(left < right),
        (ValueRef::Int(left), ValueRef::Int(right)) => Truth::known(left < right),
        _ => Truth::Unknown,
    }
}

// `=` of two lists.
fn lists_equal(left: &[Scalar], right: &[Scalar]) -> Truth
    ensures { result ≡ equality (Value.List left.now) (Value.List right.now) }
{
    if left.len() != right.len() {
        return Truth::No;
    }
    let mut all = Truth::Yes;
    for (x, y) in left.iter().zip(right) {
        all = all.and(plain_equal(x.view(), y.view()));
    }
    all
}

// `<` of two lists.
fn list_less(left: &[Scalar], right: &[Scalar]) -> Truth
    ensures { result ≡ list_less left.now right.now }
{
    for (x, y) in left.iter().zip(right) {
        if plain_equal(x.view(), y.view()) != Truth::Yes {
            return plain_less(x.view(), y.view());
        }
    }
    Truth::known(left.len() < right.len())
}
