//! Arithmetic. Null on either side gives null; an operand of a type that the operator doesn't take is `WrongType`, and an
//! integer that 64 bits don't hold is `Overflow`.

ghost use Rattle.std.specs.Prelude.{◌≡◌, ◌⊎◌, ◌++◌, ℤ, pos, unsigned_abs, Result, Err, SomeIff, FitsSigned, IsTrue, MatchResult};
ghost use Rattle.std.specs.Int.{w64};
ghost use Rattle.cy_values.specs.Compare.{lent};
ghost use Rattle.cy_expr.specs.declared.faults.EvalFault.TheVariants.{NoMemory};
ghost use Rattle.cy_expr.specs.Arithmetic as spec;
ghost use Rattle.cy_expr.specs.internal.Joins.{joins};

use crate::faults::EvalFault;
use cy_values::{Duplicate, Scalar, Shared, Text, Value, ValueRef};
use std::alloc::Global;

/// `+`: the sum of two integers, or two texts or two lists joined, which alone take memory.
/// (openCypher 9, Mathematical operators, String operators, List operators; the faults: own)
pub(crate) fn add(
    alloc: Global,
    left: ValueRef<'_>,
    right: ValueRef<'_>,
) -> Result<Value, EvalFault>
    ensures { (result ≡ spec.sum (lent left.entry) (lent right.entry)) ⊎ ((result ≡ Err NoMemory) × IsTrue (joins (lent left.entry) (lent right.entry))) }
{
    match (left, right) {
        (ValueRef::Int(left), ValueRef::Int(right)) => integer(left.checked_add(right)),
        (ValueRef::Text(left), ValueRef::Text(right)) => {
            Ok(Value::Text(joined_texts(alloc, left, right)?))
        }
        (ValueRef::List(left), ValueRef::List(right)) => {
            Ok(Value::List(joined_lists(alloc, left, right)?))
        }
        _ => other_operands(left, right),
    }
}

/// `-` of two integers.
pub(crate) fn subtract(left: ValueRef<'_>, right: ValueRef<'_>) -> Result<Value, EvalFault>
    ensures { result ≡ spec.difference (lent left.entry) (lent right.entry) }
{
    match (left, right) {
        (ValueRef::Int(left), ValueRef::Int(right)) => integer(left.checked_sub(right)),
        _ => other_operands(left, right),
    }
}

/// `*` of two integers.
pub(crate) fn multiply(left: ValueRef<'_>, right: ValueRef<'_>) -> Result<Value, EvalFault>
    ensures { result ≡ spec.product (lent left.entry) (lent right.entry) }
{
    match (left, right) {
        (ValueRef::Int(left), ValueRef::Int(right)) => integer(left.checked_mul(right)),
        _ => other_operands(left, right),
    }
}

/// `/` of two integers, which truncates towards zero; `DivisionByZero` where the right one is zero.
pub(crate) fn divide(left: ValueRef<'_>, right: ValueRef<'_>) -> Result<Value, EvalFault>
    ensures { result ≡ spec.quotient (lent left.entry) (lent right.entry) }
{
    match (left, right) {
        (ValueRef::Int(_), ValueRef::Int(0)) => Err(EvalFault::DivisionByZero),
        (ValueRef::Int(left), ValueRef::Int(right)) => integer(left.checked_div(right)),
        _ => other_operands(left, right),
    }
}

/// `%` of two integers, with the sign of the left one; `DivisionByZero` where the right one is zero.
pub(crate) fn remainder(left: ValueRef<'_>, right: ValueRef<'_>) -> Result<Value, EvalFault>
    ensures { result ≡ spec.remainder (lent left.entry) (lent right.entry) }
{
    match (left, right) {
        (ValueRef::Int(_), ValueRef::Int(0)) => Err(EvalFault::DivisionByZero),
        (ValueRef::Int(left), ValueRef::Int(right)) => Ok(Value::Int(left.wrapping_rem(right))),
        _ => other_operands(left, right),
    }
}

/// The sign `-`.
pub(crate) fn negate(operand: ValueRef<'_>) -> Result<Value, EvalFault>
    ensures { result ≡ spec.negated (lent operand.entry) }
{
    match operand {
        ValueRef::Int(number) => integer(number.checked_neg()),
        _ => other_operand(operand),
    }
}

/// The sign `+`.
pub(crate) fn plus(operand: ValueRef<'_>) -> Result<Value, EvalFault>
    ensures { result ≡ spec.unchanged (lent operand.entry) }
{
    match operand {
        ValueRef::Int(number) => Ok(Value::Int(number)),
        _ => other_operand(operand),
    }
}

/// `abs`: how far an integer is from zero. (openCypher 9, Mathematical functions)
pub(crate) fn absolute(operand: ValueRef<'_>) -> Result<Value, EvalFault>
    ensures { result ≡ spec.absolute (lent operand.entry) }
{
    match operand {
        ValueRef::Int(number) => distance(number),
        _ => other_operand(operand),
    }
}

// How far an integer is from zero.
fn distance(number: i64) -> Result<Value, EvalFault>
    ensures { result ≡ spec.integer (pos (unsigned_abs number)) }
{
    integer(number.checked_abs())
}

// An integer, which isn't there where 64 bits don't hold it.
fn integer(number: Option<i64>) -> Result<Value, EvalFault>
    ensures { (exact : ℤ) → SomeIff number (FitsSigned w64 exact) exact → result ≡ spec.integer exact }
{
    match number {
        Some(number) => Ok(Value::Int(number)),
        None => Err(EvalFault::Overflow),
    }
}

// What an operator gives for an operand that it doesn't take: null for null.
fn other_operand(operand: ValueRef<'_>) -> Result<Value, EvalFault>
    ensures { result ≡ spec.other_operand (lent operand.entry) }
{
    match operand {
        ValueRef::Null => Ok(Value::Null),
        _ => Err(EvalFault::WrongType),
    }
}

// What an operator gives for two operands that it doesn't take together: null where one of them is null.
fn other_operands(left: ValueRef<'_>, right: ValueRef<'_>) -> Result<Value, EvalFault>
    ensures { result ≡ spec.other_operands (lent left.entry) (lent right.entry) }
{
    match (left, right) {
        (ValueRef::Null, _) | (_, ValueRef::Null) => Ok(Value::Null),
        _ => Err(EvalFault::WrongType),
    }
}

fn joined_texts(alloc: Global, left: &str, right: &str) -> Result<Text, EvalFault>
    ensures { MatchResult result (λ joined. joined ≡ left.now ++ right.now) (λ fault. fault ≡ NoMemory) }
{
    let mut joined = String::with_capacity(alloc, left.len() + right.len())?;
    joined.push_str(left)?;
    joined.push_str(right)?;
    Ok(Text::new(joined)?)
}

fn joined_lists(
    alloc: Global,
    left: &[Scalar],
    right: &[Scalar],
) -> Result<Shared<Scalar>, EvalFault>
    ensures { MatchResult result (λ joined. joined ≡ left.now ++ right.now) (λ fault. fault ≡ NoMemory) }
{
    let mut joined = Vec::with_capacity(alloc, left.len() + right.len())?;
    for element in left {
        joined.push(element.copy(alloc)?)?;
    }
    for element in right {
        joined.push(element.copy(alloc)?)?;
    }
    Ok(Shared::new(joined)?)
}
