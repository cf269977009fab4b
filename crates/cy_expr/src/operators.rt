//! What each operator gives for operands that have values. (openCypher 9, Operators)

ghost use Rattle.std.specs.Prelude.{◌≡◌, ◌⊎◌, Result, Err, MatchResult, Ok, IsTrue};
ghost use Rattle.cy_values.specs.Compare.{lent};
ghost use Rattle.cy_values.specs.declared.rows.Cell.TheVariants as cell;
ghost use Rattle.cy_values.specs.declared.scalars.Value.TheVariants as value;
ghost use Rattle.cy_expr.specs.internal.Lent.{lent_cell};
ghost use Rattle.cy_expr.specs.declared.faults.EvalFault.TheVariants.{NoMemory};
ghost use Rattle.cy_expr.specs.Operators as spec;
ghost use Rattle.cy_expr.specs.internal.Joins.{makes};

use crate::arithmetic::{add, divide, multiply, negate, plus, remainder, subtract};
use crate::comparison::{equal, is_null, less_or_equal, unequal};
use crate::faults::EvalFault;
use crate::lists::is_in;
use crate::logic::{and, not, or, value_of, xor};
use crate::predicates::{contains, ends_with, starts_with};
use crate::views::CellView;
use cy_trees::{BinaryOperator, Comparator, UnaryOperator};
use cy_values::{Truth, Value, ValueRef};
use std::alloc::Global;

/// An operator with two values. Only `+` of two texts or two lists takes memory.
pub(crate) fn binary(
    alloc: Global,
    operator: BinaryOperator,
    left: ValueRef<'_>,
    right: ValueRef<'_>,
) -> Result<Value, EvalFault>
    ensures { (result ≡ spec.binary_value operator (lent left.entry) (lent right.entry)) ⊎ ((result ≡ Err NoMemory) × IsTrue (makes operator (lent left.entry) (lent right.entry))) }
{
    match operator {
        BinaryOperator::Or => or(left, right),
        BinaryOperator::Xor => xor(left, right),
        BinaryOperator::And => and(left, right),
        BinaryOperator::In => is_in(left, right),
        BinaryOperator::Contains => Ok(value_of(contains(left, right))),
        BinaryOperator::StartsWith => Ok(value_of(starts_with(left, right))),
        BinaryOperator::EndsWith => Ok(value_of(ends_with(left, right))),
        BinaryOperator::Add => add(alloc, left, right),
        BinaryOperator::Subtract => subtract(left, right),
        BinaryOperator::Multiply => multiply(left, right),
        BinaryOperator::Divide => divide(left, right),
        BinaryOperator::Remainder => remainder(left, right),
    }
}

/// An operator with one operand: `IS NULL` asks any cell, the others a value.
pub(crate) fn unary(operator: UnaryOperator, operand: CellView<'_>) -> Result<Value, EvalFault>
    ensures { result ≡ spec.unary_value operator (lent_cell operand.entry) }
{
    match operator {
        UnaryOperator::Not => not(value_in(operand)?),
        UnaryOperator::Plus => plus(value_in(operand)?),
        UnaryOperator::Minus => negate(value_in(operand)?),
        UnaryOperator::IsNull => Ok(Value::Bool(is_null(operand))),
        UnaryOperator::IsNotNull => Ok(Value::Bool(!is_null(operand))),
    }
}

/// A comparison of two neighbours in a chain: `=` and `<>` compare any two cells, the others two values.
pub(crate) fn compare(
    comparator: Comparator,
    left: CellView<'_>,
    right: CellView<'_>,
) -> Result<Truth, EvalFault>
    ensures { result ≡ spec.compared comparator (lent_cell left.entry) (lent_cell right.entry) }
{
    if let (CellView::Value(ValueRef::Int(left)), CellView::Value(ValueRef::Int(right))) = (
        left, right,
    ) {
        return Ok(compare_integers(comparator, left, right));
    }
    match comparator {
        Comparator::Equal => Ok(equal(left, right)),
        Comparator::NotEqual => Ok(unequal(left, right)),
        _ => Ok(compare_values(comparator, value_in(left)?, value_in(right)?)),
    }
}

// A comparison of two integers, which are compared without looking at their kinds again.
fn compare_integers(comparator: Comparator, left: i64, right: i64) -> Truth
    ensures { spec.compared comparator (cell.Value (value.Int left)) (cell.Value (value.Int right)) ≡ Ok result }
{
    match comparator {
        Comparator::Equal => Truth::known(left == right),
        Comparator::NotEqual => Truth::known(left == right).not(),
        Comparator::Less => Truth::known(left < right),
        Comparator::LessOrEqual => Truth::known(left < right).or(Truth::known(left == right)),
        Comparator::Greater => Truth::known(right < left),
        Comparator::GreaterOrEqual => Truth::known(right < left).or(Truth::known(right == left)),
    }
}

// A comparison of two values.
fn compare_values(comparator: Comparator, left: ValueRef<'_>, right: ValueRef<'_>) -> Truth
    ensures { spec.compared comparator (cell.Value (lent left.entry)) (cell.Value (lent right.entry)) ≡ Ok result }
{
    match comparator {
        Comparator::Equal => left.equal(right),
        Comparator::NotEqual => left.equal(right).not(),
        Comparator::Less => left.less(right),
        Comparator::LessOrEqual => less_or_equal(left, right),
        Comparator::Greater => right.less(left),
        Comparator::GreaterOrEqual => less_or_equal(right, left),
    }
}

/// The value in a cell; an entity and a list of relationships are none.
pub(crate) fn value_in<'a>(cell: CellView<'a>) -> Result<ValueRef<'a>, EvalFault>
    ensures { MatchResult result (λ v. spec.value_in_cell (lent_cell cell.entry) ≡ Ok (lent v)) (λ fault. spec.value_in_cell (lent_cell cell.entry) ≡ Err fault) }
{
    match cell {
        CellView::Value(value) => Ok(value),
        CellView::Node(_) | CellView::Rel(_) | CellView::Rels(_) => Err(EvalFault::WrongType),
    }
}
