//! Lists: how they are made, whether they hold a value, and sizes.

ghost use Rattle.std.specs.Prelude.{◌≡◌, ◌⊎◌, Result, Err};
ghost use Rattle.cy_expr.specs.declared.faults.EvalFault.TheVariants.{NoMemory};
ghost use Rattle.cy_values.specs.Compare.{lent};
ghost use Rattle.cy_expr.specs.internal.Lent.{lent_cell};
ghost use Rattle.cy_expr.specs.Lists as spec;
ghost use Rattle.cy_expr.specs.internal.Membership.{equals_also};

use crate::faults::EvalFault;
use crate::logic::value_of;
use crate::views::CellView;
use cy_values::{Scalar, Shared, Truth, Value, ValueRef};
use std::alloc::Global;

/// `[..]`: the list of the values, which it takes over. `NestedList` where one of them is a list.
/// (openCypher 9, Lists; the fault: own)
pub fn list_of(alloc: Global, values: Vec<Value>) -> Result<Value, EvalFault>
    ensures { (result ≡ spec.list_of values.items) ⊎ (result ≡ Err NoMemory) }
{
    let mut elements = Vec::with_capacity(alloc, values.len())?;
    for value in values {
        elements.push(element(value)?)?;
    }
    Ok(Value::List(Shared::new(elements)?))
}

// A value as an element of a list, which no list is.
fn element(value: Value) -> Result<Scalar, EvalFault>
    ensures { result ≡ spec.element value }
{
    match value {
        Value::Text(text) => Ok(Scalar::Text(text)),
        Value::Bool(truth) => Ok(Scalar::Bool(truth)),
        Value::Int(number) => Ok(Scalar::Int(number)),
        Value::Null => Ok(Scalar::Null),
        Value::List(_) => Err(EvalFault::NestedList),
    }
}

/// Whether a value equals one of the elements so far, or this one too; `NestedList` once one of them is a list.
pub(crate) fn equals_also(
    any: Result<Truth, EvalFault>,
    value: ValueRef<'_>,
    element: ValueRef<'_>,
) -> Result<Truth, EvalFault>
    ensures { result ≡ equals_also any (lent value.entry) (lent element.entry) }
{
    match element {
        ValueRef::List(_) => {
            any?;
            Err(EvalFault::NestedList)
        }
        ValueRef::Text(_) | ValueRef::Bool(_) | ValueRef::Int(_) | ValueRef::Null => {
            Ok(any?.or(value.equal(element)))
        }
    }
}

/// `IN`: whether the value equals an element of the list; null for a null list, and `WrongType` for what is no list.
/// (openCypher 9, List operators; the fault: own)
pub(crate) fn is_in(value: ValueRef<'_>, list: ValueRef<'_>) -> Result<Value, EvalFault>
    ensures { result ≡ spec.membership (lent value.entry) (lent list.entry) }
{
    match list {
        ValueRef::List(elements) => Ok(value_of(equals_one(value, elements))),
        ValueRef::Null => Ok(Value::Null),
        ValueRef::Text(_) | ValueRef::Bool(_) | ValueRef::Int(_) => Err(EvalFault::WrongType),
    }
}

// The OR of `=` over the elements.
fn equals_one(value: ValueRef<'_>, elements: &[Scalar]) -> Truth
    ensures { result ≡ spec.equals_one (lent value.entry) elements.now }
{
    let mut any = Truth::No;
    for element in elements {
        any = any.or(value.equal(element.view()));
    }
    any
}

/// `size`: of a text its characters, of a list its elements, of relationships their number. (openCypher 9, size)
pub(crate) fn size(cell: CellView<'_>) -> Result<Value, EvalFault>
    ensures { result ≡ spec.cell_size (lent_cell cell.entry) }
{
    match cell {
        CellView::Value(ValueRef::Text(text)) => Ok(Value::Int(text.chars().count() as i64)),
        CellView::Value(ValueRef::List(elements)) => Ok(Value::Int(elements.len() as i64)),
        CellView::Rels(numbers) => Ok(Value::Int(numbers.len() as i64)),
        CellView::Value(ValueRef::Null) => Ok(Value::Null),
        _ => Err(EvalFault::WrongType),
    }
}
