//! Cells that are lent.

ghost use Rattle.std.specs.Prelude.{◌≡◌, ◌⊎◌, MatchResult, Ok, Err};
ghost use Rattle.cy_values.specs.Compare.{lent};
ghost use Rattle.cy_expr.specs.declared.faults.EvalFault.TheVariants.{NoMemory};
ghost use Rattle.cy_expr.specs.internal.Lent.{lent_cell};

use crate::faults::EvalFault;
use cy_values::{Cell, Duplicate, NodeId, RelId, Scalar, Shared, Text, Value, ValueRef};
use std::alloc::Global;

/// A cell that is lent: what it holds stays where it is.
#[derive(Clone, Copy, Drop)]
pub(crate) enum CellView<'a> {
    Node(NodeId),
    Rel(RelId),
    Rels(&'a [RelId]),
    Value(ValueRef<'a>),
}

/// This cell, lent.
pub(crate) fn view_of(cell: &Cell) -> CellView<'_>
    ensures { lent_cell result ≡ cell.now }
{
    match cell {
        Cell::Node(number) => CellView::Node(*number),
        Cell::Rel(number) => CellView::Rel(*number),
        Cell::Rels(numbers) => CellView::Rels(numbers.as_slice()),
        Cell::Value(value) => CellView::Value(value.view()),
    }
}

/// The value that is lent, as one of its own.
pub(crate) fn copy(alloc: Global, value: ValueRef<'_>) -> Result<Value, EvalFault>
    ensures { (result ≡ Ok (lent value.entry)) ⊎ (result ≡ Err NoMemory) }
{
    match value {
        ValueRef::List(elements) => Ok(Value::List(copy_items(alloc, elements)?)),
        ValueRef::Text(text) => Ok(Value::Text(Text::from_str(alloc, text)?)),
        ValueRef::Bool(truth) => Ok(Value::Bool(truth)),
        ValueRef::Int(number) => Ok(Value::Int(number)),
        ValueRef::Null => Ok(Value::Null),
    }
}

/// The items that are lent, as a list of their own.
pub(crate) fn copy_items<T: Duplicate>(alloc: Global, items: &[T]) -> Result<Shared<T>, EvalFault>
    ensures { MatchResult result (λ twins. twins ≡ items.now) (λ fault. fault ≡ NoMemory) }
{
    let mut twins = Vec::with_capacity(alloc, items.len())?;
    for item in items {
        twins.push(item.copy(alloc)?)?;
    }
    Ok(Shared::new(twins)?)
}
