//! What an expression gives: something that stands where it is, or a value that was made.

ghost use Rattle.std.specs.Prelude.{◌≡◌, ◌⊎◌, MatchResult, Result, Ok, Err};
ghost use Rattle.cy_values.specs.Compare.{lent};
ghost use Rattle.cy_expr.specs.declared.faults.EvalFault.TheVariants.{NoMemory};
ghost use Rattle.cy_expr.specs.internal.Lent.{lent_cell, held_cell};
ghost use Rattle.cy_expr.specs.Operators as spec;

use crate::faults::EvalFault;
use crate::operators::value_in;
use crate::views::{CellView, copy, copy_items};
use cy_values::{Cell, Value, ValueRef};
use std::alloc::Global;

/// A cell, lent or made.
pub(crate) enum Held<'a> {
    Lent(CellView<'a>),
    Made(Value),
}

/// Called from each of the many places where an operand is dropped.
impl Drop for Held<'_> {
    fn drop(self) {
        match self {
            Held::Lent(_) | Held::Made(_) => {}
        }
    }
}

impl<'a> Held<'a> {
    /// A value that stands where it is.
    pub(crate) fn lent(value: ValueRef<'a>) -> Held<'a>
        ensures { result ≡ Held.Lent (CellView.Value value.entry) }
    {
        Held::Lent(CellView::Value(value))
    }

    /// The cell, lent.
    pub(crate) fn view(&self) -> CellView<'_>
        ensures { lent_cell result ≡ held_cell self.now }
    {
        match self {
            Held::Lent(cell) => *cell,
            Held::Made(value) => CellView::Value(value.view()),
        }
    }

    /// The value in the cell, lent. `WrongType` for what is no value.
    pub(crate) fn value(&self) -> Result<ValueRef<'_>, EvalFault>
        ensures { MatchResult result (λ v. spec.value_in_cell (held_cell self.now) ≡ Ok (lent v)) (λ fault. spec.value_in_cell (held_cell self.now) ≡ Err fault) }
    {
        value_in(self.view())
    }

    /// The value in the cell, which is copied where it is lent. `WrongType` for what is no value.
    pub(crate) fn into_value(self, alloc: Global) -> Result<Value, EvalFault>
        ensures { (result ≡ spec.value_in_cell (held_cell self.entry)) ⊎ (result ≡ Err NoMemory) }
    {
        match self {
            Held::Lent(cell) => copy(alloc, value_in(cell)?),
            Held::Made(value) => Ok(value),
        }
    }

    /// The cell as one of its own, copied where it is lent.
    pub(crate) fn into_cell(self, alloc: Global) -> Result<Cell, EvalFault>
        ensures { (result ≡ Ok (held_cell self.entry)) ⊎ (result ≡ Err NoMemory) }
    {
        match self {
            Held::Lent(CellView::Node(number)) => Ok(Cell::Node(number)),
            Held::Lent(CellView::Rel(number)) => Ok(Cell::Rel(number)),
            Held::Lent(CellView::Rels(numbers)) => Ok(Cell::Rels(copy_items(alloc, numbers)?)),
            Held::Lent(CellView::Value(value)) => Ok(Cell::Value(copy(alloc, value)?)),
            Held::Made(value) => Ok(Cell::Value(value)),
        }
    }
}
