//! The rows of tables.

ghost use Rattle.std.specs.Prelude.{◌≡◌, IfOk};

use crate::faults::Fault;
use crate::numbers::{NodeId, RelId};
use crate::scalars::Value;
use crate::sequences::{Duplicate, Sequence};
use crate::shared::Shared;
use std::alloc::Global;
use std::hash::{Hash, Hasher};

/// What stands in one column of a row. The variants stand in the order of cells.
#[derive(Debug, Drop, PartialEq, Eq, PartialOrd, Ord)]
pub enum Cell {
    Node(NodeId),
    Rel(RelId),
    /// The relationships that a pattern of variable length went over, in its order.
    Rels(Shared<RelId>),
    Value(Value),
}

// A cell is hashed by its contents alone, without a word on what it holds: a column has cells of one kind, or null.
impl Hash for Cell {
    ghost use Rattle.cy_values.specs.internal.Hashing.{cell_input, cells_alike};

    ghost hash_input = { cell_input };

    ghost respects_eq = { cells_alike };

    fn hash<H: Hasher>(&self, state: &mut H) {
        match self {
            Cell::Node(number) => number.hash(state),
            Cell::Rel(number) => number.hash(state),
            Cell::Rels(numbers) => numbers.hash(state),
            Cell::Value(value) => value.hash(state),
        }
    }
}

/// A row of a table: a cell for each column, from the left.
pub type Row = Sequence<Cell>;

impl Duplicate for RelId {
    fn copy(&self, _alloc: Global) -> Result<Self, Fault> {
        Ok(*self)
    }
}

impl Duplicate for Cell {
    fn copy(&self, alloc: Global) -> Result<Self, Fault> {
        match self {
            Cell::Node(number) => Ok(Cell::Node(*number)),
            Cell::Rel(number) => Ok(Cell::Rel(*number)),
            Cell::Rels(numbers) => Ok(Cell::Rels(numbers.copy(alloc)?)),
            Cell::Value(value) => Ok(Cell::Value(value.copy(alloc)?)),
        }
    }
}
