//! One column of rows.

ghost use Rattle.std.specs.Prelude.{◌≡◌, ◌++◌, ◌∷◌, [], ◌<◌, false, Some, None, IfOk, OnOk, OnErr, fold, flat_map, is_some, length, replicate, slice_get, take};
ghost use Rattle.std.specs.Hash.FoldHasher.{write};
ghost use Rattle.std.specs.List.{swap_remove};
ghost use Rattle.std.specs.Option.{option_copied, option_map_or, option_to_list};
ghost use Rattle.cy_values.specs.declared.rows.Cell.TheVariants as of_cell;
ghost use Rattle.cy_values.specs.internal.Hashing.{cell_input};
ghost use Rattle.cy_values.specs.Same.{is_cell};
ghost use Rattle.cy_network_columns.specs.Rows.{alike_by, are_alike};
ghost use Rattle.cy_network_columns.specs.internal.Columns.{cell_in, removed};

use cy_values::{Cell, Duplicate, Fault, NodeId, RelId, Value, cells_equal};
use std::alloc::Global;
use std::hash::{FoldHasher, Hash};
use std::marker::Model;

/// The cells of a column, by their kind: nodes and relationships take eight bytes each, and values sixteen. Where a column has cells of
/// more than one kind, or lists of relationships, or where some rows have no cell in it, each is kept as it is.
#[derive(Drop)]
pub(crate) enum Cells {
    Nodes(Vec<NodeId>),
    Rels(Vec<RelId>),
    Values(Vec<Value>),
    Mixed(Vec<Option<Cell>>),
}

/// A column: for each row its cell, if it has one.
#[derive(Drop)]
pub(crate) struct Column {
    cells: Cells,
}

impl Model for Column {
    ghost use Rattle.std.specs.Prelude.{List, Option};
    ghost use Rattle.cy_values.specs.declared.rows.Cell.{Cell};
    ghost use Rattle.cy_network_columns.specs.internal.Cells.{cells_in};

    ghost Value = { List (Option Cell) };

    ghost view = { λ c. cells_in c.cells };
}

// A copy of a cell, if there is one.
fn copy_cell(alloc: Global, cell: Option<&Cell>) -> Result<Option<Cell>, Fault>
    ensures { IfOk result (λ twin. twin ≡ option_copied cell.entry) }
{
    match cell {
        Some(cell) => Ok(Some(cell.copy(alloc)?)),
        None => Ok(None),
    }
}

impl Column {
    /// A column without cells, for cells of one kind.
    pub(crate) fn new(alloc: Global, cell: &Cell) -> Self
        ensures { result ≡ [] }
    {
        let cells = match cell {
            Cell::Node(_) => Cells::Nodes(Vec::new(alloc)),
            Cell::Rel(_) => Cells::Rels(Vec::new(alloc)),
            Cell::Value(_) => Cells::Values(Vec::new(alloc)),
            Cell::Rels(_) => Cells::Mixed(Vec::new(alloc)),
        };
        Column { cells }
    }

    /// A column in which none of so many rows has a cell.
    pub(crate) fn missing(alloc: Global, count: usize) -> Result<Self, Fault>
        ensures { IfOk result (λ column. column ≡ replicate count None) }
    {
        let mut cells = Vec::with_capacity(alloc, count)?;
        for made in 0..count {
            let _ = made;
            cells.push(None)?;
        }
        Ok(Column {
            cells: Cells::Mixed(cells),
        })
    }

    /// How many rows there are.
    pub(crate) fn len(&self) -> usize
        ensures { result ≡ length self.now }
    {
        match &self.cells {
            Cells::Nodes(nodes) => nodes.len(),
            Cells::Rels(rels) => rels.len(),
            Cells::Values(values) => values.len(),
            Cells::Mixed(cells) => cells.len(),
        }
    }

    /// Keeps the first rows alone.
    #[tactic(auto, using(crate::proofs::ColumnCells::taken))]
    pub(crate) fn truncate(&mut self, len: usize)
        ensures { self.new ≡ take len self.old }
    {
        match &mut self.cells {
            Cells::Nodes(nodes) => nodes.truncate(len),
            Cells::Rels(rels) => rels.truncate(len),
            Cells::Values(values) => values.truncate(len),
            Cells::Mixed(cells) => cells.truncate(len),
        }
    }

    /// Keeps the first rows alone, and removes one of them. The last one takes its number.
    pub(crate) fn remove(&mut self, number: usize, count: usize)
        ensures { self.new ≡ removed number count self.old }
    {
        self.truncate(count);
        if number < self.len() {
            self.swap_remove(number);
        }
    }

    fn swap_remove(&mut self, number: usize)
        requires { number < length self.old }
        ensures { self.new ≡ swap_remove self.old number None }
    {
        match &mut self.cells {
            Cells::Nodes(nodes) => drop_at(nodes, number),
            Cells::Rels(rels) => drop_at(rels, number),
            Cells::Values(values) => drop_at(values, number),
            Cells::Mixed(cells) => drop_at(cells, number),
        }
    }

    /// Adds the next row's cell, if it has one. Fails only when out of memory, and then all is as before.
    pub(crate) fn push(&mut self, alloc: Global, cell: Option<&Cell>) -> Result<(), Fault>
        ensures ok { OnOk result (self.new ≡ self.old ++ option_copied cell.entry ∷ []) }
        ensures err { OnErr result (self.new ≡ self.old) }
    {
        match cell {
            Some(Cell::Node(node)) => self.push_node(alloc, *node),
            Some(Cell::Rel(rel)) => self.push_rel(alloc, *rel),
            Some(Cell::Value(value)) => self.push_value(alloc, value),
            _ => {
                let cell = copy_cell(alloc, cell)?;
                self.push_any(alloc, cell)
            }
        }
    }

    fn push_node(&mut self, alloc: Global, node: NodeId) -> Result<(), Fault>
        ensures ok { OnOk result (self.new ≡ self.old ++ Some (of_cell.Node node) ∷ []) }
        ensures err { OnErr result (self.new ≡ self.old) }
    {
        match &mut self.cells {
            Cells::Nodes(nodes) => {
                nodes.push(node)?;
                Ok(())
            }
            _ => self.push_any(alloc, Some(Cell::Node(node))),
        }
    }

    fn push_rel(&mut self, alloc: Global, rel: RelId) -> Result<(), Fault>
        ensures ok { OnOk result (self.new ≡ self.old ++ Some (of_cell.Rel rel) ∷ []) }
        ensures err { OnErr result (self.new ≡ self.old) }
    {
        match &mut self.cells {
            Cells::Rels(rels) => {
                rels.push(rel)?;
                Ok(())
            }
            _ => self.push_any(alloc, Some(Cell::Rel(rel))),
        }
    }

    fn push_value(&mut self, alloc: Global, value: &Value) -> Result<(), Fault>
        ensures ok { OnOk result (self.new ≡ self.old ++ Some (of_cell.Value value.now) ∷ []) }
        ensures err { OnErr result (self.new ≡ self.old) }
    {
        let value = value.copy(alloc)?;
        match &mut self.cells {
            Cells::Values(values) => {
                values.push(value)?;
                Ok(())
            }
            _ => self.push_any(alloc, Some(Cell::Value(value))),
        }
    }

    // Adds the next row's cell, which may be of another kind than the others.
    fn push_any(&mut self, alloc: Global, cell: Option<Cell>) -> Result<(), Fault>
        ensures ok { OnOk result (self.new ≡ self.old ++ cell ∷ []) }
        ensures err { OnErr result (self.new ≡ self.old) }
    {
        match &mut self.cells {
            Cells::Mixed(cells) => {
                cells.push(cell)?;
                Ok(())
            }
            _ => self.mix(alloc, cell),
        }
    }

    // Keeps each cell as it is from now on, and adds the next row's.
    fn mix(&mut self, alloc: Global, cell: Option<Cell>) -> Result<(), Fault>
        ensures ok { OnOk result (self.new ≡ self.old ++ cell ∷ []) }
        ensures err { OnErr result (self.new ≡ self.old) }
    {
        let mut cells = self.copied(alloc)?;
        cells.push(cell)?;
        self.cells = Cells::Mixed(cells);
        Ok(())
    }

    // Copies of all cells.
    fn copied(&self, alloc: Global) -> Result<Vec<Option<Cell>>, Fault>
        ensures { IfOk result (λ cells. cells.items ≡ self.now) }
    {
        let mut cells = Vec::with_capacity(alloc, self.len())?;
        for number in 0..self.len() {
            cells.push(self.copy_at(alloc, number)?)?;
        }
        Ok(cells)
    }

    /// A copy of a row's cell, if it has one. Fails only when out of memory.
    #[tactic(auto, using(crate::proofs::ColumnCells::kinds))]
    pub(crate) fn copy_at(&self, alloc: Global, number: usize) -> Result<Option<Cell>, Fault>
        ensures { IfOk result (λ cell. cell ≡ cell_in number self.now) }
    {
        match &self.cells {
            Cells::Nodes(nodes) => match nodes.get(number) {
                Some(node) => Ok(Some(Cell::Node(*node))),
                None => Ok(None),
            },
            Cells::Rels(rels) => match rels.get(number) {
                Some(rel) => Ok(Some(Cell::Rel(*rel))),
                None => Ok(None),
            },
            Cells::Values(values) => match values.get(number) {
                Some(value) => Ok(Some(Cell::Value(value.copy(alloc)?))),
                None => Ok(None),
            },
            Cells::Mixed(cells) => copy_cell(alloc, cell_of(cells, number)),
        }
    }

    /// Whether a row has a cell here.
    #[tactic(auto, using(crate::proofs::ColumnCells::kinds))]
    pub(crate) fn has(&self, number: usize) -> bool
        ensures { result ≡ is_some (cell_in number self.now) }
    {
        match &self.cells {
            Cells::Nodes(nodes) => number < nodes.len(),
            Cells::Rels(rels) => number < rels.len(),
            Cells::Values(values) => number < values.len(),
            Cells::Mixed(cells) => cell_of(cells, number).is_some(),
        }
    }

    /// Whether this is a row's cell.
    #[tactic(auto, using(crate::proofs::ColumnCells::kinds))]
    pub(crate) fn is_at(&self, number: usize, cell: &Cell) -> bool
        ensures { result ≡ option_map_or (λ mine. is_cell cell.now mine) (cell_in number self.now) false }
    {
        cells_equal();
        match &self.cells {
            Cells::Nodes(nodes) => match nodes.get(number) {
                Some(node) => *cell == Cell::Node(*node),
                None => false,
            },
            Cells::Rels(rels) => match rels.get(number) {
                Some(rel) => *cell == Cell::Rel(*rel),
                None => false,
            },
            Cells::Values(values) => match values.get(number) {
                Some(mine) => is_value(cell, mine),
                None => false,
            },
            Cells::Mixed(cells) => match cell_of(cells, number) {
                Some(mine) => cell == mine,
                None => false,
            },
        }
    }

    /// Whether two rows have the same cell, or both have none.
    #[tactic(auto, using(crate::proofs::ColumnCells::kinds))]
    pub(crate) fn same_at(&self, number: usize, other: usize) -> bool
        ensures { result ≡ are_alike (cell_in number self.now) (cell_in other self.now) }
    {
        cells_equal();
        match &self.cells {
            Cells::Nodes(nodes) => are_same(nodes.get(number), nodes.get(other)),
            Cells::Rels(rels) => are_same(rels.get(number), rels.get(other)),
            Cells::Values(values) => are_same(values.get(number), values.get(other)),
            Cells::Mixed(cells) => are_same(cell_of(cells, number), cell_of(cells, other)),
        }
    }

    /// Feeds a row's cell to a hasher, if it has one.
    #[tactic(auto, using(crate::proofs::ColumnCells::kinds))]
    pub(crate) fn feed(&self, number: usize, hasher: &mut FoldHasher)
        ensures { hasher.new ≡ fold write hasher.old (flat_map cell_input (option_to_list (cell_in number self.now))) }
    {
        match &self.cells {
            Cells::Nodes(nodes) => {
                if let Some(node) = nodes.get(number) {
                    node.hash(hasher);
                }
            }
            Cells::Rels(rels) => {
                if let Some(rel) = rels.get(number) {
                    rel.hash(hasher);
                }
            }
            Cells::Values(values) => {
                if let Some(value) = values.get(number) {
                    value.hash(hasher);
                }
            }
            Cells::Mixed(cells) => {
                if let Some(cell) = cell_of(cells, number) {
                    cell.hash(hasher);
                }
            }
        }
    }
}

// Removes an element. The last one takes its place.
fn drop_at<T: Drop>(elements: &mut Vec<T>, place: usize)
    requires { place < length elements.old.items }
    ensures { (d : T) → elements.new.items ≡ swap_remove elements.old.items place d }
{
    let _ = elements.swap_remove(place);
}

// The cell of a row, if it has one.
fn cell_of(cells: &[Option<Cell>], number: usize) -> Option<&Cell>
    ensures { option_copied result ≡ cell_in number cells.now }
{
    match cells.get(number) {
        Some(cell) => cell.as_ref(),
        None => None,
    }
}

// Whether a cell is this value.
fn is_value(cell: &Cell, value: &Value) -> bool
    ensures { result ≡ is_cell cell.now (of_cell.Value value.now) }
{
    cells_equal();
    match cell {
        Cell::Value(other) => other == value,
        Cell::Node(_) | Cell::Rel(_) | Cell::Rels(_) => false,
    }
}

// Whether two things are the same, or there is none of them.
fn are_same<T: PartialEq>(mine: Option<&T>, theirs: Option<&T>) -> bool
    ensures { result ≡ alike_by T.eq (option_copied mine.entry) (option_copied theirs.entry) }
{
    match (mine, theirs) {
        (Some(mine), Some(theirs)) => *mine == *theirs,
        (None, None) => true,
        (Some(_), None) | (None, Some(_)) => false,
    }
}
