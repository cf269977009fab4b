//! Rows, column by column.

ghost use Rattle.std.specs.Prelude.{◌≡◌, ◌++◌, ◌∷◌, [], ◌^◌, ◌<◌, ◌≤◌, ℕ, false, Some, None, IfSome, IfOk, OnOk, IsSome, fold, flat_map, is_some, length, map, nat_le, option_map, slice_get, take};
ghost use Rattle.std.specs.Hash.FoldHasher.{write};
ghost use Rattle.std.specs.Option.{option_copied, option_map_or, option_to_list};
ghost use Rattle.cy_values.specs.internal.Hashing.{cell_input};
ghost use Rattle.cy_network_columns.specs.Hashes.{IsFilled};
ghost use Rattle.cy_values.specs.Same.{is_row, is_cell};
ghost use Rattle.cy_network_columns.specs.Rows.{are_alike};
ghost use Rattle.cy_network_columns.specs.internal.Columns.{FilledTo, cell_at, cell_in, removed, row_in};

use crate::column::Column;
use cy_values::{Cell, Duplicate, Fault, Row};
use std::alloc::Global;
use std::hash::FoldHasher;
use std::marker::Model;

/// Rows, each under a number, kept column by column: a row takes eight bytes for each node and each relationship, and sixteen for each
/// value. Rows may be of any length, but a column in which some rows have no cell takes more.
#[derive(Drop)]
pub struct Columns {
    columns: Vec<Column>,
    /// How many rows there are. Past them there may be cells of the next row.
    count: usize,
}

impl Model for Columns {
    ghost use Rattle.cy_network_columns.specs.Rows.{Kept};
    ghost use Rattle.cy_network_columns.specs.internal.Columns.{AreKept, next_in, rows_below};

    ghost Value = { Kept };

    ghost view = { λ c. record { rows = rows_below c.columns.items c.count; next = next_in c.columns.items c.count } };

    ghost invariant = { λ c. AreKept c.columns.items c.count };
}

/// A row that is kept column by column.
#[derive(Drop)]
pub struct RowRef<'a> {
    columns: &'a [Column],
    number: usize,
}

impl<'a> Model for RowRef<'a> {
    ghost use Rattle.std.specs.Prelude.{List};
    ghost use Rattle.cy_values.specs.declared.rows.Cell.{Cell};
    ghost use Rattle.cy_network_columns.specs.internal.Columns.{EndsOnce, row_in};

    ghost Value = { List Cell };

    ghost view = { λ r. row_in r.columns.now r.number };

    ghost invariant = { λ r. EndsOnce r.columns.now r.number };
}

// The first cells of each column alone.
fn trim(columns: &mut [Column], count: usize)
    ensures { columns.new ≡ map (take count) columns.old }
{
    for column in columns.iter_mut() {
        column.truncate(count);
    }
}

// A column in which the rows so far have no cell, for the next row's cell.
fn next_column(alloc: Global, count: usize, cell: &Cell) -> Result<Column, Fault>
    ensures long { IfOk result (λ column. length column ≡ count) }
    ensures none { IfOk result (λ column. (number : ℕ) → cell_in number column ≡ None) }
{
    if count == 0 {
        return Ok(Column::new(alloc, cell));
    }
    Column::missing(alloc, count)
}

// Adds columns, so that there is one for each cell of the next row.
fn widen(
    alloc: Global,
    columns: &mut Vec<Column>,
    count: usize,
    cells: &[Cell],
) -> Result<(), Fault>
    requires { (place : ℕ) → IfSome (slice_get columns.old.items place) (λ column. length column ≡ count) }
    ensures wide { OnOk result (length cells.now ≤ length columns.new.items) }
    ensures long { (place : ℕ) → IfSome (slice_get columns.new.items place) (λ column. length column ≡ count) }
    ensures cells { (place number : ℕ) → cell_at columns.new.items place number ≡ cell_at columns.old.items place number }
{
    for place in columns.len()..cells.len() {
        let column = next_column(alloc, count, &cells[place])?;
        columns.push(column)?;
    }
    Ok(())
}

// Adds the next row's cell to each column, from the left.
fn fill(alloc: Global, columns: &mut [Column], cells: &[Cell]) -> Result<(), Fault>
    ensures { (k : ℕ) × FilledTo k cells.now columns.old columns.new × OnOk result (length columns.old ≤ k) }
{
    for place in 0..columns.len() {
        columns[place].push(alloc, cells.get(place))?;
    }
    Ok(())
}

// Removes a row from each column.
fn remove(columns: &mut [Column], number: usize, count: usize)
    ensures { columns.new ≡ map (removed number count) columns.old }
{
    for column in columns.iter_mut() {
        column.remove(number, count);
    }
}

// Copies of the cells of a row.
fn copy_cells(alloc: Global, columns: &[Column], number: usize) -> Result<Vec<Cell>, Fault>
    ensures { IfOk result (λ cells. cells.items ≡ row_in columns.now number) }
{
    let mut cells = Vec::with_capacity(alloc, columns.len())?;
    for column in columns {
        push_cell(&mut cells, column.copy_at(alloc, number)?)?;
    }
    Ok(cells)
}

// Adds a cell, if there is one.
fn push_cell(cells: &mut Vec<Cell>, cell: Option<Cell>) -> Result<(), Fault>
    ensures { OnOk result (cells.new.items ≡ cells.old.items ++ option_to_list cell) }
{
    if let Some(cell) = cell {
        cells.push(cell)?;
    }
    Ok(())
}

impl Columns {
    /// No rows.
    pub fn new(alloc: Global) -> Self
        ensures { result.rows ≡ [] }
    {
        Columns {
            columns: Vec::new(alloc),
            count: 0,
        }
    }

    /// How many rows there are.
    pub fn len(&self) -> usize
        ensures { result ≡ length self.now.rows }
    {
        self.count
    }

    /// Writes the next row. It counts once it is kept. Fails only when out of memory.
    pub fn put(&mut self, alloc: Global, row: &Row) -> Result<(), Fault>
        ensures rows { self.new.rows ≡ self.old.rows }
        ensures next { OnOk result (self.new.next ≡ Some row.now) }
    {
        if self.count == 0 {
            return self.put_first(alloc, row);
        }
        self.put_next(alloc, row)
    }

    // The first row tells the kinds of the columns.
    fn put_first(&mut self, alloc: Global, row: &Row) -> Result<(), Fault>
        requires { self.old.rows ≡ [] }
        ensures rows { self.new.rows ≡ self.old.rows }
        ensures next { OnOk result (self.new.next ≡ Some row.now) }
    {
        self.columns.clear();
        self.put_next(alloc, row)
    }

    fn put_next(&mut self, alloc: Global, row: &Row) -> Result<(), Fault>
        ensures rows { self.new.rows ≡ self.old.rows }
        ensures next { OnOk result (self.new.next ≡ Some row.now) }
    {
        let cells = row.as_slice();
        trim(&mut self.columns, self.count);
        widen(alloc, &mut self.columns, self.count, cells)?;
        fill(alloc, &mut self.columns, cells)
    }

    /// Keeps the row that was written, under the next number.
    pub fn keep(&mut self)
        requires next { IsSome self.old.next }
        requires few { length self.old.rows < 2 ^ 63 }
        ensures { IfSome self.old.next (λ row. self.new.rows ≡ self.old.rows ++ row ∷ []) }
    {
        self.count += 1;
    }

    /// Removes a row. The last one takes its number.
    pub fn swap_remove(&mut self, number: usize)
        requires { number < length self.old.rows }
        ensures { IsFilled number self.old.rows self.new.rows }
    {
        remove(&mut self.columns, number, self.count);
        self.count -= 1;
    }

    /// The row under a number.
    pub fn row(&self, number: usize) -> Option<RowRef<'_>>
        ensures { result ≡ slice_get self.now.rows number }
    {
        if number >= self.count {
            return None;
        }
        Some(RowRef {
            columns: &self.columns,
            number,
        })
    }

    /// Whether two rows have the same cell in a column, or both have none.
    pub fn same_at(&self, first: usize, second: usize, place: usize) -> bool
        ensures { IfSome (slice_get self.now.rows first) (λ row. IfSome (slice_get self.now.rows second) (λ other. result ≡ are_alike (slice_get row place) (slice_get other place))) }
    {
        match self.columns.get(place) {
            Some(column) => column.same_at(first, second),
            None => true,
        }
    }
}

impl<'a> RowRef<'a> {
    /// Whether there are no more cells than so many.
    pub fn ends_by(&self, count: usize) -> bool
        ensures { result ≡ nat_le (length self.now) count }
    {
        !self.has(count)
    }

    /// Whether there is a cell in a column.
    pub fn has(&self, place: usize) -> bool
        ensures { result ≡ is_some (slice_get self.now place) }
    {
        match self.columns.get(place) {
            Some(column) => column.has(self.number),
            None => false,
        }
    }

    /// Whether a cell stands in a column.
    pub fn is_at(&self, place: usize, cell: &Cell) -> bool
        ensures { result ≡ option_map_or (λ mine. is_cell cell.now mine) (slice_get self.now place) false }
    {
        match self.columns.get(place) {
            Some(column) => column.is_at(self.number, cell),
            None => false,
        }
    }

    /// Feeds the cell in a column to a hasher, if there is one.
    pub fn feed(&self, place: usize, hasher: &mut FoldHasher)
        ensures { hasher.new ≡ fold write hasher.old (flat_map cell_input (option_to_list (slice_get self.now place))) }
    {
        if let Some(column) = self.columns.get(place) {
            column.feed(self.number, hasher);
        }
    }

    /// Whether it is this row.
    pub fn is_row(&self, row: &Row) -> bool
        ensures { result ≡ is_row row.now self.now }
    {
        let cells = row.as_slice();
        for place in 0..cells.len() {
            if !self.is_at(place, &cells[place]) {
                return false;
            }
        }
        self.ends_by(cells.len())
    }

    /// A copy of the row. Fails only when out of memory.
    pub fn copy(&self, alloc: Global) -> Result<Row, Fault>
        ensures { IfOk result (λ row. row ≡ self.now) }
    {
        let cells = copy_cells(alloc, self.columns, self.number)?;
        Ok(Row::new(cells))
    }
}
