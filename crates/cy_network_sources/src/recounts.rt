//! What changes where other rows stand in place of some.

ghost use Rattle.std.specs.Prelude.{◌≡◌, ◌≤◌, ◌+◌, ◌++◌, ◌∷◌, [], List, OnOk, length, not};
ghost use Rattle.std.specs.Prelude as std;
ghost use Rattle.std.specs.List.{All};
ghost use Rattle.std.specs.Option.{option_to_list};
ghost use Rattle.cy_values.specs.declared.rows.Cell.{Cell};
ghost use Rattle.cy_values.specs.Bag.{count_of};
ghost use Rattle.cy_values.specs.Same.{is_row};
ghost use Rattle.cy_network_memory.specs.Counts.{greatest_count};
ghost use Rattle.cy_network_operators.specs.Deltas.{IsBounded, row_delta_between, deltas_of};
ghost use Rattle.cy_network_sources.specs.internal.Through.{recounted};

use cy_network_memory::RowDelta;
use cy_network_operators::add_row_delta;
use cy_values::{Fault, Row, rows_equal};

/// Adds a row delta of each row that counts otherwise among the new rows than among the old ones. Fails only when out of memory.
pub(crate) fn add_recounted(
    deltas: &mut Vec<RowDelta>,
    old: Vec<Row>,
    new: Vec<Row>,
) -> Result<(), Fault>
    requires old { length old.items ≤ greatest_count }
    requires new { length new.items ≤ greatest_count }
    ensures recounted { OnOk result ((row : List Cell) → deltas_of row deltas.new.items ≡ deltas_of row deltas.old.items ++ recounted old.items new.items row) }
    ensures bounded { OnOk result (All IsBounded deltas.old.items → All IsBounded deltas.new.items) }
{
    let mut new = new;
    add_gone(deltas, old, &mut new)?;
    add_come(deltas, new)
}

/// Adds the row deltas of a row that goes and of one that comes in its place, if there are such. Fails only when out of memory.
pub(crate) fn add_replaced(
    deltas: &mut Vec<RowDelta>,
    old: Option<Row>,
    new: Option<Row>,
) -> Result<(), Fault>
    ensures recounted { OnOk result ((row : List Cell) → deltas_of row deltas.new.items ≡ deltas_of row deltas.old.items ++ recounted (option_to_list old) (option_to_list new) row) }
    ensures bounded { OnOk result (All IsBounded deltas.old.items → All IsBounded deltas.new.items) }
{
    match (old, new) {
        (None, None) => Ok(()),
        (Some(old), None) => add_row_delta(deltas, old, 1, 0),
        (None, Some(new)) => add_row_delta(deltas, new, 0, 1),
        (Some(old), Some(new)) => add_exchanged(deltas, old, new),
    }
}

// Adds the row deltas of a row that goes and of one that comes. Where they are the same there are none.
fn add_exchanged(deltas: &mut Vec<RowDelta>, old: Row, new: Row) -> Result<(), Fault>
    ensures recounted { OnOk result ((row : List Cell) → deltas_of row deltas.new.items ≡ deltas_of row deltas.old.items ++ recounted (old ∷ []) (new ∷ []) row) }
    ensures bounded { OnOk result (All IsBounded deltas.old.items → All IsBounded deltas.new.items) }
{
    rows_equal();
    if old == new {
        return Ok(());
    }
    add_row_delta(deltas, old, 1, 0)?;
    add_row_delta(deltas, new, 0, 1)
}

// Adds a row delta of each of the old rows that counts otherwise among the new ones, and takes it from these.
fn add_gone(deltas: &mut Vec<RowDelta>, old: Vec<Row>, new: &mut Vec<Row>) -> Result<(), Fault>
    requires old { length old.items ≤ greatest_count }
    requires new { length new.old.items ≤ greatest_count }
    ensures recounted { OnOk result ((row : List Cell) → deltas_of row deltas.new.items ++ row_delta_between row 0 (count_of row new.new.items)
        ≡ deltas_of row deltas.old.items ++ recounted old.items new.old.items row) }
    ensures bounded { OnOk result (All IsBounded deltas.old.items → All IsBounded deltas.new.items) }
    ensures fewer { OnOk result (length new.new.items ≤ length new.old.items) }
{
    let mut old = old;
    while let Some(row) = old.pop() {
        let before = 1 + take_same(&mut old, &row);
        let after = take_same(new, &row);
        add_row_delta(deltas, row, before, after)?;
    }
    Ok(())
}

// Adds a row delta of each of the rows, which come.
fn add_come(deltas: &mut Vec<RowDelta>, new: Vec<Row>) -> Result<(), Fault>
    requires { length new.items ≤ greatest_count }
    ensures recounted { OnOk result ((row : List Cell) → deltas_of row deltas.new.items ≡ deltas_of row deltas.old.items ++ row_delta_between row 0 (count_of row new.items)) }
    ensures bounded { OnOk result (All IsBounded deltas.old.items → All IsBounded deltas.new.items) }
{
    let mut new = new;
    while let Some(row) = new.pop() {
        let after = 1 + take_same(&mut new, &row);
        add_row_delta(deltas, row, 0, after)?;
    }
    Ok(())
}

// Takes a row out of others, as often as it stands there.
fn take_same(rows: &mut Vec<Row>, row: &Row) -> u64
    ensures taken { result ≡ count_of row.now rows.old.items }
    ensures left { rows.new.items ≡ std.filter (λ other. not (is_row row.now other)) rows.old.items }
{
    rows_equal();
    let all = rows.len();
    rows.retain(|other| row != other);
    (all - rows.len()) as u64
}
