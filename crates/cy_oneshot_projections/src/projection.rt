//! WITH and RETURN: items with their aggregates, then DISTINCT, then order, SKIP and LIMIT (openCypher 9, WITH and RETURN; ties
//! and faults: own).

ghost use Rattle.std.specs.Prelude.{◌≡◌, ◌⊎◌, ◌+◌, ◌<◌, [], ◌∷◌, ◌++◌, IfOk, IfSome, OnOk, None, Result, Err, false, drop, length, map, slice_index_or, take};
ghost use Rattle.cy_values.specs.declared.rows.Cell.TheVariants as cell;
ghost use Rattle.cy_values.specs.declared.scalars.Value.TheVariants as value;
ghost use Rattle.cy_trees.specs.TreeModels.{expression_of, item_of, key_of, projection_of};
ghost use Rattle.cy_expr.specs.declared.faults.EvalFault.TheVariants.{NoMemory};
ghost use Rattle.cy_oneshot_patterns.specs.Outcomes as outcomes;
ghost use Rattle.cy_oneshot_meaning.specs.Projection as spec;
ghost use Rattle.cy_oneshot_meaning.specs.Reading.{AreInGraph};
ghost use Rattle.cy_oneshot_meaning.specs.internal.Answers.{IsAnswer, IsRowThere};
ghost use Rattle.cy_oneshot_projections.specs.internal.KeyPlaces.{AreFirst};
ghost use Rattle.cy_oneshot_meaning.specs.internal.Seen.{keyed_by, projected_of, seen_by};
ghost use Rattle.cy_oneshot_projections.specs.SortKeys.{sort_key_of};
ghost use Rattle.cy_oneshot_projections.specs.internal.Keys.{keyed_of};
ghost use Rattle.cy_oneshot_meaning.specs.internal.Permuted.{IsAlikeAnswer};

use crate::groups::{aggregated, cells_on, expressions_of};
use crate::key_places::{Places, item_places, place_of_key};
use crate::order::{Keyed, sort_keyed, sort_rows_once};
use cy_expr::EvalFault;
use cy_index::Store;
use cy_oneshot_outcomes::{Gathered, cell_on};
use cy_scope_kinds::has_aggregates;
use cy_trees::{Expr, Item, Key, Projection};
use cy_values::{Cell, Duplicate, Fault, Row, Sequence, Value, row_order_laws};
use std::alloc::Global;

/// A key of ORDER BY, and the place of the item that it repeats, if it repeats one.
#[derive(Clone, Copy)]
pub struct SortKey<'a> {
    /// The key as it stands in the projection.
    pub key: &'a Key,
    /// The place of the first item whose tree is the key's.
    pub place: Option<usize>,
}

/// The rows of WITH or RETURN in their order (openCypher 9, WITH and RETURN). All items are evaluated before the first key. Of faults
/// the smallest code counts; else it fails only with `NoMemory`.
pub fn projection_rows(
    alloc: Global,
    store: &Store,
    projection: &Projection,
    rows: Vec<Row>,
) -> Result<Vec<Row>, EvalFault>
    requires { AreInGraph store.now.graph.now.content rows.items }
    ensures { IsAnswer result (λ made. made.items) (spec.projection_rows store.now.graph.now.content (projection_of projection.now) rows.items) }
{
    row_order_laws();
    let keys = sort_keys(alloc, projection)?;
    let descending = descending_keys(alloc, &projection.order)?;
    let seen = projected(alloc, store, projection, rows)?;
    let mut keyed = keyed_rows(alloc, store, &keys, projection.items.len(), seen)?;
    sort_keyed(&mut keyed, &descending);
    Ok(cut(alloc, projection, keyed)?)
}

/// The rows of WITH or RETURN as a bag. They are put in order only where a key, SKIP or LIMIT asks for it.
pub fn unordered_rows(
    alloc: Global,
    store: &Store,
    projection: &Projection,
    rows: Vec<Row>,
) -> Result<Vec<Row>, EvalFault>
    requires { AreInGraph store.now.graph.now.content rows.items }
    ensures { IsAlikeAnswer result (λ made. made.items) (spec.projection_rows store.now.graph.now.content (projection_of projection.now) rows.items) }
{
    if is_ordered(projection) {
        projection_rows(alloc, store, projection, rows)
    } else {
        plain_rows(alloc, store, projection, rows)
    }
}

// Whether the order of rows counts: for a key, for SKIP or for LIMIT.
fn is_ordered(projection: &Projection) -> bool
    ensures order { result ≡ false → projection.now.order.items ≡ [] }
    ensures skip { result ≡ false → projection.now.skip ≡ None }
    ensures limit { result ≡ false → projection.now.limit ≡ None }
{
    !projection.order.is_empty() || projection.skip.is_some() || projection.limit.is_some()
}

// The rows without keys, of which none is cut.
fn plain_rows(
    alloc: Global,
    store: &Store,
    projection: &Projection,
    rows: Vec<Row>,
) -> Result<Vec<Row>, EvalFault>
    requires there { AreInGraph store.now.graph.now.content rows.items }
    requires order { projection.now.order.items ≡ [] }
    requires skip { projection.now.skip ≡ None }
    requires limit { projection.now.limit ≡ None }
    ensures { IsAlikeAnswer result (λ made. made.items) (spec.projection_rows store.now.graph.now.content (projection_of projection.now) rows.items) }
{
    let seen = projected(alloc, store, projection, rows)?;
    let made = columns_alone(alloc, projection.items.len(), seen)?;
    Ok(made)
}

// Which of the keys are descending.
fn descending_keys(alloc: Global, keys: &[Key]) -> Result<Vec<bool>, Fault>
    ensures { IfOk result (λ found. found.items ≡ map (λ k. k.descending) keys.now) }
{
    let mut found = Vec::with_capacity(alloc, keys.len())?;
    for key in keys {
        found.push(key.descending)?;
    }
    Ok(found)
}

/// The keys of a projection, each with the place of the item that it repeats: a key whose tree is that of an item is that item's
/// column, and no other cell is read for it. Fails only when out of memory. (openCypher 9, ORDER BY)
pub fn sort_keys(alloc: Global, projection: &Projection) -> Result<Vec<SortKey<'_>>, Fault>
    ensures { IfOk result (λ keys. map sort_key_of keys.items ≡ map (λ k. (spec.item_of_key (map item_of projection.now.items.items) k, k)) (map key_of projection.now.order.items)) }
{
    let places = item_places(alloc, projection)?;
    placed_keys(alloc, projection, &places)
}

// The keys of a projection, where the places of the items are given.
fn placed_keys<'a>(
    alloc: Global,
    projection: &'a Projection,
    places: &Option<Places>,
) -> Result<Vec<SortKey<'a>>, Fault>
    requires { IfSome places.now (λ found. AreFirst found.entries (map item_of projection.now.items.items) 0) }
    ensures { IfOk result (λ keys. map sort_key_of keys.items ≡ map (λ k. (spec.item_of_key (map item_of projection.entry.now.items.items) k, k)) (map key_of projection.entry.now.order.items)) }
{
    let mut keys = Vec::with_capacity(alloc, projection.order.len())?;
    for key in &projection.order {
        let place = place_of_key(alloc, places, &projection.items, &key.expression)?;
        keys.push(SortKey { key, place })?;
    }
    Ok(keys)
}

// What the items make of the rows, with DISTINCT each once: each row with what its keys see after it.
fn projected(
    alloc: Global,
    store: &Store,
    projection: &Projection,
    rows: Vec<Row>,
) -> Result<Vec<Row>, EvalFault>
    requires { AreInGraph store.now.graph.now.content rows.items }
    ensures meant { IsAlikeAnswer result (λ seen. map (projected_of (length projection.now.items.items)) seen.items) (spec.projected store.now.graph.now.content (projection_of projection.now) rows.items) }
    ensures there { IfOk result (λ seen. AreInGraph store.now.graph.now.content seen.items) }
{
    row_order_laws();
    let seen = item_rows(alloc, store, projection, rows)?;
    if projection.distinct {
        let mut rows = columns_alone(alloc, projection.items.len(), seen)?;
        sort_rows_once(&mut rows);
        Ok(rows)
    } else {
        Ok(seen)
    }
}

// The items, on each row or on each group.
fn item_rows(
    alloc: Global,
    store: &Store,
    projection: &Projection,
    rows: Vec<Row>,
) -> Result<Vec<Row>, EvalFault>
    requires { AreInGraph store.now.graph.now.content rows.items }
    ensures meant { IsAlikeAnswer result (λ seen. map (projected_of (length projection.now.items.items)) seen.items) (spec.item_rows store.now.graph.now.content (projection_of projection.now) rows.items) }
    ensures there { IfOk result (λ seen. AreInGraph store.now.graph.now.content seen.items) }
{
    if has_aggregates(projection) {
        aggregated(alloc, store, &projection.items, rows)
    } else {
        project_each(alloc, store, &projection.items, rows)
    }
}

// The items on each row, and the row itself after them.
fn project_each(
    alloc: Global,
    store: &Store,
    items: &[Item],
    rows: Vec<Row>,
) -> Result<Vec<Row>, EvalFault>
    requires { AreInGraph store.now.graph.now.content rows.items }
    ensures meant { IsAnswer result (λ seen. seen.items) (outcomes.gathered (map (seen_by store.now.graph.now.content (map (λ i. i.expression) (map item_of items.now))) rows.items)) }
    ensures there { IfOk result (λ seen. AreInGraph store.now.graph.now.content seen.items) }
{
    let expressions = expressions_of(alloc, items)?;
    let mut seen = Gathered::with_capacity(alloc, rows.len())?;
    for row in rows {
        let outcome = project(alloc, store, &expressions, row);
        seen.add(outcome)?;
    }
    seen.finish()
}

// What expressions give on a row, and the row itself after it.
fn project(
    alloc: Global,
    store: &Store,
    expressions: &[&Expr],
    before: Row,
) -> Result<Row, EvalFault>
    requires { IsRowThere store.now.graph.now.content before }
    ensures { IsAnswer result (λ seen. seen) (seen_by store.now.graph.now.content (map (λ e. expression_of e.now) expressions.now) before) }
{
    let mut cells = cells_on(alloc, store, expressions, &before, before.as_slice().len())?;
    cells.append(&mut before.into_vec())?;
    Ok(Sequence::new(cells))
}

// The rows without what their keys see.
fn columns_alone(alloc: Global, width: usize, seen: Vec<Row>) -> Result<Vec<Row>, Fault>
    ensures { IfOk result (λ rows. rows.items ≡ map (take width) seen.items) }
{
    let mut rows = Vec::with_capacity(alloc, seen.len())?;
    for seen in seen {
        rows.push(first_cells(width, seen))?;
    }
    Ok(rows)
}

// The first cells of a row.
fn first_cells(width: usize, seen: Row) -> Row
    ensures { result ≡ take width seen }
{
    let mut cells = seen.into_vec();
    cells.truncate(width);
    Sequence::new(cells)
}

// The rows with the cells of their keys.
fn keyed_rows(
    alloc: Global,
    store: &Store,
    keys: &[SortKey<'_>],
    width: usize,
    seen: Vec<Row>,
) -> Result<Vec<Keyed>, EvalFault>
    requires { AreInGraph store.now.graph.now.content seen.items }
    ensures { IsAnswer result (λ keyed. map keyed_of keyed.items) (outcomes.gathered (map (keyed_by store.now.graph.now.content (map sort_key_of keys.now)) (map (projected_of width) seen.items))) }
{
    let mut keyed = Gathered::with_capacity(alloc, seen.len())?;
    for seen in seen {
        let outcome = keyed_row(alloc, store, keys, width, seen);
        keyed.add(outcome)?;
    }
    keyed.finish()
}

// A row with the cells of its keys.
fn keyed_row(
    alloc: Global,
    store: &Store,
    keys: &[SortKey<'_>],
    width: usize,
    seen: Row,
) -> Result<Keyed, EvalFault>
    requires { IsRowThere store.now.graph.now.content seen }
    ensures { IsAnswer result keyed_of (keyed_by store.now.graph.now.content (map sort_key_of keys.now) (projected_of width seen)) }
{
    let mut cells = Gathered::with_capacity(alloc, keys.len())?;
    for key in keys {
        let outcome = key_cell(alloc, store, key, width, &seen);
        cells.add(outcome)?;
    }
    Ok(Keyed {
        keys: Sequence::new(cells.finish()?),
        row: first_cells(width, seen),
    })
}

// The cell of a key on a row: that of the item that it repeats, or what its expression gives.
fn key_cell(
    alloc: Global,
    store: &Store,
    key: &SortKey<'_>,
    width: usize,
    seen: &Row,
) -> Result<Cell, EvalFault>
    requires { IsRowThere store.now.graph.now.content seen.now }
    ensures { (result ≡ spec.key_cell store.now.graph.now.content (projected_of width seen.now) key.now.place (key_of key.now.key.now).expression) ⊎ (result ≡ Err NoMemory) }
{
    match key.place {
        Some(place) => Ok(cell_at(alloc, columns(width, seen.as_slice()), place)?),
        None => cell_on(alloc, store, &key.key.expression, seen),
    }
}

// The first cells; all of them where there are fewer.
fn columns(width: usize, cells: &[Cell]) -> &[Cell]
    ensures { result.now ≡ take width cells.now }
{
    match cells.get(..width) {
        Some(first) => first,
        None => cells,
    }
}

// The cell at a place; null past the end.
fn cell_at(alloc: Global, cells: &[Cell], place: usize) -> Result<Cell, Fault>
    ensures { IfOk result (λ found. found ≡ slice_index_or cells.now place (cell.Value value.Null)) }
{
    match cells.get(place) {
        Some(cell) => cell.copy(alloc),
        None => Ok(Cell::Value(Value::Null)),
    }
}

// The rows without those that SKIP and LIMIT cut.
fn cut(alloc: Global, projection: &Projection, keyed: Vec<Keyed>) -> Result<Vec<Row>, Fault>
    ensures { IfOk result (λ rows. rows.items ≡ spec.limited projection.now.limit (spec.skipped projection.now.skip (map (λ k. k.row) keyed.items))) }
{
    let rows = skipped(alloc, projection.skip, keyed)?;
    Ok(limited(projection.limit, rows))
}

// The rows after those that SKIP leaves out.
fn skipped(alloc: Global, skip: Option<u64>, keyed: Vec<Keyed>) -> Result<Vec<Row>, Fault>
    ensures { IfOk result (λ rows. rows.items ≡ spec.skipped skip (map (λ k. k.row) keyed.items)) }
{
    match skip {
        Some(count) => rows_from(alloc, count, keyed),
        None => rows_from(alloc, 0, keyed),
    }
}

// The rows before those that LIMIT leaves out.
fn limited(limit: Option<u64>, mut rows: Vec<Row>) -> Vec<Row>
    ensures { result.items ≡ spec.limited limit rows.items }
{
    match limit {
        Some(count) => {
            rows.truncate(count as usize);
            rows
        }
        None => rows,
    }
}

// The rows after this many.
fn rows_from(alloc: Global, count: u64, keyed: Vec<Keyed>) -> Result<Vec<Row>, Fault>
    ensures { IfOk result (λ rows. rows.items ≡ drop count (map (λ k. k.row) keyed.items)) }
{
    let mut left_out = count;
    let mut rows = Vec::new(alloc);
    for keyed in keyed {
        let Keyed { row, keys: _ } = keyed;
        add_after(&mut rows, &mut left_out, row)?;
    }
    Ok(rows)
}

// Adds a row after those that are left out; while there are any, it is one of them.
fn add_after(rows: &mut Vec<Row>, left_out: &mut u64, row: Row) -> Result<(), Fault>
    ensures out { OnOk result (0 < left_out.old → (rows.new.items ≡ rows.old.items) × (left_out.new + 1 ≡ left_out.old)) }
    ensures added { OnOk result (left_out.old ≡ 0 → (rows.new.items ≡ rows.old.items ++ row ∷ []) × (left_out.new ≡ 0)) }
{
    if *left_out > 0 {
        *left_out -= 1;
        Ok(())
    } else {
        Ok(rows.push(row)?)
    }
}
