//! Updating clauses, each from a graph and a table to a graph and a table.

ghost use Rattle.std.specs.Prelude.{◌≡◌, true, map, IsSome};
ghost use Rattle.cy_trees.specs.Trees as trees;
ghost use Rattle.cy_trees.specs.TreeModels.{clause_of, path_of, remove_item_of, set_item_of};
ghost use Rattle.cy_scope.specs.Views.{is_update};
ghost use Rattle.cy_oneshot_meaning.specs.Queries.{columns_after};
ghost use Rattle.cy_oneshot_meaning.specs.Reading.{AreInGraph};
ghost use Rattle.cy_updates_meaning.specs.Statements.{rows_taken, updated};
ghost use Rattle.cy_updates_meaning.specs.internal.Answers.{IsAnswer, graph_table};
ghost use Rattle.cy_updates.specs.internal.Reached.{CountsGone, HasColumns};

use crate::writes::creating::create;
use crate::writes::deleting::{Gone, delete};
use crate::writes::removing::remove;
use crate::writes::setting::set;
use cy_index::Store;
use cy_oneshot::{Table, add_names};
use cy_oneshot_projections::sort_rows;
use cy_trees::{Clause, Delete, Path, RemoveItem, SetItem};
use cy_updates_meaning::UpdateFault;
use std::alloc::Global;

/// What an updating clause leaves besides the graph: the table, and how many nodes and relationships it removed.
#[derive(Drop)]
pub(crate) struct Updated {
    pub(crate) table: Table,
    pub(crate) gone: Gone,
}

/// Executes an updating clause on the rows of a table, taken in canonical order (Francis et al.; openCypher 9; canonical order
/// and faults: own).
pub(crate) fn update(
    alloc: Global,
    store: &mut Store,
    table: Table,
    clause: &Clause,
) -> Result<Updated, UpdateFault>
    requires open { IsSome store.old.graph.was }
    requires updates { is_update (clause_of clause.now) ≡ true }
    requires there { AreInGraph store.old.graph.now.content table.rows.items }
    ensures meaning { IsAnswer result (λ after. graph_table store.new.graph.now after.table.rows.items) (updated store.old.graph.now (clause_of clause.now) table.rows.items) }
    ensures columns { HasColumns result (columns_after table.columns.items (clause_of clause.now)) }
    ensures gone { CountsGone store.old.graph.now store.new.graph.now result }
    ensures open { store.new.graph.was ≡ store.old.graph.was }
    ensures indexes { store.new.chosen ≡ store.old.chosen }
{
    let Table { columns, mut rows } = table;
    sort_rows(&mut rows);
    take_rows(alloc, store, Table { columns, rows }, clause)
}

// Executes an updating clause on the rows of a table, in their order.
fn take_rows(
    alloc: Global,
    store: &mut Store,
    table: Table,
    clause: &Clause,
) -> Result<Updated, UpdateFault>
    requires open { IsSome store.old.graph.was }
    requires updates { is_update (clause_of clause.now) ≡ true }
    requires there { AreInGraph store.old.graph.now.content table.rows.items }
    ensures meaning { IsAnswer result (λ after. graph_table store.new.graph.now after.table.rows.items) (rows_taken store.old.graph.now (clause_of clause.now) table.rows.items) }
    ensures columns { HasColumns result (columns_after table.columns.items (clause_of clause.now)) }
    ensures gone { CountsGone store.old.graph.now store.new.graph.now result }
    ensures open { store.new.graph.was ≡ store.old.graph.was }
    ensures indexes { store.new.chosen ≡ store.old.chosen }
{
    match clause {
        Clause::Create(paths) => create_on(alloc, store, paths, table),
        Clause::Set(items) => set_on(alloc, store, items, table),
        Clause::Remove(items) => remove_on(alloc, store, items, table),
        Clause::Delete(clause) => delete_on(alloc, store, clause, table),
        Clause::Match(_) | Clause::Unwind(_) | Clause::With(_) | Clause::Return(_) => {
            Ok(with_none_gone(table))
        }
    }
}

/// A table after which nothing went.
pub(crate) fn with_none_gone(table: Table) -> Updated
    ensures { result ≡ record { table = table; gone = record { nodes = 0; rels = 0 } } }
{
    Updated {
        table,
        gone: Gone { nodes: 0, rels: 0 },
    }
}

// CREATE on the rows of a table.
fn create_on(
    alloc: Global,
    store: &mut Store,
    paths: &[Path],
    table: Table,
) -> Result<Updated, UpdateFault>
    requires open { IsSome store.old.graph.was }
    requires there { AreInGraph store.old.graph.now.content table.rows.items }
    ensures meaning { IsAnswer result (λ after. graph_table store.new.graph.now after.table.rows.items) (rows_taken store.old.graph.now (trees.create (map path_of paths.now)) table.rows.items) }
    ensures columns { HasColumns result (columns_after table.columns.items (trees.create (map path_of paths.now))) }
    ensures gone { CountsGone store.old.graph.now store.new.graph.now result }
    ensures open { store.new.graph.was ≡ store.old.graph.was }
    ensures indexes { store.new.chosen ≡ store.old.chosen }
{
    store.laws();
    let Table { mut columns, rows } = table;
    add_names(alloc, &mut columns, paths)?;
    let made = create(alloc, store, paths, rows)?;
    Ok(with_none_gone(Table {
        columns,
        rows: made,
    }))
}

// SET on the rows of a table.
fn set_on(
    alloc: Global,
    store: &mut Store,
    items: &[SetItem],
    table: Table,
) -> Result<Updated, UpdateFault>
    requires open { IsSome store.old.graph.was }
    requires there { AreInGraph store.old.graph.now.content table.rows.items }
    ensures meaning { IsAnswer result (λ after. graph_table store.new.graph.now after.table.rows.items) (rows_taken store.old.graph.now (trees.set (map set_item_of items.now)) table.rows.items) }
    ensures columns { HasColumns result table.columns.items }
    ensures gone { CountsGone store.old.graph.now store.new.graph.now result }
    ensures open { store.new.graph.was ≡ store.old.graph.was }
    ensures indexes { store.new.chosen ≡ store.old.chosen }
{
    store.laws();
    set(alloc, store, items, &table.rows)?;
    Ok(with_none_gone(table))
}

// REMOVE on the rows of a table.
fn remove_on(
    alloc: Global,
    store: &mut Store,
    items: &[RemoveItem],
    table: Table,
) -> Result<Updated, UpdateFault>
    requires open { IsSome store.old.graph.was }
    requires there { AreInGraph store.old.graph.now.content table.rows.items }
    ensures meaning { IsAnswer result (λ after. graph_table store.new.graph.now after.table.rows.items) (rows_taken store.old.graph.now (trees.remove (map remove_item_of items.now)) table.rows.items) }
    ensures columns { HasColumns result table.columns.items }
    ensures gone { CountsGone store.old.graph.now store.new.graph.now result }
    ensures open { store.new.graph.was ≡ store.old.graph.was }
    ensures indexes { store.new.chosen ≡ store.old.chosen }
{
    store.laws();
    remove(alloc, store, items, &table.rows)?;
    Ok(with_none_gone(table))
}

// DELETE of what the rows of a table name, which leaves no row.
fn delete_on(
    alloc: Global,
    store: &mut Store,
    clause: &Delete,
    table: Table,
) -> Result<Updated, UpdateFault>
    requires open { IsSome store.old.graph.was }
    ensures meaning { IsAnswer result (λ after. graph_table store.new.graph.now after.table.rows.items) (rows_taken store.old.graph.now (trees.delete clause.now.detach clause.now.variables.items) table.rows.items) }
    ensures columns { HasColumns result table.columns.items }
    ensures gone { CountsGone store.old.graph.now store.new.graph.now result }
    ensures open { store.new.graph.was ≡ store.old.graph.was }
    ensures indexes { store.new.chosen ≡ store.old.chosen }
{
    let Table { columns, rows } = table;
    let gone = delete(alloc, store, clause.detach, &clause.variables, &rows)?;
    Ok(Updated {
        table: Table {
            columns,
            rows: Vec::new(alloc),
        },
        gone,
    })
}
