//! Queries: clauses one after another, and the table of RETURN.

ghost use Rattle.std.specs.Prelude.{◌≡◌, ◌⊎◌, [], ◌∷◌, length, map, IfErr, IfOk, IsSome, IsTrue, Err, if◌then◌else◌};
ghost use Rattle.std.specs.List.{AllByRecursion};
ghost use Rattle.cy_trees.specs.TreeModels.{clause_of, query_of};
ghost use Rattle.cy_graph.specs.Graph.{IsGraph};
ghost use Rattle.cy_scope.specs.Checked.{IsChecked, single};
ghost use Rattle.cy_scope.specs.Views as scopes;
ghost use Rattle.cy_oneshot_meaning.specs.Queries.{columns_after};
ghost use Rattle.cy_oneshot_meaning.specs.Reading.{AreInGraph};
ghost use Rattle.cy_updates_meaning.specs.declared.faults.UpdateFault.TheVariants.{NoMemory};
ghost use Rattle.cy_updates_meaning.specs.Counts.{Counts};
ghost use Rattle.cy_updates_meaning.specs.Faults.{each_in_turn};
ghost use Rattle.cy_updates_meaning.specs.Statements as spec;
ghost use Rattle.cy_updates.specs.internal.Queries.{IsQueryDone};
ghost use Rattle.cy_updates.specs.internal.Reached.{CountsGone, HasColumns, IsNext, IsNextInOrder, IsReached, opening, progress};

use crate::clauses::{Updated, update, with_none_gone};
use crate::writes::deleting::Gone;
use cy_index::Store;
use cy_oneshot::{Table, no_table, read_clause_before, unit};
use cy_scope::{ends_with_return, is_update};
use cy_trees::{Clause, Query};
use cy_updates_meaning::UpdateFault;
use cy_values::row_order_laws;
use std::alloc::Global;

/// Executes a query in an open change: its clauses one after another. The table is that of its RETURN; without RETURN it has no
/// column and no row. (Francis et al., queries)
pub(crate) fn execute_query(
    alloc: Global,
    store: &mut Store,
    query: &Query,
) -> Result<Updated, UpdateFault>
    requires open { IsSome store.old.graph.was }
    requires graph { IsGraph store.old.graph.now }
    requires checked { IsChecked (single (query_of query.now)) }
    ensures meaning { IsQueryDone result store.old.graph.now (query_of query.now) store.new.graph.now }
    ensures columns { HasColumns result (spec.columns_of (query_of query.now ∷ [])) }
    ensures gone { CountsGone store.old.graph.now store.new.graph.now result }
    ensures open { store.new.graph.was ≡ store.old.graph.was }
    ensures indexes { store.new.chosen ≡ store.old.chosen }
{
    let clauses = query.clauses.as_slice();
    let reached = each_clause(alloc, store, clauses)?;
    let Updated { table, gone } = reached;
    Ok(Updated {
        table: answered(alloc, clauses, table),
        gone,
    })
}

// Goes through the clauses, from the empty row, once.
fn each_clause(alloc: Global, store: &mut Store, clauses: &[Clause]) -> Result<Updated, UpdateFault>
    requires open { IsSome store.old.graph.was }
    requires graph { IsGraph store.old.graph.now }
    requires checked { IsChecked (single (record { clauses = map clause_of clauses.now })) }
    ensures reached { IfOk result (λ after. IsReached store.old.graph.now store.new.graph.now (record { clauses = map clause_of clauses.now }) after []) }
    ensures refused { IfErr result (λ why. (why ≡ NoMemory) ⊎ ((begun : Counts) → each_in_turn spec.after_clause (map clause_of clauses.now) (opening store.old.graph.now begun) ≡ Err why)) }
    ensures open { store.new.graph.was ≡ store.old.graph.was }
    ensures indexes { store.new.chosen ≡ store.old.chosen }
{
    row_order_laws();
    let first = unit(alloc)?;
    let mut done = with_none_gone(first);
    for at in 0..clauses.len() {
        let Updated { table, gone } = done;
        let after = after_clause(alloc, store, table, &clauses[at], &clauses[at + 1..])?;
        store.laws();
        let nodes = gone.nodes + after.gone.nodes;
        let rels = gone.rels + after.gone.rels;
        done = Updated {
            table: after.table,
            gone: Gone { nodes, rels },
        };
    }
    Ok(done)
}

// What a clause leaves for those after it.
fn after_clause(
    alloc: Global,
    store: &mut Store,
    table: Table,
    clause: &Clause,
    others: &[Clause],
) -> Result<Updated, UpdateFault>
    requires open { IsSome store.old.graph.was }
    requires there { AreInGraph store.old.graph.now.content table.rows.items }
    requires width { AllByRecursion (λ row. length row ≡ length table.columns.items) table.rows.items }
    ensures meaning { IsNext result store.old.graph.now table.columns.items table.rows.items (clause_of clause.now) (map clause_of others.now) store.new.graph.now }
    ensures ordered { IsTrue (scopes.is_return (clause_of clause.now)) → IsNextInOrder result store.new.graph.now (λ counts. spec.after_clause (clause_of clause.now) (progress store.old.graph.now table.rows.items counts)) }
    ensures columns { HasColumns result (columns_after table.columns.items (clause_of clause.now)) }
    ensures gone { CountsGone store.old.graph.now store.new.graph.now result }
    ensures open { store.new.graph.was ≡ store.old.graph.was }
    ensures indexes { store.new.chosen ≡ store.old.chosen }
{
    if is_update(clause) {
        return update(alloc, store, table, clause);
    }
    let after = read_clause_before(alloc, store, table, clause, others)?;
    Ok(with_none_gone(after))
}

// The table of RETURN, if the clauses end with it; else an empty one.
fn answered(alloc: Global, clauses: &[Clause], table: Table) -> Table
    ensures columns { result.columns.items ≡ (if scopes.ends_with_return (map clause_of clauses.now) then table.columns.items else []) }
    ensures rows { result.rows.items ≡ (if scopes.ends_with_return (map clause_of clauses.now) then table.rows.items else []) }
{
    if ends_with_return(clauses) {
        return table;
    }
    no_table(alloc)
}
