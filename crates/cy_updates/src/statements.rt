//! Statements: queries one after another, and what a statement answers.

ghost use Rattle.std.specs.Prelude.{◌≡◌, ◌⊎◌, [], map, IfErr, IfOk, IsNone, IsSome, Ok, Err, OnErr, OnOk, Some};
ghost use Rattle.std.specs.List.{All};
ghost use Rattle.cy_trees.specs.TreeModels.{query_of, statement_of};
ghost use Rattle.cy_graph.specs.Graph.{IsGraph};
ghost use Rattle.cy_scope.specs.Checked.{IsChecked, single};
ghost use Rattle.cy_oneshot_meaning.specs.Queries as reading;
ghost use Rattle.cy_updates_meaning.specs.declared.faults.UpdateFault.TheVariants.{NoMemory};
ghost use Rattle.cy_updates_meaning.specs.Faults.{each_in_turn};
ghost use Rattle.cy_updates_meaning.specs.Statements as spec;
ghost use Rattle.cy_updates_meaning.specs.Statements.{beginning, statement_outcome};
ghost use Rattle.cy_updates.specs.Answers.{outcome_seen};
ghost use Rattle.cy_updates_meaning.specs.internal.Answers.{IsAnswer};
ghost use Rattle.cy_updates.specs.internal.Queries.{HaveCome};

use crate::clauses::{Updated, with_none_gone};
use crate::queries::execute_query;
use crate::writes::deleting::Gone;
use cy_index::Store;
use cy_oneshot::{Table, no_table, unite};
use cy_scope::{Checked, checked_statements};
use cy_trees::Query;
use cy_updates_meaning::UpdateFault;
use cy_updates_meaning::laws::counts_agree;
use cy_values::Row;
use std::alloc::Global;

/// What a statement answers: how many nodes and relationships it made and removed, of which one that it made and removed counts
/// in both, and the table of its RETURN, or those of its queries put together by UNION. Without RETURN the table has no column and
/// no row.
#[derive(Drop)]
pub struct StatementAnswer {
    pub made_nodes: u64,
    pub gone_nodes: u64,
    pub made_rels: u64,
    pub gone_rels: u64,
    pub table: Table,
}

/// Executes a statement: its queries one after another, and the clauses of each, in a change of the store, which stands open at `Ok`.
/// Where its meaning has a fault it fails with that fault, and besides only with `NoMemory`; the store is then as before, next numbers
/// included, and no change is open. (Francis et al., queries; openCypher 9, updating clauses and UNION; canonical order and faults:
/// own)
pub fn execute(
    alloc: Global,
    store: &mut Store,
    checked: &Checked,
) -> Result<StatementAnswer, UpdateFault>
    requires { IsNone store.old.graph.was }
    ensures meaning { IfOk result (λ outcome. statement_outcome store.old.graph.now (statement_of checked.now) ≡ Ok (outcome_seen store.new.graph.now outcome)) }
    ensures open { OnOk result (store.new ≡ record store.old { graph = record { now = store.new.graph.now; was = Some store.old.graph.now } }) }
    ensures fault { IfErr result (λ why. (why ≡ NoMemory) ⊎ (statement_outcome store.old.graph.now (statement_of checked.now) ≡ Err why)) }
    ensures rolled_back { OnErr result (store.new ≡ store.old) }
{
    store.begin();
    match execute_in_change(alloc, store, checked) {
        Ok(outcome) => Ok(outcome),
        Err(why) => {
            store.rollback();
            Err(why)
        }
    }
}

// Executes a statement in an open change.
fn execute_in_change(
    alloc: Global,
    store: &mut Store,
    checked: &Checked,
) -> Result<StatementAnswer, UpdateFault>
    requires { IsSome store.old.graph.was }
    ensures meaning { IsAnswer result (outcome_seen store.new.graph.now) (statement_outcome store.old.graph.now (statement_of checked.now)) }
    ensures open { store.new.graph.was ≡ store.old.graph.was }
    ensures indexes { store.new.chosen ≡ store.old.chosen }
{
    let statement = checked.statement();
    let queries = statement.queries.as_slice();
    checked_statements();
    store.laws();
    let (first_node, first_rel) = store.next_numbers();
    let reached = each_query(alloc, store, queries)?;
    let Updated { mut table, gone } = reached;
    put_together(statement.all, queries, &mut table.rows);
    counts_agree();
    let (next_node, next_rel) = store.next_numbers();
    let made_nodes = next_node.0 - first_node.0;
    let made_rels = next_rel.0 - first_rel.0;
    Ok(StatementAnswer {
        made_nodes,
        gone_nodes: gone.nodes,
        made_rels,
        gone_rels: gone.rels,
        table,
    })
}

// Goes through the queries. Their tables stand one after another, under the columns of the first.
fn each_query(alloc: Global, store: &mut Store, queries: &[Query]) -> Result<Updated, UpdateFault>
    requires open { IsSome store.old.graph.was }
    requires graph { IsGraph store.old.graph.now }
    requires checked { All (λ q. IsChecked (single q)) (map query_of queries.now) }
    ensures reached { IfOk result (λ after. HaveCome store.old.graph.now store.new.graph.now (map query_of queries.now) after []) }
    ensures refused { IfErr result (λ why. (why ≡ NoMemory) ⊎ (each_in_turn spec.after_query (map query_of queries.now) (beginning store.old.graph.now) ≡ Err why)) }
    ensures open { store.new.graph.was ≡ store.old.graph.was }
    ensures indexes { store.new.chosen ≡ store.old.chosen }
{
    let Some((first, others)) = queries.split_first() else {
        return Ok(with_none_gone(no_table(alloc)));
    };
    let mut done = execute_query(alloc, store, first)?;
    store.laws();
    for query in others {
        let mut more = execute_query(alloc, store, query)?;
        store.laws();
        let nodes = done.gone.nodes + more.gone.nodes;
        let rels = done.gone.rels + more.gone.rels;
        done.table.rows.append(&mut more.table.rows)?;
        done.gone = Gone { nodes, rels };
    }
    Ok(done)
}

// Puts the tables of queries together by UNION; that of one query stands as it is.
fn put_together(all: bool, queries: &[Query], rows: &mut Vec<Row>)
    ensures { rows.new.items ≡ reading.put_together all (map query_of queries.now) rows.old.items }
{
    if queries.len() != 1 {
        unite(all, rows);
    }
}
