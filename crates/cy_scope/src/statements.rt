//! Statements without a fault (own).

ghost use Rattle.std.specs.Prelude.{◌≡◌, ◌⊎◌, map, None, Some, IfOk, OnOk, MatchResult};
ghost use Rattle.cy_trees.specs.TreeModels.{query_of, statement_of};
ghost use Rattle.cy_scope_kinds.specs.declared.faults.ScopeFault.TheVariants.{NoMemory};
ghost use Rattle.cy_scope_kinds.specs.Faults.{first_fault};
ghost use Rattle.cy_scope_kinds.specs.internal.Answers.{MayFault};
ghost use Rattle.cy_scope.specs.ClauseFaults.{statement_fault, queries_fault, later_query_fault};
ghost use Rattle.cy_scope.specs.Resolved.{resolved_query, resolved_statement};

use crate::checked::Checked;
use crate::clause_checks::check_query;
use crate::clause_columns::resolve_clauses;
use cy_scope_kinds::{Scope, ScopeFault, demand};
use cy_trees::{Query, Statement};
use std::alloc::{AllocError, Global};

/// The first fault of a query after the first one, which has these columns.
fn check_later(alloc: Global, columns: &Scope, query: &Query) -> Result<(), ScopeFault>
    ensures { MayFault (later_query_fault columns.now (query_of query.now)) result }
{
    let own = check_query(alloc, query)?;
    demand(columns.has_same_names(&own), ScopeFault::DuplicateColumn)
}

fn check_all_later(alloc: Global, columns: &Scope, queries: &[Query]) -> Result<(), ScopeFault>
    ensures { MayFault (first_fault (later_query_fault columns.now) (map query_of queries.now)) result }
{
    for query in queries {
        check_later(alloc, columns, query)?;
    }
    Ok(())
}

/// The first fault of queries.
fn check_queries(alloc: Global, queries: &[Query]) -> Result<(), ScopeFault>
    ensures { MayFault (queries_fault (map query_of queries.now)) result }
{
    let Some((earliest, later)) = queries.split_first() else {
        return Ok(());
    };
    let columns = check_query(alloc, earliest)?;
    check_all_later(alloc, &columns, later)
}

fn resolve_query(alloc: Global, query: &mut Query) -> Result<(), AllocError>
    ensures { OnOk result (query_of query.new ≡ resolved_query (query_of query.old)) }
{
    resolve_clauses(alloc, &mut query.clauses)
}

fn resolve_queries(alloc: Global, queries: &mut [Query]) -> Result<(), AllocError>
    ensures { OnOk result (map query_of queries.new ≡ map resolved_query (map query_of queries.old)) }
{
    for query in queries.iter_mut() {
        resolve_query(alloc, query)?;
    }
    Ok(())
}

/// The statement with the columns of its variables.
fn resolved(alloc: Global, statement: Statement) -> Result<Statement, AllocError>
    ensures { IfOk result (λ done. statement_of done ≡ resolved_statement (statement_of statement)) }
{
    let mut statement = statement;
    resolve_queries(alloc, &mut statement.queries)?;
    Ok(statement)
}

/// The statement with the column of each variable set, and nothing else changed. Where a place of it is faulty, the fault of
/// the first such place in the order of the text; the statement is dropped. Each query has a scope of its own; the place of
/// `DuplicateColumn`, where a later query's columns don't have the names of those of the first in the same order, is the end
/// of that query. `NoMemory` when out of memory.
pub fn check(alloc: Global, statement: Statement) -> Result<Checked, ScopeFault>
    ensures { let s = statement_of statement in MatchResult result (λ checked. (statement_fault s ≡ None) × (statement_of checked ≡ resolved_statement s)) (λ fault. (fault ≡ NoMemory) ⊎ (statement_fault s ≡ Some fault)) }
{
    check_queries(alloc, &statement.queries)?;
    let statement = resolved(alloc, statement)?;
    Ok(Checked { statement })
}
