//! Clauses whose expressions are all sure (own).

ghost use Rattle.std.specs.Prelude.{◌≡◌, [], map, IfOk};
ghost use Rattle.std.specs.List.{list_all};
ghost use Rattle.cy_trees.specs.TreeModels.{properties_of, filter_of, where_of, path_test_of, clause_of, query_of, item_of, path_of, step_of};
ghost use Rattle.cy_scope.specs.internal.Trees.{match_of};
ghost use Rattle.cy_scope.specs.Views as spec;

use crate::clause_scopes::go_on;
use cy_scope_kinds::{Scope, is_sure, is_sure_flag};
use cy_trees::{Clause, Expr, Item, MapEntry, Match, Path, PathTest, Query, Step, Where};
use std::alloc::{AllocError, Global};

/// Whether the values of a property map are sure.
fn is_sure_map(scope: &Scope, properties: &Option<Vec<MapEntry>>) -> bool
    ensures { result ≡ spec.is_sure_map scope.now (properties_of properties.now) }
{
    let Some(entries) = properties else {
        return true;
    };
    for entry in entries {
        if !is_sure(scope, &entry.value) {
            return false;
        }
    }
    true
}

fn is_sure_step(scope: &Scope, step: &Step) -> bool
    ensures { result ≡ spec.is_sure_step scope.now (step_of step.now) }
{
    is_sure_map(scope, &step.relationship.properties) && is_sure_map(scope, &step.node.properties)
}

/// Whether the values of the path's property maps are sure.
fn is_sure_path(scope: &Scope, path: &Path) -> bool
    ensures { result ≡ spec.is_sure_path scope.now (path_of path.now) }
{
    if !is_sure_map(scope, &path.start.properties) {
        return false;
    }
    for step in &path.steps {
        if !is_sure_step(scope, step) {
            return false;
        }
    }
    true
}

fn are_sure_paths(scope: &Scope, paths: &[Path]) -> bool
    ensures { result ≡ spec.are_sure_paths scope.now (map path_of paths.now) }
{
    for path in paths {
        if !is_sure_path(scope, path) {
            return false;
        }
    }
    true
}

fn are_sure_items(scope: &Scope, items: &[Item]) -> bool
    ensures { result ≡ spec.are_sure_items scope.now (map item_of items.now) }
{
    for item in items {
        if !is_sure(scope, &item.expression) {
            return false;
        }
    }
    true
}

fn is_sure_condition(scope: &Scope, condition: &Option<Expr>) -> bool
    ensures { result ≡ spec.is_sure_condition scope.now (filter_of condition.now) }
{
    match condition {
        Some(condition) => is_sure_flag(scope, condition),
        None => true,
    }
}

fn are_sure_tests(scope: &Scope, tests: &[PathTest]) -> bool
    ensures { result ≡ spec.are_sure_tests scope.now (map path_test_of tests.now) }
{
    for test in tests {
        if !is_sure_path(scope, &test.path) {
            return false;
        }
    }
    true
}

/// Whether the condition after WHERE, if there is one, is a sure flag, and the values of its paths' maps are sure.
fn is_sure_where(scope: &Scope, filter: &Where) -> bool
    ensures { result ≡ spec.is_sure_where scope.now (where_of filter.now) }
{
    is_sure_condition(scope, &filter.test) && are_sure_tests(scope, &filter.paths)
}

/// Whether a MATCH can be kept as far as its WHERE goes: that of OPTIONAL MATCH holds no path.
fn is_sure_match(scope: &Scope, matching: &Match) -> bool
    ensures { result ≡ spec.is_sure_after scope.now (match_of matching.now) }
{
    is_sure_where(scope, &matching.filter)
        && !(matching.optional && !matching.filter.paths.is_empty())
}

/// Whether what the clause reads before it makes its columns is sure.
fn is_sure_before(scope: &Scope, clause: &Clause) -> bool
    ensures { result ≡ spec.is_sure_before scope.now (clause_of clause.now) }
{
    match clause {
        Clause::Match(matching) => are_sure_paths(scope, &matching.paths),
        Clause::With(with) => are_sure_items(scope, &with.projection.items),
        Clause::Return(projection) => are_sure_items(scope, &projection.items),
        _ => false,
    }
}

/// Whether what the clause reads on its columns is sure.
fn is_sure_after(scope: &Scope, clause: &Clause) -> bool
    ensures { result ≡ spec.is_sure_after scope.now (clause_of clause.now) }
{
    match clause {
        Clause::Match(matching) => is_sure_match(scope, matching),
        Clause::With(with) => is_sure_where(scope, &with.filter),
        _ => true,
    }
}

/// Whether the expressions of all the clauses of a checked query are sure, and none of the clauses is UNWIND.
fn are_sure_clauses(alloc: Global, clauses: &[Clause]) -> Result<bool, AllocError>
    ensures { IfOk result (λ sure. sure ≡ spec.are_sure_clauses [] (map clause_of clauses.now)) }
{
    let mut scope = Scope::new(alloc);
    for clause in clauses {
        if !is_sure_before(&scope, clause) {
            return Ok(false);
        }
        go_on(alloc, &mut scope, clause)?;
        if !is_sure_after(&scope, clause) {
            return Ok(false);
        }
    }
    Ok(true)
}

/// Whether all the queries of a checked statement are sure.
pub(crate) fn are_sure_queries(alloc: Global, queries: &[Query]) -> Result<bool, AllocError>
    ensures { IfOk result (λ sure. sure ≡ list_all (λ q. spec.are_sure_clauses [] q.clauses) (map query_of queries.now)) }
{
    for query in queries {
        if !are_sure_clauses(alloc, &query.clauses)? {
            return Ok(false);
        }
    }
    Ok(true)
}
