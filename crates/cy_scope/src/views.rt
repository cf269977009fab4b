//! Which statements are queries of views (own).

ghost use Rattle.std.specs.Prelude.{◌≡◌, ◌⊎◌, map, None, Some, Ok, Err, MatchResult, IfOk, IfSome};
ghost use Rattle.std.specs.List.{list_any, list_all};
ghost use Rattle.cy_trees.specs.TreeModels.{clause_of, query_of, statement_of, path_of, path_test_of, projection_of};
ghost use Rattle.cy_scope_kinds.specs.declared.faults.ViewFault.TheVariants.{MayFail, NoMemory};
ghost use Rattle.cy_scope.specs.Views as spec;

use crate::checked::{Checked, ViewQuery};
use crate::sureness::are_sure_queries;
use cy_scope_kinds::{ViewFault, has_aggregates};
use cy_trees::{Clause, Length, Path, PathTest, Projection, Query, Statement};
use std::alloc::Global;

/// The greatest upper bound of a length in a view.
const GREATEST_LENGTH: u16 = 8;

/// Whether a clause updates.
pub fn is_update(clause: &Clause) -> bool
    ensures { result ≡ spec.is_update (clause_of clause.now) }
{
    matches!(
        clause,
        Clause::Create(_) | Clause::Set(_) | Clause::Remove(_) | Clause::Delete(_)
    )
}

/// Whether one of the clauses updates.
pub fn has_update(clauses: &[Clause]) -> bool
    ensures { result ≡ list_any spec.is_update (map clause_of clauses.now) }
{
    for clause in clauses {
        if is_update(clause) {
            return true;
        }
    }
    false
}

/// Whether the last clause is RETURN.
pub fn ends_with_return(clauses: &[Clause]) -> bool
    ensures { result ≡ spec.ends_with_return (map clause_of clauses.now) }
{
    match clauses.last() {
        Some(clause) => matches!(clause, Clause::Return(_)),
        None => false,
    }
}

/// Whether the clauses end with RETURN, and none of them updates.
pub fn is_reading(clauses: &[Clause]) -> bool
    ensures { result ≡ spec.is_reading (map clause_of clauses.now) }
{
    ends_with_return(clauses) && !has_update(clauses)
}

fn all_readings(queries: &[Query]) -> bool
    ensures { result ≡ list_all (λ q. spec.is_reading q.clauses) (map query_of queries.now) }
{
    for query in queries {
        if !is_reading(&query.clauses) {
            return false;
        }
    }
    true
}

/// Whether there are queries, and all of them end with RETURN and update nothing.
fn are_readings(queries: &[Query]) -> bool
    ensures { result ≡ spec.are_readings (map query_of queries.now) }
{
    !queries.is_empty() && all_readings(queries)
}

/// Whether the rows are ordered, or some of them cut.
fn has_order(projection: &Projection) -> bool
    ensures { result ≡ spec.has_order (projection_of projection.now) }
{
    !projection.order.is_empty() || projection.skip.is_some() || projection.limit.is_some()
}

fn is_ordered(clause: &Clause) -> bool
    ensures { result ≡ spec.is_ordered (clause_of clause.now) }
{
    match clause {
        Clause::With(with) => has_order(&with.projection),
        Clause::Return(projection) => has_order(projection),
        _ => false,
    }
}

fn any_ordered(clauses: &[Clause]) -> bool
    ensures { result ≡ list_any spec.is_ordered (map clause_of clauses.now) }
{
    for clause in clauses {
        if is_ordered(clause) {
            return true;
        }
    }
    false
}

fn has_aggregate(clause: &Clause) -> bool
    ensures { result ≡ spec.has_aggregate (clause_of clause.now) }
{
    match clause {
        Clause::With(with) => has_aggregates(&with.projection),
        Clause::Return(projection) => has_aggregates(projection),
        _ => false,
    }
}

fn any_aggregate(clauses: &[Clause]) -> bool
    ensures { result ≡ list_any spec.has_aggregate (map clause_of clauses.now) }
{
    for clause in clauses {
        if has_aggregate(clause) {
            return true;
        }
    }
    false
}

/// Whether a length has no upper bound, or one that is too large.
fn is_unbounded_length(length: Option<Length>) -> bool
    ensures { result ≡ spec.is_unbounded_length length }
{
    match length {
        Some(
            Length {
                most: Some(most),
                ..
            },
        ) => most > GREATEST_LENGTH,
        Some(Length { most: None, .. }) => true,
        None => false,
    }
}

fn has_unbounded(path: &Path) -> bool
    ensures { result ≡ spec.has_unbounded (path_of path.now) }
{
    for step in &path.steps {
        if is_unbounded_length(step.relationship.length) {
            return true;
        }
    }
    false
}

fn has_unbounded_path(paths: &[Path]) -> bool
    ensures { result ≡ list_any spec.has_unbounded (map path_of paths.now) }
{
    for path in paths {
        if has_unbounded(path) {
            return true;
        }
    }
    false
}

fn has_unbounded_test(tests: &[PathTest]) -> bool
    ensures { result ≡ spec.has_unbounded_test (map path_test_of tests.now) }
{
    for test in tests {
        if has_unbounded(&test.path) {
            return true;
        }
    }
    false
}

/// Whether a path of the clause's pattern, or of its WHERE, has such a length.
fn is_unbounded(clause: &Clause) -> bool
    ensures { result ≡ spec.is_unbounded (clause_of clause.now) }
{
    match clause {
        Clause::Match(matching) => {
            has_unbounded_path(&matching.paths) || has_unbounded_test(&matching.filter.paths)
        }
        Clause::With(with) => has_unbounded_test(&with.filter.paths),
        _ => false,
    }
}

fn any_unbounded(clauses: &[Clause]) -> bool
    ensures { result ≡ list_any spec.is_unbounded (map clause_of clauses.now) }
{
    for clause in clauses {
        if is_unbounded(clause) {
            return true;
        }
    }
    false
}

fn any_query_ordered(queries: &[Query]) -> bool
    ensures { result ≡ spec.any_clause spec.is_ordered (map query_of queries.now) }
{
    for query in queries {
        if any_ordered(&query.clauses) {
            return true;
        }
    }
    false
}

fn any_query_aggregates(queries: &[Query]) -> bool
    ensures { result ≡ spec.any_clause spec.has_aggregate (map query_of queries.now) }
{
    for query in queries {
        if any_aggregate(&query.clauses) {
            return true;
        }
    }
    false
}

fn any_query_unbounded(queries: &[Query]) -> bool
    ensures { result ≡ spec.any_clause spec.is_unbounded (map query_of queries.now) }
{
    for query in queries {
        if any_unbounded(&query.clauses) {
            return true;
        }
    }
    false
}

/// A checked statement as the query of a view. `NotAReading` where one of its queries doesn't end with RETURN or has an updating
/// clause, then `OrderInView` where one has ORDER BY, SKIP or LIMIT, `AggregateInView` where one has an aggregate, `Unbounded`
/// where one has a length without an upper bound or with one above 8, `MayFail` where one has UNWIND, an expression that isn't
/// sure, a WHERE whose condition is no sure flag, or an OPTIONAL MATCH with a path in its WHERE: each is asked of all the
/// queries before the next (own). `NoMemory` when out of memory at the last of these; the others take none.
pub fn check_view(alloc: Global, checked: Checked) -> Result<ViewQuery, ViewFault>
    ensures query { IfOk result (λ query. query ≡ checked) }
    ensures verdict { MatchResult result (λ _. spec.view_fault (statement_of checked) ≡ None) (λ fault. (fault ≡ NoMemory) ⊎ (spec.view_fault (statement_of checked) ≡ Some fault)) }
    // Only whether it is sure takes memory.
    ensures memory { result ≡ Err NoMemory → IfSome (spec.view_fault (statement_of checked)) (λ fault. fault ≡ MayFail) }
{
    let queries = checked.statement().queries.as_slice();
    if !are_readings(queries) {
        return Err(ViewFault::NotAReading);
    }
    if any_query_ordered(queries) {
        return Err(ViewFault::OrderInView);
    }
    if any_query_aggregates(queries) {
        return Err(ViewFault::AggregateInView);
    }
    if any_query_unbounded(queries) {
        return Err(ViewFault::Unbounded);
    }
    if !are_sure_queries(alloc, queries)? {
        return Err(ViewFault::MayFail);
    }
    Ok(ViewQuery { checked })
}
