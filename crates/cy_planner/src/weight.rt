//! The weight of a query: how much of it there is to plan (own). Sums stand still at the greatest u64, far above what is planned.

ghost use Rattle.std.specs.Prelude.{◌≡◌, ◌<◌, ◌↔◌, ◌+◌, IsTrue, min, map, sum_by, length};
ghost use Rattle.cy_trees.specs.TreeModels.{statement_of, query_of, clause_of, path_of, path_test_of, step_of, node_of, relationship_of, properties_of, filter_of, where_of};
ghost use Rattle.cy_planner.specs.Weight as spec;

use cy_scope::ViewQuery;
use cy_trees::{
    Clause, Length, MapEntry, NodePattern, Path, PathTest, Query, RelationshipPattern, Step, Where,
};

/// The greatest weight of a query that is planned.
const GREATEST_WEIGHT: u64 = 512;

/// Whether a query weighs more than one that is planned.
pub fn is_too_large(query: &ViewQuery) -> bool
    ensures { IsTrue result ↔ spec.greatest_weight < spec.weight (statement_of query.now) }
{
    weight_of(query) > GREATEST_WEIGHT
}

/// The weight of a query.
pub fn weight_of(query: &ViewQuery) -> u64
    ensures { result ≡ min (spec.weight (statement_of query.now)) u64.MAX }
{
    let queries = query.checked().statement().queries.as_slice();
    let unions = (queries.len() as u64).saturating_sub(1);
    queries_weight(queries).saturating_add(unions)
}

fn queries_weight(queries: &[Query]) -> u64
    ensures { result ≡ min (sum_by spec.query_weight (map query_of queries.now)) u64.MAX }
{
    let mut total: u64 = 0;
    for query in queries {
        total = total.saturating_add(clauses_weight(&query.clauses));
    }
    total
}

fn clauses_weight(clauses: &[Clause]) -> u64
    ensures { result ≡ min (sum_by spec.clause_weight (map clause_of clauses.now)) u64.MAX }
{
    let mut total: u64 = 0;
    for clause in clauses {
        total = total.saturating_add(clause_weight(clause));
    }
    total
}

fn clause_weight(clause: &Clause) -> u64
    ensures { result ≡ min (spec.clause_weight (clause_of clause.now)) u64.MAX }
{
    match clause {
        Clause::Match(matching) => {
            let paths = paths_weight(&matching.paths).saturating_add(1);
            paths.saturating_add(where_weight(&matching.filter))
        }
        Clause::With(with) => {
            let items = (with.projection.items.len() as u64).saturating_add(1);
            items.saturating_add(where_weight(&with.filter))
        }
        Clause::Return(projection) => (projection.items.len() as u64).saturating_add(1),
        Clause::Unwind(_)
        | Clause::Create(_)
        | Clause::Set(_)
        | Clause::Remove(_)
        | Clause::Delete(_) => 1,
    }
}

fn where_weight(filter: &Where) -> u64
    ensures { result ≡ min (spec.where_weight (where_of filter.now)) u64.MAX }
{
    path_tests_weight(&filter.paths).saturating_add(wheres(filter))
}

/// Whether there is a WHERE, as a number.
fn wheres(filter: &Where) -> u64
    ensures { result ≡ spec.wheres (filter_of filter.now.test) (map path_test_of filter.now.paths.items) }
{
    if filter.test.is_none() && filter.paths.is_empty() {
        0
    } else {
        1
    }
}

fn path_tests_weight(tests: &[PathTest]) -> u64
    ensures { result ≡ min (sum_by spec.path_test_weight (map path_test_of tests.now)) u64.MAX }
{
    let mut total: u64 = 0;
    for test in tests {
        total = total.saturating_add(path_test_weight(test));
    }
    total
}

fn path_test_weight(test: &PathTest) -> u64
    ensures { result ≡ min (spec.path_test_weight (path_test_of test.now)) u64.MAX }
{
    path_weight(&test.path).saturating_add(1)
}

fn paths_weight(paths: &[Path]) -> u64
    ensures { result ≡ min (sum_by spec.path_weight (map path_of paths.now)) u64.MAX }
{
    let mut total: u64 = 0;
    for path in paths {
        total = total.saturating_add(path_weight(path));
    }
    total
}

fn path_weight(path: &Path) -> u64
    ensures { result ≡ min (spec.path_weight (path_of path.now)) u64.MAX }
{
    node_weight(&path.start).saturating_add(steps_weight(&path.steps))
}

fn steps_weight(steps: &[Step]) -> u64
    ensures { result ≡ min (sum_by spec.step_weight (map step_of steps.now)) u64.MAX }
{
    let mut total: u64 = 0;
    for step in steps {
        total = total.saturating_add(step_weight(step));
    }
    total
}

fn step_weight(step: &Step) -> u64
    ensures { result ≡ min (spec.step_weight (step_of step.now)) u64.MAX }
{
    relationship_weight(&step.relationship).saturating_add(node_weight(&step.node))
}

fn node_weight(node: &NodePattern) -> u64
    ensures { result ≡ min (spec.node_weight (node_of node.now)) u64.MAX }
{
    let labels = (node.labels.len() as u64).saturating_add(1);
    labels.saturating_add(map_weight(&node.properties))
}

fn relationship_weight(relationship: &RelationshipPattern) -> u64
    ensures { result ≡ min (spec.relationship_weight (relationship_of relationship.now)) u64.MAX }
{
    let types = (relationship.types.len() as u64).saturating_add(length_weight(
        relationship.length,
    ));
    types.saturating_add(map_weight(&relationship.properties))
}

fn map_weight(properties: &Option<Vec<MapEntry>>) -> u64
    ensures { result ≡ spec.map_weight (properties_of properties.now) }
{
    match properties {
        Some(entries) => entries.len() as u64,
        None => 0,
    }
}

fn length_weight(length: Option<Length>) -> u64
    ensures { result ≡ spec.length_weight length }
{
    match length {
        Some(
            Length {
                least,
                most: Some(most),
            },
        ) => 1 + sum_between(least, most),
        Some(Length { most: None, .. }) | None => 1,
    }
}

/// The sum of the numbers from the least to the most, by its closed form.
fn sum_between(least: u16, most: u16) -> u64
    ensures sum { result ≡ spec.sum_between least most }
    ensures small { result < 4294967296 }
{
    if most < least {
        return 0;
    }
    let (least, most) = (u64::from(least), u64::from(most));
    (least + most) * (most - least + 1) / 2
}
