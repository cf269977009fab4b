//! The plan of a view's query.

ghost use Rattle.std.specs.Prelude.{◌≡◌, ◌<◌, ◌↔◌, [], IfOk, IsErrOf, map};
ghost use Rattle.cy_trees.specs.TreeModels.{clause_of, query_of, statement_of};
ghost use Rattle.cy_scope.specs.Checked.{IsViewQuery, single};
ghost use Rattle.cy_planner_algebra.specs.PlanModels.{plan_of};
ghost use Rattle.cy_planner.specs.Serves.{Serves};
ghost use Rattle.cy_planner.specs.Weight.{greatest_weight, weight};
ghost use Rattle.cy_planner.specs.internal.QueryPlans.{AreViewQueries, IsPlanOfAll, IsQueryPlan};

use crate::clauses::clause_rows;
use crate::faults::PlanFault;
use crate::outer_filters::with_low_predicates;
use crate::weight::is_too_large;
use cy_oneshot_meaning::laws::{clauses_on_bags, view_queries};
use cy_planner_algebra::Plan;
use cy_planner_rewriting::{narrowed, rewritten};
use cy_scope::{ViewQuery, checked_statements};
use cy_trees::{Clause, Query, Statement};
use cy_values::{Fault, row_order_laws};
use std::alloc::Global;

/// The plan of the clauses of a query of a view, one after another. Fails only when out of memory.
fn query_rows(alloc: Global, clauses: &[Clause]) -> Result<Plan, Fault>
    requires { IsViewQuery (single (record { clauses = map clause_of clauses.now })) }
    ensures { IfOk result (λ p. IsQueryPlan (record { clauses = map clause_of clauses.now }) (plan_of p)) }
{
    row_order_laws();
    clauses_on_bags();
    view_queries();
    checked_statements();
    let mut rows = Plan::unit();
    for clause in clauses {
        rows = clause_rows(alloc, rows, clause)?;
    }
    rows.meant();
    Ok(rows)
}

/// The plan of the queries of a view, the rows of one after those of the other. Fails only when out of memory.
fn rows_of_all(alloc: Global, queries: &[Query]) -> Result<Plan, Fault>
    requires { AreViewQueries (map query_of queries.now) }
    ensures { IfOk result (λ p. IsPlanOfAll (map query_of queries.now) [] (plan_of p)) }
{
    view_queries();
    let Some((earliest, later)) = queries.split_first() else {
        unreachable!();
    };
    let mut rows = query_rows(alloc, &earliest.clauses)?;
    for query in later {
        let more = query_rows(alloc, &query.clauses)?;
        rows = Plan::union(alloc, rows, more)?;
    }
    Ok(rows)
}

/// The plan of the queries of a view, put together by UNION: each row once, but for UNION ALL, which keeps all (openCypher 9, UNION).
/// Fails only when out of memory.
fn united_rows(alloc: Global, statement: &Statement) -> Result<Plan, Fault>
    requires { IsViewQuery (statement_of statement.now) }
    ensures { IfOk result (λ p. Serves (plan_of p) (statement_of statement.now)) }
{
    row_order_laws();
    checked_statements();
    let queries = statement.queries.as_slice();
    let rows = rows_of_all(alloc, queries)?;
    rows.meant();
    if statement.all || queries.len() == 1 {
        return Ok(rows);
    }
    rows.distinct(alloc)
}

/// A plan that serves the query of a view: on every graph its rows are, as a bag, those of the query, no expression of it has a fault,
/// and no operator of it counts a row more often than once or than some row of the query's wide tables. `PlanTooLarge` exactly where the
/// query weighs more than 512; else it fails only with `NoMemory` (own).
pub fn plan(alloc: Global, query: &ViewQuery) -> Result<Plan, PlanFault>
    ensures too_large { IsErrOf result PlanFault.PlanTooLarge ↔ greatest_weight < weight (statement_of query.now) }
    ensures serves { IfOk result (λ p. Serves (plan_of p) (statement_of query.now)) }
{
    if is_too_large(query) {
        return Err(PlanFault::PlanTooLarge);
    }
    let rows = united_rows(alloc, query.checked().statement())?;
    let plan = with_low_predicates(alloc, rewritten(alloc, rows)?)?;
    Ok(narrowed(alloc, plan)?)
}
