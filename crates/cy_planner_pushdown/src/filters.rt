//! Conditions on the rows of a plan.

ghost use Rattle.std.specs.Prelude.{◌≡◌, ◌+◌, [], IfOk, IfSome, map};
ghost use Rattle.cy_trees.specs.TreeModels.{expression_of};
ghost use Rattle.cy_planner_algebra.specs.PlanModels.{plan_of};
ghost use Rattle.cy_planner_rows.specs.Rows as spec;
ghost use Rattle.cy_planner_pushdown.specs.After.{AreKept};
ghost use Rattle.cy_planner_pushdown.specs.internal.Conditions.{IsOnCells};
ghost use Rattle.cy_planner_pushdown.specs.internal.Finding as finding;
ghost use Rattle.cy_planner_pushdown.specs.internal.Pushed as pushed;
ghost use Rattle.cy_planner_pushdown.specs.internal.Tests.{tests_of};

use crate::conditions::{cells_test, find_reading};
use crate::places::Place;
use crate::pushing::push;
use crate::tests::CellsTest;
use cy_planner_algebra::Plan;
use cy_planner_rows::{WantedList, add_asked, conjuncts, filter_where};
use cy_trees::Expr;
use cy_values::Fault;
use std::alloc::Global;

/// The most operators that the conditions which AND joins may pass over together, if each passes over the whole plan, which can have thousands. Further
/// conditions stay above the plan.
const MOST_STEPS: usize = 131_072;

/// How many conditions may go down in a plan.
fn most_tests(plan: &Plan) -> usize {
    match plan.root().left_after(MOST_STEPS) {
        Some(rest) => MOST_STEPS
            .checked_div(MOST_STEPS.saturating_sub(rest))
            .unwrap_or(0),
        None => 0,
    }
}

/// Whether a condition asks something of the graph.
fn asks_graph(alloc: Global, test: &Expr) -> Result<bool, Fault> {
    let mut wanted = WantedList::new(alloc);
    add_asked(alloc, &mut wanted, test)?;
    Ok(wanted.len() > 0)
}

/// A condition on rows as one on the cells of the columns that it reads, where it has a truth whatever stands there. The rows have this many other
/// columns first.
#[tactic(auto, using(crate::proofs::Readings::as_many_written))]
fn find_test(
    alloc: Global,
    below: &Plan,
    before: usize,
    test: &Expr,
) -> Result<Option<CellsTest>, Fault>
    ensures can { IfOk result (λ made. IfSome made (λ c. pushed.CanBePushed (plan_of below.now) c.columns.items (expression_of c.test))) }
    ensures same { IfOk result (λ made. IfSome made (λ c. IsOnCells (expression_of test.now) (map (λ n. before + n) c.columns.items) (expression_of c.test))) }
{
    let Some(found) = find_reading(alloc, below, before, test)? else {
        return Ok(None);
    };
    match cells_test(alloc, &found, test)? {
        Some(test) => {
            let asks = asks_graph(alloc, &test)?;
            Ok(Some(CellsTest {
                columns: found.columns,
                test,
                asks,
            }))
        }
        None => Ok(None),
    }
}

/// What a condition on rows is.
#[derive(Drop)]
enum Look {
    /// A condition on the cells in some columns.
    OnCells(CellsTest),
    /// One that can't go down.
    Other(Expr),
}

fn looked_at(alloc: Global, below: &Plan, before: usize, test: Expr) -> Result<Look, Fault>
    ensures { IfOk result (λ l. finding.IsLook before (plan_of below.now) (expression_of test) l) }
{
    match find_test(alloc, below, before, &test)? {
        Some(on_cells) => Ok(Look::OnCells(on_cells)),
        None => Ok(Look::Other(test)),
    }
}

/// Conditions on what stands in columns of a plan, and others.
#[derive(Drop)]
struct Found {
    tests: Vec<CellsTest>,
    rest: Vec<Expr>,
}

/// Those of several conditions that can go down in a plan, whose columns have other ones before them.
fn find_tests(alloc: Global, below: &Plan, before: usize, tests: Vec<Expr>) -> Result<Found, Fault>
    ensures { IfOk result (λ f. finding.AreFound before (plan_of below.now) (map expression_of tests.items) [] (tests_of f.tests.items) (map expression_of f.rest.items)) }
{
    let most = most_tests(below);
    let mut waiting = tests;
    waiting.reverse();
    let mut found = Vec::new(alloc);
    let mut rest = Vec::new(alloc);
    while let Some(test) = waiting.pop() {
        if found.len() < most {
            let looked = looked_at(alloc, below, before, test)?;
            match looked {
                Look::OnCells(on_cells) => {
                    found.push(on_cells)?;
                }
                Look::Other(other) => {
                    rest.push(other)?;
                }
            }
        } else {
            rest.push(test)?;
        }
    }
    Ok(Found { tests: found, rest })
}

/// A plan, and the conditions that were not put on it.
#[derive(Drop)]
pub struct Kept {
    pub plan: Plan,
    pub rest: Vec<Expr>,
}

/// The rows of a plan for which those of several conditions are true that read these rows alone and have a truth whatever stands there, as far
/// as the plan shows it; the conditions have the rows after other columns, this many. The plan is taken apart once for all of them. Fails
/// only when out of memory.
pub fn keep_after(
    alloc: Global,
    before: usize,
    below: Plan,
    tests: Vec<Expr>,
) -> Result<Kept, Fault>
    ensures { IfOk result (λ k. AreKept before (plan_of below) (map expression_of tests.items) (map expression_of k.rest.items) (plan_of k.plan)) }
{
    let Found { tests, rest } = find_tests(alloc, &below, before, tests)?;
    let plan = push(alloc, Place::of(below, tests))?;
    Ok(Kept { plan, rest })
}

fn filter_one(alloc: Global, below: Plan, test: Expr) -> Result<Plan, Fault>
    requires { spec.IsReadOver (plan_of below) (expression_of test) }
    ensures { IfOk result (λ p. spec.IsFiltered (plan_of below) (expression_of test) (plan_of p)) }
{
    filter_where(alloc, below, &test)
}

/// The rows of a plan for which the conditions are true that were not put on it.
fn filter_rest(alloc: Global, kept: Kept) -> Result<Plan, Fault>
    requires { spec.AreReadOver (plan_of kept.plan) (map expression_of kept.rest.items) }
    ensures { IfOk result (λ p. finding.AreAsked (plan_of kept.plan) (map expression_of kept.rest.items) (plan_of p)) }
{
    let Kept { plan, rest } = kept;
    let mut plan = plan;
    let mut rest = rest;
    rest.reverse();
    while let Some(test) = rest.pop() {
        plan = filter_one(alloc, plan, test)?;
    }
    Ok(plan)
}

/// The rows of a plan for which a condition is true (openCypher 9, WHERE), as `filter_where` gives them. Each of the conditions that AND joins goes as
/// far down as all that it reads stands together, if it has a truth whatever stands there and they aren't too many. Fails only when out of memory.
pub fn filter_low(alloc: Global, below: Plan, test: &Expr) -> Result<Plan, Fault>
    requires { spec.IsReadOver (plan_of below) (expression_of test.now) }
    ensures { IfOk result (λ p. spec.IsFiltered (plan_of below) (expression_of test.now) (plan_of p)) }
{
    let copy = test.copy(alloc)?;
    let tests = conjuncts(alloc, copy)?;
    let kept = keep_after(alloc, 0, below, tests)?;
    filter_rest(alloc, kept)
}
