//! Conditions that AND joins. Each call fails only when out of memory.

ghost use Rattle.std.specs.Prelude.{◌≡◌, ◌<◌, IfOk, length, map};
ghost use Rattle.cy_trees.specs.TreeModels.{expression_of};
ghost use Rattle.cy_planner_rows.specs.internal.Conjuncts as spec;
ghost use Rattle.cy_planner_rows.specs.internal.Opened.{IsOpened};

use cy_trees::{BinaryOperator, Expr};
use cy_values::Fault;
use std::alloc::Global;

/// What a condition is.
#[derive(Drop)]
enum Opened {
    /// Two that AND joins.
    Both(Expr, Expr),
    /// One that is no AND.
    One(Expr),
}

fn open_test(test: Expr) -> Opened
    ensures { IsOpened (expression_of test) result }
{
    match test {
        Expr::Binary(BinaryOperator::And, left, right) => {
            Opened::Both(Box::into_inner(left), Box::into_inner(right))
        }
        test => Opened::One(test),
    }
}

/// The conditions that AND joins in a condition, from the left.
pub fn conjuncts(alloc: Global, test: Expr) -> Result<Vec<Expr>, Fault>
    ensures { IfOk result (λ es. map expression_of es.items ≡ spec.conjuncts (expression_of test)) }
{
    let mut found = Vec::new(alloc);
    let mut tests = Vec::new(alloc);
    tests.push(test)?;
    while let Some(test) = tests.pop() {
        match open_test(test) {
            Opened::Both(left, right) => {
                tests.push(right)?;
                tests.push(left)?;
            }
            Opened::One(test) => found.push(test)?,
        }
    }
    Ok(found)
}

/// The conditions, each two neighbours joined by AND.
fn paired(alloc: Global, tests: Vec<Expr>) -> Result<Vec<Expr>, Fault>
    ensures same { IfOk result (λ es. spec.all_conjuncts es.items ≡ spec.all_conjuncts tests.items) }
    ensures fewer { IfOk result (λ es. 1 < length tests.items → length es.items < length tests.items) }
{
    let mut tests = tests;
    tests.reverse();
    let mut made = Vec::new(alloc);
    while let Some(first) = tests.pop() {
        match tests.pop() {
            Some(second) => {
                let first = Box::new(alloc, first)?;
                let second = Box::new(alloc, second)?;
                made.push(Expr::Binary(BinaryOperator::And, first, second))?;
            }
            None => made.push(first)?,
        }
    }
    Ok(made)
}

/// The condition that several are together, joined by AND in halves, if there are some.
pub fn all_of(alloc: Global, tests: Vec<Expr>) -> Result<Option<Expr>, Fault>
    ensures { IfOk result (λ e. spec.IsAllOf tests.items e) }
{
    let mut tests = tests;
    while tests.len() > 1 {
        tests = paired(alloc, tests)?;
    }
    match tests.pop() {
        Some(test) => Ok(Some(test)),
        None => Ok(None),
    }
}

/// A condition with those that AND joins in it joined in halves.
pub fn halved(alloc: Global, test: Expr) -> Result<Expr, Fault>
    ensures { IfOk result (λ e. spec.conjuncts (expression_of e) ≡ spec.conjuncts (expression_of test)) }
{
    let tests = conjuncts(alloc, test)?;
    match all_of(alloc, tests)? {
        Some(test) => Ok(test),
        None => unreachable!(),
    }
}
