//! Conditions on the cells in some columns of a plan's rows.

ghost use Rattle.std.specs.Prelude.{◌≡◌, ◌+◌, IfOk, IfSome, length, map};
ghost use Rattle.cy_trees.specs.TreeModels.{arm_of, arms_from, expression_of, expressions_from, link_of, links_from};
ghost use Rattle.cy_planner_algebra.specs.PlanModels.{plan_of};
ghost use Rattle.cy_planner_pushdown.specs.internal.Conditions as spec;
ghost use Rattle.cy_planner_pushdown.specs.internal.Pushed as pushed;

use crate::columns::kind_at;
use cy_planner_algebra::Plan;
use cy_scope_kinds::{Scope, check_expression, is_sure_flag, resolved};
use cy_trees::{Arm, Expr, Link, Variable};
use cy_values::{Duplicate, Fault};
use std::alloc::Global;
use std::collections::BTreeSet;

/// Variables that were found, those of each column once.
#[derive(Drop)]
struct Found {
    variables: Vec<Variable>,
    columns: BTreeSet<usize>,
}

impl Found {
    fn new(alloc: Global) -> Self {
        Found {
            variables: Vec::new(alloc),
            columns: BTreeSet::new(alloc),
        }
    }

    fn add(&mut self, alloc: Global, variable: &Variable) -> Result<(), Fault> {
        if let Some(column) = variable.column {
            if !self.columns.insert(column)? {
                return Ok(());
            }
        }
        self.variables.push(Variable {
            name: variable.name.copy(alloc)?,
            column: variable.column,
        })?;
        Ok(())
    }
}

/// Adds the variables of an expression, those of each column once.
#[cycle(finding)]
fn add_variables(alloc: Global, found: &mut Found, expression: &Expr) -> Result<(), Fault> {
    match expression {
        Expr::Null | Expr::Boolean(_) | Expr::Integer(_) | Expr::Text(_) | Expr::CallStar(_) => Ok(
            (),
        ),
        Expr::Variable(variable) => found.add(alloc, variable),
        Expr::Property(owner, _) | Expr::HasLabels(owner, _) => add_variables(alloc, found, owner),
        Expr::Unary(_, operand) => add_variables(alloc, found, operand),
        Expr::Binary(_, left, right) => {
            add_variables(alloc, found, left)?;
            add_variables(alloc, found, right)
        }
        Expr::Comparison(first, links) => {
            add_variables(alloc, found, first)?;
            add_of_links(alloc, found, links)
        }
        Expr::List(elements) => add_of_elements(alloc, found, elements),
        Expr::Case(arms, otherwise) => {
            add_of_arms(alloc, found, arms)?;
            match otherwise {
                Some(otherwise) => add_variables(alloc, found, otherwise),
                None => Ok(()),
            }
        }
        Expr::Call(_, _, arguments) => add_of_elements(alloc, found, arguments),
    }
}

#[cycle(finding)]
fn add_of_elements(alloc: Global, found: &mut Found, elements: &[Expr]) -> Result<(), Fault> {
    for element in elements {
        add_variables(alloc, found, element)?;
    }
    Ok(())
}

#[cycle(finding)]
fn add_of_links(alloc: Global, found: &mut Found, links: &[Link]) -> Result<(), Fault> {
    for link in links {
        add_variables(alloc, found, &link.operand)?;
    }
    Ok(())
}

#[cycle(finding)]
fn add_of_arms(alloc: Global, found: &mut Found, arms: &[Arm]) -> Result<(), Fault> {
    for arm in arms {
        add_variables(alloc, found, &arm.condition)?;
        add_variables(alloc, found, &arm.outcome)?;
    }
    Ok(())
}

/// Variables with the kinds of what stands in their columns: those of a plan's rows, and those that a condition has for them.
#[derive(Drop)]
pub(crate) struct Reading {
    scope: Scope,
    pub(crate) columns: Vec<usize>,
    written: Vec<usize>,
}

fn is_new(scope: &Scope, columns: &[usize], name: &str, column: usize) -> bool
    ensures { result ≡ spec.is_new scope.now columns.now name.now column }
{
    scope.find_kind(name).is_none() && !columns.contains(&column)
}

/// The variables, if each has a column of its own after the first ones, whose kind the plan shows.
fn reading_of(
    alloc: Global,
    below: &Plan,
    before: usize,
    variables: &[Variable],
) -> Result<Option<Reading>, Fault>
    ensures stand { IfOk result (λ made. IfSome made (λ r. pushed.StandIn (plan_of below.now) r.columns.items r.scope)) }
    ensures written { IfOk result (λ made. IfSome made (λ r. r.written.items ≡ map (λ c. before + c) r.columns.items)) }
{
    let mut scope = Scope::new(alloc);
    let mut columns = Vec::new(alloc);
    let mut written = Vec::new(alloc);
    for variable in variables {
        let Some(after) = variable.column else {
            return Ok(None);
        };
        if after < before {
            return Ok(None);
        }
        let column = after - before;
        let Some(kind) = kind_at(below.root(), below.width(), column) else {
            return Ok(None);
        };
        if !is_new(&scope, columns.as_slice(), variable.name.as_str(), column) {
            return Ok(None);
        }
        scope.add_name(kind, variable.name.as_str())?;
        columns.push(column)?;
        written.push(after)?;
    }
    Ok(Some(Reading {
        scope,
        columns,
        written,
    }))
}

/// The variables that a condition reads, if there are some, and each has a column of its own after the first ones, whose kind the plan
/// shows. Fails only when out of memory.
pub(crate) fn find_reading(
    alloc: Global,
    below: &Plan,
    before: usize,
    test: &Expr,
) -> Result<Option<Reading>, Fault>
    ensures stand { IfOk result (λ made. IfSome made (λ r. pushed.StandIn (plan_of below.now) r.columns.items r.scope)) }
    ensures written { IfOk result (λ made. IfSome made (λ r. r.written.items ≡ map (λ c. before + c) r.columns.items)) }
{
    let mut found = Found::new(alloc);
    add_variables(alloc, &mut found, test)?;
    if found.variables.is_empty() {
        return Ok(None);
    }
    reading_of(alloc, below, before, found.variables.as_slice())
}

/// The column of a name, where the variables of a scope stand in these columns.
fn column_in(scope: &Scope, columns: &[usize], name: &str) -> Option<usize>
    ensures { result ≡ spec.column_in scope.now columns.now name.now }
{
    match scope.find_column(name) {
        Some(place) => columns.get(place).copied(),
        None => None,
    }
}

fn same_column(left: Option<usize>, right: Option<usize>) -> bool
    ensures { result ≡ spec.same_column left right }
{
    match (left, right) {
        (Some(column), Some(other)) => column == other,
        _ => false,
    }
}

fn is_that(scope: &Scope, columns: &[usize], variable: &Variable) -> bool
    ensures { result ≡ spec.is_that scope.now columns.now variable.now }
{
    let column = column_in(scope, columns, variable.name.as_str());
    same_column(column, variable.column)
}

/// Whether each variable of an expression is one of a scope and has its column.
#[cycle(asking)]
fn asks_of(scope: &Scope, columns: &[usize], expression: &Expr) -> bool
    ensures { result ≡ spec.asks_of scope.now columns.now (expression_of expression.now) }
{
    match expression {
        Expr::Null | Expr::Boolean(_) | Expr::Integer(_) | Expr::Text(_) | Expr::CallStar(_) =>
            true,
        Expr::Variable(variable) => is_that(scope, columns, variable),
        Expr::Property(owner, _) | Expr::HasLabels(owner, _) => asks_of(scope, columns, owner),
        Expr::Unary(_, operand) => asks_of(scope, columns, operand),
        Expr::Binary(_, left, right) => {
            asks_of(scope, columns, left) && asks_of(scope, columns, right)
        }
        Expr::Comparison(first, links) => {
            asks_of(scope, columns, first) && links_ask_of(scope, columns, links)
        }
        Expr::List(elements) => all_ask_of(scope, columns, elements),
        Expr::Case(arms, otherwise) => {
            arms_ask_of(scope, columns, arms)
                && match otherwise {
                    Some(otherwise) => asks_of(scope, columns, otherwise),
                    None => true,
                }
        }
        Expr::Call(_, _, arguments) => all_ask_of(scope, columns, arguments),
    }
}

#[cycle(asking)]
fn all_ask_of(scope: &Scope, columns: &[usize], elements: &[Expr]) -> bool
    ensures { result ≡ spec.all_ask_of scope.now columns.now (expressions_from (map expression_of elements.now)) }
{
    for element in elements {
        if !asks_of(scope, columns, element) {
            return false;
        }
    }
    true
}

#[cycle(asking)]
fn links_ask_of(scope: &Scope, columns: &[usize], links: &[Link]) -> bool
    ensures { result ≡ spec.links_ask_of scope.now columns.now (links_from (map link_of links.now)) }
{
    for link in links {
        if !asks_of(scope, columns, &link.operand) {
            return false;
        }
    }
    true
}

#[cycle(asking)]
fn arms_ask_of(scope: &Scope, columns: &[usize], arms: &[Arm]) -> bool
    ensures { result ≡ spec.arms_ask_of scope.now columns.now (arms_from (map arm_of arms.now)) }
{
    for arm in arms {
        let asks = asks_of(scope, columns, &arm.condition) && asks_of(scope, columns, &arm.outcome);
        if !asks {
            return false;
        }
    }
    true
}

/// The condition on the cells of the variables alone, if it reads no other ones, and has a truth for whatever stands there, by the kinds.
/// Fails only when out of memory.
pub(crate) fn cells_test(
    alloc: Global,
    reading: &Reading,
    test: &Expr,
) -> Result<Option<Expr>, Fault>
    requires { length reading.now.scope ≡ length reading.now.written.items }
    ensures good { IfOk result (λ made. IfSome made (λ e. spec.IsTest reading.now.scope (expression_of e))) }
    ensures same { IfOk result (λ made. IfSome made (λ e. spec.IsOnCells (expression_of test.now) reading.now.written.items (expression_of e))) }
{
    let scope = &reading.scope;
    if !asks_of(scope, reading.written.as_slice(), test) || !is_sure_flag(scope, test) {
        return Ok(None);
    }
    let none = Scope::new(alloc);
    match check_expression(&none, scope, test) {
        Ok(_) => Ok(Some(resolved(&none, scope, test.copy(alloc)?))),
        Err(_) => Ok(None),
    }
}
