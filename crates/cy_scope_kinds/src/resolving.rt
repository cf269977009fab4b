//! Setting the columns of variables.

ghost use Rattle.std.specs.Prelude.{◌≡◌, ◌++◌, map};
ghost use Rattle.cy_trees.specs.TreeModels.{expression_of, expressions_from, links_from, link_of, arms_from, arm_of};
ghost use Rattle.cy_scope_kinds.specs.Scopes.{find_column};
ghost use Rattle.cy_scope_kinds.specs.internal.ExpressionTrees.{otherwise_of};
ghost use Rattle.cy_scope_kinds.specs.ResolvedExpressions as spec;

use crate::scopes::Scope;
use cy_trees::{Arm, Expr, Link, Variable};
use std::mem;

/// The column of the variable of the name, which is looked for in one scope and then in another, whose columns come after.
fn find_column(front: &Scope, back: &Scope, name: &str) -> Option<usize>
    ensures { result ≡ find_column (front.now ++ back.now) name.now }
{
    match front.find_column(name) {
        Some(column) => Some(column),
        None => match back.find_column(name) {
            Some(column) => Some(front.len() + column),
            None => None,
        },
    }
}

/// The variable with its column.
pub fn resolved_variable(front: &Scope, back: &Scope, variable: Variable) -> Variable
    ensures { result ≡ spec.resolved_variable (front.now ++ back.now) variable }
{
    let column = find_column(front, back, variable.name.as_str());
    Variable {
        name: variable.name,
        column,
    }
}

/// The elements with the columns of their variables.
#[cycle(resolving)]
#[tactic(auto, using(crate::proofs::ResolvedLemmas::resolved_list))]
fn resolved_elements(front: &Scope, back: &Scope, elements: Vec<Expr>) -> Vec<Expr>
    ensures { expressions_from (map expression_of result.items) ≡ spec.resolved_expressions (front.now ++ back.now) (expressions_from (map expression_of elements.items)) }
{
    let mut elements = elements;
    for element in elements.iter_mut() {
        let inner = mem::replace(element, Expr::Null);
        *element = resolved(front, back, inner);
    }
    elements
}

/// The links with the columns of their variables.
#[cycle(resolving)]
#[tactic(auto, using(crate::proofs::ResolvedLemmas::resolved_links_list))]
fn resolved_links(front: &Scope, back: &Scope, links: Vec<Link>) -> Vec<Link>
    ensures { links_from (map link_of result.items) ≡ spec.resolved_links (front.now ++ back.now) (links_from (map link_of links.items)) }
{
    let mut links = links;
    for link in links.iter_mut() {
        let inner = mem::replace(&mut link.operand, Expr::Null);
        link.operand = resolved(front, back, inner);
    }
    links
}

/// The arms with the columns of their variables.
#[cycle(resolving)]
#[tactic(auto, using(crate::proofs::ResolvedLemmas::resolved_arms_list))]
fn resolved_arms(front: &Scope, back: &Scope, arms: Vec<Arm>) -> Vec<Arm>
    ensures { arms_from (map arm_of result.items) ≡ spec.resolved_arms (front.now ++ back.now) (arms_from (map arm_of arms.items)) }
{
    let mut arms = arms;
    for arm in arms.iter_mut() {
        let condition = mem::replace(&mut arm.condition, Expr::Null);
        let outcome = mem::replace(&mut arm.outcome, Expr::Null);
        arm.condition = resolved(front, back, condition);
        arm.outcome = resolved(front, back, outcome);
    }
    arms
}

#[cycle(resolving)]
fn resolved_box(front: &Scope, back: &Scope, expression: Box<Expr>) -> Box<Expr>
    ensures { expression_of result.value ≡ spec.resolved (front.now ++ back.now) (expression_of expression.value) }
{
    let mut boxed = expression;
    let inner = mem::replace(&mut *boxed, Expr::Null);
    *boxed = resolved(front, back, inner);
    boxed
}

/// The expression with the columns of its variables.
#[cycle(resolving)]
pub fn resolved(front: &Scope, back: &Scope, expression: Expr) -> Expr
    ensures { expression_of result ≡ spec.resolved (front.now ++ back.now) (expression_of expression) }
{
    match expression {
        Expr::Variable(variable) => Expr::Variable(resolved_variable(front, back, variable)),
        Expr::Property(operand, key) => Expr::Property(resolved_box(front, back, operand), key),
        Expr::HasLabels(operand, labels) => {
            Expr::HasLabels(resolved_box(front, back, operand), labels)
        }
        Expr::Unary(operator, operand) => {
            Expr::Unary(operator, resolved_box(front, back, operand))
        }
        Expr::Binary(operator, left, right) => {
            let left = resolved_box(front, back, left);
            let right = resolved_box(front, back, right);
            Expr::Binary(operator, left, right)
        }
        Expr::List(elements) => Expr::List(resolved_elements(front, back, elements)),
        Expr::Call(name, distinct, arguments) => {
            Expr::Call(name, distinct, resolved_elements(front, back, arguments))
        }
        Expr::Null => Expr::Null,
        Expr::Boolean(truth) => Expr::Boolean(truth),
        Expr::Integer(number) => Expr::Integer(number),
        Expr::Text(text) => Expr::Text(text),
        Expr::CallStar(name) => Expr::CallStar(name),
        Expr::Comparison(first, links) => {
            let first = resolved_box(front, back, first);
            Expr::Comparison(first, resolved_links(front, back, links))
        }
        Expr::Case(arms, otherwise) => {
            let arms = resolved_arms(front, back, arms);
            match otherwise {
                Some(otherwise) => { Expr::Case(arms, Some(resolved_box(front, back, otherwise))) }
                None => Expr::Case(arms, None),
            }
        }
    }
}
