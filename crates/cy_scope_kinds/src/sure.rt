//! Sure expressions: those whose form shows that they have a value on every row and every graph (own).

ghost use Rattle.std.specs.Prelude.{◌≡◌, map};
ghost use Rattle.cy_trees.specs.TreeModels.{expression_of, expressions_from, links_from, link_of, arms_from, arm_of};
ghost use Rattle.cy_scope_kinds.specs.Sure as spec;

use crate::expression_kinds::kind_of;
use crate::functions::Function;
use crate::kinds::Kind;
use crate::scopes::Scope;
use cy_trees::{Arm, BinaryOperator, Expr, Link, UnaryOperator};

/// Whether the expression is null, a boolean, an integer or a text that is written out.
pub fn is_literal(expression: &Expr) -> bool
    ensures { result ≡ spec.is_literal (expression_of expression.now) }
{
    matches!(
        expression,
        Expr::Null | Expr::Boolean(_) | Expr::Integer(_) | Expr::Text(_)
    )
}

/// Whether the expression is a list that is written out, or `labels(..)`.
pub fn is_known_list(expression: &Expr) -> bool
    ensures { result ≡ spec.is_known_list (expression_of expression.now) }
{
    match expression {
        Expr::List(_) => true,
        Expr::Call(name, _, _) => {
            matches!(Function::named(name.as_str()), Some(Function::Labels))
        }
        _ => false,
    }
}

/// Whether `size` can't fault on the expression, which is sure.
fn has_size(scope: &Scope, expression: &Expr) -> bool
    ensures { result ≡ spec.has_size scope.now (expression_of expression.now) }
{
    match expression {
        Expr::Variable(_) => matches!(kind_of(scope, expression), Kind::Relationships),
        _ => is_known_list(expression),
    }
}

fn have_size(scope: &Scope, elements: &[Expr]) -> bool
    ensures { result ≡ spec.have_size scope.now (expressions_from (map expression_of elements.now)) }
{
    for element in elements {
        if !has_size(scope, element) {
            return false;
        }
    }
    true
}

/// Whether an operator is sure on a sure operand, which may be a flag.
pub fn is_sure_unary(operator: UnaryOperator, flag: bool) -> bool
    ensures { result ≡ spec.is_sure_unary operator flag }
{
    match operator {
        UnaryOperator::Not => flag,
        UnaryOperator::Plus | UnaryOperator::Minus => false,
        UnaryOperator::IsNull | UnaryOperator::IsNotNull => true,
    }
}

/// Whether an operator is sure on sure operands, which may both be flags, and of which the right one may be a known list.
pub fn is_sure_binary(operator: BinaryOperator, flags: bool, known: bool) -> bool
    ensures { result ≡ spec.is_sure_binary operator flags known }
{
    match operator {
        BinaryOperator::Or | BinaryOperator::Xor | BinaryOperator::And => flags,
        BinaryOperator::In => known,
        BinaryOperator::Contains | BinaryOperator::StartsWith | BinaryOperator::EndsWith => true,
        BinaryOperator::Add
        | BinaryOperator::Subtract
        | BinaryOperator::Multiply
        | BinaryOperator::Divide
        | BinaryOperator::Remainder => false,
    }
}

/// Whether a call is sure on sure operands, of which a size may be known.
fn is_sure_call(function: Option<Function>, sized: bool) -> bool
    ensures { result ≡ spec.is_sure_call function sized }
{
    match function {
        Some(Function::Size) => sized,
        Some(
            Function::Id
            | Function::Type
            | Function::Labels
            | Function::Exists
            | Function::Coalesce,
        ) => true,
        _ => false,
    }
}

/// Whether each of the expressions is sure.
#[cycle(sure)]
fn are_sure(scope: &Scope, elements: &[Expr]) -> bool
    ensures { result ≡ spec.are_sure scope.now (expressions_from (map expression_of elements.now)) }
{
    for element in elements {
        if !is_sure(scope, element) {
            return false;
        }
    }
    true
}

/// Whether each of a list's elements is a literal or a sure flag.
#[cycle(sure)]
fn are_sure_elements(scope: &Scope, elements: &[Expr]) -> bool
    ensures { result ≡ spec.are_sure_elements scope.now (expressions_from (map expression_of elements.now)) }
{
    for element in elements {
        let sure = is_literal(element) || is_sure_flag(scope, element);
        if !sure {
            return false;
        }
    }
    true
}

/// Whether each operand of a chain but the first is sure.
#[cycle(sure)]
fn are_sure_links(scope: &Scope, links: &[Link]) -> bool
    ensures { result ≡ spec.are_sure_links scope.now (links_from (map link_of links.now)) }
{
    for link in links {
        if !is_sure(scope, &link.operand) {
            return false;
        }
    }
    true
}

/// Whether each condition is a sure flag, and each result is sure.
#[cycle(sure)]
fn are_sure_arms(scope: &Scope, arms: &[Arm]) -> bool
    ensures { result ≡ spec.are_sure_arms scope.now (arms_from (map arm_of arms.now)) }
{
    for arm in arms {
        let sure = is_sure_flag(scope, &arm.condition) && is_sure(scope, &arm.outcome);
        if !sure {
            return false;
        }
    }
    true
}

/// Whether the expression is sure, and a flag: it may stand after WHERE.
#[cycle(sure)]
pub fn is_sure_flag(scope: &Scope, expression: &Expr) -> bool
    ensures { result ≡ spec.is_sure_flag scope.now (expression_of expression.now) }
{
    is_sure(scope, expression) && kind_of(scope, expression).is_flag()
}

/// Whether an expression of a checked statement is sure, in its scope.
#[cycle(sure)]
pub fn is_sure(scope: &Scope, expression: &Expr) -> bool
    ensures { result ≡ spec.is_sure scope.now (expression_of expression.now) }
{
    match expression {
        Expr::Null | Expr::Boolean(_) | Expr::Integer(_) | Expr::Text(_) | Expr::Variable(_) =>
            true,
        Expr::Property(owner, _) | Expr::HasLabels(owner, _) => is_sure(scope, owner),
        Expr::Unary(operator, operand) => {
            is_sure(scope, operand) && is_sure_unary(*operator, kind_of(scope, operand).is_flag())
        }
        Expr::Binary(operator, left, right) => {
            is_sure(scope, left)
                && is_sure(scope, right)
                && is_sure_binary(
                    *operator,
                    kind_of(scope, left).is_flag() && kind_of(scope, right).is_flag(),
                    is_known_list(right),
                )
        }
        Expr::Comparison(first, links) => is_sure(scope, first) && are_sure_links(scope, links),
        Expr::List(elements) => are_sure_elements(scope, elements),
        Expr::Case(arms, otherwise) => {
            are_sure_arms(scope, arms)
                && match otherwise {
                    Some(otherwise) => is_sure(scope, otherwise),
                    None => true,
                }
        }
        Expr::Call(name, _, arguments) => {
            are_sure(scope, arguments)
                && is_sure_call(Function::named(name.as_str()), have_size(scope, arguments))
        }
        Expr::CallStar(_) => false,
    }
}
