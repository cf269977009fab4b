//! The kinds of the expressions of a checked statement.

ghost use Rattle.std.specs.Prelude.{◌≡◌, map};
ghost use Rattle.cy_trees.specs.TreeModels.{expression_of, expressions_from, arms_from, arm_of};
ghost use Rattle.cy_scope_kinds.specs.ExpressionKinds as spec;
ghost use Rattle.cy_scope_kinds.specs.Scopes.{kind_in};

use crate::functions::Function;
use crate::kinds::{Kind, flag_if};
use crate::scopes::Scope;
use cy_trees::{Arm, BinaryOperator, Expr, UnaryOperator};

/// The kind of what an operator with one operand gives.
pub(crate) fn unary_kind(operator: UnaryOperator) -> Kind
    ensures { result ≡ spec.unary_kind operator }
{
    match operator {
        UnaryOperator::Not | UnaryOperator::IsNull | UnaryOperator::IsNotNull => Kind::Flag,
        UnaryOperator::Plus | UnaryOperator::Minus => Kind::Value,
    }
}

/// The kind of what an operator with two operands gives.
pub(crate) fn binary_kind(operator: BinaryOperator) -> Kind
    ensures { result ≡ spec.binary_kind operator }
{
    match operator {
        BinaryOperator::Or
        | BinaryOperator::Xor
        | BinaryOperator::And
        | BinaryOperator::In
        | BinaryOperator::Contains
        | BinaryOperator::StartsWith
        | BinaryOperator::EndsWith => Kind::Flag,
        BinaryOperator::Add
        | BinaryOperator::Subtract
        | BinaryOperator::Multiply
        | BinaryOperator::Divide
        | BinaryOperator::Remainder => Kind::Value,
    }
}

/// The kind of what a call gives, by whether its operands are all flags.
pub(crate) fn call_kind(function: Option<Function>, flags: bool) -> Kind
    ensures { result ≡ spec.call_kind function flags }
{
    match function {
        Some(Function::Coalesce) => flag_if(flags),
        Some(Function::Exists) => Kind::Flag,
        _ => Kind::Value,
    }
}

/// The kind of a bound variable.
fn variable_kind(scope: &Scope, name: &str) -> Kind
    ensures { result ≡ kind_in scope.now name.now }
{
    scope.find_kind(name).unwrap_or(Kind::Value)
}

/// Whether each of the expressions is a flag.
#[cycle(kinds)]
fn are_flags(scope: &Scope, elements: &[Expr]) -> bool
    ensures { result ≡ spec.are_flags scope.now (expressions_from (map expression_of elements.now)) }
{
    for element in elements {
        if !kind_of(scope, element).is_flag() {
            return false;
        }
    }
    true
}

/// Whether the result of each arm is a flag.
#[cycle(kinds)]
fn gives_flags(scope: &Scope, arms: &[Arm]) -> bool
    ensures { result ≡ spec.gives_flags scope.now (arms_from (map arm_of arms.now)) }
{
    for arm in arms {
        if !kind_of(scope, &arm.outcome).is_flag() {
            return false;
        }
    }
    true
}

/// The kind of an expression of a checked statement, in its scope.
#[cycle(kinds)]
pub fn kind_of(scope: &Scope, expression: &Expr) -> Kind
    ensures { result ≡ spec.kind_of scope.now (expression_of expression.now) }
{
    match expression {
        Expr::Null | Expr::Boolean(_) | Expr::HasLabels(_, _) | Expr::Comparison(_, _) => {
            Kind::Flag
        }
        Expr::Integer(_)
        | Expr::Text(_)
        | Expr::Property(_, _)
        | Expr::List(_)
        | Expr::CallStar(_) => Kind::Value,
        Expr::Variable(variable) => variable_kind(scope, variable.name.as_str()),
        Expr::Unary(operator, _) => unary_kind(*operator),
        Expr::Binary(operator, _, _) => binary_kind(*operator),
        Expr::Case(arms, otherwise) => {
            let flags = gives_flags(scope, arms)
                && match otherwise {
                    Some(otherwise) => kind_of(scope, otherwise).is_flag(),
                    None => true,
                };
            flag_if(flags)
        }
        Expr::Call(name, _, arguments) => {
            call_kind(Function::named(name.as_str()), are_flags(scope, arguments))
        }
    }
}
