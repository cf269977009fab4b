//! The faults of expressions (own).

ghost use Rattle.std.specs.Prelude.{◌≡◌, ◌++◌, map, None, Some, MatchResult};
ghost use Rattle.cy_trees.specs.TreeModels.{expression_of, expressions_from, links_from, link_of, arms_from, arm_of};
ghost use Rattle.cy_scope_kinds.specs.Scopes.{find_kind};
ghost use Rattle.cy_scope_kinds.specs.Functions as functions;
ghost use Rattle.cy_scope_kinds.specs.Functions.{function_named};
ghost use Rattle.cy_scope_kinds.specs.Faults.{first, unless};
ghost use Rattle.cy_scope_kinds.specs.ExpressionKinds.{kind_of, call_kind, are_flags, gives_flags, is_flag_otherwise};
ghost use Rattle.cy_scope_kinds.specs.internal.Answers.{Fault};
ghost use Rattle.cy_scope_kinds.specs.internal.ExpressionTrees.{otherwise_of};
ghost use Rattle.cy_scope_kinds.specs.Operands as operands;
ghost use Rattle.cy_scope_kinds.specs.ExpressionFaults as spec;

use crate::expression_kinds::{binary_kind, call_kind, unary_kind};
use crate::faults::ScopeFault;
use crate::functions::Function;
use crate::kinds::{Kind, flag_if};
use crate::scopes::Scope;
use cy_trees::{Arm, Comparator, Expr, Link, UnaryOperator};
use std::alloc::Global;

/// The fault where a rule is broken.
pub fn demand(holds: bool, fault: ScopeFault) -> Result<(), ScopeFault>
    ensures { MatchResult result (λ _. unless holds fault ≡ None) (λ f. unless holds fault ≡ Some f) }
{
    if holds { Ok(()) } else { Err(fault) }
}

/// The kind of the variable of the name, which is looked for in one scope and then in another.
pub fn find_kind(front: &Scope, back: &Scope, name: &str) -> Option<Kind>
    ensures { result ≡ find_kind (front.now ++ back.now) name.now }
{
    match front.find_kind(name) {
        Some(kind) => Some(kind),
        None => back.find_kind(name),
    }
}

/// Whether an operator takes an operand of the kind.
fn takes_unary(operator: UnaryOperator, kind: Kind) -> bool
    ensures { result ≡ operands.takes_unary operator kind }
{
    match operator {
        UnaryOperator::Not | UnaryOperator::Plus | UnaryOperator::Minus => kind.is_value(),
        UnaryOperator::IsNull | UnaryOperator::IsNotNull => true,
    }
}

/// Whether both are nodes, relationships or values.
fn are_alike(left: Kind, right: Kind) -> bool
    ensures { result ≡ operands.are_alike left right }
{
    match (left, right) {
        (Kind::Node, Kind::Node) | (Kind::Relationship, Kind::Relationship) => true,
        _ => left.is_value() && right.is_value(),
    }
}

/// Whether operands of the kinds can be compared.
fn compares(comparator: Comparator, left: Kind, right: Kind) -> bool
    ensures { result ≡ operands.compares comparator left right }
{
    match comparator {
        Comparator::Equal | Comparator::NotEqual => are_alike(left, right),
        Comparator::Less
        | Comparator::LessOrEqual
        | Comparator::Greater
        | Comparator::GreaterOrEqual => left.is_value() && right.is_value(),
    }
}

/// Whether there is no argument.
fn is_none(arguments: &[Expr]) -> bool
    ensures { result ≡ functions.is_none (expressions_from (map expression_of arguments.now)) }
{
    arguments.split_first().is_none()
}

/// Whether there is one argument.
fn is_one(arguments: &[Expr]) -> bool
    ensures { result ≡ functions.is_one (expressions_from (map expression_of arguments.now)) }
{
    match arguments.split_first() {
        Some((_, others)) => is_none(others),
        None => false,
    }
}

/// Whether there is one argument, and it is a property.
fn is_property(arguments: &[Expr]) -> bool
    ensures { result ≡ functions.is_property (expressions_from (map expression_of arguments.now)) }
{
    match arguments.split_first() {
        Some((Expr::Property(_, _), others)) => is_none(others),
        _ => false,
    }
}

/// Whether arguments fit the function in number and form.
fn fits(function: Function, arguments: &[Expr]) -> bool
    ensures { result ≡ functions.fit function (expressions_from (map expression_of arguments.now)) }
{
    match function {
        Function::Coalesce => !is_none(arguments),
        Function::Exists => is_property(arguments),
        _ => is_one(arguments),
    }
}

/// Whether a call has the form of its function.
fn has_form(function: Function, distinct: bool, arguments: &[Expr]) -> bool
    ensures { result ≡ functions.has_form function distinct (expressions_from (map expression_of arguments.now)) }
{
    fits(function, arguments) && (!distinct || function.is_aggregate())
}

/// Whether the function may stand there, which may be a whole item.
fn is_aggregate_allowed(whole: bool, function: Function) -> bool
    ensures { result ≡ spec.is_aggregate_allowed whole function }
{
    whole || !function.is_aggregate()
}

/// The kind of a call with a `*`, which may be a whole item, or its fault.
fn check_star(whole: bool, name: &str) -> Result<Kind, ScopeFault>
    ensures { let fault = spec.star_fault whole (function_named name.now) in MatchResult result (λ k. (fault ≡ None) × (k ≡ Kind.Value)) (λ f. fault ≡ Some f) }
{
    match Function::named(name) {
        Some(Function::Count) => {
            demand(whole, ScopeFault::AggregateHere)?;
            Ok(Kind::Value)
        }
        Some(_) => Err(ScopeFault::WrongArguments),
        None => Err(ScopeFault::UnknownFunction),
    }
}

/// What is known of the kinds of operands.
#[derive(Clone, Copy)]
pub(crate) struct OperandKinds {
    /// Whether each is of a kind that its place takes.
    taken: bool,
    /// Whether each is a flag.
    flags: bool,
}

/// The first fault of operands; whether they are compared as their kinds allow, the first with one of the kind.
#[cycle(checking)]
fn check_links(front: &Scope, back: &Scope, kind: Kind, links: &[Link]) -> Result<bool, ScopeFault>
    ensures { let all = links_from (map link_of links.now) in MatchResult result (λ b. (spec.links_fault (front.now ++ back.now) all ≡ None) × (b ≡ spec.are_compared (front.now ++ back.now) kind all)) (λ f. spec.links_fault (front.now ++ back.now) all ≡ Some f) }
{
    let mut compared = true;
    let mut left = kind;
    for link in links {
        let right = check_expression(front, back, &link.operand)?;
        compared = compared && compares(link.comparator, left, right);
        left = right;
    }
    Ok(compared)
}

/// The first fault of elements; whether they are values.
#[cycle(checking)]
fn check_elements(front: &Scope, back: &Scope, elements: &[Expr]) -> Result<bool, ScopeFault>
    ensures { let all = expressions_from (map expression_of elements.now) in MatchResult result (λ b. (spec.expressions_fault (front.now ++ back.now) all ≡ None) × (b ≡ spec.are_values (front.now ++ back.now) all)) (λ f. spec.expressions_fault (front.now ++ back.now) all ≡ Some f) }
{
    let mut values = true;
    for element in elements {
        let kind = check_expression(front, back, element)?;
        values = values && kind.is_value();
    }
    Ok(values)
}

/// The first fault of the parts of CASE before ELSE; whether they are values, and the results flags.
#[cycle(checking)]
fn check_arms(front: &Scope, back: &Scope, arms: &[Arm]) -> Result<OperandKinds, ScopeFault>
    ensures { let all = arms_from (map arm_of arms.now) in MatchResult result (λ p. (spec.arms_fault (front.now ++ back.now) all ≡ None) × (p.taken ≡ spec.have_values (front.now ++ back.now) all) × (p.flags ≡ gives_flags (front.now ++ back.now) all)) (λ f. spec.arms_fault (front.now ++ back.now) all ≡ Some f) }
{
    let mut taken = true;
    let mut flags = true;
    for arm in arms {
        let condition = check_expression(front, back, &arm.condition)?;
        let outcome = check_expression(front, back, &arm.outcome)?;
        taken = taken && condition.is_value() && outcome.is_value();
        flags = flags && outcome.is_flag();
    }
    Ok(OperandKinds { taken, flags })
}

/// The first fault of what stands after ELSE, if anything; whether it is a value, and a flag.
#[cycle(checking)]
fn check_otherwise(
    front: &Scope,
    back: &Scope,
    otherwise: &Option<Box<Expr>>,
) -> Result<OperandKinds, ScopeFault>
    ensures { let e = otherwise_of otherwise.now in MatchResult result (λ p. (spec.otherwise_fault (front.now ++ back.now) e ≡ None) × (p.taken ≡ spec.is_value_otherwise (front.now ++ back.now) e) × (p.flags ≡ is_flag_otherwise (front.now ++ back.now) e)) (λ f. spec.otherwise_fault (front.now ++ back.now) e ≡ Some f) }
{
    let Some(otherwise) = otherwise else {
        return Ok(OperandKinds {
            taken: true,
            flags: true,
        });
    };
    let kind = check_expression(front, back, otherwise)?;
    Ok(OperandKinds {
        taken: kind.is_value(),
        flags: kind.is_flag(),
    })
}

/// The first fault of arguments; whether the function takes their kinds, and whether they are flags.
#[cycle(checking)]
fn check_arguments(
    front: &Scope,
    back: &Scope,
    function: Function,
    arguments: &[Expr],
) -> Result<OperandKinds, ScopeFault>
    ensures { let all = expressions_from (map expression_of arguments.now) in MatchResult result (λ p. (spec.expressions_fault (front.now ++ back.now) all ≡ None) × (p.taken ≡ spec.are_taken function (front.now ++ back.now) all) × (p.flags ≡ are_flags (front.now ++ back.now) all)) (λ f. spec.expressions_fault (front.now ++ back.now) all ≡ Some f) }
{
    let mut taken = true;
    let mut flags = true;
    for argument in arguments {
        let kind = check_expression(front, back, argument)?;
        taken = taken && function.takes(kind);
        flags = flags && kind.is_flag();
    }
    Ok(OperandKinds { taken, flags })
}

/// The kind of a call, which may be a whole item, or its first fault.
#[cycle(checking)]
fn check_call(
    front: &Scope,
    back: &Scope,
    whole: bool,
    name: &str,
    distinct: bool,
    arguments: &[Expr],
) -> Result<Kind, ScopeFault>
    ensures { let all = expressions_from (map expression_of arguments.now) in let fault = first (spec.expressions_fault (front.now ++ back.now) all) (spec.call_fault whole (front.now ++ back.now) (function_named name.now) distinct all) in MatchResult result (λ k. (fault ≡ None) × (k ≡ call_kind (function_named name.now) (are_flags (front.now ++ back.now) all))) (λ f. fault ≡ Some f) }
{
    let Some(function) = Function::named(name) else {
        check_elements(front, back, arguments)?;
        return Err(ScopeFault::UnknownFunction);
    };
    let parts = check_arguments(front, back, function, arguments)?;
    demand(
        has_form(function, distinct, arguments),
        ScopeFault::WrongArguments,
    )?;
    demand(
        is_aggregate_allowed(whole, function),
        ScopeFault::AggregateHere,
    )?;
    demand(parts.taken, ScopeFault::WrongKind)?;
    Ok(call_kind(Some(function), parts.flags))
}

/// The kind of an expression that is no whole item, or its first fault; names are looked for in one scope and then in another.
#[cycle(checking)]
pub fn check_expression(front: &Scope, back: &Scope, expression: &Expr) -> Result<Kind, ScopeFault>
    ensures { let e = expression_of expression.now in MatchResult result (λ k. (spec.expression_fault (front.now ++ back.now) e ≡ None) × (k ≡ kind_of (front.now ++ back.now) e)) (λ f. spec.expression_fault (front.now ++ back.now) e ≡ Some f) }
{
    match expression {
        Expr::Null | Expr::Boolean(_) => Ok(Kind::Flag),
        Expr::Integer(_) | Expr::Text(_) => Ok(Kind::Value),
        Expr::Variable(variable) => match find_kind(front, back, variable.name.as_str()) {
            Some(kind) => Ok(kind),
            None => Err(ScopeFault::UnknownVariable),
        },
        Expr::Property(owner, _) => {
            let kind = check_expression(front, back, owner)?;
            demand(kind.is_entity(), ScopeFault::WrongKind)?;
            Ok(Kind::Value)
        }
        Expr::HasLabels(owner, _) => {
            let kind = check_expression(front, back, owner)?;
            demand(kind == Kind::Node, ScopeFault::WrongKind)?;
            Ok(Kind::Flag)
        }
        Expr::Unary(operator, operand) => {
            let kind = check_expression(front, back, operand)?;
            demand(takes_unary(*operator, kind), ScopeFault::WrongKind)?;
            Ok(unary_kind(*operator))
        }
        Expr::Binary(operator, left, right) => {
            let left = check_expression(front, back, left)?;
            let right = check_expression(front, back, right)?;
            demand(left.is_value() && right.is_value(), ScopeFault::WrongKind)?;
            Ok(binary_kind(*operator))
        }
        Expr::Comparison(first, links) => {
            let kind = check_expression(front, back, first)?;
            let compared = check_links(front, back, kind, links)?;
            demand(compared, ScopeFault::WrongKind)?;
            Ok(Kind::Flag)
        }
        Expr::List(elements) => {
            let values = check_elements(front, back, elements)?;
            demand(values, ScopeFault::WrongKind)?;
            Ok(Kind::Value)
        }
        Expr::Case(arms, otherwise) => {
            let arms = check_arms(front, back, arms)?;
            let last = check_otherwise(front, back, otherwise)?;
            demand(arms.taken && last.taken, ScopeFault::WrongKind)?;
            Ok(flag_if(arms.flags && last.flags))
        }
        Expr::Call(name, distinct, arguments) => {
            check_call(front, back, false, name.as_str(), *distinct, arguments)
        }
        Expr::CallStar(name) => check_star(false, name.as_str()),
    }
}

/// The kind of a whole item, which may be an aggregate, or its first fault.
pub fn check_item(front: &Scope, back: &Scope, expression: &Expr) -> Result<Kind, ScopeFault>
    ensures { let e = expression_of expression.now in MatchResult result (λ k. (spec.item_fault (front.now ++ back.now) e ≡ None) × (k ≡ kind_of (front.now ++ back.now) e)) (λ f. spec.item_fault (front.now ++ back.now) e ≡ Some f) }
{
    match expression {
        Expr::Call(name, distinct, arguments) => {
            check_call(front, back, true, name.as_str(), *distinct, arguments)
        }
        Expr::CallStar(name) => check_star(true, name.as_str()),
        _ => check_expression(front, back, expression),
    }
}

/// The fault of an expression that has to be a value.
pub fn check_value(alloc: Global, scope: &Scope, expression: &Expr) -> Result<(), ScopeFault>
    ensures { Fault (spec.value_fault scope.now (expression_of expression.now)) result }
{
    let kind = check_expression(scope, &Scope::new(alloc), expression)?;
    demand(kind.is_value(), ScopeFault::WrongKind)
}
