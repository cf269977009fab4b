//! Whether expressions have the same tree.

ghost use Rattle.std.specs.Prelude.{◌≡◌, map};
ghost use Rattle.cy_trees.specs.TreeModels.{expression_of, expressions_from, links_from, link_of, arms_from, arm_of};
ghost use Rattle.cy_scope_kinds.specs.internal.ExpressionTrees.{otherwise_of};
ghost use Rattle.std.specs.Str.{bytes_eq};
ghost use Rattle.std.specs.Ordering.{int_eq};
ghost use Rattle.cy_scope_kinds.specs.Same as spec;

use cy_trees::{Arm, BinaryOperator, Comparator, Expr, Link, UnaryOperator};
use cy_values::Text;

fn same_unary(left: UnaryOperator, right: UnaryOperator) -> bool
    ensures { result ≡ spec.same_unary left right }
{
    left == right
}

fn same_binary(left: BinaryOperator, right: BinaryOperator) -> bool
    ensures { result ≡ spec.same_binary left right }
{
    left == right
}

fn same_comparator(left: Comparator, right: Comparator) -> bool
    ensures { result ≡ spec.same_comparator left right }
{
    left == right
}

fn same_text(left: &str, right: &str) -> bool
    ensures { result ≡ bytes_eq left.now right.now }
{
    left == right
}

fn same_flags(left: bool, right: bool) -> bool
    ensures { result ≡ spec.same_flags left right }
{
    left == right
}

fn same_integers(left: i64, right: i64) -> bool
    ensures { result ≡ int_eq left right }
{
    left == right
}

fn same_names(left: &[Text], right: &[Text]) -> bool
    ensures { result ≡ spec.same_names left.now right.now }
{
    let mut others = right.iter();
    for name in left {
        let Some(other) = others.next() else {
            return false;
        };
        if !same_text(name.as_str(), other.as_str()) {
            return false;
        }
    }
    others.next().is_none()
}

#[cycle(same)]
fn same_expressions(left: &[Expr], right: &[Expr]) -> bool
    ensures { result ≡ spec.same_expressions (expressions_from (map expression_of left.now)) (expressions_from (map expression_of right.now)) }
{
    let mut others = right.iter();
    for element in left {
        let Some(other) = others.next() else {
            return false;
        };
        if !same(element, other) {
            return false;
        }
    }
    others.next().is_none()
}

#[cycle(same)]
fn same_links(left: &[Link], right: &[Link]) -> bool
    ensures { result ≡ spec.same_links (links_from (map link_of left.now)) (links_from (map link_of right.now)) }
{
    let mut others = right.iter();
    for link in left {
        let Some(other) = others.next() else {
            return false;
        };
        let alike = same_comparator(link.comparator, other.comparator)
            && same(&link.operand, &other.operand);
        if !alike {
            return false;
        }
    }
    others.next().is_none()
}

#[cycle(same)]
fn same_arms(left: &[Arm], right: &[Arm]) -> bool
    ensures { result ≡ spec.same_arms (arms_from (map arm_of left.now)) (arms_from (map arm_of right.now)) }
{
    let mut others = right.iter();
    for arm in left {
        let Some(other) = others.next() else {
            return false;
        };
        let alike = same(&arm.condition, &other.condition) && same(&arm.outcome, &other.outcome);
        if !alike {
            return false;
        }
    }
    others.next().is_none()
}

#[cycle(same)]
fn same_otherwise(left: &Option<Box<Expr>>, right: &Option<Box<Expr>>) -> bool
    ensures { result ≡ spec.same_otherwise (otherwise_of left.now) (otherwise_of right.now) }
{
    match (left, right) {
        (Some(left), Some(right)) => same(left, right),
        (None, None) => true,
        _ => false,
    }
}

/// Whether the expressions have the same tree; the columns of variables don't count.
#[cycle(same)]
pub fn same(left: &Expr, right: &Expr) -> bool
    ensures { result ≡ spec.same (expression_of left.now) (expression_of right.now) }
{
    match (left, right) {
        (Expr::Null, Expr::Null) => true,
        (Expr::Boolean(left), Expr::Boolean(right)) => same_flags(*left, *right),
        (Expr::Integer(left), Expr::Integer(right)) => same_integers(*left, *right),
        (Expr::Text(left), Expr::Text(right)) => same_text(left.as_str(), right.as_str()),
        (Expr::Variable(left), Expr::Variable(right)) => {
            same_text(left.name.as_str(), right.name.as_str())
        }
        (Expr::Property(left, key), Expr::Property(right, other)) => {
            same(left, right) && same_text(key.as_str(), other.as_str())
        }
        (Expr::HasLabels(left, labels), Expr::HasLabels(right, others)) => {
            same(left, right) && same_names(labels, others)
        }
        (Expr::Unary(operator, left), Expr::Unary(other, right)) => {
            same_unary(*operator, *other) && same(left, right)
        }
        (Expr::Binary(operator, a, c), Expr::Binary(other, b, d)) => {
            same_binary(*operator, *other) && same(a, b) && same(c, d)
        }
        (Expr::Comparison(left, links), Expr::Comparison(right, others)) => {
            same(left, right) && same_links(links, others)
        }
        (Expr::List(elements), Expr::List(others)) => same_expressions(elements, others),
        (Expr::Case(arms, left), Expr::Case(others, right)) => {
            same_arms(arms, others) && same_otherwise(left, right)
        }
        (Expr::Call(name, distinct, arguments), Expr::Call(other, also, others)) => {
            same_text(name.as_str(), other.as_str())
                && same_flags(*distinct, *also)
                && same_expressions(arguments, others)
        }
        (Expr::CallStar(name), Expr::CallStar(other)) => {
            same_text(name.as_str(), other.as_str())
        }
        _ => false,
    }
}
