//! Whether two conditions on rows are the same.

ghost use Rattle.std.specs.Prelude.{◌≡◌, ◌&&◌, map};
ghost use Rattle.std.specs.Str.{bytes_eq};
ghost use Rattle.cy_trees.specs.TreeModels.{expression_of, link_of, links_from};
ghost use Rattle.cy_network_parts.specs.SameConditions as spec;

use cy_trees::{BinaryOperator, Comparator, Expr, Link, Variable};

/// Whether two conditions are the same: a value that is in a list, a value that equals another one, or several such conditions, this deep at most.
pub(crate) fn same_condition(test: &Expr, other: &Expr, deep: usize) -> bool
    ensures { result ≡ spec.same_condition deep (expression_of test.now) (expression_of other.now) }
{
    if deep == 0 {
        return false;
    }
    match (test, other) {
        (Expr::Binary(operator, left, right), Expr::Binary(wanted, first, second)) => {
            if are_and(*operator, *wanted) {
                return same_condition(left, first, deep - 1)
                    && same_condition(right, second, deep - 1);
            }
            are_in(*operator, *wanted) && same_operands(left, right, first, second)
        }
        (Expr::Comparison(value, links), Expr::Comparison(wanted, others)) => {
            same_operand(value, wanted) && same_links(links, others)
        }
        _ => false,
    }
}

fn are_and(operator: BinaryOperator, other: BinaryOperator) -> bool
    ensures { result ≡ spec.are_and operator other }
{
    match (operator, other) {
        (BinaryOperator::And, BinaryOperator::And) => true,
        _ => false,
    }
}

fn are_in(operator: BinaryOperator, other: BinaryOperator) -> bool
    ensures { result ≡ spec.are_in operator other }
{
    match (operator, other) {
        (BinaryOperator::In, BinaryOperator::In) => true,
        _ => false,
    }
}

fn are_equal(comparator: Comparator, other: Comparator) -> bool
    ensures { result ≡ spec.are_equal comparator other }
{
    match (comparator, other) {
        (Comparator::Equal, Comparator::Equal) => true,
        _ => false,
    }
}

// Whether two comparisons go on with the same equalities.
fn same_links(links: &[Link], others: &[Link]) -> bool
    ensures { result ≡ spec.same_links (links_from (map link_of links.now)) (links_from (map link_of others.now)) }
{
    let mut rest = others.iter();
    for link in links {
        let Some(other) = rest.next() else {
            return false;
        };
        if !same_link(link, other) {
            return false;
        }
    }
    rest.next().is_none()
}

fn same_link(link: &Link, other: &Link) -> bool
    ensures { result ≡ spec.same_link (link_of link.now) (link_of other.now) }
{
    are_equal(link.comparator, other.comparator) && same_operand(&link.operand, &other.operand)
}

fn same_operands(left: &Expr, right: &Expr, first: &Expr, second: &Expr) -> bool
    ensures { result ≡ spec.same_operand (expression_of left.now) (expression_of first.now) && spec.same_operand (expression_of right.now) (expression_of second.now) }
{
    same_operand(left, first) && same_operand(right, second)
}

// Whether two expressions are the same variable or the same literal.
fn same_operand(operand: &Expr, other: &Expr) -> bool
    ensures { result ≡ spec.same_operand (expression_of operand.now) (expression_of other.now) }
{
    match (operand, other) {
        (Expr::Boolean(truth), Expr::Boolean(other)) => *truth == *other,
        (Expr::Integer(number), Expr::Integer(other)) => *number == *other,
        (Expr::Text(text), Expr::Text(other)) => same_text(text.as_str(), other.as_str()),
        (Expr::Variable(variable), Expr::Variable(other)) => same_variable(variable, other),
        _ => false,
    }
}

pub(crate) fn same_variable(variable: &Variable, other: &Variable) -> bool
    ensures { result ≡ spec.same_variable variable.now other.now }
{
    same_text(variable.name.as_str(), other.name.as_str())
        && same_column(variable.column, other.column)
}

pub(crate) fn same_text(left: &str, right: &str) -> bool
    ensures { result ≡ bytes_eq left.now right.now }
{
    left == right
}

fn same_column(column: Option<usize>, other: Option<usize>) -> bool
    ensures { result ≡ spec.same_column column other }
{
    match (column, other) {
        (Some(column), Some(other)) => column == other,
        (None, None) => true,
        _ => false,
    }
}
