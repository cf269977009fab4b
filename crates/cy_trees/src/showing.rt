//! The text of expressions.

ghost use Rattle.std.specs.Prelude.{◌≡◌, ◌++◌, OnOk, string_bytes, map, codes};
ghost use Rattle.cy_trees.specs.Show.{pieces_text, expression_pieces, elements_pieces, links_pieces, arms_pieces, binary_pieces, comparator_symbol, piece_text, mark, label_pieces, is_literal_or_list, owner_pieces, unary_pieces};
ghost use Rattle.cy_trees.specs.internal.Showing.{inside_pieces};
ghost use Rattle.cy_trees.specs.TreeModels.{expression_of, expressions_from, links_from, link_of, arms_from, arm_of};

use crate::expressions::{Arm, BinaryOperator, Comparator, Expr, Link, UnaryOperator};
use crate::quoting::{write_name, write_quoted};
use cy_values::Text;
use std::alloc::AllocError;

/// How an operator between two operands is written.
fn binary_text(operator: BinaryOperator) -> &'static str
    ensures { result.now ≡ pieces_text (binary_pieces operator) }
{
    match operator {
        BinaryOperator::Or => "OR",
        BinaryOperator::Xor => "XOR",
        BinaryOperator::And => "AND",
        BinaryOperator::In => "IN",
        BinaryOperator::Contains => "CONTAINS",
        BinaryOperator::StartsWith => "STARTS WITH",
        BinaryOperator::EndsWith => "ENDS WITH",
        BinaryOperator::Add => "+",
        BinaryOperator::Subtract => "-",
        BinaryOperator::Multiply => "*",
        BinaryOperator::Divide => "/",
        BinaryOperator::Remainder => "%",
    }
}

/// How a comparator is written.
fn comparator_text(comparator: Comparator) -> &'static str
    ensures { result.now ≡ piece_text (mark (comparator_symbol comparator)) }
{
    match comparator {
        Comparator::Equal => "=",
        Comparator::NotEqual => "<>",
        Comparator::Less => "<",
        Comparator::LessOrEqual => "<=",
        Comparator::Greater => ">",
        Comparator::GreaterOrEqual => ">=",
    }
}

/// Writes labels, each after a colon.
pub(crate) fn write_labels(text: &mut String, labels: &[Text]) -> Result<(), AllocError>
    ensures { OnOk result (string_bytes text.new ≡ string_bytes text.old ++ pieces_text (label_pieces labels.now)) }
{
    for label in labels {
        text.push(':')?;
        write_name(text, label.as_str())?;
    }
    Ok(())
}

/// A literal or a list, after which a `.` or a label can't stand.
fn is_literal_or_list(expression: &Expr) -> bool
    ensures { result ≡ is_literal_or_list (expression_of expression.now) }
{
    match expression {
        Expr::Null | Expr::Boolean(_) | Expr::Integer(_) | Expr::Text(_) | Expr::List(_) => true,
        _ => false,
    }
}

/// Writes what a `.` or a label follows: a literal or a list in brackets.
#[cycle(showing)]
fn write_owner(text: &mut String, owner: &Expr) -> Result<(), AllocError>
    ensures { OnOk result (string_bytes text.new ≡ string_bytes text.old ++ pieces_text (owner_pieces (is_literal_or_list (expression_of owner.now)) (expression_pieces (expression_of owner.now)))) }
{
    if !is_literal_or_list(owner) {
        return write_expression(text, owner);
    }
    text.push('(')?;
    write_expression(text, owner)?;
    text.push(')')
}

/// Writes an operator with its operand, without the brackets around them.
#[cycle(showing)]
fn write_unary(text: &mut String, operator: UnaryOperator, operand: &Expr) -> Result<(), AllocError>
    ensures { OnOk result (string_bytes text.new ≡ string_bytes text.old ++ pieces_text (unary_pieces operator (expression_pieces (expression_of operand.now)))) }
{
    let (front, back) = match operator {
        UnaryOperator::Not => ("NOT ", ""),
        UnaryOperator::Plus => ("+(", ")"),
        UnaryOperator::Minus => ("-(", ")"),
        UnaryOperator::IsNull => ("", " IS NULL"),
        UnaryOperator::IsNotNull => ("", " IS NOT NULL"),
    };
    text.push_str(front)?;
    write_expression(text, operand)?;
    text.push_str(back)
}

/// Writes an operand after what joins it to the one before.
#[cycle(showing)]
fn write_operand(text: &mut String, front: &str, operand: &Expr) -> Result<(), AllocError>
    ensures { OnOk result (string_bytes text.new ≡ string_bytes text.old ++ (codes " " ++ (front.now ++ (codes " " ++ pieces_text (expression_pieces (expression_of operand.now)))))) }
{
    text.push(' ')?;
    text.push_str(front)?;
    text.push(' ')?;
    write_expression(text, operand)
}

/// Writes expressions with commas between them.
#[cycle(showing)]
fn write_elements(text: &mut String, elements: &[Expr]) -> Result<(), AllocError>
    ensures { OnOk result (string_bytes text.new ≡ string_bytes text.old ++ pieces_text (elements_pieces (expressions_from (map expression_of elements.now)))) }
{
    let Some((first, others)) = elements.split_first() else {
        return Ok(());
    };
    write_expression(text, first)?;
    for element in others {
        text.push_str(", ")?;
        write_expression(text, element)?;
    }
    Ok(())
}

/// Writes comparators, each with the operand after it.
#[cycle(showing)]
fn write_links(text: &mut String, links: &[Link]) -> Result<(), AllocError>
    ensures { OnOk result (string_bytes text.new ≡ string_bytes text.old ++ pieces_text (links_pieces (links_from (map link_of links.now)))) }
{
    for link in links {
        write_operand(text, comparator_text(link.comparator), &link.operand)?;
    }
    Ok(())
}

/// Writes each WHEN with its THEN.
#[cycle(showing)]
fn write_arms(text: &mut String, arms: &[Arm]) -> Result<(), AllocError>
    ensures { OnOk result (string_bytes text.new ≡ string_bytes text.old ++ pieces_text (arms_pieces (arms_from (map arm_of arms.now)))) }
{
    for arm in arms {
        write_operand(text, "WHEN", &arm.condition)?;
        write_operand(text, "THEN", &arm.outcome)?;
    }
    Ok(())
}

/// Writes an expression.
#[cycle(showing)]
pub(crate) fn write_expression(text: &mut String, expression: &Expr) -> Result<(), AllocError>
    ensures { OnOk result (string_bytes text.new ≡ string_bytes text.old ++ pieces_text (expression_pieces (expression_of expression.now))) }
{
    match expression {
        Expr::Null => text.push_str("NULL"),
        Expr::Boolean(truth) => text.push_str(if *truth { "TRUE" } else { "FALSE" }),
        Expr::Integer(number) => write!(text, "{number}"),
        Expr::Text(quoted) => write_quoted(text, quoted.as_str()),
        Expr::Variable(variable) => write_name(text, variable.name.as_str()),
        Expr::List(elements) => {
            text.push('[')?;
            write_elements(text, elements)?;
            text.push(']')
        }
        Expr::Call(function, distinct, arguments) => {
            write_name(text, function.as_str())?;
            text.push_str(if *distinct { "(DISTINCT " } else { "(" })?;
            write_elements(text, arguments)?;
            text.push(')')
        }
        Expr::CallStar(function) => {
            write_name(text, function.as_str())?;
            text.push_str("(*)")
        }
        _ => {
            text.push('(')?;
            write_inside(text, expression)?;
            text.push(')')
        }
    }
}

/// Writes what stands between the brackets around an operator or a CASE.
#[cycle(showing)]
fn write_inside(text: &mut String, expression: &Expr) -> Result<(), AllocError>
    ensures { OnOk result (string_bytes text.new ≡ string_bytes text.old ++ pieces_text (inside_pieces (expression_of expression.now))) }
{
    match expression {
        Expr::Property(owner, key) => {
            write_owner(text, owner)?;
            text.push('.')?;
            write_name(text, key.as_str())
        }
        Expr::HasLabels(owner, labels) => {
            write_owner(text, owner)?;
            write_labels(text, labels)
        }
        Expr::Unary(operator, operand) => write_unary(text, *operator, operand),
        Expr::Binary(operator, left, right) => {
            write_expression(text, left)?;
            write_operand(text, binary_text(*operator), right)
        }
        Expr::Comparison(first, links) => {
            write_expression(text, first)?;
            write_links(text, links)
        }
        Expr::Case(arms, otherwise) => {
            text.push_str("CASE")?;
            write_arms(text, arms)?;
            if let Some(otherwise) = otherwise {
                write_operand(text, "ELSE", otherwise)?;
            }
            text.push_str(" END")
        }
        _ => Ok(()),
    }
}
