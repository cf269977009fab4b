//! The text of expressions over columns: `#0` is the first column of the row. Operators inside others stand in brackets.

use cy_trees::{Arm, BinaryOperator, Comparator, Expr, Link, UnaryOperator, Variable};
use cy_values::Text;
use std::fmt;
use std::fmt::{Formatter, Write};

fn binary_text(operator: BinaryOperator) -> &'static str {
    match operator {
        BinaryOperator::Or => " OR ",
        BinaryOperator::Xor => " XOR ",
        BinaryOperator::And => " AND ",
        BinaryOperator::In => " IN ",
        BinaryOperator::Contains => " CONTAINS ",
        BinaryOperator::StartsWith => " STARTS WITH ",
        BinaryOperator::EndsWith => " ENDS WITH ",
        BinaryOperator::Add => " + ",
        BinaryOperator::Subtract => " - ",
        BinaryOperator::Multiply => " * ",
        BinaryOperator::Divide => " / ",
        BinaryOperator::Remainder => " % ",
    }
}

fn comparator_text(comparator: Comparator) -> &'static str {
    match comparator {
        Comparator::Equal => " = ",
        Comparator::NotEqual => " <> ",
        Comparator::Less => " < ",
        Comparator::LessOrEqual => " <= ",
        Comparator::Greater => " > ",
        Comparator::GreaterOrEqual => " >= ",
    }
}

/// Writes a column by its place in the row.
pub(crate) fn write_column<W: Write>(f: &mut Formatter<W>, column: usize) -> fmt::Result {
    write!(f, "#{column}")
}

/// Writes columns with commas between them.
pub(crate) fn write_columns<W: Write>(f: &mut Formatter<W>, columns: &[usize]) -> fmt::Result {
    for (place, column) in columns.iter().enumerate() {
        if place > 0 {
            f.write_str(", ")?;
        }
        write_column(f, *column)?;
    }
    Ok(())
}

/// Writes a variable: its column, or the name of one that has none.
fn write_variable<W: Write>(f: &mut Formatter<W>, variable: &Variable) -> fmt::Result {
    match variable.column {
        Some(column) => write_column(f, column),
        None => f.write_str(variable.name.as_str()),
    }
}

/// Writes labels, each after a colon.
fn write_labels<W: Write>(f: &mut Formatter<W>, labels: &[Text]) -> fmt::Result {
    for label in labels {
        f.write_char(':')?;
        f.write_str(label.as_str())?;
    }
    Ok(())
}

fn is_operator(expression: &Expr) -> bool {
    matches!(
        expression,
        Expr::Unary(_, _) | Expr::Binary(_, _, _) | Expr::Comparison(_, _)
    )
}

/// Writes an operand: an operator in brackets.
#[cycle(texts)]
fn write_operand<W: Write>(f: &mut Formatter<W>, operand: &Expr) -> fmt::Result {
    if !is_operator(operand) {
        return write_expression(f, operand);
    }
    f.write_char('(')?;
    write_expression(f, operand)?;
    f.write_char(')')
}

#[cycle(texts)]
fn write_unary<W: Write>(
    f: &mut Formatter<W>,
    operator: UnaryOperator,
    operand: &Expr,
) -> fmt::Result {
    let (front, back) = match operator {
        UnaryOperator::Not => ("NOT ", ""),
        UnaryOperator::Plus => ("+", ""),
        UnaryOperator::Minus => ("-", ""),
        UnaryOperator::IsNull => ("", " IS NULL"),
        UnaryOperator::IsNotNull => ("", " IS NOT NULL"),
    };
    f.write_str(front)?;
    write_operand(f, operand)?;
    f.write_str(back)
}

/// Writes expressions with commas between them.
#[cycle(texts)]
fn write_elements<W: Write>(f: &mut Formatter<W>, elements: &[Expr]) -> fmt::Result {
    let Some((first, others)) = elements.split_first() else {
        return Ok(());
    };
    write_expression(f, first)?;
    for element in others {
        f.write_str(", ")?;
        write_expression(f, element)?;
    }
    Ok(())
}

/// Writes comparators, each with the operand after it.
#[cycle(texts)]
fn write_links<W: Write>(f: &mut Formatter<W>, links: &[Link]) -> fmt::Result {
    for link in links {
        f.write_str(comparator_text(link.comparator))?;
        write_operand(f, &link.operand)?;
    }
    Ok(())
}

/// Writes each WHEN with its THEN.
#[cycle(texts)]
fn write_arms<W: Write>(f: &mut Formatter<W>, arms: &[Arm]) -> fmt::Result {
    for arm in arms {
        f.write_str(" WHEN ")?;
        write_expression(f, &arm.condition)?;
        f.write_str(" THEN ")?;
        write_expression(f, &arm.outcome)?;
    }
    Ok(())
}

/// Writes a call of a function.
#[cycle(texts)]
fn write_call<W: Write>(
    f: &mut Formatter<W>,
    function: &str,
    distinct: bool,
    arguments: &[Expr],
) -> fmt::Result {
    f.write_str(function)?;
    f.write_str(if distinct { "(DISTINCT " } else { "(" })?;
    write_elements(f, arguments)?;
    f.write_char(')')
}

/// Writes an expression.
#[cycle(texts)]
pub(crate) fn write_expression<W: Write>(f: &mut Formatter<W>, expression: &Expr) -> fmt::Result {
    match expression {
        Expr::Null => f.write_str("null"),
        Expr::Boolean(truth) => write!(f, "{truth}"),
        Expr::Integer(number) => write!(f, "{number}"),
        Expr::Text(quoted) => {
            let quoted = quoted.as_str();
            write!(f, "{quoted:?}")
        }
        Expr::Variable(variable) => write_variable(f, variable),
        Expr::Property(owner, key) => {
            write_operand(f, owner)?;
            f.write_char('.')?;
            f.write_str(key.as_str())
        }
        Expr::HasLabels(owner, labels) => {
            write_operand(f, owner)?;
            write_labels(f, labels)
        }
        Expr::Unary(operator, operand) => write_unary(f, *operator, operand),
        Expr::Binary(operator, left, right) => {
            write_operand(f, left)?;
            f.write_str(binary_text(*operator))?;
            write_operand(f, right)
        }
        Expr::Comparison(first, links) => {
            write_operand(f, first)?;
            write_links(f, links)
        }
        Expr::List(elements) => {
            f.write_char('[')?;
            write_elements(f, elements)?;
            f.write_char(']')
        }
        Expr::Case(arms, otherwise) => {
            f.write_str("CASE")?;
            write_arms(f, arms)?;
            if let Some(otherwise) = otherwise {
                f.write_str(" ELSE ")?;
                write_expression(f, otherwise)?;
            }
            f.write_str(" END")
        }
        Expr::Call(function, distinct, arguments) => {
            write_call(f, function.as_str(), *distinct, arguments)
        }
        Expr::CallStar(function) => {
            f.write_str(function.as_str())?;
            f.write_str("(*)")
        }
    }
}
