//! The text of plans: a line for each operator, with the operators below it further to the right.

use crate::expression_texts::{write_column, write_columns, write_expression};
use cy_planner_algebra::{Attribute, Keeping, KeyColumns, Operator, Orientation, Output, Plan};
use cy_trees::Expr;
use cy_values::Text;
use std::fmt;
use std::fmt::{Display, Formatter, Write};

/// A plan as an indented tree: a line for each operator, and those of the operators below it further to the right. The columns of an operator are
/// numbered from `#0` on, as its rows have them; a join's keys name a column of its left input and one of its right input (own).
#[derive(Drop)]
pub struct PlanText<'a>(pub &'a Plan);

impl Display for PlanText<'_> {
    fn fmt<W: Write>(&self, f: &mut Formatter<W>) -> fmt::Result {
        write_part(f, self.0.root(), 0)
    }
}

/// Writes the types of relationships, and whether they give rows for both directions.
fn write_rels<W: Write>(
    f: &mut Formatter<W>,
    types: &[Text],
    orientation: Orientation,
) -> fmt::Result {
    f.write_str("Rels")?;
    for (place, name) in types.iter().enumerate() {
        f.write_str(if place == 0 { " :" } else { "|" })?;
        f.write_str(name.as_str())?;
    }
    match orientation {
        Orientation::Directed => Ok(()),
        Orientation::Either => f.write_str(" in either direction"),
    }
}

/// Writes the keys of a join.
fn write_keys<W: Write>(f: &mut Formatter<W>, keys: &[KeyColumns]) -> fmt::Result {
    for (place, key) in keys.iter().enumerate() {
        f.write_str(if place == 0 { " on " } else { ", " })?;
        write_column(f, key.left)?;
        f.write_str(" = ")?;
        write_column(f, key.right)?;
    }
    Ok(())
}

/// Writes whether a semi join keeps the rows with a partner or those without one, and its keys.
fn write_semi<W: Write>(
    f: &mut Formatter<W>,
    keys: &[KeyColumns],
    keeping: Keeping,
) -> fmt::Result {
    f.write_str(match keeping {
        Keeping::Matched => "Semi",
        Keeping::Unmatched => "Anti",
    })?;
    write_keys(f, keys)
}

/// Writes what is looked up of the entity in a column.
fn write_lookup<W: Write>(
    f: &mut Formatter<W>,
    column: usize,
    attribute: &Attribute,
) -> fmt::Result {
    match attribute {
        Attribute::Property(key) => {
            let key = key.as_str();
            write!(f, "Lookup #{column}.{key}")
        }
        Attribute::RelType => write!(f, "Lookup type(#{column})"),
        Attribute::Labels => write!(f, "Lookup labels(#{column})"),
    }
}

/// Writes a word and an expression.
fn write_with<W: Write>(f: &mut Formatter<W>, word: &str, expression: &Expr) -> fmt::Result {
    f.write_str(word)?;
    write_expression(f, expression)
}

/// Writes a word and columns.
fn write_over<W: Write>(f: &mut Formatter<W>, word: &str, columns: &[usize]) -> fmt::Result {
    f.write_str(word)?;
    write_columns(f, columns)
}

/// Writes what stands in a column that a projection makes.
fn write_output<W: Write>(f: &mut Formatter<W>, output: &Output) -> fmt::Result {
    match output {
        Output::Cell(expression) => write_expression(f, expression),
        Output::Rels(columns) => {
            write_over(f, "rels(", columns)?;
            f.write_char(')')
        }
    }
}

/// Writes the columns of a projection.
fn write_outputs<W: Write>(f: &mut Formatter<W>, outputs: &[Output]) -> fmt::Result {
    f.write_str("Project")?;
    for (place, output) in outputs.iter().enumerate() {
        f.write_str(if place == 0 { " " } else { ", " })?;
        write_output(f, output)?;
    }
    Ok(())
}

/// Writes the line of an operator, without those of the operators below it.
fn write_line<W: Write>(f: &mut Formatter<W>, part: &Operator) -> fmt::Result {
    match part {
        Operator::Unit => f.write_str("Unit"),
        Operator::Nodes => f.write_str("Nodes"),
        Operator::Rels(types, orientation) => write_rels(f, types, *orientation),
        Operator::Join(_, _, keys) => {
            f.write_str("Join")?;
            write_keys(f, keys)
        }
        Operator::Outer(_, _, keys, test) => {
            f.write_str("Outer")?;
            write_keys(f, keys)?;
            write_with(f, " where ", test)
        }
        Operator::Semi(_, _, keys, keeping) => write_semi(f, keys, *keeping),
        Operator::Lookup(_, column, attribute) => write_lookup(f, *column, attribute),
        Operator::Filter(_, test) => write_with(f, "Filter ", test),
        Operator::AllDifferent(_, columns) => write_over(f, "AllDifferent ", columns),
        Operator::Project(_, outputs) => write_outputs(f, outputs),
        Operator::Distinct(_) => f.write_str("Distinct"),
        Operator::Union(_, _) => f.write_str("Union"),
    }
}

/// Writes an operator and the operators below it, this far to the right.
fn write_part<W: Write>(f: &mut Formatter<W>, part: &Operator, depth: u16) -> fmt::Result {
    for _ in 0..depth {
        f.write_str("  ")?;
    }
    write_line(f, part)?;
    f.write_char('\n')?;
    let deeper = depth.saturating_add(1);
    match part {
        Operator::Unit | Operator::Nodes | Operator::Rels(_, _) => Ok(()),
        Operator::Join(left, right, _)
        | Operator::Outer(left, right, _, _)
        | Operator::Semi(left, right, _, _)
        | Operator::Union(left, right) => {
            write_part(f, left, deeper)?;
            write_part(f, right, deeper)
        }
        Operator::Lookup(below, _, _)
        | Operator::Filter(below, _)
        | Operator::AllDifferent(below, _)
        | Operator::Project(below, _)
        | Operator::Distinct(below) => write_part(f, below, deeper),
    }
}
