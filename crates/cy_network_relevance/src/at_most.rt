//! How many relationships the cells in a column name at most.

ghost use Rattle.std.specs.Prelude.{◌≡◌, Some, fold, map, slice_get};
ghost use Rattle.std.specs.Option.{option_and_then};
ghost use Rattle.cy_planner_algebra.specs.Plans.{width};
ghost use Rattle.cy_planner_algebra.specs.PlanModels.{output_of, plan_of};
ghost use Rattle.cy_planner_algebra.specs.WellFormed.{IsWellFormed};
ghost use Rattle.cy_network_relevance.specs.Lists as lists;

use crate::columns::variable_column;
use cy_planner_algebra::{Operator, Output};

/// How many relationships the cell in a column of an operator's rows names at most, if the plan shows that.
pub(crate) fn most_named(part: &Operator, column: usize) -> Option<u16>
    requires { IsWellFormed (plan_of part.now) }
    ensures { result ≡ lists.most_named (plan_of part.now) column }
{
    most_below(part, part.width(), column)
}

/// How many the cell in a column of the rows of an operator of this width names at most. What has one operator below it is gone through in a loop, and
/// so is the input of a join that has the column.
#[cycle(at_most)]
fn most_below(part: &Operator, wide: usize, column: usize) -> Option<u16>
    requires part { IsWellFormed (plan_of part.now) }
    requires wide { wide ≡ width (plan_of part.now) }
    ensures { result ≡ lists.most_named (plan_of part.now) column }
{
    let mut part = part;
    let mut wide = wide;
    let mut column = column;
    loop {
        match part {
            Operator::Rels(_, _) => return (column == 0).then_some(1),
            Operator::Join(left, right, _) => {
                let second = right.width();
                wide -= second;
                if column < wide {
                    part = left;
                } else {
                    column -= wide;
                    wide = second;
                    part = right;
                }
            }
            Operator::Outer(left, right, _, _) => {
                wide -= right.width();
                if column >= wide {
                    return None;
                }
                part = left;
            }
            Operator::Lookup(below, _, _) => {
                wide -= 1;
                if column >= wide {
                    return None;
                }
                part = below;
            }
            Operator::Distinct(below) => part = below,
            Operator::Project(below, outputs) => return most_in(below, outputs, column),
            Operator::Union(left, right) => {
                return greater(
                    most_below(left, wide, column),
                    most_below(right, wide, column),
                );
            }
            _ => match part.sifted() {
                Some(below) => part = below,
                None => return None,
            },
        }
    }
}

/// How many relationships the cell in a column that a projection makes names at most.
#[cycle(at_most)]
fn most_in(below: &Operator, outputs: &[Output], column: usize) -> Option<u16>
    requires { IsWellFormed (plan_of below.now) }
    ensures { result ≡ option_and_then (lists.most_made (lists.most_named (plan_of below.now))) (slice_get (map output_of outputs.now) column) }
{
    match outputs.get(column) {
        Some(output) => most_made(below, below.width(), output),
        None => None,
    }
}

/// How many relationships a cell that a projection makes names at most.
#[cycle(at_most)]
fn most_made(below: &Operator, wide: usize, output: &Output) -> Option<u16>
    requires below { IsWellFormed (plan_of below.now) }
    requires wide { wide ≡ width (plan_of below.now) }
    ensures { result ≡ lists.most_made (lists.most_named (plan_of below.now)) (output_of output.now) }
{
    match output {
        Output::Rels(columns) => most_of_all(below, wide, columns),
        Output::Cell(expression) => match variable_column(expression) {
            Some(column) => most_below(below, wide, column),
            None => None,
        },
    }
}

/// How many relationships a list of what is named in some columns has at most.
#[cycle(at_most)]
fn most_of_all(below: &Operator, wide: usize, columns: &[usize]) -> Option<u16>
    requires below { IsWellFormed (plan_of below.now) }
    requires wide { wide ≡ width (plan_of below.now) }
    ensures { result ≡ fold (λ so_far column. lists.together so_far (lists.most_named (plan_of below.now) column)) (Some 0) columns.now }
{
    let mut found = Some(0);
    for column in columns {
        found = together(found, most_below(below, wide, *column));
    }
    found
}

/// Two numbers together, if both are known, and that is 65535 at most.
fn together(a: Option<u16>, b: Option<u16>) -> Option<u16>
    ensures { result ≡ lists.together a b }
{
    match (a, b) {
        (Some(a), Some(b)) => a.checked_add(b),
        _ => None,
    }
}

/// The greater one of two numbers, if both are known.
fn greater(a: Option<u16>, b: Option<u16>) -> Option<u16>
    ensures { result ≡ lists.greater a b }
{
    match (a, b) {
        (Some(a), Some(b)) => Some(a.max(b)),
        _ => None,
    }
}
