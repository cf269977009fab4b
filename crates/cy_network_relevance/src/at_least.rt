//! How many relationships the cells in a column name at least.

ghost use Rattle.std.specs.Prelude.{◌≡◌, map, min, slice_get, sum_by};
ghost use Rattle.std.specs.Option.{option_map_or};
ghost use Rattle.cy_planner_algebra.specs.Plans.{width};
ghost use Rattle.cy_planner_algebra.specs.PlanModels.{output_of, plan_of};
ghost use Rattle.cy_planner_algebra.specs.WellFormed.{IsWellFormed};
ghost use Rattle.cy_network_relevance.specs.Lists as lists;

use crate::columns::variable_column;
use cy_planner_algebra::{Operator, Output};

/// How many relationships the cell in a column of an operator's rows names at least, counted up to this many.
pub(crate) fn least_named(part: &Operator, column: usize, enough: usize) -> usize
    requires { IsWellFormed (plan_of part.now) }
    ensures { result ≡ min enough (lists.least_named (plan_of part.now) column) }
{
    least_below(part, part.width(), column, enough)
}

/// How many the cell in a column of the rows of an operator of this width names at least. What has one operator below it is gone through in a loop,
/// and so is the input of a join that has the column.
#[cycle(at_least)]
fn least_below(part: &Operator, wide: usize, column: usize, enough: usize) -> usize
    requires part { IsWellFormed (plan_of part.now) }
    requires wide { wide ≡ width (plan_of part.now) }
    ensures { result ≡ min enough (lists.least_named (plan_of part.now) column) }
{
    if enough == 0 {
        return 0;
    }
    let mut part = part;
    let mut wide = wide;
    let mut column = column;
    loop {
        match part {
            Operator::Rels(_, _) => return usize::from(column == 0),
            Operator::Join(left, right, _) => {
                let second = right.width();
                wide -= second;
                if column < wide {
                    part = left;
                } else {
                    column -= wide;
                    wide = second;
                    part = right;
                }
            }
            Operator::Outer(left, right, _, _) => {
                wide -= right.width();
                if column >= wide {
                    return 0;
                }
                part = left;
            }
            Operator::Lookup(below, _, _) => {
                wide -= 1;
                if column >= wide {
                    return 0;
                }
                part = below;
            }
            Operator::Distinct(below) => part = below,
            Operator::Project(below, outputs) => return least_in(below, outputs, column, enough),
            Operator::Union(left, right) => {
                let few = least_below(left, wide, column, enough);
                return least_below(right, wide, column, few);
            }
            _ => match part.sifted() {
                Some(below) => part = below,
                None => return 0,
            },
        }
    }
}

/// How many relationships the cell in a column that a projection makes names at least.
#[cycle(at_least)]
fn least_in(below: &Operator, outputs: &[Output], column: usize, enough: usize) -> usize
    requires { IsWellFormed (plan_of below.now) }
    ensures { result ≡ min enough (option_map_or (lists.least_made (lists.least_named (plan_of below.now))) (slice_get (map output_of outputs.now) column) 0) }
{
    match outputs.get(column) {
        Some(output) => least_made(below, below.width(), output, enough),
        None => 0,
    }
}

/// How many relationships a cell that a projection makes names at least.
#[cycle(at_least)]
fn least_made(below: &Operator, wide: usize, output: &Output, enough: usize) -> usize
    requires below { IsWellFormed (plan_of below.now) }
    requires wide { wide ≡ width (plan_of below.now) }
    ensures { result ≡ min enough (lists.least_made (lists.least_named (plan_of below.now)) (output_of output.now)) }
{
    match output {
        Output::Rels(columns) => least_of_all(below, wide, columns, enough),
        Output::Cell(expression) => match variable_column(expression) {
            Some(column) => least_below(below, wide, column, enough),
            None => 0,
        },
    }
}

/// How many relationships a list of what is named in some columns has at least.
#[cycle(at_least)]
fn least_of_all(below: &Operator, wide: usize, columns: &[usize], enough: usize) -> usize
    requires below { IsWellFormed (plan_of below.now) }
    requires wide { wide ≡ width (plan_of below.now) }
    ensures { result ≡ min enough (sum_by (lists.least_named (plan_of below.now)) columns.now) }
{
    let mut found = 0;
    for column in columns {
        found += least_below(below, wide, *column, enough - found);
    }
    found
}
