//! To which sides of a join a condition goes. Where it can go to both, one on several columns goes to both, and one on a single column to
//! tables of nodes and to trails, of which fewer are made then. Beside these it doesn't go to the ends of single relationships: a change of a
//! node that it doesn't concern goes no further than the table of nodes then, however many relationships the node has.

ghost use Rattle.std.specs.Prelude.{◌≡◌, IfOk, IfSome};
ghost use Rattle.cy_planner_algebra.specs.Plans as plan;
ghost use Rattle.cy_planner_algebra.specs.PlanModels.{plan_of};
ghost use Rattle.cy_planner_algebra.specs.WellFormed.{IsWellFormed};
ghost use Rattle.cy_planner_pushdown.specs.internal.Inputs.{AreWellFormed};
ghost use Rattle.cy_planner_pushdown.specs.internal.Pushed as pushed;
ghost use Rattle.cy_planner_pushdown.specs.internal.Sources as sources;
ghost use Rattle.cy_planner_pushdown.specs.internal.Ways as spec;

use crate::columns::{Source, columns_in};
use crate::inputs::Inputs;
use cy_planner_algebra::{KeyColumns, Operator, Output};
use cy_planner_rows::{key_on_left, key_on_right, output_column, width_without};
use cy_values::Fault;
use std::alloc::Global;

/// Where a condition goes on from an operator, with the columns there.
#[derive(Drop)]
pub(crate) enum Way {
    /// It stays.
    Here(Vec<usize>),
    /// In the only input, or in the left one.
    First(Vec<usize>),
    /// In the right input.
    Second(Vec<usize>),
    /// In both inputs.
    Both(Vec<usize>, Vec<usize>),
}

/// How many levels down it is looked for the table of nodes or the trails that a column comes from: each join on a condition's way looks anew.
const MOST_BELOW: usize = 64;

/// Whether what stands in a column comes from a table of nodes or from trails, be it by a key, as far as so many operators show it. The rows are
/// this wide.
fn is_of_nodes_or_trails(part: &Operator, width: usize, column: usize, most: usize) -> bool
    requires good { IsWellFormed (plan_of part.now) }
    requires wide { width ≡ plan.width (plan_of part.now) }
{
    let Some(fewer) = most.checked_sub(1) else {
        return false;
    };
    match part {
        Operator::Nodes => true,
        Operator::Join(left, right, keys) => {
            let right_width = right.width();
            let left_width = width_without(left, width, right_width);
            let sides = sides_of(left_width, keys, column);
            let on_right = match sides.right {
                Some(column) => is_of_nodes_or_trails(right, right_width, column, fewer),
                None => false,
            };
            match sides.left {
                Some(column) => on_right || is_of_nodes_or_trails(left, left_width, column, fewer),
                None => on_right,
            }
        }
        Operator::Outer(left, right, _, _) => {
            let left_width = width_without(left, width, right.width());
            column < left_width && is_of_nodes_or_trails(left, left_width, column, fewer)
        }
        Operator::Lookup(below, _, _) => {
            let below_width = width_without(below, width, 1);
            column < below_width && is_of_nodes_or_trails(below, below_width, column, fewer)
        }
        Operator::Project(below, outputs) => {
            if outputs
                .iter()
                .any(|output| matches!(output, Output::Rels(_)))
            {
                return true;
            }
            match output_column(outputs, column) {
                Some(column) => is_of_nodes_or_trails(below, below.width(), column, fewer),
                None => false,
            }
        }
        Operator::Distinct(below) | Operator::Union(below, _) => {
            is_of_nodes_or_trails(below, width, column, fewer)
        }
        _ => match part.sifted() {
            Some(below) => is_of_nodes_or_trails(below, width, column, fewer),
            None => false,
        },
    }
}

/// The columns of both sides of a join in which there stands what stands in one of its columns.
#[derive(Clone, Copy)]
struct SideColumns {
    is_left: bool,
    left: Option<usize>,
    right: Option<usize>,
}

fn sides_of(width: usize, keys: &[KeyColumns], column: usize) -> SideColumns {
    if column < width {
        SideColumns {
            is_left: true,
            left: Some(column),
            right: key_on_right(keys, column),
        }
    } else {
        SideColumns {
            is_left: false,
            left: key_on_left(keys, column - width),
            right: Some(column - width),
        }
    }
}

/// Whether a condition goes to each of the sides of a join.
#[derive(Clone, Copy)]
struct Sides {
    left: bool,
    right: bool,
}

/// To which sides of a join a condition on these columns goes, if it can.
fn sides_for(inputs: &Inputs<'_>, columns: &[usize]) -> Sides
    requires { AreWellFormed inputs.now }
{
    let both = Sides {
        left: true,
        right: true,
    };
    let [column] = columns else {
        return both;
    };
    let sides = sides_of(inputs.left_width, inputs.keys, *column);
    let (Some(left), Some(right)) = (sides.left, sides.right) else {
        return both;
    };
    let on_right = is_of_nodes_or_trails(inputs.right, inputs.right_width, right, MOST_BELOW);
    let to_left = sides.is_left && !on_right
        || is_of_nodes_or_trails(inputs.left, inputs.left_width, left, MOST_BELOW);
    Sides {
        left: to_left,
        right: on_right || !sides.is_left && !to_left,
    }
}

/// The columns of a side in which there stands what stands in columns of a join, where it goes to that side.
fn columns_on(
    alloc: Global,
    side: &Source<'_>,
    goes: bool,
    columns: &[usize],
) -> Result<Option<Vec<usize>>, Fault>
    requires { sources.IsWellFormed side.now }
    ensures { IfOk result (λ made. IfSome made (λ others. pushed.AreMoved (sources.stands side.now) columns.now others.items)) }
{
    if goes {
        columns_in(alloc, side, columns)
    } else {
        Ok(None)
    }
}

fn both_ways(columns: Vec<usize>, on_left: Option<Vec<usize>>, on_right: Option<Vec<usize>>) -> Way
    ensures { result ≡ spec.both_ways columns on_left on_right }
{
    match (on_left, on_right) {
        (Some(lefts), Some(rights)) => Way::Both(lefts, rights),
        (Some(lefts), None) => Way::First(lefts),
        (None, Some(rights)) => Way::Second(rights),
        (None, None) => Way::Here(columns),
    }
}

/// Where a condition on columns of a join goes on. Fails only when out of memory.
pub(crate) fn way_from_join(
    alloc: Global,
    inputs: &Inputs<'_>,
    columns: Vec<usize>,
) -> Result<Way, Fault>
    requires { AreWellFormed inputs.now }
    ensures { IfOk result (λ way. spec.IsWay way (plan.join (plan_of inputs.now.left.now) (plan_of inputs.now.right.now) inputs.now.keys.now) columns.items) }
{
    let goes = sides_for(inputs, &columns);
    let on_left = columns_on(alloc, &Source::Left(inputs), goes.left, &columns)?;
    let on_right = columns_on(alloc, &Source::Right(inputs), goes.right, &columns)?;
    Ok(both_ways(columns, on_left, on_right))
}
