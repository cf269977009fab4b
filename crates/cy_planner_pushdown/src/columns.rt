//! What stands in the columns of a plan, and in which columns of the operators below there stands the same.

ghost use Rattle.std.specs.Prelude.{◌≡◌, IfOk, IfSome, Some, map, nat_lt, slice_get};
ghost use Rattle.std.specs.List.{list_all};
ghost use Rattle.cy_trees.specs.TreeModels.{expression_of};
ghost use Rattle.cy_planner_algebra.specs.Plans as plan;
ghost use Rattle.cy_planner_algebra.specs.PlanModels.{output_of, plan_of};
ghost use Rattle.cy_planner_algebra.specs.WellFormed.{IsWellFormed};
ghost use Rattle.cy_planner_pushdown.specs.internal.Inputs.{AreWellFormed};
ghost use Rattle.cy_planner_pushdown.specs.internal.Pushed as spec;
ghost use Rattle.cy_planner_pushdown.specs.internal.Sources as sources;

use crate::inputs::Inputs;
use cy_planner_algebra::{Operator, Output};
use cy_planner_rows::{output_column, width_without};
use cy_scope_kinds::Kind;
use cy_trees::Expr;
use cy_values::Fault;
use std::alloc::Global;

fn kind_computed(expression: &Expr) -> Option<Kind>
    ensures { result ≡ spec.kind_computed (expression_of expression.now) }
{
    match expression {
        Expr::Variable(_) => None,
        _ => Some(Kind::Value),
    }
}

fn made(output: &Output) -> Option<Kind>
    ensures { result ≡ spec.kind_made (Some (output_of output.now)) }
{
    match output {
        Output::Cell(expression) => kind_computed(expression),
        Output::Rels(_) => Some(Kind::Relationships),
    }
}

/// The kind of what a projection makes in a column.
fn kind_made(outputs: &[Output], column: usize) -> Option<Kind>
    ensures { result ≡ spec.kind_made (slice_get (map output_of outputs.now) column) }
{
    match outputs.get(column) {
        Some(output) => made(output),
        None => None,
    }
}

fn common_kind(left: Option<Kind>, right: Option<Kind>) -> Option<Kind>
    ensures { result ≡ spec.common_kind left right }
{
    match (left, right) {
        (Some(Kind::Node), Some(Kind::Node)) => Some(Kind::Node),
        (Some(Kind::Relationship), Some(Kind::Relationship)) => Some(Kind::Relationship),
        _ => None,
    }
}

#[tactic(auto, using(crate::proofs::ColumnKinds::rest_of_nodes))]
fn kind_of_nodes(column: usize) -> Option<Kind>
    ensures { result ≡ spec.kind_of_nodes column }
{
    match column {
        0 => Some(Kind::Node),
        _ => None,
    }
}

#[tactic(auto, using(crate::proofs::ColumnKinds::rest_of_rels))]
pub(crate) fn kind_of_rels(column: usize) -> Option<Kind>
    ensures { result ≡ spec.kind_of_rels column }
{
    match column {
        0 => Some(Kind::Relationship),
        1 | 2 => Some(Kind::Node),
        3 => Some(Kind::Value),
        _ => None,
    }
}

/// The kind of what stands in a column, as far as the plan's operators show it. The rows are this wide. A column of one input is followed in a
/// loop, so that unions alone are levels.
pub(crate) fn kind_at(part: &Operator, width: usize, column: usize) -> Option<Kind>
    requires good { IsWellFormed (plan_of part.now) }
    requires wide { width ≡ plan.width (plan_of part.now) }
    ensures { result ≡ spec.kind_at (plan_of part.now) column }
{
    let mut part = part;
    let mut width = width;
    let mut column = column;
    loop {
        match part {
            Operator::Nodes => return kind_of_nodes(column),
            Operator::Rels(_, _) => return kind_of_rels(column),
            Operator::Join(left, right, _) | Operator::Outer(left, right, _, _) => {
                let right_width = right.width();
                let left_width = width_without(left, width, right_width);
                if column < left_width {
                    part = left;
                    width = left_width;
                } else {
                    part = right;
                    width = right_width;
                    column -= left_width;
                }
            }
            Operator::Lookup(below, _, _) => {
                let below_width = width_without(below, width, 1);
                if column == below_width {
                    return Some(Kind::Value);
                }
                if column > below_width {
                    return None;
                }
                part = below;
                width = below_width;
            }
            Operator::Distinct(below) => part = below,
            Operator::Project(below, outputs) => match output_column(outputs, column) {
                Some(other) => {
                    part = below;
                    width = below.width();
                    column = other;
                }
                None => return kind_made(outputs, column),
            },
            Operator::Union(left, right) => return common_kind(
                kind_at(left, width, column),
                kind_at(right, width, column),
            ),
            _ => match part.sifted() {
                Some(below) => part = below,
                None => return None,
            },
        }
    }
}

/// Whether the columns are among the first ones.
pub(crate) fn are_below(columns: &[usize], width: usize) -> bool
    ensures { result ≡ list_all (λ c. nat_lt c width) columns.now }
{
    columns.iter().all(|column| *column < width)
}

/// The column of the left input that has the same key as one of the right input, if it shows the same kind.
fn left_key(inputs: &Inputs<'_>, column: usize) -> Option<usize>
    requires { AreWellFormed inputs.now }
    ensures { IfSome result (λ other. spec.IsLeftKey (plan_of inputs.now.left.now) inputs.now.keys.now column (spec.kind_at (plan_of inputs.now.right.now) column) other) }
{
    let kind = kind_at(inputs.right, inputs.right_width, column);
    for key in inputs.keys {
        if key.right == column
            && common_kind(kind_at(inputs.left, inputs.left_width, key.left), kind).is_some()
        {
            return Some(key.left);
        }
    }
    None
}

/// The column of the right input that has the same key as one of the left input, if it shows the same kind.
fn right_key(inputs: &Inputs<'_>, column: usize) -> Option<usize>
    requires { AreWellFormed inputs.now }
    ensures { IfSome result (λ other. spec.IsRightKey (plan_of inputs.now.right.now) inputs.now.keys.now column (spec.kind_at (plan_of inputs.now.left.now) column) other) }
{
    for key in inputs.keys {
        if key.left == column {
            let kind = kind_at(inputs.left, inputs.left_width, column);
            if common_kind(kind_at(inputs.right, inputs.right_width, key.right), kind).is_some() {
                return Some(key.right);
            }
        }
    }
    None
}

/// The column of the left input in which there stands what stands in a column of a join.
fn column_on_left(inputs: &Inputs<'_>, column: usize) -> Option<usize>
    requires { AreWellFormed inputs.now }
    ensures { IfSome result (λ other. spec.IsOnLeft (plan_of inputs.now.left.now) (plan_of inputs.now.right.now) inputs.now.keys.now column other) }
{
    if column < inputs.left_width {
        Some(column)
    } else {
        left_key(inputs, column - inputs.left_width)
    }
}

/// The column of the right input in which there stands what stands in a column of a join.
fn column_on_right(inputs: &Inputs<'_>, column: usize) -> Option<usize>
    requires { AreWellFormed inputs.now }
    ensures { IfSome result (λ other. spec.IsOnRight (plan_of inputs.now.left.now) (plan_of inputs.now.right.now) inputs.now.keys.now column other) }
{
    if column < inputs.left_width {
        right_key(inputs, column)
    } else {
        Some(column - inputs.left_width)
    }
}

/// Where the columns of an operator are looked for.
#[derive(Clone, Copy)]
pub(crate) enum Source<'a> {
    /// The left input of a join.
    Left(&'a Inputs<'a>),
    /// The right input of a join.
    Right(&'a Inputs<'a>),
    /// What stands below a projection.
    Outputs(&'a [Output]),
}

/// The column of a source in which there stands what stands in a column of the operator.
fn column_in(source: &Source<'_>, column: usize) -> Option<usize>
    requires { sources.IsWellFormed source.now }
    ensures { IfSome result (sources.stands source.now column) }
{
    match source {
        Source::Left(inputs) => column_on_left(inputs, column),
        Source::Right(inputs) => column_on_right(inputs, column),
        Source::Outputs(outputs) => output_column(outputs, column),
    }
}

/// The columns of a source in which there stands what stands in columns of the operator, if there are such ones, and each once. Fails only when
/// out of memory.
pub(crate) fn columns_in(
    alloc: Global,
    source: &Source<'_>,
    columns: &[usize],
) -> Result<Option<Vec<usize>>, Fault>
    requires { sources.IsWellFormed source.now }
    ensures { IfOk result (λ made. IfSome made (λ others. spec.AreMoved (sources.stands source.now) columns.now others.items)) }
{
    let mut found = Vec::new(alloc);
    for column in columns {
        let Some(other) = column_in(source, *column) else {
            return Ok(None);
        };
        if found.contains(&other) {
            return Ok(None);
        }
        found.push(other)?;
    }
    Ok(Some(found))
}
