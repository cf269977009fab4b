//! The first columns of a plan, and columns of it that are named one by one.

ghost use Rattle.std.specs.Prelude.{◌≡◌, ◌≤◌, IfOk, map, slice_get};
ghost use Rattle.std.specs.Option.{option_and_then};
ghost use Rattle.cy_trees.specs.TreeModels.{expression_of};
ghost use Rattle.cy_planner_algebra.specs.Plans.{width};
ghost use Rattle.cy_planner_algebra.specs.PlanModels.{plan_of, output_of};
ghost use Rattle.cy_planner_rows.specs.Columns as shape;
ghost use Rattle.cy_planner_rows.specs.internal.Lookups as spec;

use crate::conditions::column_variable;
use cy_planner_algebra::{Output, Plan};
use cy_trees::Expr;
use cy_values::Fault;
use std::alloc::Global;

/// A column as it is. Fails only when out of memory.
pub fn column_output(alloc: Global, column: usize) -> Result<Output, Fault>
    ensures { IfOk result (λ o. output_of o ≡ shape.column_output column) }
{
    Ok(Output::Cell(column_variable(alloc, column)?))
}

/// The column of an expression that is a column alone.
pub fn variable_column(expression: &Expr) -> Option<usize>
    ensures { result ≡ shape.variable_column (expression_of expression.now) }
{
    match expression {
        Expr::Variable(variable) => variable.column,
        _ => None,
    }
}

/// The column that an output takes over.
pub fn taken_column(output: &Output) -> Option<usize>
    ensures { result ≡ shape.taken_column (output_of output.now) }
{
    match output {
        Output::Cell(expression) => variable_column(expression),
        Output::Rels(_) => None,
    }
}

/// The column that the output at a place takes over.
pub fn output_column(outputs: &[Output], column: usize) -> Option<usize>
    ensures { result ≡ option_and_then shape.taken_column (slice_get (map output_of outputs.now) column) }
{
    match outputs.get(column) {
        Some(output) => taken_column(output),
        None => None,
    }
}

/// What a projection to these columns makes. Fails only when out of memory.
pub fn column_outputs(alloc: Global, columns: &[usize]) -> Result<Vec<Output>, Fault>
    ensures { IfOk result (λ outputs. map output_of outputs.items ≡ map shape.column_output columns.now) }
{
    let mut outputs = Vec::with_capacity(alloc, columns.len())?;
    for column in columns {
        outputs.push(column_output(alloc, *column)?)?;
    }
    Ok(outputs)
}

fn first_columns(alloc: Global, count: usize) -> Result<Vec<Output>, Fault>
    ensures { IfOk result (λ outputs. map output_of outputs.items ≡ spec.first_columns count) }
{
    let mut outputs = Vec::with_capacity(alloc, count)?;
    for column in 0..count {
        outputs.push(column_output(alloc, column)?)?;
    }
    Ok(outputs)
}

/// The rows of a plan, each with its first columns alone. Fails only when out of memory.
pub fn narrowed(alloc: Global, plan: Plan, count: usize) -> Result<Plan, Fault>
    requires { count ≤ width (plan_of plan) }
    ensures { IfOk result (λ p. plan_of p ≡ spec.narrowed count (plan_of plan)) }
{
    if plan.width() == count {
        return Ok(plan);
    }
    let outputs = first_columns(alloc, count)?;
    plan.project(alloc, outputs)
}
