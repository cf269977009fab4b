//! Projections that take over columns, and projections of them.

ghost use Rattle.std.specs.Prelude.{◌≡◌, IfOk, IfSome, map};
ghost use Rattle.cy_planner_algebra.specs.PlanModels.{output_of};
ghost use Rattle.cy_planner_rows.specs.Columns.{taken_column};
ghost use Rattle.cy_planner_rows.specs.Renumbered.{new_column};
ghost use Rattle.cy_planner_rewriting.specs.internal.Columns as spec;

use cy_planner_algebra::Output;
use cy_planner_rows::{renumber, taken_column};
use cy_values::Fault;
use std::alloc::Global;

fn is_column(column: usize, output: &Output) -> bool
    ensures { result ≡ spec.is_column column (taken_column (output_of output.now)) }
{
    match taken_column(output) {
        Some(other) => column == other,
        None => false,
    }
}

/// Whether a projection takes over the first columns in their order, and makes no other one.
pub(crate) fn are_first_columns(outputs: &[Output]) -> bool
    ensures { result ≡ spec.are_columns_from 0 (map output_of outputs.now) }
{
    for (column, output) in outputs.iter().enumerate() {
        if !is_column(column, output) {
            return false;
        }
    }
    true
}

/// The columns that a projection takes over, if it makes no other one. Fails only when out of memory.
pub(crate) fn columns_of(alloc: Global, outputs: &[Output]) -> Result<Option<Vec<usize>>, Fault>
    ensures { IfOk result (λ made. IfSome made (λ columns. spec.AreColumns (map output_of outputs.now) columns.items)) }
{
    let mut columns = Vec::with_capacity(alloc, outputs.len())?;
    for output in outputs {
        match taken_column(output) {
            Some(column) => columns.push(column)?,
            None => return Ok(None),
        }
    }
    Ok(Some(columns))
}

/// The column that stands for another one; itself where there is none.
fn column_for(columns: &[usize], column: usize) -> usize
    ensures { result ≡ new_column columns.now column }
{
    match columns.get(column) {
        Some(other) => *other,
        None => column,
    }
}

/// Columns of a row that is made of taken columns, as columns of the rows that these are taken from. Fails only when out of memory.
pub(crate) fn renumber_members(
    alloc: Global,
    members: &[usize],
    columns: &[usize],
) -> Result<Vec<usize>, Fault>
    ensures { IfOk result (λ made. made.items ≡ map (new_column columns.now) members.now) }
{
    let mut made = Vec::with_capacity(alloc, members.len())?;
    for member in members {
        made.push(column_for(columns, *member))?;
    }
    Ok(made)
}

/// An output over taken columns, over the rows that these are columns of.
fn renumber_output(alloc: Global, output: &Output, columns: &[usize]) -> Result<Output, Fault>
    ensures { IfOk result (λ o. output_of o ≡ spec.renumbered_output columns.now (output_of output.now)) }
{
    match output {
        Output::Cell(expression) => Ok(Output::Cell(renumber(alloc, expression, columns)?)),
        Output::Rels(members) => Ok(Output::Rels(renumber_members(alloc, members, columns)?)),
    }
}

/// Outputs over taken columns, over the rows that these are columns of. Fails only when out of memory.
pub(crate) fn renumber_outputs(
    alloc: Global,
    outputs: &[Output],
    columns: &[usize],
) -> Result<Vec<Output>, Fault>
    ensures { IfOk result (λ made. map output_of made.items ≡ map (spec.renumbered_output columns.now) (map output_of outputs.now)) }
{
    let mut made = Vec::with_capacity(alloc, outputs.len())?;
    for output in outputs {
        made.push(renumber_output(alloc, output, columns)?)?;
    }
    Ok(made)
}

/// One projection in place of two, if the inner one takes over columns alone.
fn renumbered(
    alloc: Global,
    outer: &[Output],
    inner: &[Output],
) -> Result<Option<Vec<Output>>, Fault>
    ensures { IfOk result (λ made. IfSome made (λ outputs. spec.IsRenumbered (map output_of outer.now) (map output_of inner.now) (map output_of outputs.items))) }
{
    match columns_of(alloc, inner)? {
        Some(columns) => Ok(Some(renumber_outputs(alloc, outer, columns.as_slice())?)),
        None => Ok(None),
    }
}

fn copy_output(alloc: Global, output: &Output) -> Result<Output, Fault>
    ensures { IfOk result (λ o. output_of o ≡ output_of output.now) }
{
    match output {
        Output::Cell(expression) => Ok(Output::Cell(expression.copy(alloc)?)),
        Output::Rels(columns) => {
            let mut others = Vec::with_capacity(alloc, columns.len())?;
            others.extend_from_slice(columns)?;
            Ok(Output::Rels(others))
        }
    }
}

/// What a projection makes in some columns.
fn picked(
    alloc: Global,
    outputs: &[Output],
    columns: &[usize],
) -> Result<Option<Vec<Output>>, Fault>
    ensures { IfOk result (λ made. IfSome made (λ others. spec.ArePicked (map output_of outputs.now) columns.now (map output_of others.items))) }
{
    let mut made = Vec::with_capacity(alloc, columns.len())?;
    for column in columns {
        match outputs.get(*column) {
            Some(output) => made.push(copy_output(alloc, output)?)?,
            None => return Ok(None),
        }
    }
    Ok(Some(made))
}

/// One projection in place of two, if the outer one takes over columns alone, and no more than the inner one makes.
fn taken(alloc: Global, outer: &[Output], inner: &[Output]) -> Result<Option<Vec<Output>>, Fault>
    ensures { IfOk result (λ made. IfSome made (λ outputs. spec.IsTaken (map output_of outer.now) (map output_of inner.now) (map output_of outputs.items))) }
{
    if outer.len() > inner.len() {
        return Ok(None);
    }
    match columns_of(alloc, outer)? {
        Some(columns) => picked(alloc, inner, columns.as_slice()),
        None => Ok(None),
    }
}

/// One projection in place of two, if one of them takes over columns alone. Fails only when out of memory.
pub(crate) fn merged(
    alloc: Global,
    outer: &[Output],
    inner: &[Output],
) -> Result<Option<Vec<Output>>, Fault>
    ensures { IfOk result (λ made. IfSome made (λ outputs. spec.IsMerged (map output_of outer.now) (map output_of inner.now) (map output_of outputs.items))) }
{
    match renumbered(alloc, outer, inner)? {
        Some(outputs) => Ok(Some(outputs)),
        None => taken(alloc, outer, inner),
    }
}
