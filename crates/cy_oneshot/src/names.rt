//! The names of columns.

ghost use Rattle.std.specs.Prelude.{◌≡◌, IfOk, OnOk, map};
ghost use Rattle.cy_trees.specs.TreeModels.{item_of, path_of, step_of};
ghost use Rattle.cy_oneshot_patterns.specs.Places.{places};
ghost use Rattle.cy_oneshot_meaning.specs.Queries.{with_new_names};
ghost use Rattle.cy_oneshot.specs.internal.Names.{with_name, with_steps_names};

use cy_trees::{Item, Path, Step, Variable};
use cy_values::{Duplicate, Fault, Text};
use std::alloc::Global;

/// The columns of the items of WITH or RETURN. Fails only when out of memory.
pub(crate) fn names_of(alloc: Global, items: &[Item]) -> Result<Vec<Text>, Fault>
    ensures { IfOk result (λ names. names.items ≡ map (λ i. i.column) (map item_of items.now)) }
{
    let mut names = Vec::with_capacity(alloc, items.len())?;
    for item in items {
        names.push(item.column.copy(alloc)?)?;
    }
    Ok(names)
}

/// Adds the names of a pattern's new variables to those of the columns, in the order of the text. Fails only when out of memory; some of the
/// names may then have been added, and the columns are to be dropped.
pub fn add_names(alloc: Global, columns: &mut Vec<Text>, paths: &[Path]) -> Result<(), Fault>
    ensures { OnOk result (columns.new.items ≡ with_new_names columns.old.items (places (map path_of paths.now))) }
{
    for path in paths {
        add_name(alloc, columns, &path.start.variable)?;
        add_steps(alloc, columns, &path.steps)?;
    }
    Ok(())
}

// Adds the names of the new variables of steps.
fn add_steps(alloc: Global, columns: &mut Vec<Text>, steps: &[Step]) -> Result<(), Fault>
    ensures { OnOk result (columns.new.items ≡ with_steps_names columns.old.items (map step_of steps.now)) }
{
    for step in steps {
        add_name(alloc, columns, &step.relationship.variable)?;
        add_name(alloc, columns, &step.node.variable)?;
    }
    Ok(())
}

// Adds the name of a variable whose column is the next one.
fn add_name(
    alloc: Global,
    columns: &mut Vec<Text>,
    variable: &Option<Variable>,
) -> Result<(), Fault>
    ensures { OnOk result (columns.new.items ≡ with_name columns.old.items variable.now) }
{
    if let Some(variable) = variable {
        if variable.column == Some(columns.len()) {
            columns.push(variable.name.copy(alloc)?)?;
        }
    }
    Ok(())
}
