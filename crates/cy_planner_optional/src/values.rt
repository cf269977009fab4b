//! The values of a row that property maps ask for, in columns after it.

ghost use Rattle.std.specs.Prelude.{◌≡◌, ◌+◌, ◌++◌, ◌≤◌, [], IfOk, OnOk, filter, flat_map, length, map, not};
ghost use Rattle.std.specs.List.{range_with_len};
ghost use Rattle.cy_trees.specs.TreeModels.{entry_of, expression_of};
ghost use Rattle.cy_oneshot_patterns.specs.internal.Patterns.{place_of};
ghost use Rattle.cy_planner_algebra.specs.Plans.{computed};
ghost use Rattle.cy_planner_algebra.specs.PlanModels.{output_of, plan_of};
ghost use Rattle.cy_planner_algebra.specs.WellFormed.{greatest_width};
ghost use Rattle.cy_planner_rows.specs.internal.Lowered.{lowered};
ghost use Rattle.cy_planner_rows.specs.Places.{place};
ghost use Rattle.cy_planner_rows.specs.Columns.{column_output};
ghost use Rattle.cy_planner_rows.specs.Rows.{AreReadOver};
ghost use Rattle.cy_planner_rows.specs.internal.Asked.{asked, with_asked};
ghost use Rattle.cy_planner_tables.specs.OwnPatterns.{is_literal_entry};
ghost use Rattle.cy_planner_optional.specs.Columns.{IsExtended, reading_entries, values_of};

use cy_oneshot_patterns::Place;
use cy_planner_algebra::{Output, Plan};
use cy_planner_rows::{WantedList, add_asked, check_room, column_output, lower, with_lookups};
use cy_scope_kinds::is_literal;
use cy_trees::{Expr, MapEntry};
use cy_values::Fault;
use std::alloc::Global;

/// Adds the values of entries that are no literals.
fn add_values<'a>(values: &mut Vec<&'a Expr>, entries: &'a [MapEntry]) -> Result<(), Fault>
    ensures { OnOk result (map (λ e. expression_of e.now) values.new.items ≡ map (λ e. expression_of e.now) values.old.items ++ values_of (filter (λ e. not (is_literal_entry e)) (map entry_of entries.entry.now))) }
{
    for entry in entries {
        if !is_literal(&entry.value) {
            values.push(&entry.value)?;
        }
    }
    Ok(())
}

/// The values that the maps of places ask for and that are no literals. Fails only when out of memory.
pub fn open_values<'a>(alloc: Global, places: &[Place<'a>]) -> Result<Vec<&'a Expr>, Fault>
    ensures { IfOk result (λ values. map (λ e. expression_of e.now) values.items ≡ values_of (reading_entries (map place_of places.now))) }
{
    let mut values = Vec::new(alloc);
    for place in places {
        add_values(&mut values, place.entries())?;
    }
    Ok(values)
}

/// What several expressions ask.
fn wanted_by(alloc: Global, expressions: &[&Expr]) -> Result<WantedList, Fault>
    ensures { IfOk result (λ wanted. wanted ≡ with_asked [] (flat_map asked (map (λ e. expression_of e.now) expressions.now))) }
{
    let mut wanted = WantedList::new(alloc);
    for expression in expressions {
        add_asked(alloc, &mut wanted, expression)?;
    }
    Ok(wanted)
}

/// Adds what several expressions give, over columns alone.
fn add_outputs(
    alloc: Global,
    outputs: &mut Vec<Output>,
    first: usize,
    wanted: &WantedList,
    expressions: &[&Expr],
) -> Result<(), Fault>
    requires { first + length wanted.now ≤ greatest_width }
    ensures { OnOk result (map output_of outputs.new.items ≡ map output_of outputs.old.items ++ map (λ e. computed (lowered (place first wanted.now) e)) (map (λ e. expression_of e.now) expressions.now)) }
{
    for expression in expressions {
        outputs.push(Output::Cell(lower(alloc, expression, first, wanted)?))?;
    }
    Ok(())
}

/// The columns of a row as they are.
fn row_outputs(alloc: Global, width: usize) -> Result<Vec<Output>, Fault>
    ensures { IfOk result (λ outputs. map output_of outputs.items ≡ map column_output (range_with_len 0 width)) }
{
    let mut outputs = Vec::with_capacity(alloc, width)?;
    for column in 0..width {
        outputs.push(column_output(alloc, column)?)?;
    }
    Ok(outputs)
}

/// The rows of a plan, each with the values of expressions after it. Fails only when out of memory.
pub fn with_values(alloc: Global, below: Plan, values: &[&Expr]) -> Result<Plan, Fault>
    requires { AreReadOver (plan_of below) (map (λ e. expression_of e.now) values.now) }
    ensures { IfOk result (λ p. IsExtended (plan_of below) (map (λ e. expression_of e.now) values.now) (plan_of p)) }
{
    if values.is_empty() {
        return Ok(below);
    }
    let width = below.width();
    let wanted = wanted_by(alloc, values)?;
    check_room(width, wanted.len())?;
    check_room(width, values.len())?;
    let mut outputs = row_outputs(alloc, width)?;
    add_outputs(alloc, &mut outputs, width, &wanted, values)?;
    let wide = with_lookups(alloc, below, wanted.as_slice())?;
    wide.project(alloc, outputs)
}
