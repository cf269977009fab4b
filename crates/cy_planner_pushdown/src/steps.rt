//! Where conditions go on from an operator, all of them at once. Each call fails only when out of memory.

ghost use Rattle.std.specs.Prelude.{◌≡◌, ℕ, ◌++◌, List, [], ◌∷◌, IfOk, OnOk};
ghost use Rattle.cy_trees.specs.Trees.{Expression};
ghost use Rattle.cy_planner_algebra.specs.declared.operators.Operator.{size-Operator};
ghost use Rattle.cy_planner_algebra.specs.Plans as plan;
ghost use Rattle.cy_planner_algebra.specs.PlanModels.{plan_of};
ghost use Rattle.cy_planner_algebra.specs.WellFormed.{IsWellFormed};
ghost use Rattle.cy_planner_pushdown.specs.internal.Splits as splits;
ghost use Rattle.cy_planner_pushdown.specs.internal.Steps as spec;
ghost use Rattle.cy_planner_pushdown.specs.internal.Tests.{CanAllBePushed, test_of, tests_of};

use crate::ends::asked_end;
use crate::inputs::Measured;
use crate::places::Place;
use crate::sides::Way;
use crate::splits::Split;
use crate::tests::CellsTest;
use crate::ways::{Step, opened, takes_all, way_from};
use cy_planner_algebra::Operator;
use cy_values::Fault;
use std::alloc::Global;

/// Adds a condition by its way. What it asks of the node at an end of relationships is asked where these are as few as they can be.
fn add_test(
    alloc: Global,
    split: &mut Split,
    measured: &Measured<'_>,
    looks_for_ends: bool,
    test: CellsTest,
) -> Result<(), Fault>
    requires { IsWellFormed (plan_of measured.now.part.now) }
    ensures { OnOk result ((all rest : List (List ℕ × Expression)) → splits.IsSplit (plan_of measured.now.part.now) all (rest ++ test_of test ∷ []) (splits.tests_in split.old) → splits.IsSplit (plan_of measured.now.part.now) all rest (splits.tests_in split.new)) }
{
    let is_asked = looks_for_ends && asked_end(measured.part, &test).is_some();
    let CellsTest {
        columns,
        test,
        asks,
    } = test;
    let way = if is_asked {
        Way::Here(columns)
    } else {
        way_from(alloc, measured, columns)?
    };
    split.add(alloc, way, test, asks)
}

/// Conditions on columns of an operator whose rows are this wide, each by its way.
fn split_tests(
    alloc: Global,
    part: &Operator,
    width: usize,
    looks_for_ends: bool,
    tests: Vec<CellsTest>,
) -> Result<Split, Fault>
    requires good { IsWellFormed (plan_of part.now) }
    requires wide { width ≡ plan.width (plan_of part.now) }
    requires can { CanAllBePushed (plan_of part.now) (tests_of tests.items) }
    ensures { IfOk result (λ split. splits.IsSplit (plan_of part.now) (tests_of tests.items) [] (splits.tests_in split)) }
{
    if !looks_for_ends && takes_all(part) {
        return Ok(Split::of_first(alloc, tests));
    }
    let measured = Measured::new(part, width);
    let mut split = Split::new(alloc);
    let mut rest = tests;
    rest.reverse();
    while let Some(test) = rest.pop() {
        add_test(alloc, &mut split, &measured, looks_for_ends, test)?;
    }
    Ok(split)
}

/// Where conditions go on from an operator, which is taken apart only where some do.
pub(crate) fn step_from(alloc: Global, place: Place) -> Result<Step, Fault>
    requires good { IsWellFormed (plan_of place.part) }
    requires can { CanAllBePushed (plan_of place.part) (tests_of place.tests.items) }
    ensures is { IfOk result (λ step. spec.IsStep (plan_of place.part) (tests_of place.tests.items) step) }
    ensures less { IfOk result (λ step. spec.AreBelow (size-Operator place.part) step) }
{
    let Place {
        part,
        width,
        tests,
        looks_for_ends,
    } = place;
    let split = split_tests(alloc, &part, width, looks_for_ends, tests)?;
    if split.first.is_empty() && split.second.is_empty() {
        return Ok(Step::Here(part, split.here));
    }
    Ok(opened(part, width, split))
}
