//! Where conditions on columns of an operator go on, by what the operator is: first where each does, and then the operator is taken apart. Each
//! call that can fail fails only when out of memory.

ghost use Rattle.std.specs.Prelude.{◌≡◌, ◌<◌, ℕ, List, [], IfOk, IsTrue, map};
ghost use Rattle.cy_trees.specs.Trees.{Expression};
ghost use Rattle.cy_trees.specs.TreeModels.{expression_of};
ghost use Rattle.cy_planner_algebra.specs.declared.operators.Operator.{size-Operator};
ghost use Rattle.cy_planner_algebra.specs.Plans as plan;
ghost use Rattle.cy_planner_algebra.specs.PlanModels.{output_of, plan_of};
ghost use Rattle.cy_planner_algebra.specs.WellFormed.{IsWellFormed};
ghost use Rattle.cy_planner_pushdown.specs.internal.Splits.{IsSplit, tests_in};
ghost use Rattle.cy_planner_pushdown.specs.internal.Steps as steps;
ghost use Rattle.cy_planner_pushdown.specs.internal.Ways as spec;

use crate::above::{Above, Pair};
use crate::columns::{Source, are_below, columns_in};
use crate::inputs::{Inputs, Measured};
use crate::places::Place;
use crate::sides::{Way, way_from_join};
use crate::splits::Split;
use crate::tests::CellsTest;
use cy_planner_algebra::{Fields, KeyColumns, Operator, Output, Plan};
use cy_planner_rows::width_without;
use cy_values::Fault;
use std::alloc::Global;

/// It goes on where it reads some of the first columns alone.
fn way_among_first(columns: Vec<usize>, width: usize) -> Way
    ensures { spec.IsAmongFirst width columns.items result }
{
    if are_below(&columns, width) {
        Way::First(columns)
    } else {
        Way::Here(columns)
    }
}

/// It goes on where a projection takes the columns over.
fn way_from_project(alloc: Global, outputs: &[Output], columns: Vec<usize>) -> Result<Way, Fault>
    ensures { IfOk result (λ way. (p : plan.Plan) → spec.IsWay way (plan.project p (map output_of outputs.now)) columns.items) }
{
    match columns_in(alloc, &Source::Outputs(outputs), &columns)? {
        Some(others) => Ok(Way::First(others)),
        None => Ok(Way::Here(columns)),
    }
}

/// It goes on in both inputs, in the same columns.
fn way_from_union(alloc: Global, columns: Vec<usize>) -> Result<Way, Fault>
    ensures { IfOk result (λ way. (left right : plan.Plan) → spec.IsWay way (plan.union left right) columns.items) }
{
    let mut others = Vec::with_capacity(alloc, columns.len())?;
    others.extend_from_slice(&columns)?;
    Ok(Way::Both(columns, others))
}

/// Where a condition on these columns goes on from an operator.
pub(crate) fn way_from(
    alloc: Global,
    measured: &Measured<'_>,
    columns: Vec<usize>,
) -> Result<Way, Fault>
    requires { IsWellFormed (plan_of measured.now.part.now) }
    ensures { IfOk result (λ way. spec.IsWay way (plan_of measured.now.part.now) columns.items) }
{
    let Measured {
        part,
        width,
        right_width,
    } = *measured;
    match part {
        Operator::Unit | Operator::Nodes | Operator::Rels(_, _) => Ok(Way::Here(columns)),
        Operator::Join(left, right, keys) => {
            let inputs = Inputs {
                left,
                right,
                keys,
                left_width: width_without(left, width, right_width),
                right_width,
            };
            way_from_join(alloc, &inputs, columns)
        }
        Operator::Outer(left, _, _, _) => {
            Ok(way_among_first(columns, width_without(left, width, right_width)))
        }
        Operator::Lookup(below, _, _) => {
            Ok(way_among_first(columns, width_without(below, width, 1)))
        }
        Operator::Project(_, outputs) => way_from_project(alloc, outputs, columns),
        Operator::Semi(_, _, _, _)
        | Operator::Filter(_, _)
        | Operator::AllDifferent(_, _)
        | Operator::Distinct(_) => Ok(Way::First(columns)),
        Operator::Union(_, _) => way_from_union(alloc, columns),
    }
}

/// Whether all conditions go on in its only input or in the left one, in the same columns.
pub(crate) fn takes_all(part: &Operator) -> bool
    ensures { IsTrue result → spec.TakesAll (plan_of part.now) }
{
    match part {
        Operator::Semi(_, _, _, _)
        | Operator::Filter(_, _)
        | Operator::AllDifferent(_, _)
        | Operator::Distinct(_) => true,
        _ => false,
    }
}

/// An operator without one below it, and the conditions that stay on it.
#[derive(Drop)]
pub(crate) struct Frame {
    pub(crate) above: Above,
    pub(crate) here: Vec<CellsTest>,
}

/// Where conditions go on.
#[derive(Drop)]
pub(crate) enum Step {
    /// They stay on the operator.
    Here(Operator, Vec<CellsTest>),
    /// Some go on in an operator below.
    Below(Frame, Place),
    /// Some stay, and others go on in both operators below.
    Both(Pair, Vec<CellsTest>, Place, Place),
}

/// They go on in the inputs of a join, in the one in which there are some or in both.
fn below_join(
    left: Box<Operator>,
    right: Box<Operator>,
    keys: Vec<KeyColumns>,
    width: usize,
    split: Split,
) -> Step
    requires good { IsWellFormed (plan.join (plan_of left.value) (plan_of right.value) keys.items) }
    requires wide { width ≡ plan.width (plan.join (plan_of left.value) (plan_of right.value) keys.items) }
    ensures is { (tests : List (List ℕ × Expression)) → IsSplit (plan.join (plan_of left.value) (plan_of right.value) keys.items) tests [] (tests_in split) → steps.IsStep (plan.join (plan_of left.value) (plan_of right.value) keys.items) tests result }
    ensures less { (depth : ℕ) → size-Operator left.value < depth → size-Operator right.value < depth → steps.AreBelow depth result }
{
    let Split {
        here,
        first,
        second,
    } = split;
    let right_width = right.width();
    let left_width = width_without(&left, width, right_width);
    if second.is_empty() {
        let right = Plan::from_root(Box::into_inner(right));
        let frame = Frame {
            above: Above::JoinLeft(right, keys),
            here,
        };
        Step::Below(frame, Place::at(left, left_width, first))
    } else if first.is_empty() {
        let left = Plan::from_root(Box::into_inner(left));
        let frame = Frame {
            above: Above::JoinRight(left, keys),
            here,
        };
        Step::Below(frame, Place::at(right, right_width, second))
    } else {
        let left = Place::at(left, left_width, first);
        let right = Place::at(right, right_width, second);
        Step::Both(Pair::Join(keys), here, left, right)
    }
}

/// They go on in an operator whose rows are this wide, below what stands above it. Ends of relationships are looked for there or not.
fn below_alone(
    above: Above,
    below: Box<Operator>,
    width: usize,
    looks_for_ends: bool,
    split: Split,
) -> Step
    requires { width ≡ plan.width (plan_of below.value) }
    ensures is { steps.IsBelow above (plan_of below.value) split result }
    ensures less { (depth : ℕ) → size-Operator below.value < depth → steps.AreBelow depth result }
{
    let frame = Frame {
        above,
        here: split.here,
    };
    let below = Place {
        part: Box::into_inner(below),
        width,
        tests: split.first,
        looks_for_ends,
    };
    Step::Below(frame, below)
}

/// They go on in both inputs of a union.
fn below_union(left: Box<Operator>, right: Box<Operator>, width: usize, split: Split) -> Step
    requires good { IsWellFormed (plan.union (plan_of left.value) (plan_of right.value)) }
    requires wide { width ≡ plan.width (plan.union (plan_of left.value) (plan_of right.value)) }
    ensures is { (tests : List (List ℕ × Expression)) → IsSplit (plan.union (plan_of left.value) (plan_of right.value)) tests [] (tests_in split) → steps.IsStep (plan.union (plan_of left.value) (plan_of right.value)) tests result }
    ensures less { (depth : ℕ) → size-Operator left.value < depth → size-Operator right.value < depth → steps.AreBelow depth result }
{
    let Split {
        here,
        first,
        second,
    } = split;
    let left = Place::at(left, width, first);
    let right = Place::at(right, width, second);
    Step::Both(Pair::Union, here, left, right)
}

/// The operator is taken apart.
pub(crate) fn opened(part: Operator, width: usize, split: Split) -> Step
    requires good { IsWellFormed (plan_of part) }
    requires wide { width ≡ plan.width (plan_of part) }
    ensures is { (tests : List (List ℕ × Expression)) → IsSplit (plan_of part) tests [] (tests_in split) → steps.IsStep (plan_of part) tests result }
    ensures less { steps.AreBelow (size-Operator part) result }
{
    match part.into_fields() {
        Fields::Unit => Step::Here(Operator::Unit, split.here),
        Fields::Nodes => Step::Here(Operator::Nodes, split.here),
        Fields::Rels(types, orientation) => {
            Step::Here(Operator::Rels(types, orientation), split.here)
        }
        Fields::Join(left, right, keys) => below_join(left, right, keys, width, split),
        Fields::Outer(left, right, keys, predicate) => {
            let width = width_without(&left, width, right.width());
            let right = Plan::from_root(Box::into_inner(right));
            below_alone(
                Above::Outer(right, keys, predicate),
                left,
                width,
                true,
                split,
            )
        }
        Fields::Semi(left, right, keys, keeping) => {
            let right = Plan::from_root(Box::into_inner(right));
            below_alone(Above::Semi(right, keys, keeping), left, width, false, split)
        }
        Fields::Lookup(below, at, attribute) => {
            let width = width_without(&below, width, 1);
            below_alone(Above::Lookup(at, attribute), below, width, false, split)
        }
        Fields::Filter(below, condition) => {
            below_alone(Above::Filter(condition), below, width, false, split)
        }
        Fields::AllDifferent(below, others) => {
            below_alone(Above::AllDifferent(others), below, width, false, split)
        }
        Fields::Project(below, outputs) => {
            let width = below.width();
            below_alone(Above::Project(outputs), below, width, false, split)
        }
        Fields::Distinct(below) => below_alone(Above::Distinct, below, width, true, split),
        Fields::Union(left, right) => below_union(left, right, width, split),
    }
}
