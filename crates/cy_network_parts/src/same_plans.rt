//! Whether two operators are the same plan.

ghost use Rattle.std.specs.Prelude.{◌≡◌, map};
ghost use Rattle.cy_planner_algebra.specs.PlanModels.{output_of, plan_of};
ghost use Rattle.cy_network_parts.specs.SamePlans as spec;
ghost use Rattle.cy_network_parts.specs.Shared.{columns_at};

use crate::held::Side;
use crate::same_conditions::{same_condition, same_text, same_variable};
use cy_planner_algebra::{Attribute, KeyColumns, Operator, Output};
use cy_trees::Expr;
use cy_values::Text;

/// How many operators deep two plans are compared at most, and how deep the conditions in them. A relationship with what is asked of the nodes at its ends
/// is no deeper, and a long chain of operators needs no deep stack.
const MOST_DEEP: usize = 12;

/// Whether two operators are the same plan: that of relationships and nodes, with look-ups, conditions, projections and joins of them, `MOST_DEEP` operators
/// deep at most.
#[tactic(auto, unfolding(crate::specs::SamePlans::most_deep))]
pub(crate) fn same_plan(part: &Operator, other: &Operator) -> bool
    ensures { result ≡ spec.same_plan spec.most_deep (plan_of part.now) (plan_of other.now) }
{
    same_within(part, other, MOST_DEEP)
}

// The same, this many operators deep at most.
fn same_within(part: &Operator, other: &Operator, deep: usize) -> bool
    ensures { result ≡ spec.same_plan deep (plan_of part.now) (plan_of other.now) }
{
    if deep == 0 {
        return false;
    }
    match (part, other) {
        (Operator::Nodes, Operator::Nodes) => true,
        (Operator::Rels(types, orientation), Operator::Rels(others, wanted)) => {
            same_names(types, others) && *orientation == *wanted
        }
        (Operator::Project(below, outputs), Operator::Project(other, others)) => {
            same_within(below, other, deep - 1) && same_outputs(outputs, others)
        }
        (Operator::Lookup(below, column, attribute), Operator::Lookup(other, place, wanted)) => {
            same_within(below, other, deep - 1)
                && *column == *place
                && same_attribute(attribute, wanted)
        }
        (Operator::Filter(below, test), Operator::Filter(other, wanted)) => {
            same_within(below, other, deep - 1) && same_condition(test, wanted, MOST_DEEP)
        }
        (Operator::Join(left, right, keys), Operator::Join(first, second, others)) => {
            same_within(left, first, deep - 1)
                && same_within(right, second, deep - 1)
                && same_keys(keys, others)
        }
        _ => false,
    }
}

// Whether the types are the same, in their order.
fn same_names(left: &[Text], right: &[Text]) -> bool
    ensures { result ≡ spec.same_names left.now right.now }
{
    let mut others = right.iter();
    for name in left {
        let Some(other) = others.next() else {
            return false;
        };
        if !same_text(name.as_str(), other.as_str()) {
            return false;
        }
    }
    others.next().is_none()
}

// Whether two projections make the same columns.
fn same_outputs(left: &[Output], right: &[Output]) -> bool
    ensures { result ≡ spec.same_outputs (map output_of left.now) (map output_of right.now) }
{
    let mut others = right.iter();
    for output in left {
        let Some(other) = others.next() else {
            return false;
        };
        if !same_output(output, other) {
            return false;
        }
    }
    others.next().is_none()
}

// Whether two projections make the same column, which is one of those below.
fn same_output(output: &Output, other: &Output) -> bool
    ensures { result ≡ spec.same_output (output_of output.now) (output_of other.now) }
{
    match (output, other) {
        (Output::Cell(Expr::Variable(variable)), Output::Cell(Expr::Variable(other))) => {
            same_variable(variable, other)
        }
        _ => false,
    }
}

// Whether two look-ups add the same of an entity.
fn same_attribute(attribute: &Attribute, other: &Attribute) -> bool
    ensures { result ≡ spec.same_attribute attribute.now other.now }
{
    match (attribute, other) {
        (Attribute::Property(key), Attribute::Property(other)) => {
            same_text(key.as_str(), other.as_str())
        }
        (Attribute::RelType, Attribute::RelType) | (Attribute::Labels, Attribute::Labels) => true,
        _ => false,
    }
}

// Whether two joins compare the same columns.
fn same_keys(keys: &[KeyColumns], others: &[KeyColumns]) -> bool
    ensures { result ≡ spec.same_keys keys.now others.now }
{
    let mut rest = others.iter();
    for key in keys {
        let Some(other) = rest.next() else {
            return false;
        };
        if key.left != other.left || key.right != other.right {
            return false;
        }
    }
    rest.next().is_none()
}

/// Whether the columns of two lists of keys at a side are the same, in their order.
pub(crate) fn same_columns(side: Side, keys: &[KeyColumns], others: &[KeyColumns]) -> bool
    ensures { result ≡ spec.same_columns (columns_at side keys.now) (columns_at side others.now) }
{
    let mut rest = others.iter();
    for key in keys {
        let Some(other) = rest.next() else {
            return false;
        };
        if side.column(key) != side.column(other) {
            return false;
        }
    }
    rest.next().is_none()
}
