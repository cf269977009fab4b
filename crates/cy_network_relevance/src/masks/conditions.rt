//! The label that a filter asks of each node.

ghost use Rattle.std.specs.Prelude.{◌≡◌, IfSome, Some, length, map, true};
ghost use Rattle.cy_trees.specs.TreeModels.{expression_of};
ghost use Rattle.cy_planner_algebra.specs.declared.operators.Attribute.TheVariants.{Labels};
ghost use Rattle.cy_planner_algebra.specs.Plans as plan;
ghost use Rattle.cy_planner_algebra.specs.PlanModels.{output_of, plan_of};
ghost use Rattle.cy_network_sources.specs.Scans as scans;
ghost use Rattle.cy_network_relevance.specs.internal.Labelled.{Asks, HasLabels, IsSingle, LacksWithout, NamesNodes};

use cy_network_sources::{kept_at, label_in};
use cy_planner_algebra::{Attribute, Operator, Output};
use cy_trees::{BinaryOperator, Expr};
use cy_values::Text;

/// The label without which no node has a row in a filter over an operator, where it asks for one.
pub(crate) fn label_asked<'p>(below: &Operator, test: &'p Expr) -> Option<&'p Text>
    ensures { IfSome result (λ label. LacksWithout label.now (plan.filter (plan_of below.now) (expression_of test.now))) }
{
    match label_tested(test) {
        Some(label) if has_labels(below) => Some(label),
        _ => None,
    }
}

// A label that a condition asks of the list in the second column. Of conditions that AND joins, those are asked that stand to the right of one, and the first of all.
fn label_tested(test: &Expr) -> Option<&Text>
    ensures { IfSome result (λ label. Asks label.now (expression_of test.now)) }
{
    let mut test = test;
    loop {
        match test {
            Expr::Binary(BinaryOperator::And, left, right) => {
                if let Some(label) = label_in(right) {
                    return Some(label);
                }
                test = left;
            }
            _ => return label_in(test),
        }
    }
}

// Whether the rows of an operator are nodes, each with the list of its labels in the second column.
fn has_labels(part: &Operator) -> bool
    ensures { result ≡ true → HasLabels (plan_of part.now) }
{
    let mut part = part;
    loop {
        match part {
            Operator::Lookup(below, column, attribute) => {
                if *column > 0 {
                    return false;
                }
                if is_labels(attribute) && is_single(below) {
                    return true;
                }
                part = below;
            }
            Operator::Filter(below, _) => part = below,
            _ => return false,
        }
    }
}

// Whether an attribute is the list of labels.
fn is_labels(attribute: &Attribute) -> bool
    ensures { result ≡ true → attribute.now ≡ Labels }
{
    matches!(attribute, Attribute::Labels)
}

// Whether the rows of an operator are nodes, and nothing beside.
fn is_single(part: &Operator) -> bool
    ensures { result ≡ true → IsSingle (plan_of part.now) }
{
    let mut part = part;
    loop {
        match part {
            Operator::Nodes => return true,
            Operator::Filter(below, _) => part = below,
            Operator::Project(below, outputs) => return gives_first(outputs) && names_nodes(below),
            _ => return false,
        }
    }
}

// Whether what a projection makes is the first column alone.
fn gives_first(outputs: &[Output]) -> bool
    ensures one { result ≡ true → length outputs.now ≡ 1 }
    ensures first { result ≡ true → scans.kept_at 0 (map output_of outputs.now) ≡ Some 0 }
{
    outputs.len() == 1 && keeps_first(outputs)
}

/// Whether the first column that a projection makes is the first one below it.
pub(crate) fn keeps_first(outputs: &[Output]) -> bool
    ensures { result ≡ true → scans.kept_at 0 (map output_of outputs.now) ≡ Some 0 }
{
    matches!(kept_at(outputs, 0), Some(0))
}

// Whether an operator is a scan of nodes, and names them in the first column.
fn names_nodes(part: &Operator) -> bool
    ensures { result ≡ true → NamesNodes (plan_of part.now) }
{
    let mut part = part;
    loop {
        match part {
            Operator::Nodes => return true,
            Operator::Lookup(below, column, _) => {
                if *column > 0 {
                    return false;
                }
                part = below;
            }
            Operator::Filter(below, _) => part = below,
            Operator::Project(below, outputs) => {
                if !keeps_first(outputs) {
                    return false;
                }
                part = below;
            }
            _ => return false,
        }
    }
}
