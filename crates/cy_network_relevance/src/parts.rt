//! What becomes of the rows of a plan's operators where one entity has another value.

ghost use Rattle.std.specs.Prelude.{◌≡◌, Some, map, true};
ghost use Rattle.cy_trees.specs.TreeModels.{expression_of};
ghost use Rattle.cy_planner_algebra.specs.declared.operators.Attribute.TheVariants.{Labels};
ghost use Rattle.cy_planner_algebra.specs.declared.operators.Orientation.{Orientation};
ghost use Rattle.cy_planner_algebra.specs.Plans as plan;
ghost use Rattle.cy_planner_algebra.specs.PlanModels.{output_of, plan_of};
ghost use Rattle.cy_network_sources.specs.Scans as scans;
ghost use Rattle.cy_network_relevance.specs.internal.Kept.{IsAbsent, IsUnchanged, KeepsRows};

use crate::columns::column_alone;
use crate::entities::{
    Entity, has_same, keeps_node, keeps_rel, lacks_label, makes_no_node, makes_no_rel,
};
use crate::reads::{is_labels, reads_the_same};
use cy_network_sources::label_in;
use cy_planner_algebra::{Below, Operator, Output};
use cy_trees::Expr;
use cy_values::Text;

/// Whether the rows of an operator, and of the operators below it that a scan doesn't take together, are the same before and after, as far as
/// they come from the entity. Where it says no, they may be so too. Of one that is there before and after it is asked first whether what they
/// read of it is the same, which takes less.
pub(crate) fn is_unchanged(part: &Operator, entity: &Entity<'_>) -> bool
    ensures { result ≡ true → IsUnchanged entity.now (plan_of part.now) }
{
    reads_the_same(part, entity) || is_kept(part, entity, false)
}

// Whether the rows are the same, by what the operators make of the entity. Whether the scan below makes nothing of it is asked at the uppermost of the look-ups that
// stand over one another, and not once more at those below it: so each operator is gone through twice at most.
fn is_kept(part: &Operator, entity: &Entity<'_>, asked: bool) -> bool
    ensures { result ≡ true → IsUnchanged entity.now (plan_of part.now) }
{
    let mut part = part;
    let mut asked = asked;
    loop {
        match part {
            Operator::Nodes => return keeps_node(*entity),
            Operator::Rels(types, _) => return makes_the_same(types, entity),
            Operator::Lookup(below, column, attribute) => {
                if *column == 0 && !asked && makes_nothing(below, entity) {
                    return true;
                }
                if !has_same(*entity, attribute) {
                    return false;
                }
                asked = asked || *column == 0;
                part = below;
            }
            Operator::Filter(below, test) => {
                if is_left_out(below, test, *entity) {
                    return true;
                }
                part = below;
            }
            Operator::Project(below, outputs) => {
                asked = asked && keeps_first(outputs);
                part = below;
            }
            _ => {
                asked = false;
                match part.below() {
                    Below::None => return true,
                    Below::One(below) => part = below,
                    Below::Two(left, right) => {
                        if !is_kept(right, entity, false) {
                            return false;
                        }
                        part = left;
                    }
                }
            }
        }
    }
}

// Whether an entity makes the same relationships of some types before and after.
fn makes_the_same(types: &[Text], entity: &Entity<'_>) -> bool
    ensures { result ≡ true → (orientation : Orientation) → KeepsRows entity.now (plan.rels types.now orientation) }
{
    keeps_rel(*entity) || makes_no_rel(*entity, types)
}

// Whether an operator is a scan that names its entities in the first column, and makes no row of this one, neither before nor after.
fn makes_nothing(part: &Operator, entity: &Entity<'_>) -> bool
    ensures { result ≡ true → IsAbsent entity.now (plan_of part.now) }
{
    let mut part = part;
    loop {
        match part {
            Operator::Nodes => return makes_no_node(*entity),
            Operator::Rels(types, _) => return makes_no_rel(*entity, types),
            Operator::Lookup(below, column, _) => {
                if *column > 0 {
                    return false;
                }
                part = below;
            }
            Operator::Filter(below, test) => {
                if is_left_out(below, test, *entity) {
                    return true;
                }
                part = below;
            }
            Operator::Project(below, outputs) => {
                if !keeps_first(outputs) {
                    return false;
                }
                part = below;
            }
            _ => return false,
        }
    }
}

// Whether the first column that a projection makes is the first one below it.
fn keeps_first(outputs: &[Output]) -> bool
    ensures { result ≡ true → scans.kept_at 0 (map output_of outputs.now) ≡ Some 0 }
{
    match outputs.first() {
        Some(output) => is_first(output),
        None => false,
    }
}

// Whether a column that a projection makes is the first one below it.
fn is_first(output: &Output) -> bool
    ensures { result ≡ true → scans.is_column 0 (output_of output.now) ≡ true }
{
    match column_alone(output) {
        Some(column) => column == 0,
        None => false,
    }
}

// Whether a filter over an operator tests all nodes for a label that the entity lacks.
fn is_left_out(below: &Operator, test: &Expr, entity: Entity<'_>) -> bool
    ensures unchanged { result ≡ true → IsUnchanged entity.entry (plan.filter (plan_of below.now) (expression_of test.now)) }
    ensures absent { result ≡ true → IsAbsent entity.entry (plan.filter (plan_of below.now) (expression_of test.now)) }
{
    match label_in(test) {
        Some(label) => looks_labels_up(below) && lacks_label(entity, label),
        None => false,
    }
}

// Whether an operator looks up the labels of all nodes.
fn looks_labels_up(part: &Operator) -> bool
    ensures { result ≡ true → plan_of part.now ≡ plan.lookup plan.nodes 0 Labels }
{
    match part {
        Operator::Lookup(below, column, attribute) => {
            *column == 0 && is_labels(attribute) && is_nodes(below)
        }
        _ => false,
    }
}

// Whether an operator gives the nodes.
fn is_nodes(part: &Operator) -> bool
    ensures { result ≡ true → plan_of part.now ≡ plan.nodes }
{
    matches!(part, Operator::Nodes)
}
