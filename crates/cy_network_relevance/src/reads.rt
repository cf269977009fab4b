//! Whether the operators of a plan read the same of an entity.

ghost use Rattle.std.specs.Prelude.{◌≡◌, IfSome, true};
ghost use Rattle.cy_planner_algebra.specs.declared.operators.Attribute.{Attribute};
ghost use Rattle.cy_planner_algebra.specs.declared.operators.Attribute.TheVariants.{Labels};
ghost use Rattle.cy_planner_algebra.specs.Plans as plan;
ghost use Rattle.cy_planner_algebra.specs.PlanModels.{plan_of};
ghost use Rattle.cy_network_relevance.specs.internal.Kept.{IsUnchanged, KeepsValue};

use crate::entities::{Entity, has_same, keeps_node, keeps_rel};
use cy_planner_algebra::{Attribute, Below, Operator};

/// Whether an entity is there before and after, and what the operators of a plan read of it is the same. Its labels are compared once at most.
pub(crate) fn reads_the_same(part: &Operator, entity: &Entity<'_>) -> bool
    ensures { result ≡ true → IsUnchanged entity.now (plan_of part.now) }
{
    if !is_there_twice(entity) {
        return false;
    }
    match labels_matter(part, entity) {
        Some(true) => has_same(*entity, &Attribute::Labels),
        Some(false) => true,
        None => false,
    }
}

// Whether an entity is there before and after.
fn is_there_twice(entity: &Entity<'_>) -> bool {
    matches!(
        entity,
        Entity::Node(Some(_), Some(_)) | Entity::Rel(Some(_), Some(_))
    )
}

// Where all that the operators of a plan read of an entity is the same but its labels, or they make of it what they made before: whether one of
// them reads its labels. Each operator is gone through once at most.
fn labels_matter(part: &Operator, entity: &Entity<'_>) -> Option<bool>
    ensures { IfSome result (λ matter. (matter ≡ true → KeepsValue entity.now Labels) → IsUnchanged entity.now (plan_of part.now)) }
{
    let mut part = part;
    let mut matter = false;
    loop {
        match part {
            Operator::Nodes => return unless_changed(keeps_node(*entity), matter),
            Operator::Rels(_, _) => return unless_changed(keeps_rel(*entity), matter),
            Operator::Lookup(below, column, attribute) => {
                if is_of_others(below, *column, entity) {
                    return Some(matter);
                }
                if is_labels(attribute) {
                    matter = true;
                } else if !has_same(*entity, attribute) {
                    return None;
                }
                part = below;
            }
            _ => match part.below() {
                Below::None => return Some(matter),
                Below::One(below) => part = below,
                Below::Two(left, right) => {
                    matter = labels_matter(right, entity)? || matter;
                    part = left;
                }
            },
        }
    }
}

// Whether a look-up in this column of an operator is one of all relationships or all nodes, and the entity is none of these.
fn is_of_others(below: &Operator, column: usize, entity: &Entity<'_>) -> bool
    ensures { result ≡ true → (attribute : Attribute) → IsUnchanged entity.now (plan.lookup (plan_of below.now) column attribute) }
{
    if column > 0 {
        return false;
    }
    match entity {
        Entity::Node(_, _) => matches!(below, Operator::Rels(_, _)),
        Entity::Rel(_, _) => matches!(below, Operator::Nodes),
    }
}

// Of a leaf: whether labels matter to the operators above it, where it makes the same of the entity.
fn unless_changed(kept: bool, matter: bool) -> Option<bool>
    ensures { IfSome result (λ found. (kept ≡ true) × (found ≡ matter)) }
{
    if kept { Some(matter) } else { None }
}

/// Whether an attribute is the list of labels.
pub(crate) fn is_labels(attribute: &Attribute) -> bool
    ensures { result ≡ true → attribute.now ≡ Labels }
{
    matches!(attribute, Attribute::Labels)
}
