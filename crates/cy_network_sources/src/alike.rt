//! Whether two values of an entity make the same rows in a scan, since nothing differs that the scan reads.

ghost use Rattle.std.specs.Prelude.{◌≡◌, ℕ, List, Some, true, map};
ghost use Rattle.std.specs.Option.{option_copied};
ghost use Rattle.cy_values.specs.declared.rows.Cell.{Cell};
ghost use Rattle.cy_trees.specs.Trees.{Name};
ghost use Rattle.cy_graph.specs.Maps.{value_at};
ghost use Rattle.cy_planner_algebra.specs.PlanModels.{plan_of};
ghost use Rattle.cy_planner_algebra.specs.declared.operators.Orientation.{Orientation};
ghost use Rattle.cy_network_sources.specs.Attributes.{node_attribute, rel_attribute};
ghost use Rattle.cy_network_sources.specs.internal.Through as spec;
ghost use Rattle.cy_network_sources.specs.Ends.{HaveSameEnds};
ghost use Rattle.cy_network_sources.specs.internal.Through.{attribute_in, node_made, rel_made};

use crate::entities::EntityValue;
use cy_graph::{Node, Props, Rel};
use cy_planner_algebra::{Attribute, Operator};
use cy_values::Text;

/// Whether a node that had one value and has another makes the same rows. Where it says no, it may do so too.
pub(crate) fn are_alike_nodes(parts: &[&Operator], old: Option<&Node>, new: Option<&Node>) -> bool
    ensures { result ≡ true → (number : ℕ) → node_made (map (λ part. plan_of part.now) parts.now) number (option_copied old.entry) ≡ node_made (map (λ part. plan_of part.now) parts.now) number (option_copied new.entry) }
{
    match (old, new) {
        (Some(old), Some(new)) => are_alike(parts, EntityValue::Node(old), EntityValue::Node(new)),
        (None, None) => true,
        _ => false,
    }
}

/// Whether a relationship that had one value and has another makes the same rows. Where it says no, it may do so too.
pub(crate) fn are_alike_rels(parts: &[&Operator], old: Option<&Rel>, new: Option<&Rel>) -> bool
    ensures { result ≡ true → (types : List Name) (orientation : Orientation) (number : ℕ)
        → rel_made types orientation (map (λ part. plan_of part.now) parts.now) number (option_copied old.entry) ≡ rel_made types orientation (map (λ part. plan_of part.now) parts.now) number (option_copied new.entry) }
{
    match (old, new) {
        (Some(old), Some(new)) => {
            have_same_ends(old, new)
                && are_alike(parts, EntityValue::Rel(old), EntityValue::Rel(new))
        }
        (None, None) => true,
        _ => false,
    }
}

/// Whether a relationship has the same ends and the same type. Where it says no, it may do so too.
pub fn have_same_ends(old: &Rel, new: &Rel) -> bool
    ensures { result ≡ true → HaveSameEnds old.now new.now }
{
    old.source == new.source && old.target == new.target && old.kind == new.kind
}

// Whether the operators make the same rows of an entity that had one value and has another.
fn are_alike(parts: &[&Operator], old: EntityValue<'_>, new: EntityValue<'_>) -> bool
    ensures { result ≡ true → (rows : List (List Cell))
        → spec.through (attribute_in old.entry) (map (λ part. plan_of part.now) parts.now) rows ≡ spec.through (attribute_in new.entry) (map (λ part. plan_of part.now) parts.now) rows }
{
    for part in parts {
        if !is_alike(part, old, new) {
            return false;
        }
    }
    true
}

// Whether an operator does.
fn is_alike(part: &Operator, old: EntityValue<'_>, new: EntityValue<'_>) -> bool
    ensures { result ≡ true → (rows : List (List Cell)) → spec.made_by (attribute_in old.entry) (plan_of part.now) rows ≡ spec.made_by (attribute_in new.entry) (plan_of part.now) rows }
{
    match part {
        Operator::Lookup(_, _, attribute) => has_same(attribute, old, new),
        _ => true,
    }
}

// Whether an attribute is the same.
fn has_same(attribute: &Attribute, old: EntityValue<'_>, new: EntityValue<'_>) -> bool
    ensures { result ≡ true → attribute_in old.entry attribute.now ≡ attribute_in new.entry attribute.now }
{
    match (old, new) {
        (EntityValue::Node(old), EntityValue::Node(new)) => node_has_same(attribute, old, new),
        (EntityValue::Rel(old), EntityValue::Rel(new)) => rel_has_same(attribute, old, new),
        (EntityValue::Node(_), EntityValue::Rel(_)) | (EntityValue::Rel(_), EntityValue::Node(_)) =>
            false,
    }
}

/// Whether an attribute of a node is the same. Where it says no, it may be so too.
pub fn node_has_same(attribute: &Attribute, old: &Node, new: &Node) -> bool
    ensures { result ≡ true → node_attribute attribute.now (Some old.now) ≡ node_attribute attribute.now (Some new.now) }
{
    match attribute {
        Attribute::Property(key) => have_same_property(key, &old.props, &new.props),
        Attribute::Labels => old.labels == new.labels,
        Attribute::RelType => true,
    }
}

/// Whether an attribute of a relationship is the same. Where it says no, it may be so too.
pub fn rel_has_same(attribute: &Attribute, old: &Rel, new: &Rel) -> bool
    ensures { result ≡ true → rel_attribute attribute.now (Some old.now) ≡ rel_attribute attribute.now (Some new.now) }
{
    match attribute {
        Attribute::Property(key) => have_same_property(key, &old.props, &new.props),
        Attribute::RelType => old.kind == new.kind,
        Attribute::Labels => true,
    }
}

// Whether the same stands at a key.
fn have_same_property(key: &Text, old: &Props, new: &Props) -> bool
    ensures { result ≡ true → value_at key.now old.now ≡ value_at key.now new.now }
{
    match (old.get(key.as_str()), new.get(key.as_str())) {
        (Some(old), Some(new)) => old == new,
        (None, None) => true,
        _ => false,
    }
}
