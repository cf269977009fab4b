//! What a change does to one entity.

ghost use Rattle.std.specs.Prelude.{◌≡◌, [], ℕ, List, true};
ghost use Rattle.std.specs.Option.{option_copied};
ghost use Rattle.cy_planner_algebra.specs.Plans as plan;
ghost use Rattle.cy_planner_algebra.specs.Plans.{Plan};
ghost use Rattle.cy_planner_algebra.specs.declared.operators.Orientation.{Orientation};
ghost use Rattle.cy_network_sources.specs.Scans.{scan_parts};
ghost use Rattle.cy_network_sources.specs.internal.Rows.{rel_rows};
ghost use Rattle.cy_network_sources.specs.internal.Through.{IsNeeded, leaf_of, node_made};
ghost use Rattle.cy_network_relevance.specs.internal.Kept.{KeepsRows, KeepsValue, NodeAbsent, NodeKeeps, NodeKept, NoRows, RelAbsent, RelKeeps, RelKept};

use cy_graph::{Node, Rel};
use cy_network_sources::{has_label, has_type, have_same_ends, node_has_same, rel_has_same};
use cy_planner_algebra::Attribute;
use cy_values::Text;

/// A touched entity: the value that it had, if it was there, and the one that it has, if it is.
#[derive(Clone, Copy, Debug, Drop)]
pub(crate) enum Entity<'a> {
    Node(Option<&'a Node>, Option<&'a Node>),
    Rel(Option<&'a Rel>, Option<&'a Rel>),
}

/// Whether it makes the same rows of `Nodes` before and after.
pub(crate) fn keeps_node(entity: Entity<'_>) -> bool
    ensures { result ≡ true → KeepsRows entity.entry plan.nodes }
{
    match entity {
        Entity::Node(old, new) => is_kept_node(old, new),
        Entity::Rel(_, _) => true,
    }
}

// Whether a node is there before and after, or neither.
fn is_kept_node(old: Option<&Node>, new: Option<&Node>) -> bool
    ensures { result ≡ true → NodeKept (option_copied old.entry) (option_copied new.entry) plan.nodes }
{
    match (old, new) {
        (Some(_), Some(_)) | (None, None) => true,
        _ => false,
    }
}

/// Whether it makes no row of `Nodes`, neither before nor after.
pub(crate) fn makes_no_node(entity: Entity<'_>) -> bool
    ensures { result ≡ true → NoRows entity.entry plan.nodes }
{
    match entity {
        Entity::Node(old, new) => is_no_node(old, new),
        Entity::Rel(_, _) => true,
    }
}

// Whether a node is there neither before nor after.
fn is_no_node(old: Option<&Node>, new: Option<&Node>) -> bool
    ensures { result ≡ true → NodeAbsent (option_copied old.entry) (option_copied new.entry) plan.nodes }
{
    match (old, new) {
        (None, None) => true,
        _ => false,
    }
}

/// Whether it makes the same rows of `Rels` before and after.
pub(crate) fn keeps_rel(entity: Entity<'_>) -> bool
    ensures { result ≡ true → (types : List (List ℕ)) (orientation : Orientation) → KeepsRows entity.entry (plan.rels types orientation) }
{
    match entity {
        Entity::Node(_, _) => true,
        Entity::Rel(old, new) => is_kept_rel(old, new),
    }
}

// Whether a relationship has the same ends and the same type before and after.
fn is_kept_rel(old: Option<&Rel>, new: Option<&Rel>) -> bool
    ensures { result ≡ true → (types : List (List ℕ)) (orientation : Orientation) → RelKept (option_copied old.entry) (option_copied new.entry) (plan.rels types orientation) }
{
    match (old, new) {
        (Some(old), Some(new)) => have_same_ends(old, new),
        (None, None) => true,
        _ => false,
    }
}

/// Whether it makes no row of `Rels` of some types, neither before nor after.
pub(crate) fn makes_no_rel(entity: Entity<'_>, types: &[Text]) -> bool
    ensures { result ≡ true → (orientation : Orientation) → NoRows entity.entry (plan.rels types.now orientation) }
{
    match entity {
        Entity::Node(_, _) => true,
        Entity::Rel(old, new) => is_of_another(types, old) && is_of_another(types, new),
    }
}

// Whether a relationship isn't there, or is of another type.
fn is_of_another(types: &[Text], rel: Option<&Rel>) -> bool
    ensures { result ≡ true → (orientation : Orientation) (number : ℕ) → rel_rows types.now orientation number (option_copied rel.entry) ≡ [] }
{
    match rel {
        Some(rel) => !has_type(types, rel),
        None => true,
    }
}

/// Whether it is no node with a label, neither before nor after.
pub(crate) fn lacks_label(entity: Entity<'_>, label: &Text) -> bool
    ensures { result ≡ true → (p : Plan) → IsNeeded label.now (scan_parts p) → leaf_of p ≡ plan.nodes → NoRows entity.entry p }
{
    match entity {
        Entity::Node(old, new) => is_without(label, old) && is_without(label, new),
        Entity::Rel(_, _) => true,
    }
}

// Whether a node isn't there, or is without a label.
fn is_without(label: &Text, node: Option<&Node>) -> bool
    ensures { result ≡ true → (ps : List Plan) (number : ℕ) → IsNeeded label.now ps → node_made ps number (option_copied node.entry) ≡ [] }
{
    match node {
        Some(node) => !has_label(node, label),
        None => true,
    }
}

/// Whether an attribute of it is the same before and after. Where it says no, it may be so too.
pub(crate) fn has_same(entity: Entity<'_>, attribute: &Attribute) -> bool
    ensures { result ≡ true → KeepsValue entity.entry attribute.now }
{
    match entity {
        Entity::Node(old, new) => is_same_of_node(attribute, old, new),
        Entity::Rel(old, new) => is_same_of_rel(attribute, old, new),
    }
}

// Whether an attribute of a node is.
fn is_same_of_node(attribute: &Attribute, old: Option<&Node>, new: Option<&Node>) -> bool
    ensures { result ≡ true → NodeKeeps (option_copied old.entry) (option_copied new.entry) attribute.now }
{
    match (old, new) {
        (Some(old), Some(new)) => node_has_same(attribute, old, new),
        (None, None) => true,
        _ => false,
    }
}

// Whether an attribute of a relationship is.
fn is_same_of_rel(attribute: &Attribute, old: Option<&Rel>, new: Option<&Rel>) -> bool
    ensures { result ≡ true → RelKeeps (option_copied old.entry) (option_copied new.entry) attribute.now }
{
    match (old, new) {
        (Some(old), Some(new)) => rel_has_same(attribute, old, new),
        (None, None) => true,
        _ => false,
    }
}
