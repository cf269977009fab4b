//! The touched entities of an open change, noted by number.

ghost use Rattle.std.specs.Prelude.{◌≡◌, ℕ, [], IfOk, OnOk, IsSome, map, nat_eq};
ghost use Rattle.std.specs.Option.{option_copied, option_map};
ghost use Rattle.std.specs.List.{IsDistinct};
ghost use Rattle.std.specs.Map.{keys_of};
ghost use Rattle.cy_graph.specs.Touched.{before_image, old_value};
ghost use Rattle.cy_network_sources.specs.Changes.{IsChange, before_change, image_at};
ghost use Rattle.cy_network_sources.specs.internal.Images.{node_of_old, rel_of_old, node_noted, rel_noted};

use cy_graph::{Node, Rel, Touched, Was};
use cy_index::Sight;
use cy_values::{Entity, Fault, NodeId, RelId};
use indexmap::{IndexMap, map};
use std::alloc::Global;
use std::marker::Model;

/// Touched entities, each under its number with the value that it had, if it was there.
#[derive(Drop)]
pub(crate) struct Noted<'a> {
    nodes: IndexMap<u64, Option<&'a Node>>,
    rels: IndexMap<u64, Option<&'a Rel>>,
}

impl<'a> Model for Noted<'a> {
    ghost use Rattle.std.specs.Prelude.{map};
    ghost use Rattle.std.specs.Option.{option_copied};
    ghost use Rattle.cy_network_sources.specs.Changes.{Touches};

    ghost Value = { Touches };

    ghost view = { λ c. record { nodes = map (λ e. (e.0, option_copied e.1)) c.nodes.entries; rels = map (λ e. (e.0, option_copied e.1)) c.rels.entries } };
}

impl<'a> Noted<'a> {
    /// What the open change touched. Fails only when out of memory.
    pub(crate) fn new(alloc: Global, sight: &Sight<'a>) -> Result<Self, Fault>
        requires { IsSome sight.now.graph.was }
        ensures change { IfOk result (λ change. IsChange (before_change sight.now.graph) sight.now.graph.now change) }
    {
        let Ok(touched) = sight.touched(alloc) else {
            return Err(Fault::NoMemory);
        };
        let mut change = Noted::empty(alloc);
        for entity in touched {
            change.add(entity)?;
        }
        change.once();
        Ok(change)
    }

    // Nothing is touched.
    fn empty(alloc: Global) -> Self
        ensures nodes { result.nodes ≡ [] }
        ensures rels { result.rels ≡ [] }
    {
        Noted {
            nodes: IndexMap::new(alloc),
            rels: IndexMap::new(alloc),
        }
    }

    // One more entity is touched. Fails only when out of memory.
    fn add(&mut self, touched: Touched<'a>) -> Result<(), Fault>
        ensures nodes { OnOk result ((number : ℕ) → image_at number self.new.nodes ≡ node_noted number (before_image touched.entry) (image_at number self.old.nodes)) }
        ensures rels { OnOk result ((number : ℕ) → image_at number self.new.rels ≡ rel_noted number (before_image touched.entry) (image_at number self.old.rels)) }
    {
        match touched.entity {
            Entity::Node(id) => {
                self.nodes.insert(id.0, node_of(touched.was))?;
            }
            Entity::Rel(id) => {
                self.rels.insert(id.0, rel_of(touched.was))?;
            }
        }
        Ok(())
    }

    // Each number stands once.
    fn once(&self)
        ensures nodes { IsDistinct nat_eq (keys_of self.now.nodes) }
        ensures rels { IsDistinct nat_eq (keys_of self.now.rels) }
    {
        let _unique = (self.nodes.len(), self.rels.len());
    }

    /// The value that a touched node had, if it was there; nothing of a node that isn't touched.
    pub(crate) fn node_was(&self, id: NodeId) -> Option<Option<&'a Node>>
        ensures { option_map option_copied result ≡ image_at id.0 self.now.nodes }
    {
        self.nodes.get(&id.0).copied()
    }

    /// The value that a touched relationship had, if it was there; nothing of a relationship that isn't touched.
    pub(crate) fn rel_was(&self, id: RelId) -> Option<Option<&'a Rel>>
        ensures { option_map option_copied result ≡ image_at id.0 self.now.rels }
    {
        self.rels.get(&id.0).copied()
    }

    /// The touched nodes, each under its number with the value that it had, if it was there.
    pub(crate) fn nodes(&self) -> map::Iter<'_, u64, Option<&'a Node>>
        ensures { map (λ e. (e.0, option_copied e.1)) result ≡ self.now.nodes }
    {
        self.nodes.iter()
    }

    /// The touched relationships, each under its number with the value that it had, if it was there.
    pub(crate) fn rels(&self) -> map::Iter<'_, u64, Option<&'a Rel>>
        ensures { map (λ e. (e.0, option_copied e.1)) result ≡ self.now.rels }
    {
        self.rels.iter()
    }
}

// The node that a value is.
fn node_of<'a>(was: Option<Was<'a>>) -> Option<&'a Node>
    ensures { option_copied result ≡ node_of_old (option_map old_value was.entry) }
{
    match was {
        Some(Was::Node(node)) => Some(node),
        _ => None,
    }
}

// The relationship that a value is.
fn rel_of<'a>(was: Option<Was<'a>>) -> Option<&'a Rel>
    ensures { option_copied result ≡ rel_of_old (option_map old_value was.entry) }
{
    match was {
        Some(Was::Rel(rel)) => Some(rel),
        _ => None,
    }
}
