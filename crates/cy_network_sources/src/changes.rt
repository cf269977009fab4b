//! What a change of the store touched, found by number.

ghost use Rattle.std.specs.Prelude.{◌≡◌, IfOk, IsSome};
ghost use Rattle.std.specs.Option.{option_copied, option_map};
ghost use Rattle.cy_graph.specs.Graph.{empty_state};
ghost use Rattle.cy_network_sources.specs.Changes.{IsChange, before_change, image_at};

use crate::noted::Noted;
use crate::touched::{NodesLeft, RelsLeft, TouchedNodes, TouchedRels};
use cy_graph::{Node, Rel};
use cy_index::{Sight, Store};
use cy_values::{Fault, NodeId, RelId};
use std::alloc::Global;
use std::marker::Model;

/// Where the touched entities are found.
#[derive(Drop)]
enum Source<'a> {
    /// Each that an open change touched is noted.
    Noted(Noted<'a>),
    /// Each of a store is touched, and none was there.
    All(&'a Store),
}

/// The entities whose value differs from when a change began, each under its number with the value that it had, if it was
/// there. It is made once for all operators of a plan. It lends from the store and not from the sight, which can be read on beside it.
#[derive(Drop)]
pub struct GraphChange<'a> {
    source: Source<'a>,
}

impl<'a> Model for GraphChange<'a> {
    ghost use Rattle.cy_network_sources.specs.Changes.{Touches};
    ghost use Rattle.cy_network_sources.specs.internal.Sources.{touches_in};

    ghost Value = { Touches };

    ghost view = { λ c. touches_in c.source };
}

impl<'a> GraphChange<'a> {
    /// What the open change touched. Fails only when out of memory.
    pub fn new(alloc: Global, sight: &Sight<'a>) -> Result<Self, Fault>
        requires { IsSome sight.now.graph.was }
        ensures change { IfOk result (λ change. IsChange (before_change sight.now.graph) sight.now.graph.now change) }
    {
        Ok(GraphChange {
            source: Source::Noted(Noted::new(alloc, sight)?),
        })
    }

    /// What leads from a graph without anything to that of a store: each entity is touched, and none was there. It takes no memory,
    /// however large the store is.
    pub fn of_all(store: &'a Store) -> Self
        ensures { IsChange (empty_state 1 1) store.now.graph.now result }
    {
        store.laws();
        GraphChange {
            source: Source::All(store),
        }
    }

    /// The value that a touched node had, if it was there; nothing of a node that isn't touched.
    pub fn node_was(&self, id: NodeId) -> Option<Option<&'a Node>>
        ensures { option_map option_copied result ≡ image_at id.0 self.now.nodes }
    {
        match &self.source {
            Source::Noted(noted) => noted.node_was(id),
            Source::All(store) => match store.node(id) {
                Some(_) => Some(None),
                None => None,
            },
        }
    }

    /// The value that a touched relationship had, if it was there; nothing of a relationship that isn't touched.
    pub fn rel_was(&self, id: RelId) -> Option<Option<&'a Rel>>
        ensures { option_map option_copied result ≡ image_at id.0 self.now.rels }
    {
        match &self.source {
            Source::Noted(noted) => noted.rel_was(id),
            Source::All(store) => match store.rel(id) {
                Some(_) => Some(None),
                None => None,
            },
        }
    }

    /// The touched nodes, each with its number and with the value that it had, if it was there.
    pub fn nodes(&self) -> TouchedNodes<'_, 'a>
        ensures { result ≡ self.now.nodes }
    {
        TouchedNodes::new(match &self.source {
            Source::Noted(noted) => NodesLeft::Noted(noted.nodes()),
            Source::All(store) => NodesLeft::All(store.nodes()),
        })
    }

    /// The touched relationships, each with its number and with the value that it had, if it was there.
    pub fn rels(&self) -> TouchedRels<'_, 'a>
        ensures { result ≡ self.now.rels }
    {
        TouchedRels::new(match &self.source {
            Source::Noted(noted) => RelsLeft::Noted(noted.rels()),
            Source::All(store) => RelsLeft::All(store.rels()),
        })
    }
}
