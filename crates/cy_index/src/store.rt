//! The store: a graph with its indexes, and one change of both at a time.

mod changes;
mod choosing;
mod lookups;

ghost use Rattle.std.specs.Prelude.{◌≡◌, ◌≤◌, [], IsSome, IsNone, IfSome, IfOk, IfErr, OnOk, IsOk, None, Some, map, slice_get};
ghost use Rattle.std.specs.Option.{option_copied};
ghost use Rattle.cy_graph.specs.Graph.{empty_state, node_at, rel_at, incoming, outgoing, rels_with, number_end, IsGraph};
ghost use Rattle.cy_graph.specs.Touched.{before_image, AreTouched};

use crate::keys::{Key, Pair};
use crate::postings::Postings;
use crate::sight::Sight;
use cy_graph::{Graph, GraphFault, Node, Nodes, Rel, Rels, RelsAt, Touched};
use cy_values::{NodeId, RelId};
use std::alloc::Global;
use std::marker::Model;

/// A property graph with an index of its labels, and with indexes of the values of chosen properties. Each look-up reads
/// the graph as it stands, in an open change too.
pub struct Store {
    graph: Graph,
    chosen: Vec<Pair>,
    /// The nodes under each key. They are up to date at each point of a change, so what ends it needs no more memory.
    postings: Postings<Key>,
}

/// Called from each place where a store is dropped.
impl Drop for Store {
    fn drop(self) {
        let Store {
            graph: _,
            chosen: _,
            postings: _,
        } = self;
    }
}

impl Model for Store {
    ghost use Rattle.cy_index.specs.Index.{StoreState};
    ghost use Rattle.cy_index.specs.internal.Indexed.{IsIndexed};

    ghost Value = { StoreState };

    ghost view = { λ s. record { graph = s.graph; chosen = s.chosen.items } };

    ghost invariant = { λ s. IsIndexed s.chosen.items s.graph s.postings };
}

impl Store {
    /// A store with an empty graph, whose next numbers are 1, and with no index but that of labels.
    pub fn new(alloc: Global) -> Self
        ensures { result ≡ record { graph = record { now = empty_state 1 1; was = None }; chosen = [] } }
    {
        Store::starting_at(alloc, 1, 1)
    }

    /// A store like that of `new`, but with these next numbers, each from 1 to 2^40 + 1.
    pub fn starting_at(alloc: Global, node: u64, rel: u64) -> Self
        requires node_from { 1 ≤ node }
        requires node_to { node ≤ number_end }
        requires rel_from { 1 ≤ rel }
        requires rel_to { rel ≤ number_end }
        ensures { result ≡ record { graph = record { now = empty_state node rel; was = None }; chosen = [] } }
    {
        Store {
            graph: Graph::starting_at(alloc, node, rel),
            chosen: Vec::new(alloc),
            postings: Postings::new(alloc),
        }
    }

    /// What holds of the graph of every store, as `Graph::laws` says.
    pub fn laws(&self)
        ensures { IsGraph self.now.graph.now }
    {
        self.graph.laws();
    }

    /// The node under a number, if there is one.
    pub fn node(&self, id: NodeId) -> Option<&Node>
        ensures { option_copied result ≡ node_at id self.now.graph.now }
    {
        self.graph.node(id)
    }

    /// The nodes with their numbers, by rising number.
    pub fn nodes(&self) -> Nodes<'_>
        ensures nodes { result ≡ self.now.graph.now.content.nodes }
        ensures graph { IsGraph self.now.graph.now }
    {
        self.graph.nodes()
    }

    /// The relationship under a number, if there is one.
    pub fn rel(&self, id: RelId) -> Option<&Rel>
        ensures { option_copied result ≡ rel_at id self.now.graph.now }
    {
        self.graph.rel(id)
    }

    /// The relationships with their numbers, by rising number.
    pub fn rels(&self) -> Rels<'_>
        ensures rels { result ≡ self.now.graph.now.content.rels }
        ensures graph { IsGraph self.now.graph.now }
    {
        self.graph.rels()
    }

    /// The relationships of which a node is the source, with their numbers, by rising number.
    pub fn out_rels(&self, id: NodeId) -> RelsAt<'_>
        ensures { result ≡ outgoing id self.now.graph.now.content.rels }
    {
        self.graph.out_rels(id)
    }

    /// The relationships of which a node is the target, with their numbers, by rising number.
    pub fn in_rels(&self, id: NodeId) -> RelsAt<'_>
        ensures { result ≡ incoming id self.now.graph.now.content.rels }
    {
        self.graph.in_rels(id)
    }

    /// The relationship with the least number at a node, if there is one.
    pub fn least_rel(&self, id: NodeId) -> Option<RelId>
        ensures { result ≡ slice_get (rels_with id self.now.graph.now.content.rels) 0 }
    {
        self.graph.least_rel(id)
    }

    /// The numbers that the next node and the next relationship get; 2^40 + 1 where all of a series were given out.
    pub fn next_numbers(&self) -> (NodeId, RelId)
        ensures node { result.0.0 ≡ self.now.graph.now.next_node }
        ensures rel { result.1.0 ≡ self.now.graph.now.next_rel }
    {
        self.graph.next_numbers()
    }

    /// Opens a change, which `commit` or `rollback` ends.
    pub fn begin(&mut self)
        requires { IsNone self.old.graph.was }
        ensures { self.new ≡ record self.old { graph = record self.old.graph { was = Some self.old.graph.now } } }
    {
        self.graph.begin();
    }

    /// The entities whose value differs from when the change began, as `Graph::touched` gives them. Fails only when
    /// out of memory.
    pub fn touched(&self, alloc: Global) -> Result<Vec<Touched<'_>>, GraphFault>
        requires { IsSome self.now.graph.was }
        ensures ok { IfOk result (λ touched. IfSome self.now.graph.was (λ before. AreTouched before self.now.graph.now (map before_image touched.items))) }
        ensures graphs { OnOk result (IsGraph self.now.graph.now × IfSome self.now.graph.was (λ before. IsGraph before)) }
        ensures fault { IfErr result (λ fault. fault ≡ GraphFault.NoMemory) }
    {
        self.graph.touched(alloc)
    }

    /// Lends the entities, and where a change is open what it touched.
    pub fn sight(&self) -> Sight<'_>
        ensures { result ≡ record { graph = self.now.graph; reads = 0 } }
    {
        Sight::new(self)
    }

    /// Makes what `commit` needs. The calls of the change have made it, so this takes no memory and always succeeds.
    pub fn prepare(&mut self) -> Result<(), GraphFault>
        requires { IsSome self.old.graph.was }
        ensures ok { IsOk result }
        ensures same { self.new ≡ self.old }
    {
        Ok(())
    }

    /// Ends the change: what it did stays.
    pub fn commit(&mut self)
        requires { IsSome self.old.graph.was }
        ensures { self.new ≡ record self.old { graph = record self.old.graph { was = None } } }
    {
        self.graph.commit();
        self.postings.commit();
    }

    /// Ends the change: the graph is as it was when the change began, next numbers included, and so are the indexes.
    pub fn rollback(&mut self)
        requires { IsSome self.old.graph.was }
        ensures { IfSome self.old.graph.was (λ before. self.new ≡ record self.old { graph = record { now = before; was = None } }) }
    {
        self.graph.rollback();
        self.postings.undo_to(0);
    }
}
