//! What a store lends of its entities and of its open change, and how often it was read.

ghost use Rattle.std.specs.Prelude.{◌≡◌, ◌+◌, ◌-◌, ◌^◌, min, IsSome, IfSome, IfOk, IfErr, OnOk, map};
ghost use Rattle.std.specs.Option.{option_copied};
ghost use Rattle.cy_graph.specs.Graph.{node_at, rel_at, IsGraph};
ghost use Rattle.cy_graph.specs.Touched.{before_image, AreTouched};
ghost use Rattle.cy_index.specs.Index.{labelled_nodes};

use crate::store::Store;
use cy_graph::{GraphFault, Node, Rel, Touched};
use cy_values::{Fault, NodeId, RelId};
use std::alloc::Global;
use std::marker::Model;

/// The single entities of the store, and what its open change touched. Each entity that is asked for is a read.
#[derive(Drop)]
pub struct Sight<'a> {
    store: &'a Store,
    reads: u64,
}

impl<'a> Model for Sight<'a> {
    ghost use Rattle.cy_index.specs.Index.{SightState};

    ghost Value = { SightState };

    ghost view = { λ s. record { graph = s.store.now.graph; reads = s.reads } };
}

impl<'a> Sight<'a> {
    pub(crate) fn new(store: &'a Store) -> Self
        ensures { result ≡ record { graph = store.now.graph; reads = 0 } }
    {
        Sight { store, reads: 0 }
    }

    /// The entities whose value is another than when the change began, as `Graph::touched` gives them. Fails only when
    /// out of memory.
    pub fn touched(&self, alloc: Global) -> Result<Vec<Touched<'a>>, GraphFault>
        requires { IsSome self.now.graph.was }
        ensures ok { IfOk result (λ touched. IfSome self.now.graph.was (λ before. AreTouched before self.now.graph.now (map before_image touched.items))) }
        ensures graphs { OnOk result (IsGraph self.now.graph.now × IfSome self.now.graph.was (λ before. IsGraph before)) }
        ensures fault { IfErr result (λ fault. fault ≡ GraphFault.NoMemory) }
    {
        self.store.touched(alloc)
    }

    /// The node under a number, if there is one. It is a read, whether or not there is one.
    pub fn node(&mut self, id: NodeId) -> Option<&'a Node>
        ensures node { option_copied result ≡ node_at id self.old.graph.now }
        ensures read { self.new ≡ record self.old { reads = min (self.old.reads + 1) (2 ^ 64 - 1) } }
    {
        self.reads = self.reads.saturating_add(1);
        self.store.node(id)
    }

    /// The relationship under a number, if there is one. It is a read, whether or not there is one.
    pub fn rel(&mut self, id: RelId) -> Option<&'a Rel>
        ensures rel { option_copied result ≡ rel_at id self.old.graph.now }
        ensures read { self.new ≡ record self.old { reads = min (self.old.reads + 1) (2 ^ 64 - 1) } }
    {
        self.reads = self.reads.saturating_add(1);
        self.store.rel(id)
    }

    /// The nodes with a label, by rising number. It looks into the index of labels and reads no entity. Fails only when out of memory.
    pub fn labelled(&self, alloc: Global, label: &str) -> Result<Vec<NodeId>, Fault>
        ensures { IfOk result (λ nodes. nodes.items ≡ labelled_nodes label.now self.now.graph.now.content) }
    {
        self.store.labelled(alloc, label)
    }

    /// How many reads there were. It stands still at the greatest u64.
    pub fn reads(&self) -> u64
        ensures { result ≡ self.now.reads }
    {
        self.reads
    }
}
