//! The graph, and one change of it at a time.

ghost use Rattle.std.specs.Prelude.{◌≡◌, ◌≤◌, ◌↔◌, IsTrue, IsSome, IsNone, IfSome, IfOk, IfErr, OnOk, OnErr, IsErrOf, None, Some, map, slice_get, ◌⊎◌};
ghost use Rattle.cy_values.specs.declared.numbers.RelId.{RelId};
ghost use Rattle.std.specs.Option.{option_copied};
ghost use Rattle.cy_graph.specs.Graph.{Versions, empty_state, node_at, rel_at, incoming, outgoing, rels_with, with_node, with_rel, without_rel, with_label, without_label, with_node_changed, with_prop, without_node, number_end, IsThere, IsGraph};
ghost use Rattle.cy_graph.specs.Touched.{before_image, AreTouched};
ghost use Rattle.cy_graph.specs.Stored.{is_storable, IsStorable};

use crate::adjacency::Adjacency;
use crate::edits::{AddLabel, DropLabel, SetProp};
use crate::faults::GraphFault;
use crate::iterators::{Nodes, Rels, RelsAt};
use crate::names::Names;
use crate::nodes::{Labels, Node, Props, Rel};
use crate::series::Series;
use crate::touched::{Touched, push_nodes, push_rels};
use cy_values::{Entity, NodeId, RelId, Text, Value};
use std::alloc::Global;
use std::marker::Model;

/// A property graph in memory.
pub struct Graph {
    nodes: Series<Node>,
    rels: Series<Rel>,
    /// The relationships of which each node is the source, and those of which it is the target.
    outgoing: Adjacency,
    incoming: Adjacency,
    /// The texts of labels, types and keys that came last.
    names: Names,
}

/// Called from each place where a graph is dropped.
impl Drop for Graph {
    fn drop(self) {
        let Graph {
            nodes: _,
            rels: _,
            outgoing: _,
            incoming: _,
            names: _,
        } = self;
    }
}

impl Model for Graph {
    ghost use Rattle.cy_graph.specs.Graph.{Versions};
    ghost use Rattle.cy_graph.specs.internal.Contents.{AreVersions};
    ghost use Rattle.cy_graph.specs.Model.{versions_of};

    ghost Value = { Versions };

    ghost view = { λ g. versions_of g.nodes g.rels };

    ghost invariant = { λ g. AreVersions g.nodes g.rels g.outgoing g.incoming };
}

impl Graph {
    /// An empty graph, whose next numbers are 1.
    pub fn new(alloc: Global) -> Self
        ensures { result ≡ record { now = empty_state 1 1; was = None } }
    {
        Graph::starting_at(alloc, 1, 1)
    }

    /// An empty graph whose next numbers are these, each from 1 to 2^40 + 1.
    pub fn starting_at(alloc: Global, node: u64, rel: u64) -> Self
        requires node_from { 1 ≤ node }
        requires node_to { node ≤ number_end }
        requires rel_from { 1 ≤ rel }
        requires rel_to { rel ≤ number_end }
        ensures { result ≡ record { now = empty_state node rel; was = None } }
    {
        Graph {
            nodes: Series::starting_at(alloc, node),
            rels: Series::starting_at(alloc, rel),
            outgoing: Adjacency::new(alloc),
            incoming: Adjacency::new(alloc),
            names: Names::new(alloc),
        }
    }

    /// What holds of every graph: numbers rise from 1 and stay below the next ones, each content has one form, values are
    /// such as can be stored, and the ends of each relationship are nodes.
    pub fn laws(&self)
        ensures { IsGraph self.now.now }
    {
        self.nodes.laws();
        self.rels.laws();
    }

    /// The node under a number, if there is one.
    pub fn node(&self, id: NodeId) -> Option<&Node>
        ensures { option_copied result ≡ node_at id self.now.now }
    {
        self.nodes.get(id.0)
    }

    /// The nodes with their numbers, by rising number.
    pub fn nodes(&self) -> Nodes<'_>
        ensures nodes { result ≡ self.now.now.content.nodes }
        ensures graph { IsGraph self.now.now }
    {
        self.laws();
        Nodes::new(self.nodes.values())
    }

    /// The relationship under a number, if there is one.
    pub fn rel(&self, id: RelId) -> Option<&Rel>
        ensures { option_copied result ≡ rel_at id self.now.now }
    {
        self.rels.get(id.0)
    }

    /// The relationships with their numbers, by rising number.
    pub fn rels(&self) -> Rels<'_>
        ensures rels { result ≡ self.now.now.content.rels }
        ensures graph { IsGraph self.now.now }
    {
        self.laws();
        Rels::new(self.rels.values())
    }

    /// The relationships of which a node is the source, with their numbers, by rising number.
    pub fn out_rels(&self, id: NodeId) -> RelsAt<'_>
        ensures { result ≡ outgoing id self.now.now.content.rels }
    {
        self.rels.laws();
        RelsAt::new(self.outgoing.at(id.0), &self.rels)
    }

    /// The relationships of which a node is the target, with their numbers, by rising number.
    pub fn in_rels(&self, id: NodeId) -> RelsAt<'_>
        ensures { result ≡ incoming id self.now.now.content.rels }
    {
        self.rels.laws();
        RelsAt::new(self.incoming.at(id.0), &self.rels)
    }

    /// The number that the next node gets. `Full` where number 2^40 was given out.
    pub fn next_node(&self) -> Result<NodeId, GraphFault>
        ensures number { IfOk result (λ id. id.0 ≡ self.now.now.next_node) }
        ensures full { IsErrOf result GraphFault.Full ↔ (self.now.now.next_node ≡ number_end) }
        ensures fault { IfErr result (λ fault. fault ≡ GraphFault.Full) }
    {
        Ok(NodeId(self.nodes.next_number()?))
    }

    /// The numbers that the next node and the next relationship get; 2^40 + 1 where all of a series were given out.
    pub fn next_numbers(&self) -> (NodeId, RelId)
        ensures node { result.0.0 ≡ self.now.now.next_node }
        ensures rel { result.1.0 ≡ self.now.now.next_rel }
    {
        (NodeId(self.nodes.next()), RelId(self.rels.next()))
    }

    /// Opens a change, which `commit` or `rollback` ends.
    pub fn begin(&mut self)
        requires { IsNone self.old.was }
        ensures { self.new ≡ record self.old { was = Some self.old.now } }
    {
        self.nodes.begin();
        self.rels.begin();
    }

    /// Adds a node under the next number, which it gives. `Full` where number 2^40 was given out; else it fails
    /// only when out of memory.
    pub fn add_node(&mut self, mut labels: Labels, mut props: Props) -> Result<NodeId, GraphFault>
        requires open { IsSome self.old.was }
        requires storable { IsStorable props }
        ensures number { IfOk result (λ id. id.0 ≡ self.old.now.next_node) }
        ensures added { IfOk result (λ _. self.new ≡ record self.old { now = with_node (record { labels = labels; props = props }) self.old.now }) }
        ensures full { IsErrOf result GraphFault.Full ↔ (self.old.now.next_node ≡ number_end) }
        ensures fault { IfErr result (λ fault. (fault ≡ GraphFault.Full) ⊎ (fault ≡ GraphFault.NoMemory)) }
        ensures err { OnErr result (self.new ≡ self.old) }
    {
        labels.share_keys(&mut self.names);
        props.share_keys(&mut self.names);
        Ok(NodeId(self.nodes.add(Node::new(labels, props))?))
    }

    /// Adds a relationship under the next number, which it gives. `Full` where number 2^40 was given out; else it fails
    /// only when out of memory.
    pub fn add_rel(
        &mut self,
        source: NodeId,
        target: NodeId,
        mut kind: Text,
        mut props: Props,
    ) -> Result<RelId, GraphFault>
        requires open { IsSome self.old.was }
        requires from { IsSome (node_at source self.old.now) }
        requires to { IsSome (node_at target self.old.now) }
        requires storable { IsStorable props }
        ensures number { IfOk result (λ id. id.0 ≡ self.old.now.next_rel) }
        ensures added { OnOk result (self.new ≡ record self.old { now = with_rel (record { source = source; target = target; kind = kind; props = props }) self.old.now }) }
        ensures full { IsErrOf result GraphFault.Full ↔ (self.old.now.next_rel ≡ number_end) }
        ensures fault { IfErr result (λ fault. (fault ≡ GraphFault.Full) ⊎ (fault ≡ GraphFault.NoMemory)) }
        ensures err { OnErr result (self.new ≡ self.old) }
    {
        self.rels.laws();
        let id = RelId(self.rels.next_number()?);
        self.outgoing.reserve(source.0)?;
        self.incoming.reserve(target.0)?;
        self.names.share(&mut kind);
        props.share_keys(&mut self.names);
        self.rels.add(Rel::new(source, target, kind, props))?;
        self.outgoing.add(source.0, id);
        self.incoming.add(target.0, id);
        Ok(id)
    }

    /// Sets the property of an entity at a key, or removes it where no value is given. Fails only when out of memory.
    pub fn set_prop(
        &mut self,
        entity: Entity,
        mut key: Text,
        value: Option<Value>,
    ) -> Result<(), GraphFault>
        requires open { IsSome self.old.was }
        requires there { IsThere entity self.old.now }
        requires storable { IfSome value (λ v. IsTrue (is_storable v)) }
        ensures ok { OnOk result (self.new ≡ record self.old { now = with_prop entity key value self.old.now }) }
        ensures fault { IfErr result (λ fault. fault ≡ GraphFault.NoMemory) }
        ensures err { OnErr result (self.new ≡ self.old) }
    {
        self.rels.laws();
        self.names.share(&mut key);
        match entity {
            Entity::Node(id) => self.nodes.edit(id.0, SetProp { key, value }),
            Entity::Rel(id) => self.rels.edit(id.0, SetProp { key, value }),
        }
    }

    /// Adds a label to a node. Fails only when out of memory.
    pub fn add_label(&mut self, id: NodeId, mut label: Text) -> Result<(), GraphFault>
        requires open { IsSome self.old.was }
        requires there { IsSome (node_at id self.old.now) }
        ensures ok { OnOk result (self.new ≡ record self.old { now = with_node_changed id (with_label label) self.old.now }) }
        ensures fault { IfErr result (λ fault. fault ≡ GraphFault.NoMemory) }
        ensures err { OnErr result (self.new ≡ self.old) }
    {
        self.names.share(&mut label);
        self.nodes.edit(id.0, AddLabel(label))
    }

    /// Drops a label of a node, if it has it. Fails only when out of memory.
    pub fn drop_label(&mut self, id: NodeId, label: &str) -> Result<(), GraphFault>
        requires open { IsSome self.old.was }
        requires there { IsSome (node_at id self.old.now) }
        ensures ok { OnOk result (self.new ≡ record self.old { now = with_node_changed id (without_label label.now) self.old.now }) }
        ensures fault { IfErr result (λ fault. fault ≡ GraphFault.NoMemory) }
        ensures err { OnErr result (self.new ≡ self.old) }
    {
        self.nodes.edit(id.0, DropLabel(label))
    }

    /// Removes a relationship. Its number is not used again. Fails only when out of memory.
    pub fn remove_rel(&mut self, id: RelId) -> Result<(), GraphFault>
        requires open { IsSome self.old.was }
        requires there { IsSome (rel_at id self.old.now) }
        ensures ok { OnOk result (self.new ≡ record self.old { now = without_rel id self.old.now }) }
        ensures fault { IfErr result (λ fault. fault ≡ GraphFault.NoMemory) }
        ensures err { OnErr result (self.new ≡ self.old) }
    {
        let Some(rel) = self.rels.get(id.0) else {
            return Ok(());
        };
        let (source, target) = (rel.source, rel.target);
        self.outgoing.reserve_step()?;
        self.incoming.reserve_step()?;
        self.rels.remove(id.0)?;
        self.outgoing.remove(source.0);
        self.incoming.remove(target.0);
        Ok(())
    }

    /// Removes a node. Its number is not used again. `StillConnected` with the least relationship at it, where there is
    /// one; else it fails only when out of memory.
    pub fn remove_node(&mut self, id: NodeId) -> Result<(), GraphFault>
        requires open { IsSome self.old.was }
        requires there { IsSome (node_at id self.old.now) }
        ensures ok { OnOk result (self.new ≡ record self.old { now = without_node id self.old.now }) }
        ensures connected { (rel : RelId) → IsErrOf result (GraphFault.StillConnected rel) ↔ (slice_get (rels_with id self.old.now.content.rels) 0 ≡ Some rel) }
        ensures fault { IfErr result (λ fault. ((rel : RelId) × (fault ≡ GraphFault.StillConnected rel)) ⊎ (fault ≡ GraphFault.NoMemory)) }
        ensures err { OnErr result (self.new ≡ self.old) }
    {
        if let Some(rel) = self.least_rel(id) {
            return Err(GraphFault::StillConnected(rel));
        }
        self.nodes.remove(id.0)
    }

    /// The relationship at a node that has the least number, if there is one.
    pub fn least_rel(&self, id: NodeId) -> Option<RelId>
        ensures { result ≡ slice_get (rels_with id self.now.now.content.rels) 0 }
    {
        self.laws();
        match (self.out_rels(id).next(), self.in_rels(id).next()) {
            (Some((out, _)), Some((into, _))) => Some(if out.0 < into.0 { out } else { into }),
            (Some((out, _)), None) => Some(out),
            (None, Some((into, _))) => Some(into),
            (None, None) => None,
        }
    }

    /// The entities whose value differs from when the change began, each once, with the value that they had. What
    /// was changed and changed back, or made and removed, is not among them. Fails only when out of memory.
    pub fn touched(&self, alloc: Global) -> Result<Vec<Touched<'_>>, GraphFault>
        requires { IsSome self.now.was }
        ensures ok { IfOk result (λ touched. IfSome self.now.was (λ before. AreTouched before self.now.now (map before_image touched.items))) }
        ensures graphs { OnOk result (IsGraph self.now.now × IfSome self.now.was (λ before. IsGraph before)) }
        ensures fault { IfErr result (λ fault. fault ≡ GraphFault.NoMemory) }
    {
        let mut touched = Vec::new(alloc);
        push_nodes(&mut touched, &self.nodes.differing(alloc)?)?;
        push_rels(&mut touched, &self.rels.differing(alloc)?)?;
        Ok(touched)
    }

    /// Ends the change: what it did stays.
    pub fn commit(&mut self)
        requires { IsSome self.old.was }
        ensures { self.new ≡ record self.old { was = None } }
    {
        self.nodes.commit();
        self.rels.commit();
        self.outgoing.commit(&self.rels);
        self.incoming.commit(&self.rels);
    }

    /// Ends the change: the graph is as it was when the change began, next numbers included.
    pub fn rollback(&mut self)
        requires { IsSome self.old.was }
        ensures { IfSome self.old.was (λ before. self.new ≡ record { now = before; was = None }) }
    {
        self.nodes.rollback();
        self.rels.rollback();
        self.outgoing.rollback();
        self.incoming.rollback();
    }
}
