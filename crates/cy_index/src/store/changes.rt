//! The changes of a store: the nodes under each key change with the graph, and before it, so that a refusal of the graph
//! takes them back.

ghost use Rattle.std.specs.Prelude.{◌≡◌, ◌<◌, ◌+◌, ◌-◌, ◌↔◌, ◌⊎◌, [], length, drop, slice_get, IsTrue, IsSome, IfSome, IfOk, IfErr, IsErrOf, OnOk, OnErr, None, Some};
ghost use Rattle.std.specs.Option.{option_copied, option_map};
ghost use Rattle.cy_values.specs.declared.numbers.RelId.{RelId};
ghost use Rattle.cy_graph.specs.Graph.{node_at, rel_at, rels_with, with_node, with_rel, without_rel, with_label, without_label, with_node_changed, with_prop, without_node, set_at, number_end, IsThere};
ghost use Rattle.cy_graph.specs.Stored.{is_storable, IsStorable};
ghost use Rattle.cy_index.specs.internal.Indexed.{Turns};

use crate::keys::{Key, label_keys, node_keys, value_keys};
use crate::postings::Postings;
use crate::store::Store;
use cy_graph::{GraphFault, Labels, Props};
use cy_values::{Entity, Fault, NodeId, RelId, Text, Value};

impl Store {
    /// Adds a node under the next number, which it gives. `Full` where number 2^40 was given out; else it fails only
    /// when out of memory.
    pub fn add_node(&mut self, labels: Labels, props: Props) -> Result<NodeId, GraphFault>
        requires open { IsSome self.old.graph.was }
        requires storable { IsStorable props }
        ensures number { IfOk result (λ id. id.0 ≡ self.old.graph.now.next_node) }
        ensures added { IfOk result (λ _. self.new ≡ record self.old { graph = record self.old.graph { now = with_node (record { labels = labels; props = props }) self.old.graph.now } }) }
        ensures full { IsErrOf result GraphFault.Full ↔ (self.old.graph.now.next_node ≡ number_end) }
        ensures fault { IfErr result (λ fault. (fault ≡ GraphFault.Full) ⊎ (fault ≡ GraphFault.NoMemory)) }
        ensures err { OnErr result (self.new ≡ self.old) }
    {
        self.graph.laws();
        let id = self.graph.next_node()?;
        let coming = node_keys(self.postings.allocator(), &self.chosen, &labels, &props)?;
        let mark = self.postings.mark();
        self.postings.replace(&[], coming, id.0)?;
        let done = self.graph.add_node(labels, props);
        undo_if_refused(&mut self.postings, mark, &done);
        done
    }

    /// Adds a relationship under the next number, which it gives. `Full` where number 2^40 was given out; else it fails
    /// only when out of memory.
    pub fn add_rel(
        &mut self,
        source: NodeId,
        target: NodeId,
        kind: Text,
        props: Props,
    ) -> Result<RelId, GraphFault>
        requires open { IsSome self.old.graph.was }
        requires from { IsSome (node_at source self.old.graph.now) }
        requires to { IsSome (node_at target self.old.graph.now) }
        requires storable { IsStorable props }
        ensures number { IfOk result (λ id. id.0 ≡ self.old.graph.now.next_rel) }
        ensures added { OnOk result (self.new ≡ record self.old { graph = record self.old.graph { now = with_rel (record { source = source; target = target; kind = kind; props = props }) self.old.graph.now } }) }
        ensures full { IsErrOf result GraphFault.Full ↔ (self.old.graph.now.next_rel ≡ number_end) }
        ensures fault { IfErr result (λ fault. (fault ≡ GraphFault.Full) ⊎ (fault ≡ GraphFault.NoMemory)) }
        ensures err { OnErr result (self.new ≡ self.old) }
    {
        self.graph.add_rel(source, target, kind, props)
    }

    /// Sets the property of an entity at a key, or removes it where no value is given. Fails only when out of memory.
    pub fn set_prop(
        &mut self,
        entity: Entity,
        key: Text,
        value: Option<Value>,
    ) -> Result<(), GraphFault>
        requires open { IsSome self.old.graph.was }
        requires there { IsThere entity self.old.graph.now }
        requires storable { IfSome value (λ v. IsTrue (is_storable v)) }
        ensures ok { OnOk result (self.new ≡ record self.old { graph = record self.old.graph { now = with_prop entity key value self.old.graph.now } }) }
        ensures fault { IfErr result (λ fault. fault ≡ GraphFault.NoMemory) }
        ensures err { OnErr result (self.new ≡ self.old) }
    {
        match entity {
            Entity::Node(id) => self.set_node_prop(id, key, value),
            Entity::Rel(id) => self.graph.set_prop(Entity::Rel(id), key, value),
        }
    }

    // Sets the property of a node.
    fn set_node_prop(
        &mut self,
        id: NodeId,
        key: Text,
        value: Option<Value>,
    ) -> Result<(), GraphFault>
        requires open { IsSome self.old.graph.was }
        requires there { IsSome (node_at id self.old.graph.now) }
        requires storable { IfSome value (λ v. IsTrue (is_storable v)) }
        ensures ok { OnOk result (self.new ≡ record self.old { graph = record self.old.graph { now = with_node_changed id (set_at key value) self.old.graph.now } }) }
        ensures fault { IfErr result (λ fault. fault ≡ GraphFault.NoMemory) }
        ensures err { OnErr result (self.new ≡ self.old) }
    {
        if !self.has_index_at(key.as_str()) {
            return self.graph.set_prop(Entity::Node(id), key, value);
        }
        let (leaving, coming) = self.changed_keys(id, key.as_str(), value.as_ref())?;
        let mark = self.postings.mark();
        self.postings.replace(&leaving, coming, id.0)?;
        let done = self.graph.set_prop(Entity::Node(id), key, value);
        undo_if_refused(&mut self.postings, mark, &done);
        done
    }

    /// Adds a label to a node. Fails only when out of memory.
    pub fn add_label(&mut self, id: NodeId, label: Text) -> Result<(), GraphFault>
        requires open { IsSome self.old.graph.was }
        requires there { IsSome (node_at id self.old.graph.now) }
        ensures ok { OnOk result (self.new ≡ record self.old { graph = record self.old.graph { now = with_node_changed id (with_label label) self.old.graph.now } }) }
        ensures fault { IfErr result (λ fault. fault ≡ GraphFault.NoMemory) }
        ensures err { OnErr result (self.new ≡ self.old) }
    {
        let coming = self.keys_of_label(id, &label)?;
        let mark = self.postings.mark();
        self.postings.replace(&[], coming, id.0)?;
        let done = self.graph.add_label(id, label);
        undo_if_refused(&mut self.postings, mark, &done);
        done
    }

    /// Drops a label of a node, if it has it. Fails only when out of memory.
    pub fn drop_label(&mut self, id: NodeId, label: &str) -> Result<(), GraphFault>
        requires open { IsSome self.old.graph.was }
        requires there { IsSome (node_at id self.old.graph.now) }
        ensures ok { OnOk result (self.new ≡ record self.old { graph = record self.old.graph { now = with_node_changed id (without_label label.now) self.old.graph.now } }) }
        ensures fault { IfErr result (λ fault. fault ≡ GraphFault.NoMemory) }
        ensures err { OnErr result (self.new ≡ self.old) }
    {
        let alloc = self.postings.allocator();
        let name = Text::from_str(alloc, label)?;
        let leaving = self.keys_of_label(id, &name)?;
        let mark = self.postings.mark();
        let none = Vec::new(alloc);
        self.postings.replace(&leaving, none, id.0)?;
        let done = self.graph.drop_label(id, label);
        undo_if_refused(&mut self.postings, mark, &done);
        done
    }

    /// Removes a relationship. Its number is not used again. Fails only when out of memory.
    pub fn remove_rel(&mut self, id: RelId) -> Result<(), GraphFault>
        requires open { IsSome self.old.graph.was }
        requires there { IsSome (rel_at id self.old.graph.now) }
        ensures ok { OnOk result (self.new ≡ record self.old { graph = record self.old.graph { now = without_rel id self.old.graph.now } }) }
        ensures fault { IfErr result (λ fault. fault ≡ GraphFault.NoMemory) }
        ensures err { OnErr result (self.new ≡ self.old) }
    {
        self.graph.remove_rel(id)
    }

    /// Removes a node. Its number is not used again. `StillConnected` with the least relationship at it, where there is
    /// one; else it fails only when out of memory.
    pub fn remove_node(&mut self, id: NodeId) -> Result<(), GraphFault>
        requires open { IsSome self.old.graph.was }
        requires there { IsSome (node_at id self.old.graph.now) }
        ensures ok { OnOk result (self.new ≡ record self.old { graph = record self.old.graph { now = without_node id self.old.graph.now } }) }
        ensures connected { (rel : RelId) → IsErrOf result (GraphFault.StillConnected rel) ↔ (slice_get (rels_with id self.old.graph.now.content.rels) 0 ≡ Some rel) }
        ensures fault { IfErr result (λ fault. ((rel : RelId) × (fault ≡ GraphFault.StillConnected rel)) ⊎ (fault ≡ GraphFault.NoMemory)) }
        ensures err { OnErr result (self.new ≡ self.old) }
    {
        if let Some(rel) = self.graph.least_rel(id) {
            return Err(GraphFault::StillConnected(rel));
        }
        let leaving = self.keys_of(id)?;
        let mark = self.postings.mark();
        let none = Vec::new(self.postings.allocator());
        self.postings.replace(&leaving, none, id.0)?;
        let done = self.graph.remove_node(id);
        undo_if_refused(&mut self.postings, mark, &done);
        done
    }

    // The keys that a node leaves, and those under which it comes, where the property at a key becomes this one.
    fn changed_keys(
        &self,
        id: NodeId,
        key: &str,
        value: Option<&Value>,
    ) -> Result<(Vec<Key>, Vec<Key>), Fault>
        ensures { IfOk result (λ keys. Turns self.now.chosen (node_at id self.now.graph.now) (option_map (set_at key.now (option_copied value.entry)) (node_at id self.now.graph.now)) keys.0.items keys.1.items) }
    {
        let alloc = self.postings.allocator();
        let Some(node) = self.graph.node(id) else {
            return Ok((Vec::new(alloc), Vec::new(alloc)));
        };
        let stored = node.props.get(key);
        if stored == value {
            return Ok((Vec::new(alloc), Vec::new(alloc)));
        }
        let leaving = value_keys(alloc, &self.chosen, &node.labels, key, stored)?;
        let coming = value_keys(alloc, &self.chosen, &node.labels, key, value)?;
        Ok((leaving, coming))
    }

    // The keys under which a node stands by a label, once it has it.
    fn keys_of_label(&self, id: NodeId, label: &Text) -> Result<Vec<Key>, Fault>
        ensures come { IfOk result (λ keys. Turns self.now.chosen (node_at id self.now.graph.now) (option_map (with_label label.now) (node_at id self.now.graph.now)) [] keys.items) }
        ensures go { IfOk result (λ keys. Turns self.now.chosen (node_at id self.now.graph.now) (option_map (without_label label.now) (node_at id self.now.graph.now)) keys.items []) }
    {
        let alloc = self.postings.allocator();
        match self.graph.node(id) {
            Some(node) => label_keys(alloc, &self.chosen, label, &node.props),
            None => Ok(Vec::new(alloc)),
        }
    }

    // The keys under which a node stands.
    fn keys_of(&self, id: NodeId) -> Result<Vec<Key>, Fault>
        ensures { IfOk result (λ keys. Turns self.now.chosen (node_at id self.now.graph.now) None keys.items []) }
    {
        let alloc = self.postings.allocator();
        match self.graph.node(id) {
            Some(node) => node_keys(alloc, &self.chosen, &node.labels, &node.props),
            None => Ok(Vec::new(alloc)),
        }
    }
}

// Takes back what was done for a call of the graph, if the call was refused.
fn undo_if_refused<T>(postings: &mut Postings<Key>, mark: usize, done: &Result<T, GraphFault>)
    requires { mark < length postings.old }
    ensures ok { OnOk done.now (postings.new ≡ postings.old) }
    ensures err { OnErr done.now (postings.new ≡ drop (length postings.old - (mark + 1)) postings.old) }
{
    if done.is_err() {
        postings.undo_to(mark);
    }
}
