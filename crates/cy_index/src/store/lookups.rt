//! The look-ups of a store.

ghost use Rattle.std.specs.Prelude.{◌≡◌, false, IfOk, position};
ghost use Rattle.std.specs.List.{list_any};
ghost use Rattle.std.specs.Option.{option_map_or};
ghost use Rattle.std.specs.Str.{bytes_eq};
ghost use Rattle.cy_graph.specs.Graph.{node_at};
ghost use Rattle.cy_index.specs.Index.{nodes_where, labelled_nodes, found_nodes, has_value, is_pair, has_pair};
ghost use Rattle.cy_index.specs.internal.Under.{is_key_of};

use crate::keys::Key;
use crate::store::Store;
use cy_values::{Duplicate, Fault, NodeId, Text, Truth, Value, equal3};
use std::alloc::Global;

impl Store {
    /// The nodes with a label, by rising number. Fails only when out of memory.
    pub fn labelled(&self, alloc: Global, label: &str) -> Result<Vec<NodeId>, Fault>
        ensures { IfOk result (λ nodes. nodes.items ≡ labelled_nodes label.now self.now.graph.now.content) }
    {
        self.nodes_at(alloc, &Key::Label(Text::from_str(alloc, label)?))
    }

    /// The nodes with a label whose property at a key is equal to a value, by rising number, whether or not there is an
    /// index for them. Fails only when out of memory.
    pub fn find(
        &self,
        alloc: Global,
        label: &str,
        key: &str,
        value: &Value,
    ) -> Result<Vec<NodeId>, Fault>
        ensures { IfOk result (λ nodes. nodes.items ≡ found_nodes label.now key.now value.now self.now.graph.now.content) }
    {
        self.laws();
        match self.place_of(label, key) {
            Some(place) => self.nodes_at(alloc, &Key::Prop(place, value.copy(alloc)?)),
            None => self.find_by_label(alloc, label, key, value),
        }
    }

    /// Whether there is an index for a label and a key.
    pub fn has_index(&self, label: &str, key: &str) -> bool
        ensures { result ≡ has_pair label.now key.now self.now.chosen }
    {
        self.place_of(label, key).is_some()
    }

    // Whether there is an index of the values at a key, for any label.
    pub(super) fn has_index_at(&self, key: &str) -> bool
        ensures { result ≡ list_any (λ pair. bytes_eq pair.key key.now) self.now.chosen }
    {
        self.chosen.iter().any(|pair| pair.key.as_str() == key)
    }

    // The place of the index for a label and a key among the chosen ones.
    fn place_of(&self, label: &str, key: &str) -> Option<usize>
        ensures { result ≡ position (is_pair label.now key.now) self.now.chosen }
    {
        self.chosen.iter().position(|pair| pair.is_for(label, key))
    }

    // The nodes under a key of the indexes.
    fn nodes_at(&self, alloc: Global, key: &Key) -> Result<Vec<NodeId>, Fault>
        ensures { IfOk result (λ nodes. nodes.items ≡ nodes_where (λ node. is_key_of self.now.chosen node.labels node.props key.now) self.now.graph.now.content) }
    {
        self.graph.laws();
        self.postings.ids(alloc, key)
    }

    // What `find` finds, by reading the nodes with the label.
    fn find_by_label(
        &self,
        alloc: Global,
        label: &str,
        key: &str,
        value: &Value,
    ) -> Result<Vec<NodeId>, Fault>
        ensures { IfOk result (λ nodes. nodes.items ≡ found_nodes label.now key.now value.now self.now.graph.now.content) }
    {
        self.laws();
        let mut nodes = self.labelled(alloc, label)?;
        nodes.retain(|id| self.has_value(*id, key, value));
        Ok(nodes)
    }

    // Whether the property of a node is equal to a value.
    fn has_value(&self, id: NodeId, key: &str, value: &Value) -> bool
        ensures { result ≡ option_map_or (has_value key.now value.now) (node_at id self.now.graph.now) false }
    {
        match self.graph.node(id) {
            Some(node) => match node.props.get(key) {
                Some(stored) => equal3(stored, value) == Truth::Yes,
                None => false,
            },
            None => false,
        }
    }
}
