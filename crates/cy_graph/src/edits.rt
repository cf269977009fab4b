//! Edits of a node or a relationship.

ghost use Rattle.std.specs.Prelude.{◌≡◌, OnOk, OnErr, IsTrue, not};
ghost use Rattle.cy_graph.specs.Graph.{set_at, rel_set_at, set_or_removed, with_label, without_label};

use crate::nodes::{Node, Props, Rel};
use crate::series::Edit;
use cy_values::{Fault, Text, Value};

/// A property is set at a key, or removed where no value is given.
#[derive(Drop)]
pub(crate) struct SetProp {
    pub key: Text,
    pub value: Option<Value>,
}

impl SetProp {
    // Whether these properties would change.
    fn changes_props(&self, props: &Props) -> bool
        ensures { IsTrue (not result) → set_or_removed self.now.key self.now.value props.now ≡ props.now }
    {
        let _rising = props.entries();
        props.get(self.key.as_str()) != self.value.as_ref()
    }

    fn apply_to(self, props: &mut Props) -> Result<(), Fault>
        ensures ok { OnOk result (props.new ≡ set_or_removed self.key self.value props.old) }
        ensures err { OnErr result (props.new ≡ props.old) }
    {
        let SetProp { key, value } = self;
        match value {
            Some(value) => props.insert(key, value),
            None => {
                props.remove(key.as_str());
                Ok(())
            }
        }
    }
}

impl Edit<Node> for SetProp {
    ghost edited = { λ s node. set_at s.key s.value node };

    fn changes(&self, node: &Node) -> bool {
        self.changes_props(&node.props)
    }

    fn apply(self, node: &mut Node) -> Result<(), Fault> {
        self.apply_to(&mut node.props)
    }
}

impl Edit<Rel> for SetProp {
    ghost edited = { λ s rel. rel_set_at s.key s.value rel };

    fn changes(&self, rel: &Rel) -> bool {
        self.changes_props(&rel.props)
    }

    fn apply(self, rel: &mut Rel) -> Result<(), Fault> {
        self.apply_to(&mut rel.props)
    }
}

/// A label is added.
#[derive(Drop)]
pub(crate) struct AddLabel(pub Text);

impl Edit<Node> for AddLabel {
    ghost edited = { λ l node. with_label l.0 node };

    fn changes(&self, node: &Node) -> bool {
        let _rising = node.labels.entries();
        node.labels.get(self.0.as_str()).is_none()
    }

    fn apply(self, node: &mut Node) -> Result<(), Fault> {
        node.labels.insert(self.0, ())
    }
}

/// A label is dropped.
#[derive(Drop)]
pub(crate) struct DropLabel<'a>(pub &'a str);

impl<'a> Edit<Node> for DropLabel<'a> {
    ghost edited = { λ l node. without_label l.0.now node };

    fn changes(&self, node: &Node) -> bool {
        let _rising = node.labels.entries();
        node.labels.get(self.0).is_some()
    }

    fn apply(self, node: &mut Node) -> Result<(), Fault> {
        node.labels.remove(self.0);
        Ok(())
    }
}
