//! Nodes and relationships.

ghost use Rattle.std.specs.Prelude.{◌≡◌, IsTrue};
ghost use Rattle.cy_graph.specs.Maps.{rises};

use crate::maps::TextMap;
use cy_values::{Duplicate, Fault, NodeId, Text, Value};
use std::alloc::Global;

/// A set of labels, by rising bytes: a map with unit values.
pub type Labels = TextMap<()>;

/// The properties of a node or a relationship, by rising key.
pub type Props = TextMap<Value>;

/// A node: its labels and its properties.
#[derive(Debug, Drop, PartialEq, Eq)]
pub struct Node {
    pub labels: Labels,
    pub props: Props,
}

impl Node {
    pub(crate) fn new(labels: Labels, props: Props) -> Self
        ensures node { result ≡ record { labels = labels; props = props } }
        ensures labels_rise { IsTrue (rises labels) }
        ensures props_rise { IsTrue (rises props) }
    {
        let (_labels, _props) = (labels.entries(), props.entries());
        Node { labels, props }
    }
}

impl Duplicate for Node {
    fn copy(&self, alloc: Global) -> Result<Self, Fault> {
        Ok(Node {
            labels: self.labels.copy(alloc)?,
            props: self.props.copy(alloc)?,
        })
    }
}

/// A relationship: the nodes at its ends, its type and its properties.
#[derive(Debug, Drop, PartialEq, Eq)]
pub struct Rel {
    pub source: NodeId,
    pub target: NodeId,
    pub kind: Text,
    pub props: Props,
}

impl Rel {
    pub(crate) fn new(source: NodeId, target: NodeId, kind: Text, props: Props) -> Self
        ensures rel { result ≡ record { source = source; target = target; kind = kind; props = props } }
        ensures props_rise { IsTrue (rises props) }
    {
        let _props = props.entries();
        Rel {
            source,
            target,
            kind,
            props,
        }
    }
}

impl Duplicate for Rel {
    fn copy(&self, alloc: Global) -> Result<Self, Fault> {
        Ok(Rel {
            source: self.source,
            target: self.target,
            kind: self.kind.copy(alloc)?,
            props: self.props.copy(alloc)?,
        })
    }
}
