//! A store, as expressions read it.

ghost use Rattle.std.specs.Prelude.{◌≡◌, IfOk, IsTrue, map};
ghost use Rattle.cy_values.specs.declared.scalars.Scalar.TheVariants as scalar;
ghost use Rattle.cy_expr.specs.Graphs as graphs;
ghost use Rattle.cy_expr.specs.Lookups.{names_rise};

use crate::lookups::Lookups;
use cy_graph::Node;
use cy_index::Store;
use cy_values::{Duplicate, Entity, Fault, NodeId, RelId, Scalar, Value};
use std::alloc::Global;

impl Lookups for Store {
    ghost lookups = { λ s. graphs.lookups s.graph.now.content };

    fn property(&self, entity: Entity, key: &str) -> Option<&Value> {
        match entity {
            Entity::Node(id) => self.node(id)?.props.get(key),
            Entity::Rel(id) => self.rel(id)?.props.get(key),
        }
    }

    fn has_label(&self, node: NodeId, label: &str) -> bool {
        match self.node(node) {
            Some(node) => node.labels.get(label).is_some(),
            None => false,
        }
    }

    fn labels(&self, alloc: Global, node: NodeId) -> Result<Vec<Scalar>, Fault> {
        match self.node(node) {
            Some(node) => labels_of(alloc, node),
            None => Ok(Vec::new(alloc)),
        }
    }

    fn type_of(&self, rel: RelId) -> &str {
        match self.rel(rel) {
            Some(rel) => rel.kind.as_str(),
            None => "",
        }
    }
}

// The labels of a node, as the elements of a list.
#[tactic(auto, using(crate::proofs::LabelNames::labels_rise))]
fn labels_of(alloc: Global, node: &Node) -> Result<Vec<Scalar>, Fault>
    ensures rising { IsTrue (names_rise (map (λ l. l.0) node.now.labels)) }
    ensures all { IfOk result (λ labels. labels.items ≡ map (λ l. scalar.Text l) (map (λ l. l.0) node.now.labels)) }
{
    let entries = node.labels.entries();
    let mut labels = Vec::with_capacity(alloc, entries.len())?;
    for entry in entries {
        labels.push(Scalar::Text(entry.0.copy(alloc)?))?;
    }
    Ok(labels)
}
