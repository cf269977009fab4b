//! Indexes are chosen.

ghost use Rattle.std.specs.Prelude.{◌≡◌, ◌↔◌, ◌++◌, ◌||◌, [], ◌∷◌, ℕ, IsTrue, IsNone, IsErrOf, OnOk, OnErr};
ghost use Rattle.std.specs.Option.{option_copied};
ghost use Rattle.cy_graph.specs.Graph.{IsGraph};
ghost use Rattle.cy_index.specs.Index.{has_pair};
ghost use Rattle.cy_index.specs.declared.keys.Key.{Key};
ghost use Rattle.cy_index.specs.internal.Indexed.{Fills, value_of};
ghost use Rattle.cy_index.specs.internal.Postings.{Goes, latest};

use crate::faults::IndexFault;
use crate::keys::{Key, Pair};
use crate::postings::Postings;
use crate::store::Store;
use cy_graph::{Graph, Node};
use cy_values::{Duplicate, Fault, Text, Value};

impl Store {
    /// Adds an index for a label and a key. `IndexThere` where there is one; else it fails only when out of memory.
    pub fn add_index(&mut self, label: Text, key: Text) -> Result<(), IndexFault>
        requires { IsNone self.old.graph.was }
        ensures ok { OnOk result (self.new ≡ record self.old { chosen = self.old.chosen ++ (record { label = label; key = key }) ∷ [] }) }
        ensures there { IsErrOf result IndexFault.IndexThere ↔ IsTrue (has_pair label key self.old.chosen) }
        ensures err { OnErr result (self.new ≡ self.old) }
    {
        if self.has_index(label.as_str(), key.as_str()) {
            return Err(IndexFault::IndexThere);
        }
        self.chosen.reserve(1)?;
        let pair = Pair { label, key };
        let mark = self.postings.mark();
        if fill(&self.graph, &mut self.postings, self.chosen.len(), &pair).is_err() {
            self.postings.undo_to(mark);
            return Err(IndexFault::NoMemory);
        }
        self.postings.commit();
        self.chosen.push_reserved(pair);
        Ok(())
    }
}

// Puts the nodes of a graph into the new index at this place. Fails only when out of memory, and then some are in it.
fn fill(graph: &Graph, postings: &mut Postings<Key>, place: usize, pair: &Pair) -> Result<(), Fault>
    ensures ok { OnOk result (Fills place pair.now graph.now.now.content.nodes (latest postings.old) (latest postings.new)) }
    ensures goes { Goes postings.old postings.new }
    ensures graph { IsGraph graph.now.now }
{
    let alloc = postings.allocator();
    for (id, node) in graph.nodes() {
        if let Some(value) = value_at(node, pair) {
            postings.add(Key::Prop(place, value.copy(alloc)?), id.0)?;
        }
    }
    Ok(())
}

// The value of a node in the index for this label and key, if it stands there.
fn value_at<'a>(node: &'a Node, pair: &Pair) -> Option<&'a Value>
    ensures { option_copied result ≡ value_of pair.now node.now }
{
    node.labels.get(pair.label.as_str())?;
    node.props.get(pair.key.as_str())
}
