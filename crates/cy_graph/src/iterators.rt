//! Iterators over the nodes and the relationships of a graph.

ghost use Rattle.std.specs.Prelude.{◌≡◌};
ghost use Rattle.std.specs.Iterator.{item_count, YieldsFirstBy};
ghost use Rattle.cy_graph.specs.Model.{nodes_of, rels_of};
ghost use Rattle.cy_graph.specs.internal.Listed.{listed};
ghost use Rattle.cy_graph.specs.internal.Slots.{live};

use crate::nodes::{Node, Rel};
use crate::series::Series;
use cy_values::{NodeId, RelId};
use indexmap::map;
use std::marker::Model;
use std::slice;

/// The values of a series with their numbers, by rising number.
#[derive(Drop)]
pub(crate) struct Values<'a, V> {
    slots: map::Iter<'a, u64, Option<V>>,
}

impl<'a, V> Model for Values<'a, V> {
    ghost use Rattle.std.specs.Prelude.{List, ℕ};

    ghost Value = { List (ℕ × V) };

    ghost use Rattle.cy_graph.specs.internal.Slots.{live};

    ghost view = { λ v. live v.slots };
}

impl<'a, V> Values<'a, V> {
    pub(crate) fn new(slots: map::Iter<'a, u64, Option<V>>) -> Self
        ensures { result ≡ live slots.entry }
    {
        Values { slots }
    }
}

impl<'a, V> Iterator for Values<'a, V> {
    type Item = (u64, &'a V);

    ghost next_gives = { YieldsFirstBy (λ p. (p.0, p.1.now)) (λ v. v) };

    ghost remaining = { item_count (λ v. v) };

    fn next(&mut self) -> Option<(u64, &'a V)> {
        while let Some((number, slot)) = self.slots.next() {
            if let Some(value) = slot {
                return Some((*number, value));
            }
        }
        None
    }
}

/// The nodes of a graph with their numbers, by rising number.
#[derive(Drop)]
pub struct Nodes<'a> {
    values: Values<'a, Node>,
}

impl<'a> Model for Nodes<'a> {
    ghost use Rattle.std.specs.Prelude.{List};
    ghost use Rattle.cy_values.specs.declared.numbers.NodeId.{NodeId};
    ghost use Rattle.cy_graph.specs.declared.nodes.Node.{Node};

    ghost Value = { List (NodeId × Node) };

    ghost use Rattle.cy_graph.specs.Model.{nodes_of};

    ghost view = { λ n. nodes_of n.values };
}

impl<'a> Nodes<'a> {
    pub(crate) fn new(values: Values<'a, Node>) -> Self
        ensures { result ≡ nodes_of values.entry }
    {
        Nodes { values }
    }
}

impl<'a> Iterator for Nodes<'a> {
    type Item = (NodeId, &'a Node);

    ghost next_gives = { YieldsFirstBy (λ p. (p.0, p.1.now)) (λ n. n) };

    ghost remaining = { item_count (λ n. n) };

    fn next(&mut self) -> Option<(NodeId, &'a Node)> {
        let (number, node) = self.values.next()?;
        Some((NodeId(number), node))
    }
}

/// The relationships of a graph with their numbers, by rising number.
#[derive(Drop)]
pub struct Rels<'a> {
    values: Values<'a, Rel>,
}

impl<'a> Model for Rels<'a> {
    ghost use Rattle.std.specs.Prelude.{List};
    ghost use Rattle.cy_values.specs.declared.numbers.RelId.{RelId};
    ghost use Rattle.cy_graph.specs.declared.nodes.Rel.{Rel};

    ghost Value = { List (RelId × Rel) };

    ghost use Rattle.cy_graph.specs.Model.{rels_of};

    ghost view = { λ r. rels_of r.values };
}

impl<'a> Rels<'a> {
    pub(crate) fn new(values: Values<'a, Rel>) -> Self
        ensures { result ≡ rels_of values.entry }
    {
        Rels { values }
    }
}

impl<'a> Iterator for Rels<'a> {
    type Item = (RelId, &'a Rel);

    ghost next_gives = { YieldsFirstBy (λ p. (p.0, p.1.now)) (λ r. r) };

    ghost remaining = { item_count (λ r. r) };

    fn next(&mut self) -> Option<(RelId, &'a Rel)> {
        let (number, rel) = self.values.next()?;
        Some((RelId(number), rel))
    }
}

/// The relationships that lead from a node, or that lead to it, with their numbers, by rising number.
#[derive(Drop)]
pub struct RelsAt<'a> {
    /// Their numbers, with some that were removed.
    ids: slice::Iter<'a, RelId>,
    rels: &'a Series<Rel>,
}

impl<'a> Model for RelsAt<'a> {
    ghost use Rattle.std.specs.Prelude.{List};
    ghost use Rattle.cy_values.specs.declared.numbers.RelId.{RelId};
    ghost use Rattle.cy_graph.specs.declared.nodes.Rel.{Rel};

    ghost Value = { List (RelId × Rel) };

    ghost use Rattle.cy_graph.specs.internal.Listed.{listed};

    ghost view = { λ r. listed r.rels.now.now.entries r.ids.rest.now };
}

impl<'a> RelsAt<'a> {
    pub(crate) fn new(ids: &'a [RelId], rels: &'a Series<Rel>) -> Self
        ensures { result ≡ listed rels.now.now.entries ids.now }
    {
        RelsAt {
            ids: ids.iter(),
            rels,
        }
    }
}

impl<'a> Iterator for RelsAt<'a> {
    type Item = (RelId, &'a Rel);

    ghost next_gives = { YieldsFirstBy (λ p. (p.0, p.1.now)) (λ r. r) };

    ghost remaining = { item_count (λ r. r) };

    fn next(&mut self) -> Option<(RelId, &'a Rel)> {
        while let Some(id) = self.ids.next() {
            if let Some(rel) = self.rels.get(id.0) {
                return Some((*id, rel));
            }
        }
        None
    }
}
