//! The touched entities of a change, one after another.

ghost use Rattle.std.specs.Prelude.{◌≡◌, map};
ghost use Rattle.std.specs.Iterator.{item_count, YieldsFirstBy};
ghost use Rattle.std.specs.Option.{option_copied};
ghost use Rattle.cy_network_sources.specs.internal.Sources.{none_was, nodes_left, rels_left};

use cy_graph::{Node, Nodes, Rel, Rels};
use indexmap::map;
use std::marker::Model;

/// The nodes that are still to be given.
#[derive(Drop)]
pub(crate) enum NodesLeft<'c, 'a> {
    /// Those that were noted, with the values that they had.
    Noted(map::Iter<'c, u64, Option<&'a Node>>),
    /// Those of a store, none of which was there.
    All(Nodes<'c>),
}

/// The touched nodes, each with its number and with the value that it had, if it was there.
#[derive(Drop)]
pub struct TouchedNodes<'c, 'a> {
    left: NodesLeft<'c, 'a>,
}

impl<'c, 'a> Model for TouchedNodes<'c, 'a> {
    ghost use Rattle.std.specs.Prelude.{List, Option, ℕ};
    ghost use Rattle.cy_graph.specs.declared.nodes.Node.{Node};

    ghost Value = { List (ℕ × Option Node) };

    ghost use Rattle.cy_network_sources.specs.internal.Sources.{nodes_left};

    ghost view = { λ t. nodes_left t.left };
}

impl<'c, 'a> TouchedNodes<'c, 'a> {
    pub(crate) fn new(left: NodesLeft<'c, 'a>) -> Self
        ensures { result ≡ nodes_left left.entry }
    {
        TouchedNodes { left }
    }
}

impl<'c, 'a> Iterator for TouchedNodes<'c, 'a> {
    type Item = (u64, Option<&'a Node>);

    ghost next_gives = { YieldsFirstBy (λ p. (p.0, option_copied p.1)) (λ t. t) };

    ghost remaining = { item_count (λ t. t) };

    fn next(&mut self) -> Option<(u64, Option<&'a Node>)> {
        match &mut self.left {
            NodesLeft::Noted(entries) => {
                let (number, was) = entries.next()?;
                Some((*number, *was))
            }
            NodesLeft::All(nodes) => {
                let (id, _) = nodes.next()?;
                Some((id.0, None))
            }
        }
    }
}

/// The relationships that are still to be given.
#[derive(Drop)]
pub(crate) enum RelsLeft<'c, 'a> {
    /// Those that were noted, with the values that they had.
    Noted(map::Iter<'c, u64, Option<&'a Rel>>),
    /// Those of a store, none of which was there.
    All(Rels<'c>),
}

/// The touched relationships, each with its number and with the value that it had, if it was there.
#[derive(Drop)]
pub struct TouchedRels<'c, 'a> {
    left: RelsLeft<'c, 'a>,
}

impl<'c, 'a> Model for TouchedRels<'c, 'a> {
    ghost use Rattle.std.specs.Prelude.{List, Option, ℕ};
    ghost use Rattle.cy_graph.specs.declared.nodes.Rel.{Rel};

    ghost Value = { List (ℕ × Option Rel) };

    ghost use Rattle.cy_network_sources.specs.internal.Sources.{rels_left};

    ghost view = { λ t. rels_left t.left };
}

impl<'c, 'a> TouchedRels<'c, 'a> {
    pub(crate) fn new(left: RelsLeft<'c, 'a>) -> Self
        ensures { result ≡ rels_left left.entry }
    {
        TouchedRels { left }
    }
}

impl<'c, 'a> Iterator for TouchedRels<'c, 'a> {
    type Item = (u64, Option<&'a Rel>);

    ghost next_gives = { YieldsFirstBy (λ p. (p.0, option_copied p.1)) (λ t. t) };

    ghost remaining = { item_count (λ t. t) };

    fn next(&mut self) -> Option<(u64, Option<&'a Rel>)> {
        match &mut self.left {
            RelsLeft::Noted(entries) => {
                let (number, was) = entries.next()?;
                Some((*number, *was))
            }
            RelsLeft::All(rels) => {
                let (id, _) = rels.next()?;
                Some((id.0, None))
            }
        }
    }
}
