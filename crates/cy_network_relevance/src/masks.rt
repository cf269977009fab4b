//! Masks, and when two have nothing in common.

mod attributes;
mod bits;
mod conditions;
mod limits;
mod name_bits;
mod plans;
mod touched;

ghost use Rattle.std.specs.Prelude.{◌≡◌, false};
ghost use Rattle.cy_planner_algebra.specs.PlanModels.{plan_of};
ghost use Rattle.cy_network_relevance.specs.Masks as spec;
ghost use Rattle.cy_network_relevance.specs.Masks.{AreApart, Covers, mask_of};

use crate::masks::bits::Bits;
use crate::masks::plans::plan_mask;
use crate::masks::touched::{touched_nodes, touched_rels};
use cy_index::Sight;
use cy_network_sources::GraphChange;
use cy_planner_algebra::Operator;

/// The bits of what a plan reads, or of what a change touched. A name has one bit in each of two words, either of which it may share with others.
#[derive(Clone, Copy, Debug, PartialEq, Eq)]
pub struct Mask {
    /// The lowest bits for nodes, the others for their labels.
    nodes: Bits,
    /// The lowest bits for relationships, the others for their types.
    rels: Bits,
}

impl Mask {
    /// What a plan reads. A change that has nothing in common with it leaves the rows of the plan's operators as they are. Each operator is gone
    /// through a few times at most.
    pub fn of_plan(part: &Operator) -> Mask
        ensures { Covers result (plan_of part.now) }
    {
        plan_mask(part)
    }

    /// What the open change touched. Reads each touched entity once.
    pub fn of_change<'a>(change: &GraphChange<'a>, sight: &mut Sight<'a>) -> Mask
        ensures mask { result ≡ mask_of sight.old.graph.now change.now }
        ensures graph { sight.new.graph ≡ sight.old.graph }
    {
        let nodes = touched_nodes(change, sight);
        let rels = touched_rels(change, sight);
        Mask { nodes, rels }
    }

    /// Whether two have bits in common in both words of nodes, or in both of relationships.
    pub fn meets(self, other: Mask) -> bool
        ensures apart { result ≡ false → AreApart self other }
        ensures met { AreApart self other → result ≡ false }
    {
        self.nodes.meets(other.nodes) || self.rels.meets(other.rels)
    }

    /// The bits of both.
    pub fn with(self, other: Mask) -> Mask
        ensures { result ≡ spec.joined self other }
    {
        Mask {
            nodes: self.nodes.with(other.nodes),
            rels: self.rels.with(other.rels),
        }
    }
}
