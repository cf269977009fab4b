//! Whether a change is relevant to a plan.

ghost use Rattle.std.specs.Prelude.{◌≡◌, ◌≤◌, ◌+◌, false, length};
ghost use Rattle.std.specs.List.{All};
ghost use Rattle.cy_graph.specs.Graph.{State, node_at, rel_at};
ghost use Rattle.cy_planner_algebra.specs.PlanModels.{plan_of};
ghost use Rattle.cy_network_sources.specs.Changes.{IsChange};
ghost use Rattle.cy_network_sources.specs.Work as work;
ghost use Rattle.cy_network_sources.specs.Work.{asked_reads};
ghost use Rattle.cy_network_relevance.specs.Relevance.{IsUntouched};
ghost use Rattle.cy_network_relevance.specs.internal.Kept.{IsNodeUnchanged, IsRelUnchanged};

use crate::entities::Entity;
use crate::parts::is_unchanged;
use cy_index::Sight;
use cy_network_sources::GraphChange;
use cy_planner_algebra::{Below, Operator};
use cy_values::{NodeId, RelId};

/// Whether a change of the graph is relevant to a plan. Where it says no, the rows of its operators are the same before and after. It reads each
/// touched entity once at most, and allocates nothing.
pub fn is_relevant<'a>(part: &Operator, change: &GraphChange<'a>, sight: &mut Sight<'a>) -> bool
    ensures untouched { result ≡ false → (before : State) → IsChange before sight.old.graph.now change.now → IsUntouched before.content sight.old.graph.now.content (plan_of part.now) }
    ensures graph { sight.new.graph ≡ sight.old.graph }
    ensures reads { sight.new.reads ≤ sight.old.reads + asked_reads change.now (plan_of part.now) }
{
    if !looks_at_graph(part) {
        return true;
    }
    if changes_by_nodes(part, change, sight) {
        return true;
    }
    changes_by_rels(part, change, sight)
}

// Whether some operator of a plan looks at the graph.
fn looks_at_graph(part: &Operator) -> bool
    ensures { result ≡ work.looks_at_graph (plan_of part.now) }
{
    let mut part = part;
    loop {
        match part {
            Operator::Nodes | Operator::Rels(_, _) | Operator::Lookup(_, _, _) => return true,
            _ => match part.below() {
                Below::None => return false,
                Below::One(below) => part = below,
                Below::Two(left, right) => {
                    if looks_at_graph(left) {
                        return true;
                    }
                    part = right;
                }
            },
        }
    }
}

// Whether a touched node may change the rows of an operator. Reads each touched node once at most.
fn changes_by_nodes<'a>(part: &Operator, change: &GraphChange<'a>, sight: &mut Sight<'a>) -> bool
    ensures unchanged { result ≡ false → All (λ e. IsNodeUnchanged e.1 (node_at (record { 0 = e.0 }) sight.old.graph.now) (plan_of part.now)) change.now.nodes }
    ensures graph { sight.new.graph ≡ sight.old.graph }
    ensures reads { sight.new.reads ≤ sight.old.reads + length change.now.nodes }
{
    for (number, was) in change.nodes() {
        let now = sight.node(NodeId(number));
        if !is_unchanged(part, &Entity::Node(was, now)) {
            return true;
        }
    }
    false
}

// Whether a touched relationship may change the rows of an operator. Reads each touched relationship once at most.
fn changes_by_rels<'a>(part: &Operator, change: &GraphChange<'a>, sight: &mut Sight<'a>) -> bool
    ensures unchanged { result ≡ false → All (λ e. IsRelUnchanged e.1 (rel_at (record { 0 = e.0 }) sight.old.graph.now) (plan_of part.now)) change.now.rels }
    ensures graph { sight.new.graph ≡ sight.old.graph }
    ensures reads { sight.new.reads ≤ sight.old.reads + length change.now.rels }
{
    for (number, was) in change.rels() {
        let now = sight.rel(RelId(number));
        if !is_unchanged(part, &Entity::Rel(was, now)) {
            return true;
        }
    }
    false
}
