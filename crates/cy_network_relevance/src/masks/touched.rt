//! What a change touched.

ghost use Rattle.std.specs.Prelude.{◌≡◌};
ghost use Rattle.cy_network_relevance.specs.Masks.{with_nodes, with_rels};
ghost use Rattle.cy_network_relevance.specs.NameBits.{no_bits};

use crate::masks::bits::{Bits, NONE};
use crate::masks::name_bits::{node_bits, rel_bits};
use cy_index::Sight;
use cy_network_sources::GraphChange;
use cy_values::{NodeId, RelId};

/// The bits of the touched nodes, as they were and as they are. Reads each once.
pub(crate) fn touched_nodes<'a>(change: &GraphChange<'a>, sight: &mut Sight<'a>) -> Bits
    ensures bits { result ≡ with_nodes sight.old.graph.now no_bits change.now.nodes }
    ensures graph { sight.new.graph ≡ sight.old.graph }
{
    let mut bits = NONE;
    for (number, was) in change.nodes() {
        let now = sight.node(NodeId(number));
        let old = node_bits(was);
        let new = node_bits(now);
        let before = bits.with(old);
        bits = before.with(new);
    }
    bits
}

/// The bits of the touched relationships, as they were and as they are. Reads each once.
pub(crate) fn touched_rels<'a>(change: &GraphChange<'a>, sight: &mut Sight<'a>) -> Bits
    ensures bits { result ≡ with_rels sight.old.graph.now no_bits change.now.rels }
    ensures graph { sight.new.graph ≡ sight.old.graph }
{
    let mut bits = NONE;
    for (number, was) in change.rels() {
        let now = sight.rel(RelId(number));
        let old = rel_bits(was);
        let new = rel_bits(now);
        let before = bits.with(old);
        bits = before.with(new);
    }
    bits
}
