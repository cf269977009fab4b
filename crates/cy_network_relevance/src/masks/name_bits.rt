//! The bits of names, and of what has names.

ghost use Rattle.std.specs.Prelude.{◌≡◌, ◌<◌, map};
ghost use Rattle.std.specs.Option.{option_copied};
ghost use Rattle.cy_network_relevance.specs.NameBits as spec;

use crate::masks::bits::{Bits, LOWEST, NONE};
use cy_graph::{Node, Rel};
use cy_values::Text;

/// The places of a word that are above the lowest.
const PLACES: u64 = 63;

/// The bits of a name: one in each word.
pub(crate) fn name_bits(name: &Text) -> Bits
    ensures { result ≡ spec.name_bits name.now }
{
    let sum = name_sum(name.as_str());
    Bits {
        first: place_bit(sum % PLACES),
        second: place_bit(sum / PLACES % PLACES),
    }
}

// The bit at one of the places above the lowest.
#[tactic(auto, using(crate::proofs::NameBits::one_bit))]
fn place_bit(place: u64) -> u64
    requires { place < 63 }
    ensures { result ≡ spec.place_bit place }
{
    1 << (place + 1)
}

// The hash of a name, which gives it its bits.
fn name_sum(name: &str) -> u64
    ensures { result ≡ spec.name_sum 0 name.now }
{
    let mut sum = 0;
    for byte in name.as_bytes() {
        sum = (sum * 65_599 + u64::from(*byte)) % 4_294_967_296;
    }
    sum
}

/// Some bits, and those of names.
pub(crate) fn with_names(bits: Bits, names: &[Text]) -> Bits
    ensures { result ≡ spec.with_names bits names.now }
{
    let mut bits = bits;
    for name in names {
        bits = bits.with(name_bits(name));
    }
    bits
}

/// The bits of a node, if it is there.
pub(crate) fn node_bits(node: Option<&Node>) -> Bits
    ensures { result ≡ spec.node_bits (option_copied node.entry) }
{
    match node {
        Some(node) => with_labels(LOWEST, node.labels.entries()),
        None => NONE,
    }
}

// Some bits, and those of labels.
fn with_labels(bits: Bits, labels: &[(Text, ())]) -> Bits
    ensures { result ≡ spec.with_names bits (map (λ l. l.0) labels.now) }
{
    let mut bits = bits;
    for (label, _) in labels {
        bits = bits.with(name_bits(label));
    }
    bits
}

/// The bits of a relationship, if it is there.
pub(crate) fn rel_bits(rel: Option<&Rel>) -> Bits
    ensures { result ≡ spec.rel_bits (option_copied rel.entry) }
{
    match rel {
        Some(rel) => LOWEST.with(name_bits(&rel.kind)),
        None => NONE,
    }
}
