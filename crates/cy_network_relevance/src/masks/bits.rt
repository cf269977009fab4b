//! Bits of two words.

ghost use Rattle.std.specs.Prelude.{◌≡◌, false};
ghost use Rattle.cy_network_relevance.specs.NameBits.{AreBitsApart, joined_bits};

/// Some bits of two words.
#[derive(Clone, Copy, Debug, PartialEq, Eq)]
pub(crate) struct Bits {
    pub(crate) first: u64,
    pub(crate) second: u64,
}

/// No bit.
pub(crate) const NONE: Bits = Bits {
    first: 0,
    second: 0,
};

/// The lowest bit of each word.
pub(crate) const LOWEST: Bits = Bits {
    first: 1,
    second: 1,
};

impl Bits {
    /// Whether two have bits in common in each of the words.
    pub(crate) fn meets(self, other: Bits) -> bool
        ensures apart { result ≡ false → AreBitsApart self other }
        ensures met { AreBitsApart self other → result ≡ false }
    {
        self.first & other.first != 0 && self.second & other.second != 0
    }

    /// The bits of both.
    pub(crate) fn with(self, other: Bits) -> Bits
        ensures { result ≡ joined_bits self other }
    {
        Bits {
            first: self.first | other.first,
            second: self.second | other.second,
        }
    }
}
