//! Truth.

ghost use Rattle.std.specs.Prelude.{◌≡◌};
ghost use Rattle.cy_values.specs.Truth.{both, one_at_least, one_alone, opposite, known};

/// Whether something holds, in the order in which AND and OR compare. (openCypher 9, after Kleene)
#[derive(Clone, Copy, Debug, PartialEq, Eq, PartialOrd, Ord)]
pub enum Truth {
    No,
    /// Null: it isn't known.
    Unknown,
    Yes,
}

impl Truth {
    /// AND, the lesser of the two.
    pub fn and(self, other: Truth) -> Truth
        ensures { result ≡ both self other }
    {
        match (self, other) {
            (Truth::No, _) | (_, Truth::No) => Truth::No,
            (Truth::Unknown, _) | (_, Truth::Unknown) => Truth::Unknown,
            (Truth::Yes, Truth::Yes) => Truth::Yes,
        }
    }

    /// OR, the greater of the two.
    pub fn or(self, other: Truth) -> Truth
        ensures { result ≡ one_at_least self other }
    {
        match (self, other) {
            (Truth::Yes, _) | (_, Truth::Yes) => Truth::Yes,
            (Truth::Unknown, _) | (_, Truth::Unknown) => Truth::Unknown,
            (Truth::No, Truth::No) => Truth::No,
        }
    }

    /// XOR: `Unknown` where a side is, else whether the sides differ.
    pub fn xor(self, other: Truth) -> Truth
        ensures { result ≡ one_alone self other }
    {
        match (self, other) {
            (Truth::Unknown, _) | (_, Truth::Unknown) => Truth::Unknown,
            (Truth::No, Truth::Yes) | (Truth::Yes, Truth::No) => Truth::Yes,
            (Truth::No, Truth::No) | (Truth::Yes, Truth::Yes) => Truth::No,
        }
    }

    /// NOT, which reverses the order.
    pub fn not(self) -> Truth
        ensures { result ≡ opposite self }
    {
        match self {
            Truth::No => Truth::Yes,
            Truth::Unknown => Truth::Unknown,
            Truth::Yes => Truth::No,
        }
    }

    /// The truth of what is known to hold, or known not to.
    pub fn known(holds: bool) -> Truth
        ensures { result ≡ known holds }
    {
        if holds { Truth::Yes } else { Truth::No }
    }
}
