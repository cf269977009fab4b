//! Why tokens spell no tree, by how many of them are left from the faulty one on.

ghost use Rattle.std.specs.Prelude.{◌≡◌, ◌≢◌, None};
ghost use Rattle.cy_parser_statements.specs.declared.refusals.Refusal.TheVariants.{NoMemory};

use cy_lexer::LexFault;
use cy_values::Fault;
use std::alloc::{AllocError, AllocFailed};

/// Why reading stops: with how many tokens left, the faulty one among them. At the end of the text none are left.
#[derive(Clone, Copy)]
pub enum Refusal {
    /// A number that its place can't hold.
    NumberTooLarge(usize),
    /// A token after which nothing can go on, or the end of the text.
    Unexpected(usize),
    /// An expression that is too deep, or has too many open levels; and how many tokens are left from its first on.
    TooDeep { left: usize, first: usize },
    /// A clause where it may not stand, or the end of the text where no statement ends.
    ClauseOrder(usize),
    /// A range whose bounds are out of order or too large.
    BadRange(usize),
    /// Out of memory.
    NoMemory,
}

impl Refusal {
    /// An expression that is too deep, as it is seen at a token from which so many are left.
    pub(crate) fn too_deep(left: usize) -> Refusal
        ensures { result ≢ NoMemory }
    {
        Refusal::TooDeep { left, first: left }
    }

    /// The refusal in an expression from whose first token on so many are left.
    pub(crate) fn since(self, first: usize) -> Refusal
        ensures { self ≡ NoMemory → result ≡ NoMemory }
    {
        match self {
            Refusal::TooDeep { left, first: _ } => Refusal::TooDeep { left, first },
            refusal => refusal,
        }
    }

    /// How many tokens are left, the faulty one among them.
    fn left(&self) -> Option<usize>
        ensures { self.now ≡ NoMemory → result ≡ None }
    {
        match self {
            Refusal::NumberTooLarge(left)
            | Refusal::Unexpected(left)
            | Refusal::TooDeep { left, first: _ }
            | Refusal::ClauseOrder(left)
            | Refusal::BadRange(left) => Some(*left),
            Refusal::NoMemory => None,
        }
    }

    /// Of two readings that stop, the refusal of the one that got further, and of the other one where both stop at one token.
    pub(crate) fn or_further(self, other: Refusal) -> Refusal
        ensures { other ≡ NoMemory → result ≡ NoMemory }
    {
        match (self.left(), other.left()) {
            (Some(left), Some(other_left)) if left < other_left => self,
            _ => other,
        }
    }
}

impl From<AllocError> for Refusal {
    ghost from_gives = { λ _ refusal. refusal ≡ NoMemory };

    fn from(_error: AllocError) -> Refusal {
        Refusal::NoMemory
    }
}

impl<T: Drop> From<AllocFailed<T>> for Refusal {
    ghost from_gives = { λ _ refusal. refusal ≡ NoMemory };

    fn from(_failed: AllocFailed<T>) -> Refusal {
        Refusal::NoMemory
    }
}

impl From<Fault> for Refusal {
    ghost from_gives = { λ _ refusal. refusal ≡ NoMemory };

    fn from(_fault: Fault) -> Refusal {
        Refusal::NoMemory
    }
}
