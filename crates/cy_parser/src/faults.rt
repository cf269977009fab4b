//! The faults of tokens that spell no statement.

ghost use Rattle.std.specs.Prelude.{◌≡◌};
ghost use Rattle.cy_parser.specs.declared.faults.ParseFault.TheVariants.{NoMemory};
ghost use Rattle.cy_parser.specs.Faults.{code_of, at_of};

use std::alloc::AllocError;
use thiserror::Error;

/// Why tokens spell no statement (own). The number in a variant is a byte offset in the line: that of a token, or the line's
/// length at its end.
#[derive(Clone, Copy, Debug, PartialEq, Eq, Error)]
pub enum ParseFault {
    /// A number that its place can't hold.
    #[error("number too large at byte {0}")]
    NumberTooLarge(usize),
    /// A token that can't stand where it does, or the end of the text inside of a clause.
    #[error("unexpected at byte {0}")]
    Unexpected(usize),
    /// An expression of depth 65, or with 257 open levels, by the first token of the outermost expression around it.
    #[error("too deep at byte {0}")]
    TooDeep(usize),
    /// A clause that may not follow those before it, or the end of the text where no statement ends.
    #[error("clause order at byte {0}")]
    ClauseOrder(usize),
    /// A length whose bounds are out of order or above 65,535, by the last bound.
    #[error("bad range at byte {0}")]
    BadRange(usize),
    /// Out of memory.
    #[error("no memory")]
    NoMemory,
}

impl ParseFault {
    /// The number of the fault.
    pub fn code(&self) -> u16
        ensures { result ≡ code_of self.now }
    {
        match self {
            ParseFault::NumberTooLarge(_) => 16,
            ParseFault::Unexpected(_) => 20,
            ParseFault::TooDeep(_) => 21,
            ParseFault::ClauseOrder(_) => 22,
            ParseFault::BadRange(_) => 24,
            ParseFault::NoMemory => 90,
        }
    }

    /// The byte offset that the fault points at; `NoMemory` has none.
    pub fn at(&self) -> Option<usize>
        ensures { result ≡ at_of self.now }
    {
        match self {
            ParseFault::NumberTooLarge(at)
            | ParseFault::Unexpected(at)
            | ParseFault::TooDeep(at)
            | ParseFault::ClauseOrder(at)
            | ParseFault::BadRange(at) => Some(*at),
            ParseFault::NoMemory => None,
        }
    }
}

impl From<AllocError> for ParseFault {
    ghost from_gives = { λ _ fault. fault ≡ NoMemory };

    fn from(_error: AllocError) -> ParseFault {
        ParseFault::NoMemory
    }
}
