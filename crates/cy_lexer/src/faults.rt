//! The faults of a line that isn't made of tokens.

ghost use Rattle.std.specs.Prelude.{◌≡◌};
ghost use Rattle.cy_lexer.specs.declared.faults.LexFault.TheVariants.{NoMemory};
ghost use Rattle.cy_lexer.specs.Faults.{code_of, at_of};

use crate::line::LONGEST_LINE;
use std::alloc::{AllocError, AllocFailed};
use thiserror::Error;

/// Why a line has no tokens (own: this profile's choice, not in any standard). The number in a variant is a
/// byte offset in the line.
#[derive(Clone, Copy, Debug, PartialEq, Eq, Error)]
pub enum LexFault {
    /// A character that begins no token, or an empty quoted name, by its opening backtick.
    #[error("bad character at byte {0}")]
    BadCharacter(usize),
    /// A text without its closing quote, by its opening quote.
    #[error("unclosed text at byte {0}")]
    UnclosedText(usize),
    /// An escape that a text may not have, by its backslash.
    #[error("bad escape at byte {0}")]
    BadEscape(usize),
    /// A comment that isn't closed, by its `/*`.
    #[error("unclosed comment at byte {0}")]
    UnclosedComment(usize),
    /// A quoted name without its closing backtick, by its opening one.
    #[error("unclosed name at byte {0}")]
    UnclosedName(usize),
    /// A number that is written badly, by its first digit.
    #[error("bad number at byte {0}")]
    BadNumber(usize),
    /// A number above 9223372036854775808, by its first digit.
    #[error("number too large at byte {0}")]
    NumberTooLarge(usize),
    /// A line of more than 65,536 bytes.
    #[error("line too long")]
    LineTooLong,
    /// Bytes that aren't UTF-8, by the length of their longest beginning that is.
    #[error("no UTF-8 from byte {0} on")]
    NotUtf8(usize),
    /// Out of memory.
    #[error("no memory")]
    NoMemory,
}

impl LexFault {
    /// The number of the fault.
    pub fn code(&self) -> u16
        ensures { result ≡ code_of self.now }
    {
        match self {
            LexFault::BadCharacter(_) => 10,
            LexFault::UnclosedText(_) => 11,
            LexFault::BadEscape(_) => 12,
            LexFault::UnclosedComment(_) => 13,
            LexFault::UnclosedName(_) => 14,
            LexFault::BadNumber(_) => 15,
            LexFault::NumberTooLarge(_) => 16,
            LexFault::LineTooLong => 17,
            LexFault::NotUtf8(_) => 18,
            LexFault::NoMemory => 90,
        }
    }

    /// The byte offset that the fault points at; `NoMemory` has none.
    pub fn at(&self) -> Option<usize>
        ensures { result ≡ at_of self.now }
    {
        match self {
            LexFault::BadCharacter(at)
            | LexFault::UnclosedText(at)
            | LexFault::BadEscape(at)
            | LexFault::UnclosedComment(at)
            | LexFault::UnclosedName(at)
            | LexFault::BadNumber(at)
            | LexFault::NumberTooLarge(at)
            | LexFault::NotUtf8(at) => Some(*at),
            LexFault::LineTooLong => Some(LONGEST_LINE),
            LexFault::NoMemory => None,
        }
    }
}

impl From<AllocError> for LexFault {
    ghost from_gives = { λ _ fault. fault ≡ NoMemory };

    fn from(_error: AllocError) -> LexFault {
        LexFault::NoMemory
    }
}

impl<T: Drop> From<AllocFailed<T>> for LexFault {
    ghost from_gives = { λ _ fault. fault ≡ NoMemory };

    fn from(_failed: AllocFailed<T>) -> LexFault {
        LexFault::NoMemory
    }
}
