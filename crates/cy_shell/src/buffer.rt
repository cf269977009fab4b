//! The line that is being read.

ghost use Rattle.std.specs.Prelude.{◌≡◌, ◌++◌, ℕ, ◌↔◌, List, [], IfOk, IsTrue, option_map};
ghost use Rattle.cy_shell.specs.internal.Lines.{buffered};

use cy_lexer::LONGEST_LINE;
use std::alloc::{AllocError, Global};
use std::marker::Model;

/// The bytes of a line as far as it was read, or that they are too many. It has its room from the start.
#[derive(Drop)]
pub(crate) struct LineBuffer {
    bytes: Vec<u8>,
    is_too_long: bool,
}

impl Model for LineBuffer {
    ghost use Rattle.std.specs.Prelude.{◌≤◌, List, ℕ, Option, Some, None, vec_len, vec_capacity, if◌then◌else◌};
    ghost use Rattle.cy_shell.specs.Lines.{line_limit};

    ghost Value = { Option (List ℕ) };

    ghost view = { λ b. if b.is_too_long then None else Some b.bytes.items };

    ghost invariant = { λ b. (line_limit ≤ vec_capacity b.bytes) × (vec_len b.bytes ≤ line_limit) };
}

impl LineBuffer {
    /// An empty line. Fails only when out of memory.
    pub(crate) fn new(alloc: Global) -> Result<Self, AllocError>
        ensures { IfOk result (λ buffer. buffer ≡ buffered []) }
    {
        Ok(LineBuffer {
            bytes: Vec::with_capacity(alloc, LONGEST_LINE)?,
            is_too_long: false,
        })
    }

    /// The line, unless it is too long.
    pub(crate) fn bytes(&self) -> Option<&[u8]>
        ensures { option_map (λ bytes. bytes.now) result ≡ self.now }
    {
        if self.is_too_long {
            None
        } else {
            Some(self.bytes.as_slice())
        }
    }

    /// Whether nothing of the line was read.
    pub(crate) fn is_empty(&self) -> bool
        ensures { (line : List ℕ) → self.now ≡ buffered line → IsTrue result ↔ (line ≡ []) }
    {
        !self.is_too_long && self.bytes.is_empty()
    }

    /// Goes on with the line.
    pub(crate) fn append(&mut self, part: &[u8])
        ensures { (line : List ℕ) → self.old ≡ buffered line → self.new ≡ buffered (line ++ part.now) }
    {
        if self.is_too_long {
            return;
        }
        if part.len() > LONGEST_LINE - self.bytes.len() {
            self.is_too_long = true;
            return;
        }
        // There is room for it.
        self.is_too_long = self.bytes.extend_from_slice(part).is_err();
    }

    /// Begins the next line.
    pub(crate) fn clear(&mut self)
        ensures { self.new ≡ buffered [] }
    {
        self.bytes.clear();
        self.is_too_long = false;
    }
}
