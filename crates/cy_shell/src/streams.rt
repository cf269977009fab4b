//! Where bytes come from and go to.

ghost use Rattle.std.specs.Prelude.{◌≡◌, ◌≤◌, ◌<◌, ℕ, List, Bool, true, false, length, take, Option, IfOk, IfSome, OnOk, OnErr};
ghost use Rattle.cy_shell.specs.Streams.{Extends, TakesFront, appended};

use thiserror::Error;

/// A read, a write or a flush failed. It moved no byte, and its stream is not used again.
#[derive(Clone, Copy, Debug, PartialEq, Eq, Error)]
#[error("a read, a write or a flush failed")]
pub struct Failed;

/// Where bytes are read from.
pub trait Source {
    /// The bytes that are left to read, where they are known.
    ghost remaining: { Self → Option (List ℕ) };

    /// The bytes that the last read took, where they are known.
    ghost taken: { Self → Option (List ℕ) };

    /// Whether a read has failed.
    ghost has_failed: { Self → Bool };

    /// Reads bytes into the front of a piece, and returns how many. Into a piece that is not empty, 0 bytes are
    /// read only at the end of the input.
    fn read(&mut self, piece: &mut [u8]) -> Result<usize, Failed>
        requires { has_failed self.old ≡ false }
        ensures within { IfOk result (λ count. count ≤ length piece.old) }
        ensures front { IfOk result (λ count. TakesFront (remaining self.old) (remaining self.new) piece.old piece.new count) }
        ensures took { IfOk result (λ count. IfSome (taken self.new) (λ bytes. bytes ≡ take count piece.new)) }
        ensures works { OnOk result (has_failed self.new ≡ false) }
        ensures moves_nothing { OnErr result (remaining self.new ≡ remaining self.old) }
        ensures fails { OnErr result (has_failed self.new ≡ true) };
}

/// Where bytes are written to.
pub trait Sink {
    /// The bytes that were written, where they are known.
    ghost written: { Self → Option (List ℕ) };

    /// Those of them that were surely handed on, where they are known.
    ghost handed_on: { Self → Option (List ℕ) };

    /// Whether a write or a flush has failed.
    ghost has_failed: { Self → Bool };

    /// Writes bytes of the front of a piece, and returns how many: of a piece that is not empty, one at least.
    fn write(&mut self, piece: &[u8]) -> Result<usize, Failed>
        requires { has_failed self.old ≡ false }
        ensures within { IfOk result (λ count. count ≤ length piece.now) }
        ensures some { IfOk result (λ count. 0 < length piece.now → 0 < count) }
        ensures front { IfOk result (λ count. written self.new ≡ appended (written self.old) (take count piece.now)) }
        ensures keeps { Extends (handed_on self.old) (handed_on self.new) }
        ensures works { OnOk result (has_failed self.new ≡ false) }
        ensures moves_nothing { OnErr result (written self.new ≡ written self.old) }
        ensures fails { OnErr result (has_failed self.new ≡ true) };

    /// Hands on what was written.
    fn flush(&mut self) -> Result<(), Failed>
        requires { has_failed self.old ≡ false }
        ensures moves_nothing { written self.new ≡ written self.old }
        ensures hands_on { OnOk result (handed_on self.new ≡ written self.new) }
        ensures keeps { Extends (handed_on self.old) (handed_on self.new) }
        ensures works { OnOk result (has_failed self.new ≡ false) }
        ensures fails { OnErr result (has_failed self.new ≡ true) };
}
