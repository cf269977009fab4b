//! Sources and sinks over memory, whose bytes are known.

ghost use Rattle.std.specs.Prelude.{◌≡◌, ◌-◌, ◌≤◌, ◌<◌, [], IfOk, OnErr, OnOk, IsOk, Some, true, false, length, min, take};
ghost use Rattle.cy_shell.specs.Streams.{Extends, TakesFront, appended};

use crate::streams::{Failed, Sink, Source};
use std::alloc::{AllocError, Global};
use std::marker::Model;

/// Reads the bytes of a slice. It never fails.
#[derive(Drop)]
pub struct MemorySource<'a> {
    left: &'a [u8],
    taken: &'a [u8],
}

impl<'a> Model for MemorySource<'a> {
    ghost use Rattle.cy_shell.specs.Memory.{BytesLeft};

    ghost Value = { BytesLeft };

    ghost view = { λ s. record { left = s.left.now; taken = s.taken.now } };
}

impl<'a> MemorySource<'a> {
    /// A source of which all the bytes are left.
    pub fn new(bytes: &'a [u8]) -> Self
        ensures { result ≡ record { left = bytes.now; taken = [] } }
    {
        MemorySource {
            left: bytes,
            taken: &[],
        }
    }
}

impl<'a> Source for MemorySource<'a> {
    ghost use Rattle.std.specs.Prelude.{Some, false};
    ghost use Rattle.cy_shell.specs.Memory.{BytesLeft};

    ghost remaining = { λ (source : BytesLeft). Some source.left };

    ghost taken = { λ (source : BytesLeft). Some source.taken };

    ghost has_failed = { λ _. false };

    /// Reads as many bytes as the piece has room for, or all that are left. Never fails.
    fn read(&mut self, piece: &mut [u8]) -> Result<usize, Failed>
        ensures count { IfOk result (λ count. count ≡ min (length self.old.left) (length piece.old)) }
        ensures within { IfOk result (λ count. count ≤ length piece.old) }
        ensures front { IfOk result (λ count. TakesFront (Some self.old.left) (Some self.new.left) piece.old piece.new count) }
        ensures took { IfOk result (λ count. self.new.taken ≡ take count piece.new) }
        ensures works { OnOk result (false ≡ false) }
        ensures moves_nothing { OnErr result (Some self.new.left ≡ Some self.old.left) }
        ensures fails { OnErr result (false ≡ true) }
        ensures succeeds { IsOk result }
    {
        let count = self.left.len().min(piece.len());
        let (front, rest) = self.left.split_at(count);
        piece[..count].copy_from_slice(front);
        self.left = rest;
        self.taken = front;
        Ok(count)
    }
}

/// Keeps the bytes that are written, as many as it has room for. It has its room from the start.
#[derive(Drop)]
pub struct MemorySink {
    bytes: Vec<u8>,
    room: usize,
    has_failed: bool,
}

impl Model for MemorySink {
    ghost use Rattle.cy_shell.specs.Memory.{MemoryBytes};
    ghost use Rattle.std.specs.Prelude.{◌≤◌, vec_len, vec_capacity};

    ghost Value = { MemoryBytes };

    ghost view = { λ s. record { written = s.bytes.items; room = s.room; has_failed = s.has_failed } };

    ghost invariant = { λ s. (vec_len s.bytes ≤ s.room) × (s.room ≤ vec_capacity s.bytes) };
}

impl MemorySink {
    /// A sink with room for this many bytes. Fails only when out of memory.
    pub fn new(alloc: Global, room: usize) -> Result<Self, AllocError>
        ensures { IfOk result (λ sink. sink ≡ record { written = []; room = room; has_failed = false }) }
    {
        Ok(MemorySink {
            bytes: Vec::with_capacity(alloc, room)?,
            room,
            has_failed: false,
        })
    }

    /// The bytes that were written.
    pub fn as_slice(&self) -> &[u8]
        ensures { result.now ≡ self.now.written }
    {
        self.bytes.as_slice()
    }
}

impl Sink for MemorySink {
    ghost use Rattle.std.specs.Prelude.{Some};
    ghost use Rattle.cy_shell.specs.Memory.{MemoryBytes};

    ghost written = { λ (sink : MemoryBytes). Some sink.written };

    ghost handed_on = { λ (sink : MemoryBytes). Some sink.written };

    ghost has_failed = { λ (sink : MemoryBytes). sink.has_failed };

    /// Writes as many bytes as there is room for. Fails only where there is room for none of a piece that is not empty.
    fn write(&mut self, piece: &[u8]) -> Result<usize, Failed>
        requires { self.old.has_failed ≡ false }
        ensures count { IfOk result (λ count. count ≡ min (length piece.now) (self.old.room - length self.old.written)) }
        ensures within { IfOk result (λ count. count ≤ length piece.now) }
        ensures some { IfOk result (λ count. 0 < length piece.now → 0 < count) }
        ensures front { IfOk result (λ count. Some self.new.written ≡ appended (Some self.old.written) (take count piece.now)) }
        ensures keeps { Extends (Some self.old.written) (Some self.new.written) }
        ensures works { OnOk result (self.new.has_failed ≡ false) }
        ensures moves_nothing { OnErr result (Some self.new.written ≡ Some self.old.written) }
        ensures fails { OnErr result (self.new.has_failed ≡ true) }
        ensures full { OnErr result ((length self.old.written ≡ self.old.room) × (0 < length piece.now)) }
        ensures room { self.new.room ≡ self.old.room }
    {
        let count = piece.len().min(self.room - self.bytes.len());
        let is_full = count == 0 && !piece.is_empty();
        if is_full || self.bytes.extend_from_slice(&piece[..count]).is_err() {
            self.has_failed = true;
            return Err(Failed);
        }
        Ok(count)
    }

    /// Never fails, and changes nothing.
    fn flush(&mut self) -> Result<(), Failed>
        requires { self.old.has_failed ≡ false }
        ensures stays { self.new ≡ self.old }
        ensures moves_nothing { Some self.new.written ≡ Some self.old.written }
        ensures hands_on { OnOk result (Some self.new.written ≡ Some self.new.written) }
        ensures keeps { Extends (Some self.old.written) (Some self.new.written) }
        ensures works { OnOk result (self.new.has_failed ≡ false) }
        ensures fails { OnErr result (self.new.has_failed ≡ true) }
        ensures succeeds { IsOk result }
    {
        Ok(())
    }
}
