//! The input and the output of a program, of whose bytes nothing is known.

ghost use Rattle.std.specs.Prelude.{◌≤◌, IfOk, length};
ghost use Rattle.std.specs.Io.KnownBytes.{Keeps, ReadConsumes, WriteAppends};

use crate::streams::{Failed, Sink, Source};
use std::io::{ErrorKind, Read, Write};
use std::marker::Model;

/// How many times a call is made at most, where a signal interrupts it each time.
const MOST_TRIES: usize = 1_000;

/// A reader, as that of standard input, whose bytes aren't known.
#[derive(Drop)]
pub struct InputSource<R> {
    reader: R,
    has_failed: bool,
}

impl<R> Model for InputSource<R> {
    ghost use Rattle.cy_shell.specs.Standard.{StreamState};

    ghost Value = { StreamState R };

    ghost view = { λ s. record { stream = s.reader; has_failed = s.has_failed } };
}

impl<R: Read> InputSource<R> {
    ghost use Rattle.std.specs.Prelude.{◌≡◌, false};

    /// A source that reads from a reader, and has not failed.
    pub fn new(reader: R) -> Self
        ensures { result ≡ record { stream = reader; has_failed = false } }
    {
        InputSource {
            reader,
            has_failed: false,
        }
    }
}

impl<R: Read> Source for InputSource<R> {
    ghost use Rattle.std.specs.Prelude.{◌≡◌, ◌≤◌, IfOk, OnErr, OnOk, None, true, false, length};
    ghost use Rattle.std.specs.Io.KnownBytes.{ReadConsumes};
    ghost use Rattle.cy_shell.specs.Standard.{StreamState};

    ghost remaining = { λ _. None };

    ghost taken = { λ _. None };

    ghost has_failed = { λ (source : StreamState R). source.has_failed };

    /// Gives the bytes that the reader gives. A read that a signal interrupted is made again, up to 1,000 times; one that the reader
    /// refuses else has failed.
    fn read(&mut self, piece: &mut [u8]) -> Result<usize, Failed>
        requires { self.old.has_failed ≡ false }
        ensures within { IfOk result (λ count. count ≤ length piece.old) }
        ensures works { OnOk result (self.new.has_failed ≡ false) }
        ensures fails { OnErr result (self.new.has_failed ≡ true) }
        ensures reader { ReadConsumes (R.remaining self.old.stream) (R.remaining self.new.stream) result piece.new }
    {
        let read = read_piece(&mut self.reader, piece);
        self.has_failed = read.is_err();
        read
    }
}

// Reads as a reader does, again where a signal interrupted it. Any other error is final.
fn read_piece<R: Read>(reader: &mut R, piece: &mut [u8]) -> Result<usize, Failed>
    ensures within { IfOk result (λ count. count ≤ length piece.old) }
    ensures reader { ReadConsumes (R.remaining reader.old) (R.remaining reader.new) result piece.new }
{
    for _ in 0..MOST_TRIES {
        match reader.read(piece) {
            Ok(count) => return Ok(count),
            Err(error) if error.kind() == ErrorKind::Interrupted => {}
            Err(_) => return Err(Failed),
        }
    }
    Err(Failed)
}

/// A writer, as that of standard output, whose bytes aren't known.
#[derive(Drop)]
pub struct OutputSink<W> {
    writer: W,
    has_failed: bool,
}

impl<W> Model for OutputSink<W> {
    ghost use Rattle.cy_shell.specs.Standard.{StreamState};

    ghost Value = { StreamState W };

    ghost view = { λ s. record { stream = s.writer; has_failed = s.has_failed } };
}

impl<W: Write> OutputSink<W> {
    ghost use Rattle.std.specs.Prelude.{◌≡◌, false};

    /// A sink that writes to a writer, and has not failed.
    pub fn new(writer: W) -> Self
        ensures { result ≡ record { stream = writer; has_failed = false } }
    {
        OutputSink {
            writer,
            has_failed: false,
        }
    }
}

impl<W: Write> Sink for OutputSink<W> {
    ghost use Rattle.std.specs.Prelude.{◌≡◌, ◌≤◌, ◌<◌, IfOk, OnErr, OnOk, None, true, false, length};
    ghost use Rattle.std.specs.Io.KnownBytes.{Keeps, WriteAppends};
    ghost use Rattle.cy_shell.specs.Standard.{StreamState};

    ghost written = { λ _. None };

    ghost handed_on = { λ _. None };

    ghost has_failed = { λ (sink : StreamState W). sink.has_failed };

    /// Writes to the writer. A write that a signal interrupted is made again, up to 1,000 times; one that the writer refuses else has failed,
    /// and so has one that takes no byte of a piece that is not empty.
    fn write(&mut self, piece: &[u8]) -> Result<usize, Failed>
        requires { self.old.has_failed ≡ false }
        ensures within { IfOk result (λ count. count ≤ length piece.now) }
        ensures some { IfOk result (λ count. 0 < length piece.now → 0 < count) }
        ensures works { OnOk result (self.new.has_failed ≡ false) }
        ensures fails { OnErr result (self.new.has_failed ≡ true) }
        ensures writer { WriteAppends (W.contents self.old.stream) (W.contents self.new.stream) result piece.now }
    {
        match write_piece(&mut self.writer, piece) {
            Ok(count) if count > 0 || piece.is_empty() => Ok(count),
            _ => {
                self.has_failed = true;
                Err(Failed)
            }
        }
    }

    /// Flushes the writer, again where a signal interrupted it, up to 1,000 times.
    fn flush(&mut self) -> Result<(), Failed>
        requires { self.old.has_failed ≡ false }
        ensures works { OnOk result (self.new.has_failed ≡ false) }
        ensures fails { OnErr result (self.new.has_failed ≡ true) }
        ensures writer { Keeps (W.contents self.old.stream) (W.contents self.new.stream) }
    {
        let flushed = flush(&mut self.writer);
        self.has_failed = flushed.is_err();
        flushed
    }
}

// Writes as a writer does, again where a signal interrupted it. Any other error is final.
fn write_piece<W: Write>(writer: &mut W, piece: &[u8]) -> Result<usize, Failed>
    ensures within { IfOk result (λ count. count ≤ length piece.now) }
    ensures writer { WriteAppends (W.contents writer.old) (W.contents writer.new) result piece.now }
{
    for _ in 0..MOST_TRIES {
        match writer.write(piece) {
            Ok(taken) => return Ok(taken),
            Err(error) if error.kind() == ErrorKind::Interrupted => {}
            Err(_) => return Err(Failed),
        }
    }
    Err(Failed)
}

// Flushes as a writer does, again where a signal interrupted it. Any other error is final.
fn flush<W: Write>(writer: &mut W) -> Result<(), Failed>
    ensures { Keeps (W.contents writer.old) (W.contents writer.new) }
{
    for _ in 0..MOST_TRIES {
        match writer.flush() {
            Ok(()) => return Ok(()),
            Err(error) if error.kind() == ErrorKind::Interrupted => {}
            Err(_) => return Err(Failed),
        }
    }
    Err(Failed)
}
