//! An engine with the line that is being read for it.

ghost use Rattle.std.specs.Prelude.{◌≡◌, ◌&&◌, ◌==◌, [], ◌∷◌, ℕ, List, true, false, OnOk, OnErr, position, length, ◌<◌, ◌≤◌, IfOk, IfSome};
ghost use Rattle.cy_shell.specs.Lines.{ended_lines, begun_line, unless_empty};
ghost use Rattle.cy_shell.specs.internal.Lines.{buffered};
ghost use Rattle.cy_shell.specs.Printed.{fed};
ghost use Rattle.cy_shell.specs.Runs.{WritesRun, WritesBeginning, beginning};
ghost use Rattle.cy_shell.specs.Sinks.{HandsAllOn};
ghost use Rattle.cy_shell.specs.Streams.{Extends};
ghost use Rattle.cy_shell.specs.internal.Serving.{serving};

use crate::answers::print_answer;
use crate::buffer::LineBuffer;
use crate::feeding::write_feed;
use crate::streams::{Failed, Sink};
use crate::writing::write_text;
use cy_engine::{Engine, Entry};
use cy_values::Text;
use std::alloc::{AllocError, Global};

/// An engine, and what was read of a line that has not ended.
#[derive(Drop)]
pub(crate) struct Session {
    alloc: Global,
    pub(crate) engine: Engine,
    pub(crate) line: LineBuffer,
    /// Whether the entries that a line makes are printed after its answer.
    pub(crate) feed: bool,
    /// Where texts are made.
    room: Vec<u8>,
}

impl Session {
    /// An engine that is empty, and no line begun. Fails only when out of memory.
    pub(crate) fn new(alloc: Global, history: usize, feed: bool) -> Result<Self, AllocError>
        requires from { 1 ≤ history }
        requires to { history ≤ 4096 }
        ensures begins { IfOk result (λ session. serving session.engine session.feed ≡ beginning history feed) }
        ensures line { IfOk result (λ session. session.line ≡ buffered []) }
    {
        Ok(Session {
            alloc,
            line: LineBuffer::new(alloc)?,
            engine: Engine::new(alloc, history),
            feed,
            room: Vec::new(alloc),
        })
    }

    /// Serves the lines that end in a piece of the input, and keeps what it has of the next.
    pub(crate) fn serve_piece<W: Sink>(&mut self, sink: &mut W, piece: &[u8]) -> Result<(), Failed>
        requires { W.has_failed sink.old ≡ false }
        ensures line { OnOk result ((begun : List ℕ) → self.old.line ≡ buffered begun → self.new.line ≡ buffered (begun_line begun piece.now)) }
        ensures served { OnOk result ((begun : List ℕ) → self.old.line ≡ buffered begun
            → WritesRun (serving self.old.engine self.old.feed) (ended_lines begun piece.now) (serving self.new.engine self.new.feed) (W.written sink.old) (W.written sink.new)) }
        ensures handed { OnOk result (HandsAllOn W.Sink sink.old sink.new) }
        ensures keeps { Extends (W.handed_on sink.old) (W.handed_on sink.new) }
        ensures works { OnOk result (W.has_failed sink.new ≡ false) }
        ensures broken_off { OnErr result ((begun : List ℕ) → self.old.line ≡ buffered begun
            → WritesBeginning (serving self.old.engine self.old.feed) (ended_lines begun piece.now) (W.written sink.old) (W.written sink.new)) }
        ensures fails { OnErr result (W.has_failed sink.new ≡ true) }
    {
        let mut rest = piece;
        while let Some(end) = line_end(rest) {
            let (line, next) = rest.split_at(end);
            self.line.append(line);
            self.serve_line(sink)?;
            rest = &next[1..];
        }
        self.line.append(rest);
        Ok(())
    }

    /// Serves the last line of an input, which counts if it is not empty.
    pub(crate) fn finish<W: Sink>(&mut self, sink: &mut W) -> Result<(), Failed>
        requires { W.has_failed sink.old ≡ false }
        ensures served { OnOk result ((begun : List ℕ) → self.old.line ≡ buffered begun
            → WritesRun (serving self.old.engine self.old.feed) (unless_empty begun) (serving self.new.engine self.new.feed) (W.written sink.old) (W.written sink.new)) }
        ensures handed { OnOk result (HandsAllOn W.Sink sink.old sink.new) }
        ensures keeps { Extends (W.handed_on sink.old) (W.handed_on sink.new) }
        ensures works { OnOk result (W.has_failed sink.new ≡ false) }
        ensures broken_off { OnErr result ((begun : List ℕ) → self.old.line ≡ buffered begun
            → WritesBeginning (serving self.old.engine self.old.feed) (unless_empty begun) (W.written sink.old) (W.written sink.new)) }
        ensures fails { OnErr result (W.has_failed sink.new ≡ true) }
    {
        if self.line.is_empty() {
            return Ok(());
        }
        self.serve_line(sink)
    }

    // Answers the line, and begins the next.
    fn serve_line<W: Sink>(&mut self, sink: &mut W) -> Result<(), Failed>
        requires { W.has_failed sink.old ≡ false }
        ensures line { self.new.line ≡ buffered [] }
        ensures served { OnOk result ((line : List ℕ) → self.old.line ≡ buffered line
            → WritesRun (serving self.old.engine self.old.feed) (line ∷ []) (serving self.new.engine self.new.feed) (W.written sink.old) (W.written sink.new)) }
        ensures handed { OnOk result (HandsAllOn W.Sink sink.old sink.new) }
        ensures keeps { Extends (W.handed_on sink.old) (W.handed_on sink.new) }
        ensures works { OnOk result (W.has_failed sink.new ≡ false) }
        ensures broken_off { OnErr result ((line : List ℕ) → self.old.line ≡ buffered line
            → WritesBeginning (serving self.old.engine self.old.feed) (line ∷ []) (W.written sink.old) (W.written sink.new)) }
        ensures fails { OnErr result (W.has_failed sink.new ≡ true) }
    {
        let answered = print_answer(self.alloc, &mut self.engine, &self.line, &mut self.room);
        self.line.clear();
        write_text(sink, answered.printed.bytes(self.room.as_slice()))?;
        let entries = fed_entries(&self.engine, self.feed, answered.is_executed);
        write_feed(self.alloc, &mut self.room, sink, entries)
    }
}

// The entries that are printed after an answer: those of the line, if the engine answered it and there is a feed.
fn fed_entries(engine: &Engine, feed: bool, is_executed: bool) -> &[(Text, Entry)]
    ensures { result.now ≡ fed (feed && is_executed) engine.now.entries }
{
    if feed && is_executed {
        engine.entries()
    } else {
        &[]
    }
}

// Where the line at the front of the bytes ends, if it does.
fn line_end(bytes: &[u8]) -> Option<usize>
    ensures first { result ≡ position (λ byte. byte == 10) bytes.now }
    ensures within { IfSome result (λ at. at < length bytes.now) }
{
    bytes.iter().position(|byte| *byte == b'\n')
}
