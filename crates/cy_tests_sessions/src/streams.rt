//! Runs over streams that move a byte at a time. A call may fail, once, or be interrupted.

ghost use Rattle.std.specs.Prelude.{◌≡◌, ◌≤◌, false};

use cy_shell::{InputSource, OutputSink, RunFault, Settings, Sink, Source, run};
use std::alloc::Global;
use std::io::{self, Error, ErrorKind};
use std::process::Abort;

/// The input is read and answered by such calls, with a feed: the run ends so, once this is written.
pub(crate) fn expect_run(
    rt: &impl Abort,
    alloc: Global,
    input: &[u8],
    (reads, writes): (Calls, Calls),
    outcome: Result<(), RunFault>,
    output: &[u8],
) {
    let mut writer = TestWriter {
        written: Vec::new(alloc),
        calls: writes,
    };
    let mut source = InputSource::new(TestReader {
        left: input,
        calls: reads,
    });
    let mut sink = OutputSink::new(&mut writer);
    let settings = Settings {
        history: 64,
        feed: true,
    };
    let ended = answer(alloc, &mut source, &mut sink, settings);
    let count = writer.written.len();
    assert!(rt; ended == outcome, "{count} bytes");
    assert!(rt; writer.written.as_slice() == output, "{count} bytes");
}

/// Answers the lines of a source on a sink. This says nothing of what is written, so that the proof of what owns the two needn't carry it.
pub(crate) fn answer<R: Source, W: Sink>(
    alloc: Global,
    source: &mut R,
    sink: &mut W,
    settings: Settings,
) -> Result<(), RunFault>
    requires readable { R.has_failed source.old ≡ false }
    requires writable { W.has_failed sink.old ≡ false }
    requires from { 1 ≤ settings.history }
    requires to { settings.history ≤ 4096 }
{
    run(alloc, source, sink, settings)
}

// Gives a byte a read.
#[derive(Drop)]
struct TestReader<'a> {
    left: &'a [u8],
    calls: Calls,
}

impl<'a> io::Read for TestReader<'a> {
    fn read(&mut self, piece: &mut [u8]) -> io::Result<usize> {
        self.calls.take()?;
        let count = self.left.len().min(piece.len()).min(1);
        let (front, rest) = self.left.split_at(count);
        piece[..count].copy_from_slice(front);
        self.left = rest;
        Ok(count)
    }
}

// Takes a byte a write.
#[derive(Drop)]
struct TestWriter {
    written: Vec<u8>,
    calls: Calls,
}

impl io::Write for TestWriter {
    fn write(&mut self, piece: &[u8]) -> io::Result<usize> {
        self.calls.take()?;
        let count = piece.len().min(1);
        self.written.extend_from_slice(&piece[..count])?;
        Ok(count)
    }

    fn flush(&mut self) -> io::Result<()> {
        self.calls.take()
    }
}

/// Calls that all go well.
pub(crate) const GOOD: Calls = Calls {
    failing: None,
    interruptions: 0,
    interrupted: 0,
};

/// What becomes of calls: each is interrupted a number of times before it is made, and one may fail, that one alone.
#[derive(Clone, Copy)]
pub(crate) struct Calls {
    // How many are made before the one that fails.
    failing: Option<usize>,
    interruptions: usize,
    interrupted: usize,
}

impl Calls {
    /// Calls of which the one after so many fails, and none before or after it.
    pub(crate) fn failing_after(count: usize) -> Self {
        Calls {
            failing: Some(count),
            ..GOOD
        }
    }

    /// Calls each of which is interrupted so many times before it goes well.
    pub(crate) fn interrupted(times: usize) -> Self {
        Calls {
            interruptions: times,
            ..GOOD
        }
    }

    // Makes a call, interrupts it, or has it fail: those after it go well again.
    fn take(&mut self) -> io::Result<()> {
        if self.interrupted < self.interruptions {
            self.interrupted = self.interrupted.saturating_add(1);
            return Err(Error::from(ErrorKind::Interrupted));
        }
        self.interrupted = 0;
        let Some(count) = self.failing else {
            return Ok(());
        };
        self.failing = count.checked_sub(1);
        if self.failing.is_none() {
            return Err(Error::from(ErrorKind::StorageFull));
        }
        Ok(())
    }
}
