//! Sessions are run again, and what is written is compared with what stands in the transcript.

ghost use Rattle.std.specs.Prelude.{◌≡◌, ◌≤◌, false};

use crate::transcript::{Exchange, Session};
use cy_shell::{MemorySource, OutputSink, Settings, Sink, Source, run};
use std::alloc::{AllocError, Global};
use std::io::{self, ErrorKind};
use std::str;

/// How a session is run.
#[derive(Clone, Copy, PartialEq, Eq)]
pub(crate) enum Way {
    /// As it stands.
    Whole,
    /// Without the lines that are refused: the other answers stay.
    WithoutRefused,
    /// Without a feed: the answers stay, and no entries follow them.
    WithoutFeed,
}

impl Way {
    /// What is said of a session that isn't answered so.
    pub(crate) fn words(self) -> &'static str {
        match self {
            Way::Whole => "as it stands",
            Way::WithoutRefused => "without its refused lines",
            Way::WithoutFeed => "without a feed",
        }
    }

    fn sends(self, exchange: &Exchange) -> bool {
        self != Way::WithoutRefused || !exchange.is_refused()
    }

    fn expects(self, answer: &str) -> bool {
        self != Way::WithoutFeed || !answer.starts_with("{\"added\"")
    }
}

/// What is written, where it is something else than the session says.
pub(crate) fn difference(
    alloc: Global,
    session: &Session,
    way: Way,
    settings: Settings,
) -> io::Result<Option<String>>
    requires from { 1 ≤ settings.history }
    requires to { settings.history ≤ 4096 }
{
    let mut input = String::new(alloc);
    let mut expected = String::new(alloc);
    for exchange in &session.exchanges {
        if way.sends(exchange) {
            add_line(&mut input, exchange.line)?;
            add_answers(&mut expected, exchange, way)?;
        }
    }
    let feed = settings.feed && way != Way::WithoutFeed;
    let output = written(alloc, input.as_str(), Settings { feed, ..settings })?;
    if output.as_str() == expected.as_str() {
        Ok(None)
    } else {
        Ok(Some(output))
    }
}

fn add_answers(text: &mut String, exchange: &Exchange, way: Way) -> Result<(), AllocError> {
    for answer in &exchange.answers {
        if way.expects(answer) {
            add_line(text, answer)?;
        }
    }
    Ok(())
}

fn add_line(text: &mut String, line: &str) -> Result<(), AllocError> {
    text.push_str(line)?;
    text.push('\n')
}

// What a fresh engine writes for an input.
fn written(alloc: Global, input: &str, settings: Settings) -> io::Result<String>
    requires from { 1 ≤ settings.history }
    requires to { settings.history ≤ 4096 }
{
    let mut output = Vec::new(alloc);
    let mut source = MemorySource::new(input.as_bytes());
    let mut sink = OutputSink::new(&mut output);
    answer(alloc, &mut source, &mut sink, settings)?;
    match str::from_utf8(output.as_slice()) {
        Ok(text) => Ok(String::from_str(alloc, text)?),
        Err(_) => Err(io::Error::from(ErrorKind::InvalidData)),
    }
}

// Answers the lines of a source on a sink. This says nothing of what is written, so that the proof of what owns the two needn't carry it.
fn answer<R: Source, W: Sink>(
    alloc: Global,
    source: &mut R,
    sink: &mut W,
    settings: Settings,
) -> io::Result<()>
    requires readable { R.has_failed source.old ≡ false }
    requires writable { W.has_failed sink.old ≡ false }
    requires from { 1 ≤ settings.history }
    requires to { settings.history ≤ 4096 }
{
    run(alloc, source, sink, settings).map_err(|_| io::Error::from(ErrorKind::Other))
}
