//! Transcripts: what is sent and what is answered stand one under another, as on a terminal.
//!
//! A line that begins with `{` is an answer or an entry, and every other line is sent. An empty line ends a session, and the
//! next one begins on a fresh engine.

use std::alloc::{AllocError, Global};

/// A line that is sent, with what is answered to it.
#[derive(Drop)]
pub(crate) struct Exchange<'a> {
    pub(crate) line: &'a str,
    /// The reply, and then the entries that the line makes.
    pub(crate) answers: Vec<&'a str>,
}

impl<'a> Exchange<'a> {
    /// Whether the line is refused: it is answered with a fault.
    pub(crate) fn is_refused(&self) -> bool {
        match self.answers.first() {
            Some(answer) => answer.starts_with("{\"at\""),
            None => false,
        }
    }
}

/// What is sent to one engine, and what it answers.
#[derive(Drop)]
pub(crate) struct Session<'a> {
    /// The number of its first line in the file.
    pub(crate) place: usize,
    pub(crate) exchanges: Vec<Exchange<'a>>,
}

impl<'a> Session<'a> {
    // Adds a line of the transcript. An answer at the beginning answers a line without tokens, so it is never right.
    fn add(&mut self, alloc: Global, line: &'a str) -> Result<(), AllocError> {
        if !line.starts_with('{') {
            return self.send(alloc, line);
        }
        if self.exchanges.is_empty() {
            self.send(alloc, "")?;
        }
        if let Some(exchange) = self.exchanges.last_mut() {
            exchange.answers.push(line)?;
        }
        Ok(())
    }

    fn send(&mut self, alloc: Global, line: &'a str) -> Result<(), AllocError> {
        self.exchanges.push(Exchange {
            line,
            answers: Vec::new(alloc),
        })?;
        Ok(())
    }
}

/// The sessions of a transcript.
pub(crate) fn sessions<'a>(alloc: Global, text: &'a str) -> Result<Vec<Session<'a>>, AllocError> {
    let mut sessions = Vec::new(alloc);
    let mut has_begun = false;
    for (index, line) in text.lines().enumerate() {
        if !has_begun && !line.is_empty() {
            sessions.push(Session {
                place: index.saturating_add(1),
                exchanges: Vec::new(alloc),
            })?;
        }
        has_begun = !line.is_empty();
        if has_begun {
            add_to_last(alloc, &mut sessions, line)?;
        }
    }
    Ok(sessions)
}

// Adds a line to the last session.
fn add_to_last<'a>(
    alloc: Global,
    sessions: &mut Vec<Session<'a>>,
    line: &'a str,
) -> Result<(), AllocError> {
    match sessions.last_mut() {
        Some(session) => session.add(alloc, line),
        None => Ok(()),
    }
}
