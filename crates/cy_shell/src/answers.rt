//! The answer to one line.

ghost use Rattle.std.specs.Prelude.{◌≡◌, ℕ, List};
ghost use Rattle.cy_lexer.specs.Line.{IsTextOf};
ghost use Rattle.cy_engine_lines.specs.KeptStep.{kept_state_of};
ghost use Rattle.cy_shell.specs.internal.Lines.{buffered};
ghost use Rattle.cy_shell.specs.internal.Printing.{printed_text};
ghost use Rattle.cy_shell.specs.internal.Feeding.{Answers, IsAnswer};

use crate::buffer::LineBuffer;
use crate::printing::{Printed, print_fault, print_reply};
use cy_engine::Engine;
use cy_lexer::{LexFault, text_of};
use std::alloc::Global;

/// What is printed for a line, and whether the engine answered it.
#[derive(Clone, Copy)]
pub(crate) struct AnsweredLine {
    pub(crate) printed: Printed,
    pub(crate) is_executed: bool,
}

/// Answers a line, whose text is made in a room.
pub(crate) fn print_answer(
    alloc: Global,
    engine: &mut Engine,
    line: &LineBuffer,
    room: &mut Vec<u8>,
) -> AnsweredLine
    ensures { (bytes : List ℕ) → line.now ≡ buffered bytes
        → IsAnswer (kept_state_of engine.old) bytes (printed_text result.printed room.new.items) result.is_executed engine.new }
{
    match line_text(line) {
        Ok(text) => AnsweredLine {
            printed: answer_text(alloc, engine, text, room),
            is_executed: true,
        },
        Err(fault) => AnsweredLine {
            printed: print_fault(alloc, room, fault.at(), fault.code()),
            is_executed: false,
        },
    }
}

// Answers a line that is a text.
fn answer_text(alloc: Global, engine: &mut Engine, text: &str, room: &mut Vec<u8>) -> Printed
    ensures { Answers (kept_state_of engine.old) text.now (printed_text result room.new.items) engine.new }
{
    match engine.line(text) {
        Ok(reply) => print_reply(alloc, room, &reply),
        Err(fault) => print_fault(alloc, room, fault.at(), fault.code()),
    }
}

// The text of a line, of which no more than the limit is kept.
fn line_text(line: &LineBuffer) -> Result<&str, LexFault>
    ensures { (bytes : List ℕ) → line.now ≡ buffered bytes → IsTextOf bytes result }
{
    match line.bytes() {
        Some(bytes) => text_of(bytes),
        None => Err(LexFault::LineTooLong),
    }
}
