//! The text of what is answered.

ghost use Rattle.std.specs.Prelude.{◌≡◌, [], Some, OnOk};
ghost use Rattle.cy_shell.specs.Replies.{entry_json};
ghost use Rattle.cy_shell.specs.Printed.{printed_line, IsObjectText, IsReplyText, IsFaultText};
ghost use Rattle.cy_shell.specs.internal.Printing.{printed_text};

use crate::json_values::WriteJson;
use crate::replies::FaultObject;
use cy_engine::{Entry, Reply};
use cy_values::Text;
use json::Writer;
use std::alloc::{AllocError, Global};
use std::mem;

// The texts that are printed when out of memory for another.
const NO_MEMORY: &str = "{\"at\":null,\"code\":90,\"error\":\"NoMemory\"}\n";

const REPLY_LOST: &str = "{\"at\":null,\"code\":91,\"error\":\"ReplyLost\"}\n";

/// The most bytes of room that are kept from one text to the next.
const KEPT_ROOM: usize = 65_536;

/// What is printed for one line. Its text was made in a room, which has it until the next is made.
#[derive(Clone, Copy)]
pub(crate) enum Printed {
    Nothing,
    /// What the room has.
    Text,
    /// Out of memory for the line, or for the text of its fault.
    NoMemory,
    /// Out of memory for the text of its reply.
    ReplyLost,
}

impl Printed {
    /// The text, where it was made in this room.
    pub(crate) fn bytes<'a>(&self, room: &'a [u8]) -> &'a [u8]
        ensures { result.now ≡ printed_text self.now room.entry.now }
    {
        match self {
            Printed::Nothing => &[],
            Printed::Text => room,
            Printed::NoMemory => NO_MEMORY.as_bytes(),
            Printed::ReplyLost => REPLY_LOST.as_bytes(),
        }
    }
}

/// What is printed for a reply.
pub(crate) fn print_reply(alloc: Global, room: &mut Vec<u8>, reply: &Reply) -> Printed
    ensures { IsReplyText reply.now (printed_text result room.new.items) }
{
    match reply {
        Reply::Nothing => Printed::Nothing,
        _ => match write_line(alloc, room, reply) {
            Ok(()) => Printed::Text,
            Err(AllocError) => Printed::ReplyLost,
        },
    }
}

/// What is printed for an entry of a view, whose name stands with it.
pub(crate) fn print_entry(alloc: Global, room: &mut Vec<u8>, entry: &(Text, Entry)) -> Printed
    ensures { IsObjectText (Some (entry_json entry.now)) (printed_text result room.new.items) }
{
    match write_line(alloc, room, entry) {
        Ok(()) => Printed::Text,
        Err(AllocError) => Printed::ReplyLost,
    }
}

/// What is printed for a fault. Being out of memory is reported without taking any.
pub(crate) fn print_fault(
    alloc: Global,
    room: &mut Vec<u8>,
    at: Option<usize>,
    code: u16,
) -> Printed
    ensures { IsFaultText at code (printed_text result room.new.items) }
{
    if code == 90 {
        return Printed::NoMemory;
    }
    match write_line(alloc, room, &FaultObject { at, code }) {
        Ok(()) => Printed::Text,
        Err(AllocError) => Printed::NoMemory,
    }
}

// Makes the compact text of an object, with its LF, in a room. It stays a function of its own, so that a bench can count
// what a text costs.
#[inline(never)]
fn write_line<T: WriteJson>(alloc: Global, room: &mut Vec<u8>, object: &T) -> Result<(), AllocError>
    ensures { OnOk result (room.new.items ≡ printed_line (T.json object.now)) }
{
    let mut out = Writer::new(emptied(alloc, room));
    let written = object.write_json(&mut out);
    *room = out.into_inner();
    written?;
    room.push(b'\n')?;
    Ok(())
}

// Takes a room, with nothing in it. One that a long text made large is given up.
fn emptied(alloc: Global, room: &mut Vec<u8>) -> Vec<u8>
    ensures { result.items ≡ [] }
{
    let mut bytes = mem::replace(room, Vec::new(alloc));
    if bytes.capacity() > KEPT_ROOM {
        return Vec::new(alloc);
    }
    bytes.clear();
    bytes
}
