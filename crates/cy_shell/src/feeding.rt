//! The entries of a line, printed after its answer.

ghost use Rattle.std.specs.Prelude.{◌≡◌, true, false, OnOk, OnErr};
ghost use Rattle.cy_shell.specs.Sinks.{HandsAllOn};
ghost use Rattle.cy_shell.specs.Streams.{Extends};
ghost use Rattle.cy_shell.specs.internal.Feeding.{WritesFeed, BeginsFeed};

use crate::printing::print_entry;
use crate::streams::{Failed, Sink};
use crate::writing::write_text;
use cy_engine::Entry;
use cy_values::Text;
use std::alloc::Global;

/// Writes the entries with the names of their views, each an object on a line of its own, in their order. Their texts are
/// made in a room.
pub(crate) fn write_feed<W: Sink>(
    alloc: Global,
    room: &mut Vec<u8>,
    sink: &mut W,
    entries: &[(Text, Entry)],
) -> Result<(), Failed>
    requires { W.has_failed sink.old ≡ false }
    ensures written { OnOk result (WritesFeed entries.now (W.written sink.old) (W.written sink.new)) }
    ensures handed { OnOk result (HandsAllOn W.Sink sink.old sink.new) }
    ensures keeps { Extends (W.handed_on sink.old) (W.handed_on sink.new) }
    ensures works { OnOk result (W.has_failed sink.new ≡ false) }
    ensures begun { OnErr result (BeginsFeed entries.now (W.written sink.old) (W.written sink.new)) }
    ensures fails { OnErr result (W.has_failed sink.new ≡ true) }
{
    for entry in entries {
        let printed = print_entry(alloc, room, entry);
        write_text(sink, printed.bytes(room.as_slice()))?;
    }
    Ok(())
}
