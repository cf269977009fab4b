//! Writing whole texts.

ghost use Rattle.std.specs.Prelude.{◌≡◌, true, false, OnOk, OnErr};
ghost use Rattle.cy_shell.specs.Sinks.{HandsAllOn};
ghost use Rattle.cy_shell.specs.Streams.{Extends, appended};
ghost use Rattle.cy_shell.specs.internal.Writing.{AppendsFront};

use crate::streams::{Failed, Sink};

/// Writes a text and hands it on. Of an empty text nothing is written.
pub(crate) fn write_text<W: Sink>(sink: &mut W, text: &[u8]) -> Result<(), Failed>
    requires { W.has_failed sink.old ≡ false }
    ensures written { OnOk result (W.written sink.new ≡ appended (W.written sink.old) text.now) }
    ensures handed { OnOk result (HandsAllOn W.Sink sink.old sink.new) }
    ensures keeps { Extends (W.handed_on sink.old) (W.handed_on sink.new) }
    ensures works { OnOk result (W.has_failed sink.new ≡ false) }
    ensures front { OnErr result (AppendsFront (W.written sink.old) (W.written sink.new) text.now) }
    ensures fails { OnErr result (W.has_failed sink.new ≡ true) }
{
    if text.is_empty() {
        return Ok(());
    }
    write_all(sink, text)?;
    sink.flush()
}

// Writes all the bytes, or a front of them where a write fails.
fn write_all<W: Sink>(sink: &mut W, bytes: &[u8]) -> Result<(), Failed>
    requires { W.has_failed sink.old ≡ false }
    ensures written { OnOk result (W.written sink.new ≡ appended (W.written sink.old) bytes.now) }
    ensures keeps { Extends (W.handed_on sink.old) (W.handed_on sink.new) }
    ensures works { OnOk result (W.has_failed sink.new ≡ false) }
    ensures front { OnErr result (AppendsFront (W.written sink.old) (W.written sink.new) bytes.now) }
    ensures fails { OnErr result (W.has_failed sink.new ≡ true) }
{
    let mut at = 0;
    while at < bytes.len() {
        at += sink.write(&bytes[at..])?;
    }
    Ok(())
}
