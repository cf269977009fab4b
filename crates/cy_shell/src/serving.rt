//! The whole of a run: an input is read to its end, and its lines are answered.

ghost use Rattle.std.specs.Prelude.{◌≡◌, ◌≢◌, ◌+◌, ◌≤◌, ◌<◌, [], length, take, ℕ, List, Option, Some, true, false, Err, OnOk, OnErr, IfOk, IfSome};
ghost use Rattle.cy_shell.specs.internal.Lines.{buffered};
ghost use Rattle.cy_shell.specs.Runs.{input_limit, WritesAll, StopsReading, StopsWriting, beginning};
ghost use Rattle.cy_shell.specs.PrintedHeadline.{AnswersAll, AnswersRead, AnswersBegun};
ghost use Rattle.cy_shell.specs.internal.Serving.{serving};
ghost use Rattle.cy_shell.specs.Sinks.{HandsAllOn};
ghost use Rattle.cy_shell.specs.Streams.{TakesFront};
ghost use Rattle.cy_shell.specs.declared.serving.RunFault.TheVariants.{Memory};

use crate::laws::headline_is_printed;
use crate::session::Session;
use crate::streams::{Failed, Sink, Source};
use std::alloc::{AllocError, Global};
use thiserror::Error;

/// How many bytes are read at a time.
const PIECE: usize = 65_536;

/// How many bytes of input are read at most: then a run stops.
const INPUT_LIMIT: u64 = 1 << 62;

/// How a run is set up.
#[derive(Clone, Copy, Debug, PartialEq, Eq)]
pub struct Settings {
    /// How many entries a view's history has: 1 to 4096.
    pub history: usize,
    /// Whether the entries that a line makes are printed after its reply.
    pub feed: bool,
}

/// Why a run ended before its input did.
#[derive(Clone, Copy, Debug, PartialEq, Eq, Error)]
pub enum RunFault {
    /// A read failed, or 2^62 bytes were read.
    #[error("the input cannot be read on")]
    Read,
    /// A write or a flush failed.
    #[error("the output cannot be written on")]
    Write,
    /// Out of memory at the start.
    #[error("no memory to begin with")]
    Memory,
}

impl RunFault {
    ghost use Rattle.std.specs.Prelude.{◌≡◌, None};
    ghost use Rattle.cy_shell.specs.Faults.{status_of};

    /// The status with which the program ends.
    pub fn code(&self) -> u16
        ensures { result ≡ status_of self.now }
    {
        match self {
            RunFault::Read | RunFault::Write => 3,
            RunFault::Memory => 4,
        }
    }

    /// The byte offset that the fault points at: there is none.
    pub fn at(&self) -> Option<usize>
        ensures { result ≡ None }
    {
        None
    }
}

impl From<AllocError> for RunFault {
    ghost from_gives = { λ _ fault. fault ≡ Memory };

    fn from(_error: AllocError) -> RunFault {
        RunFault::Memory
    }
}

/// Reads an input to its end, and answers its lines in order. A line ends at LF, and a last line without LF counts if it
/// is not empty. A reply or a fault is a JSON object on a line of its own, and is flushed; a line without tokens has no
/// reply. All memory for reading is taken at the start.
///
/// Fails with `Read` where a read fails, or once 2^62 bytes were read: the lines that had ended by then are answered.
/// Fails with `Write` where a write or a flush fails, and with `Memory` when out of memory at the start: nothing is
/// read or written then. Nothing that failed is tried again.
pub fn run<R: Source, W: Sink>(
    alloc: Global,
    source: &mut R,
    sink: &mut W,
    settings: Settings,
) -> Result<(), RunFault>
    requires readable { R.has_failed source.old ≡ false }
    requires writable { W.has_failed sink.old ≡ false }
    requires from { 1 ≤ settings.history }
    requires to { settings.history ≤ 4096 }

    // At the end of the input all was read, which is below the limit, and what was written is the printed answers to it,
    // and nothing else.
    ensures done { OnOk result (IfSome (R.remaining source.old) (λ input. (R.remaining source.new ≡ Some []) × (length input < input_limit)
        × WritesAll (beginning settings.history settings.feed) input (W.written sink.old) (W.written sink.new))) }
    ensures works { OnOk result ((R.has_failed source.new ≡ false) × (W.has_failed sink.new ≡ false)) }

    // The lines that were read whole are answered, and the source failed, or 2^62 bytes were read.
    ensures read { result ≡ Err RunFault.Read → IfSome (R.remaining source.old) (λ input.
        StopsReading (beginning settings.history settings.feed) input (R.remaining source.new) (R.has_failed source.new) (W.written sink.old) (W.written sink.new)) }
    ensures read_works { result ≡ Err RunFault.Read → W.has_failed sink.new ≡ false }

    // The sink failed at the answers to what the last read took. It may fail at any call: so before each read all lines that had ended
    // were answered, and their answers were handed on.
    ensures write { result ≡ Err RunFault.Write → IfSome (R.remaining source.old) (λ input.
        StopsWriting (beginning settings.history settings.feed) input (R.remaining source.new) (R.taken source.new) (W.written sink.old) (W.written sink.new) (W.handed_on sink.old) (W.handed_on sink.new)) }
    ensures write_fails { result ≡ Err RunFault.Write → W.has_failed sink.new ≡ true }
    ensures write_works { result ≡ Err RunFault.Write → R.has_failed source.new ≡ false }

    // Else all that was written was handed on, if all before it was.
    ensures handed { result ≢ Err RunFault.Write → HandsAllOn W.Sink sink.old sink.new }

    // The headline holds of what is written: of all lines at the end of the input, of those that were read whole where the source failed or
    // 2^62 bytes were read, and of those that had ended before the last read where the sink failed.
    ensures headline { OnOk result (IfSome (R.remaining source.old) (λ input.
        AnswersAll settings.history settings.feed input (W.written sink.old) (W.written sink.new))) }
    ensures read_headline { result ≡ Err RunFault.Read → IfSome (R.remaining source.old) (λ input.
        AnswersRead settings.history settings.feed input (R.remaining source.new) (W.written sink.old) (W.written sink.new)) }
    ensures write_headline { result ≡ Err RunFault.Write → IfSome (R.remaining source.old) (λ input.
        AnswersBegun settings.history settings.feed input (R.remaining source.new) (W.written sink.old) (W.written sink.new)) }

    // Nothing was read or written.
    ensures memory { result ≡ Err RunFault.Memory → (source.new ≡ source.old) × (sink.new ≡ sink.old) }
{
    let mut piece = new_piece(alloc)?;
    let mut session = Session::new(alloc, settings.history, settings.feed)?;
    headline_is_printed();
    serve(&mut session, piece.as_mut_slice(), source, sink)
}

// The room for a piece of the input. Fails only when out of memory.
fn new_piece(alloc: Global) -> Result<Vec<u8>, AllocError>
    ensures { IfOk result (λ piece. length piece.items ≡ 65536) }
{
    Ok(vec![in alloc; 0u8; PIECE]?)
}

// Serves an input to its end with a session in which no line has begun, a piece at a time.
fn serve<R: Source, W: Sink>(
    session: &mut Session,
    piece: &mut [u8],
    source: &mut R,
    sink: &mut W,
) -> Result<(), RunFault>
    requires readable { R.has_failed source.old ≡ false }
    requires writable { W.has_failed sink.old ≡ false }
    requires begins { session.old.line ≡ buffered [] }
    requires some_room { 0 < length piece.old }
    ensures done { OnOk result (IfSome (R.remaining source.old) (λ input. (R.remaining source.new ≡ Some []) × (length input < input_limit)
        × WritesAll (serving session.old.engine session.old.feed) input (W.written sink.old) (W.written sink.new))) }
    ensures works { OnOk result ((R.has_failed source.new ≡ false) × (W.has_failed sink.new ≡ false)) }
    ensures read { result ≡ Err RunFault.Read → IfSome (R.remaining source.old) (λ input.
        StopsReading (serving session.old.engine session.old.feed) input (R.remaining source.new) (R.has_failed source.new) (W.written sink.old) (W.written sink.new)) }
    ensures read_works { result ≡ Err RunFault.Read → W.has_failed sink.new ≡ false }
    ensures write { result ≡ Err RunFault.Write → IfSome (R.remaining source.old) (λ input.
        StopsWriting (serving session.old.engine session.old.feed) input (R.remaining source.new) (R.taken source.new) (W.written sink.old) (W.written sink.new) (W.handed_on sink.old) (W.handed_on sink.new)) }
    ensures write_fails { result ≡ Err RunFault.Write → W.has_failed sink.new ≡ true }
    ensures write_works { result ≡ Err RunFault.Write → R.has_failed source.new ≡ false }
    ensures handed { result ≢ Err RunFault.Write → HandsAllOn W.Sink sink.old sink.new }
    ensures no_memory { result ≢ Err RunFault.Memory }
{
    let mut total = 0;
    while total < INPUT_LIMIT {
        let Ok(count) = read_piece(source, piece, total) else {
            return Err(RunFault::Read);
        };
        if count == 0 {
            let Ok(()) = session.finish(sink) else {
                return Err(RunFault::Write);
            };
            return Ok(());
        }
        let Ok(()) = session.serve_piece(sink, &piece[..count]) else {
            return Err(RunFault::Write);
        };
        total += count as u64;
    }
    Err(RunFault::Read)
}

// Reads the next bytes of the input into the front of a piece, where a total was read before it. Past the limit nothing
// is read.
fn read_piece<R: Source>(source: &mut R, piece: &mut [u8], total: u64) -> Result<usize, Failed>
    requires readable { R.has_failed source.old ≡ false }
    requires below { total < input_limit }
    requires some_room { 0 < length piece.old }
    ensures within { IfOk result (λ count. count ≤ length piece.old) }
    ensures limited { IfOk result (λ count. total + count ≤ input_limit) }
    ensures front { IfOk result (λ count. TakesFront (R.remaining source.old) (R.remaining source.new) piece.old piece.new count) }
    ensures took { IfOk result (λ count. IfSome (R.taken source.new) (λ bytes. bytes ≡ take count piece.new)) }
    ensures works { OnOk result (R.has_failed source.new ≡ false) }
    ensures moves_nothing { OnErr result (R.remaining source.new ≡ R.remaining source.old) }
    ensures fails { OnErr result (R.has_failed source.new ≡ true) }
{
    let most = (INPUT_LIMIT - total).min(piece.len() as u64) as usize;
    source.read(&mut piece[..most])
}
