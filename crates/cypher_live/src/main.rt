//! The program: lines of standard input in, a JSON object for each on standard output.
#![tactic(auto)]

ghost use Rattle.std.specs.Prelude.{◌≡◌, ◌⊎◌, ◌≤◌, IfSome, Ok, false, true};
ghost use Rattle.std.specs.Process.{exit_status};
ghost use Rattle.cy_shell.specs.PrintedHeadline.{AnswersAll, AnswersRead, AnswersBegun};
ghost use Rattle.cy_shell.specs.Runs.{StopsReading, StopsWriting, WritesAll, beginning};
ghost use Rattle.cypher_live.specs.internal.Requests.{HasHistory};

use cy_shell::{
    ArgFault, InputSource, Invocation, OutputSink, Settings, Sink, Source, run, settings,
};
use std::alloc::Global;
use std::env::Env;
use std::process::ExitCode;
use std::{env, io};

/// The status where standard output takes no help text.
const NOT_WRITTEN: u8 = 3;

fn main(rt: HostRuntime) -> ExitCode {
    match request(&rt) {
        Ok(Invocation::Run(settings)) => {
            let mut source = InputSource::new(rt.reader());
            let mut sink = OutputSink::new(io::writer(&rt));
            serve(rt.alloc(), &mut source, &mut sink, settings)
        }
        Ok(Invocation::Help(text)) => match print!(rt; "{text}") {
            Ok(()) => ExitCode::SUCCESS,
            Err(_) => ExitCode::from(NOT_WRITTEN),
        },
        Err(fault) => {
            if fault == ArgFault::Bad {
                let _ = eprintln!(rt; "cypher_live: bad arguments");
            }
            ExitCode::from(fault.code() as u8)
        }
    }
}

// What the program's arguments ask for. One that isn't UTF-8 is bad.
fn request<R: Env + AllocGlobal>(rt: &R) -> Result<Invocation, ArgFault>
    ensures { HasHistory result }
{
    let words: Vec<String> = match env::args(rt) {
        Ok(words) => words.collect(rt.alloc())?,
        Err(error) if error.kind() == io::ErrorKind::OutOfMemory => return Err(ArgFault::Memory),
        Err(_) => return Err(ArgFault::Bad),
    };
    settings(rt.alloc(), words.as_slice())
}

// Answers the lines of a source on a sink, and says how the program ends: with 0 where all were answered, with 3 where a stream failed or
// 2^62 bytes were read, and with 4 when out of memory at the start.
fn serve<R: Source, W: Sink>(
    alloc: Global,
    source: &mut R,
    sink: &mut W,
    settings: Settings,
) -> ExitCode
    requires readable { R.has_failed source.old ≡ false }
    requires writable { W.has_failed sink.old ≡ false }
    requires from { 1 ≤ settings.history }
    requires to { settings.history ≤ 4096 }
    ensures ended { exit_status result ≡ 0 → IfSome (R.remaining source.old) (λ input.
        WritesAll (beginning settings.history settings.feed) input (W.written sink.old) (W.written sink.new)) }
    ensures works { exit_status result ≡ 0 → (R.has_failed source.new ≡ false) × (W.has_failed sink.new ≡ false) }
    ensures handed { exit_status result ≡ 0 → W.handed_on sink.old ≡ W.written sink.old → W.handed_on sink.new ≡ W.written sink.new }
    ensures stopped { exit_status result ≡ 3 → IfSome (R.remaining source.old) (λ input.
        StopsReading (beginning settings.history settings.feed) input (R.remaining source.new) (R.has_failed source.new) (W.written sink.old) (W.written sink.new)
        ⊎ ((W.has_failed sink.new ≡ true)
        × StopsWriting (beginning settings.history settings.feed) input (R.remaining source.new) (R.taken source.new) (W.written sink.old) (W.written sink.new) (W.handed_on sink.old) (W.handed_on sink.new))) }
    ensures headline { exit_status result ≡ 0 → IfSome (R.remaining source.old) (λ input.
        AnswersAll settings.history settings.feed input (W.written sink.old) (W.written sink.new)) }
    ensures stopped_headline { exit_status result ≡ 3 → IfSome (R.remaining source.old) (λ input.
        AnswersRead settings.history settings.feed input (R.remaining source.new) (W.written sink.old) (W.written sink.new)
        ⊎ ((W.has_failed sink.new ≡ true)
        × AnswersBegun settings.history settings.feed input (R.remaining source.new) (W.written sink.old) (W.written sink.new))) }
    ensures memory { exit_status result ≡ 4 → (source.new ≡ source.old) × (sink.new ≡ sink.old) }
    ensures known { (exit_status result ≡ 0) ⊎ (exit_status result ≡ 3) ⊎ (exit_status result ≡ 4) }
{
    match run(alloc, source, sink, settings) {
        Ok(()) => ExitCode::SUCCESS,
        Err(fault) => ExitCode::from(fault.code() as u8),
    }
}
