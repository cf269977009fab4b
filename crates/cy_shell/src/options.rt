//! The program's options.

ghost use Rattle.std.specs.Prelude.{◌≡◌, ◌≤◌, IfOk, false, length, map, string_bytes};
ghost use Rattle.clap.specs.Words.{FailsBy, app_of, found_of, rows_of};
ghost use Rattle.cy_shell.specs.Options.{IsInvocation, found, objections, options};
ghost use Rattle.cy_shell.specs.internal.Options.{HasHistory};

use crate::serving::Settings;
use clap::error::ErrorKind;
use clap::{Arg, ArgAction, ArgMatches, Command, value_parser};
use std::alloc::{AllocError, Global};
use thiserror::Error;

/// How many entries a view's history has where no option says.
const DEFAULT_HISTORY: usize = 64;

/// What the program's arguments ask for.
#[derive(Debug, Drop)]
pub enum Invocation {
    /// A run that is set up so.
    Run(Settings),
    /// The help text.
    Help(String),
}

/// Why the program's arguments ask for nothing.
#[derive(Clone, Copy, Debug, PartialEq, Eq, Error)]
pub enum ArgFault {
    /// An argument is no option, an option is there twice, or a history is missing or no number from 1 to 4096.
    #[error("bad arguments")]
    Bad,
    /// Out of memory for reading the arguments.
    #[error("no memory for the arguments")]
    Memory,
}

impl ArgFault {
    ghost use Rattle.std.specs.Prelude.{◌≡◌, None};
    ghost use Rattle.cy_shell.specs.Faults.{argument_status_of};

    /// The status with which the program ends.
    pub fn code(&self) -> u16
        ensures { result ≡ argument_status_of self.now }
    {
        match self {
            ArgFault::Bad => 2,
            ArgFault::Memory => 4,
        }
    }

    /// The byte offset that the fault points at: there is none.
    pub fn at(&self) -> Option<usize>
        ensures { result ≡ None }
    {
        None
    }
}

impl From<AllocError> for ArgFault {
    ghost use Rattle.cy_shell.specs.declared.options.ArgFault.TheVariants.{Memory};

    ghost from_gives = { λ _ fault. fault ≡ Memory };

    fn from(_error: AllocError) -> ArgFault {
        ArgFault::Memory
    }
}

/// What the program's arguments ask for. The first of the words is the program's name, which says nothing.
///
/// `--history N` is how many entries a view's history has, from 1 to 4096, and `--feed` has the entries that a line makes
/// printed after its reply. Where there is no such option, the history has 64 entries, and no entry is printed. `--help`
/// asks for the help text, unless a bad argument comes before it.
///
/// Fails with `Bad` at any other words, and with `Memory` when out of memory.
pub fn settings(alloc: Global, words: &[String]) -> Result<Invocation, ArgFault>
    ensures asked { IsInvocation (map string_bytes words.now) result }
    ensures plain { length words.now ≤ 1 → IfOk result (λ asked. asked ≡ Invocation.Run (record { history = 64; feed = false })) }
{
    match matches(alloc, words) {
        Ok(matches) => Ok(Invocation::Run(Settings {
            history: matches.get_one("history").unwrap_or(DEFAULT_HISTORY),
            feed: matches.get_flag("feed"),
        })),
        Err(error) => match error.kind() {
            ErrorKind::DisplayHelp => Ok(Invocation::Help(format!(in alloc; "{error}")?)),
            ErrorKind::OutOfMemory => Err(ArgFault::Memory),
            _ => Err(ArgFault::Bad),
        },
    }
}

// What the options are, where the words are good.
fn matches<'a>(alloc: Global, words: &'a [String]) -> Result<ArgMatches<'a>, clap::Error>
    ensures kinds { FailsBy (objections (map string_bytes words.now)) result }
    ensures rows { IfOk result (λ matches. rows_of (found_of matches) ≡ found (map string_bytes words.now)) }
    ensures history { IfOk result HasHistory }
{
    command(alloc)?.try_get_matches_from(words)
}

// The program's command, with its options.
fn command<'a>(alloc: Global) -> Result<Command<'a>, AllocError>
    ensures { IfOk result (λ made. app_of made ≡ options) }
{
    let history = Arg::new(alloc, "history")
        .long("history")
        .value_name("N")
        .value_parser(value_parser!(usize).range(1..=4096))
        .help("How many entries a view's history has, 1 to 4096 [default: 64]");
    let feed = Arg::new(alloc, "feed")
        .long("feed")
        .action(ArgAction::SetTrue)
        .help("Prints what each line changes in the rows of the views");
    Command::new(alloc, "cypher_live")
        .about("A property graph database: lines of Cypher in, a JSON object for each out")
        .arg(history)?
        .arg(feed)
}
