//! Runs the sessions of the transcripts again, and reports where what is written is something else.
#![tactic(auto)]

ghost use Rattle.std.specs.Prelude.{◌≤◌};

mod replay;
mod transcript;

use crate::replay::{Way, difference};
use crate::transcript::{Session, sessions};
use cy_shell::Settings;
use std::rt::Files;
use std::{fs, io};

/// The transcripts, and whether entries follow the answers.
const TRANSCRIPTS: [(&str, bool); 32] = [
    ("start.session", true),
    ("commands.session", true),
    ("dashboard.session", true),
    ("access.session", true),
    ("dependencies.session", true),
    ("fraud.session", true),
    ("ways.session", true),
    ("language.session", false),
    ("expressions.session", false),
    ("queries.session", false),
    ("searches.session", false),
    ("values.session", false),
    ("spellings.session", false),
    ("rows.session", false),
    ("entries.session", true),
    ("relationships.session", true),
    ("refused.session", true),
    ("tokens.session", false),
    ("grammar.session", false),
    ("scope.session", false),
    ("views.session", false),
    ("clauses.session", false),
    ("conditions.session", true),
    ("unions.session", true),
    ("changes.session", false),
    ("updates.session", true),
    ("upkeep.session", true),
    ("small_graphs.session", false),
    ("feeds.session", true),
    ("limits.session", false),
    ("beginnings.session", false),
    ("script.session", false),
];

fn main(rt: HostRuntime) -> io::Result<()> {
    for (name, feed) in TRANSCRIPTS {
        replay_file(&rt, name, Settings { history: 64, feed })?;
    }
    let short = Settings {
        history: 2,
        feed: false,
    };
    replay_file(&rt, "history.session", short)
}

// Runs the sessions of a file.
fn replay_file<R: Files + Print + AllocGlobal>(
    rt: &R,
    name: &str,
    settings: Settings,
) -> io::Result<()>
    requires from { 1 ≤ settings.history }
    requires to { settings.history ≤ 4096 }
{
    let text = fs::read_to_string(rt, name)?;
    let sessions = sessions(rt.alloc(), text.as_str())?;
    let mut as_written = 0usize;
    for session in &sessions {
        if is_as_written(rt, name, session, settings)? {
            as_written = as_written.saturating_add(1);
        }
    }
    let count = sessions.len();
    println!(rt; "{name}: {as_written} of {count} sessions as written")
}

// Whether a session is answered as it says in each way. What is written in the first way where it isn't is printed.
fn is_as_written<R: Print + AllocGlobal>(
    rt: &R,
    name: &str,
    session: &Session,
    settings: Settings,
) -> io::Result<bool>
    requires from { 1 ≤ settings.history }
    requires to { settings.history ≤ 4096 }
{
    for way in [Way::Whole, Way::WithoutRefused, Way::WithoutFeed] {
        if let Some(output) = difference(rt.alloc(), session, way, settings)? {
            print_difference(rt, name, session.place, way, output.as_str())?;
            return Ok(false);
        }
    }
    Ok(true)
}

fn print_difference<R: Print>(
    rt: &R,
    name: &str,
    place: usize,
    way: Way,
    output: &str,
) -> io::Result<()> {
    let words = way.words();
    println!(rt; "{name}: the session at line {place}, run {words}, is answered:")?;
    print!(rt; "{output}")
}
