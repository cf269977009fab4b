//! What a line asks for, by its tokens.

ghost use Rattle.std.specs.Prelude.{◌≡◌, ◌≢◌, [], MatchResult, OnErr, ◌⊎◌};
ghost use Rattle.cy_engine_lines.specs.Requests as spec;
ghost use Rattle.cy_engine_lines.specs.internal.Stages.{shown};

use crate::faults::Fault;
use cy_lexer::{Symbol, Token, TokenKind, is_same_word};
use cy_parser::{denoted_text, is_word, slice_in};
use cy_values::Text;
use std::alloc::Global;

/// What a line asks for.
#[derive(Drop)]
pub(crate) enum Request<'a> {
    /// The line has no token.
    Nothing,
    /// A statement, of these tokens.
    Statement(&'a [Token]),
    /// `:view NAME query`, of the query's tokens.
    View { name: Text, query: &'a [Token] },
    /// `:rows NAME`.
    Rows { name: Text },
    /// `:since NAME TICK`.
    Since { name: Text, tick: u64 },
    /// `:views`.
    ListOfViews,
    /// `:steps`.
    ListOfSteps,
    /// `:drop NAME`.
    Drop { name: Text },
    /// `:index LABEL KEY`.
    Index { label: Text, key: Text },
}

/// No integer of 64 bits is this number or above, so no tick is.
const TICK_LIMIT: u64 = 9223372036854775808;

/// What the tokens of a line ask for: a colon begins a command, any other token a statement. A command whose word is missing,
/// quoted or unknown is `UnknownCommand`, one with a missing, wrong or extra argument `BadArgument`.
pub(crate) fn read_request<'a>(
    alloc: Global,
    tokens: &'a [Token],
    line: &str,
) -> Result<Request<'a>, Fault>
    ensures request { MatchResult result (λ request. spec.request line.now tokens.now ≡ shown request) (λ fault. (fault ≡ Fault.NoMemory) ⊎ (spec.request line.now tokens.now ≡ spec.Refused fault)) }
    ensures some { OnErr result (tokens.now ≢ []) }
{
    match tokens.split_first() {
        None => Ok(Request::Nothing),
        Some((first, command)) if first.is_symbol(Symbol::Colon) => {
            command_request(alloc, command, line)
        }
        Some(_) => Ok(Request::Statement(tokens)),
    }
}

// The word of a command is read without regard to case.
fn command_request<'a>(
    alloc: Global,
    command: &'a [Token],
    line: &str,
) -> Result<Request<'a>, Fault>
    ensures { MatchResult result (λ request. spec.command_request line.now command.now ≡ shown request) (λ fault. (fault ≡ Fault.NoMemory) ⊎ (spec.command_request line.now command.now ≡ spec.Refused fault)) }
{
    let Some((word, arguments)) = command.split_first() else {
        return Err(Fault::UnknownCommand);
    };
    if is_command("VIEW", line, word) {
        view_request(alloc, arguments, line)
    } else if is_command("ROWS", line, word) {
        rows_request(alloc, without_end(arguments), line)
    } else if is_command("SINCE", line, word) {
        since_request(alloc, without_end(arguments), line)
    } else if is_command("VIEWS", line, word) {
        views_request(without_end(arguments))
    } else if is_command("DROP", line, word) {
        drop_request(alloc, without_end(arguments), line)
    } else if is_command("STEPS", line, word) {
        steps_request(without_end(arguments))
    } else if is_command("INDEX", line, word) {
        index_request(alloc, without_end(arguments), line)
    } else {
        Err(Fault::UnknownCommand)
    }
}

fn view_request<'a>(alloc: Global, arguments: &'a [Token], line: &str) -> Result<Request<'a>, Fault>
    ensures { MatchResult result (λ request. spec.view_request line.now arguments.now ≡ shown request) (λ fault. (fault ≡ Fault.NoMemory) ⊎ (spec.view_request line.now arguments.now ≡ spec.Refused fault)) }
{
    match arguments.split_first() {
        Some((name, query)) if is_word(name.kind) => Ok(Request::View {
            name: denoted_text(alloc, line, name)?,
            query,
        }),
        _ => Err(Fault::BadArgument),
    }
}

fn rows_request<'a>(alloc: Global, arguments: &'a [Token], line: &str) -> Result<Request<'a>, Fault>
    ensures { MatchResult result (λ request. spec.rows_request line.now arguments.now ≡ shown request) (λ fault. (fault ≡ Fault.NoMemory) ⊎ (spec.rows_request line.now arguments.now ≡ spec.Refused fault)) }
{
    match arguments {
        [name] if is_word(name.kind) => Ok(Request::Rows {
            name: denoted_text(alloc, line, name)?,
        }),
        _ => Err(Fault::BadArgument),
    }
}

fn since_request<'a>(
    alloc: Global,
    arguments: &'a [Token],
    line: &str,
) -> Result<Request<'a>, Fault>
    ensures { MatchResult result (λ request. spec.since_request line.now arguments.now ≡ shown request) (λ fault. (fault ≡ Fault.NoMemory) ⊎ (spec.since_request line.now arguments.now ≡ spec.Refused fault)) }
{
    match arguments {
        [name, tick] if is_word(name.kind) => {
            let tick = tick_in(tick.kind).ok_or(Fault::BadArgument)?;
            Ok(Request::Since {
                name: denoted_text(alloc, line, name)?,
                tick,
            })
        }
        _ => Err(Fault::BadArgument),
    }
}

fn views_request<'a>(arguments: &[Token]) -> Result<Request<'a>, Fault>
    ensures { MatchResult result (λ request. spec.views_request arguments.now ≡ shown request) (λ fault. spec.views_request arguments.now ≡ spec.Refused fault) }
{
    match arguments {
        [] => Ok(Request::ListOfViews),
        _ => Err(Fault::BadArgument),
    }
}

fn steps_request<'a>(arguments: &[Token]) -> Result<Request<'a>, Fault>
    ensures { MatchResult result (λ request. spec.steps_request arguments.now ≡ shown request) (λ fault. spec.steps_request arguments.now ≡ spec.Refused fault) }
{
    match arguments {
        [] => Ok(Request::ListOfSteps),
        _ => Err(Fault::BadArgument),
    }
}

fn drop_request<'a>(alloc: Global, arguments: &'a [Token], line: &str) -> Result<Request<'a>, Fault>
    ensures { MatchResult result (λ request. spec.drop_request line.now arguments.now ≡ shown request) (λ fault. (fault ≡ Fault.NoMemory) ⊎ (spec.drop_request line.now arguments.now ≡ spec.Refused fault)) }
{
    match arguments {
        [name] if is_word(name.kind) => Ok(Request::Drop {
            name: denoted_text(alloc, line, name)?,
        }),
        _ => Err(Fault::BadArgument),
    }
}

fn index_request<'a>(
    alloc: Global,
    arguments: &'a [Token],
    line: &str,
) -> Result<Request<'a>, Fault>
    ensures { MatchResult result (λ request. spec.index_request line.now arguments.now ≡ shown request) (λ fault. (fault ≡ Fault.NoMemory) ⊎ (spec.index_request line.now arguments.now ≡ spec.Refused fault)) }
{
    match arguments {
        [label, key] if is_word(label.kind) && is_word(key.kind) => Ok(Request::Index {
            label: denoted_text(alloc, line, label)?,
            key: denoted_text(alloc, line, key)?,
        }),
        _ => Err(Fault::BadArgument),
    }
}

// The tick that a token denotes.
fn tick_in(kind: TokenKind) -> Option<u64>
    ensures { result ≡ spec.tick_in kind }
{
    match kind {
        TokenKind::Number(number) if number < TICK_LIMIT => Some(number),
        _ => None,
    }
}

// The tokens without one `;` at their end.
fn without_end(tokens: &[Token]) -> &[Token]
    ensures { result.now ≡ spec.without_end tokens.now }
{
    let Some((last, before)) = tokens.split_last() else {
        return tokens;
    };
    if last.is_symbol(Symbol::Semicolon) {
        before
    } else {
        tokens
    }
}

// Whether a token is the word of a command.
fn is_command(spelling: &str, line: &str, word: &Token) -> bool
    ensures { result ≡ spec.is_command spelling.now line.now word.now }
{
    word.kind == TokenKind::Name && is_same_word(spelling, slice_in(line, word))
}
