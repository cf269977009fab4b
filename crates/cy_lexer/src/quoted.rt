//! Texts and quoted names.

ghost use Rattle.std.specs.Prelude.{◌≡◌, ◌+◌, string_bytes, encode_utf8_all, ◌<◌, ◌≤◌, ◌^◌, length, drop, option_map, IfSome, IfOk, IfErr, chars};
ghost use Rattle.cy_lexer.specs.internal.Reading.{seen, taken, map_ok, offset};
ghost use Rattle.cy_lexer.specs.Quoted.{plain_escape, coded_escape, escape, closes, character, quoted_len, between_quotes};

use crate::characters::{Run, after_run, begins_with, split_first};
use crate::faults::LexFault;
use std::alloc::Global;

/// What one character after a backslash stands for.
fn plain_escape(c: char) -> Option<char>
    ensures { result ≡ plain_escape c }
{
    match c {
        '\\' | '\'' | '"' => Some(c),
        'b' => Some('\u{8}'),
        'f' => Some('\u{c}'),
        'n' => Some('\n'),
        'r' => Some('\r'),
        't' => Some('\t'),
        _ => None,
    }
}

/// The character whose code this many hexadecimal digits at the front of the text give, and what follows them.
fn coded_escape(digits: u32, text: &str) -> Option<(char, &str)>
    requires { digits ≤ 8 }
    ensures value { option_map seen result
        ≡ option_map (taken (chars text.now)) (coded_escape digits (chars text.now)) }
    ensures shorter { IfSome result (λ p. length p.1.now ≤ length text.now) }
{
    let mut code = 0;
    let mut rest = text;
    for _ in 0..digits {
        let (first, after) = split_first(rest)?;
        code = code * 16 + first.to_digit(16)?;
        rest = after;
    }
    Some((char::from_u32(code)?, rest))
}

/// The character that the escape at the front of the text, after its backslash, stands for, and what follows it.
fn escape(text: &str) -> Option<(char, &str)>
    ensures value { option_map seen result ≡ option_map (taken (chars text.now)) (escape (chars text.now)) }
    ensures shorter { IfSome result (λ p. length p.1.now ≤ length text.now) }
{
    let (first, after) = split_first(text)?;
    match first {
        'u' => coded_escape(4, after),
        'U' => coded_escape(8, after),
        _ => Some((plain_escape(first)?, after)),
    }
}

/// Whether the first character of a text, which goes on after it, closes what the quote opened.
pub(crate) fn closes(quote: char, first: char, after: &str) -> bool
    ensures { result ≡ closes quote first (chars after.now) }
{
    first == quote && !(quote == '`' && begins_with(after, '`'))
}

/// The character that stands at the front of a text inside of the quotes, and what follows it.
fn character(quote: char, first: char, after: &str) -> Option<(char, &str)>
    ensures value { option_map seen result
        ≡ option_map (taken (chars after.now)) (character quote first (chars after.now)) }
    ensures shorter { IfSome result (λ p. length p.1.now ≤ length after.now) }
{
    match first {
        '\\' if quote != '`' => escape(after),
        '`' if quote == '`' => match split_first(after) {
            Some((_, left)) => Some((first, left)),
            None => Some((first, after)),
        },
        _ => Some((first, after)),
    }
}

/// What follows the quote that closes what the quote before the text opened. Fails with `BadEscape`, by its offset in a
/// line of this many bytes that the text ends, and with `unclosed` where the text ends before the quote.
pub(crate) fn after_quoted(
    total: usize,
    quote: char,
    unclosed: LexFault,
    text: &str,
) -> Result<&str, LexFault>
    requires { length text.now ≤ total }
    ensures value { map_ok (λ s. chars s.now) result
        ≡ map_ok (λ n. drop n (chars text.now)) (quoted_len (offset total) unclosed quote 0 (chars text.now)) }
    ensures shorter { IfOk result (λ s. length s.now ≤ length text.now) }
{
    let mut rest = after_run(Run::Quoted(quote), text);
    while let Some((first, after)) = split_first(rest) {
        if closes(quote, first, after) {
            return Ok(after);
        }
        let Some((_, left)) = character(quote, first, after) else {
            return Err(LexFault::BadEscape(total - rest.len()));
        };
        rest = after_run(Run::Quoted(quote), left);
    }
    Err(unclosed)
}

/// The characters between the quote at the front of the text and the one that closes it, each escape and each doubled
/// backtick as what it stands for. Fails only when out of memory.
pub(crate) fn between_quotes(alloc: Global, text: &str) -> Result<String, LexFault>
    ensures value { IfOk result (λ s. string_bytes s ≡ encode_utf8_all (between_quotes (chars text.now))) }
    ensures memory { IfErr result (λ e. e ≡ LexFault.NoMemory) }
{
    let mut string = String::with_capacity(alloc, text.len())?;
    let Some((quote, inner)) = split_first(text) else {
        return Ok(string);
    };
    let mut rest = inner;
    while let Some((first, after)) = split_first(rest) {
        if closes(quote, first, after) {
            break;
        }
        let Some((c, left)) = character(quote, first, after) else {
            break;
        };
        string.push(c)?;
        rest = left;
    }
    Ok(string)
}
