//! The pieces of a line: its tokens, and the gaps between them.

ghost use Rattle.std.specs.Prelude.{◌≡◌, ◌<◌, ◌≤◌, ◌∷◌, ◌++◌, ℕ, List, length, drop, option_map, IfOk, IfSome, chars};
ghost use Rattle.cy_lexer.specs.internal.Reading.{seen, taken, map_ok, seen_gap, seen_token, offset};
ghost use Rattle.cy_lexer.specs.Symbols.{symbol};
ghost use Rattle.cy_lexer.specs.Tokens.{word_piece, number_piece, opens_comment, block_len, block_comment, quoted_name, text_piece, symbol_piece, token_piece, piece};

use crate::characters::{Run, after_run, begins_with, split_first, starts_name};
use crate::faults::LexFault;
use crate::keywords::keyword_of;
use crate::numbers::number;
use crate::quoted::{after_quoted, closes};
use crate::symbols::{Symbol, pair_symbol, single_symbol};
use crate::tokens::TokenKind;

/// The kind of the name at the front of the text, which goes on after its first character, and what follows the name.
fn word<'a>(text: &'a str, after: &'a str) -> (TokenKind, &'a str)
    requires split { (c : ℕ) × (chars text.now ≡ c ∷ chars after.now) }
    requires shorter { length after.now ≤ length text.now }
    ensures value { (c : ℕ) → chars text.now ≡ c ∷ chars after.now → seen_token result.0 result.1
        ≡ taken (chars after.now) (word_piece c (chars after.now)) }
    ensures shorter { length result.1.now ≤ length after.now }
{
    let left = after_run(Run::Name, after);
    let (word, _) = text.split_at(text.len() - left.len());
    let kind = match keyword_of(word) {
        Some(keyword) => TokenKind::Keyword(keyword),
        None => TokenKind::Name,
    };
    (kind, left)
}

/// Whether a comment begins with a slash, first, and the second character, which the text after it begins with.
fn opens_comment(first: char, second: char, after: &str) -> bool
    ensures { result ≡ opens_comment second first (chars after.now) }
{
    first == '/' && begins_with(after, second)
}

/// What follows the next `*/`, if there is one.
fn after_block(text: &str) -> Option<&str>
    ensures value { option_map (λ s. chars s.now) result
        ≡ option_map (λ n. drop n (chars text.now)) (block_len (chars text.now)) }
    ensures shorter { IfSome result (λ s. length s.now ≤ length text.now) }
{
    let mut rest = text;
    while let Some((first, after)) = split_first(rest) {
        if first == '*'
            && let Some(('/', left)) = split_first(after)
        {
            return Some(left);
        }
        rest = after;
    }
    None
}

/// What follows a comment that begins with `/*`, of which the text has all but the first character.
fn after_comment(at: usize, text: &str) -> Result<&str, LexFault>
    ensures value { map_ok seen_gap result ≡ map_ok (taken (chars text.now)) (block_comment at (chars text.now)) }
    ensures shorter { IfOk result (λ s. length s.now ≤ length text.now) }
{
    match split_first(text) {
        Some((_star, inner)) => after_block(inner).ok_or(LexFault::UnclosedComment(at)),
        None => Err(LexFault::UnclosedComment(at)),
    }
}

/// The symbol at the front of a text that begins with the character, and what follows it.
#[tactic(auto, unfolding(crate::specs::Symbols::symbol))]
fn symbol(first: char, after: &str) -> Option<(Symbol, &str)>
    ensures value { option_map seen result ≡ option_map (taken (chars after.now)) (symbol first (chars after.now)) }
    ensures shorter { IfSome result (λ p. length p.1.now ≤ length after.now) }
{
    if let Some((second, left)) = split_first(after)
        && let Some(pair) = pair_symbol(first, second)
    {
        return Some((pair, left));
    }
    Some((single_symbol(first)?, after))
}

/// What follows a quoted name, after its opening backtick.
fn after_quoted_name(total: usize, at: usize, text: &str) -> Result<&str, LexFault>
    requires { length text.now ≤ total }
    ensures value { map_ok (seen_token TokenKind.QuotedName) result
        ≡ map_ok (taken (chars text.now)) (quoted_name (offset total) at (chars text.now)) }
    ensures shorter { IfOk result (λ s. length s.now ≤ length text.now) }
{
    if let Some((second, after)) = split_first(text)
        && closes('`', second, after)
    {
        return Err(LexFault::BadCharacter(at));
    }
    after_quoted(total, '`', LexFault::UnclosedName(at), text)
}

/// What follows a text, after its opening quote.
fn after_text(total: usize, at: usize, quote: char, text: &str) -> Result<&str, LexFault>
    requires { length text.now ≤ total }
    ensures value { map_ok (seen_token TokenKind.Text) result
        ≡ map_ok (taken (chars text.now)) (text_piece (offset total) at quote (chars text.now)) }
    ensures shorter { IfOk result (λ s. length s.now ≤ length text.now) }
{
    after_quoted(total, quote, LexFault::UnclosedText(at), text)
}

/// The kind of the piece at the front of the text, or no kind for a gap, and what follows the piece. The line has so
/// many bytes and ends with the text, which begins with the first character and goes on after it.
#[tactic(auto, unfolding(crate::specs::Tokens::piece), using(crate::proofs::CharactersLemmas::offset_of_text))]
pub(crate) fn piece<'a>(
    total: usize,
    text: &'a str,
    first: char,
    after: &'a str,
) -> Result<(Option<TokenKind>, &'a str), LexFault>
    requires within { length text.now ≤ total }
    requires shorter { length after.now ≤ length text.now }
    requires split { chars text.now ≡ first ∷ chars after.now }
    ensures value { map_ok seen result ≡ map_ok (taken (chars after.now)) (piece (offset total) first (chars after.now)) }
    ensures shorter { IfOk result (λ p. length p.1.now ≤ length after.now) }
{
    let at = total - text.len();
    if first.is_whitespace() {
        Ok((None, after))
    } else if opens_comment(first, '/', after) {
        Ok((None, after_run(Run::Line, after)))
    } else if opens_comment(first, '*', after) {
        Ok((None, after_comment(at, after)?))
    } else {
        let (kind, left) = token(total, at, text, first, after)?;
        Ok((Some(kind), left))
    }
}

/// The kind of the token at the front of the text, and what follows the token.
fn token<'a>(
    total: usize,
    at: usize,
    text: &'a str,
    first: char,
    after: &'a str,
) -> Result<(TokenKind, &'a str), LexFault>
    requires within { length text.now ≤ total }
    requires shorter { length after.now ≤ length text.now }
    requires split { chars text.now ≡ first ∷ chars after.now }
    ensures value { map_ok (λ p. seen_token p.0 p.1) result
        ≡ map_ok (taken (chars after.now)) (token_piece (offset total) at first (chars after.now)) }
    ensures shorter { IfOk result (λ p. length p.1.now ≤ length after.now) }
{
    if starts_name(first) {
        Ok(word(text, after))
    } else if first.is_ascii_digit() {
        number(at, text, first, after)
    } else if first == '`' {
        Ok((TokenKind::QuotedName, after_quoted_name(total, at, after)?))
    } else if first == '\'' || first == '"' {
        Ok((TokenKind::Text, after_text(total, at, first, after)?))
    } else {
        let (symbol, left) = symbol(first, after).ok_or(LexFault::BadCharacter(at))?;
        Ok((TokenKind::Symbol(symbol), left))
    }
}
