//! Numbers.

ghost use Rattle.std.specs.Prelude.{IsTrue, ◌≡◌, ℕ, ◌*◌, ◌<◌, ◌≤◌, ◌+◌, ◌^◌, ◌∷◌, length, take_while, drop, MatchOption, IfOk, chars};
ghost use Rattle.cy_lexer.specs.declared.characters.Run.TheVariants.{Digits};
ghost use Rattle.cy_lexer.specs.Characters.{goes_on};
ghost use Rattle.cy_lexer.specs.Numbers.{number_of, begins_with_digit, spoils_number, is_bad_number};
ghost use Rattle.cy_lexer.specs.internal.Reading.{taken, map_ok, seen_token, IsHeld};
ghost use Rattle.cy_lexer.specs.Tokens.{number_piece};
ghost use Rattle.std.specs.Char.{is_ascii_digit};

use crate::characters::{Run, after_run, split_first};
use crate::faults::LexFault;
use crate::tokens::TokenKind;

/// The greatest number that can be written: the absolute value of the least integer of 64 bits.
const GREATEST_NUMBER: u64 = 9223372036854775808;

/// The number with one digit more, if 64 bits hold it.
fn with_digit(number: Option<u64>, digit: u64) -> Option<u64>
    requires { digit < 10 }
    ensures { (high : ℕ) → IsHeld number high → IsHeld result (high * 10 + digit) }
{
    number?.checked_mul(10)?.checked_add(digit)
}

/// The number that the digits at the front of the text write, if 64 bits hold it.
fn number_at(text: &str) -> Option<u64>
    ensures { IsHeld result (number_of 0 (take_while (goes_on Digits) (chars text.now))) }
{
    let mut number = Some(0);
    let mut rest = text;
    while let Some((first, after)) = split_first(rest) {
        if !Run::Digits.goes_on(first) {
            break;
        }
        number = with_digit(number, first as u64 - '0' as u64);
        rest = after;
    }
    number
}

fn begins_with_digit(text: &str) -> bool
    ensures { result ≡ begins_with_digit (chars text.now) }
{
    match split_first(text) {
        Some((first, _)) => first.is_ascii_digit(),
        None => false,
    }
}

/// Whether a number may not stand before the text.
fn spoils_number(text: &str) -> bool
    ensures { result ≡ spoils_number (chars text.now) }
{
    match split_first(text) {
        Some((first, after)) => {
            unicode_ident::is_xid_continue(first) || (first == '.' && begins_with_digit(after))
        }
        None => false,
    }
}

/// Whether a number is written badly, from its first digit, what stands after that, and what after its last.
fn is_bad_number(first: char, after: &str, left: &str) -> bool
    ensures { result ≡ is_bad_number first (chars after.now) (chars left.now) }
{
    (first == '0' && begins_with_digit(after)) || spoils_number(left)
}

/// The number at the front of a text, which begins with a digit and goes on after it, and what follows the number.
pub(crate) fn number<'a>(
    at: usize,
    text: &str,
    first: char,
    after: &'a str,
) -> Result<(TokenKind, &'a str), LexFault>
    requires split { chars text.now ≡ first ∷ chars after.now }
    requires digit { IsTrue (is_ascii_digit first) }
    ensures value { map_ok (λ p. seen_token p.0 p.1) result
        ≡ map_ok (taken (chars after.now)) (number_piece at first (chars after.now)) }
    ensures shorter { IfOk result (λ p. length p.1.now ≤ length after.now) }
{
    let left = after_run(Run::Digits, after);
    if is_bad_number(first, after, left) {
        return Err(LexFault::BadNumber(at));
    }
    match number_at(text) {
        Some(number) if number <= GREATEST_NUMBER => Ok((TokenKind::Number(number), left)),
        _ => Err(LexFault::NumberTooLarge(at)),
    }
}
