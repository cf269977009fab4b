//! What single tokens stand for.

ghost use Rattle.std.specs.Prelude.{◌≡◌, ◌<◌, IfOk};
ghost use Rattle.cy_parser_grammar.specs.Words as spec;

use cy_lexer::{Symbol, Token, TokenKind};
use cy_trees::{BinaryOperator, Comparator};
use cy_values::{Fault, Text};
use std::alloc::Global;

/// Whether a token of this kind is a name that is no keyword, quoted or not (openCypher 9, grammar of names).
pub fn is_name(kind: TokenKind) -> bool
    ensures { result ≡ spec.is_name kind }
{
    matches!(kind, TokenKind::Name | TokenKind::QuotedName)
}

/// Whether a token of this kind is a name, quoted or not, or a keyword, which may stand for a name where the grammar has a label,
/// a type or a key (openCypher 9, grammar of names).
pub fn is_word(kind: TokenKind) -> bool
    ensures { result ≡ spec.is_word kind }
{
    matches!(
        kind,
        TokenKind::Name | TokenKind::QuotedName | TokenKind::Keyword(_)
    )
}

/// The text that the token of the line denotes: that of a quoted name and of a text without their quotes, and any other token as
/// it is written; nothing, where it has no place in the line. Fails only when out of memory.
#[tactic(auto, unfolding(crate::specs::Words::denotes))]
pub fn denoted_text(alloc: Global, line: &str, token: &Token) -> Result<Text, Fault>
    ensures { IfOk result (λ text. text ≡ spec.denotes line.now token.now) }
{
    match token.denoted(alloc, line) {
        Ok(string) => Text::new(string),
        Err(_) => Err(Fault::NoMemory),
    }
}

/// The comparator that a token of this kind is, if it is one (openCypher 9, grammar of comparisons).
pub fn comparator_of(kind: TokenKind) -> Option<Comparator>
    ensures { result ≡ spec.comparator_of kind }
{
    match kind {
        TokenKind::Symbol(Symbol::Equal) => Some(Comparator::Equal),
        TokenKind::Symbol(Symbol::NotEqual) => Some(Comparator::NotEqual),
        TokenKind::Symbol(Symbol::Less) => Some(Comparator::Less),
        TokenKind::Symbol(Symbol::LessOrEqual) => Some(Comparator::LessOrEqual),
        TokenKind::Symbol(Symbol::Greater) => Some(Comparator::Greater),
        TokenKind::Symbol(Symbol::GreaterOrEqual) => Some(Comparator::GreaterOrEqual),
        _ => None,
    }
}

/// The operator between the terms of a sum that a token of this kind is, if it is one (openCypher 9, grammar of arithmetic).
pub fn sum_operator(kind: TokenKind) -> Option<BinaryOperator>
    ensures { result ≡ spec.sum_operator kind }
{
    match kind {
        TokenKind::Symbol(Symbol::Plus) => Some(BinaryOperator::Add),
        TokenKind::Symbol(Symbol::Minus) => Some(BinaryOperator::Subtract),
        _ => None,
    }
}

/// The operator between the factors of a product that a token of this kind is, if it is one (openCypher 9, grammar of arithmetic).
pub fn product_operator(kind: TokenKind) -> Option<BinaryOperator>
    ensures { result ≡ spec.product_operator kind }
{
    match kind {
        TokenKind::Symbol(Symbol::Star) => Some(BinaryOperator::Multiply),
        TokenKind::Symbol(Symbol::Slash) => Some(BinaryOperator::Divide),
        TokenKind::Symbol(Symbol::Percent) => Some(BinaryOperator::Remainder),
        _ => None,
    }
}

/// The text with its ASCII letters in lower case, as a function's name is read (own).
pub fn lowered(alloc: Global, text: &Text) -> Result<Text, Fault>
    ensures { IfOk result (λ t. t ≡ spec.lowered text.now) }
{
    let mut string = String::from_str(alloc, text.as_str())?;
    string.make_ascii_lowercase();
    Text::new(string)
}

/// The text of the token as it stands in the line; nothing, where it has no place in it.
pub fn slice_in<'a>(line: &'a str, token: &Token) -> &'a str
    ensures { result.now ≡ spec.slice_in line.now token.now }
{
    token.slice(line)
}
