//! Tokens, and what the parser asks of them.

ghost use Rattle.std.specs.Prelude.{◌≡◌, ◌↔◌, [], IsTrue, IfOk, IfErr, string_bytes, encode_utf8_all, chars};

use crate::faults::LexFault;
use crate::keywords::Keyword;
use crate::quoted::between_quotes;
use crate::symbols::Symbol;
use std::alloc::Global;

/// The kind of a token, with what a keyword, a number and a symbol denote.
#[derive(Clone, Copy, Debug, PartialEq, Eq)]
pub enum TokenKind {
    /// A name without quotes that is no keyword.
    Name,
    /// A name in backticks, which is never a keyword.
    QuotedName,
    /// A keyword, whatever the case of its letters.
    Keyword(Keyword),
    /// A number, at most 9223372036854775808.
    Number(u64),
    /// A text in quotes.
    Text,
    /// A symbol.
    Symbol(Symbol),
}

/// A token of a line: its text is the slice of the line from `start` up to, but without, `end`, both in bytes.
#[derive(Clone, Copy, Debug, PartialEq, Eq)]
pub struct Token {
    /// What the token is.
    pub kind: TokenKind,
    /// The byte offset of its first character.
    pub start: usize,
    /// The byte offset after its last character.
    pub end: usize,
}

impl Token {
    ghost use Rattle.cy_lexer.specs.Tokens.{number_in, denoted};
    ghost use Rattle.cy_lexer.specs.Spans.{IsSpanOf, slice_of};

    /// Whether the token is this keyword.
    pub fn is_keyword(&self, keyword: Keyword) -> bool
        ensures { IsTrue result ↔ (self.now.kind ≡ TokenKind.Keyword keyword) }
    {
        self.kind == TokenKind::Keyword(keyword)
    }

    /// Whether the token is this symbol.
    pub fn is_symbol(&self, symbol: Symbol) -> bool
        ensures { IsTrue result ↔ (self.now.kind ≡ TokenKind.Symbol symbol) }
    {
        self.kind == TokenKind::Symbol(symbol)
    }

    /// The number that the token denotes, if it is a number.
    pub fn number(&self) -> Option<u64>
        ensures { result ≡ number_in self.now.kind }
    {
        match self.kind {
            TokenKind::Number(number) => Some(number),
            _ => None,
        }
    }

    /// The text of the token, as it stands in its line. Of a line in which the token has no place it is empty.
    pub fn slice<'a>(&self, line: &'a str) -> &'a str
        ensures within { IsSpanOf line.now self.now → result.now ≡ slice_of line.now self.now }
        ensures elsewhere { ¬ (IsSpanOf line.now self.now) → result.now ≡ [] }
    {
        line.get(self.start..self.end).unwrap_or("")
    }

    /// What the token denotes: a quoted name without its backticks, a doubled one standing for one, a text without its
    /// quotes and with its escapes replaced, any other token as it is written. Of a line in which the token has no
    /// place it is empty. Fails only when out of memory.
    pub fn denoted(&self, alloc: Global, line: &str) -> Result<String, LexFault>
        ensures value { IsSpanOf line.now self.now → IfOk result
            (λ s. string_bytes s ≡ encode_utf8_all (denoted self.now.kind (chars (slice_of line.now self.now)))) }
        ensures elsewhere { ¬ (IsSpanOf line.now self.now) → IfOk result (λ s. string_bytes s ≡ []) }
        ensures memory { IfErr result (λ e. e ≡ LexFault.NoMemory) }
    {
        let slice = self.slice(line);
        match self.kind {
            TokenKind::QuotedName | TokenKind::Text => between_quotes(alloc, slice),
            _ => Ok(String::from_str(alloc, slice)?),
        }
    }
}
