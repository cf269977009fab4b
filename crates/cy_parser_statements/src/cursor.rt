//! The tokens that are left to be read.

ghost use Rattle.cy_parser_statements.specs.declared.refusals.Refusal.TheVariants.{NoMemory};
ghost use Rattle.std.specs.Prelude.{◌≡◌, ◌≢◌, ◌<◌, ◌≤◌, pos, MatchResult, length, List, Some, None, [], ◌∷◌};
ghost use Rattle.cy_parser_grammar.specs.Words.{negated};
ghost use Rattle.cy_lexer.specs.Numbers.{greatest_number};
ghost use Rattle.cy_parser_grammar.specs.SpellsClauses.{ends_part};
ghost use Rattle.cy_parser_grammar.specs.internal.Clauses as clauses;
ghost use Rattle.cy_parser_grammar.specs.internal.Expressions as spec;
ghost use Rattle.cy_parser_grammar.specs.internal.Reader as reader;
ghost use Rattle.cy_parser_statements.specs.internal.Reads.{Reads};

use crate::order::is_after_part;
use crate::refusals::Refusal;
use cy_lexer::{Keyword, Symbol, Token, TokenKind};
use cy_parser_grammar::{denoted_text, is_name, is_word};
use cy_values::Text;
use std::alloc::Global;
use std::marker::Model;

/// The first number that is too large for a literal without a `-`, and for the places of clauses and patterns (own).
pub(crate) const NUMBER_LIMIT: u64 = 9223372036854775808;

/// A place between the tokens of a line, which a contract sees as the tokens from there on.
#[derive(Drop)]
pub struct Cursor<'a> {
    left: &'a [Token],
}

impl<'a> Model for Cursor<'a> {
    ghost use Rattle.std.specs.Prelude.{List};
    ghost use Rattle.cy_lexer.specs.declared.tokens.Token.{Token};

    ghost Value = { List Token };

    ghost view = { λ c. c.left.now };
}

impl<'a> Cursor<'a> {
    /// A cursor before the first of these tokens.
    pub fn new(tokens: &'a [Token]) -> Cursor<'a>
        ensures { result ≡ tokens.now }
    {
        Cursor { left: tokens }
    }

    /// A cursor of its own at this place.
    pub(crate) fn ahead(&self) -> Cursor<'a>
        ensures { result ≡ self.now }
    {
        Cursor { left: self.left }
    }

    /// Goes to where the other cursor stands.
    pub(crate) fn follow(&mut self, other: &Cursor<'a>)
        ensures { self.new ≡ other.now }
    {
        self.left = other.left;
    }

    /// How many tokens are left.
    pub(crate) fn count(&self) -> usize
        ensures { result ≡ length self.now }
    {
        self.left.len()
    }

    /// The tokens that are left.
    pub(crate) fn rest(&self) -> &'a [Token]
        ensures { result.now ≡ self.now }
    {
        self.left
    }

    /// The kind of the next token.
    pub(crate) fn peek(&self) -> Option<TokenKind>
        ensures { result ≡ reader.kind_ahead self.now }
    {
        Some(self.left.first()?.kind)
    }

    /// Passes the next token.
    pub(crate) fn skip(&mut self)
        ensures { self.new ≡ reader.past self.old }
    {
        if let Some((_, left)) = self.left.split_first() {
            self.left = left;
        }
    }

    /// Passes the keyword, if it comes next.
    #[tactic(auto, unfolding(cy_parser_grammar::specs::internal::Reader::sees_keyword))]
    pub(crate) fn eat_keyword(&mut self, keyword: Keyword) -> bool
        ensures { reader.eat_keyword keyword self.old ≡ Some (result, self.new) }
    {
        let is_next = self
            .peek()
            .is_some_and(|kind| kind == TokenKind::Keyword(keyword));
        if is_next {
            self.skip();
        }
        is_next
    }

    /// Passes the symbol, if it comes next.
    #[tactic(auto, unfolding(cy_parser_grammar::specs::internal::Reader::sees_symbol))]
    pub(crate) fn eat_symbol(&mut self, symbol: Symbol) -> bool
        ensures { reader.eat_symbol symbol self.old ≡ Some (result, self.new) }
    {
        let is_next = self
            .peek()
            .is_some_and(|kind| kind == TokenKind::Symbol(symbol));
        if is_next {
            self.skip();
        }
        is_next
    }

    /// Passes the keyword, which has to come next.
    #[tactic(auto, unfolding(cy_parser_grammar::specs::internal::Reader::expect_keyword))]
    pub(crate) fn expect_keyword(&mut self, keyword: Keyword) -> Result<(), Refusal>
        ensures { Reads (λ u. u) (reader.expect_keyword keyword self.old) result self.new }
    {
        if self.eat_keyword(keyword) {
            Ok(())
        } else {
            Err(self.unexpected())
        }
    }

    /// Passes the symbol, which has to come next.
    #[tactic(auto, unfolding(cy_parser_grammar::specs::internal::Reader::expect_symbol))]
    pub(crate) fn expect_symbol(&mut self, symbol: Symbol) -> Result<(), Refusal>
        ensures { Reads (λ u. u) (reader.expect_symbol symbol self.old) result self.new }
    {
        if self.eat_symbol(symbol) {
            Ok(())
        } else {
            Err(self.unexpected())
        }
    }

    /// Whether two brackets open next.
    #[tactic(auto, unfolding(cy_parser_grammar::specs::internal::Clauses::sees_two_brackets))]
    pub(crate) fn sees_two_brackets(&self) -> bool
        ensures { result ≡ clauses.sees_two_brackets self.now }
    {
        let mut ahead = self.ahead();
        ahead.eat_symbol(Symbol::LeftParenthesis) && ahead.eat_symbol(Symbol::LeftParenthesis)
    }

    /// Whether a part of a WHERE ends before the next token.
    pub(crate) fn ends_part(&self) -> bool
        ensures { result ≡ ends_part self.now }
    {
        match self.peek() {
            Some(kind) => is_after_part(kind),
            None => true,
        }
    }

    /// The refusal of the next token, or of the text's end.
    pub(crate) fn unexpected(&self) -> Refusal
        ensures { result ≢ NoMemory }
    {
        Refusal::Unexpected(self.count())
    }

    /// What a name denotes, which has to come next and be no keyword.
    #[tactic(auto, unfolding(cy_parser_grammar::specs::internal::Reader::denoting))]
    pub(crate) fn name(&mut self, alloc: Global, line: &str) -> Result<Text, Refusal>
        ensures { Reads (λ t. t) (reader.name line.now self.old) result self.new }
    {
        let Some((token, left)) = self.left.split_first() else {
            return Err(self.unexpected());
        };
        if !is_name(token.kind) {
            return Err(self.unexpected());
        }
        let name = denoted_text(alloc, line, token)?;
        self.left = left;
        Ok(name)
    }

    /// What a name denotes, which has to come next and may be a keyword.
    #[tactic(auto, unfolding(cy_parser_grammar::specs::internal::Reader::denoting))]
    pub(crate) fn word(&mut self, alloc: Global, line: &str) -> Result<Text, Refusal>
        ensures { Reads (λ t. t) (reader.word line.now self.old) result self.new }
    {
        let Some((token, left)) = self.left.split_first() else {
            return Err(self.unexpected());
        };
        if !is_word(token.kind) {
            return Err(self.unexpected());
        }
        let name = denoted_text(alloc, line, token)?;
        self.left = left;
        Ok(name)
    }

    /// The number as an integer, if one holds it.
    #[tactic(auto, unfolding(cy_parser_grammar::specs::internal::Reader::and_then, cy_parser_grammar::specs::internal::Expressions::counted))]
    pub(crate) fn integer(&self, number: u64) -> Result<i64, Refusal>
        ensures { MatchResult result (λ n. (number < greatest_number) × (n ≡ pos number)) (λ e. (e ≢ NoMemory) × (greatest_number ≤ number)) }
    {
        match i64::try_from(number) {
            Ok(integer) => Ok(integer),
            Err(_) => Err(Refusal::NumberTooLarge(self.count())),
        }
    }

    /// The integer that the number after a `-` makes, if one holds it.
    pub(crate) fn negated(&self, number: u64) -> Result<i64, Refusal>
        ensures { MatchResult result (λ n. (number ≤ greatest_number) × (n ≡ negated number)) (λ e. (e ≢ NoMemory) × (greatest_number < number)) }
    {
        match i64::try_from(number) {
            Ok(integer) => Ok(-integer),
            Err(_) if number == NUMBER_LIMIT => Ok(i64::MIN),
            Err(_) => Err(Refusal::NumberTooLarge(self.count())),
        }
    }

    /// What a text denotes, which comes next.
    #[tactic(auto, unfolding(cy_parser_grammar::specs::internal::Reader::and_then, cy_parser_grammar::specs::internal::Expressions::quoted))]
    pub(crate) fn quoted(&mut self, alloc: Global, line: &str) -> Result<Text, Refusal>
        ensures { Reads (λ t. t) (spec.quoted line.now self.old) result self.new }
    {
        let Some((token, left)) = self.left.split_first() else {
            return Err(self.unexpected());
        };
        let text = denoted_text(alloc, line, token)?;
        self.left = left;
        Ok(text)
    }
}
