//! Numbers that stand in clauses and patterns, and the lengths that they bound.

ghost use Rattle.std.specs.Prelude.{◌≡◌, ◌≢◌, ◌≤◌, ◌<◌};
ghost use Rattle.cy_parser_grammar.specs.internal.Clauses as spec;
ghost use Rattle.cy_parser_statements.specs.internal.Reads.{Reads};

use crate::cursor::{Cursor, NUMBER_LIMIT};
use crate::refusals::Refusal;
use cy_lexer::{Keyword, Symbol, TokenKind};
use cy_trees::Length;

impl<'a> Cursor<'a> {
    /// A number, if one comes next.
    #[tactic(auto, unfolding(cy_parser_grammar::specs::internal::Reader::and_then, cy_parser_grammar::specs::internal::Clauses::number_if_any))]
    pub(crate) fn number_if_any(&mut self) -> Result<Option<u64>, Refusal>
        ensures { Reads (λ n. n) (spec.number_if_any self.old) result self.new }
    {
        match self.peek() {
            Some(TokenKind::Number(number)) if number < NUMBER_LIMIT => {
                self.skip();
                Ok(Some(number))
            }
            Some(TokenKind::Number(_)) => Err(Refusal::NumberTooLarge(self.count())),
            _ => Ok(None),
        }
    }

    /// A number, which has to come next.
    #[tactic(auto, unfolding(cy_parser_grammar::specs::internal::Reader::and_then, cy_parser_grammar::specs::internal::Clauses::count))]
    pub(crate) fn number(&mut self) -> Result<u64, Refusal>
        ensures { Reads (λ n. n) (spec.count self.old) result self.new }
    {
        match self.peek() {
            Some(TokenKind::Number(number)) if number < NUMBER_LIMIT => {
                self.skip();
                Ok(number)
            }
            Some(TokenKind::Number(_)) => Err(Refusal::NumberTooLarge(self.count())),
            _ => Err(self.unexpected()),
        }
    }

    /// The number after the keyword, if that comes next.
    #[tactic(auto, unfolding(cy_parser_grammar::specs::internal::Reader::and_then, cy_parser_grammar::specs::internal::Clauses::number_after))]
    pub(crate) fn number_after(&mut self, keyword: Keyword) -> Result<Option<u64>, Refusal>
        ensures { Reads (λ n. n) (spec.number_after keyword self.old) result self.new }
    {
        if self.eat_keyword(keyword) {
            Ok(Some(self.number()?))
        } else {
            Ok(None)
        }
    }

    /// The bounds of a length, after its `*`. Bad ones are refused at the last that is written.
    #[tactic(auto, unfolding(cy_parser_grammar::specs::internal::Reader::and_then, cy_parser_grammar::specs::internal::Clauses::bounds))]
    fn bounds(&mut self) -> Result<Length, Refusal>
        ensures { Reads (λ l. l) (spec.bounds self.old) result self.new }
    {
        let mut place = self.count();
        let least = self.number_if_any()?;
        if !self.eat_symbol(Symbol::DotDot) {
            return match least {
                Some(both) => ranging(both, Some(both), place),
                None => ranging(1, None, place),
            };
        }
        let second = self.count();
        let most = self.number_if_any()?;
        if most.is_some() {
            place = second;
        }
        ranging(least.unwrap_or(1), most, place)
    }

    /// A length, if a `*` comes next.
    #[tactic(auto, unfolding(cy_parser_grammar::specs::internal::Reader::and_then, cy_parser_grammar::specs::internal::Clauses::length_if_any))]
    pub(crate) fn length_if_any(&mut self) -> Result<Option<Length>, Refusal>
        ensures { Reads (λ l. l) (spec.length_if_any self.old) result self.new }
    {
        if self.eat_symbol(Symbol::Star) {
            Ok(Some(self.bounds()?))
        } else {
            Ok(None)
        }
    }
}

/// The length with these bounds, if they are in order and not too large; the place is that of the last one.
fn ranging(least: u64, most: Option<u64>, place: usize) -> Result<Length, Refusal>
    ensures { (tokens : spec.Tokens) → Reads (λ l. l) (spec.ranging least most tokens) result tokens }
{
    let Ok(least) = u16::try_from(least) else {
        return Err(Refusal::BadRange(place));
    };
    let Some(most) = most else {
        return Ok(Length { least, most: None });
    };
    match u16::try_from(most) {
        Ok(most) if least <= most => Ok(Length {
            least,
            most: Some(most),
        }),
        _ => Err(Refusal::BadRange(place)),
    }
}
