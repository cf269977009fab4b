//! Projections: items, order, SKIP and LIMIT.

ghost use Rattle.std.specs.Prelude.{◌≡◌, ◌-◌, Some, take, length, map, option_map, IfOk, IfErr};
ghost use Rattle.cy_parser_statements.specs.declared.refusals.Refusal.TheVariants.{NoMemory};
ghost use Rattle.cy_parser_grammar.specs.Words as words;
ghost use Rattle.cy_trees.specs.TreeModels.{expression_of, item_of, key_of, projection_of};
ghost use Rattle.cy_parser_grammar.specs.SpellsClauses as spells;
ghost use Rattle.cy_parser_grammar.specs.internal.Clauses as spec;
ghost use Rattle.cy_parser_statements.specs.internal.Reads.{Reads};

use crate::cursor::Cursor;
use crate::refusals::Refusal;
use crate::source::Source;
use cy_lexer::{Keyword, Symbol, Token, TokenKind};
use cy_parser_grammar::slice_in;
use cy_trees::{Expr, Item, Key, Projection};
use cy_values::{Duplicate, Text};

/// Whether a key's order falls, by the word after it.
#[tactic(auto, unfolding(cy_parser_grammar::specs::internal::Reader::and_then, cy_parser_grammar::specs::internal::Clauses::is_descending))]
fn is_descending(tokens: &mut Cursor<'_>) -> bool
    ensures { spec.is_descending tokens.old ≡ Some (result, tokens.new) }
{
    match tokens.peek() {
        Some(TokenKind::Keyword(Keyword::Asc | Keyword::Ascending)) => {
            tokens.skip();
            false
        }
        Some(TokenKind::Keyword(Keyword::Desc | Keyword::Descending)) => {
            tokens.skip();
            true
        }
        _ => false,
    }
}

impl<'l> Source<'l> {
    /// The text of the first tokens, but for the last `after` ones, as it is written.
    fn written(&self, before: &[Token], after: usize) -> Result<Text, Refusal>
        ensures value { IfOk result (λ t. t ≡ words.written self.now.line.now (take (length before.now - after) before.now)) }
        ensures memory { IfErr result (λ e. e ≡ NoMemory) }
    {
        let own = &before[..before.len().saturating_sub(after)];
        let (Some(first), Some(last)) = (own.first(), own.last()) else {
            return Ok(Text::from_str(self.alloc, "")?);
        };
        let span = Token {
            kind: first.kind,
            start: first.start,
            end: last.end,
        };
        Ok(Text::from_str(self.alloc, slice_in(self.line, &span))?)
    }

    /// The column of an item without AS: a variable's name, or the expression as it is written.
    fn column_name(
        &self,
        expression: &Expr,
        before: &[Token],
        after: usize,
    ) -> Result<Text, Refusal>
        ensures value { IfOk result (λ t. t ≡ spells.column_name self.now.line.now (expression_of expression.now) (take (length before.now - after) before.now)) }
        ensures memory { IfErr result (λ e. e ≡ NoMemory) }
    {
        match expression {
            Expr::Variable(variable) => Ok(variable.name.copy(self.alloc)?),
            _ => self.written(before, after),
        }
    }

    /// An item of a projection.
    #[tactic(auto, unfolding(cy_parser_grammar::specs::internal::Reader::and_then, cy_parser_grammar::specs::internal::Clauses::item, cy_parser_grammar::specs::internal::Clauses::column))]
    fn item(&self, tokens: &mut Cursor<'_>) -> Result<Item, Refusal>
        ensures { Reads item_of (spec.item self.now.line.now tokens.old) result tokens.new }
    {
        let before = tokens.rest();
        let expression = self.expression(tokens)?;
        let after = tokens.count();
        if tokens.eat_keyword(Keyword::As) {
            let column = tokens.name(self.alloc, self.line)?;
            return Ok(Item {
                expression,
                column,
                named: true,
            });
        }
        let column = self.column_name(&expression, before, after)?;
        Ok(Item {
            expression,
            column,
            named: false,
        })
    }

    /// Items, one or more, with commas between.
    fn items(&self, tokens: &mut Cursor<'_>) -> Result<Vec<Item>, Refusal>
        ensures { Reads (λ is. map item_of is.items) (spec.items self.now.line.now tokens.old) result tokens.new }
    {
        let mut found = Vec::new(self.alloc);
        for _turn in 0..tokens.count() {
            found.push(self.item(tokens)?)?;
            if !tokens.eat_symbol(Symbol::Comma) {
                return Ok(found);
            }
        }
        Err(tokens.unexpected())
    }

    /// A key of ORDER BY.
    #[tactic(auto, unfolding(cy_parser_grammar::specs::internal::Reader::and_then, cy_parser_grammar::specs::internal::Clauses::key))]
    fn key(&self, tokens: &mut Cursor<'_>) -> Result<Key, Refusal>
        ensures { Reads key_of (spec.key self.now.line.now tokens.old) result tokens.new }
    {
        let expression = self.expression(tokens)?;
        let descending = is_descending(tokens);
        Ok(Key {
            expression,
            descending,
        })
    }

    /// Keys, one or more, with commas between.
    fn keys(&self, tokens: &mut Cursor<'_>) -> Result<Vec<Key>, Refusal>
        ensures { Reads (λ ks. map key_of ks.items) (spec.keys self.now.line.now tokens.old) result tokens.new }
    {
        let mut found = Vec::new(self.alloc);
        for _turn in 0..tokens.count() {
            found.push(self.key(tokens)?)?;
            if !tokens.eat_symbol(Symbol::Comma) {
                return Ok(found);
            }
        }
        Err(tokens.unexpected())
    }

    /// ORDER BY and its keys, if they come next.
    #[tactic(auto, unfolding(cy_parser_grammar::specs::internal::Reader::and_then, cy_parser_grammar::specs::internal::Clauses::keys_if_any))]
    fn keys_if_any(&self, tokens: &mut Cursor<'_>) -> Result<Vec<Key>, Refusal>
        ensures { Reads (λ ks. map key_of ks.items) (spec.keys_if_any self.now.line.now tokens.old) result tokens.new }
    {
        if !tokens.eat_keyword(Keyword::Order) {
            return Ok(Vec::new(self.alloc));
        }
        tokens.expect_keyword(Keyword::By)?;
        self.keys(tokens)
    }

    /// What WITH and RETURN say but for WHERE.
    #[tactic(auto, unfolding(cy_parser_grammar::specs::internal::Reader::and_then, cy_parser_grammar::specs::internal::Clauses::projection))]
    pub(crate) fn projection(&self, tokens: &mut Cursor<'_>) -> Result<Projection, Refusal>
        ensures { Reads projection_of (spec.projection self.now.line.now tokens.old) result tokens.new }
    {
        let distinct = tokens.eat_keyword(Keyword::Distinct);
        let items = self.items(tokens)?;
        let order = self.keys_if_any(tokens)?;
        let skip = tokens.number_after(Keyword::Skip)?;
        let limit = tokens.number_after(Keyword::Limit)?;
        Ok(Projection {
            distinct,
            items,
            order,
            skip,
            limit,
        })
    }
}
