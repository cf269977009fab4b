//! Items of SET and REMOVE, and the variables of DELETE.

ghost use Rattle.std.specs.Prelude.{◌≡◌, map};
ghost use Rattle.cy_trees.specs.TreeModels.{expression_of, set_item_of, remove_item_of};
ghost use Rattle.cy_parser_grammar.specs.internal.Clauses as spec;
ghost use Rattle.cy_parser_statements.specs.internal.Reads.{Reads};

use crate::cursor::Cursor;
use crate::primary::labels;
use crate::refusals::Refusal;
use crate::source::Source;
use cy_lexer::Symbol;
use cy_trees::{RemoveItem, SetItem, Variable};

impl<'l> Source<'l> {
    /// A property and its value, after the variable and the `.`.
    #[tactic(auto, unfolding(cy_parser_grammar::specs::internal::Reader::and_then, cy_parser_grammar::specs::internal::Clauses::assignment))]
    fn assignment(&self, tokens: &mut Cursor<'_>, variable: Variable) -> Result<SetItem, Refusal>
        ensures { Reads set_item_of (spec.assignment self.now.line.now variable tokens.old) result tokens.new }
    {
        let key = tokens.word(self.alloc, self.line)?;
        tokens.expect_symbol(Symbol::Equal)?;
        let value = self.expression(tokens)?;
        Ok(SetItem::Property(variable, key, value))
    }

    /// An item of SET.
    #[tactic(auto, unfolding(cy_parser_grammar::specs::internal::Reader::and_then, cy_parser_grammar::specs::internal::Clauses::set_item))]
    fn set_item(&self, tokens: &mut Cursor<'_>) -> Result<SetItem, Refusal>
        ensures { Reads set_item_of (spec.set_item self.now.line.now tokens.old) result tokens.new }
    {
        let variable = self.variable(tokens)?;
        if tokens.eat_symbol(Symbol::Dot) {
            return self.assignment(tokens, variable);
        }
        tokens.expect_symbol(Symbol::Colon)?;
        let labels = labels(self.alloc, self.line, tokens)?;
        Ok(SetItem::Labels(variable, labels))
    }

    /// Items of SET, one or more, with commas between.
    pub(crate) fn set_items(&self, tokens: &mut Cursor<'_>) -> Result<Vec<SetItem>, Refusal>
        ensures { Reads (λ is. map set_item_of is.items) (spec.set_items self.now.line.now tokens.old) result tokens.new }
    {
        let mut found = Vec::new(self.alloc);
        for _turn in 0..tokens.count() {
            found.push(self.set_item(tokens)?)?;
            if !tokens.eat_symbol(Symbol::Comma) {
                return Ok(found);
            }
        }
        Err(tokens.unexpected())
    }

    /// An item of REMOVE.
    #[tactic(auto, unfolding(cy_parser_grammar::specs::internal::Reader::and_then, cy_parser_grammar::specs::internal::Clauses::remove_item))]
    fn remove_item(&self, tokens: &mut Cursor<'_>) -> Result<RemoveItem, Refusal>
        ensures { Reads remove_item_of (spec.remove_item self.now.line.now tokens.old) result tokens.new }
    {
        let variable = self.variable(tokens)?;
        if tokens.eat_symbol(Symbol::Dot) {
            let key = tokens.word(self.alloc, self.line)?;
            return Ok(RemoveItem::Property(variable, key));
        }
        tokens.expect_symbol(Symbol::Colon)?;
        let labels = labels(self.alloc, self.line, tokens)?;
        Ok(RemoveItem::Labels(variable, labels))
    }

    /// Items of REMOVE, one or more, with commas between.
    pub(crate) fn remove_items(&self, tokens: &mut Cursor<'_>) -> Result<Vec<RemoveItem>, Refusal>
        ensures { Reads (λ is. map remove_item_of is.items) (spec.remove_items self.now.line.now tokens.old) result tokens.new }
    {
        let mut found = Vec::new(self.alloc);
        for _turn in 0..tokens.count() {
            found.push(self.remove_item(tokens)?)?;
            if !tokens.eat_symbol(Symbol::Comma) {
                return Ok(found);
            }
        }
        Err(tokens.unexpected())
    }

    /// Variables, one or more, with commas between.
    pub(crate) fn variables(&self, tokens: &mut Cursor<'_>) -> Result<Vec<Variable>, Refusal>
        ensures { Reads (λ vs. vs.items) (spec.variables self.now.line.now tokens.old) result tokens.new }
    {
        let mut found = Vec::new(self.alloc);
        for _turn in 0..tokens.count() {
            found.push(self.variable(tokens)?)?;
            if !tokens.eat_symbol(Symbol::Comma) {
                return Ok(found);
            }
        }
        Err(tokens.unexpected())
    }
}
