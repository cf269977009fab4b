//! The line that tokens are read from.

ghost use Rattle.std.specs.Prelude.{◌≡◌};
ghost use Rattle.cy_trees.specs.TreeModels.{expression_of};
ghost use Rattle.cy_parser_grammar.specs.internal.Clauses as clauses;
ghost use Rattle.cy_parser_grammar.specs.internal.Expressions as spec;
ghost use Rattle.cy_parser_statements.specs.internal.Operands.{operand_of};
ghost use Rattle.cy_parser_statements.specs.internal.Reads.{Reads};

use crate::cursor::Cursor;
use crate::nesting::nesting;
use crate::refusals::Refusal;
use cy_parser_grammar::Nested;
use cy_trees::{Expr, Variable};
use std::alloc::Global;

/// How many levels may be open in an expression at one place, and one for the expression itself (own).
pub(crate) const MOST_LEVELS: usize = 257;

/// A line, and where its trees take their memory from.
#[derive(Clone, Copy)]
pub struct Source<'l> {
    pub alloc: Global,
    pub line: &'l str,
}

impl<'l> Source<'l> {
    /// A whole expression. One that is too deep is refused at its first token.
    pub(crate) fn expression(&self, tokens: &mut Cursor<'_>) -> Result<Expr, Refusal>
        ensures { Reads expression_of (spec.expression self.now.line.now tokens.old) result tokens.new }
    {
        let first = tokens.count();
        match nesting(self.alloc, self.line, tokens, MOST_LEVELS, Nested::Whole) {
            Ok(found) => Ok(found.into_tree()),
            Err(refusal) => Err(refusal.since(first)),
        }
    }

    /// A variable.
    #[tactic(auto, unfolding(cy_parser_grammar::specs::internal::Reader::and_then))]
    pub(crate) fn variable(&self, tokens: &mut Cursor<'_>) -> Result<Variable, Refusal>
        ensures { Reads (λ v. v) (clauses.variable_read self.now.line.now tokens.old) result tokens.new }
    {
        let name = tokens.name(self.alloc, self.line)?;
        Ok(Variable { name, column: None })
    }
}
