//! The levels of expressions. What stands inside of one more bracket, list, CASE, NOT or sign is read by a function that
//! each level is given, so that each is proved by itself.

ghost use Rattle.cy_parser_statements.specs.internal.Operands.{operand_of};
ghost use Rattle.cy_parser_statements.specs.internal.Reads.{Reads};
ghost use Rattle.cy_parser_grammar.specs.internal.Expressions as spec;
ghost use Rattle.cy_parser_statements.specs.internal.Nests.{Nests};

use crate::cursor::Cursor;
use crate::operands::Operand;
use crate::refusals::Refusal;
use cy_parser_grammar::Nested;
use std::alloc::Global;

/// A reader of expressions in a line, and of what stands inside of one more level.
#[derive(Clone, Copy)]
pub(crate) struct Grammar<'l, F> {
    pub(crate) alloc: Global,
    pub(crate) line: &'l str,
    /// How many levels may still be open, that of `inner` counted.
    pub(crate) levels: usize,
    pub(crate) inner: F,
}

impl<'l, F: Fn(Global, &str, &mut Cursor<'_>, usize, Nested) -> Result<Operand, Refusal>> Grammar<
    'l,
    F,
> {
    /// Opens one more level, if it may.
    #[tactic(auto, unfolding(cy_parser_grammar::specs::internal::Expressions::opened))]
    pub(crate) fn open_level(&self, tokens: &Cursor<'_>) -> Result<(), Refusal>
        ensures { Reads (λ u. u) (spec.opened self.now.levels tokens.now) result tokens.now }
    {
        if self.levels == 0 {
            return Err(Refusal::too_deep(tokens.count()));
        }
        Ok(())
    }

    /// What stands inside of one more level.
    pub(crate) fn inside(&self, tokens: &mut Cursor<'_>, place: Nested) -> Result<Operand, Refusal>
        requires { Nests self.now.levels (F.pre self.now.inner) (F.post self.now.inner) }
        ensures { Reads operand_of (spec.nesting self.now.line.now self.now.levels place tokens.old) result tokens.new }
    {
        (self.inner)(self.alloc, self.line, tokens, self.levels, place)
    }
}
