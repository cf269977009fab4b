//! Whole expressions, with a bound on the levels that are open at one place.

ghost use Rattle.cy_parser_grammar.specs.internal.Expressions as spec;
ghost use Rattle.cy_parser_statements.specs.internal.Operands.{operand_of};
ghost use Rattle.cy_parser_statements.specs.internal.Reads.{Reads};

use crate::cursor::Cursor;
use crate::grammar::Grammar;
use crate::operands::Operand;
use crate::refusals::Refusal;
use cy_parser_grammar::Nested;
use std::alloc::Global;

/// An expression with this many levels, its own counted, open at most.
pub(crate) fn nesting(
    alloc: Global,
    line: &str,
    tokens: &mut Cursor<'_>,
    levels: usize,
    place: Nested,
) -> Result<Operand, Refusal>
    ensures { Reads operand_of (spec.nesting line.now levels place tokens.old) result tokens.new }
{
    if levels == 0 {
        return Err(Refusal::too_deep(tokens.count()));
    }
    Grammar {
        alloc,
        line,
        levels: levels - 1,
        inner: nesting,
    }
    .level(tokens, place)
}
