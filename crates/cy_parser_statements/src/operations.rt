//! Operands with operators of one level between.

ghost use Rattle.std.specs.Prelude.{◌≡◌, Option};
ghost use Rattle.cy_lexer.specs.declared.tokens.TokenKind.{TokenKind};
ghost use Rattle.cy_trees.specs.declared.expressions.BinaryOperator.{BinaryOperator};
ghost use Rattle.cy_trees.specs.Trees.{Expression};
ghost use Rattle.cy_parser_grammar.specs.internal.Expressions.{chain_after};
ghost use Rattle.cy_parser_statements.specs.internal.ReadsOperations.{ReadsOperations};
ghost use Rattle.cy_parser_statements.specs.internal.Operands.{operand_of};
ghost use Rattle.cy_parser_grammar.specs.internal.Reader.{Reader};
ghost use Rattle.cy_parser_statements.specs.internal.Reads.{Reads};

use crate::building::binary;
use crate::cursor::Cursor;
use crate::operands::Operand;
use crate::refusals::Refusal;
use cy_lexer::TokenKind;
use cy_trees::BinaryOperator;
use std::alloc::Global;

/// What the operators of one level make of a first operand and those after it, grouped to the left.
pub(crate) fn chain_after<
    O: Fn(TokenKind) -> Option<BinaryOperator>,
    R: Fn(&mut Cursor<'_>) -> Result<Operand, Refusal>,
>(
    alloc: Global,
    tokens: &mut Cursor<'_>,
    first: Operand,
    operator_of: O,
    operand: R,
) -> Result<Operand, Refusal>
    requires operators { O.IsAlwaysCallable operator_of }
    requires operands { R.IsAlwaysCallable operand }
    ensures { (operators : TokenKind → Option BinaryOperator) (read : Reader Expression) → ReadsOperations operators read (O.post operator_of) (R.post operand) → Reads operand_of (chain_after operators read (operand_of first) tokens.old) result tokens.new }
{
    let mut left = first;
    for _turn in 0..tokens.count() {
        let Some(operator) = tokens.peek().and_then(|kind| operator_of(kind)) else {
            return Ok(left);
        };
        tokens.skip();
        let right = operand(tokens)?;
        left = binary(alloc, tokens, operator, left, right)?;
    }
    Ok(left)
}
