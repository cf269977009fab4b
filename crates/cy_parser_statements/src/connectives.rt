//! The operators between truth values.

ghost use Rattle.std.specs.Prelude.{◌≡◌};
ghost use Rattle.cy_parser_grammar.specs.internal.Chains as spec;

use cy_lexer::{Keyword, TokenKind};
use cy_trees::BinaryOperator;

pub(crate) fn disjunction_operator(kind: TokenKind) -> Option<BinaryOperator>
    ensures { result ≡ spec.disjunction_operator kind }
{
    match kind {
        TokenKind::Keyword(Keyword::Or) => Some(BinaryOperator::Or),
        _ => None,
    }
}

pub(crate) fn exclusion_operator(kind: TokenKind) -> Option<BinaryOperator>
    ensures { result ≡ spec.exclusion_operator kind }
{
    match kind {
        TokenKind::Keyword(Keyword::Xor) => Some(BinaryOperator::Xor),
        _ => None,
    }
}

pub(crate) fn conjunction_operator(kind: TokenKind) -> Option<BinaryOperator>
    ensures { result ≡ spec.conjunction_operator kind }
{
    match kind {
        TokenKind::Keyword(Keyword::And) => Some(BinaryOperator::And),
        _ => None,
    }
}
