//! The order of clauses.

ghost use Rattle.std.specs.Prelude.{◌≡◌};
ghost use Rattle.cy_parser_grammar.specs.SpellsClauses as spells;
ghost use Rattle.cy_parser_grammar.specs.internal.Clauses as spec;
ghost use Rattle.cy_trees.specs.TreeModels.{clause_of};

use cy_lexer::{Keyword, Symbol, TokenKind};
use cy_parser_grammar::{ClausePhase, Opening};
use cy_trees::Clause;

/// The clause that the token begins.
pub(crate) fn opening_of(kind: TokenKind) -> Option<Opening>
    ensures { result ≡ spec.opening_of kind }
{
    match kind {
        TokenKind::Keyword(Keyword::Match) => Some(Opening::Match),
        TokenKind::Keyword(Keyword::Optional) => Some(Opening::Optional),
        TokenKind::Keyword(Keyword::Unwind) => Some(Opening::Unwind),
        TokenKind::Keyword(Keyword::With) => Some(Opening::With),
        TokenKind::Keyword(Keyword::Return) => Some(Opening::Return),
        TokenKind::Keyword(Keyword::Create) => Some(Opening::Create),
        TokenKind::Keyword(Keyword::Set) => Some(Opening::Set),
        TokenKind::Keyword(Keyword::Remove) => Some(Opening::Remove),
        TokenKind::Keyword(Keyword::Delete) => Some(Opening::Delete),
        TokenKind::Keyword(Keyword::Detach) => Some(Opening::Detach),
        _ => None,
    }
}

/// Whether the clause may follow, where a query stands at the phase.
fn allows(phase: ClausePhase, opening: Opening) -> bool
    ensures { result ≡ spec.allows phase opening }
{
    match phase {
        ClausePhase::Reading => true,
        ClausePhase::Updating => {
            !matches!(
                opening,
                Opening::Match | Opening::Optional | Opening::Unwind
            )
        }
        ClausePhase::Ended => false,
    }
}

/// Whether the clause writes.
fn writes(opening: Opening) -> bool
    ensures { result ≡ spec.updates opening }
{
    matches!(
        opening,
        Opening::Create | Opening::Set | Opening::Remove | Opening::Delete | Opening::Detach
    )
}

/// Whether the clause may follow, where a query stands at the phase, and in a query after UNION if it is one.
pub(crate) fn is_allowed(is_later: bool, phase: ClausePhase, opening: Opening) -> bool
    ensures { result ≡ spec.is_allowed is_later phase opening }
{
    allows(phase, opening) && !(is_later && writes(opening))
}

/// Whether the clause updates.
pub(crate) fn updates(clause: &Clause) -> bool
    ensures { result ≡ spells.updates (clause_of clause.now) }
{
    matches!(
        clause,
        Clause::Create(_) | Clause::Set(_) | Clause::Remove(_) | Clause::Delete(_)
    )
}

/// Whether a WHERE ends before the token.
fn is_after_where(kind: TokenKind) -> bool
    ensures { result ≡ spells.is_after_where kind }
{
    matches!(
        kind,
        TokenKind::Symbol(Symbol::Semicolon)
            | TokenKind::Keyword(
                Keyword::Union
                    | Keyword::Match
                    | Keyword::Optional
                    | Keyword::Unwind
                    | Keyword::With
                    | Keyword::Return
                    | Keyword::Create
                    | Keyword::Set
                    | Keyword::Remove
                    | Keyword::Delete
                    | Keyword::Detach
            )
    )
}

/// Whether a part of a WHERE ends before the token.
pub(crate) fn is_after_part(kind: TokenKind) -> bool
    ensures { result ≡ spells.is_after_part kind }
{
    matches!(kind, TokenKind::Keyword(Keyword::And)) || is_after_where(kind)
}

/// Whether a query may end at the phase.
pub(crate) fn may_end(phase: ClausePhase) -> bool
    ensures { result ≡ spec.may_end phase }
{
    match phase {
        ClausePhase::Reading => false,
        ClausePhase::Updating | ClausePhase::Ended => true,
    }
}

/// Where a query stands after the clause.
pub(crate) fn phase_after(opening: Opening) -> ClausePhase
    ensures { result ≡ spec.phase_after opening }
{
    match opening {
        Opening::Match | Opening::Optional | Opening::Unwind | Opening::With =>
            ClausePhase::Reading,
        Opening::Create | Opening::Set | Opening::Remove => ClausePhase::Updating,
        Opening::Return | Opening::Delete | Opening::Detach => ClausePhase::Ended,
    }
}
