//! A statement from the tokens of a line.

ghost use Rattle.std.specs.Prelude.{◌≡◌, ◌≤◌, ℕ, List, [], length, Ok, Err, IfOk, IfErr, MatchResult};
ghost use Rattle.std.specs.Str.{IsUtf8};
ghost use Rattle.cy_lexer.specs.declared.tokens.Token as token;
ghost use Rattle.cy_lexer.specs.Line.{longest_line};
ghost use Rattle.cy_lexer.specs.Tokens.{tokens_of};
ghost use Rattle.cy_parser.specs.declared.faults.ParseFault.TheVariants.{NoMemory, Unexpected};
ghost use Rattle.cy_parser.specs.Faults.{PointsAtPlace, IsPlace};
ghost use Rattle.cy_parser_grammar.specs.SpellsClauses.{SpellsStatement};
ghost use Rattle.cy_parser_statements.specs.declared.refusals.Refusal.TheVariants as refusals;
ghost use Rattle.cy_parser_grammar.specs.Shown.{AreAlike, AreNeighbours, with_columns};
ghost use Rattle.cy_trees.specs.Show as shown;
ghost use Rattle.cy_trees.specs.Trees as tree;
ghost use Rattle.cy_trees.specs.TreeModels.{statement_of};

use crate::faults::ParseFault;
use cy_lexer::Token;
use cy_parser_statements::{Cursor, Refusal, Source};
use cy_trees::Statement;
use std::alloc::Global;

/// Where the token begins that this many are left from, or the length of the line.
fn offset_of(tokens: &[Token], line: &str, left: usize) -> usize
    ensures { IsPlace tokens.now (length line.now) result }
{
    match tokens.get(tokens.len().saturating_sub(left)) {
        Some(token) => token.start,
        None => line.len(),
    }
}

/// The fault that the refusal becomes.
fn fault_of(tokens: &[Token], line: &str, refusal: Refusal) -> ParseFault
    ensures places { PointsAtPlace tokens.now (length line.now) result }
    ensures memory { refusal ≡ refusals.NoMemory → result ≡ NoMemory }
{
    let place = |left| offset_of(tokens, line, left);
    match refusal {
        Refusal::NumberTooLarge(left) => ParseFault::NumberTooLarge(place(left)),
        Refusal::Unexpected(left) => ParseFault::Unexpected(place(left)),
        Refusal::TooDeep { left: _, first } => ParseFault::TooDeep(place(first)),
        Refusal::ClauseOrder(left) => ParseFault::ClauseOrder(place(left)),
        Refusal::BadRange(left) => ParseFault::BadRange(place(left)),
        Refusal::NoMemory => ParseFault::NoMemory,
    }
}

/// The statement that the tokens of a line spell (openCypher 9, grammar, narrowed to this profile); there is no other one.
/// Fails if the tokens spell none, with a fault that points at a token's first byte or at the line's end, or when out of
/// memory. Where there are no tokens, the line's end is unexpected.
pub fn parse(alloc: Global, tokens: &[Token], line: &str) -> Result<Statement, ParseFault>
    ensures spelt { IfOk result (λ statement. SpellsStatement line.now (statement_of statement) tokens.now) }
    ensures complete { (statement : tree.Statement) → SpellsStatement line.now statement tokens.now → MatchResult result (λ found. statement_of found ≡ statement) (λ fault. fault ≡ NoMemory) }
    ensures shown { (statement : tree.Statement) (first : List ℕ) (spelling us : List token.Token) → IsUtf8 first → AreNeighbours first spelling → SpellsStatement first statement spelling
        → length (shown.show statement) ≤ longest_line → tokens_of (shown.show statement) ≡ Ok us
        → AreNeighbours line.now tokens.now → AreAlike line.now tokens.now (shown.show statement) us
        → MatchResult result (λ found. statement_of found ≡ with_columns statement) (λ fault. fault ≡ NoMemory) }
    ensures places { IfErr result (λ fault. PointsAtPlace tokens.now (length line.now) fault) }
    ensures none { tokens.now ≡ [] → result ≡ Err (Unexpected (length line.now)) }
{
    let source = Source { alloc, line };
    if tokens.is_empty() {
        return Err(ParseFault::Unexpected(line.len()));
    }
    match source.statement(&mut Cursor::new(tokens)) {
        Ok(statement) => Ok(statement),
        Err(refusal) => Err(fault_of(tokens, line, refusal)),
    }
}
