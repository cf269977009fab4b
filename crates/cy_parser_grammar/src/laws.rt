//! What holds of trees and their text.

ghost use Rattle.std.specs.Prelude.{◌≡◌, ◌≤◌, ℕ, List, length, Ok};
ghost use Rattle.std.specs.Str.{IsUtf8};
ghost use Rattle.cy_lexer.specs.declared.tokens.Token.{Token};
ghost use Rattle.cy_lexer.specs.Line.{longest_line};
ghost use Rattle.cy_lexer.specs.Tokens.{tokens_of};
ghost use Rattle.cy_parser_grammar.specs.Shown.{AreNeighbours, with_columns};
ghost use Rattle.cy_parser_grammar.specs.SpellsClauses.{SpellsStatement};
ghost use Rattle.cy_trees.specs.Show.{show};
ghost use Rattle.cy_trees.specs.Trees.{Statement};

/// Tokens spell one statement at most. And where tokens of some text spell a statement, the text that `show` writes for it,
/// if it isn't too long for a line, has tokens, which spell the same statement with each column after AS (own).
pub fn trees_and_texts()
    ensures one { (line : List ℕ) (tokens : List Token) (statement other : Statement) → SpellsStatement line statement tokens → SpellsStatement line other tokens → statement ≡ other }
    ensures shown { (statement : Statement) (line : List ℕ) (tokens : List Token) → IsUtf8 line → AreNeighbours line tokens → SpellsStatement line statement tokens
        → length (show statement) ≤ longest_line
        → (again : List Token) × (tokens_of (show statement) ≡ Ok again) × SpellsStatement (show statement) (with_columns statement) again }
{}
