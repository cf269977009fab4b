//! Patterns: nodes, relationships and the paths that they make.

ghost use Rattle.std.specs.Prelude.{◌≡◌, ◌∷◌, [], ◌≤◌, ◌<◌, ◌≢◌, map, option_map, IfOk};
ghost use Rattle.cy_trees.specs.TreeModels.{expression_of, entry_of, properties_of, node_of, relationship_of, step_of, path_of, paths_of};
ghost use Rattle.cy_parser_grammar.specs.SpellsClauses as spells;
ghost use Rattle.cy_parser_grammar.specs.internal.Clauses as spec;
ghost use Rattle.cy_parser_statements.specs.internal.Reads.{Reads};

use crate::cursor::Cursor;
use crate::primary::labels;
use crate::refusals::Refusal;
use crate::source::Source;
use cy_lexer::{Symbol, TokenKind};
use cy_trees::{
    Direction, Length, MapEntry, NodePattern, Path, RelationshipPattern, Step, Variable,
};
use cy_values::Text;

/// The direction of a relationship, from the arrows that are written.
fn direction_of(is_left: bool, is_right: bool) -> Direction
    ensures { result ≡ spells.direction_of is_left is_right }
{
    match (is_left, is_right) {
        (true, false) => Direction::Left,
        (false, true) => Direction::Right,
        _ => Direction::Either,
    }
}

impl<'l> Source<'l> {
    /// A variable, if a name comes next.
    #[tactic(auto, unfolding(cy_parser_grammar::specs::internal::Reader::and_then, cy_parser_grammar::specs::internal::Clauses::variable_if_any))]
    fn variable_if_any(&self, tokens: &mut Cursor<'_>) -> Result<Option<Variable>, Refusal>
        ensures { Reads (λ v. v) (spec.variable_if_any self.now.line.now tokens.old) result tokens.new }
    {
        match tokens.peek() {
            Some(TokenKind::Name | TokenKind::QuotedName) => Ok(Some(self.variable(tokens)?)),
            _ => Ok(None),
        }
    }

    /// Labels, if a `:` comes next.
    #[tactic(auto, unfolding(cy_parser_grammar::specs::internal::Reader::and_then, cy_parser_grammar::specs::internal::Clauses::labels_if_any))]
    fn labels_if_any(&self, tokens: &mut Cursor<'_>) -> Result<Vec<Text>, Refusal>
        ensures { Reads (λ ls. ls.items) (spec.labels_if_any self.now.line.now tokens.old) result tokens.new }
    {
        if tokens.eat_symbol(Symbol::Colon) {
            labels(self.alloc, self.line, tokens)
        } else {
            Ok(Vec::new(self.alloc))
        }
    }

    /// An entry of a map.
    #[tactic(auto, unfolding(cy_parser_grammar::specs::internal::Reader::and_then, cy_parser_grammar::specs::internal::Clauses::entry))]
    fn entry(&self, tokens: &mut Cursor<'_>) -> Result<MapEntry, Refusal>
        ensures { Reads entry_of (spec.entry self.now.line.now tokens.old) result tokens.new }
    {
        let key = tokens.word(self.alloc, self.line)?;
        tokens.expect_symbol(Symbol::Colon)?;
        let value = self.expression(tokens)?;
        Ok(MapEntry { key, value })
    }

    /// The entries of a map, one or more.
    fn entries(&self, tokens: &mut Cursor<'_>) -> Result<Vec<MapEntry>, Refusal>
        ensures { Reads (λ es. map entry_of es.items) (spec.entries self.now.line.now tokens.old) result tokens.new }
    {
        let mut found = Vec::new(self.alloc);
        for _turn in 0..tokens.count() {
            found.push(self.entry(tokens)?)?;
            if !tokens.eat_symbol(Symbol::Comma) {
                return Ok(found);
            }
        }
        Err(tokens.unexpected())
    }

    /// A map, after its `{`.
    #[tactic(auto, unfolding(cy_parser_grammar::specs::internal::Reader::and_then, cy_parser_grammar::specs::internal::Clauses::map_read))]
    #[inline(never)]
    fn map_read(&self, tokens: &mut Cursor<'_>) -> Result<Vec<MapEntry>, Refusal>
        ensures { Reads (λ es. map entry_of es.items) (spec.map_read self.now.line.now tokens.old) result tokens.new }
    {
        if tokens.eat_symbol(Symbol::RightBrace) {
            return Ok(Vec::new(self.alloc));
        }
        let found = self.entries(tokens)?;
        tokens.expect_symbol(Symbol::RightBrace)?;
        Ok(found)
    }

    /// A map, if a `{` comes next.
    #[tactic(auto, unfolding(cy_parser_grammar::specs::internal::Reader::and_then, cy_parser_grammar::specs::internal::Clauses::map_if_any))]
    fn map_if_any(&self, tokens: &mut Cursor<'_>) -> Result<Option<Vec<MapEntry>>, Refusal>
        ensures { Reads properties_of (spec.map_if_any self.now.line.now tokens.old) result tokens.new }
    {
        if tokens.eat_symbol(Symbol::LeftBrace) {
            Ok(Some(self.map_read(tokens)?))
        } else {
            Ok(None)
        }
    }

    /// A node of a pattern.
    #[tactic(auto, unfolding(cy_parser_grammar::specs::internal::Reader::and_then, cy_parser_grammar::specs::internal::Clauses::node))]
    fn node(&self, tokens: &mut Cursor<'_>) -> Result<NodePattern, Refusal>
        ensures { Reads node_of (spec.node self.now.line.now tokens.old) result tokens.new }
    {
        tokens.expect_symbol(Symbol::LeftParenthesis)?;
        let variable = self.variable_if_any(tokens)?;
        let labels = self.labels_if_any(tokens)?;
        let properties = self.map_if_any(tokens)?;
        tokens.expect_symbol(Symbol::RightParenthesis)?;
        Ok(NodePattern {
            variable,
            labels,
            properties,
        })
    }

    /// Types with a `|` between, one or more.
    fn types(&self, tokens: &mut Cursor<'_>) -> Result<Vec<Text>, Refusal>
        ensures { Reads (λ ts. ts.items) (spec.types self.now.line.now tokens.old) result tokens.new }
    {
        let mut found = Vec::new(self.alloc);
        for _turn in 0..tokens.count() {
            found.push(tokens.word(self.alloc, self.line)?)?;
            if !tokens.eat_symbol(Symbol::Bar) {
                return Ok(found);
            }
            tokens.eat_symbol(Symbol::Colon);
        }
        Err(tokens.unexpected())
    }

    /// Types, if a `:` comes next.
    #[tactic(auto, unfolding(cy_parser_grammar::specs::internal::Reader::and_then, cy_parser_grammar::specs::internal::Clauses::types_if_any))]
    fn types_if_any(&self, tokens: &mut Cursor<'_>) -> Result<Vec<Text>, Refusal>
        ensures { Reads (λ ts. ts.items) (spec.types_if_any self.now.line.now tokens.old) result tokens.new }
    {
        if tokens.eat_symbol(Symbol::Colon) {
            self.types(tokens)
        } else {
            Ok(Vec::new(self.alloc))
        }
    }

    /// What stands in the square brackets of a relationship, after the opening one.
    #[tactic(auto, unfolding(cy_parser_grammar::specs::internal::Reader::and_then, cy_parser_grammar::specs::internal::Clauses::relationship_body))]
    fn relationship_body(
        &self,
        tokens: &mut Cursor<'_>,
        direction: Direction,
    ) -> Result<RelationshipPattern, Refusal>
        ensures { Reads relationship_of (spec.relationship_body self.now.line.now direction tokens.old) result tokens.new }
    {
        let variable = self.variable_if_any(tokens)?;
        let types = self.types_if_any(tokens)?;
        let length = tokens.length_if_any()?;
        let properties = self.map_if_any(tokens)?;
        tokens.expect_symbol(Symbol::RightBracket)?;
        Ok(RelationshipPattern {
            variable,
            direction,
            types,
            length,
            properties,
        })
    }

    /// The square brackets of a relationship, if they come next.
    #[tactic(auto, unfolding(cy_parser_grammar::specs::internal::Reader::and_then, cy_parser_grammar::specs::internal::Clauses::relationship_if_any))]
    fn relationship_if_any(&self, tokens: &mut Cursor<'_>) -> Result<RelationshipPattern, Refusal>
        ensures { Reads relationship_of (spec.relationship_if_any self.now.line.now tokens.old) result tokens.new }
    {
        if tokens.eat_symbol(Symbol::LeftBracket) {
            return self.relationship_body(tokens, Direction::Either);
        }
        Ok(RelationshipPattern {
            variable: None,
            direction: Direction::Either,
            types: Vec::new(self.alloc),
            length: None,
            properties: None,
        })
    }

    /// A relationship, from its left arrow or first `-` on.
    #[tactic(auto, unfolding(cy_parser_grammar::specs::internal::Reader::and_then, cy_parser_grammar::specs::internal::Clauses::relationship))]
    fn relationship(&self, tokens: &mut Cursor<'_>) -> Result<RelationshipPattern, Refusal>
        ensures { Reads relationship_of (spec.relationship self.now.line.now tokens.old) result tokens.new }
    {
        let is_left = tokens.eat_symbol(Symbol::Less);
        tokens.expect_symbol(Symbol::Minus)?;
        let mut relationship = self.relationship_if_any(tokens)?;
        tokens.expect_symbol(Symbol::Minus)?;
        let is_right = tokens.eat_symbol(Symbol::Greater);
        relationship.direction = direction_of(is_left, is_right);
        Ok(relationship)
    }

    /// A relationship and the node at its other end.
    #[tactic(auto, unfolding(cy_parser_grammar::specs::internal::Reader::and_then, cy_parser_grammar::specs::internal::Clauses::step))]
    fn step(&self, tokens: &mut Cursor<'_>) -> Result<Step, Refusal>
        ensures { Reads step_of (spec.step self.now.line.now tokens.old) result tokens.new }
    {
        let relationship = self.relationship(tokens)?;
        let node = self.node(tokens)?;
        Ok(Step { relationship, node })
    }

    /// The steps that lead on from a node.
    fn steps(&self, tokens: &mut Cursor<'_>) -> Result<Vec<Step>, Refusal>
        ensures { Reads (λ ss. map step_of ss.items) (spec.steps self.now.line.now tokens.old) result tokens.new }
    {
        let mut found = Vec::new(self.alloc);
        for _turn in 0..tokens.count() {
            if !begins_step(tokens.peek()) {
                return Ok(found);
            }
            found.push(self.step(tokens)?)?;
        }
        Ok(found)
    }

    /// A path of a pattern.
    #[tactic(auto, unfolding(cy_parser_grammar::specs::internal::Reader::and_then, cy_parser_grammar::specs::internal::Clauses::path))]
    pub(crate) fn path(&self, tokens: &mut Cursor<'_>) -> Result<Path, Refusal>
        ensures { Reads path_of (spec.path self.now.line.now tokens.old) result tokens.new }
    {
        let start = self.node(tokens)?;
        let steps = self.steps(tokens)?;
        Ok(Path { start, steps })
    }

    /// Paths, one or more, with commas between.
    pub(crate) fn paths(&self, tokens: &mut Cursor<'_>) -> Result<Vec<Path>, Refusal>
        ensures { Reads paths_of (spec.paths self.now.line.now tokens.old) result tokens.new }
    {
        let mut found = Vec::new(self.alloc);
        for _turn in 0..tokens.count() {
            found.push(self.path(tokens)?)?;
            if !tokens.eat_symbol(Symbol::Comma) {
                return Ok(found);
            }
        }
        Err(tokens.unexpected())
    }
}

/// Whether a relationship begins with the token.
fn begins_step(next: Option<TokenKind>) -> bool
    ensures { result ≡ spec.begins_step next }
{
    matches!(next, Some(TokenKind::Symbol(Symbol::Less | Symbol::Minus)))
}
