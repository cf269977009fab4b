//! Conditions: what stands after WHERE.

ghost use Rattle.std.specs.Prelude.{◌≡◌, map, option_map, reverse};
ghost use Rattle.cy_trees.specs.TreeModels.{path_of, path_test_of, where_of};
ghost use Rattle.cy_parser_grammar.specs.SpellsClauses as spells;
ghost use Rattle.cy_parser_grammar.specs.internal.Clauses as spec;
ghost use Rattle.cy_parser_statements.specs.internal.Parts.{condition_of, part_of};
ghost use Rattle.cy_parser_statements.specs.internal.Reads.{Reads};

use crate::building::binary;
use crate::cursor::Cursor;
use crate::nesting::nesting;
use crate::operands::Operand;
use crate::refusals::Refusal;
use crate::source::{MOST_LEVELS, Source};
use cy_lexer::{Keyword, Symbol};
use cy_parser_grammar::Nested;
use cy_trees::{BinaryOperator, Path, PathTest, Where};

/// An expression of a WHERE, and how many tokens are left from the first of its expressions on.
#[derive(Drop)]
pub(crate) struct Condition {
    pub(crate) first: usize,
    pub(crate) operand: Operand,
}

/// A conjunct of a WHERE.
#[derive(Drop)]
pub(crate) enum Part {
    Condition(Condition),
    Path(PathTest),
}

impl Part {
    /// How many tokens are left from the first of a condition on.
    fn first(&self) -> Option<usize> {
        match self {
            Part::Condition(condition) => Some(condition.first),
            Part::Path(_) => None,
        }
    }
}

/// Whether one of the parts is a path.
fn is_path_among(parts: &[Part]) -> bool
    ensures { result ≡ spells.is_path_among (map part_of parts.now) }
{
    for part in parts {
        if let Part::Path(_) = part {
            return true;
        }
    }
    false
}

impl<'l> Source<'l> {
    /// A path with a relationship.
    #[tactic(auto, unfolding(cy_parser_grammar::specs::internal::Reader::and_then, cy_parser_grammar::specs::internal::Clauses::stepped))]
    fn stepped(&self, tokens: &mut Cursor<'_>) -> Result<Path, Refusal>
        ensures { Reads path_of (spec.stepped self.now.line.now tokens.old) result tokens.new }
    {
        let path = self.path(tokens)?;
        if path.steps.is_empty() {
            return Err(tokens.unexpected());
        }
        Ok(path)
    }

    #[tactic(auto, unfolding(cy_parser_grammar::specs::internal::Reader::and_then, cy_parser_grammar::specs::internal::Clauses::bracketed_path))]
    fn bracketed_path(&self, tokens: &mut Cursor<'_>) -> Result<Path, Refusal>
        ensures { Reads path_of (spec.bracketed_path self.now.line.now tokens.old) result tokens.new }
    {
        tokens.expect_symbol(Symbol::LeftParenthesis)?;
        let path = self.stepped(tokens)?;
        tokens.expect_symbol(Symbol::RightParenthesis)?;
        Ok(path)
    }

    /// A path after NOT.
    #[tactic(auto, unfolding(cy_parser_grammar::specs::internal::Reader::and_then, cy_parser_grammar::specs::internal::Clauses::denied_path))]
    fn denied_path(&self, tokens: &mut Cursor<'_>) -> Result<Path, Refusal>
        ensures { Reads path_of (spec.denied_path self.now.line.now tokens.old) result tokens.new }
    {
        if tokens.sees_two_brackets() {
            self.bracketed_path(tokens)
        } else {
            self.stepped(tokens)
        }
    }

    /// A path as a condition.
    #[tactic(auto, unfolding(cy_parser_grammar::specs::internal::Reader::and_then, cy_parser_grammar::specs::internal::Clauses::path_test))]
    fn path_test(&self, tokens: &mut Cursor<'_>) -> Result<PathTest, Refusal>
        ensures { Reads path_test_of (spec.path_test self.now.line.now tokens.old) result tokens.new }
    {
        if tokens.eat_keyword(Keyword::Not) {
            let path = self.denied_path(tokens)?;
            return Ok(PathTest { denied: true, path });
        }
        let path = self.stepped(tokens)?;
        Ok(PathTest {
            denied: false,
            path,
        })
    }

    /// A part that is a path.
    #[tactic(auto, unfolding(cy_parser_grammar::specs::internal::Reader::and_then, cy_parser_grammar::specs::internal::Clauses::path_part))]
    fn path_part(&self, tokens: &mut Cursor<'_>) -> Result<Part, Refusal>
        ensures { Reads part_of (spec.path_part self.now.line.now tokens.old) result tokens.new }
    {
        let test = self.path_test(tokens)?;
        if !tokens.ends_part() {
            return Err(tokens.unexpected());
        }
        Ok(Part::Path(test))
    }

    /// A part that is an expression, where so many tokens are left from the first such part on.
    #[tactic(auto, unfolding(cy_parser_grammar::specs::internal::Reader::and_then, cy_parser_grammar::specs::internal::Clauses::condition_part))]
    fn condition_part(&self, tokens: &mut Cursor<'_>, first: usize) -> Result<Part, Refusal>
        ensures { Reads part_of (spec.condition_part self.now.line.now tokens.old) result tokens.new }
    {
        match nesting(self.alloc, self.line, tokens, MOST_LEVELS, Nested::Negation) {
            Ok(operand) => {
                if !tokens.ends_part() {
                    return Err(tokens.unexpected());
                }
                Ok(Part::Condition(Condition { first, operand }))
            }
            Err(refusal) => Err(refusal.since(first)),
        }
    }

    /// A part: a path where one stands up to the part's end, else an expression.
    #[tactic(auto, unfolding(cy_parser_grammar::specs::internal::Reader::or_else, cy_parser_grammar::specs::internal::Clauses::part))]
    fn part(&self, tokens: &mut Cursor<'_>, first: usize) -> Result<Part, Refusal>
        ensures { Reads part_of (spec.part self.now.line.now tokens.old) result tokens.new }
    {
        let mut ahead = tokens.ahead();
        match self.path_part(&mut ahead) {
            Ok(part) => {
                tokens.follow(&ahead);
                Ok(part)
            }
            Err(Refusal::NoMemory) => Err(Refusal::NoMemory),
            Err(refusal) => match self.condition_part(tokens, first) {
                Ok(part) => Ok(part),
                Err(other) => Err(refusal.or_further(other)),
            },
        }
    }

    /// Parts, one or more, with AND between.
    fn parts(&self, tokens: &mut Cursor<'_>) -> Result<Vec<Part>, Refusal>
        ensures { Reads (λ ps. map part_of ps.items) (spec.parts self.now.line.now tokens.old) result tokens.new }
    {
        let mut found = Vec::new(self.alloc);
        let mut first = None;
        for _turn in 0..tokens.count() {
            let part = self.part(tokens, first.unwrap_or(tokens.count()))?;
            first = first.or(part.first());
            found.push(part)?;
            if !tokens.eat_keyword(Keyword::And) {
                return Ok(found);
            }
        }
        Err(tokens.unexpected())
    }

    /// Parts of which one is a path.
    #[tactic(auto, unfolding(cy_parser_grammar::specs::internal::Reader::and_then, cy_parser_grammar::specs::internal::Clauses::conjuncts))]
    fn conjuncts(&self, tokens: &mut Cursor<'_>) -> Result<Vec<Part>, Refusal>
        ensures { Reads (λ ps. map part_of ps.items) (spec.conjuncts self.now.line.now tokens.old) result tokens.new }
    {
        let all = tokens.count();
        let parts = self.parts(tokens)?;
        if !is_path_among(&parts) {
            return Err(Refusal::Unexpected(all));
        }
        Ok(parts)
    }

    /// The condition before, if there is one, and another one.
    #[tactic(auto, unfolding(cy_parser_grammar::specs::internal::Clauses::conjoined))]
    fn conjoined(
        &self,
        tokens: &Cursor<'_>,
        before: Option<Condition>,
        condition: Condition,
    ) -> Result<Condition, Refusal>
        ensures { Reads condition_of (spec.conjoined (option_map condition_of before) (condition_of condition) tokens.now) result tokens.now }
    {
        let Some(before) = before else {
            return Ok(condition);
        };
        let Condition { first, operand } = before;
        match binary(
            self.alloc,
            tokens,
            BinaryOperator::And,
            operand,
            condition.operand,
        ) {
            Ok(operand) => Ok(Condition { first, operand }),
            Err(refusal) => Err(refusal.since(first)),
        }
    }

    /// The WHERE that parts make, which are taken from the end on.
    fn made_of(&self, tokens: &Cursor<'_>, mut parts: Vec<Part>) -> Result<Where, Refusal>
        ensures { Reads where_of (spec.where_from spec.no_where (map part_of (reverse parts.items)) tokens.now) result tokens.now }
    {
        let mut test = None;
        let mut paths = Vec::new(self.alloc);
        while let Some(part) = parts.pop() {
            match part {
                Part::Condition(condition) => {
                    test = Some(self.conjoined(tokens, test, condition)?);
                }
                Part::Path(path) => paths.push(path)?,
            }
        }
        Ok(Where {
            test: match test {
                Some(condition) => Some(condition.operand.into_tree()),
                None => None,
            },
            paths,
        })
    }

    /// An expression alone.
    #[tactic(auto, unfolding(cy_parser_grammar::specs::internal::Reader::and_then))]
    fn test_alone(&self, tokens: &mut Cursor<'_>) -> Result<Where, Refusal>
        ensures { Reads where_of (spec.where_by self.now.line.now None tokens.old) result tokens.new }
    {
        let test = self.expression(tokens)?;
        Ok(Where {
            test: Some(test),
            paths: Vec::new(self.alloc),
        })
    }

    /// What stands after WHERE: parts of which one is a path, else an expression.
    #[tactic(auto, unfolding(cy_parser_grammar::specs::internal::Clauses::condition_read))]
    fn condition(&self, tokens: &mut Cursor<'_>) -> Result<Where, Refusal>
        ensures { Reads where_of (spec.condition_read self.now.line.now tokens.old) result tokens.new }
    {
        let mut ahead = tokens.ahead();
        match self.conjuncts(&mut ahead) {
            Ok(mut parts) => {
                tokens.follow(&ahead);
                parts.reverse();
                self.made_of(tokens, parts)
            }
            Err(Refusal::NoMemory) => Err(Refusal::NoMemory),
            Err(refusal) => match self.test_alone(tokens) {
                Ok(condition) => Ok(condition),
                Err(other) => Err(refusal.or_further(other)),
            },
        }
    }

    /// What stands after WHERE, if that comes next.
    #[tactic(auto, unfolding(cy_parser_grammar::specs::internal::Reader::and_then, cy_parser_grammar::specs::internal::Clauses::filter_if_any))]
    pub(crate) fn filter_if_any(&self, tokens: &mut Cursor<'_>) -> Result<Where, Refusal>
        ensures { Reads where_of (spec.filter_if_any self.now.line.now tokens.old) result tokens.new }
    {
        if tokens.eat_keyword(Keyword::Where) {
            self.condition(tokens)
        } else {
            Ok(Where {
                test: None,
                paths: Vec::new(self.alloc),
            })
        }
    }
}
