//! Clauses in their order, queries and statements.

ghost use Rattle.std.specs.Prelude.{◌≡◌, map, length};
ghost use Rattle.cy_trees.specs.TreeModels.{clause_of, query_of, statement_of};
ghost use Rattle.cy_parser_grammar.specs.SpellsClauses as spells;
ghost use Rattle.cy_parser_grammar.specs.internal.Clauses as spec;
ghost use Rattle.cy_parser_statements.specs.internal.Reads.{Reads};

use crate::cursor::Cursor;
use crate::order::{is_allowed, may_end, opening_of, phase_after, updates};
use crate::refusals::Refusal;
use crate::source::Source;
use cy_lexer::{Keyword, Symbol, TokenKind};
use cy_parser_grammar::{ClausePhase, Opening};
use cy_trees::{Clause, Delete, Match, Query, Statement, Unwind, With};

impl<'l> Source<'l> {
    /// A MATCH, after that word.
    #[tactic(auto, unfolding(cy_parser_grammar::specs::internal::Reader::and_then, cy_parser_grammar::specs::internal::Clauses::match_read))]
    fn match_read(&self, tokens: &mut Cursor<'_>, optional: bool) -> Result<Clause, Refusal>
        ensures { Reads clause_of (spec.match_read self.now.line.now optional tokens.old) result tokens.new }
    {
        let paths = self.paths(tokens)?;
        let filter = self.filter_if_any(tokens)?;
        Ok(Clause::Match(Match {
            optional,
            paths,
            filter,
        }))
    }

    /// An UNWIND, after that word.
    #[tactic(auto, unfolding(cy_parser_grammar::specs::internal::Reader::and_then, cy_parser_grammar::specs::internal::Clauses::unwind_read))]
    fn unwind_read(&self, tokens: &mut Cursor<'_>) -> Result<Clause, Refusal>
        ensures { Reads clause_of (spec.unwind_read self.now.line.now tokens.old) result tokens.new }
    {
        let list = self.expression(tokens)?;
        tokens.expect_keyword(Keyword::As)?;
        let variable = self.variable(tokens)?;
        Ok(Clause::Unwind(Unwind { list, variable }))
    }

    /// A WITH, after that word.
    #[tactic(auto, unfolding(cy_parser_grammar::specs::internal::Reader::and_then, cy_parser_grammar::specs::internal::Clauses::with_read))]
    fn with_read(&self, tokens: &mut Cursor<'_>) -> Result<Clause, Refusal>
        ensures { Reads clause_of (spec.with_read self.now.line.now tokens.old) result tokens.new }
    {
        let projection = self.projection(tokens)?;
        let filter = self.filter_if_any(tokens)?;
        Ok(Clause::With(With { projection, filter }))
    }

    /// A DELETE, after that word.
    #[tactic(auto, unfolding(cy_parser_grammar::specs::internal::Reader::and_then, cy_parser_grammar::specs::internal::Clauses::delete_read))]
    fn delete_read(&self, tokens: &mut Cursor<'_>, detach: bool) -> Result<Clause, Refusal>
        ensures { Reads clause_of (spec.delete_read self.now.line.now detach tokens.old) result tokens.new }
    {
        let variables = self.variables(tokens)?;
        Ok(Clause::Delete(Delete { detach, variables }))
    }

    /// The clause after its first word.
    #[tactic(auto, unfolding(cy_parser_grammar::specs::internal::Reader::and_then))]
    fn clause(&self, tokens: &mut Cursor<'_>, opening: Opening) -> Result<Clause, Refusal>
        ensures { Reads clause_of (spec.clause_by self.now.line.now opening tokens.old) result tokens.new }
    {
        match opening {
            Opening::Match => self.match_read(tokens, false),
            Opening::Optional => {
                tokens.expect_keyword(Keyword::Match)?;
                self.match_read(tokens, true)
            }
            Opening::Unwind => self.unwind_read(tokens),
            Opening::With => self.with_read(tokens),
            Opening::Return => Ok(Clause::Return(self.projection(tokens)?)),
            Opening::Create => Ok(Clause::Create(self.paths(tokens)?)),
            Opening::Set => Ok(Clause::Set(self.set_items(tokens)?)),
            Opening::Remove => Ok(Clause::Remove(self.remove_items(tokens)?)),
            Opening::Delete => self.delete_read(tokens, false),
            Opening::Detach => {
                tokens.expect_keyword(Keyword::Delete)?;
                self.delete_read(tokens, true)
            }
        }
    }

    /// The clause that the next token begins, if it may stand here; in a query after UNION, if it is a later one.
    #[tactic(auto, unfolding(cy_parser_grammar::specs::internal::Reader::and_then, cy_parser_grammar::specs::internal::Clauses::clause_in))]
    fn clause_in(
        &self,
        tokens: &mut Cursor<'_>,
        is_later: bool,
        phase: ClausePhase,
        opening: Opening,
    ) -> Result<Clause, Refusal>
        ensures { Reads clause_of (spec.clause_in self.now.line.now is_later phase opening tokens.old) result tokens.new }
    {
        if !is_allowed(is_later, phase, opening) {
            return Err(Refusal::ClauseOrder(tokens.count()));
        }
        tokens.skip();
        self.clause(tokens, opening)
    }

    /// Clauses as long as they go on.
    fn clauses(&self, tokens: &mut Cursor<'_>, is_later: bool) -> Result<Vec<Clause>, Refusal>
        ensures { Reads (λ cs. map clause_of cs.items) (spec.clauses self.now.line.now is_later tokens.old) result tokens.new }
    {
        let mut found = Vec::new(self.alloc);
        let mut phase = ClausePhase::Reading;
        for _turn in 0..tokens.count() {
            let Some(opening) = tokens.peek().and_then(opening_of) else {
                tokens.query_end(phase, found.is_empty())?;
                return Ok(found);
            };
            found.push(self.clause_in(tokens, is_later, phase, opening)?)?;
            phase = phase_after(opening);
        }
        tokens.query_end(phase, found.is_empty())?;
        Ok(found)
    }

    /// A query.
    #[tactic(auto, unfolding(cy_parser_grammar::specs::internal::Reader::and_then, cy_parser_grammar::specs::internal::Clauses::query))]
    fn query(&self, tokens: &mut Cursor<'_>, is_later: bool) -> Result<Query, Refusal>
        ensures { Reads query_of (spec.query self.now.line.now is_later tokens.old) result tokens.new }
    {
        let clauses = self.clauses(tokens, is_later)?;
        Ok(Query { clauses })
    }

    /// Queries and those after them, each after a UNION as the first one.
    fn further(
        &self,
        tokens: &mut Cursor<'_>,
        all: bool,
        first: Vec<Query>,
    ) -> Result<Vec<Query>, Refusal>
        ensures { Reads (λ qs. map query_of qs.items) (spec.queries_from self.now.line.now (length tokens.old) all (map query_of first.items) tokens.old) result tokens.new }
    {
        let mut found = first;
        for _turn in 0..tokens.count() {
            if !tokens.eat_keyword(Keyword::Union) {
                return Ok(found);
            }
            tokens.same_union(all)?;
            found.push(self.query(tokens, true)?)?;
        }
        Ok(found)
    }

    /// The queries of a union, after its first one and the first UNION.
    #[tactic(auto, unfolding(cy_parser_grammar::specs::internal::Reader::and_then, cy_parser_grammar::specs::internal::Clauses::union_read))]
    fn union_read(&self, tokens: &mut Cursor<'_>, first: Query) -> Result<Statement, Refusal>
        ensures { Reads statement_of (spec.union_read self.now.line.now (query_of first) tokens.old) result tokens.new }
    {
        let all = tokens.eat_keyword(Keyword::All);
        let second = self.query(tokens, true)?;
        let mut found = Vec::new(self.alloc);
        found.push(first)?;
        found.push(second)?;
        let queries = self.further(tokens, all, found)?;
        Ok(Statement { queries, all })
    }

    /// A query, or several with UNION between each two.
    #[tactic(auto, unfolding(cy_parser_grammar::specs::internal::Reader::and_then, cy_parser_grammar::specs::internal::Clauses::queries, cy_parser_grammar::specs::internal::Clauses::union_of))]
    fn queries(&self, tokens: &mut Cursor<'_>) -> Result<Statement, Refusal>
        ensures { Reads statement_of (spec.queries self.now.line.now tokens.old) result tokens.new }
    {
        let first = self.query(tokens, false)?;
        let left = tokens.count();
        if tokens.eat_keyword(Keyword::Union) {
            if !reads_alone(&first.clauses) {
                return Err(Refusal::ClauseOrder(left));
            }
            return self.union_read(tokens, first);
        }
        let mut queries = Vec::new(self.alloc);
        queries.push(first)?;
        Ok(Statement {
            queries,
            all: false,
        })
    }

    /// A statement: all that is left.
    #[tactic(auto, unfolding(cy_parser_grammar::specs::internal::Reader::and_then, cy_parser_grammar::specs::internal::Clauses::statement))]
    pub fn statement(&self, tokens: &mut Cursor<'_>) -> Result<Statement, Refusal>
        ensures { Reads statement_of (spec.statement self.now.line.now tokens.old) result tokens.new }
    {
        let found = self.queries(tokens)?;
        tokens.end()?;
        Ok(found)
    }
}

/// Whether no clause updates.
fn reads_alone(clauses: &[Clause]) -> bool
    ensures { result ≡ spells.reads_alone (map clause_of clauses.now) }
{
    for clause in clauses {
        if updates(clause) {
            return false;
        }
    }
    true
}

impl<'a> Cursor<'a> {
    /// The end of a query, after clauses that lead to the phase, or none.
    #[tactic(auto, unfolding(cy_parser_grammar::specs::internal::Clauses::query_ended))]
    fn query_end(&self, phase: ClausePhase, is_empty: bool) -> Result<(), Refusal>
        ensures { Reads (λ u. u) (spec.query_ended phase self.now) result self.now }
    {
        if may_end(phase) {
            return Ok(());
        }
        Err(match self.peek() {
            None | Some(TokenKind::Keyword(Keyword::Union)) if !is_empty => Refusal::ClauseOrder(
                self.count(),
            ),
            _ => self.unexpected(),
        })
    }

    /// ALL, or none, after a later UNION, as after the first one.
    #[tactic(auto, unfolding(cy_parser_grammar::specs::internal::Clauses::same_union))]
    fn same_union(&mut self, all: bool) -> Result<(), Refusal>
        ensures { Reads (λ u. u) (spec.same_union all self.old) result self.new }
    {
        if all {
            self.expect_keyword(Keyword::All)
        } else {
            Ok(())
        }
    }

    /// The end of a statement, which a `;` may stand before.
    #[tactic(auto, unfolding(cy_parser_grammar::specs::internal::Reader::and_then, cy_parser_grammar::specs::internal::Clauses::end_read))]
    fn end(&mut self) -> Result<(), Refusal>
        ensures { Reads (λ u. u) (spec.end_read self.old) result self.new }
    {
        self.eat_symbol(Symbol::Semicolon);
        if self.count() > 0 {
            return Err(self.unexpected());
        }
        Ok(())
    }
}
