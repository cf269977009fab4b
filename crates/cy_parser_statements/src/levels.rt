//! The levels of operators, from the tightest to the loosest. A function of another crate is handed on in a closure, since the prover
//! takes none of these by its name.

ghost use Rattle.std.specs.Prelude.{◌≡◌, ◌∷◌, [], IfOk};
ghost use Rattle.cy_parser_grammar.specs.Words as words;
ghost use Rattle.cy_parser_grammar.specs.internal.Chains as chains;
ghost use Rattle.cy_parser_grammar.specs.internal.Expressions as spec;
ghost use Rattle.cy_parser_statements.specs.internal.Nests.{Nests};
ghost use Rattle.cy_parser_statements.specs.internal.Operands.{operand_of, links_in, LinksAreMeasured};
ghost use Rattle.cy_parser_statements.specs.internal.Reads.{Reads};

use crate::building::{binary, comparison, leaf, unary};
use crate::connectives::{conjunction_operator, disjunction_operator, exclusion_operator};
use crate::cursor::Cursor;
use crate::grammar::Grammar;
use crate::operands::{Gathered, Operand};
use crate::operations::chain_after;
use crate::refusals::Refusal;
use cy_lexer::{Keyword, Symbol, TokenKind};
use cy_parser_grammar::{Nested, comparator_of, product_operator, sum_operator};
use cy_trees::{BinaryOperator, Expr, Link, UnaryOperator};
use std::alloc::Global;

impl<'l, F: Fn(Global, &str, &mut Cursor<'_>, usize, Nested) -> Result<Operand, Refusal>> Grammar<
    'l,
    F,
> {
    /// What stands after a sign `-`, which directly before a number makes a literal of it.
    #[tactic(auto, unfolding(cy_parser_grammar::specs::internal::Reader::and_then, cy_parser_grammar::specs::internal::Expressions::minus))]
    fn minus(&self, tokens: &mut Cursor<'_>) -> Result<Operand, Refusal>
        requires { Nests self.now.levels (F.pre self.now.inner) (F.post self.now.inner) }
        ensures { Reads operand_of (spec.minus self.now.line.now (spec.nesting self.now.line.now self.now.levels) tokens.old) result tokens.new }
    {
        if let Some(TokenKind::Number(number)) = tokens.peek() {
            let integer = tokens.negated(number)?;
            tokens.skip();
            return Ok(leaf(Expr::Integer(integer)));
        }
        let operand = self.inside(tokens, Nested::Sign)?;
        unary(self.alloc, tokens, UnaryOperator::Minus, operand)
    }

    /// What stands after a sign `+`.
    #[tactic(auto, unfolding(cy_parser_grammar::specs::internal::Reader::and_then, cy_parser_grammar::specs::internal::Expressions::plus))]
    fn plus(&self, tokens: &mut Cursor<'_>) -> Result<Operand, Refusal>
        requires { Nests self.now.levels (F.pre self.now.inner) (F.post self.now.inner) }
        ensures { Reads operand_of (spec.plus self.now.line.now (spec.nesting self.now.line.now self.now.levels) tokens.old) result tokens.new }
    {
        let operand = self.inside(tokens, Nested::Sign)?;
        unary(self.alloc, tokens, UnaryOperator::Plus, operand)
    }

    /// Signs, and what they stand before.
    #[tactic(auto, unfolding(cy_parser_grammar::specs::internal::Reader::and_then, cy_parser_grammar::specs::internal::Expressions::signed))]
    pub(crate) fn signed(&self, tokens: &mut Cursor<'_>) -> Result<Operand, Refusal>
        requires { Nests self.now.levels (F.pre self.now.inner) (F.post self.now.inner) }
        ensures { Reads operand_of (spec.signed self.now.line.now self.now.levels (spec.nesting self.now.line.now self.now.levels) tokens.old) result tokens.new }
    {
        if tokens.eat_symbol(Symbol::Minus) {
            return self.minus(tokens);
        }
        if tokens.eat_symbol(Symbol::Plus) {
            return self.plus(tokens);
        }
        self.postfix(tokens)
    }

    /// What `*`, `/` and `%` make of a first operand and those after it.
    fn product_after(&self, tokens: &mut Cursor<'_>, first: Operand) -> Result<Operand, Refusal>
        requires { Nests self.now.levels (F.pre self.now.inner) (F.post self.now.inner) }
        ensures { Reads operand_of (spec.chain_after words.product_operator (spec.signed self.now.line.now self.now.levels (spec.nesting self.now.line.now self.now.levels)) (operand_of first) tokens.old) result tokens.new }
    {
        chain_after(
            self.alloc,
            tokens,
            first,
            |kind| product_operator(kind),
            |tokens| self.signed(tokens),
        )
    }

    /// Operands of `*`, `/` and `%`.
    #[tactic(auto, unfolding(cy_parser_grammar::specs::internal::Reader::and_then, cy_parser_grammar::specs::internal::Expressions::product))]
    fn product(&self, tokens: &mut Cursor<'_>) -> Result<Operand, Refusal>
        requires { Nests self.now.levels (F.pre self.now.inner) (F.post self.now.inner) }
        ensures { Reads operand_of (spec.product self.now.line.now self.now.levels (spec.nesting self.now.line.now self.now.levels) tokens.old) result tokens.new }
    {
        let first = self.signed(tokens)?;
        self.product_after(tokens, first)
    }

    /// What `+` and `-` make of a first operand and those after it.
    fn sum_after(&self, tokens: &mut Cursor<'_>, first: Operand) -> Result<Operand, Refusal>
        requires { Nests self.now.levels (F.pre self.now.inner) (F.post self.now.inner) }
        ensures { Reads operand_of (spec.chain_after words.sum_operator (spec.product self.now.line.now self.now.levels (spec.nesting self.now.line.now self.now.levels)) (operand_of first) tokens.old) result tokens.new }
    {
        chain_after(
            self.alloc,
            tokens,
            first,
            |kind| sum_operator(kind),
            |tokens| self.product(tokens),
        )
    }

    /// Operands of `+` and `-`.
    #[tactic(auto, unfolding(cy_parser_grammar::specs::internal::Reader::and_then, cy_parser_grammar::specs::internal::Expressions::sum))]
    fn sum(&self, tokens: &mut Cursor<'_>) -> Result<Operand, Refusal>
        requires { Nests self.now.levels (F.pre self.now.inner) (F.post self.now.inner) }
        ensures { Reads operand_of (spec.sum self.now.line.now self.now.levels (spec.nesting self.now.line.now self.now.levels) tokens.old) result tokens.new }
    {
        let first = self.product(tokens)?;
        self.sum_after(tokens, first)
    }

    /// A test for null, after IS.
    #[tactic(auto, unfolding(cy_parser_grammar::specs::internal::Reader::and_then, cy_parser_grammar::specs::internal::Expressions::null_test))]
    fn null_test(&self, tokens: &mut Cursor<'_>, left: Operand) -> Result<Operand, Refusal>
        ensures { Reads operand_of (spec.null_test (operand_of left) tokens.old) result tokens.new }
    {
        let operator = if tokens.eat_keyword(Keyword::Not) {
            UnaryOperator::IsNotNull
        } else {
            UnaryOperator::IsNull
        };
        tokens.expect_keyword(Keyword::Null)?;
        unary(self.alloc, tokens, operator, left)
    }

    /// A predicate's right side, after its words.
    #[tactic(auto, unfolding(cy_parser_grammar::specs::internal::Reader::and_then, cy_parser_grammar::specs::internal::Expressions::tested))]
    fn tested(
        &self,
        tokens: &mut Cursor<'_>,
        operator: BinaryOperator,
        left: Operand,
    ) -> Result<Operand, Refusal>
        requires { Nests self.now.levels (F.pre self.now.inner) (F.post self.now.inner) }
        ensures { Reads operand_of (spec.tested self.now.line.now self.now.levels (spec.nesting self.now.line.now self.now.levels) operator (operand_of left) tokens.old) result tokens.new }
    {
        let right = self.sum(tokens)?;
        binary(self.alloc, tokens, operator, left, right)
    }

    /// The predicate that the next token begins.
    #[tactic(auto, unfolding(cy_parser_grammar::specs::internal::Reader::and_then, cy_parser_grammar::specs::internal::Expressions::predicate_step))]
    fn predicate_step(&self, tokens: &mut Cursor<'_>, left: Operand) -> Result<Operand, Refusal>
        requires { Nests self.now.levels (F.pre self.now.inner) (F.post self.now.inner) }
        ensures { Reads operand_of (spec.predicate_step self.now.line.now self.now.levels (spec.nesting self.now.line.now self.now.levels) (operand_of left) tokens.old) result tokens.new }
    {
        match tokens.peek() {
            Some(TokenKind::Keyword(Keyword::Is)) => {
                tokens.skip();
                self.null_test(tokens, left)
            }
            Some(TokenKind::Keyword(Keyword::In)) => {
                tokens.skip();
                self.tested(tokens, BinaryOperator::In, left)
            }
            Some(TokenKind::Keyword(Keyword::Contains)) => {
                tokens.skip();
                self.tested(tokens, BinaryOperator::Contains, left)
            }
            Some(TokenKind::Keyword(Keyword::Starts)) => {
                tokens.skip();
                tokens.expect_keyword(Keyword::With)?;
                self.tested(tokens, BinaryOperator::StartsWith, left)
            }
            Some(TokenKind::Keyword(Keyword::Ends)) => {
                tokens.skip();
                tokens.expect_keyword(Keyword::With)?;
                self.tested(tokens, BinaryOperator::EndsWith, left)
            }
            _ => Err(tokens.unexpected()),
        }
    }

    /// A sum with the predicates after it.
    fn predicate_after(&self, tokens: &mut Cursor<'_>, first: Operand) -> Result<Operand, Refusal>
        requires { Nests self.now.levels (F.pre self.now.inner) (F.post self.now.inner) }
        ensures { Reads operand_of (spec.predicates_after self.now.line.now self.now.levels (spec.nesting self.now.line.now self.now.levels) (operand_of first) tokens.old) result tokens.new }
    {
        let mut left = first;
        for _turn in 0..tokens.count() {
            if !begins_predicate(tokens.peek()) {
                return Ok(left);
            }
            left = self.predicate_step(tokens, left)?;
        }
        Ok(left)
    }

    /// What arithmetic and predicates make of a first operand and what comes after it.
    #[tactic(auto, unfolding(cy_parser_grammar::specs::internal::Reader::and_then, cy_parser_grammar::specs::internal::Expressions::predicate_from))]
    fn predicate_of(&self, tokens: &mut Cursor<'_>, first: Operand) -> Result<Operand, Refusal>
        requires { Nests self.now.levels (F.pre self.now.inner) (F.post self.now.inner) }
        ensures { Reads operand_of (spec.predicate_from self.now.line.now self.now.levels (spec.nesting self.now.line.now self.now.levels) (operand_of first) tokens.old) result tokens.new }
    {
        let product = self.product_after(tokens, first)?;
        let sum = self.sum_after(tokens, product)?;
        self.predicate_after(tokens, sum)
    }

    /// What arithmetic and predicates make of a first operand, where an operator may be missing.
    #[tactic(auto, using(cy_parser_grammar::proofs::Continues::predicate_stops))]
    fn predicate_from(&self, tokens: &mut Cursor<'_>, first: Operand) -> Result<Operand, Refusal>
        requires { Nests self.now.levels (F.pre self.now.inner) (F.post self.now.inner) }
        ensures { Reads operand_of (spec.predicate_from self.now.line.now self.now.levels (spec.nesting self.now.line.now self.now.levels) (operand_of first) tokens.old) result tokens.new }
    {
        if !continues_predicate(tokens.peek()) {
            return Ok(first);
        }
        self.predicate_of(tokens, first)
    }

    /// A sum with the predicates after it.
    #[tactic(auto, unfolding(cy_parser_grammar::specs::internal::Reader::and_then, cy_parser_grammar::specs::internal::Expressions::predicate, cy_parser_grammar::specs::internal::Expressions::sum, cy_parser_grammar::specs::internal::Expressions::product, cy_parser_grammar::specs::internal::Expressions::predicate_from))]
    fn predicate(&self, tokens: &mut Cursor<'_>) -> Result<Operand, Refusal>
        requires { Nests self.now.levels (F.pre self.now.inner) (F.post self.now.inner) }
        ensures { Reads operand_of (spec.predicate self.now.line.now self.now.levels (spec.nesting self.now.line.now self.now.levels) tokens.old) result tokens.new }
    {
        let first = self.signed(tokens)?;
        self.predicate_from(tokens, first)
    }

    /// The comparators after a first operand, each with its operand.
    fn links(&self, tokens: &mut Cursor<'_>) -> Result<Gathered<Link>, Refusal>
        requires { Nests self.now.levels (F.pre self.now.inner) (F.post self.now.inner) }
        ensures read { Reads links_in (spec.links self.now.line.now self.now.levels (spec.nesting self.now.line.now self.now.levels) tokens.old) result tokens.new }
        ensures measured { IfOk result (λ g. LinksAreMeasured g) }
    {
        let mut found = Gathered::<Link>::new(self.alloc);
        for _turn in 0..tokens.count() {
            let Some(comparator) = tokens.peek().and_then(|kind| comparator_of(kind)) else {
                return Ok(found);
            };
            tokens.skip();
            found.push_link(comparator, self.predicate(tokens)?)?;
        }
        Ok(found)
    }

    /// An operand, or the chain of comparisons that it begins.
    #[tactic(auto, unfolding(cy_parser_grammar::specs::internal::Reader::and_then))]
    fn comparisons_after(&self, tokens: &mut Cursor<'_>, first: Operand) -> Result<Operand, Refusal>
        requires { Nests self.now.levels (F.pre self.now.inner) (F.post self.now.inner) }
        ensures { Reads operand_of (spec.comparisons_after self.now.line.now self.now.levels (spec.nesting self.now.line.now self.now.levels) (operand_of first) tokens.old) result tokens.new }
    {
        let links = self.links(tokens)?;
        if links.items.is_empty() {
            return Ok(first);
        }
        comparison(self.alloc, tokens, first, links)
    }

    /// A chain of comparisons, or its first operand, from the part of it that was read first.
    #[tactic(auto, unfolding(cy_parser_grammar::specs::internal::Reader::and_then))]
    fn comparisons_from(&self, tokens: &mut Cursor<'_>, first: Operand) -> Result<Operand, Refusal>
        requires { Nests self.now.levels (F.pre self.now.inner) (F.post self.now.inner) }
        ensures { Reads operand_of (spec.comparisons_from self.now.line.now self.now.levels (spec.nesting self.now.line.now self.now.levels) (operand_of first) tokens.old) result tokens.new }
    {
        let predicate = self.predicate_from(tokens, first)?;
        self.comparisons_after(tokens, predicate)
    }

    /// An operand, or a chain of comparisons.
    #[tactic(auto, using(cy_parser_grammar::proofs::Continues::comparison_stops), unfolding(cy_parser_grammar::specs::internal::Reader::and_then, cy_parser_grammar::specs::internal::Expressions::comparisons, cy_parser_grammar::specs::internal::Expressions::predicate, cy_parser_grammar::specs::internal::Expressions::sum, cy_parser_grammar::specs::internal::Expressions::product, cy_parser_grammar::specs::internal::Expressions::predicate_from))]
    fn comparisons(&self, tokens: &mut Cursor<'_>) -> Result<Operand, Refusal>
        requires { Nests self.now.levels (F.pre self.now.inner) (F.post self.now.inner) }
        ensures { Reads operand_of (spec.comparisons self.now.line.now self.now.levels (spec.nesting self.now.line.now self.now.levels) tokens.old) result tokens.new }
    {
        let found = self.signed(tokens);
        if !continues_comparison(tokens.peek()) {
            return found;
        }
        self.comparisons_from(tokens, found?)
    }

    /// What stands after NOT.
    #[tactic(auto, unfolding(cy_parser_grammar::specs::internal::Reader::and_then))]
    fn denied(&self, tokens: &mut Cursor<'_>) -> Result<Operand, Refusal>
        requires { Nests self.now.levels (F.pre self.now.inner) (F.post self.now.inner) }
        ensures { Reads operand_of (spec.denied self.now.line.now (spec.nesting self.now.line.now self.now.levels) tokens.old) result tokens.new }
    {
        let operand = self.inside(tokens, Nested::Negation)?;
        unary(self.alloc, tokens, UnaryOperator::Not, operand)
    }

    /// NOT and what it denies, or a comparison.
    #[tactic(auto, unfolding(cy_parser_grammar::specs::internal::Reader::and_then, cy_parser_grammar::specs::internal::Expressions::negation))]
    pub(crate) fn negation(&self, tokens: &mut Cursor<'_>) -> Result<Operand, Refusal>
        requires { Nests self.now.levels (F.pre self.now.inner) (F.post self.now.inner) }
        ensures { Reads operand_of (spec.negation self.now.line.now self.now.levels (spec.nesting self.now.line.now self.now.levels) tokens.old) result tokens.new }
    {
        if tokens.eat_keyword(Keyword::Not) {
            return self.denied(tokens);
        }
        self.comparisons(tokens)
    }

    /// What AND makes of a first operand and those after it.
    fn conjunction_after(&self, tokens: &mut Cursor<'_>, first: Operand) -> Result<Operand, Refusal>
        requires { Nests self.now.levels (F.pre self.now.inner) (F.post self.now.inner) }
        ensures { Reads operand_of (spec.chain_after chains.conjunction_operator (spec.negation self.now.line.now self.now.levels (spec.nesting self.now.line.now self.now.levels)) (operand_of first) tokens.old) result tokens.new }
    {
        chain_after(self.alloc, tokens, first, conjunction_operator, |tokens| {
            self.negation(tokens)
        })
    }

    /// Operands of AND.
    #[tactic(auto, unfolding(cy_parser_grammar::specs::internal::Reader::and_then, cy_parser_grammar::specs::internal::Expressions::conjunction))]
    fn conjunction(&self, tokens: &mut Cursor<'_>) -> Result<Operand, Refusal>
        requires { Nests self.now.levels (F.pre self.now.inner) (F.post self.now.inner) }
        ensures { Reads operand_of (spec.conjunction self.now.line.now self.now.levels (spec.nesting self.now.line.now self.now.levels) tokens.old) result tokens.new }
    {
        let first = self.negation(tokens)?;
        self.conjunction_after(tokens, first)
    }

    /// What XOR makes of a first operand and those after it.
    fn exclusion_after(&self, tokens: &mut Cursor<'_>, first: Operand) -> Result<Operand, Refusal>
        requires { Nests self.now.levels (F.pre self.now.inner) (F.post self.now.inner) }
        ensures { Reads operand_of (spec.chain_after chains.exclusion_operator (spec.conjunction self.now.line.now self.now.levels (spec.nesting self.now.line.now self.now.levels)) (operand_of first) tokens.old) result tokens.new }
    {
        chain_after(self.alloc, tokens, first, exclusion_operator, |tokens| {
            self.conjunction(tokens)
        })
    }

    /// Operands of XOR.
    #[tactic(auto, unfolding(cy_parser_grammar::specs::internal::Reader::and_then, cy_parser_grammar::specs::internal::Expressions::exclusion))]
    fn exclusion(&self, tokens: &mut Cursor<'_>) -> Result<Operand, Refusal>
        requires { Nests self.now.levels (F.pre self.now.inner) (F.post self.now.inner) }
        ensures { Reads operand_of (spec.exclusion self.now.line.now self.now.levels (spec.nesting self.now.line.now self.now.levels) tokens.old) result tokens.new }
    {
        let first = self.conjunction(tokens)?;
        self.exclusion_after(tokens, first)
    }

    /// What OR makes of a first operand and those after it.
    fn disjunction_after(&self, tokens: &mut Cursor<'_>, first: Operand) -> Result<Operand, Refusal>
        requires { Nests self.now.levels (F.pre self.now.inner) (F.post self.now.inner) }
        ensures { Reads operand_of (spec.chain_after chains.disjunction_operator (spec.exclusion self.now.line.now self.now.levels (spec.nesting self.now.line.now self.now.levels)) (operand_of first) tokens.old) result tokens.new }
    {
        chain_after(self.alloc, tokens, first, disjunction_operator, |tokens| {
            self.exclusion(tokens)
        })
    }

    /// A whole expression, from the first operand of AND, XOR and OR on.
    #[tactic(auto, unfolding(cy_parser_grammar::specs::internal::Reader::and_then))]
    fn disjunction_from(&self, tokens: &mut Cursor<'_>, first: Operand) -> Result<Operand, Refusal>
        requires { Nests self.now.levels (F.pre self.now.inner) (F.post self.now.inner) }
        ensures { Reads operand_of (spec.disjunction_from self.now.line.now self.now.levels (spec.nesting self.now.line.now self.now.levels) (operand_of first) tokens.old) result tokens.new }
    {
        let conjunction = self.conjunction_after(tokens, first)?;
        let exclusion = self.exclusion_after(tokens, conjunction)?;
        self.disjunction_after(tokens, exclusion)
    }

    /// Operands of OR: a whole expression.
    #[tactic(auto, using(cy_parser_grammar::proofs::Continues::whole_stops), unfolding(cy_parser_grammar::specs::internal::Reader::and_then, cy_parser_grammar::specs::internal::Expressions::disjunction, cy_parser_grammar::specs::internal::Expressions::exclusion, cy_parser_grammar::specs::internal::Expressions::conjunction))]
    fn disjunction(&self, tokens: &mut Cursor<'_>) -> Result<Operand, Refusal>
        requires { Nests self.now.levels (F.pre self.now.inner) (F.post self.now.inner) }
        ensures { Reads operand_of (spec.disjunction self.now.line.now self.now.levels (spec.nesting self.now.line.now self.now.levels) tokens.old) result tokens.new }
    {
        let found = self.negation(tokens);
        if !continues_whole(tokens.peek()) {
            return found;
        }
        self.disjunction_from(tokens, found?)
    }

    /// What may stand at the place.
    pub(crate) fn level(&self, tokens: &mut Cursor<'_>, place: Nested) -> Result<Operand, Refusal>
        requires { Nests self.now.levels (F.pre self.now.inner) (F.post self.now.inner) }
        ensures { Reads operand_of (spec.level self.now.line.now self.now.levels (spec.nesting self.now.line.now self.now.levels) place tokens.old) result tokens.new }
    {
        match place {
            Nested::Whole => self.disjunction(tokens),
            Nested::Negation => self.negation(tokens),
            Nested::Sign => self.signed(tokens),
        }
    }
}

/// Whether the token begins a predicate: IS, IN, CONTAINS, STARTS or ENDS.
fn begins_predicate(next: Option<TokenKind>) -> bool
    ensures { result ≡ spec.begins_predicate next }
{
    matches!(
        next,
        Some(TokenKind::Keyword(
            Keyword::Is | Keyword::In | Keyword::Contains | Keyword::Starts | Keyword::Ends
        ))
    )
}

/// Whether arithmetic or a predicate goes on with the token.
fn continues_predicate(next: Option<TokenKind>) -> bool
    ensures { result ≡ spec.continues_predicate next }
{
    matches!(
        next,
        Some(
            TokenKind::Symbol(
                Symbol::Star | Symbol::Slash | Symbol::Percent | Symbol::Plus | Symbol::Minus
            ) | TokenKind::Keyword(
                Keyword::Is | Keyword::In | Keyword::Contains | Keyword::Starts | Keyword::Ends
            )
        )
    )
}

/// Whether arithmetic, a predicate or a chain of comparisons goes on with the token.
fn continues_comparison(next: Option<TokenKind>) -> bool
    ensures { result ≡ spec.continues_comparison next }
{
    matches!(
        next,
        Some(TokenKind::Symbol(
            Symbol::Equal
                | Symbol::NotEqual
                | Symbol::Less
                | Symbol::LessOrEqual
                | Symbol::Greater
                | Symbol::GreaterOrEqual
        ))
    ) || continues_predicate(next)
}

/// Whether AND, XOR or OR comes next.
fn continues_whole(next: Option<TokenKind>) -> bool
    ensures { result ≡ spec.continues_whole next }
{
    matches!(
        next,
        Some(TokenKind::Keyword(Keyword::And | Keyword::Xor | Keyword::Or))
    )
}
