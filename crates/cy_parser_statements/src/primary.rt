//! Literals, lists, CASE, names, calls and brackets, and what stands after them.

ghost use Rattle.std.specs.Prelude.{◌≡◌, ◌∷◌, [], ◌≤◌, map, IfOk, pos};
ghost use Rattle.cy_trees.specs.Depth.{deepest, arms_depth};
ghost use Rattle.cy_trees.specs.TreeModels.{expression_of, expressions_of, arm_of, arms_of};
ghost use Rattle.cy_parser_grammar.specs.Words.{negated};
ghost use Rattle.cy_parser_grammar.specs.internal.Expressions as spec;
ghost use Rattle.cy_parser_statements.specs.internal.Nests.{Nests};
ghost use Rattle.cy_parser_statements.specs.internal.Operands.{operand_of, otherwise_of, elements_of, arms_in, AreMeasured, ArmsAreMeasured};
ghost use Rattle.cy_parser_statements.specs.internal.Reads.{Reads};

use crate::building::{call, case, has_labels, leaf, list, property};
use crate::cursor::Cursor;
use crate::grammar::Grammar;
use crate::operands::{Gathered, Operand};
use crate::refusals::Refusal;
use cy_lexer::{Keyword, Symbol, TokenKind};
use cy_parser_grammar::{Nested, lowered};
use cy_trees::{Arm, Expr, Variable};
use cy_values::Text;
use std::alloc::Global;

/// Names after a `:`, one or more, with a `:` between.
pub(crate) fn labels(
    alloc: Global,
    line: &str,
    tokens: &mut Cursor<'_>,
) -> Result<Vec<Text>, Refusal>
    ensures { Reads (λ ls. ls.items) (spec.labels line.now tokens.old) result tokens.new }
{
    let mut found = Vec::new(alloc);
    for _turn in 0..tokens.count() {
        found.push(tokens.word(alloc, line)?)?;
        if !tokens.eat_symbol(Symbol::Colon) {
            return Ok(found);
        }
    }
    Err(tokens.unexpected())
}

impl<'l, F: Fn(Global, &str, &mut Cursor<'_>, usize, Nested) -> Result<Operand, Refusal>> Grammar<
    'l,
    F,
> {
    /// Expressions, one or more, with commas between.
    fn elements(&self, tokens: &mut Cursor<'_>) -> Result<Gathered<Expr>, Refusal>
        requires { Nests self.now.levels (F.pre self.now.inner) (F.post self.now.inner) }
        ensures read { Reads elements_of (spec.elements self.now.line.now (spec.nesting self.now.line.now self.now.levels) tokens.old) result tokens.new }
        ensures measured { IfOk result (λ g. AreMeasured g) }
    {
        let mut found = Gathered::<Expr>::new(self.alloc);
        for _turn in 0..tokens.count() {
            found.push(self.inside(tokens, Nested::Whole)?)?;
            if !tokens.eat_symbol(Symbol::Comma) {
                return Ok(found);
            }
        }
        Err(tokens.unexpected())
    }

    /// A list, after its `[`.
    #[tactic(auto, unfolding(cy_parser_grammar::specs::internal::Reader::and_then, cy_parser_grammar::specs::internal::Expressions::listed))]
    fn listed(&self, tokens: &mut Cursor<'_>) -> Result<Operand, Refusal>
        requires { Nests self.now.levels (F.pre self.now.inner) (F.post self.now.inner) }
        ensures { Reads operand_of (spec.listed self.now.line.now (spec.nesting self.now.line.now self.now.levels) tokens.old) result tokens.new }
    {
        if tokens.eat_symbol(Symbol::RightBracket) {
            return Ok(leaf(Expr::List(Vec::new(self.alloc))));
        }
        let elements = self.elements(tokens)?;
        tokens.expect_symbol(Symbol::RightBracket)?;
        list(tokens, elements)
    }

    /// An expression in brackets, after the opening one.
    #[tactic(auto, unfolding(cy_parser_grammar::specs::internal::Reader::and_then, cy_parser_grammar::specs::internal::Expressions::bracketed))]
    fn bracketed(&self, tokens: &mut Cursor<'_>) -> Result<Operand, Refusal>
        requires { Nests self.now.levels (F.pre self.now.inner) (F.post self.now.inner) }
        ensures { Reads operand_of (spec.bracketed self.now.line.now (spec.nesting self.now.line.now self.now.levels) tokens.old) result tokens.new }
    {
        let found = self.inside(tokens, Nested::Whole)?;
        tokens.expect_symbol(Symbol::RightParenthesis)?;
        Ok(found)
    }

    /// The arguments of a call that has no `*`.
    #[tactic(auto, unfolding(cy_parser_grammar::specs::internal::Reader::and_then, cy_parser_grammar::specs::internal::Expressions::arguments))]
    fn arguments(&self, tokens: &mut Cursor<'_>, function: Text) -> Result<Operand, Refusal>
        requires { Nests self.now.levels (F.pre self.now.inner) (F.post self.now.inner) }
        ensures { Reads operand_of (spec.arguments self.now.line.now (spec.nesting self.now.line.now self.now.levels) function tokens.old) result tokens.new }
    {
        if tokens.eat_symbol(Symbol::RightParenthesis) {
            return Ok(leaf(Expr::Call(function, false, Vec::new(self.alloc))));
        }
        let distinct = tokens.eat_keyword(Keyword::Distinct);
        let arguments = self.elements(tokens)?;
        tokens.expect_symbol(Symbol::RightParenthesis)?;
        call(tokens, function, distinct, arguments)
    }

    /// A call, after the function's name and the opening bracket.
    #[tactic(auto, unfolding(cy_parser_grammar::specs::internal::Reader::and_then, cy_parser_grammar::specs::internal::Expressions::called))]
    fn called(&self, tokens: &mut Cursor<'_>, function: Text) -> Result<Operand, Refusal>
        requires { Nests self.now.levels (F.pre self.now.inner) (F.post self.now.inner) }
        ensures { Reads operand_of (spec.called self.now.line.now (spec.nesting self.now.line.now self.now.levels) function tokens.old) result tokens.new }
    {
        if !tokens.eat_symbol(Symbol::Star) {
            return self.arguments(tokens, function);
        }
        tokens.expect_symbol(Symbol::RightParenthesis)?;
        Ok(leaf(Expr::CallStar(function)))
    }

    /// A variable, or a call.
    #[tactic(auto, unfolding(cy_parser_grammar::specs::internal::Reader::and_then, cy_parser_grammar::specs::internal::Expressions::named))]
    fn named(&self, tokens: &mut Cursor<'_>) -> Result<Operand, Refusal>
        requires { Nests self.now.levels (F.pre self.now.inner) (F.post self.now.inner) }
        ensures { Reads operand_of (spec.named self.now.line.now self.now.levels (spec.nesting self.now.line.now self.now.levels) tokens.old) result tokens.new }
    {
        let name = tokens.name(self.alloc, self.line)?;
        if tokens.eat_symbol(Symbol::LeftParenthesis) {
            self.open_level(tokens)?;
            let name = lowered(self.alloc, &name)?;
            return self.called(tokens, name);
        }
        Ok(leaf(Expr::Variable(Variable { name, column: None })))
    }

    /// Each WHEN with its THEN, one or more, after the first WHEN.
    fn arms(&self, tokens: &mut Cursor<'_>) -> Result<Gathered<Arm>, Refusal>
        requires { Nests self.now.levels (F.pre self.now.inner) (F.post self.now.inner) }
        ensures read { Reads arms_in (spec.arms self.now.line.now (spec.nesting self.now.line.now self.now.levels) tokens.old) result tokens.new }
        ensures measured { IfOk result (λ g. ArmsAreMeasured g) }
    {
        let mut found = Gathered::<Arm>::new(self.alloc);
        for _turn in 0..tokens.count() {
            let condition = self.inside(tokens, Nested::Whole)?;
            tokens.expect_keyword(Keyword::Then)?;
            found.push_arm(condition, self.inside(tokens, Nested::Whole)?)?;
            if !tokens.eat_keyword(Keyword::When) {
                return Ok(found);
            }
        }
        Err(tokens.unexpected())
    }

    /// What stands after ELSE, if that comes next.
    #[tactic(auto, unfolding(cy_parser_grammar::specs::internal::Reader::and_then, cy_parser_grammar::specs::internal::Expressions::else_read))]
    fn otherwise(&self, tokens: &mut Cursor<'_>) -> Result<Option<Operand>, Refusal>
        requires { Nests self.now.levels (F.pre self.now.inner) (F.post self.now.inner) }
        ensures { Reads otherwise_of (spec.else_read self.now.line.now (spec.nesting self.now.line.now self.now.levels) tokens.old) result tokens.new }
    {
        if tokens.eat_keyword(Keyword::Else) {
            Ok(Some(self.inside(tokens, Nested::Whole)?))
        } else {
            Ok(None)
        }
    }

    /// A CASE, after that word.
    #[tactic(auto, unfolding(cy_parser_grammar::specs::internal::Reader::and_then, cy_parser_grammar::specs::internal::Expressions::cases))]
    fn cases(&self, tokens: &mut Cursor<'_>) -> Result<Operand, Refusal>
        requires { Nests self.now.levels (F.pre self.now.inner) (F.post self.now.inner) }
        ensures { Reads operand_of (spec.cases self.now.line.now (spec.nesting self.now.line.now self.now.levels) tokens.old) result tokens.new }
    {
        tokens.expect_keyword(Keyword::When)?;
        let arms = self.arms(tokens)?;
        let otherwise = self.otherwise(tokens)?;
        tokens.expect_keyword(Keyword::End)?;
        case(self.alloc, tokens, arms, otherwise)
    }

    /// The properties after the owner: a `.` and a key for each.
    fn properties(&self, tokens: &mut Cursor<'_>, mut owner: Operand) -> Result<Operand, Refusal>
        ensures { Reads operand_of (spec.properties self.now.line.now (operand_of owner) tokens.old) result tokens.new }
    {
        for _turn in 0..tokens.count() {
            if !tokens.eat_symbol(Symbol::Dot) {
                return Ok(owner);
            }
            let key = tokens.word(self.alloc, self.line)?;
            owner = property(self.alloc, tokens, owner, key)?;
        }
        Ok(owner)
    }

    /// The test for labels after the node, if one comes next.
    #[tactic(auto, unfolding(cy_parser_grammar::specs::internal::Reader::and_then, cy_parser_grammar::specs::internal::Expressions::labelled))]
    fn labelled(&self, tokens: &mut Cursor<'_>, node: Operand) -> Result<Operand, Refusal>
        ensures { Reads operand_of (spec.labelled self.now.line.now (operand_of node) tokens.old) result tokens.new }
    {
        if !tokens.eat_symbol(Symbol::Colon) {
            return Ok(node);
        }
        let labels = labels(self.alloc, self.line, tokens)?;
        has_labels(self.alloc, tokens, node, labels)
    }

    /// The properties after the owner, and the test for labels after these.
    #[tactic(auto, unfolding(cy_parser_grammar::specs::internal::Reader::and_then, cy_parser_grammar::specs::internal::Expressions::attributes))]
    fn attributes_of(&self, tokens: &mut Cursor<'_>, owner: Operand) -> Result<Operand, Refusal>
        ensures { Reads operand_of (spec.attributes self.now.line.now (operand_of owner) tokens.old) result tokens.new }
    {
        let owner = self.properties(tokens, owner)?;
        self.labelled(tokens, owner)
    }

    /// What may stand after a name, a call and a bracket.
    #[tactic(auto, using(cy_parser_grammar::proofs::Continues::attributes_stop))]
    fn attributes(&self, tokens: &mut Cursor<'_>, owner: Operand) -> Result<Operand, Refusal>
        ensures { Reads operand_of (spec.attributes self.now.line.now (operand_of owner) tokens.old) result tokens.new }
    {
        if !continues_owner(tokens.peek()) {
            return Ok(owner);
        }
        self.attributes_of(tokens, owner)
    }

    /// A variable or a call, with what follows it.
    #[tactic(auto, unfolding(cy_parser_grammar::specs::internal::Reader::and_then))]
    fn named_owner(&self, tokens: &mut Cursor<'_>) -> Result<Operand, Refusal>
        requires { Nests self.now.levels (F.pre self.now.inner) (F.post self.now.inner) }
        ensures { Reads operand_of (spec.named_owner self.now.line.now self.now.levels (spec.nesting self.now.line.now self.now.levels) tokens.old) result tokens.new }
    {
        let owner = self.named(tokens)?;
        self.attributes(tokens, owner)
    }

    /// An expression in brackets, after the opening one, with what follows it.
    #[tactic(auto, unfolding(cy_parser_grammar::specs::internal::Reader::and_then))]
    fn bracketed_owner(&self, tokens: &mut Cursor<'_>) -> Result<Operand, Refusal>
        requires { Nests self.now.levels (F.pre self.now.inner) (F.post self.now.inner) }
        ensures { Reads operand_of (spec.bracketed_owner self.now.line.now (spec.nesting self.now.line.now self.now.levels) tokens.old) result tokens.new }
    {
        let owner = self.bracketed(tokens)?;
        self.attributes(tokens, owner)
    }

    /// What stands without an operator: a literal, a list, a CASE, or a name, call or bracket with what follows it.
    #[tactic(auto, unfolding(cy_parser_grammar::specs::internal::Reader::and_then, cy_parser_grammar::specs::internal::Expressions::postfix))]
    pub(crate) fn postfix(&self, tokens: &mut Cursor<'_>) -> Result<Operand, Refusal>
        requires { Nests self.now.levels (F.pre self.now.inner) (F.post self.now.inner) }
        ensures { Reads operand_of (spec.postfix self.now.line.now self.now.levels (spec.nesting self.now.line.now self.now.levels) tokens.old) result tokens.new }
    {
        match tokens.peek() {
            Some(TokenKind::Name | TokenKind::QuotedName) => self.named_owner(tokens),
            Some(TokenKind::Symbol(Symbol::LeftParenthesis)) => {
                tokens.skip();
                self.bracketed_owner(tokens)
            }
            Some(TokenKind::Symbol(Symbol::LeftBracket)) => {
                tokens.skip();
                self.open_level(tokens)?;
                self.listed(tokens)
            }
            Some(TokenKind::Keyword(Keyword::Case)) => {
                tokens.skip();
                self.open_level(tokens)?;
                self.cases(tokens)
            }
            _ => literal(self.alloc, self.line, tokens),
        }
    }
}

/// A literal that has no `-` before it.
#[tactic(auto, unfolding(cy_parser_grammar::specs::internal::Reader::and_then, cy_parser_grammar::specs::internal::Expressions::literal, cy_parser_grammar::specs::internal::Expressions::counted))]
fn literal(alloc: Global, line: &str, tokens: &mut Cursor<'_>) -> Result<Operand, Refusal>
    ensures { Reads operand_of (spec.literal line.now tokens.old) result tokens.new }
{
    match tokens.peek() {
        Some(TokenKind::Keyword(Keyword::True)) => {
            tokens.skip();
            Ok(leaf(Expr::Boolean(true)))
        }
        Some(TokenKind::Keyword(Keyword::False)) => {
            tokens.skip();
            Ok(leaf(Expr::Boolean(false)))
        }
        Some(TokenKind::Keyword(Keyword::Null)) => {
            tokens.skip();
            Ok(leaf(Expr::Null))
        }
        Some(TokenKind::Number(number)) => {
            let integer = tokens.integer(number)?;
            tokens.skip();
            Ok(leaf(Expr::Integer(integer)))
        }
        Some(TokenKind::Text) => Ok(leaf(Expr::Text(tokens.quoted(alloc, line)?))),
        _ => Err(tokens.unexpected()),
    }
}

/// Whether a property or a test for labels goes on with the token.
fn continues_owner(next: Option<TokenKind>) -> bool
    ensures { result ≡ spec.continues_owner next }
{
    matches!(next, Some(TokenKind::Symbol(Symbol::Dot | Symbol::Colon)))
}
