//! Expressions made of their parts, none too deep. Each fails for that, or when out of memory.

ghost use Rattle.std.specs.Prelude.{◌≡◌, ◌≢◌, ◌≤◌, ◌++◌, ◌∷◌, [], suc, MatchResult, OnOk, IfErr};
ghost use Rattle.cy_parser_statements.specs.declared.refusals.Refusal.TheVariants.{NoMemory};
ghost use Rattle.cy_trees.specs.Depth as spec;
ghost use Rattle.cy_trees.specs.Trees as tree;
ghost use Rattle.cy_trees.specs.TreeModels.{expression_of, expressions_of, links_of, arms_of};
ghost use Rattle.cy_parser_statements.specs.internal.Operands.{operand_of, otherwise_of, elements_of, arms_in, links_in, AreMeasured, ArmsAreMeasured, LinksAreMeasured};
ghost use Rattle.cy_parser_grammar.specs.internal.Reader.{checked};
ghost use Rattle.cy_parser_statements.specs.internal.Reads.{Reads};

use crate::cursor::Cursor;
use crate::operands::{Gathered, Operand};
use crate::refusals::Refusal;
use cy_trees::{Arm, BinaryOperator, Comparator, Expr, Link, UnaryOperator};
use cy_values::Text;
use std::alloc::Global;

/// The greatest depth that an expression may have (own).
const GREATEST_DEPTH: usize = 64;

/// The depth of an expression whose deepest part has the depth. Fails where it is too great.
pub(crate) fn deeper(depth: usize, tokens: &Cursor<'_>) -> Result<usize, Refusal>
    requires { depth ≤ 64 }
    ensures { MatchResult result (λ d. (d ≡ suc depth) × (d ≤ 64)) (λ e. (e ≢ NoMemory) × (64 ≤ depth)) }
{
    if depth < GREATEST_DEPTH {
        Ok(depth + 1)
    } else {
        Err(Refusal::too_deep(tokens.count()))
    }
}

/// An expression that has no parts.
pub(crate) fn leaf(tree: Expr) -> Operand
    requires { spec.depth (expression_of tree) ≡ 1 }
    ensures { result.tree ≡ tree }
{
    Operand { tree, depth: 1 }
}

#[tactic(auto, unfolding(cy_parser_grammar::specs::internal::Reader::checked))]
pub(crate) fn unary(
    alloc: Global,
    tokens: &Cursor<'_>,
    operator: UnaryOperator,
    operand: Operand,
) -> Result<Operand, Refusal>
    ensures { Reads operand_of (checked (tree.unary operator (expression_of operand.tree)) tokens.now) result tokens.now }
{
    let depth = deeper(operand.depth, tokens)?;
    let tree = Expr::Unary(operator, Box::new(alloc, operand.into_tree())?);
    Ok(Operand { tree, depth })
}

#[tactic(auto, unfolding(cy_parser_grammar::specs::internal::Reader::checked))]
pub(crate) fn binary(
    alloc: Global,
    tokens: &Cursor<'_>,
    operator: BinaryOperator,
    left: Operand,
    right: Operand,
) -> Result<Operand, Refusal>
    ensures { Reads operand_of (checked (tree.binary operator (expression_of left.tree) (expression_of right.tree)) tokens.now) result tokens.now }
{
    let depth = deeper(left.depth.max(right.depth), tokens)?;
    let left = Box::new(alloc, left.into_tree())?;
    let tree = Expr::Binary(operator, left, Box::new(alloc, right.into_tree())?);
    Ok(Operand { tree, depth })
}

#[tactic(auto, unfolding(cy_parser_grammar::specs::internal::Reader::checked))]
pub(crate) fn property(
    alloc: Global,
    tokens: &Cursor<'_>,
    owner: Operand,
    key: Text,
) -> Result<Operand, Refusal>
    ensures { Reads operand_of (checked (tree.property (expression_of owner.tree) key) tokens.now) result tokens.now }
{
    let depth = deeper(owner.depth, tokens)?;
    let tree = Expr::Property(Box::new(alloc, owner.into_tree())?, key);
    Ok(Operand { tree, depth })
}

#[tactic(auto, unfolding(cy_parser_grammar::specs::internal::Reader::checked))]
pub(crate) fn has_labels(
    alloc: Global,
    tokens: &Cursor<'_>,
    node: Operand,
    labels: Vec<Text>,
) -> Result<Operand, Refusal>
    ensures { Reads operand_of (checked (tree.has_labels (expression_of node.tree) labels.items) tokens.now) result tokens.now }
{
    let depth = deeper(node.depth, tokens)?;
    let tree = Expr::HasLabels(Box::new(alloc, node.into_tree())?, labels);
    Ok(Operand { tree, depth })
}

#[tactic(auto, unfolding(cy_parser_grammar::specs::internal::Reader::checked))]
pub(crate) fn comparison(
    alloc: Global,
    tokens: &Cursor<'_>,
    first: Operand,
    links: Gathered<Link>,
) -> Result<Operand, Refusal>
    requires { LinksAreMeasured links }
    ensures { Reads operand_of (checked (tree.comparison (expression_of first.tree) (links_of links.items)) tokens.now) result tokens.now }
{
    let depth = deeper(first.depth.max(links.depth), tokens)?;
    let tree = Expr::Comparison(Box::new(alloc, first.into_tree())?, links.items);
    Ok(Operand { tree, depth })
}

#[tactic(auto, unfolding(cy_parser_grammar::specs::internal::Reader::checked))]
pub(crate) fn list(tokens: &Cursor<'_>, elements: Gathered<Expr>) -> Result<Operand, Refusal>
    requires { AreMeasured elements }
    ensures { Reads operand_of (checked (tree.list (expressions_of elements.items)) tokens.now) result tokens.now }
{
    let depth = deeper(elements.depth, tokens)?;
    let tree = Expr::List(elements.items);
    Ok(Operand { tree, depth })
}

#[tactic(auto, unfolding(cy_parser_grammar::specs::internal::Reader::checked))]
pub(crate) fn call(
    tokens: &Cursor<'_>,
    function: Text,
    distinct: bool,
    arguments: Gathered<Expr>,
) -> Result<Operand, Refusal>
    requires { AreMeasured arguments }
    ensures { Reads operand_of (checked (tree.call function distinct (expressions_of arguments.items)) tokens.now) result tokens.now }
{
    let depth = deeper(arguments.depth, tokens)?;
    let tree = Expr::Call(function, distinct, arguments.items);
    Ok(Operand { tree, depth })
}

/// A CASE of its arms and what stands after ELSE.
#[tactic(auto, using(cy_trees::proofs::TreeModelsLemmas::case_otherwise), unfolding(cy_parser_grammar::specs::internal::Reader::checked))]
pub(crate) fn case(
    alloc: Global,
    tokens: &Cursor<'_>,
    arms: Gathered<Arm>,
    otherwise: Option<Operand>,
) -> Result<Operand, Refusal>
    requires { ArmsAreMeasured arms }
    ensures { Reads operand_of (checked (tree.case (arms_of arms.items) (otherwise_of otherwise)) tokens.now) result tokens.now }
{
    match otherwise {
        None => {
            let depth = deeper(arms.depth, tokens)?;
            let tree = Expr::Case(arms.items, None);
            Ok(Operand { tree, depth })
        }
        Some(last) => {
            let depth = deeper(arms.depth.max(last.depth), tokens)?;
            let tree = Expr::Case(arms.items, Some(Box::new(alloc, last.into_tree())?));
            Ok(Operand { tree, depth })
        }
    }
}

impl<T: Drop> Gathered<T> {
    /// No parts.
    pub(crate) fn new(alloc: Global) -> Gathered<T>
        ensures items { result.items.items ≡ [] }
        ensures depth { result.depth ≡ 0 }
    {
        Gathered {
            items: Vec::new(alloc),
            depth: 0,
        }
    }
}

impl Gathered<Expr> {
    /// Puts an element at the end.
    pub(crate) fn push(&mut self, element: Operand) -> Result<(), Refusal>
        requires { AreMeasured self.old }
        ensures added { OnOk result (elements_of self.new ≡ elements_of self.old ++ operand_of element ∷ []) }
        ensures measured { OnOk result (AreMeasured self.new) }
        ensures memory { IfErr result (λ e. e ≡ NoMemory) }
    {
        self.depth = self.depth.max(element.depth);
        self.items.push(element.into_tree())?;
        Ok(())
    }
}

impl Gathered<Arm> {
    /// Puts an arm at the end.
    pub(crate) fn push_arm(&mut self, condition: Operand, outcome: Operand) -> Result<(), Refusal>
        requires { ArmsAreMeasured self.old }
        ensures added { OnOk result (arms_in self.new ≡ arms_in self.old ++ (operand_of condition, operand_of outcome) ∷ []) }
        ensures measured { OnOk result (ArmsAreMeasured self.new) }
        ensures memory { IfErr result (λ e. e ≡ NoMemory) }
    {
        self.depth = self.depth.max(condition.depth.max(outcome.depth));
        self.items.push(Arm {
            condition: condition.into_tree(),
            outcome: outcome.into_tree(),
        })?;
        Ok(())
    }
}

impl Gathered<Link> {
    /// Puts a comparator and its operand at the end.
    pub(crate) fn push_link(
        &mut self,
        comparator: Comparator,
        operand: Operand,
    ) -> Result<(), Refusal>
        requires { LinksAreMeasured self.old }
        ensures added { OnOk result (links_in self.new ≡ links_in self.old ++ (comparator, operand_of operand) ∷ []) }
        ensures measured { OnOk result (LinksAreMeasured self.new) }
        ensures memory { IfErr result (λ e. e ≡ NoMemory) }
    {
        self.depth = self.depth.max(operand.depth);
        self.items.push(Link {
            comparator,
            operand: operand.into_tree(),
        })?;
        Ok(())
    }
}
