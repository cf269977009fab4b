//! The value of an expression on a row and a graph. What is done with operands that have values stands in modules of its own,
//! so that only what goes from an expression to those within it is here.

ghost use Rattle.std.specs.Prelude.{◌≡◌, ◌⊎◌, MatchResult, Ok, Err, All, map, option_map};
ghost use Rattle.cy_values.specs.Compare.{lent};
ghost use Rattle.cy_trees.specs.Trees.{more, no_more};
ghost use Rattle.cy_trees.specs.TreeModels.{expression_of, expressions_from, links_from, link_of, arms_from, arm_of};
ghost use Rattle.cy_scope_kinds.specs.internal.ExpressionTrees.{otherwise_of};
ghost use Rattle.cy_expr.specs.declared.faults.EvalFault.TheVariants.{NoMemory};
ghost use Rattle.cy_expr.specs.Choice.{coalesce};
ghost use Rattle.cy_expr.specs.Faults.{on_one, on_two};
ghost use Rattle.cy_expr.specs.Lists.{list_of, membership};
ghost use Rattle.cy_expr.specs.Logic.{value_of};
ghost use Rattle.cy_expr.specs.internal.Arms.{chosen};
ghost use Rattle.cy_expr.specs.internal.Lent.{held_cell, GivesOrWants};
ghost use Rattle.cy_expr.specs.Lookups.{IsNumbered};
ghost use Rattle.cy_expr.specs.Operators.{binary_value, value_in_cell};
ghost use Rattle.cy_expr.specs.Evaluation as spec;

use crate::faults::EvalFault;
use crate::functions::call;
use crate::held::Held;
use crate::lists::{equals_also, list_of};
use crate::logic::value_of;
use crate::lookups::Lookups;
use crate::simple::{column, simple_cell};
use cy_scope_kinds::Function;
use cy_trees::{Arm, BinaryOperator, Expr, Link};
use cy_values::{Cell, Truth, ValueRef};
use std::alloc::Global;

/// The cell of an expression, on a row whose numbers are at most 2^40. Fails with the fault that the expression has, or
/// with `NoMemory`. (openCypher 9, Expressions; the faults: own)
#[cycle(evaluation)]
pub(crate) fn evaluate<'a, G: Lookups>(
    alloc: Global,
    expression: &'a Expr,
    row: &'a [Cell],
    graph: &'a G,
) -> Result<Held<'a>, EvalFault>
    requires { All IsNumbered row.now }
    ensures { GivesOrWants result (spec.cell_of (G.lookups graph.now) row.now (expression_of expression.now)) }
{
    match simple_cell(expression, row, graph) {
        Some(cell) => Ok(cell),
        None => evaluate_whole(alloc, expression, row, graph),
    }
}

/// The cell of an expression, by the expression's parts.
#[cycle(evaluation)]
fn evaluate_whole<'a, G: Lookups>(
    alloc: Global,
    expression: &'a Expr,
    row: &'a [Cell],
    graph: &'a G,
) -> Result<Held<'a>, EvalFault>
    requires { All IsNumbered row.now }
    ensures { GivesOrWants result (spec.cell_of (G.lookups graph.now) row.now (expression_of expression.now)) }
{
    match expression {
        Expr::Null => Ok(Held::lent(ValueRef::Null)),
        Expr::Boolean(truth) => Ok(Held::lent(ValueRef::Bool(*truth))),
        Expr::Integer(number) => Ok(Held::lent(ValueRef::Int(*number))),
        Expr::Text(text) => Ok(Held::lent(ValueRef::Text(text.as_str()))),
        Expr::Variable(variable) => Ok(Held::Lent(column(variable.column, row))),
        Expr::Property(owner, key) => {
            evaluate(alloc, owner, row, graph)?.property(graph, key.as_str())
        }
        Expr::HasLabels(owner, labels) => {
            evaluate(alloc, owner, row, graph)?.has_labels(graph, labels)
        }
        Expr::Unary(operator, operand) => evaluate(alloc, operand, row, graph)?.unary(*operator),
        Expr::Binary(operator, left, right) => {
            let left = evaluate(alloc, left, row, graph)?;
            evaluate_binary(alloc, *operator, left, right, row, graph)
        }
        Expr::Comparison(first, links) => {
            let first = evaluate(alloc, first, row, graph)?;
            evaluate_links(alloc, first, links, row, graph)
        }
        Expr::List(elements) => evaluate_list(alloc, elements, row, graph),
        Expr::Case(arms, otherwise) => match evaluate_arms(alloc, arms, row, graph)? {
            Some(outcome) => Ok(outcome),
            None => evaluate_otherwise(alloc, otherwise, row, graph),
        },
        Expr::Call(name, _, arguments) => {
            evaluate_call(alloc, Function::named(name.as_str()), arguments, row, graph)
        }
        Expr::CallStar(_) => Err(EvalFault::WrongType),
    }
}

/// An operator after its left operand. Of an `IN` with a list that is written out no list is made.
#[cycle(evaluation)]
fn evaluate_binary<'a, G: Lookups>(
    alloc: Global,
    operator: BinaryOperator,
    left: Held<'a>,
    right: &'a Expr,
    row: &'a [Cell],
    graph: &'a G,
) -> Result<Held<'a>, EvalFault>
    requires { All IsNumbered row.now }
    ensures { GivesOrWants result (spec.as_cell (on_two (binary_value operator) (value_in_cell (held_cell left.entry)) (on_one value_in_cell (spec.cell_of (G.lookups graph.now) row.now (expression_of right.now))))) }
{
    let value = left.value()?;
    match (operator, right) {
        (BinaryOperator::In, Expr::List(elements)) => {
            evaluate_membership(alloc, value, elements, row, graph)
        }
        _ => evaluate(alloc, right, row, graph)?.right_of(alloc, operator, value),
    }
}

/// Whether a value equals an element of a list that is written out. All elements are evaluated, and no list is made.
#[cycle(evaluation)]
fn evaluate_membership<'a, G: Lookups>(
    alloc: Global,
    value: ValueRef<'_>,
    elements: &'a [Expr],
    row: &'a [Cell],
    graph: &'a G,
) -> Result<Held<'a>, EvalFault>
    requires { All IsNumbered row.now }
    ensures { GivesOrWants result (spec.as_cell (on_one (membership (lent value.entry)) (on_one list_of (spec.values_of (G.lookups graph.now) row.now (expressions_from (map expression_of elements.now)))))) }
{
    let mut any = Ok(Truth::No);
    for element in elements {
        let element = evaluate(alloc, element, row, graph)?;
        any = equals_also(any, value, element.value()?);
    }
    Ok(Held::Made(value_of(any?)))
}

/// A chain of comparisons after its first operand.
#[cycle(evaluation)]
#[tactic(auto, using(crate::proofs::Rules::chain_steps))]
fn evaluate_links<'a, G: Lookups>(
    alloc: Global,
    first: Held<'a>,
    links: &'a [Link],
    row: &'a [Cell],
    graph: &'a G,
) -> Result<Held<'a>, EvalFault>
    requires { All IsNumbered row.now }
    ensures { GivesOrWants result (spec.as_cell (on_one (λ a. Ok (value_of a)) (spec.chain (G.lookups graph.now) row.now (held_cell first.entry) (links_from (map link_of links.now))))) }
{
    let mut left = first;
    let mut all = Truth::Yes;
    for link in links {
        let right = evaluate(alloc, &link.operand, row, graph)?;
        all = all.and(left.compare(link.comparator, &right)?);
        left = right;
    }
    Ok(Held::Made(value_of(all)))
}

/// The list of its elements' values.
#[cycle(evaluation)]
fn evaluate_list<'a, G: Lookups>(
    alloc: Global,
    elements: &'a [Expr],
    row: &'a [Cell],
    graph: &'a G,
) -> Result<Held<'a>, EvalFault>
    requires { All IsNumbered row.now }
    ensures { GivesOrWants result (spec.as_cell (on_one list_of (spec.values_of (G.lookups graph.now) row.now (expressions_from (map expression_of elements.now))))) }
{
    let mut values = Vec::with_capacity(alloc, elements.len())?;
    for element in elements {
        let value = evaluate(alloc, element, row, graph)?.into_value(alloc)?;
        values.push(value)?;
    }
    Ok(Held::Made(list_of(alloc, values)?))
}

/// The result of the first condition that is true, if one is; what stands after it isn't evaluated.
#[cycle(evaluation)]
fn evaluate_arms<'a, G: Lookups>(
    alloc: Global,
    arms: &'a [Arm],
    row: &'a [Cell],
    graph: &'a G,
) -> Result<Option<Held<'a>>, EvalFault>
    requires { All IsNumbered row.now }
    ensures { let given = chosen (spec.outcomes_of_arms (G.lookups graph.now) row.now (arms_from (map arm_of arms.now))) in MatchResult result (λ found. given ≡ Ok (option_map held_cell found)) (λ fault. (given ≡ Err fault) ⊎ (fault ≡ NoMemory)) }
{
    for arm in arms {
        if evaluate(alloc, &arm.condition, row, graph)?.holds()? {
            let outcome = evaluate(alloc, &arm.outcome, row, graph)?;
            return Ok(Some(outcome.only_value()?));
        }
    }
    Ok(None)
}

/// The value of what stands after ELSE; null where nothing does.
#[cycle(evaluation)]
fn evaluate_otherwise<'a, G: Lookups>(
    alloc: Global,
    otherwise: &'a Option<Box<Expr>>,
    row: &'a [Cell],
    graph: &'a G,
) -> Result<Held<'a>, EvalFault>
    requires { All IsNumbered row.now }
    ensures { GivesOrWants result (spec.as_cell (spec.outcome_of_else (G.lookups graph.now) row.now (otherwise_of otherwise.now))) }
{
    match otherwise {
        Some(otherwise) => evaluate(alloc, otherwise, row, graph)?.only_value(),
        None => Ok(Held::lent(ValueRef::Null)),
    }
}

/// A call of the function that a name stands for, if it is one's.
#[cycle(evaluation)]
fn evaluate_call<'a, G: Lookups>(
    alloc: Global,
    function: Option<Function>,
    arguments: &'a [Expr],
    row: &'a [Cell],
    graph: &'a G,
) -> Result<Held<'a>, EvalFault>
    requires { All IsNumbered row.now }
    ensures { let lookups = G.lookups graph.now in let es = expressions_from (map expression_of arguments.now) in GivesOrWants result (spec.as_cell (spec.call_value lookups function (spec.cells_of lookups row.now es) (spec.outcomes_of lookups row.now es) (spec.property_exists lookups row.now es))) }
{
    match function {
        Some(function) => match function {
            Function::Coalesce => evaluate_first(alloc, arguments, row, graph),
            Function::Exists => evaluate_existence(alloc, arguments, row, graph),
            _ => evaluate_function(alloc, Some(function), arguments, row, graph),
        },
        None => evaluate_function(alloc, None, arguments, row, graph),
    }
}

/// The first of the values that isn't null, else null; what stands after it isn't evaluated.
#[cycle(evaluation)]
fn evaluate_first<'a, G: Lookups>(
    alloc: Global,
    arguments: &'a [Expr],
    row: &'a [Cell],
    graph: &'a G,
) -> Result<Held<'a>, EvalFault>
    requires { All IsNumbered row.now }
    ensures { GivesOrWants result (spec.as_cell (coalesce (spec.outcomes_of (G.lookups graph.now) row.now (expressions_from (map expression_of arguments.now))))) }
{
    for argument in arguments {
        let argument = evaluate(alloc, argument, row, graph)?.only_value()?;
        if !argument.is_null() {
            return Ok(argument);
        }
    }
    Ok(Held::lent(ValueRef::Null))
}

/// Whether the property that is asked for is there. `WrongType` for other arguments.
#[cycle(evaluation)]
#[tactic(auto, using(crate::proofs::Rules::argument_steps))]
fn evaluate_existence<'a, G: Lookups>(
    alloc: Global,
    arguments: &'a [Expr],
    row: &'a [Cell],
    graph: &'a G,
) -> Result<Held<'a>, EvalFault>
    requires { All IsNumbered row.now }
    ensures { GivesOrWants result (spec.as_cell (spec.property_exists (G.lookups graph.now) row.now (expressions_from (map expression_of arguments.now)))) }
{
    if arguments.len() != 1 {
        return Err(EvalFault::WrongType);
    }
    evaluate_presence(alloc, &arguments[0], row, graph)
}

/// Whether the property that one argument asks for is there.
#[cycle(evaluation)]
#[tactic(auto, using(crate::proofs::Rules::property_asked))]
fn evaluate_presence<'a, G: Lookups>(
    alloc: Global,
    argument: &'a Expr,
    row: &'a [Cell],
    graph: &'a G,
) -> Result<Held<'a>, EvalFault>
    requires { All IsNumbered row.now }
    ensures { GivesOrWants result (spec.as_cell (spec.property_exists (G.lookups graph.now) row.now (more (expression_of argument.now) no_more))) }
{
    match argument {
        Expr::Property(owner, key) => {
            evaluate(alloc, owner, row, graph)?.has_property(graph, key.as_str())
        }
        _ => Err(EvalFault::WrongType),
    }
}

/// What a function of one argument gives. `WrongType` for another number of arguments, which are evaluated all the same, and
/// for a name that is no function's.
#[cycle(evaluation)]
#[tactic(auto, using(crate::proofs::Rules::argument_steps))]
fn evaluate_function<'a, G: Lookups>(
    alloc: Global,
    function: Option<Function>,
    arguments: &'a [Expr],
    row: &'a [Cell],
    graph: &'a G,
) -> Result<Held<'a>, EvalFault>
    requires { All IsNumbered row.now }
    ensures { GivesOrWants result (spec.as_cell (on_one (spec.called (G.lookups graph.now) function) (spec.cells_of (G.lookups graph.now) row.now (expressions_from (map expression_of arguments.now))))) }
{
    if arguments.len() != 1 {
        for argument in arguments {
            evaluate(alloc, argument, row, graph)?;
        }
        return Err(EvalFault::WrongType);
    }
    let argument = evaluate(alloc, &arguments[0], row, graph)?;
    call(alloc, function, argument, graph)
}
