//! Expressions over columns alone: what they ask of the graph is read from columns that look-ups have added. Each call fails only when
//! out of memory.

ghost use Rattle.std.specs.Prelude.{◌≡◌, ◌+◌, ◌≤◌, ℕ, List, IfOk, length, map, false};
ghost use Rattle.std.specs.Option.{option_map_or};
ghost use Rattle.cy_values.specs.declared.numbers.Entity.{Entity};
ghost use Rattle.cy_values.specs.declared.rows.Cell.{Cell};
ghost use Rattle.cy_values.specs.Compare.{is_null};
ghost use Rattle.cy_trees.specs.declared.expressions.BinaryOperator.TheVariants.{In};
ghost use Rattle.cy_trees.specs.declared.expressions.UnaryOperator.TheVariants.{IsNotNull, IsNull};
ghost use Rattle.cy_trees.specs.Trees.{Expression, Name, binary, call, text, unary};
ghost use Rattle.cy_trees.specs.TreeModels.{arm_of, arms_from, expression_of, expressions_from, link_of, links_from};
ghost use Rattle.cy_expr.specs.Evaluation.{cell_of};
ghost use Rattle.cy_expr.specs.Lookups.{Lookups};
ghost use Rattle.cy_scope_kinds.specs.Functions.{function_named};
ghost use Rattle.cy_scope_kinds.specs.internal.ExpressionTrees.{otherwise_of};
ghost use Rattle.cy_planner_algebra.specs.declared.operators.Attribute as declared;
ghost use Rattle.cy_planner_algebra.specs.declared.operators.Attribute.TheVariants.{Labels, Property};
ghost use Rattle.cy_planner_algebra.specs.WellFormed.{greatest_width};
ghost use Rattle.cy_planner_algebra.specs.Expressions.{no_graph};
ghost use Rattle.cy_planner_rows.specs.internal.Lowered as spec;
ghost use Rattle.cy_planner_rows.specs.Places as places;

use crate::wanted::WantedList;
use cy_planner_algebra::Attribute;
use cy_scope_kinds::Function;
use cy_trees::{Arm, BinaryOperator, Expr, Link, UnaryOperator, Variable};
use cy_values::{Duplicate, Fault, Text};
use std::alloc::Global;

/// An expression over columns has, on the row with what is looked up, the value that the expression has on the row before and on the
/// graph, where no property of the graph is null (own).
pub fn lowering_keeps_values()
    ensures { (place : ℕ → declared.Attribute → ℕ) (graph : Lookups) (row wide : List Cell) (e : Expression)
        → ((x : Entity) (key : Name) → option_map_or is_null (graph.property_of x key) false ≡ false)
        → spec.IsReadable place graph row wide e → cell_of no_graph wide (spec.lowered place e) ≡ cell_of graph row e }
{}

/// The column of an attribute of what a variable stands for; null for another expression, of which no attribute can be asked.
fn looked_up(
    alloc: Global,
    owner: &Expr,
    attribute: &Attribute,
    first: usize,
    wanted: &WantedList,
) -> Result<Expr, Fault>
    requires { first + length wanted.now ≤ greatest_width }
    ensures { IfOk result (λ e. expression_of e ≡ spec.looked_up (places.place first wanted.now) (expression_of owner.now) attribute.now) }
{
    match owner {
        Expr::Variable(variable) => {
            let column = match variable.column {
                Some(column) => Some(wanted.place(alloc, first, column, attribute)?),
                None => None,
            };
            Ok(Expr::Variable(Variable {
                name: variable.name.copy(alloc)?,
                column,
            }))
        }
        _ => Ok(Expr::Null),
    }
}

fn is_null(alloc: Global, tested: Expr) -> Result<Expr, Fault>
    ensures { IfOk result (λ e. expression_of e ≡ unary IsNull (expression_of tested)) }
{
    Ok(Expr::Unary(UnaryOperator::IsNull, Box::new(alloc, tested)?))
}

/// What is given, but null where another expression is null.
fn unless_null(alloc: Global, tested: Expr, given: Expr) -> Result<Expr, Fault>
    ensures { IfOk result (λ e. expression_of e ≡ spec.unless_null (expression_of tested) (expression_of given)) }
{
    let mut arms = Vec::new(alloc);
    arms.push(Arm {
        condition: is_null(alloc, tested)?,
        outcome: Expr::Null,
    })?;
    Ok(Expr::Case(arms, Some(Box::new(alloc, given)?)))
}

/// Whether a label is in a list of labels.
fn label_in(alloc: Global, labels: &Expr, label: &Text) -> Result<Expr, Fault>
    ensures { IfOk result (λ e. expression_of e ≡ binary In (text label.now) (expression_of labels.now)) }
{
    let label = Box::new(alloc, Expr::Text(label.copy(alloc)?))?;
    let labels = Box::new(alloc, labels.copy(alloc)?)?;
    Ok(Expr::Binary(BinaryOperator::In, label, labels))
}

/// Whether each of the labels is in a list of labels.
#[tactic(auto, using(crate::proofs::LoweredLists::all_in_by_arms, crate::proofs::LoweredLists::all_in_one))]
fn all_in(alloc: Global, labels: &Expr, asked: &[Text]) -> Result<Expr, Fault>
    ensures { IfOk result (λ e. expression_of e ≡ spec.all_in (expression_of labels.now) asked.now) }
{
    if asked.len() == 1 {
        return label_in(alloc, labels, &asked[0]);
    }
    let mut arms = Vec::new(alloc);
    arms.push(Arm {
        condition: is_null(alloc, labels.copy(alloc)?)?,
        outcome: Expr::Null,
    })?;
    for label in asked {
        arms.push(Arm {
            condition: Expr::Unary(
                UnaryOperator::Not,
                Box::new(alloc, label_in(alloc, labels, label)?)?,
            ),
            outcome: Expr::Boolean(false),
        })?;
    }
    Ok(Expr::Case(arms, Some(Box::new(alloc, Expr::Boolean(true))?)))
}

/// Whether a property is there.
fn exists(
    alloc: Global,
    owner: &Expr,
    key: &Text,
    first: usize,
    wanted: &WantedList,
) -> Result<Expr, Fault>
    requires { first + length wanted.now ≤ greatest_width }
    ensures { IfOk result (λ e. expression_of e ≡ spec.unless_null (expression_of owner.now) (unary IsNotNull (spec.looked_up (places.place first wanted.now) (expression_of owner.now) (Property key.now)))) }
{
    let found = lower_property(alloc, owner, key, first, wanted)?;
    let given = Expr::Unary(UnaryOperator::IsNotNull, Box::new(alloc, found)?);
    unless_null(alloc, owner.copy(alloc)?, given)
}

/// A property, as the column of its look-up.
fn lower_property(
    alloc: Global,
    owner: &Expr,
    key: &Text,
    first: usize,
    wanted: &WantedList,
) -> Result<Expr, Fault>
    requires { first + length wanted.now ≤ greatest_width }
    ensures { IfOk result (λ e. expression_of e ≡ spec.looked_up (places.place first wanted.now) (expression_of owner.now) (Property key.now)) }
{
    let attribute = Attribute::Property(key.copy(alloc)?);
    looked_up(alloc, owner, &attribute, first, wanted)
}

/// A test of labels, which are looked up.
fn lower_labels(
    alloc: Global,
    owner: &Expr,
    asked: &[Text],
    first: usize,
    wanted: &WantedList,
) -> Result<Expr, Fault>
    requires { first + length wanted.now ≤ greatest_width }
    ensures { IfOk result (λ e. expression_of e ≡ spec.all_in (spec.looked_up (places.place first wanted.now) (expression_of owner.now) Labels) asked.now) }
{
    let labels = looked_up(alloc, owner, &Attribute::Labels, first, wanted)?;
    all_in(alloc, &labels, asked)
}

#[cycle(lowering)]
fn lower_box(
    alloc: Global,
    expression: &Expr,
    first: usize,
    wanted: &WantedList,
) -> Result<Box<Expr>, Fault>
    requires { first + length wanted.now ≤ greatest_width }
    ensures { IfOk result (λ e. expression_of e.value ≡ spec.lowered (places.place first wanted.now) (expression_of expression.now)) }
{
    Ok(Box::new(alloc, lower(alloc, expression, first, wanted)?)?)
}

#[cycle(lowering)]
#[tactic(auto, using(crate::proofs::LoweredLists::lowered_list))]
fn lower_elements(
    alloc: Global,
    elements: &[Expr],
    first: usize,
    wanted: &WantedList,
) -> Result<Vec<Expr>, Fault>
    requires { first + length wanted.now ≤ greatest_width }
    ensures { IfOk result (λ es. expressions_from (map expression_of es.items) ≡ spec.lowered_expressions (places.place first wanted.now) (expressions_from (map expression_of elements.now))) }
{
    let mut made = Vec::new(alloc);
    for element in elements {
        made.push(lower(alloc, element, first, wanted)?)?;
    }
    Ok(made)
}

#[cycle(lowering)]
#[tactic(auto, using(crate::proofs::LoweredLists::lowered_links_list))]
fn lower_links(
    alloc: Global,
    links: &[Link],
    first: usize,
    wanted: &WantedList,
) -> Result<Vec<Link>, Fault>
    requires { first + length wanted.now ≤ greatest_width }
    ensures { IfOk result (λ ls. links_from (map link_of ls.items) ≡ spec.lowered_links (places.place first wanted.now) (links_from (map link_of links.now))) }
{
    let mut made = Vec::new(alloc);
    for link in links {
        made.push(Link {
            comparator: link.comparator,
            operand: lower(alloc, &link.operand, first, wanted)?,
        })?;
    }
    Ok(made)
}

#[cycle(lowering)]
fn lower_arm(alloc: Global, arm: &Arm, first: usize, wanted: &WantedList) -> Result<Arm, Fault>
    requires { first + length wanted.now ≤ greatest_width }
    ensures { IfOk result (λ made. arm_of made ≡ spec.lowered_arm (places.place first wanted.now) (arm_of arm.now)) }
{
    Ok(Arm {
        condition: lower(alloc, &arm.condition, first, wanted)?,
        outcome: lower(alloc, &arm.outcome, first, wanted)?,
    })
}

#[cycle(lowering)]
#[tactic(auto, using(crate::proofs::LoweredLists::lowered_arms_list))]
fn lower_arms(
    alloc: Global,
    arms: &[Arm],
    first: usize,
    wanted: &WantedList,
) -> Result<Vec<Arm>, Fault>
    requires { first + length wanted.now ≤ greatest_width }
    ensures { IfOk result (λ made. arms_from (map arm_of made.items) ≡ spec.lowered_arms (places.place first wanted.now) (arms_from (map arm_of arms.now))) }
{
    let mut made = Vec::new(alloc);
    for arm in arms {
        made.push(lower_arm(alloc, arm, first, wanted)?)?;
    }
    Ok(made)
}

/// What stands after ELSE, if anything does.
#[cycle(lowering)]
fn lower_otherwise(
    alloc: Global,
    otherwise: &Option<Box<Expr>>,
    first: usize,
    wanted: &WantedList,
) -> Result<Option<Box<Expr>>, Fault>
    requires { first + length wanted.now ≤ greatest_width }
    ensures { IfOk result (λ made. otherwise_of made ≡ spec.lowered_otherwise (places.place first wanted.now) (otherwise_of otherwise.now)) }
{
    match otherwise {
        Some(otherwise) => Ok(Some(lower_box(alloc, otherwise, first, wanted)?)),
        None => Ok(None),
    }
}

/// A call with one argument, by its function: what is asked of another function stays as it is.
fn lower_single(
    alloc: Global,
    function: Option<Function>,
    argument: &Expr,
    asked: Expr,
    first: usize,
    wanted: &WantedList,
) -> Result<Expr, Fault>
    requires { first + length wanted.now ≤ greatest_width }
    ensures { IfOk result (λ e. expression_of e ≡ spec.lowered_single (places.place first wanted.now) function (expression_of argument.now) (expression_of asked)) }
{
    match function {
        Some(Function::Labels) => looked_up(alloc, argument, &Attribute::Labels, first, wanted),
        Some(Function::Type) => looked_up(alloc, argument, &Attribute::RelType, first, wanted),
        Some(Function::Exists) => lower_exists(alloc, argument, asked, first, wanted),
        _ => Ok(asked),
    }
}

fn lower_exists(
    alloc: Global,
    argument: &Expr,
    asked: Expr,
    first: usize,
    wanted: &WantedList,
) -> Result<Expr, Fault>
    requires { first + length wanted.now ≤ greatest_width }
    ensures { IfOk result (λ e. expression_of e ≡ spec.lowered_exists (places.place first wanted.now) (expression_of argument.now) (expression_of asked)) }
{
    match argument {
        Expr::Property(owner, key) => exists(alloc, owner, key, first, wanted),
        _ => Ok(asked),
    }
}

/// A call, by its function.
#[cycle(lowering)]
#[tactic(auto, using(crate::proofs::LoweredLists::one_argument, crate::proofs::LoweredLists::other_arguments))]
fn lower_call(
    alloc: Global,
    name: &Text,
    distinct: bool,
    arguments: &[Expr],
    first: usize,
    wanted: &WantedList,
) -> Result<Expr, Fault>
    requires { first + length wanted.now ≤ greatest_width }
    ensures { let es = expressions_from (map expression_of arguments.now) in let place = places.place first wanted.now in IfOk result (λ e. expression_of e ≡ spec.lowered_call place (function_named name.now) es (call name.now distinct (spec.lowered_expressions place es))) }
{
    let lowered = lower_elements(alloc, arguments, first, wanted)?;
    let asked = Expr::Call(name.copy(alloc)?, distinct, lowered);
    if arguments.len() != 1 {
        return Ok(asked);
    }
    let function = Function::named(name.as_str());
    lower_single(alloc, function, &arguments[0], asked, first, wanted)
}

/// An expression over columns: a property, a test of labels, and the functions that read the graph become columns, where their look-ups
/// stand from a column on.
#[cycle(lowering)]
#[tactic(auto, using(crate::proofs::LoweredLists::case_lowered))]
pub fn lower(
    alloc: Global,
    expression: &Expr,
    first: usize,
    wanted: &WantedList,
) -> Result<Expr, Fault>
    requires { first + length wanted.now ≤ greatest_width }
    ensures { IfOk result (λ e. expression_of e ≡ spec.lowered (places.place first wanted.now) (expression_of expression.now)) }
{
    match expression {
        Expr::Null
        | Expr::Boolean(_)
        | Expr::Integer(_)
        | Expr::Text(_)
        | Expr::Variable(_)
        | Expr::CallStar(_) => expression.copy(alloc),
        Expr::Property(owner, key) => lower_property(alloc, owner, key, first, wanted),
        Expr::HasLabels(owner, labels) => lower_labels(alloc, owner, labels, first, wanted),
        Expr::Unary(operator, operand) => {
            Ok(Expr::Unary(*operator, lower_box(alloc, operand, first, wanted)?))
        }
        Expr::Binary(operator, left, right) => {
            let left = lower_box(alloc, left, first, wanted)?;
            Ok(Expr::Binary(*operator, left, lower_box(alloc, right, first, wanted)?))
        }
        Expr::Comparison(operand, links) => {
            let operand = lower_box(alloc, operand, first, wanted)?;
            Ok(Expr::Comparison(operand, lower_links(alloc, links, first, wanted)?))
        }
        Expr::List(elements) => Ok(Expr::List(lower_elements(alloc, elements, first, wanted)?)),
        Expr::Case(arms, otherwise) => {
            let arms = lower_arms(alloc, arms, first, wanted)?;
            Ok(Expr::Case(arms, lower_otherwise(alloc, otherwise, first, wanted)?))
        }
        Expr::Call(name, distinct, arguments) => {
            lower_call(alloc, name, *distinct, arguments, first, wanted)
        }
    }
}
