//! What expressions ask of the graph: attributes of what stands in columns of the row. Each call adds it to what is wanted, each look-up
//! once, and fails only when out of memory; some of it may then have been added.

ghost use Rattle.std.specs.Prelude.{◌≡◌, OnOk, map};
ghost use Rattle.cy_trees.specs.TreeModels.{arm_of, arms_from, expression_of, expressions_from, link_of, links_from};
ghost use Rattle.cy_scope_kinds.specs.Functions.{function_named};
ghost use Rattle.cy_scope_kinds.specs.internal.ExpressionTrees.{otherwise_of};
ghost use Rattle.cy_planner_algebra.specs.declared.operators.Attribute.TheVariants as attribute;
ghost use Rattle.cy_planner_rows.specs.internal.Asked as spec;

use crate::places::Wanted;
use crate::wanted::WantedList;
use cy_planner_algebra::Attribute;
use cy_scope_kinds::Function;
use cy_trees::{Arm, Expr, Link};
use cy_values::{Duplicate, Fault, Text};
use std::alloc::Global;

/// Adds an attribute of what a variable stands for.
fn add_attribute(wanted: &mut WantedList, owner: &Expr, attribute: Attribute) -> Result<(), Fault>
    ensures { OnOk result (wanted.new ≡ spec.with_asked wanted.old (spec.asked_of (expression_of owner.now) attribute)) }
{
    match owner {
        Expr::Variable(variable) => match variable.column {
            Some(column) => wanted.add(Wanted { column, attribute }),
            None => Ok(()),
        },
        _ => Ok(()),
    }
}

/// Adds an attribute of what the first argument stands for.
fn add_of_first(
    wanted: &mut WantedList,
    arguments: &[Expr],
    attribute: Attribute,
) -> Result<(), Fault>
    ensures { OnOk result (wanted.new ≡ spec.with_asked wanted.old (spec.asked_of_first (expressions_from (map expression_of arguments.now)) attribute)) }
{
    if arguments.is_empty() {
        return Ok(());
    }
    add_attribute(wanted, &arguments[0], attribute)
}

/// Adds what an expression asks.
#[cycle(asked)]
pub fn add_asked(alloc: Global, wanted: &mut WantedList, expression: &Expr) -> Result<(), Fault>
    ensures { OnOk result (wanted.new ≡ spec.with_tree wanted.old (expression_of expression.now)) }
{
    match expression {
        Expr::Null => Ok(()),
        Expr::Boolean(_) => Ok(()),
        Expr::Integer(_) => Ok(()),
        Expr::Text(_) => Ok(()),
        Expr::Variable(_) => Ok(()),
        Expr::Property(owner, key) => {
            add_attribute(wanted, owner, Attribute::Property(key.copy(alloc)?))
        }
        Expr::HasLabels(owner, _) => add_attribute(wanted, owner, Attribute::Labels),
        Expr::Unary(_, operand) => add_asked(alloc, wanted, operand),
        Expr::Binary(_, left, right) => {
            add_asked(alloc, wanted, left)?;
            add_asked(alloc, wanted, right)
        }
        Expr::Comparison(operand, links) => {
            add_asked(alloc, wanted, operand)?;
            add_links(alloc, wanted, links)
        }
        Expr::List(elements) => add_elements(alloc, wanted, elements),
        Expr::Case(arms, otherwise) => {
            add_arms(alloc, wanted, arms)?;
            add_otherwise(alloc, wanted, otherwise)
        }
        Expr::Call(name, _, arguments) => add_call(alloc, wanted, name, arguments),
        Expr::CallStar(_) => Ok(()),
    }
}

#[cycle(asked)]
fn add_call(
    alloc: Global,
    wanted: &mut WantedList,
    name: &Text,
    arguments: &[Expr],
) -> Result<(), Fault>
    ensures { OnOk result (wanted.new ≡ (let es = expressions_from (map expression_of arguments.now) in spec.with_call wanted.old (function_named name.now) es (spec.with_elements wanted.old es))) }
{
    match Function::named(name.as_str()) {
        Some(Function::Labels) => add_of_first(wanted, arguments, Attribute::Labels),
        Some(Function::Type) => add_of_first(wanted, arguments, Attribute::RelType),
        _ => add_elements(alloc, wanted, arguments),
    }
}

#[cycle(asked)]
fn add_elements(alloc: Global, wanted: &mut WantedList, elements: &[Expr]) -> Result<(), Fault>
    ensures { OnOk result (wanted.new ≡ spec.with_elements wanted.old (expressions_from (map expression_of elements.now))) }
{
    for element in elements {
        add_asked(alloc, wanted, element)?;
    }
    Ok(())
}

#[cycle(asked)]
fn add_links(alloc: Global, wanted: &mut WantedList, links: &[Link]) -> Result<(), Fault>
    ensures { OnOk result (wanted.new ≡ spec.with_links wanted.old (links_from (map link_of links.now))) }
{
    for link in links {
        add_asked(alloc, wanted, &link.operand)?;
    }
    Ok(())
}

#[cycle(asked)]
fn add_arms(alloc: Global, wanted: &mut WantedList, arms: &[Arm]) -> Result<(), Fault>
    ensures { OnOk result (wanted.new ≡ spec.with_arms wanted.old (arms_from (map arm_of arms.now))) }
{
    for arm in arms {
        add_asked(alloc, wanted, &arm.condition)?;
        add_asked(alloc, wanted, &arm.outcome)?;
    }
    Ok(())
}

#[cycle(asked)]
fn add_otherwise(
    alloc: Global,
    wanted: &mut WantedList,
    otherwise: &Option<Box<Expr>>,
) -> Result<(), Fault>
    ensures { OnOk result (wanted.new ≡ spec.with_else wanted.old (otherwise_of otherwise.now)) }
{
    match otherwise {
        Some(otherwise) => add_asked(alloc, wanted, otherwise),
        None => Ok(()),
    }
}
