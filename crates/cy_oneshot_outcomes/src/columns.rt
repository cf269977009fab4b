//! The columns that an expression reads: those of its variables.

ghost use Rattle.std.specs.Prelude.{◌≡◌, map, IfOk, OnOk};
ghost use Rattle.cy_trees.specs.TreeModels.{expression_of, expressions_from, links_from, link_of, arms_from, arm_of};
ghost use Rattle.cy_scope_kinds.specs.internal.ExpressionTrees.{otherwise_of};
ghost use Rattle.cy_oneshot_outcomes.specs.Columns as meant;
ghost use Rattle.cy_oneshot_outcomes.specs.internal.Collected as spec;

use cy_trees::{Arm, Expr, Link};
use std::alloc::{AllocError, Global};

/// The columns that an expression reads, in the order of the text; one that it reads twice stands twice. Fails only when out of
/// memory.
pub fn columns_read(alloc: Global, expression: &Expr) -> Result<Vec<usize>, AllocError>
    ensures { IfOk result (λ columns. columns.items ≡ meant.columns_read (expression_of expression.now)) }
{
    let mut columns = Vec::new(alloc);
    add_columns(&mut columns, expression)?;
    Ok(columns)
}

// Adds the column of a variable that has one.
#[tactic(auto, unfolding(crate::specs::internal::Collected::with_column))]
fn add_column(columns: &mut Vec<usize>, column: Option<usize>) -> Result<(), AllocError>
    ensures { OnOk result (columns.new.items ≡ spec.with_column columns.old.items column) }
{
    if let Some(column) = column {
        columns.push(column)?;
    }
    Ok(())
}

// Adds the columns of an expression.
#[cycle(adding)]
fn add_columns(columns: &mut Vec<usize>, expression: &Expr) -> Result<(), AllocError>
    ensures { OnOk result (columns.new.items ≡ spec.with_columns columns.old.items (expression_of expression.now)) }
{
    match expression {
        Expr::Null | Expr::Boolean(_) | Expr::Integer(_) | Expr::Text(_) | Expr::CallStar(_) => Ok(
            (),
        ),
        Expr::Variable(variable) => add_column(columns, variable.column),
        Expr::Property(operand, _) | Expr::HasLabels(operand, _) | Expr::Unary(_, operand) =>
            add_columns(columns, operand),
        Expr::Binary(_, left, right) => {
            add_columns(columns, left)?;
            add_columns(columns, right)
        }
        Expr::Comparison(first, links) => {
            add_columns(columns, first)?;
            add_of_links(columns, links)
        }
        Expr::List(elements) | Expr::Call(_, _, elements) => add_of_elements(columns, elements),
        Expr::Case(arms, otherwise) => {
            add_of_arms(columns, arms)?;
            add_of_otherwise(columns, otherwise)
        }
    }
}

#[cycle(adding)]
fn add_of_elements(columns: &mut Vec<usize>, elements: &[Expr]) -> Result<(), AllocError>
    ensures { OnOk result (columns.new.items ≡ spec.with_elements columns.old.items (expressions_from (map expression_of elements.now))) }
{
    for element in elements {
        add_columns(columns, element)?;
    }
    Ok(())
}

#[cycle(adding)]
fn add_of_links(columns: &mut Vec<usize>, links: &[Link]) -> Result<(), AllocError>
    ensures { OnOk result (columns.new.items ≡ spec.with_links columns.old.items (links_from (map link_of links.now))) }
{
    for link in links {
        add_columns(columns, &link.operand)?;
    }
    Ok(())
}

#[cycle(adding)]
fn add_of_arms(columns: &mut Vec<usize>, arms: &[Arm]) -> Result<(), AllocError>
    ensures { OnOk result (columns.new.items ≡ spec.with_arms columns.old.items (arms_from (map arm_of arms.now))) }
{
    for arm in arms {
        add_columns(columns, &arm.condition)?;
        add_columns(columns, &arm.outcome)?;
    }
    Ok(())
}

#[cycle(adding)]
fn add_of_otherwise(
    columns: &mut Vec<usize>,
    otherwise: &Option<Box<Expr>>,
) -> Result<(), AllocError>
    ensures { OnOk result (columns.new.items ≡ spec.with_otherwise columns.old.items (otherwise_of otherwise.now)) }
{
    match otherwise {
        Some(otherwise) => add_columns(columns, otherwise),
        None => Ok(()),
    }
}
