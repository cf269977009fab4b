//! Expressions that are read where they lie: literals, variables, properties of variables, comparisons of two of these, and tests of the labels
//! of one.

ghost use Rattle.std.specs.Prelude.{◌≡◌, IfSome, Ok, map};
ghost use Rattle.cy_trees.specs.TreeModels.{expression_of, link_of, links_from};
ghost use Rattle.cy_expr.specs.Evaluation as spec;
ghost use Rattle.cy_expr.specs.Faults.{on_one};
ghost use Rattle.cy_expr.specs.Lookups.{labels_test, property_value};
ghost use Rattle.cy_expr.specs.internal.Lent.{held_cell, lent_cell};

use crate::held::Held;
use crate::logic::value_of;
use crate::lookups::{Lookups, has_labels, property};
use crate::operators::compare;
use crate::views::{CellView, view_of};
use cy_trees::{Expr, Link};
use cy_values::{Cell, Text, Truth, Value, ValueRef};

/// The cell of such an expression, if it has no fault; none for other expressions.
pub(crate) fn simple_cell<'a, G: Lookups>(
    expression: &'a Expr,
    row: &'a [Cell],
    graph: &'a G,
) -> Option<Held<'a>>
    ensures { IfSome result (λ found. spec.cell_of (G.lookups graph.now) row.now (expression_of expression.now) ≡ Ok (held_cell found)) }
{
    match expression {
        Expr::Comparison(first, links) => {
            let truth = compared(first, links, row, graph)?;
            Some(Held::Made(value_of(truth)))
        }
        Expr::HasLabels(owner, labels) => {
            let truth = labelled(owner, labels, row, graph)?;
            Some(Held::Made(truth))
        }
        _ => Some(Held::Lent(operand(expression, row, graph)?)),
    }
}

// The truth of one comparison of two operands, if neither it nor they have a fault; none for several, and for other operands.
fn compared<'a, G: Lookups>(
    first: &'a Expr,
    links: &'a [Link],
    row: &'a [Cell],
    graph: &'a G,
) -> Option<Truth>
    ensures { IfSome result (λ truth. on_one (λ c. spec.chain (G.lookups graph.now) row.now c (links_from (map link_of links.now))) (spec.cell_of (G.lookups graph.now) row.now (expression_of first.now)) ≡ Ok truth) }
{
    if links.len() != 1 {
        return None;
    }
    let link = &links[0];
    let left = operand(first, row, graph)?;
    let right = operand(&link.operand, row, graph)?;
    match compare(link.comparator, left, right) {
        Ok(truth) => Some(truth),
        Err(_) => None,
    }
}

// Whether the node that such an operand is has each of the labels, if it has no fault; none for other operands.
fn labelled<'a, G: Lookups>(
    owner: &'a Expr,
    labels: &[Text],
    row: &'a [Cell],
    graph: &'a G,
) -> Option<Value>
    ensures { IfSome result (λ truth. on_one (labels_test (G.lookups graph.now) labels.now) (spec.cell_of (G.lookups graph.now) row.now (expression_of owner.now)) ≡ Ok truth) }
{
    let owner = operand(owner, row, graph)?;
    match has_labels(graph, labels, owner) {
        Ok(truth) => Some(truth),
        Err(_) => None,
    }
}

// The cell of a literal, a variable or a property of a variable, if it has no fault; none for other expressions.
fn operand<'a, G: Lookups>(
    expression: &'a Expr,
    row: &'a [Cell],
    graph: &'a G,
) -> Option<CellView<'a>>
    ensures { IfSome result (λ found. spec.cell_of (G.lookups graph.now) row.now (expression_of expression.now) ≡ Ok (lent_cell found)) }
{
    match expression {
        Expr::Null => Some(CellView::Value(ValueRef::Null)),
        Expr::Boolean(truth) => Some(CellView::Value(ValueRef::Bool(*truth))),
        Expr::Integer(number) => Some(CellView::Value(ValueRef::Int(*number))),
        Expr::Text(text) => Some(CellView::Value(ValueRef::Text(text.as_str()))),
        Expr::Variable(variable) => Some(column(variable.column, row)),
        Expr::Property(owner, key) => property_of(owner, key.as_str(), row, graph),
        _ => None,
    }
}

// The property of a variable, if it has no fault; none for what is no variable.
fn property_of<'a, G: Lookups>(
    owner: &'a Expr,
    key: &str,
    row: &'a [Cell],
    graph: &'a G,
) -> Option<CellView<'a>>
    ensures { IfSome result (λ found. spec.as_cell (on_one (property_value (G.lookups graph.now) key.now) (spec.cell_of (G.lookups graph.now) row.now (expression_of owner.now))) ≡ Ok (lent_cell found)) }
{
    let Expr::Variable(variable) = owner else {
        return None;
    };
    match property(graph, key, column(variable.column, row)) {
        Ok(value) => Some(CellView::Value(value)),
        Err(_) => None,
    }
}

/// A column of the row; null for a variable that has none.
pub(crate) fn column<'a>(column: Option<usize>, row: &'a [Cell]) -> CellView<'a>
    ensures { lent_cell result ≡ spec.column_value column row.now }
{
    match column {
        Some(column) if column < row.len() => view_of(&row[column]),
        _ => CellView::Value(ValueRef::Null),
    }
}
