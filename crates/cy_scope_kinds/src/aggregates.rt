//! Which items are aggregates.

ghost use Rattle.std.specs.Prelude.{◌≡◌};
ghost use Rattle.cy_trees.specs.TreeModels.{expression_of, projection_of};
ghost use Rattle.cy_scope_kinds.specs.Aggregates as spec;

use crate::functions::Function;
use cy_trees::{Expr, Projection};

/// Whether the name is that of an aggregate.
fn names_aggregate(name: &str) -> bool
    ensures { result ≡ spec.names_aggregate name.now }
{
    match Function::named(name) {
        Some(function) => function.is_aggregate(),
        None => false,
    }
}

/// Whether the expression is an aggregate.
pub fn is_aggregate_call(expression: &Expr) -> bool
    ensures { result ≡ spec.is_aggregate_call (expression_of expression.now) }
{
    match expression {
        Expr::Call(name, _, _) | Expr::CallStar(name) => names_aggregate(name.as_str()),
        _ => false,
    }
}

/// Whether an item is an aggregate.
pub fn has_aggregates(projection: &Projection) -> bool
    ensures { result ≡ spec.has_aggregates (projection_of projection.now) }
{
    for item in &projection.items {
        if is_aggregate_call(&item.expression) {
            return true;
        }
    }
    false
}
