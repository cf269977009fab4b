//! The views in a list of them.

ghost use Rattle.std.specs.Prelude.{◌≡◌, IfOk, IsTrue, [], map};
ghost use Rattle.cy_trees.specs.TreeModels.{clause_of, item_of, statement_of};
ghost use Rattle.cy_scope.specs.Views.{ends_with_return};
ghost use Rattle.cy_oneshot_meaning.specs.Queries.{columns_after_all, statement_columns};

use cy_scope::ViewQuery;
use cy_trees::{Clause, Item};
use cy_values::{Duplicate, Fault, Sequence, Text};
use std::alloc::Global;

/// A view in the list of views.
#[derive(Debug, Drop)]
pub struct ViewListing {
    pub columns: Sequence<Text>,
    /// The tick at which the view was made.
    pub made: u64,
    pub name: Text,
}

/// The columns of a view's query: where UNION joins several, those of the first. Fails only when out of memory.
pub fn columns_of(alloc: Global, query: &ViewQuery) -> Result<Vec<Text>, Fault>
    ensures { IfOk result (λ columns. columns.items ≡ statement_columns (statement_of query.now)) }
{
    let Some(first) = query.checked().statement().queries.first() else {
        return Ok(Vec::new(alloc));
    };
    Ok(returned_columns(alloc, &first.clauses)?)
}

// The columns of clauses that end with RETURN: those of its items. Fails only when out of memory.
fn returned_columns(alloc: Global, clauses: &[Clause]) -> Result<Vec<Text>, Fault>
    requires { IsTrue (ends_with_return (map clause_of clauses.now)) }
    ensures { IfOk result (λ columns. columns.items ≡ columns_after_all [] (map clause_of clauses.now)) }
{
    let Some(last) = clauses.last() else {
        return Ok(Vec::new(alloc));
    };
    match last {
        Clause::Return(projection) => Ok(names_of(alloc, &projection.items)?),
        _ => Ok(Vec::new(alloc)),
    }
}

// The columns of the items of a RETURN. Fails only when out of memory.
fn names_of(alloc: Global, items: &[Item]) -> Result<Vec<Text>, Fault>
    ensures { IfOk result (λ names. names.items ≡ map (λ i. i.column) (map item_of items.now)) }
{
    let mut names = Vec::with_capacity(alloc, items.len())?;
    for item in items {
        names.push(item.column.copy(alloc)?)?;
    }
    Ok(names)
}
