//! The scope after a clause of a checked statement (openCypher 9, *Clauses*).

ghost use Rattle.std.specs.Prelude.{◌≡◌, map, IfOk, OnOk};
ghost use Rattle.cy_trees.specs.TreeModels.{clause_of, item_of};
ghost use Rattle.cy_scope.specs.ClauseScopes as spec;

use cy_scope_kinds::{Kind, Scope, kind_of};
use cy_trees::{Clause, Item};
use std::alloc::{AllocError, Global};

/// The columns of items, whose names differ.
pub(crate) fn columns_of(alloc: Global, scope: &Scope, items: &[Item]) -> Result<Scope, AllocError>
    ensures { IfOk result (λ columns. columns ≡ spec.columns_of scope.now (map item_of items.now)) }
{
    let mut columns = Scope::new(alloc);
    for item in items {
        columns.add_name(kind_of(scope, &item.expression), item.column.as_str())?;
    }
    Ok(columns)
}

/// Goes on over a clause: the scope after it in place of the scope before it.
pub(crate) fn go_on(alloc: Global, scope: &mut Scope, clause: &Clause) -> Result<(), AllocError>
    ensures { OnOk result (scope.new ≡ spec.scope_after scope.old (clause_of clause.now)) }
{
    match clause {
        Clause::Match(matching) => scope.add_paths(&matching.paths),
        Clause::Create(paths) => scope.add_paths(paths),
        Clause::Unwind(unwind) => scope.add_name(Kind::Value, unwind.variable.name.as_str()),
        Clause::With(with) => {
            *scope = columns_of(alloc, scope, &with.projection.items)?;
            Ok(())
        }
        Clause::Return(projection) => {
            *scope = columns_of(alloc, scope, &projection.items)?;
            Ok(())
        }
        Clause::Set(_) | Clause::Remove(_) | Clause::Delete(_) => Ok(()),
    }
}
