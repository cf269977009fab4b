//! Setting the columns of the variables of clauses.

ghost use Rattle.std.specs.Prelude.{◌≡◌, ◌++◌, [], map, IfOk, OnOk};
ghost use Rattle.cy_trees.specs.TreeModels.{expression_of, item_of, key_of, projection_of, set_item_of, remove_item_of, clause_of};
ghost use Rattle.cy_scope.specs.ClauseScopes.{scope_after, columns_of};
ghost use Rattle.cy_scope.specs.ProjectionFaults.{seen_by_keys};
ghost use Rattle.cy_scope_kinds.specs.internal.TreeWords.{ArePlaced};
ghost use Rattle.cy_scope.specs.internal.Trees.{unwind_of, match_of, with_of};
ghost use Rattle.cy_scope.specs.Resolved as spec;

use crate::clause_scopes::columns_of;
use crate::pattern_columns::{
    resolve, resolve_paths, resolve_where, resolved_expression, resolved_in,
};
use crate::projection_checks::seen_by_keys;
use crate::repeats::{Places, places_of, repeats};
use cy_scope_kinds::{Kind, Scope, resolved};
use cy_trees::{
    Clause, Expr, Item, Key, Match, Projection, RemoveItem, SetItem, Unwind, Variable, With,
};
use std::alloc::{AllocError, Global};
use std::mem;

fn resolve_items(alloc: Global, scope: &Scope, items: &mut [Item])
    ensures { map item_of items.new ≡ map (spec.resolved_item scope.now) (map item_of items.old) }
{
    for item in items.iter_mut() {
        resolve(alloc, scope, &mut item.expression);
    }
}

/// What keys are resolved by: the scope before their projection, the columns that it makes and what else keys see, and its items.
#[derive(Clone, Copy)]
struct KeyScopes<'a> {
    before: &'a Scope,
    columns: &'a Scope,
    others: &'a Scope,
    places: &'a Places,
    items: &'a [Item],
}

/// Sets the columns of a key's variables: as those of the item that it repeats, or else as keys see them.
fn resolve_key(alloc: Global, scopes: &KeyScopes<'_>, key: &mut Key) -> Result<(), AllocError>
    requires { ArePlaced scopes.now.places.now.entries (map item_of scopes.now.items.now) }
    ensures { OnOk result (key_of key.new ≡ spec.resolved_key scopes.now.before.now (scopes.now.columns.now ++ scopes.now.others.now) (map item_of scopes.now.items.now) (key_of key.old)) }
{
    let repeated = repeats(alloc, scopes.places, scopes.items, &key.expression)?;
    let expression = mem::replace(&mut key.expression, Expr::Null);
    key.expression = if repeated {
        resolved_expression(alloc, scopes.before, expression)
    } else {
        resolved(scopes.columns, scopes.others, expression)
    };
    Ok(())
}

fn resolve_keys(alloc: Global, scopes: &KeyScopes<'_>, keys: &mut [Key]) -> Result<(), AllocError>
    requires { ArePlaced scopes.now.places.now.entries (map item_of scopes.now.items.now) }
    ensures { OnOk result (map key_of keys.new ≡ map (spec.resolved_key scopes.now.before.now (scopes.now.columns.now ++ scopes.now.others.now) (map item_of scopes.now.items.now)) (map key_of keys.old)) }
{
    for key in keys.iter_mut() {
        resolve_key(alloc, scopes, key)?;
    }
    Ok(())
}

/// Sets the columns of the variables of keys.
fn resolve_order(
    alloc: Global,
    before: &Scope,
    columns: &Scope,
    projection: &mut Projection,
) -> Result<(), AllocError>
    ensures { let p = projection_of projection.old in OnOk result (projection_of projection.new ≡ record p { order = map (spec.resolved_key before.now (columns.now ++ seen_by_keys p before.now) p.items) p.order }) }
{
    if projection.order.is_empty() {
        return Ok(());
    }
    let places = places_of(alloc, &projection.items)?;
    let nothing = Scope::new(alloc);
    let others = seen_by_keys(projection, &nothing, before);
    let scopes = KeyScopes {
        before,
        columns,
        others,
        places: &places,
        items: &projection.items,
    };
    resolve_keys(alloc, &scopes, &mut projection.order)
}

fn resolve_projection(
    alloc: Global,
    before: &Scope,
    columns: &Scope,
    projection: &mut Projection,
) -> Result<(), AllocError>
    ensures { OnOk result (projection_of projection.new ≡ spec.resolved_projection before.now columns.now (projection_of projection.old)) }
{
    resolve_order(alloc, before, columns, projection)?;
    resolve_items(alloc, before, &mut projection.items);
    Ok(())
}

fn resolve_variable(scope: &Scope, variable: &mut Variable)
    ensures { variable.new ≡ spec.resolved_variable scope.now variable.old }
{
    variable.column = scope.find_column(variable.name.as_str());
}

fn resolve_variables(scope: &Scope, variables: &mut [Variable])
    ensures { variables.new ≡ map (spec.resolved_variable scope.now) variables.old }
{
    for variable in variables.iter_mut() {
        resolve_variable(scope, variable);
    }
}

fn resolve_set(alloc: Global, scope: &Scope, item: &mut SetItem)
    ensures { set_item_of item.new ≡ spec.resolved_set scope.now (set_item_of item.old) }
{
    match item {
        SetItem::Property(variable, _, expression) => {
            resolve_variable(scope, variable);
            resolve(alloc, scope, expression);
        }
        SetItem::Labels(variable, _) => resolve_variable(scope, variable),
    }
}

fn resolve_sets(alloc: Global, scope: &Scope, items: &mut [SetItem])
    ensures { map set_item_of items.new ≡ map (spec.resolved_set scope.now) (map set_item_of items.old) }
{
    for item in items.iter_mut() {
        resolve_set(alloc, scope, item);
    }
}

fn resolve_remove(scope: &Scope, item: &mut RemoveItem)
    ensures { remove_item_of item.new ≡ spec.resolved_remove scope.now (remove_item_of item.old) }
{
    match item {
        RemoveItem::Property(variable, _) => resolve_variable(scope, variable),
        RemoveItem::Labels(variable, _) => resolve_variable(scope, variable),
    }
}

fn resolve_removes(scope: &Scope, items: &mut [RemoveItem])
    ensures { map remove_item_of items.new ≡ map (spec.resolved_remove scope.now) (map remove_item_of items.old) }
{
    for item in items.iter_mut() {
        resolve_remove(scope, item);
    }
}

fn resolve_match(alloc: Global, scope: &mut Scope, matching: &mut Match) -> Result<(), AllocError>
    ensures { let c = match_of matching.old in OnOk result ((scope.new ≡ scope_after scope.old c) × (match_of matching.new ≡ spec.resolved_clause scope.old (scope_after scope.old c) c)) }
{
    scope.add_paths(&matching.paths)?;
    resolve_paths(alloc, scope, &mut matching.paths);
    resolve_where(alloc, scope, &mut matching.filter);
    Ok(())
}

fn resolve_unwind(alloc: Global, scope: &mut Scope, unwind: &mut Unwind) -> Result<(), AllocError>
    ensures { let c = unwind_of unwind.old in OnOk result ((scope.new ≡ scope_after scope.old c) × (unwind_of unwind.new ≡ spec.resolved_clause scope.old (scope_after scope.old c) c)) }
{
    scope.add_name(Kind::Value, unwind.variable.name.as_str())?;
    resolve(alloc, scope, &mut unwind.list);
    resolve_variable(scope, &mut unwind.variable);
    Ok(())
}

fn resolve_with(alloc: Global, scope: &mut Scope, with: &mut With) -> Result<(), AllocError>
    ensures { let c = with_of with.old in OnOk result ((scope.new ≡ scope_after scope.old c) × (with_of with.new ≡ spec.resolved_clause scope.old (scope_after scope.old c) c)) }
{
    let columns = columns_of(alloc, scope, &with.projection.items)?;
    resolve_projection(alloc, scope, &columns, &mut with.projection)?;
    resolve_where(alloc, &columns, &mut with.filter);
    *scope = columns;
    Ok(())
}

fn resolve_return(
    alloc: Global,
    scope: &mut Scope,
    projection: &mut Projection,
) -> Result<(), AllocError>
    ensures { let p = projection_of projection.old in OnOk result ((scope.new ≡ columns_of scope.old p.items) × (projection_of projection.new ≡ spec.resolved_projection scope.old (columns_of scope.old p.items) p)) }
{
    let columns = columns_of(alloc, scope, &projection.items)?;
    resolve_projection(alloc, scope, &columns, projection)?;
    *scope = columns;
    Ok(())
}

/// Sets the columns of a clause's variables, and goes on over it.
fn resolve_clause(alloc: Global, scope: &mut Scope, clause: &mut Clause) -> Result<(), AllocError>
    ensures { let c = clause_of clause.old in OnOk result ((scope.new ≡ scope_after scope.old c) × (clause_of clause.new ≡ spec.resolved_clause scope.old (scope_after scope.old c) c)) }
{
    match clause {
        Clause::Match(matching) => resolve_match(alloc, scope, matching)?,
        Clause::Unwind(unwind) => resolve_unwind(alloc, scope, unwind)?,
        Clause::With(with) => resolve_with(alloc, scope, with)?,
        Clause::Return(projection) => resolve_return(alloc, scope, projection)?,
        Clause::Create(paths) => {
            scope.add_paths(paths)?;
            resolve_paths(alloc, scope, paths);
        }
        Clause::Set(items) => resolve_sets(alloc, scope, items),
        Clause::Remove(items) => resolve_removes(scope, items),
        Clause::Delete(delete) => resolve_variables(scope, &mut delete.variables),
    }
    Ok(())
}

/// Sets the columns of the variables of clauses.
pub(crate) fn resolve_clauses(alloc: Global, clauses: &mut [Clause]) -> Result<(), AllocError>
    ensures { OnOk result (map clause_of clauses.new ≡ spec.resolved_clauses [] (map clause_of clauses.old)) }
{
    let mut scope = Scope::new(alloc);
    for clause in clauses.iter_mut() {
        resolve_clause(alloc, &mut scope, clause)?;
    }
    Ok(())
}
