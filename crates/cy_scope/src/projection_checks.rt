//! The faults of projections (own).

ghost use Rattle.std.specs.Prelude.{◌≡◌, ◌⊎◌, ◌++◌, [], map, None, Some, MatchResult};
ghost use Rattle.cy_trees.specs.TreeModels.{expression_of, item_of, key_of, projection_of};
ghost use Rattle.cy_scope_kinds.specs.declared.faults.ScopeFault.TheVariants.{NoMemory};
ghost use Rattle.cy_scope_kinds.specs.Scopes.{added_name};
ghost use Rattle.cy_scope_kinds.specs.ExpressionKinds.{kind_of};
ghost use Rattle.cy_scope.specs.ClauseScopes.{columns_of};
ghost use Rattle.cy_scope_kinds.specs.internal.TreeWords.{ArePlaced};
ghost use Rattle.cy_scope_kinds.specs.internal.Answers.{MayFault, GoesOn};
ghost use Rattle.cy_scope.specs.ProjectionFaults as spec;

use crate::repeats::{Places, places_of, repeats};
use cy_scope_kinds::{Scope, ScopeFault, check_expression, check_item, demand, has_aggregates};
use cy_trees::{Expr, Item, Key, Projection};
use std::alloc::Global;

/// Whether an item has AS, or needs none.
fn has_name(naming: bool, item: &Item) -> bool
    ensures { result ≡ spec.has_name naming (item_of item.now) }
{
    !naming || item.named || matches!(item.expression, Expr::Variable(_))
}

/// Goes on over an item, whose column comes after the others: its first fault.
fn check_item_place(
    alloc: Global,
    naming: bool,
    scope: &Scope,
    columns: &mut Scope,
    item: &Item,
) -> Result<(), ScopeFault>
    ensures { let i = item_of item.now in GoesOn (spec.item_place_fault naming scope.now columns.old i) (added_name columns.old (kind_of scope.now i.expression) i.column) columns.new result }
{
    let kind = check_item(scope, &Scope::new(alloc), &item.expression)?;
    demand(has_name(naming, item), ScopeFault::MissingAlias)?;
    let name = item.column.as_str();
    demand(
        columns.find_kind(name).is_none(),
        ScopeFault::DuplicateColumn,
    )?;
    columns.add_name(kind, name)?;
    Ok(())
}

/// The columns of items, or their first fault.
fn check_items(
    alloc: Global,
    naming: bool,
    scope: &Scope,
    items: &[Item],
) -> Result<Scope, ScopeFault>
    ensures { let all = map item_of items.now in MatchResult result (λ columns. (spec.items_fault naming scope.now [] all ≡ None) × (columns ≡ columns_of scope.now all)) (λ f. (f ≡ NoMemory) ⊎ (spec.items_fault naming scope.now [] all ≡ Some f)) }
{
    let mut columns = Scope::new(alloc);
    for item in items {
        check_item_place(alloc, naming, scope, &mut columns, item)?;
    }
    Ok(columns)
}

/// The first fault of keys, which see the columns first.
fn check_keys(
    alloc: Global,
    columns: &Scope,
    others: &Scope,
    places: &Places,
    items: &[Item],
    keys: &[Key],
) -> Result<(), ScopeFault>
    requires { ArePlaced places.now.entries (map item_of items.now) }
    ensures { MayFault (spec.keys_fault (columns.now ++ others.now) (map item_of items.now) (map key_of keys.now)) result }
{
    for key in keys {
        if !repeats(alloc, places, items, &key.expression)? {
            check_expression(columns, others, &key.expression)?;
        }
    }
    Ok(())
}

/// Whether keys see the columns alone: with DISTINCT or an aggregate.
fn hides_variables(projection: &Projection) -> bool
    ensures { result ≡ spec.hides_variables (projection_of projection.now) }
{
    projection.distinct || has_aggregates(projection)
}

/// What keys see beside the columns: nothing, or the variables before.
pub(crate) fn seen_by_keys<'a>(
    projection: &Projection,
    nothing: &'a Scope,
    before: &'a Scope,
) -> &'a Scope
    requires { nothing.now ≡ [] }
    ensures { result.now ≡ spec.seen_by_keys (projection_of projection.now) before.now }
{
    if hides_variables(projection) {
        nothing
    } else {
        before
    }
}

/// The first fault of the keys of a projection that has the columns.
fn check_order(
    alloc: Global,
    scope: &Scope,
    columns: &Scope,
    projection: &Projection,
) -> Result<(), ScopeFault>
    ensures { let p = projection_of projection.now in MayFault (spec.keys_fault (columns.now ++ spec.seen_by_keys p scope.now) p.items p.order) result }
{
    if projection.order.is_empty() {
        return Ok(());
    }
    let places = places_of(alloc, &projection.items)?;
    let nothing = Scope::new(alloc);
    check_keys(
        alloc,
        columns,
        seen_by_keys(projection, &nothing, scope),
        &places,
        &projection.items,
        &projection.order,
    )
}

/// The columns of a projection, or its first fault. Items of WITH need names.
pub(crate) fn check_projection(
    alloc: Global,
    naming: bool,
    scope: &Scope,
    projection: &Projection,
) -> Result<Scope, ScopeFault>
    ensures { let p = projection_of projection.now in MatchResult result (λ columns. (spec.projection_fault naming scope.now p ≡ None) × (columns ≡ columns_of scope.now p.items)) (λ f. (f ≡ NoMemory) ⊎ (spec.projection_fault naming scope.now p ≡ Some f)) }
{
    let columns = check_items(alloc, naming, scope, &projection.items)?;
    check_order(alloc, scope, &columns, projection)?;
    Ok(columns)
}
