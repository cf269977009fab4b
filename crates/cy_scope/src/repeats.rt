//! Which keys repeat an item.

ghost use Rattle.std.specs.Prelude.{◌≡◌, IfOk, map};
ghost use Rattle.std.specs.List.{position_from};
ghost use Rattle.cy_trees.specs.TreeModels.{expression_of, item_of};
ghost use Rattle.cy_scope_kinds.specs.internal.TreeWords.{ArePlaced};
ghost use Rattle.cy_scope.specs.ProjectionFaults as spec;
ghost use Rattle.cy_scope_kinds.specs.Same as trees;

use cy_scope_kinds::{same, words_of};
use cy_trees::{Expr, Item};
use std::alloc::{AllocError, Global};
use std::collections::BTreeMap;

/// The places of items by the words of their trees.
pub(crate) type Places = BTreeMap<Vec<u64>, usize>;

/// For each item's tree the place of an item that has it.
pub(crate) fn places_of(alloc: Global, items: &[Item]) -> Result<Places, AllocError>
    ensures { IfOk result (λ places. ArePlaced places.entries (map item_of items.now)) }
{
    let mut places = BTreeMap::new(alloc);
    for (place, item) in items.iter().enumerate() {
        let words = words_of(alloc, &item.expression)?;
        places.insert(words, place)?;
    }
    Ok(places)
}

/// Whether an expression has the tree of one of the items, by looking at each.
fn is_among(items: &[Item], expression: &Expr) -> bool
    ensures { result ≡ spec.repeats (map item_of items.now) (expression_of expression.now) }
{
    for item in items {
        if same(&item.expression, expression) {
            return true;
        }
    }
    false
}

/// The place of the first item whose tree is that of an expression; the columns of variables don't count.
pub fn place_of_item(items: &[Item], expression: &Expr) -> Option<usize>
    ensures { result ≡ position_from (λ i. trees.same i.expression (expression_of expression.now)) 0 (map item_of items.now) }
{
    for (place, item) in items.iter().enumerate() {
        if same(&item.expression, expression) {
            return Some(place);
        }
    }
    None
}

/// Whether an expression has the tree of an item. It isn't proved that different trees have different words, so the two
/// trees are compared, and if they differ, each item is looked at.
pub(crate) fn repeats(
    alloc: Global,
    places: &Places,
    items: &[Item],
    expression: &Expr,
) -> Result<bool, AllocError>
    requires { ArePlaced places.now.entries (map item_of items.now) }
    ensures { IfOk result (λ found. found ≡ spec.repeats (map item_of items.now) (expression_of expression.now)) }
{
    let words = words_of(alloc, expression)?;
    let Some(place) = places.get(words.as_slice()) else {
        return Ok(false);
    };
    let Some(item) = items.get(*place) else {
        return Ok(is_among(items, expression));
    };
    if same(&item.expression, expression) {
        return Ok(true);
    }
    Ok(is_among(items, expression))
}
