//! The items that the keys of ORDER BY repeat.

ghost use Rattle.std.specs.Prelude.{◌≡◌, IfOk, IfSome, map};
ghost use Rattle.std.specs.List.{position_from};
ghost use Rattle.cy_trees.specs.TreeModels.{expression_of, item_of};
ghost use Rattle.cy_scope_kinds.specs.Same as trees;
ghost use Rattle.cy_oneshot_projections.specs.internal.KeyPlaces.{AreFirst};

use cy_scope::place_of_item;
use cy_scope_kinds::{same, words_of};
use cy_trees::{Expr, Item, Projection};
use std::alloc::{AllocError, Global};
use std::collections::BTreeMap;

/// The places of items by the words of their trees; of items with the same words the first.
pub(crate) type Places = BTreeMap<Vec<u64>, usize>;

/// With no more keys than this, each item is looked at.
const FEW_KEYS: usize = 8;

/// The places of a projection's items, where it has many keys. Fails only when out of memory.
pub(crate) fn item_places(
    alloc: Global,
    projection: &Projection,
) -> Result<Option<Places>, AllocError>
    ensures { IfOk result (λ found. IfSome found (λ places. AreFirst places.entries (map item_of projection.now.items.items) 0)) }
{
    if projection.order.len() <= FEW_KEYS {
        return Ok(None);
    }
    let places = first_places(alloc, &projection.items)?;
    Ok(Some(places))
}

// For the words of each item's tree the place of the first item that has them.
fn first_places(alloc: Global, items: &[Item]) -> Result<Places, AllocError>
    ensures { IfOk result (λ places. AreFirst places.entries (map item_of items.now) 0) }
{
    let mut places = BTreeMap::new(alloc);
    let mut left = items.len();
    'items: while left > 0 {
        left -= 1;
        let words = words_of(alloc, &items[left].expression)?;
        places.insert(words, left)?;
    }
    Ok(places)
}

/// The place of the first item whose tree is that of an expression. Fails only when out of memory.
pub(crate) fn place_of_key(
    alloc: Global,
    places: &Option<Places>,
    items: &[Item],
    expression: &Expr,
) -> Result<Option<usize>, AllocError>
    requires { IfSome places.now (λ found. AreFirst found.entries (map item_of items.now) 0) }
    ensures { IfOk result (λ place. place ≡ position_from (λ i. trees.same i.expression (expression_of expression.now)) 0 (map item_of items.now)) }
{
    match places {
        Some(places) => place_by_words(alloc, places, items, expression),
        None => Ok(place_of_item(items, expression)),
    }
}

// The place of the first such item, found by the words of trees. It isn't proved that different trees have different words, so the two trees are compared, and if
// they differ, each item is looked at.
fn place_by_words(
    alloc: Global,
    places: &Places,
    items: &[Item],
    expression: &Expr,
) -> Result<Option<usize>, AllocError>
    requires { AreFirst places.now.entries (map item_of items.now) 0 }
    ensures { IfOk result (λ place. place ≡ position_from (λ i. trees.same i.expression (expression_of expression.now)) 0 (map item_of items.now)) }
{
    let words = words_of(alloc, expression)?;
    let Some(place) = places.get(words.as_slice()) else {
        return Ok(None);
    };
    let Some(item) = items.get(*place) else {
        return Ok(place_of_item(items, expression));
    };
    if same(&item.expression, expression) {
        return Ok(Some(*place));
    }
    Ok(place_of_item(items, expression))
}
