//! SET (openCypher 9, SET; null as a target, and faults: own).

ghost use Rattle.std.specs.Prelude.{◌≡◌, IsSome, map};
ghost use Rattle.cy_trees.specs.TreeModels.{set_item_of};
ghost use Rattle.cy_oneshot_meaning.specs.Reading.{AreInGraph};
ghost use Rattle.cy_oneshot_meaning.specs.internal.Answers.{IsRowThere};
ghost use Rattle.cy_updates_meaning.specs.Faults.{each_in_turn};
ghost use Rattle.cy_updates_meaning.specs.Setting as spec;
ghost use Rattle.cy_updates_meaning.specs.Setting.{with_property};
ghost use Rattle.cy_updates_meaning.specs.Statements as statements;
ghost use Rattle.cy_updates_meaning.specs.Values.{named_by};
ghost use Rattle.cy_updates_meaning.specs.internal.Answers.{IsAnswer};

use crate::writes::entities::{LabelChange, put, relabel};
use crate::writes::maps::{stored, value_on};
use crate::writes::naming::entity_of;
use cy_index::Store;
use cy_trees::{SetItem, Variable};
use cy_updates_meaning::UpdateFault;
use cy_values::{Row, Text, Value};
use std::alloc::Global;

/// SET: sets the items on each row, one row after another (openCypher 9, SET). Fails with the first fault that the clause means, or with
/// `NoMemory`; what was set before it is left in the change.
pub(crate) fn set(
    alloc: Global,
    store: &mut Store,
    items: &[SetItem],
    rows: &[Row],
) -> Result<(), UpdateFault>
    requires open { IsSome store.old.graph.was }
    requires there { AreInGraph store.old.graph.now.content rows.now }
    ensures meaning { IsAnswer result (λ _. store.new.graph.now) (each_in_turn (statements.set_row (map set_item_of items.now)) rows.now store.old.graph.now) }
    ensures open { store.new.graph.was ≡ store.old.graph.was }
    ensures indexes { store.new.chosen ≡ store.old.chosen }
{
    for row in rows {
        store.laws();
        set_row(alloc, store, items, row)?;
    }
    Ok(())
}

// Sets the items on a row, each on the graph as it stands.
fn set_row(
    alloc: Global,
    store: &mut Store,
    items: &[SetItem],
    row: &Row,
) -> Result<(), UpdateFault>
    requires open { IsSome store.old.graph.was }
    requires there { IsRowThere store.old.graph.now.content row.now }
    ensures meaning { IsAnswer result (λ _. store.new.graph.now) (statements.set_row (map set_item_of items.now) row.now store.old.graph.now) }
    ensures open { store.new.graph.was ≡ store.old.graph.was }
    ensures indexes { store.new.chosen ≡ store.old.chosen }
{
    for item in items {
        store.laws();
        set_item(alloc, store, item, row)?;
    }
    Ok(())
}

// Sets an item on a row.
fn set_item(alloc: Global, store: &mut Store, item: &SetItem, row: &Row) -> Result<(), UpdateFault>
    requires open { IsSome store.old.graph.was }
    requires there { IsRowThere store.old.graph.now.content row.now }
    ensures meaning { IsAnswer result (λ _. store.new.graph.now) (spec.set_item row.now (set_item_of item.now) store.old.graph.now) }
    ensures open { store.new.graph.was ≡ store.old.graph.was }
    ensures indexes { store.new.chosen ≡ store.old.chosen }
{
    match item {
        SetItem::Property(variable, key, expression) => {
            let value = value_on(alloc, store, expression, row)?;
            set_property(alloc, store, variable, row, key, value)
        }
        SetItem::Labels(variable, labels) => {
            relabel(alloc, store, LabelChange::Add, variable, row, labels)
        }
    }
}

// Sets a property of what a variable names. Where that is null, nothing is stored, and so nothing is asked of the value.
fn set_property(
    alloc: Global,
    store: &mut Store,
    variable: &Variable,
    row: &Row,
    key: &Text,
    value: Value,
) -> Result<(), UpdateFault>
    requires open { IsSome store.old.graph.was }
    requires there { IsRowThere store.old.graph.now.content row.now }
    ensures meaning { IsAnswer result (λ _. store.new.graph.now) (with_property (named_by variable.now row.now) key.now value store.old.graph.now) }
    ensures open { store.new.graph.was ≡ store.old.graph.was }
    ensures indexes { store.new.chosen ≡ store.old.chosen }
{
    let Some(entity) = entity_of(variable, row) else {
        return Ok(());
    };
    let kept = stored(value)?;
    put(alloc, store, entity, key, kept)
}
