//! REMOVE (openCypher 9, REMOVE; null as a target: own).

ghost use Rattle.std.specs.Prelude.{◌≡◌, IfErr, IsSome, OnOk, fold, map};
ghost use Rattle.cy_trees.specs.TreeModels.{remove_item_of};
ghost use Rattle.cy_oneshot_meaning.specs.Reading.{AreInGraph};
ghost use Rattle.cy_oneshot_meaning.specs.internal.Answers.{IsRowThere};
ghost use Rattle.cy_updates_meaning.specs.declared.faults.UpdateFault.TheVariants.{NoMemory};
ghost use Rattle.cy_updates_meaning.specs.Setting.{removed_item, without_property};
ghost use Rattle.cy_updates_meaning.specs.Statements as statements;
ghost use Rattle.cy_updates_meaning.specs.Values.{named_by};

use crate::writes::entities::{LabelChange, put, relabel};
use crate::writes::naming::entity_of;
use cy_index::Store;
use cy_trees::{RemoveItem, Variable};
use cy_updates_meaning::UpdateFault;
use cy_values::{Row, Text};
use std::alloc::Global;

/// REMOVE: removes the items on each row (openCypher 9, REMOVE). Fails only with `NoMemory`.
pub(crate) fn remove(
    alloc: Global,
    store: &mut Store,
    items: &[RemoveItem],
    rows: &[Row],
) -> Result<(), UpdateFault>
    requires open { IsSome store.old.graph.was }
    requires there { AreInGraph store.old.graph.now.content rows.now }
    ensures changed { OnOk result (store.new.graph.now ≡ fold (statements.remove_row (map remove_item_of items.now)) store.old.graph.now rows.now) }
    ensures memory { IfErr result (λ why. why ≡ NoMemory) }
    ensures open { store.new.graph.was ≡ store.old.graph.was }
    ensures indexes { store.new.chosen ≡ store.old.chosen }
{
    for row in rows {
        store.laws();
        remove_row(alloc, store, items, row)?;
    }
    Ok(())
}

// Removes the items on a row.
fn remove_row(
    alloc: Global,
    store: &mut Store,
    items: &[RemoveItem],
    row: &Row,
) -> Result<(), UpdateFault>
    requires open { IsSome store.old.graph.was }
    requires there { IsRowThere store.old.graph.now.content row.now }
    ensures changed { OnOk result (store.new.graph.now ≡ statements.remove_row (map remove_item_of items.now) store.old.graph.now row.now) }
    ensures memory { IfErr result (λ why. why ≡ NoMemory) }
    ensures open { store.new.graph.was ≡ store.old.graph.was }
    ensures indexes { store.new.chosen ≡ store.old.chosen }
{
    for item in items {
        store.laws();
        remove_item(alloc, store, item, row)?;
    }
    Ok(())
}

// Removes an item on a row.
fn remove_item(
    alloc: Global,
    store: &mut Store,
    item: &RemoveItem,
    row: &Row,
) -> Result<(), UpdateFault>
    requires open { IsSome store.old.graph.was }
    requires there { IsRowThere store.old.graph.now.content row.now }
    ensures changed { OnOk result (store.new.graph.now ≡ removed_item row.now store.old.graph.now (remove_item_of item.now)) }
    ensures memory { IfErr result (λ why. why ≡ NoMemory) }
    ensures open { store.new.graph.was ≡ store.old.graph.was }
    ensures indexes { store.new.chosen ≡ store.old.chosen }
{
    match item {
        RemoveItem::Property(variable, key) => remove_property(alloc, store, variable, row, key),
        RemoveItem::Labels(variable, labels) => {
            relabel(alloc, store, LabelChange::Drop, variable, row, labels)
        }
    }
}

// Removes a property of what a variable names.
fn remove_property(
    alloc: Global,
    store: &mut Store,
    variable: &Variable,
    row: &Row,
    key: &Text,
) -> Result<(), UpdateFault>
    requires open { IsSome store.old.graph.was }
    requires there { IsRowThere store.old.graph.now.content row.now }
    ensures changed { OnOk result (store.new.graph.now ≡ without_property (named_by variable.now row.now) key.now store.old.graph.now) }
    ensures memory { IfErr result (λ why. why ≡ NoMemory) }
    ensures open { store.new.graph.was ≡ store.old.graph.was }
    ensures indexes { store.new.chosen ≡ store.old.chosen }
{
    match entity_of(variable, row) {
        Some(entity) => put(alloc, store, entity, key, None),
        None => Ok(()),
    }
}
