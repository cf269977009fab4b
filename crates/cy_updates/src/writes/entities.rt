//! What SET and REMOVE change at one entity: a property, or labels (openCypher 9, SET and REMOVE).

ghost use Rattle.std.specs.Prelude.{◌≡◌, IfErr, IfSome, IsSome, IsTrue, OnOk, Some};
ghost use Rattle.cy_graph.specs.Graph.{IsThere, node_at, with_node_changed, with_prop};
ghost use Rattle.cy_graph.specs.Stored.{is_storable};
ghost use Rattle.cy_oneshot_meaning.specs.internal.Answers.{IsRowThere};
ghost use Rattle.cy_updates_meaning.specs.declared.faults.UpdateFault.TheVariants.{NoMemory};
ghost use Rattle.cy_updates_meaning.specs.Setting.{with_labels_changed};
ghost use Rattle.cy_updates_meaning.specs.Values.{named_by};
ghost use Rattle.cy_updates.specs.internal.Entities.{relabelled};

use crate::writes::naming::entity_of;
use cy_index::Store;
use cy_trees::Variable;
use cy_updates_meaning::UpdateFault;
use cy_values::{Duplicate, Entity, NodeId, Row, Text, Value};
use std::alloc::Global;

/// What becomes of labels: SET adds them, REMOVE drops them.
#[derive(Clone, Copy)]
pub(crate) enum LabelChange {
    Add,
    Drop,
}

/// Gives an entity's property this value, or removes it where there is none.
pub(crate) fn put(
    alloc: Global,
    store: &mut Store,
    entity: Entity,
    key: &Text,
    value: Option<Value>,
) -> Result<(), UpdateFault>
    requires open { IsSome store.old.graph.was }
    requires there { IsThere entity store.old.graph.now }
    requires storable { IfSome value (λ v. IsTrue (is_storable v)) }
    ensures changed { OnOk result (store.new.graph.now ≡ with_prop entity key.now value store.old.graph.now) }
    ensures memory { IfErr result (λ why. why ≡ NoMemory) }
    ensures open { store.new.graph.was ≡ store.old.graph.was }
    ensures indexes { store.new.chosen ≡ store.old.chosen }
{
    let name = key.copy(alloc)?;
    store.set_prop(entity, name, value)?;
    Ok(())
}

/// Adds labels to the node that a variable names, or drops them; a relationship has none.
pub(crate) fn relabel(
    alloc: Global,
    store: &mut Store,
    change: LabelChange,
    variable: &Variable,
    row: &Row,
    labels: &[Text],
) -> Result<(), UpdateFault>
    requires open { IsSome store.old.graph.was }
    requires there { IsRowThere store.old.graph.now.content row.now }
    ensures changed { OnOk result (store.new.graph.now ≡ with_labels_changed (relabelled change) labels.now (named_by variable.now row.now) store.old.graph.now) }
    ensures memory { IfErr result (λ why. why ≡ NoMemory) }
    ensures open { store.new.graph.was ≡ store.old.graph.was }
    ensures indexes { store.new.chosen ≡ store.old.chosen }
{
    match entity_of(variable, row) {
        Some(Entity::Node(id)) => relabel_node(alloc, store, change, id, labels),
        Some(Entity::Rel(_)) | None => Ok(()),
    }
}

// Adds labels to a node, or drops them.
fn relabel_node(
    alloc: Global,
    store: &mut Store,
    change: LabelChange,
    id: NodeId,
    labels: &[Text],
) -> Result<(), UpdateFault>
    requires open { IsSome store.old.graph.was }
    requires there { IsSome (node_at id store.old.graph.now) }
    ensures changed { OnOk result (store.new.graph.now ≡ with_labels_changed (relabelled change) labels.now (Some (Entity.Node id)) store.old.graph.now) }
    ensures memory { IfErr result (λ why. why ≡ NoMemory) }
    ensures open { store.new.graph.was ≡ store.old.graph.was }
    ensures indexes { store.new.chosen ≡ store.old.chosen }
{
    for label in labels {
        store.laws();
        change_label(alloc, store, change, id, label)?;
    }
    Ok(())
}

// Adds a label to a node, or drops it.
fn change_label(
    alloc: Global,
    store: &mut Store,
    change: LabelChange,
    id: NodeId,
    label: &Text,
) -> Result<(), UpdateFault>
    requires open { IsSome store.old.graph.was }
    requires there { IsSome (node_at id store.old.graph.now) }
    ensures changed { OnOk result (store.new.graph.now ≡ with_node_changed id (relabelled change label.now) store.old.graph.now) }
    ensures memory { IfErr result (λ why. why ≡ NoMemory) }
    ensures open { store.new.graph.was ≡ store.old.graph.was }
    ensures indexes { store.new.chosen ≡ store.old.chosen }
{
    match change {
        LabelChange::Add => {
            let name = label.copy(alloc)?;
            store.add_label(id, name)?;
        }
        LabelChange::Drop => store.drop_label(id, label.as_str())?,
    }
    Ok(())
}
