//! The attributes of entities, before a change and after it.

ghost use Rattle.std.specs.Prelude.{◌≡◌, ◌≤◌, ◌+◌, IfOk, unwrap_or};
ghost use Rattle.std.specs.Option.{option_copied};
ghost use Rattle.cy_values.specs.declared.scalars.Value.TheVariants as value;
ghost use Rattle.cy_graph.specs.Graph.{State, node_at, rel_at};
ghost use Rattle.cy_graph.specs.Maps.{value_at};
ghost use Rattle.cy_planner_algebra.specs.Expressions.{cell_at};
ghost use Rattle.cy_planner_algebra.specs.Meaning.{attribute_of};
ghost use Rattle.cy_network_sources.specs.Changes.{IsChange};
ghost use Rattle.cy_network_sources.specs.internal.Attributes.{AreAttributes};
ghost use Rattle.cy_network_sources.specs.Attributes.{label_list, node_attribute, rel_attribute};

use crate::changes::GraphChange;
use cy_graph::{Labels, Node, Props, Rel};
use cy_index::Sight;
use cy_planner_algebra::Attribute;
use cy_values::{Cell, Duplicate, Fault, NodeId, RelId, Row, Scalar, Shared, Text, Value};
use std::alloc::Global;

/// The value that an attribute of an entity has, and the one that it had, where that differs.
#[derive(Debug, Drop)]
pub(crate) struct Attributes {
    pub(crate) value: Value,
    pub(crate) was: Option<Value>,
}

impl Attributes {
    /// Those of null, and of a cell that names no entity.
    fn null() -> Self
        ensures { AreAttributes value.Null value.Null result }
    {
        Attributes {
            value: Value::Null,
            was: None,
        }
    }

    // Of an attribute that has the same value.
    fn same(value: Value) -> Self
        ensures { AreAttributes value value result }
    {
        Attributes { value, was: None }
    }

    // Of one that had a value and has another, or the same.
    fn changed(was: Value, value: Value) -> Self
        ensures { AreAttributes was value result }
    {
        if was == value {
            Attributes::same(value)
        } else {
            Attributes {
                value,
                was: Some(was),
            }
        }
    }
}

impl Duplicate for Attributes {
    fn copy(&self, alloc: Global) -> Result<Self, Fault> {
        let was = match &self.was {
            None => None,
            Some(was) => Some(was.copy(alloc)?),
        };
        Ok(Attributes {
            value: self.value.copy(alloc)?,
            was,
        })
    }
}

/// An attribute of the entity in a column of a row. It reads one entity at most. Fails only when out of memory.
pub(crate) fn attributes_at<'a>(
    alloc: Global,
    change: &GraphChange<'a>,
    sight: &mut Sight<'a>,
    attribute: &Attribute,
    row: &Row,
    column: usize,
) -> Result<Attributes, Fault>
    ensures values { IfOk result (λ values. (before : State) → IsChange before sight.old.graph.now change.now
        → AreAttributes (attribute_of before.content attribute.now (cell_at row.now column)) (attribute_of sight.old.graph.now.content attribute.now (cell_at row.now column)) values) }
    ensures graph { sight.new.graph ≡ sight.old.graph }
    ensures reads { sight.new.reads ≤ sight.old.reads + 1 }
{
    let cells = row.as_slice();
    if column < cells.len() {
        cell_attributes(alloc, change, sight, attribute, &cells[column])
    } else {
        Ok(Attributes::null())
    }
}

/// An attribute of the entity that a cell names. It reads one entity at most. Fails only when out of memory.
pub(crate) fn cell_attributes<'a>(
    alloc: Global,
    change: &GraphChange<'a>,
    sight: &mut Sight<'a>,
    attribute: &Attribute,
    cell: &Cell,
) -> Result<Attributes, Fault>
    ensures values { IfOk result (λ values. (before : State) → IsChange before sight.old.graph.now change.now
        → AreAttributes (attribute_of before.content attribute.now cell.now) (attribute_of sight.old.graph.now.content attribute.now cell.now) values) }
    ensures graph { sight.new.graph ≡ sight.old.graph }
    ensures reads { sight.new.reads ≤ sight.old.reads + 1 }
{
    match cell {
        Cell::Node(id) => node_attributes(alloc, change, sight, attribute, *id),
        Cell::Rel(id) => rel_attributes(alloc, change, sight, attribute, *id),
        Cell::Rels(_) | Cell::Value(_) => Ok(Attributes::null()),
    }
}

/// An attribute of a node. It reads the node. Fails only when out of memory.
fn node_attributes<'a>(
    alloc: Global,
    change: &GraphChange<'a>,
    sight: &mut Sight<'a>,
    attribute: &Attribute,
    id: NodeId,
) -> Result<Attributes, Fault>
    ensures values { IfOk result (λ values. (before : State) → IsChange before sight.old.graph.now change.now
        → AreAttributes (node_attribute attribute.now (node_at id before)) (node_attribute attribute.now (node_at id sight.old.graph.now)) values) }
    ensures graph { sight.new.graph ≡ sight.old.graph }
    ensures reads { sight.new.reads ≤ sight.old.reads + 1 }
{
    let now = node_value(alloc, attribute, sight.node(id))?;
    match change.node_was(id) {
        None => Ok(Attributes::same(now)),
        Some(was) => Ok(Attributes::changed(node_value(alloc, attribute, was)?, now)),
    }
}

/// An attribute of a relationship. It reads the relationship. Fails only when out of memory.
fn rel_attributes<'a>(
    alloc: Global,
    change: &GraphChange<'a>,
    sight: &mut Sight<'a>,
    attribute: &Attribute,
    id: RelId,
) -> Result<Attributes, Fault>
    ensures values { IfOk result (λ values. (before : State) → IsChange before sight.old.graph.now change.now
        → AreAttributes (rel_attribute attribute.now (rel_at id before)) (rel_attribute attribute.now (rel_at id sight.old.graph.now)) values) }
    ensures graph { sight.new.graph ≡ sight.old.graph }
    ensures reads { sight.new.reads ≤ sight.old.reads + 1 }
{
    let now = rel_value(alloc, attribute, sight.rel(id))?;
    match change.rel_was(id) {
        None => Ok(Attributes::same(now)),
        Some(was) => Ok(Attributes::changed(rel_value(alloc, attribute, was)?, now)),
    }
}

/// The value of an attribute of a node, if it is there. Fails only when out of memory.
pub(crate) fn node_value(
    alloc: Global,
    attribute: &Attribute,
    node: Option<&Node>,
) -> Result<Value, Fault>
    ensures { IfOk result (λ v. v ≡ node_attribute attribute.now (option_copied node.entry)) }
{
    match (attribute, node) {
        (Attribute::Property(key), Some(node)) => property(alloc, &node.props, key),
        (Attribute::Labels, Some(node)) => label_names(alloc, &node.labels),
        (Attribute::Labels, None) => Ok(Value::List(Shared::new(Vec::new(alloc))?)),
        (Attribute::Property(_), None) | (Attribute::RelType, _) => Ok(Value::Null),
    }
}

/// The value of an attribute of a relationship, if it is there. Fails only when out of memory.
pub(crate) fn rel_value(
    alloc: Global,
    attribute: &Attribute,
    rel: Option<&Rel>,
) -> Result<Value, Fault>
    ensures { IfOk result (λ v. v ≡ rel_attribute attribute.now (option_copied rel.entry)) }
{
    match (attribute, rel) {
        (Attribute::Property(key), Some(rel)) => property(alloc, &rel.props, key),
        (Attribute::RelType, Some(rel)) => Ok(Value::Text(rel.kind.copy(alloc)?)),
        (Attribute::RelType, None) => Ok(Value::Text(Text::from_str(alloc, "")?)),
        (Attribute::Property(_), None) | (Attribute::Labels, _) => Ok(Value::Null),
    }
}

// The value at a key; null where there is none.
fn property(alloc: Global, props: &Props, key: &Text) -> Result<Value, Fault>
    ensures { IfOk result (λ v. v ≡ unwrap_or (value_at key.now props.now) value.Null) }
{
    match props.get(key.as_str()) {
        Some(found) => found.copy(alloc),
        None => Ok(Value::Null),
    }
}

// The list of the names of labels.
fn label_names(alloc: Global, labels: &Labels) -> Result<Value, Fault>
    ensures { IfOk result (λ v. v ≡ label_list labels.now) }
{
    let entries = labels.entries();
    let mut names = Vec::with_capacity(alloc, entries.len())?;
    for entry in entries {
        names.push(Scalar::Text(entry.0.copy(alloc)?))?;
    }
    Ok(Value::List(Shared::new(names)?))
}
