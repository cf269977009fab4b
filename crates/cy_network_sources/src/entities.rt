//! The rows that an entity makes in a scan.

ghost use Rattle.std.specs.Prelude.{◌≡◌, ◌++◌, ◌∷◌, [], IfOk, OnOk, if◌then◌else◌, map};
ghost use Rattle.std.specs.Option.{option_copied, option_to_list};
ghost use Rattle.cy_values.specs.declared.rows.Cell.TheVariants as cell;
ghost use Rattle.cy_planner_algebra.specs.PlanModels.{plan_of};
ghost use Rattle.cy_network_sources.specs.internal.Through as spec;
ghost use Rattle.cy_network_sources.specs.internal.Through.{AreFit, IsFit, IsNodeFit, IsRelFit, attribute_in};

use crate::attributes::{node_value, rel_value};
use crate::needs::parts_left;
use crate::rels::rows_of_rel;
use cy_graph::{Node, Rel};
use cy_planner_algebra::{Attribute, Operator, Orientation, rows};
use cy_values::{Cell, Fault, NodeId, RelId, Row, Sequence, Text, Value};
use std::alloc::Global;

/// A node or a relationship that is there.
#[derive(Clone, Copy, Debug, Drop)]
pub(crate) enum EntityValue<'a> {
    Node(&'a Node),
    Rel(&'a Rel),
}

/// The row of a node in a scan with these operators, if it is there and has one. Fails only when out of memory.
pub(crate) fn row_at_node(
    alloc: Global,
    parts: &[&Operator],
    id: NodeId,
    node: Option<&Node>,
) -> Result<Option<Row>, Fault>
    requires { IsNodeFit (map (λ part. plan_of part.now) parts.now) id.0 (option_copied node) }
    ensures { IfOk result (λ row. option_to_list row ≡ spec.node_made (map (λ part. plan_of part.now) parts.now) id.0 (option_copied node.entry)) }
{
    let Some(node) = node else {
        return Ok(None);
    };
    let mut cells = Vec::with_capacity(alloc, parts.len())?;
    cells.push(Cell::Node(id))?;
    let left = parts_left(parts, node);
    row_through(
        alloc,
        &parts[..left],
        EntityValue::Node(node),
        Sequence::new(cells),
    )
}

/// The rows of a relationship in a scan with these operators, if it is there. Fails only when out of memory.
pub(crate) fn rows_at_rel(
    alloc: Global,
    parts: &[&Operator],
    types: &[Text],
    orientation: Orientation,
    id: RelId,
    rel: Option<&Rel>,
) -> Result<Vec<Row>, Fault>
    requires { IsRelFit types.now orientation (map (λ part. plan_of part.now) parts.now) id.0 (option_copied rel) }
    ensures { IfOk result (λ rows. rows.items ≡ spec.rel_made types.now orientation (map (λ part. plan_of part.now) parts.now) id.0 (option_copied rel.entry)) }
{
    let Some(rel) = rel else {
        return Ok(Vec::new(alloc));
    };
    let rows = rows_of_rel(alloc, types, orientation, id, Some(rel))?;
    rows_through(alloc, parts, EntityValue::Rel(rel), rows)
}

// What the operators make of rows of an entity.
fn rows_through(
    alloc: Global,
    parts: &[&Operator],
    entity: EntityValue<'_>,
    rows: Vec<Row>,
) -> Result<Vec<Row>, Fault>
    requires { AreFit (attribute_in entity) (map (λ part. plan_of part.now) parts.now) rows.items }
    ensures { IfOk result (λ made. made.items ≡ spec.through (attribute_in entity.entry) (map (λ part. plan_of part.now) parts.now) rows.items) }
{
    let mut made = Vec::new(alloc);
    for row in rows {
        add_row(alloc, parts, entity, row, &mut made)?;
    }
    Ok(made)
}

// Adds what the operators make of a row of an entity.
fn add_row(
    alloc: Global,
    parts: &[&Operator],
    entity: EntityValue<'_>,
    row: Row,
    made: &mut Vec<Row>,
) -> Result<(), Fault>
    requires { AreFit (attribute_in entity) (map (λ part. plan_of part.now) parts.now) (row ∷ []) }
    ensures { OnOk result (made.new.items ≡ made.old.items ++ spec.through (attribute_in entity.entry) (map (λ part. plan_of part.now) parts.now) (row ∷ [])) }
{
    if let Some(row) = row_through(alloc, parts, entity, row)? {
        made.push(row)?;
    }
    Ok(())
}

// What the operators make of a row of an entity, the last operator first.
fn row_through(
    alloc: Global,
    parts: &[&Operator],
    entity: EntityValue<'_>,
    row: Row,
) -> Result<Option<Row>, Fault>
    requires { AreFit (attribute_in entity) (map (λ part. plan_of part.now) parts.now) (row ∷ []) }
    ensures { IfOk result (λ made. option_to_list made ≡ spec.through (attribute_in entity.entry) (map (λ part. plan_of part.now) parts.now) (row ∷ [])) }
{
    let mut row = row;
    let mut left = parts.len();
    while left > 0 {
        left -= 1;
        match row_by(alloc, parts[left], entity, row)? {
            Some(made) => row = made,
            None => return Ok(None),
        }
    }
    Ok(Some(row))
}

// What an operator makes of a row of an entity.
fn row_by(
    alloc: Global,
    part: &Operator,
    entity: EntityValue<'_>,
    row: Row,
) -> Result<Option<Row>, Fault>
    requires { IsFit (plan_of part.now) (row ∷ []) }
    ensures { IfOk result (λ made. option_to_list made ≡ spec.made_by (attribute_in entity.entry) (plan_of part.now) (row ∷ [])) }
{
    match part {
        Operator::Lookup(_, _, attribute) => {
            let longer = with_attribute(alloc, attribute, entity, row)?;
            Ok(Some(longer))
        }
        Operator::Filter(_, test) => {
            let passes = rows::holds(alloc, test, &row)?;
            Ok(if_true(passes, row))
        }
        Operator::AllDifferent(_, columns) => {
            let passes = rows::are_different(alloc, columns, &row)?;
            Ok(if_true(passes, row))
        }
        Operator::Project(_, outputs) => {
            let made = rows::projected(alloc, outputs, &row)?;
            Ok(Some(made))
        }
        _ => Ok(Some(row)),
    }
}

// A row where it passes.
fn if_true(passes: bool, row: Row) -> Option<Row>
    ensures { option_to_list result ≡ (if passes then row ∷ [] else []) }
{
    if passes { Some(row) } else { None }
}

// A row with an attribute of its entity.
fn with_attribute(
    alloc: Global,
    attribute: &Attribute,
    entity: EntityValue<'_>,
    row: Row,
) -> Result<Row, Fault>
    ensures { IfOk result (λ longer. longer ≡ row ++ cell.Value (attribute_in entity.entry attribute.now) ∷ []) }
{
    let value = attribute_of(alloc, attribute, entity)?;
    let mut cells = row.into_vec();
    cells.push(Cell::Value(value))?;
    Ok(Sequence::new(cells))
}

// An attribute of an entity.
fn attribute_of(
    alloc: Global,
    attribute: &Attribute,
    entity: EntityValue<'_>,
) -> Result<Value, Fault>
    ensures { IfOk result (λ v. v ≡ attribute_in entity.entry attribute.now) }
{
    match entity {
        EntityValue::Node(node) => node_value(alloc, attribute, Some(node)),
        EntityValue::Rel(rel) => rel_value(alloc, attribute, Some(rel)),
    }
}
