//! DELETE: one set of all that goes, and one test of it (openCypher 9, DELETE; which relationship is reported: own).

ghost use Rattle.std.specs.Prelude.{◌≡◌, ◌++◌, ◌∷◌, ◌&&◌, ◌||◌, List, None, [], filter, flat_map, map, option_to_list, slice_get, IfErr, IfOk, IsSome, OnOk};
ghost use Rattle.cy_values.specs.declared.numbers.NodeId.{NodeId};
ghost use Rattle.cy_values.specs.declared.numbers.RelId.{RelId};
ghost use Rattle.cy_graph.specs.Graph.{rels_with};
ghost use Rattle.cy_graph.specs.internal.Ends.{rels_from, rels_into};
ghost use Rattle.cy_updates_meaning.specs.declared.faults.UpdateFault.TheVariants.{NoMemory};
ghost use Rattle.cy_updates_meaning.specs.Deleting.{deleted};
ghost use Rattle.cy_updates_meaning.specs.Deleting as spec;
ghost use Rattle.cy_updates_meaning.specs.Values.{named_by};
ghost use Rattle.cy_updates_meaning.specs.internal.Answers.{IsAnswer};
ghost use Rattle.cy_updates_meaning.specs.internal.Gone.{AreGone};
ghost use Rattle.cy_updates.specs.internal.Deleting.{AreAmong, AreNodesGone, AreRelsGone, AreSameNodes, is_rel_among, lesser_of, lies_among, nodes_among, rels_among, rels_at, without_nodes, without_rels};

use crate::writes::naming::entity_of;
use cy_graph::RelsAt;
use cy_index::Store;
use cy_trees::Variable;
use cy_updates_meaning::UpdateFault;
use cy_values::{Entity, NodeId, RelId, Row};
use std::alloc::Global;

/// How many nodes and relationships went.
#[derive(Clone, Copy)]
pub(crate) struct Gone {
    pub(crate) nodes: u64,
    pub(crate) rels: u64,
}

// Nodes and relationships that are named, where they may stand more than once.
#[derive(Drop)]
struct Named {
    nodes: Vec<NodeId>,
    rels: Vec<RelId>,
}

/// DELETE: removes what the variables name on the rows, all at once, with DETACH also each relationship at a node of it (openCypher 9,
/// DELETE). Fails with `StillConnected`, with the least relationship that would remain at such a node, or with `NoMemory`.
pub(crate) fn delete(
    alloc: Global,
    store: &mut Store,
    detach: bool,
    variables: &[Variable],
    rows: &[Row],
) -> Result<Gone, UpdateFault>
    requires open { IsSome store.old.graph.was }
    ensures meaning { IsAnswer result (λ _. store.new.graph.now) (deleted store.old.graph.now detach variables.now rows.now) }
    ensures gone { IfOk result (λ gone. AreGone store.old.graph.now store.new.graph.now gone.nodes gone.rels) }
    ensures open { store.new.graph.was ≡ store.old.graph.was }
    ensures indexes { store.new.chosen ≡ store.old.chosen }
{
    store.laws();
    let found = all_named(alloc, variables, rows)?;
    let going = all_going(store, detach, found)?;
    let Named { nodes, rels } = going;
    let rels_gone = remove_rels(store, rels)?;
    match least_rel_at(store, &nodes) {
        Some(rel) => Err(UpdateFault::StillConnected(rel)),
        None => {
            let nodes_gone = remove_nodes(store, nodes)?;
            Ok(Gone {
                nodes: nodes_gone,
                rels: rels_gone,
            })
        }
    }
}

// What the variables name on the rows.
fn all_named(alloc: Global, variables: &[Variable], rows: &[Row]) -> Result<Named, UpdateFault>
    ensures nodes { IfOk result (λ named. named.nodes.items ≡ nodes_among (spec.named variables.now rows.now)) }
    ensures rels { IfOk result (λ named. named.rels.items ≡ rels_among (spec.named variables.now rows.now)) }
    ensures memory { IfErr result (λ why. why ≡ NoMemory) }
{
    let mut named = Named {
        nodes: Vec::new(alloc),
        rels: Vec::new(alloc),
    };
    for row in rows {
        push_named(&mut named, variables, row)?;
    }
    Ok(named)
}

// Adds what the variables name on a row.
fn push_named(named: &mut Named, variables: &[Variable], row: &Row) -> Result<(), UpdateFault>
    ensures nodes { OnOk result (named.new.nodes.items ≡ named.old.nodes.items ++ nodes_among (flat_map (λ v. option_to_list (named_by v row.now)) variables.now)) }
    ensures rels { OnOk result (named.new.rels.items ≡ named.old.rels.items ++ rels_among (flat_map (λ v. option_to_list (named_by v row.now)) variables.now)) }
    ensures memory { IfErr result (λ why. why ≡ NoMemory) }
{
    for variable in variables {
        push_variable(named, variable, row)?;
    }
    Ok(())
}

// Adds what a variable names on a row.
fn push_variable(named: &mut Named, variable: &Variable, row: &Row) -> Result<(), UpdateFault>
    ensures nodes { OnOk result (named.new.nodes.items ≡ named.old.nodes.items ++ nodes_among (option_to_list (named_by variable.now row.now))) }
    ensures rels { OnOk result (named.new.rels.items ≡ named.old.rels.items ++ rels_among (option_to_list (named_by variable.now row.now))) }
    ensures memory { IfErr result (λ why. why ≡ NoMemory) }
{
    match entity_of(variable, row) {
        Some(Entity::Node(id)) => named.nodes.push(id)?,
        Some(Entity::Rel(id)) => named.rels.push(id)?,
        None => (),
    }
    Ok(())
}

// What goes: what is named, each node once, and with DETACH each relationship at a node of it.
fn all_going(store: &Store, detach: bool, named: Named) -> Result<Named, UpdateFault>
    ensures nodes { IfOk result (λ going. AreSameNodes going.nodes.items named.nodes.items) }
    ensures rels { IfOk result (λ going. AreAmong (λ e. is_rel_among named.rels.items e.0 || (detach && lies_among named.nodes.items e)) going.rels.items store.now.graph.now.content.rels) }
    ensures memory { IfErr result (λ why. why ≡ NoMemory) }
{
    if detach {
        return with_rels_at(store, named);
    }
    let Named { nodes, rels } = named;
    Ok(Named {
        nodes: each_once(nodes),
        rels,
    })
}

// With the relationships at the nodes.
fn with_rels_at(store: &Store, named: Named) -> Result<Named, UpdateFault>
    ensures nodes { IfOk result (λ going. AreSameNodes going.nodes.items named.nodes.items) }
    ensures rels { IfOk result (λ going. AreAmong (λ e. is_rel_among named.rels.items e.0 || lies_among named.nodes.items e) going.rels.items store.now.graph.now.content.rels) }
    ensures memory { IfErr result (λ why. why ≡ NoMemory) }
{
    store.laws();
    let Named { nodes, mut rels } = named;
    let nodes = each_once(nodes);
    push_rels_at(store, &nodes, &mut rels)?;
    Ok(Named { nodes, rels })
}

// The nodes, each once, so that the relationships at one that is named often are gone through once.
fn each_once(mut nodes: Vec<NodeId>) -> Vec<NodeId>
    ensures { AreSameNodes result.items nodes.items }
{
    nodes.sort_unstable();
    nodes.dedup();
    nodes
}

// Adds the relationships at these nodes.
fn push_rels_at(store: &Store, nodes: &[NodeId], rels: &mut Vec<RelId>) -> Result<(), UpdateFault>
    ensures all { OnOk result (rels.new.items ≡ rels.old.items ++ rels_at nodes.now store.now.graph.now.content.rels) }
    ensures memory { IfErr result (λ why. why ≡ NoMemory) }
{
    for id in nodes {
        push_rels_of(store, *id, rels)?;
    }
    Ok(())
}

// Adds the relationships that lead from a node, and those that lead to it.
fn push_rels_of(store: &Store, id: NodeId, rels: &mut Vec<RelId>) -> Result<(), UpdateFault>
    ensures all { OnOk result (rels.new.items ≡ rels.old.items ++ (rels_from id store.now.graph.now.content.rels ++ rels_into id store.now.graph.now.content.rels)) }
    ensures memory { IfErr result (λ why. why ≡ NoMemory) }
{
    push_numbers(store.out_rels(id), rels)?;
    push_numbers(store.in_rels(id), rels)
}

// Adds the numbers of relationships.
fn push_numbers(rels: RelsAt<'_>, ids: &mut Vec<RelId>) -> Result<(), UpdateFault>
    ensures all { OnOk result (ids.new.items ≡ ids.old.items ++ map (λ e. e.0) rels.entry) }
    ensures memory { IfErr result (λ why. why ≡ NoMemory) }
{
    for (id, _rel) in rels {
        ids.push(id)?;
    }
    Ok(())
}

// Removes these relationships. Says how many there were.
fn remove_rels(store: &mut Store, mut ids: Vec<RelId>) -> Result<u64, UpdateFault>
    requires open { IsSome store.old.graph.was }
    ensures removed { OnOk result (store.new.graph.now ≡ without_rels ids.items store.old.graph.now) }
    ensures count { IfOk result (λ gone. AreRelsGone gone store.old.graph.now store.new.graph.now) }
    ensures memory { IfErr result (λ why. why ≡ NoMemory) }
    ensures open { store.new.graph.was ≡ store.old.graph.was }
    ensures indexes { store.new.chosen ≡ store.old.chosen }
{
    store.laws();
    let mut gone = 0;
    while let Some(id) = ids.pop() {
        let more = remove_rel(store, id)?;
        gone += more;
    }
    Ok(gone)
}

// Removes a relationship, if it is there, and says how many there were.
fn remove_rel(store: &mut Store, id: RelId) -> Result<u64, UpdateFault>
    requires open { IsSome store.old.graph.was }
    ensures removed { OnOk result ((ids : List RelId) → without_rels ids store.new.graph.now ≡ without_rels (ids ++ id ∷ []) store.old.graph.now) }
    ensures count { IfOk result (λ gone. AreRelsGone gone store.old.graph.now store.new.graph.now) }
    ensures memory { IfErr result (λ why. why ≡ NoMemory) }
    ensures open { store.new.graph.was ≡ store.old.graph.was }
    ensures indexes { store.new.chosen ≡ store.old.chosen }
{
    store.laws();
    let Some(_rel) = store.rel(id) else {
        return Ok(0);
    };
    store.remove_rel(id)?;
    Ok(1)
}

// The relationship with the least number at one of these nodes.
fn least_rel_at(store: &Store, nodes: &[NodeId]) -> Option<RelId>
    ensures { result ≡ slice_get (map (λ e. e.0) (filter (lies_among nodes.now) store.now.graph.now.content.rels)) 0 }
{
    store.laws();
    let mut least = None;
    for id in nodes {
        least = lesser(least, store.least_rel(*id));
    }
    least
}

// The lesser of two numbers, where they are there.
fn lesser(one: Option<RelId>, other: Option<RelId>) -> Option<RelId>
    ensures { result ≡ lesser_of one other }
{
    match (one, other) {
        (Some(x), Some(y)) => Some(if x.0 <= y.0 { x } else { y }),
        (Some(x), None) => Some(x),
        (None, other) => other,
    }
}

// Removes these nodes, the last one first, at which there is no relationship. Says how many there were.
fn remove_nodes(store: &mut Store, mut ids: Vec<NodeId>) -> Result<u64, UpdateFault>
    requires open { IsSome store.old.graph.was }
    requires alone { filter (lies_among ids.items) store.old.graph.now.content.rels ≡ [] }
    ensures removed { OnOk result (store.new.graph.now ≡ without_nodes ids.items store.old.graph.now) }
    ensures count { IfOk result (λ gone. AreNodesGone gone store.old.graph.now store.new.graph.now) }
    ensures rels { OnOk result (store.new.graph.now.content.rels ≡ store.old.graph.now.content.rels) }
    ensures memory { IfErr result (λ why. why ≡ NoMemory) }
    ensures open { store.new.graph.was ≡ store.old.graph.was }
    ensures indexes { store.new.chosen ≡ store.old.chosen }
{
    store.laws();
    let mut gone = 0;
    while let Some(id) = ids.pop() {
        let more = remove_node(store, id)?;
        gone += more;
    }
    Ok(gone)
}

// Removes a node, if it is there, at which there is no relationship, and says how many there were.
fn remove_node(store: &mut Store, id: NodeId) -> Result<u64, UpdateFault>
    requires open { IsSome store.old.graph.was }
    requires alone { slice_get (rels_with id store.old.graph.now.content.rels) 0 ≡ None }
    ensures removed { OnOk result ((ids : List NodeId) → without_nodes ids store.new.graph.now ≡ without_nodes (ids ++ id ∷ []) store.old.graph.now) }
    ensures count { IfOk result (λ gone. AreNodesGone gone store.old.graph.now store.new.graph.now) }
    ensures rels { OnOk result (store.new.graph.now.content.rels ≡ store.old.graph.now.content.rels) }
    ensures memory { IfErr result (λ why. why ≡ NoMemory) }
    ensures open { store.new.graph.was ≡ store.old.graph.was }
    ensures indexes { store.new.chosen ≡ store.old.chosen }
{
    store.laws();
    let Some(_node) = store.node(id) else {
        return Ok(0);
    };
    store.remove_node(id)?;
    Ok(1)
}
