//! The relationships at each node.

ghost use Rattle.std.specs.Prelude.{◌≡◌, ◌<◌, ◌++◌, ◌∷◌, ℕ, List, [], length, filter, reverse, eqb, if◌then◌else◌, vec_len, IfErr, OnOk};
ghost use Rattle.std.specs.Vec.{vec_capacity};
ghost use Rattle.cy_graph.specs.internal.Adjacency.{ids_at, room_at, before_step, undone, is_live, without_last, IsCompacted};
ghost use Rattle.cy_graph.specs.declared.adjacency.Step.TheVariants.{Added, Removed};

use crate::faults::GraphFault;
use crate::nodes::Rel;
use crate::series::Series;
use cy_values::RelId;
use indexmap::IndexMap;
use smallvec::SmallVec;
use std::alloc::Global;

/// What was done to the relationships at a node.
#[derive(Clone, Copy, Debug, Drop)]
enum Step {
    /// One was added, which is the last in the list.
    Added(u64),
    /// One was removed, which is still in the list.
    Removed(u64),
}

/// The relationships of which a node is one end, by rising number, with some that were removed.
#[derive(Drop)]
struct RelList {
    ids: SmallVec<RelId, 2>,
    /// How many of them were removed. Nothing but the time of a compaction depends on it.
    removed: usize,
}

/// The relationships of which each node is one end, with what the open change did to them. One that is removed stays in its
/// list, so no other moves, and to take the removal back is to do nothing; a commit drops those that were removed once they
/// are more than half. A list that a change leaves empty goes.
#[derive(Drop)]
pub(crate) struct Adjacency {
    lists: IndexMap<u64, RelList>,
    /// What the open change did, the latest last.
    steps: Vec<Step>,
}

impl Adjacency {
    /// No relationship at any node.
    pub(crate) fn new(alloc: Global) -> Self
        ensures none { (m : ℕ) → ids_at m result.lists ≡ [] }
        ensures steps { result.steps.items ≡ [] }
    {
        Adjacency {
            lists: IndexMap::new(alloc),
            steps: Vec::new(alloc),
        }
    }

    /// The relationships at a node, by rising number, with some that were removed.
    pub(crate) fn at(&self, node: u64) -> &[RelId]
        ensures { result.now ≡ ids_at node self.now.lists }
    {
        match self.lists.get(&node) {
            Some(list) => list.ids.as_slice(),
            None => &[],
        }
    }

    /// Makes room for one more relationship at a node. Fails only when out of memory.
    pub(crate) fn reserve(&mut self, node: u64) -> Result<(), GraphFault>
        ensures ids { (m : ℕ) → ids_at m self.new.lists ≡ ids_at m self.old.lists }
        ensures steps { self.new.steps.items ≡ self.old.steps.items }
        ensures ok { OnOk result (length (ids_at node self.new.lists) < room_at node self.new.lists) }
        ensures step { OnOk result (vec_len self.new.steps < vec_capacity self.new.steps) }
        ensures fault { IfErr result (λ fault. fault ≡ GraphFault.NoMemory) }
    {
        self.steps.reserve(1)?;
        reserve_in(&mut self.lists, node)
    }

    /// Makes room for one more step. Fails only when out of memory.
    pub(crate) fn reserve_step(&mut self) -> Result<(), GraphFault>
        ensures lists { self.new.lists ≡ self.old.lists }
        ensures steps { self.new.steps.items ≡ self.old.steps.items }
        ensures ok { OnOk result (vec_len self.new.steps < vec_capacity self.new.steps) }
        ensures fault { IfErr result (λ fault. fault ≡ GraphFault.NoMemory) }
    {
        Ok(self.steps.reserve(1)?)
    }

    /// Adds a relationship at a node that has room for it. Its number is greater than those of the others.
    pub(crate) fn add(&mut self, node: u64, rel: RelId)
        requires room { length (ids_at node self.old.lists) < room_at node self.old.lists }
        requires step { vec_len self.old.steps < vec_capacity self.old.steps }
        ensures ids { (m : ℕ) → ids_at m self.new.lists ≡ (if eqb node m then ids_at m self.old.lists ++ rel ∷ [] else ids_at m self.old.lists) }
        ensures steps { self.new.steps.items ≡ self.old.steps.items ++ Added node ∷ [] }
    {
        add_in(&mut self.lists, node, rel);
        self.steps.push_reserved(Step::Added(node));
    }

    /// Notes that a relationship at a node was removed.
    pub(crate) fn remove(&mut self, node: u64)
        requires { vec_len self.old.steps < vec_capacity self.old.steps }
        ensures ids { (m : ℕ) → ids_at m self.new.lists ≡ ids_at m self.old.lists }
        ensures steps { self.new.steps.items ≡ self.old.steps.items ++ Removed node ∷ [] }
    {
        remove_in(&mut self.lists, node);
        self.steps.push_reserved(Step::Removed(node));
    }

    /// Ends the change: what it did stays.
    pub(crate) fn commit(&mut self, rels: &Series<Rel>)
        ensures ids { (m : ℕ) → IsCompacted rels.now.now.entries (ids_at m self.old.lists) (ids_at m self.new.lists) }
        ensures steps { self.new.steps.items ≡ [] }
    {
        while let Some(step) = self.steps.pop() {
            if let Step::Removed(node) = step {
                compact_in(&mut self.lists, node, rels);
                drop_if_empty(&mut self.lists, node);
            }
        }
    }

    /// Ends the change: what it did is undone, the latest first.
    pub(crate) fn rollback(&mut self)
        ensures ids { (m : ℕ) → ids_at m self.new.lists ≡ undone (reverse self.old.steps.items) (λ m. ids_at m self.old.lists) m }
        ensures steps { self.new.steps.items ≡ [] }
    {
        while let Some(step) = self.steps.pop() {
            undo(&mut self.lists, step);
        }
    }
}

// Undoes a step.
fn undo(lists: &mut IndexMap<u64, RelList>, step: Step)
    ensures { (m : ℕ) → ids_at m lists.new ≡ before_step step (λ m. ids_at m lists.old) m }
{
    match step {
        Step::Added(node) => {
            pop_in(lists, node);
            drop_if_empty(lists, node);
        }
        Step::Removed(node) => restore_in(lists, node),
    }
}

// Makes room for one more relationship at a node.
fn reserve_in(lists: &mut IndexMap<u64, RelList>, node: u64) -> Result<(), GraphFault>
    ensures ids { (m : ℕ) → ids_at m lists.new ≡ ids_at m lists.old }
    ensures ok { OnOk result (length (ids_at node lists.new) < room_at node lists.new) }
    ensures fault { IfErr result (λ fault. fault ≡ GraphFault.NoMemory) }
{
    if let Some(list) = lists.get_mut(&node) {
        return Ok(list.ids.reserve(1)?);
    }
    let ids = SmallVec::new(*lists.allocator());
    lists.insert(node, RelList { ids, removed: 0 })?;
    Ok(())
}

// Adds a relationship at a node that has room for it.
fn add_in(lists: &mut IndexMap<u64, RelList>, node: u64, rel: RelId)
    requires { length (ids_at node lists.old) < room_at node lists.old }
    ensures { (m : ℕ) → ids_at m lists.new ≡ (if eqb node m then ids_at m lists.old ++ rel ∷ [] else ids_at m lists.old) }
{
    if let Some(list) = lists.get_mut(&node) {
        list.ids.push_reserved(rel);
    }
}

// Takes out the last relationship at a node.
fn pop_in(lists: &mut IndexMap<u64, RelList>, node: u64)
    ensures { (m : ℕ) → ids_at m lists.new ≡ (if eqb node m then without_last (ids_at m lists.old) else ids_at m lists.old) }
{
    if let Some(list) = lists.get_mut(&node) {
        list.ids.pop();
    }
}

// Counts one more relationship at a node as removed.
fn remove_in(lists: &mut IndexMap<u64, RelList>, node: u64)
    ensures { (m : ℕ) → ids_at m lists.new ≡ ids_at m lists.old }
{
    if let Some(list) = lists.get_mut(&node) {
        list.removed = list.removed.saturating_add(1);
    }
}

// Counts one fewer as removed.
fn restore_in(lists: &mut IndexMap<u64, RelList>, node: u64)
    ensures { (m : ℕ) → ids_at m lists.new ≡ ids_at m lists.old }
{
    if let Some(list) = lists.get_mut(&node) {
        list.removed = list.removed.saturating_sub(1);
    }
}

// Drops the removed relationships from the list of a node, if they are more than half of it.
fn compact_in(lists: &mut IndexMap<u64, RelList>, node: u64, rels: &Series<Rel>)
    ensures { (m : ℕ) → IsCompacted rels.now.now.entries (ids_at m lists.old) (ids_at m lists.new) }
{
    if let Some(list) = lists.get_mut(&node) {
        compact(list, rels);
    }
}

// Drops the removed relationships from a list, if they are more than half of it.
fn compact(list: &mut RelList, rels: &Series<Rel>)
    ensures { IsCompacted rels.now.now.entries list.old.ids.items list.new.ids.items }
{
    if list.removed > list.ids.len() / 2 {
        drop_removed(&mut list.ids, rels);
        list.removed = 0;
    }
}

// Drops the removed relationships.
fn drop_removed(ids: &mut SmallVec<RelId, 2>, rels: &Series<Rel>)
    ensures { ids.new.items ≡ filter (is_live rels.now.now.entries) ids.old.items }
{
    ids.retain(
        |id: &mut RelId| -> bool
            ensures { (result ≡ is_live rels.entry.now.now.entries id.old) × (id.new ≡ id.old) }
        { rels.get(id.0).is_some() },
    );
}

// Drops the list of a node where it is empty.
fn drop_if_empty(lists: &mut IndexMap<u64, RelList>, node: u64)
    ensures { (m : ℕ) → ids_at m lists.new ≡ ids_at m lists.old }
{
    if let Some(list) = lists.get(&node) {
        if list.ids.is_empty() {
            lists.swap_remove(&node);
        }
    }
}
