//! Numbers under keys, by rising number, with steps that can be taken back.

ghost use Rattle.std.specs.Prelude.{◌≡◌, ◌+◌, ◌-◌, ◌<◌, [], ◌∷◌, length, drop, true, false, IfOk, OnOk, OnErr};
ghost use Rattle.cy_index.specs.declared.postings.Step.TheVariants.{Set};
ghost use Rattle.cy_index.specs.internal.Numbers.{Rises, ids_of, is_nonempty, with_number, without_number};
ghost use Rattle.cy_index.specs.internal.Postings.{version_of, list_at, with_list, latest, undone, numbers_at, Goes, Writes, Makes, IsNew, Puts, Replaces};

use crate::posting_list::PostingList;
use cy_values::{Fault, NodeId};
use indexmap::IndexMap;
use std::alloc::Global;
use std::hash::Hash;
use std::marker::Model;
use std::mem::replace;

/// A number in the list in a slot.
#[derive(Clone, Copy, Debug, Drop)]
pub(crate) struct Spot {
    slot: usize,
    number: u64,
}

/// What one step did, so that it can be taken back.
#[derive(Clone, Copy, Debug, Drop)]
pub(crate) enum Step {
    /// A key came last, with one number under it.
    Made,
    /// A number came into a list or left it. Its entry before that is kept.
    Set(Spot, Option<bool>),
}

// How many steps a change may have whose room the next one takes over.
const SMALL_CHANGE: usize = 64;

/// Numbers under keys, by rising number. Each change is a step, and the steps since the last `commit` can be taken
/// back one after the other, which takes no memory.
#[derive(Drop)]
pub(crate) struct Postings<K: Eq + Hash> {
    lists: IndexMap<K, PostingList>,
    steps: Vec<Step>,
    /// How many numbers went since the empty lists were dropped. Nothing but the time of that depends on it.
    removals: usize,
}

impl<K: Eq + Hash> Model for Postings<K> {
    ghost use Rattle.std.specs.Prelude.{List, reverse};
    ghost use Rattle.cy_index.specs.internal.Postings.{Version, versions};

    ghost Value = { List (Version K) };

    ghost view = { λ p. versions (reverse p.steps.items) p.lists.entries };
}

impl<K: Eq + Hash + Drop> Postings<K> {
    /// No number under any key.
    pub(crate) fn new(alloc: Global) -> Self
        ensures { result ≡ [] ∷ [] }
    {
        Postings {
            lists: IndexMap::new(alloc),
            steps: Vec::new(alloc),
            removals: 0,
        }
    }

    /// The nodes under a key, by rising number. Fails only when out of memory.
    pub(crate) fn ids(&self, alloc: Global, key: &K) -> Result<Vec<NodeId>, Fault>
        ensures ids { IfOk result (λ ids. ids.items ≡ ids_of (numbers_at K.eq key.now (latest self.now))) }
        ensures rising { Rises 0 (numbers_at K.eq key.now (latest self.now)) }
    {
        match self.lists.get(key) {
            Some(list) => list.ids(alloc),
            None => Ok(Vec::new(alloc)),
        }
    }

    /// The allocator that `new` took.
    pub(crate) fn allocator(&self) -> Global {
        *self.lists.allocator()
    }

    /// How many steps there are, which `undo_to` can go back to.
    pub(crate) fn mark(&self) -> usize
        ensures { result + 1 ≡ length self.now }
    {
        self.steps.len()
    }

    /// Puts the number under the key, if it isn't there. Fails only when out of memory.
    pub(crate) fn add(&mut self, key: K, number: u64) -> Result<(), Fault>
        ensures ok { OnOk result (Puts K.eq (key ∷ []) number true (latest self.old) (latest self.new)) }
        ensures goes { Goes self.old self.new }
        ensures err { OnErr result (self.new ≡ self.old) }
    {
        match self.lists.get_index_of(&key) {
            Some(slot) => self.add_in(Spot { slot, number }),
            None => self.make(key, number),
        }
    }

    // Adds a new key, with one number.
    fn make(&mut self, key: K, number: u64) -> Result<(), Fault>
        requires { IsNew K.eq key (latest self.old) }
        ensures ok { OnOk result (Makes key number self.old self.new) }
        ensures err { OnErr result (self.new ≡ self.old) }
    {
        self.steps.reserve(1)?;
        self.lists.insert(key, PostingList::one(number))?;
        self.steps.push_reserved(Step::Made);
        Ok(())
    }

    // Adds the number to its list, if it isn't there.
    fn add_in(&mut self, spot: Spot) -> Result<(), Fault>
        requires { spot.slot < length (latest self.old) }
        ensures ok { OnOk result (Writes spot.slot (with_number spot.number (list_at spot.slot (latest self.old))) self.old self.new) }
        ensures err { OnErr result (self.new ≡ self.old) }
    {
        self.steps.reserve(1)?;
        let step = add_at(&mut self.lists, spot)?;
        self.steps.push_reserved(step);
        Ok(())
    }

    /// Takes the number away from the key, if it is there. Fails only when out of memory.
    pub(crate) fn remove(&mut self, key: &K, number: u64) -> Result<(), Fault>
        ensures ok { OnOk result (Puts K.eq (key.now ∷ []) number false (latest self.old) (latest self.new)) }
        ensures goes { Goes self.old self.new }
        ensures err { OnErr result (self.new ≡ self.old) }
    {
        match self.lists.get_index_of(key) {
            Some(slot) => self.remove_in(Spot { slot, number }),
            None => Ok(()),
        }
    }

    // Takes the number from its list, if it is there.
    fn remove_in(&mut self, spot: Spot) -> Result<(), Fault>
        requires { spot.slot < length (latest self.old) }
        ensures ok { OnOk result (Writes spot.slot (without_number spot.number (list_at spot.slot (latest self.old))) self.old self.new) }
        ensures err { OnErr result (self.new ≡ self.old) }
    {
        self.steps.reserve(1)?;
        let step = leave_at(&mut self.lists, spot);
        self.steps.push_reserved(step);
        self.removals = self.removals.saturating_add(1);
        Ok(())
    }

    /// Takes the number away from the leaving keys and puts it under the coming ones. Fails only when out of memory, and
    /// then all is as before.
    pub(crate) fn replace(
        &mut self,
        leaving: &[K],
        coming: Vec<K>,
        number: u64,
    ) -> Result<(), Fault>
        ensures ok { OnOk result (Replaces K.eq leaving.now coming.items number (latest self.old) (latest self.new)) }
        ensures goes { Goes self.old self.new }
        ensures err { OnErr result (self.new ≡ self.old) }
    {
        let mark = self.mark();
        match self.replace_each(leaving, coming, number) {
            Ok(()) => Ok(()),
            Err(fault) => {
                self.undo_to(mark);
                Err(fault)
            }
        }
    }

    // Moves the number as `replace` does, but where it fails some steps are done.
    fn replace_each(&mut self, leaving: &[K], coming: Vec<K>, number: u64) -> Result<(), Fault>
        ensures ok { OnOk result (Replaces K.eq leaving.now coming.items number (latest self.old) (latest self.new)) }
        ensures goes { Goes self.old self.new }
    {
        self.remove_each(leaving, number)?;
        self.add_each(coming, number)
    }

    // Takes the number away from the keys one after the other.
    fn remove_each(&mut self, keys: &[K], number: u64) -> Result<(), Fault>
        ensures ok { OnOk result (Puts K.eq keys.now number false (latest self.old) (latest self.new)) }
        ensures goes { Goes self.old self.new }
    {
        for key in keys {
            self.remove(key, number)?;
        }
        Ok(())
    }

    // Puts the number under the keys one after the other.
    fn add_each(&mut self, mut keys: Vec<K>, number: u64) -> Result<(), Fault>
        ensures ok { OnOk result (Puts K.eq keys.items number true (latest self.old) (latest self.new)) }
        ensures goes { Goes self.old self.new }
    {
        while let Some(key) = keys.pop() {
            self.add(key, number)?;
        }
        Ok(())
    }

    /// Takes steps back until there are as many as at the mark.
    pub(crate) fn undo_to(&mut self, mark: usize)
        requires { mark < length self.old }
        ensures { self.new ≡ drop (length self.old - (mark + 1)) self.old }
    {
        while self.mark() > mark {
            self.undo();
        }
    }

    // Takes the last step back.
    fn undo(&mut self)
        requires { 1 < length self.old }
        ensures { self.new ≡ drop 1 self.old }
    {
        if let Some(step) = self.steps.pop() {
            take_back(&mut self.lists, step);
        }
    }

    /// Forgets the steps, which can't be taken back any more.
    pub(crate) fn commit(&mut self)
        ensures one { length self.new ≡ 1 }
        ensures numbers { (key : K) → numbers_at K.eq key (latest self.new) ≡ numbers_at K.eq key (latest self.old) }
    {
        let alloc = self.allocator();
        let steps = replace(&mut self.steps, Vec::new(alloc));
        settle(&mut self.lists, &steps);
        self.steps = emptied(alloc, steps);
        if self.removals > self.lists.len() / 2 {
            drop_empty(&mut self.lists);
            self.removals = 0;
        }
    }
}

// Adds a number to its list, if it isn't there. Gives the step that takes it back. Fails only when out of memory.
fn add_at<K: Eq + Hash>(lists: &mut IndexMap<K, PostingList>, spot: Spot) -> Result<Step, Fault>
    requires { spot.slot < length lists.old.entries }
    ensures ok { OnOk result (version_of lists.new.entries ≡ with_list spot.slot (with_number spot.number (list_at spot.slot (version_of lists.old.entries))) (version_of lists.old.entries)) }
    ensures back { IfOk result (λ step. undone step lists.new.entries ≡ lists.old.entries) }
    ensures err { OnErr result (lists.new.entries ≡ lists.old.entries) }
{
    let alloc = *lists.allocator();
    let before = lists[spot.slot].add(alloc, spot.number)?;
    Ok(Step::Set(spot, before))
}

// Takes a number from its list, if it is there. Gives the step that takes it back.
fn leave_at<K: Eq + Hash>(lists: &mut IndexMap<K, PostingList>, spot: Spot) -> Step
    requires { spot.slot < length lists.old.entries }
    ensures removed { version_of lists.new.entries ≡ with_list spot.slot (without_number spot.number (list_at spot.slot (version_of lists.old.entries))) (version_of lists.old.entries) }
    ensures back { undone result lists.new.entries ≡ lists.old.entries }
{
    let before = lists[spot.slot].leave(spot.number);
    Step::Set(spot, before)
}

// Takes a step back.
fn take_back<K: Eq + Hash + Drop>(lists: &mut IndexMap<K, PostingList>, step: Step)
    ensures { lists.new.entries ≡ undone step lists.old.entries }
{
    match step {
        Step::Made => {
            lists.pop();
        }
        Step::Set(spot, before) => restore_at(lists, spot, before),
    }
}

// Gives a number in its list the entry from before a step.
fn restore_at<K: Eq + Hash>(lists: &mut IndexMap<K, PostingList>, spot: Spot, before: Option<bool>)
    ensures { lists.new.entries ≡ undone (Set spot before) lists.old.entries }
{
    let alloc = *lists.allocator();
    if let Some(list) = lists.get_index_mut(spot.slot) {
        list.restore(alloc, spot.number, before);
    }
}

// Takes out the entries of the numbers that left by these steps.
fn settle<K: Eq + Hash>(lists: &mut IndexMap<K, PostingList>, steps: &[Step])
    ensures { version_of lists.new.entries ≡ version_of lists.old.entries }
{
    for step in steps {
        if let Step::Set(spot, Some(true)) = *step {
            purge_at(lists, spot);
        }
    }
}

// A vector of no steps, which has the room of these, unless it is large.
fn emptied(alloc: Global, mut steps: Vec<Step>) -> Vec<Step>
    ensures { result.items ≡ [] }
{
    if steps.capacity() > SMALL_CHANGE {
        return Vec::new(alloc);
    }
    steps.clear();
    steps
}

// Takes out the entry of a number that left its list.
fn purge_at<K: Eq + Hash>(lists: &mut IndexMap<K, PostingList>, spot: Spot)
    ensures { version_of lists.new.entries ≡ version_of lists.old.entries }
{
    let alloc = *lists.allocator();
    if let Some(list) = lists.get_index_mut(spot.slot) {
        list.purge(alloc, spot.number);
    }
}

// Drops the keys with no number under them.
fn drop_empty<K: Eq + Hash + Drop>(lists: &mut IndexMap<K, PostingList>)
    ensures { (key : K) → numbers_at K.eq key (version_of lists.new.entries) ≡ numbers_at K.eq key (version_of lists.old.entries) }
{
    let _unique = lists.len();
    lists.retain(
        |_key: &K, list: &mut PostingList| -> bool
            ensures { (result ≡ is_nonempty list.old) × (list.new ≡ list.old) }
        { list.has_entries() },
    );
}
