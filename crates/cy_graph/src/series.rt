//! Values under numbers that rise and are never used again, with one change at a time that can be taken back.

ghost use Rattle.std.specs.Prelude.{◌≡◌, ◌≤◌, ◌<◌, ◌↔◌, ◌++◌, ◌⊎◌, IsTrue, IsSome, IsNone, IfSome, IfOk, IfErr, OnOk, OnErr, IsErrOf, Some, None, Bool, true, not, filter, is_some, map, slice_get, drop, length, nat_eq};
ghost use Rattle.std.specs.Option.{option_copied, option_map};
ghost use Rattle.std.specs.List.{IsDistinct};
ghost use Rattle.std.specs.Map.{keys_of};
ghost use Rattle.cy_graph.specs.Graph.{number_end};
ghost use Rattle.cy_graph.specs.internal.Differences.{AreDifferences, has_still, changed_of, added_of};
ghost use Rattle.cy_graph.specs.internal.Series.{Keeps, KeepsNothing, Changes, ChangesNothing};
ghost use Rattle.cy_graph.specs.internal.Slots.{RiseFrom, value_under, slot_at, live, restored};
ghost use Rattle.cy_graph.specs.internal.Versions.{IsNumbered, empty_from, with_last, with_edited, without_number};
ghost use Rattle.cy_graph.specs.Model.{SeriesVersions};

use crate::before_images::BeforeImages;
use crate::faults::GraphFault;
use crate::iterators::Values;
use cy_values::{Duplicate, Fault};
use indexmap::IndexMap;
use smallvec::SmallVec;
use std::alloc::Global;
use std::marker::Model;

/// Numbers whose value differs from when the change began, each with the value that it had. Mostly there is one, which then takes
/// no memory.
pub(crate) type Differing<'a, V> = SmallVec<(u64, Option<&'a V>), 1>;

/// The first number that is never given out, 2^40 + 1.
const NUMBER_END: u64 = (1 << 40) + 1;

/// What is to be made of a value.
pub(crate) trait Edit<V>: Drop {
    ghost edited: { Self → V → V };

    /// Whether the value would change.
    fn changes(&self, value: &V) -> bool
        ensures { IsTrue (not result) → edited self.now value.now ≡ value.now };

    /// Makes the change. Fails only when out of memory, and then the value is as before.
    fn apply(self, value: &mut V) -> Result<(), Fault>
        ensures ok { OnOk result (value.new ≡ edited self value.old) }
        ensures err { OnErr result (value.new ≡ value.old) };
}

// What a rollback goes back to.
#[derive(Drop)]
struct Start<V> {
    /// How many slots there were.
    slots: usize,
    /// How many of them were empty.
    empty: usize,
    /// The next number.
    next: u64,
    /// The values of those slots that were changed or removed since, as they were.
    before: BeforeImages<V>,
}

impl<V: Duplicate + Drop> Start<V> {
    // Whether the value in this slot is as it was when the change began, so that it has to be kept before it is
    // changed.
    fn is_first_change(&self, slot: usize, number: u64) -> bool
        ensures { IsTrue result ↔ ((slot < self.now.slots) × (value_under number self.now.before.entries ≡ None)) }
    {
        slot < self.slots && !self.before.contains(number)
    }

    // Keeps a copy of the value in this slot, if this is its first change.
    fn keep(&mut self, alloc: Global, slot: usize, number: u64, value: &V) -> Result<(), GraphFault>
        ensures ok { OnOk result (Keeps slot number value.now self.old self.new) }
        ensures fault { IfErr result (λ fault. fault ≡ GraphFault.NoMemory) }
        ensures err { OnErr result (KeepsNothing self.old self.new) }
    {
        if self.is_first_change(slot, number) {
            self.before.reserve(alloc)?;
            self.before.add(number, value.copy(alloc)?);
        }
        Ok(())
    }

    // Keeps the value that was taken out of this slot, if this is its first change.
    fn keep_taken(&mut self, slot: usize, number: u64, value: V)
        requires room { 0 < self.old.before.spare }
        ensures { Keeps slot number value self.old self.new }
    {
        if self.is_first_change(slot, number) {
            self.before.add(number, value);
        }
    }
}

/// Values under numbers. Their slots stand in the map by rising number, since numbers rise and are never used again. A
/// removed value leaves its slot empty, so no other moves; a commit drops the empty slots once they are more than half.
#[derive(Drop)]
pub(crate) struct Series<V> {
    slots: IndexMap<u64, Option<V>>,
    /// About how many slots are empty. Nothing but the time of a compaction depends on it.
    empty: usize,
    next: u64,
    change: Option<Start<V>>,
}

impl<V> Model for Series<V> {
    ghost use Rattle.cy_graph.specs.Model.{SeriesVersions};
    ghost use Rattle.cy_graph.specs.internal.Series.{series_versions, IsKept};

    ghost Value = { SeriesVersions V };

    ghost view = { λ s. series_versions s.slots.entries s.next s.change };

    ghost invariant = { λ s. IsKept s.slots.entries s.next s.change };
}

impl<V: Duplicate + Drop> Series<V> {
    /// A series with nothing in it, whose next number is this one, from 1 to 2^40 + 1.
    pub(crate) fn starting_at(alloc: Global, next: u64) -> Self
        requires from { 1 ≤ next }
        requires to { next ≤ number_end }
        ensures { result ≡ empty_from next }
    {
        Series {
            slots: IndexMap::new(alloc),
            empty: 0,
            next,
            change: None,
        }
    }

    /// What holds of every series: the numbers rise from 1 and stay below the next one.
    pub(crate) fn laws(&self)
        ensures { IsNumbered self.now.now }
    {
        let _slots = &self.slots;
    }

    /// The value under a number, if there is one.
    pub(crate) fn get(&self, number: u64) -> Option<&V>
        ensures value { option_copied result ≡ value_under number self.now.now.entries }
        ensures numbered { IsNumbered self.now.now }
    {
        slot_of(&self.slots, number)?.1.as_ref()
    }

    /// The values with their numbers, by rising number.
    pub(crate) fn values(&self) -> Values<'_, V>
        ensures { result ≡ self.now.now.entries }
    {
        Values::new(self.slots.iter())
    }

    /// Opens a change, which `commit` or `rollback` ends.
    pub(crate) fn begin(&mut self)
        requires { IsNone self.old.was }
        ensures { self.new ≡ record self.old { was = Some self.old.now } }
    {
        self.change = Some(Start {
            slots: self.slots.len(),
            empty: self.empty,
            next: self.next,
            before: BeforeImages::new(),
        });
    }

    /// The number after the last one that was given out.
    pub(crate) fn next(&self) -> u64
        ensures { result ≡ self.now.now.next }
    {
        self.next
    }

    /// The number that the next value gets. `Full` where number 2^40 was given out.
    pub(crate) fn next_number(&self) -> Result<u64, GraphFault>
        ensures number { IfOk result (λ number. number ≡ self.now.now.next) }
        ensures full { IsErrOf result GraphFault.Full ↔ (self.now.now.next ≡ number_end) }
        ensures fault { IfErr result (λ fault. fault ≡ GraphFault.Full) }
    {
        if self.next == NUMBER_END {
            return Err(GraphFault::Full);
        }
        Ok(self.next)
    }

    /// Adds a value under the next number, which it gives. `Full` where number 2^40 was given out; else it fails only
    /// when out of memory.
    pub(crate) fn add(&mut self, value: V) -> Result<u64, GraphFault>
        ensures number { IfOk result (λ number. number ≡ self.old.now.next) }
        ensures added { OnOk result (self.new ≡ record self.old { now = with_last value self.old.now }) }
        ensures full { IsErrOf result GraphFault.Full ↔ (self.old.now.next ≡ number_end) }
        ensures fault { IfErr result (λ fault. (fault ≡ GraphFault.Full) ⊎ (fault ≡ GraphFault.NoMemory)) }
        ensures err { OnErr result (self.new ≡ self.old) }
    {
        if self.next == NUMBER_END {
            return Err(GraphFault::Full);
        }
        let number = self.next;
        self.slots.insert(number, Some(value))?;
        self.next += 1;
        Ok(number)
    }

    // Whether the edit would change the value under a number.
    fn would_change<E: Edit<V>>(&self, number: u64, edit: &E) -> bool
        ensures { IsTrue (not result) → with_edited (E.edited edit.now) number self.now.now ≡ self.now.now }
    {
        match self.get(number) {
            Some(value) => edit.changes(value),
            None => false,
        }
    }

    /// Changes the value under a number. A value that would stay the same is left alone. Fails only when out of memory.
    pub(crate) fn edit<E: Edit<V>>(&mut self, number: u64, edit: E) -> Result<(), GraphFault>
        requires open { IsSome self.old.was }
        requires there { IsSome (value_under number self.old.now.entries) }
        ensures ok { OnOk result (self.new ≡ record self.old { now = with_edited (E.edited edit) number self.old.now }) }
        ensures fault { IfErr result (λ fault. fault ≡ GraphFault.NoMemory) }
        ensures err { OnErr result (self.new ≡ self.old) }
    {
        if !self.would_change(number, &edit) {
            return Ok(());
        }
        let alloc = *self.slots.allocator();
        let Some(mut start) = self.change.take() else {
            return Ok(());
        };
        let done = edit_in_change(alloc, &mut self.slots, &mut start, number, edit);
        self.change = Some(start);
        done
    }

    /// Removes the value under a number, which is not used again. Fails only when out of memory.
    pub(crate) fn remove(&mut self, number: u64) -> Result<(), GraphFault>
        requires open { IsSome self.old.was }
        requires there { IsSome (value_under number self.old.now.entries) }
        ensures ok { OnOk result (self.new ≡ record self.old { now = without_number number self.old.now }) }
        ensures fault { IfErr result (λ fault. fault ≡ GraphFault.NoMemory) }
        ensures err { OnErr result (self.new ≡ self.old) }
    {
        let Some(mut start) = self.change.take() else {
            return Ok(());
        };
        let done = remove_in_change(&mut self.slots, &mut start, number);
        self.change = Some(start);
        if done.is_ok() {
            self.empty = self.empty.saturating_add(1);
        }
        done
    }

    /// Ends the change: what it did stays.
    pub(crate) fn commit(&mut self)
        ensures { self.new ≡ record self.old { was = None } }
    {
        self.change = None;
        if self.empty > self.slots.len() / 2 {
            drop_empty(&mut self.slots);
            self.empty = 0;
        }
    }

    /// Ends the change: the values are as they were when it began, and so is the next number.
    pub(crate) fn rollback(&mut self)
        requires { IsSome self.old.was }
        ensures { IfSome self.old.was (λ before. self.new ≡ record { now = before; was = None }) }
    {
        if let Some(start) = self.change.take() {
            self.slots.truncate(start.slots);
            put_back(&mut self.slots, start.before);
            self.empty = start.empty;
            self.next = start.next;
        }
    }
}

impl<V: Duplicate + Eq + Drop> Series<V> {
    /// The numbers whose value differs from when the change began, each once, with the value that they had. Fails
    /// only when out of memory.
    pub(crate) fn differing(&self, alloc: Global) -> Result<Differing<'_, V>, GraphFault>
        requires open { IsSome self.now.was }
        requires decides { (x y : V) → V.eq x y ≡ true → x ≡ y }
        ensures ok { IfOk result (λ found. IfSome self.now.was (λ before. AreDifferences before self.now.now (map (λ f. (f.0, option_copied f.1)) found.items))) }
        ensures numbered { OnOk result (IsNumbered self.now.now × IfSome self.now.was IsNumbered) }
        ensures fault { IfErr result (λ fault. fault ≡ GraphFault.NoMemory) }
    {
        let Some(start) = &self.change else {
            return Ok(SmallVec::new(alloc));
        };
        let mut found = self.changed(alloc, &start.before)?;
        push_added(&mut found, &self.slots, start.slots)?;
        Ok(found)
    }

    // Those of the kept values whose number has another value now, or none.
    fn changed<'a>(
        &self,
        alloc: Global,
        kept: &'a BeforeImages<V>,
    ) -> Result<Differing<'a, V>, GraphFault>
        ensures distinct { OnOk result (IsDistinct nat_eq (keys_of kept.now.entries)) }
        ensures ok { IfOk result (λ found. map (λ f. (f.0, option_copied f.1)) found.items ≡ changed_of V.eq self.now.now kept.now.entries) }
        ensures fault { IfErr result (λ fault. fault ≡ GraphFault.NoMemory) }
    {
        let mut found = SmallVec::new(alloc);
        for (number, value) in kept.iter() {
            if !self.has(number, value) {
                found.push((number, Some(value)))?;
            }
        }
        Ok(found)
    }

    // Whether the number has this very value.
    fn has(&self, number: u64, value: &V) -> bool
        ensures { result ≡ has_still V.eq self.now.now (number, value.now) }
    {
        self.get(number) == Some(value)
    }
}

// Adds the values in the slots from a place on, which weren't there before.
fn push_added<V>(
    found: &mut Differing<'_, V>,
    slots: &IndexMap<u64, Option<V>>,
    from: usize,
) -> Result<(), GraphFault>
    requires { from ≤ length slots.now.entries }
    ensures ok { OnOk result (map (λ f. (f.0, option_copied f.1)) found.new.items ≡ map (λ f. (f.0, option_copied f.1)) found.old.items ++ added_of (drop from slots.now.entries)) }
    ensures fault { IfErr result (λ fault. fault ≡ GraphFault.NoMemory) }
{
    let Some(added) = slots.get_range(from..) else {
        return Ok(());
    };
    for (number, slot) in added.iter() {
        if slot.is_some() {
            found.push((*number, None))?;
        }
    }
    Ok(())
}

// Drops the empty slots.
fn drop_empty<V: Drop>(slots: &mut IndexMap<u64, Option<V>>)
    ensures { slots.new.entries ≡ filter (λ e. is_some e.1) slots.old.entries }
{
    slots.retain(
        |_number: &u64, slot: &mut Option<V>| -> bool
            ensures { (result ≡ is_some slot.old) × (slot.new ≡ slot.old) }
        { slot.is_some() },
    );
}

// Puts the values that were kept back into their slots.
fn put_back<V: Drop>(slots: &mut IndexMap<u64, Option<V>>, mut before: BeforeImages<V>)
    requires { RiseFrom 1 number_end slots.old.entries }
    ensures { slots.new.entries ≡ restored before.entries slots.old.entries }
{
    while let Some((number, value)) = before.pop() {
        if let Some(slot) = slots.get_mut(&number) {
            *slot = Some(value);
        }
    }
}

// The slot of a number with its place, if there is one. As long as none before it was dropped it stands at the place that its number
// gives, and isn't looked up by its hash.
fn slot_of<V>(slots: &IndexMap<u64, Option<V>>, number: u64) -> Option<(usize, &Option<V>)>
    ensures slot { option_map (λ found. found.1.now) result ≡ slot_at number slots.now.entries }
    ensures place { IfSome result (λ found. slice_get slots.now.entries found.0 ≡ Some (number, found.1.now)) }
{
    let place = (number as usize).saturating_sub(1);
    if let Some((found, slot)) = slots.get_index(place)
        && *found == number
    {
        return Some((place, slot));
    }
    let (place, _number, slot) = slots.get_full(&number)?;
    Some((place, slot))
}

// The place of a number's slot, with the value, if there is one.
fn place_of<V>(slots: &IndexMap<u64, Option<V>>, number: u64) -> Option<(usize, &V)>
    requires { RiseFrom 1 number_end slots.now.entries }
    ensures place { IfSome result (λ found. slice_get slots.now.entries found.0 ≡ Some (number, Some found.1.now)) }
    ensures found { is_some result ≡ is_some (value_under number (live slots.now.entries)) }
{
    let (place, slot) = slot_of(slots, number)?;
    Some((place, slot.as_ref()?))
}

// Changes a value, once that from the beginning of the change is kept.
fn edit_in_change<V: Duplicate + Drop, E: Edit<V>>(
    alloc: Global,
    slots: &mut IndexMap<u64, Option<V>>,
    start: &mut Start<V>,
    number: u64,
    edit: E,
) -> Result<(), GraphFault>
    requires rising { RiseFrom 1 number_end slots.old.entries }
    requires there { IsSome (value_under number (live slots.old.entries)) }
    ensures ok { OnOk result (Changes number (λ value. Some (E.edited edit value)) slots.old.entries slots.new.entries start.old start.new) }
    ensures fault { IfErr result (λ fault. fault ≡ GraphFault.NoMemory) }
    ensures err { OnErr result (ChangesNothing number slots.old.entries slots.new.entries start.old start.new) }
{
    let Some((slot, value)) = place_of(slots, number) else {
        return Ok(());
    };
    start.keep(alloc, slot, number, value)?;
    Ok(edit_in(&mut slots[slot], edit)?)
}

// Changes the value in a slot.
fn edit_in<V: Drop, E: Edit<V>>(slot: &mut Option<V>, edit: E) -> Result<(), Fault>
    ensures ok { OnOk result (slot.new ≡ option_map (E.edited edit) slot.old) }
    ensures err { OnErr result (slot.new ≡ slot.old) }
{
    match slot {
        None => Ok(()),
        Some(value) => edit.apply(value),
    }
}

// Takes a value out of its slot, and keeps it where it stood when the change began.
fn remove_in_change<V: Duplicate + Drop>(
    slots: &mut IndexMap<u64, Option<V>>,
    start: &mut Start<V>,
    number: u64,
) -> Result<(), GraphFault>
    requires rising { RiseFrom 1 number_end slots.old.entries }
    requires there { IsSome (value_under number (live slots.old.entries)) }
    ensures ok { OnOk result (Changes number (λ _. None) slots.old.entries slots.new.entries start.old start.new) }
    ensures fault { IfErr result (λ fault. fault ≡ GraphFault.NoMemory) }
    ensures err { OnErr result (ChangesNothing number slots.old.entries slots.new.entries start.old start.new) }
{
    let Some((slot, _value)) = place_of(slots, number) else {
        return Ok(());
    };
    start.before.reserve(*slots.allocator())?;
    if let Some(value) = slots[slot].take() {
        start.keep_taken(slot, number, value);
    }
    Ok(())
}
