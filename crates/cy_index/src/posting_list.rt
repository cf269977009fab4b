//! The numbers under one key.

ghost use Rattle.std.specs.Prelude.{◌≡◌, true, [], ◌∷◌, OnOk, OnErr, IfOk};
ghost use Rattle.std.specs.BTreeMap.{insert_entry, is_at};
ghost use Rattle.std.specs.Map.{keys_of, lookup, remove_entry, set_value};
ghost use Rattle.std.specs.Ordering.{nat_cmp};
ghost use Rattle.cy_index.specs.internal.Entries.{present, restored};
ghost use Rattle.cy_index.specs.internal.Numbers.{Rises, ids_of, is_nonempty, with_number, without_number};

use cy_values::{Fault, NodeId};
use std::alloc::Global;
use std::collections::BTreeMap;
use std::marker::Model;
use std::mem::replace;

/// Numbers, each with whether it is present.
#[derive(Drop)]
enum Numbers {
    /// One number. Most values of a property have one node, for which a map would take five times the memory.
    One(u64, bool),
    Many(BTreeMap<u64, bool>),
}

/// The numbers under one key, by rising number. One that leaves stays, as absent, until it is purged, so that each step
/// can be taken back without memory.
#[derive(Drop)]
pub(crate) struct PostingList {
    numbers: Numbers,
}

impl Model for PostingList {
    ghost use Rattle.cy_index.specs.internal.Entries.{Entries, entries_of};

    ghost Value = { Entries };

    ghost view = { λ l. entries_of l.numbers };
}

impl PostingList {
    /// One number, which is present.
    pub(crate) fn one(number: u64) -> Self
        ensures { result ≡ (number, true) ∷ [] }
    {
        PostingList {
            numbers: Numbers::One(number, true),
        }
    }

    /// Whether a number is present, where there is an entry for it.
    #[tactic(auto, using(crate::proofs::Entries::at_itself, crate::proofs::Entries::at_other, crate::proofs::Entries::rises_in_order))]
    fn entry(&self, number: u64) -> Option<bool>
        ensures entry { result ≡ lookup (is_at (nat_cmp number)) self.now }
        ensures rising { Rises 0 (keys_of self.now) }
    {
        match &self.numbers {
            Numbers::One(only, present) if *only == number => Some(*present),
            Numbers::One(_, _) => None,
            Numbers::Many(map) => {
                let _ordered = map.len();
                map.get(&number).copied()
            }
        }
    }

    /// Adds the number, if it isn't present. Gives its entry from before, with which `restore` takes this back. Fails
    /// only when out of memory.
    #[tactic(auto, using(crate::proofs::Entries::put_adds, crate::proofs::Entries::put_restored))]
    pub(crate) fn add(&mut self, alloc: Global, number: u64) -> Result<Option<bool>, Fault>
        ensures ok { OnOk result (present self.new ≡ with_number number (present self.old)) }
        ensures back { IfOk result (λ before. restored number before self.new ≡ self.old) }
        ensures err { OnErr result (self.new ≡ self.old) }
    {
        self.put(alloc, number)
    }

    /// Removes the number, if it is present. Gives its entry from before, with which `restore` takes this back.
    #[tactic(auto, using(crate::proofs::Entries::set_leaves, crate::proofs::Entries::set_restored))]
    pub(crate) fn leave(&mut self, number: u64) -> Option<bool>
        ensures present { present self.new ≡ without_number number (present self.old) }
        ensures back { restored number result self.new ≡ self.old }
    {
        self.set(number, false)
    }

    /// Gives a number the entry from before.
    pub(crate) fn restore(&mut self, alloc: Global, number: u64, before: Option<bool>)
        ensures { self.new ≡ restored number before self.old }
    {
        match before {
            Some(present) => {
                self.set(number, present);
            }
            None => self.remove(alloc, number),
        }
    }

    /// Takes out the entry of a number that left.
    #[tactic(auto, using(crate::proofs::Entries::present_removed))]
    pub(crate) fn purge(&mut self, alloc: Global, number: u64)
        ensures { present self.new ≡ present self.old }
    {
        if self.entry(number) == Some(false) {
            self.remove(alloc, number);
        }
    }

    /// Whether there is any entry.
    #[tactic(auto, using(crate::proofs::Entries::nonempty))]
    pub(crate) fn has_entries(&self) -> bool
        ensures { result ≡ is_nonempty self.now }
    {
        match &self.numbers {
            Numbers::One(_, _) => true,
            Numbers::Many(map) => !map.is_empty(),
        }
    }

    /// The nodes whose numbers are present. Fails only when out of memory.
    pub(crate) fn ids(&self, alloc: Global) -> Result<Vec<NodeId>, Fault>
        ensures ids { IfOk result (λ ids. ids.items ≡ ids_of (present self.now)) }
        ensures rising { Rises 0 (present self.now) }
    {
        match &self.numbers {
            Numbers::One(only, true) => Ok(vec![in alloc; NodeId(*only)]?),
            Numbers::One(_, false) => Ok(Vec::new(alloc)),
            Numbers::Many(map) => ids_in(alloc, map),
        }
    }

    // Sets that a number is present, where there is an entry for it, or adds one. Gives the entry from before, which is found on the
    // way. Fails only when out of memory.
    #[tactic(auto, using(crate::proofs::Entries::at_itself, crate::proofs::Entries::at_other, crate::proofs::Entries::put_here, crate::proofs::Entries::rises_in_order))]
    fn put(&mut self, alloc: Global, number: u64) -> Result<Option<bool>, Fault>
        ensures before { IfOk result (λ before. before ≡ lookup (is_at (nat_cmp number)) self.old) }
        ensures ok { OnOk result (self.new ≡ insert_entry nat_cmp self.old number true) }
        ensures err { OnErr result (self.new ≡ self.old) }
        ensures rising { Rises 0 (keys_of self.old) }
    {
        match &mut self.numbers {
            Numbers::One(only, entry) => {
                if *only == number {
                    return Ok(Some(replace(entry, true)));
                }
                let mut map = BTreeMap::new(alloc);
                map.insert(*only, *entry)?;
                map.insert(number, true)?;
                self.numbers = Numbers::Many(map);
                Ok(None)
            }
            Numbers::Many(map) => {
                let _ordered = map.len();
                Ok(map.insert(number, true)?)
            }
        }
    }

    // Sets whether a number is present, where there is an entry for it, which it gives as it was.
    #[tactic(auto, using(crate::proofs::Entries::at_itself, crate::proofs::Entries::at_other, crate::proofs::Entries::not_set, crate::proofs::Entries::rises_in_order))]
    fn set(&mut self, number: u64, present: bool) -> Option<bool>
        ensures before { result ≡ lookup (is_at (nat_cmp number)) self.old }
        ensures set { self.new ≡ set_value (is_at (nat_cmp number)) self.old present }
        ensures rising { Rises 0 (keys_of self.old) }
    {
        match &mut self.numbers {
            Numbers::One(only, entry) => {
                if *only == number {
                    return Some(replace(entry, present));
                }
                None
            }
            Numbers::Many(map) => {
                let _ordered = map.len();
                match map.get_mut(&number) {
                    Some(entry) => Some(replace(entry, present)),
                    None => None,
                }
            }
        }
    }

    // Takes out the entry of a number.
    #[tactic(auto, using(crate::proofs::Entries::at_itself, crate::proofs::Entries::at_other))]
    fn remove(&mut self, alloc: Global, number: u64)
        ensures { self.new ≡ remove_entry (is_at (nat_cmp number)) self.old }
    {
        match &mut self.numbers {
            Numbers::One(only, _) => {
                if *only == number {
                    self.numbers = Numbers::Many(BTreeMap::new(alloc));
                }
            }
            Numbers::Many(map) => {
                map.remove(&number);
            }
        }
    }
}

// The nodes whose numbers are present in a map.
#[tactic(auto, using(crate::proofs::Entries::present_in_order))]
fn ids_in(alloc: Global, map: &BTreeMap<u64, bool>) -> Result<Vec<NodeId>, Fault>
    ensures ids { IfOk result (λ ids. ids.items ≡ ids_of (present map.now.entries)) }
    ensures rising { Rises 0 (present map.now.entries) }
{
    let mut ids = Vec::with_capacity(alloc, map.len())?;
    for (number, present) in map {
        if *present {
            ids.push(NodeId(*number))?;
        }
    }
    Ok(ids)
}
