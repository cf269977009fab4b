//! Finite maps from texts, which keep the labels and the properties of a node.

ghost use Rattle.std.specs.Prelude.{◌≡◌, List, ℕ, [], Some, None, IsSome, IsOk, IfOk, IfErr, OnOk, OnErr, IsTrue, is_some};
ghost use Rattle.std.specs.Option.{option_copied};
ghost use Rattle.cy_graph.specs.Maps.{rises, value_at, with_value, without};
ghost use Rattle.cy_graph.specs.internal.Place.{IsAt, IsGapFor};

use crate::names::Names;
use cy_values::{Duplicate, Fault, Text};
use std::alloc::Global;
use std::collections::BTreeMap;
use std::marker::Model;

/// A map from texts to values, in the order of its keys. A clause sees the list of its entries.
#[derive(Debug, Drop)]
pub struct TextMap<V> {
    entries: Vec<(Text, V)>,
}

impl<V> Model for TextMap<V> {
    ghost Value = { List (List ℕ × V) };

    ghost view = { λ m. m.entries.items };

    ghost invariant = { λ m. IsTrue (rises m.entries.items) };
}

impl<V> TextMap<V> {
    /// The map with no entry.
    pub fn new(alloc: Global) -> Self
        ensures { result ≡ [] }
    {
        TextMap {
            entries: Vec::new(alloc),
        }
    }

    /// The entries by rising key.
    pub fn entries(&self) -> &[(Text, V)]
        ensures all { result.now ≡ self.now }
        ensures rising { IsTrue (rises self.now) }
    {
        &self.entries
    }

    /// The value at a key, if there is one.
    pub fn get(&self, key: &str) -> Option<&V>
        ensures { option_copied result ≡ value_at key.now self.now }
    {
        match self.search(key) {
            Ok(at) => Some(&self.entries[at].1),
            Err(_) => None,
        }
    }

    /// Lets each key share the text of an equal one that came before.
    pub(crate) fn share_keys(&mut self, names: &mut Names)
        ensures { self.new ≡ self.old }
    {
        share_each(&mut self.entries, names);
    }

    // Where the key is, or where it would go.
    fn search(&self, key: &str) -> Result<usize, usize>
        ensures found { IfOk result (IsAt key.now self.now) }
        ensures absent { IfErr result (IsGapFor key.now self.now) }
    {
        self.entries
            .binary_search_by(|entry| entry.0.as_str().cmp(key))
    }
}

fn share_each<V>(entries: &mut [(Text, V)], names: &mut Names)
    ensures { entries.new ≡ entries.old }
{
    for entry in entries.iter_mut() {
        names.share(&mut entry.0);
    }
}

impl<V: Drop> TextMap<V> {
    /// The map with no entry, and room for so many. Fails only when out of memory.
    pub fn with_capacity(alloc: Global, count: usize) -> Result<Self, Fault>
        ensures { IfOk result (λ map. map ≡ []) }
    {
        Ok(TextMap {
            entries: Vec::with_capacity(alloc, count)?,
        })
    }

    /// The map with the entries of an ordered map, in just the room that they need. Fails only when out of memory.
    #[tactic(auto, using(crate::proofs::Ordered::rises_in_order))]
    pub fn collected(alloc: Global, map: BTreeMap<Text, V>) -> Result<Self, Fault>
        ensures { IfOk result (λ collected. collected ≡ map.entries) }
    {
        let mut entries = Vec::with_capacity(alloc, map.len())?;
        for entry in map {
            entries.push(entry)?;
        }
        Ok(TextMap { entries })
    }

    /// Sets the value at a key. Fails only when out of memory, and then the map is as before. A key that is there
    /// takes no memory.
    pub fn insert(&mut self, key: Text, value: V) -> Result<(), Fault>
        ensures ok { OnOk result (self.new ≡ with_value key value self.old) }
        ensures err { OnErr result (self.new ≡ self.old) }
        ensures overwrite_succeeds { IsSome (value_at key self.old) → IsOk result }
    {
        match self.search(key.as_str()) {
            Ok(at) => {
                self.entries[at] = (key, value);
                Ok(())
            }
            Err(at) => Ok(self.entries.insert(at, (key, value))?),
        }
    }

    /// Removes what stands at a key, if anything does.
    pub fn remove(&mut self, key: &str)
        ensures { self.new ≡ without key.now self.old }
    {
        if let Ok(at) = self.search(key) {
            self.entries.remove(at);
        }
    }
}

impl<V: Duplicate> Duplicate for TextMap<V> {
    fn copy(&self, alloc: Global) -> Result<Self, Fault> {
        let mut entries = Vec::with_capacity(alloc, self.entries.len())?;
        for (key, value) in self.entries.iter() {
            entries.push((key.copy(alloc)?, value.copy(alloc)?))?;
        }
        Ok(TextMap { entries })
    }
}

impl<V: PartialEq> PartialEq for TextMap<V> {
    ghost use Rattle.std.specs.Prelude.{nat_eq, ◌&&◌};
    ghost use Rattle.std.specs.Cmp as laws_of;
    ghost use Rattle.std.specs.Cmp.Lexicographic.{pointwise, nat_list_eq_equiv, lists_per};

    ghost eq = { pointwise (λ x y. pointwise nat_eq x.0 y.0 && V.eq x.1 y.1) };

    ghost laws = { lists_per (laws_of.and_per (laws_of.on_per (λ t. t.0) (laws_of.partial_equiv_from_equiv nat_list_eq_equiv)) (laws_of.on_per (λ t. t.1) V.laws)) };

    fn eq(&self, other: &TextMap<V>) -> bool {
        self.entries == other.entries
    }
}

impl<V: Eq> Eq for TextMap<V> {
    ghost use Rattle.std.specs.Cmp.{and_equiv, on_equiv};
    ghost use Rattle.std.specs.Cmp.Lexicographic.{lists_equiv, nat_list_eq_equiv};

    ghost laws = { lists_equiv (and_equiv (on_equiv (λ t. t.0) nat_list_eq_equiv) (on_equiv (λ t. t.1) V.Eq.laws)) };
}
