//! Look-ups that are wanted, each once. Each call fails only when out of memory.

ghost use Rattle.std.specs.Prelude.{◌≡◌, ◌+◌, ◌++◌, ◌≤◌, [], IfOk, OnOk, OnErr, if◌then◌else◌, is_some, length, not};
ghost use Rattle.std.specs.BTreeMap.{insert_entry};
ghost use Rattle.std.specs.List.{position_from};
ghost use Rattle.std.specs.Map.{lookup};
ghost use Rattle.cy_planner_algebra.specs.WellFormed.{greatest_width};
ghost use Rattle.cy_planner_rows.specs.Places as places;
ghost use Rattle.cy_planner_rows.specs.internal.WantedLists as spec;

use crate::places::Wanted;
use cy_planner_algebra::Attribute;
use cy_values::{Fault, Text};
use std::alloc::Global;
use std::collections::BTreeMap;
use std::collections::btree_map::Entry;
use std::marker::Model;

/// Look-ups that are wanted, each once, in the order in which they were added.
#[derive(Drop)]
pub struct WantedList {
    wanted: Vec<Wanted>,
    /// Where each of them stands, by its words. The map is ordered, since keys can be chosen whose hashes collide.
    places: BTreeMap<Vec<u64>, usize>,
}

impl Model for WantedList {
    ghost use Rattle.std.specs.Prelude.{List};
    ghost use Rattle.cy_planner_rows.specs.declared.places.Wanted.{Wanted};
    ghost use Rattle.cy_planner_rows.specs.internal.WantedLists.{ArePlaced};

    ghost Value = { List Wanted };

    ghost view = { λ l. l.wanted.items };

    ghost invariant = { λ l. ArePlaced l.places.entries l.wanted.items };
}

impl WantedList {
    /// A list without a look-up.
    pub fn new(alloc: Global) -> Self
        ensures { result ≡ [] }
    {
        WantedList {
            wanted: Vec::new(alloc),
            places: BTreeMap::new(alloc),
        }
    }

    pub fn len(&self) -> usize
        ensures { result ≡ length self.now }
    {
        self.wanted.len()
    }

    pub fn as_slice(&self) -> &[Wanted]
        ensures { result.now ≡ self.now }
    {
        self.wanted.as_slice()
    }

    /// Where the look-up with these words stands.
    fn find(&self, words: &[u64]) -> Option<usize>
        ensures { result ≡ position_from (spec.has_words words.now) 0 self.now }
    {
        self.places.get(words).copied()
    }

    /// Adds a look-up, unless it is there.
    pub fn add(&mut self, asked: Wanted) -> Result<(), Fault>
        ensures { OnOk result (self.new ≡ places.added self.old asked) }
    {
        let alloc = *self.wanted.allocator();
        let words = words_of(alloc, asked.column, &asked.attribute)?;
        let place = self.wanted.len();
        self.wanted.reserve(1)?;
        if add_place(&mut self.places, words, place)? {
            self.wanted.push_reserved(asked);
        }
        Ok(())
    }

    /// The column of a look-up, where they stand from a column on; the column after them, if it isn't wanted.
    pub fn place(
        &self,
        alloc: Global,
        first: usize,
        column: usize,
        attribute: &Attribute,
    ) -> Result<usize, Fault>
        requires { first + length self.now ≤ greatest_width }
        ensures { IfOk result (λ place. place ≡ places.place first self.now column attribute.now) }
    {
        let words = words_of(alloc, column, attribute)?;
        match self.find(words.as_slice()) {
            Some(place) => Ok(first + place),
            None => Ok(first + self.len()),
        }
    }
}

/// Gives the words a place, unless they have one, and tells whether they are new.
fn add_place(
    places: &mut BTreeMap<Vec<u64>, usize>,
    words: Vec<u64>,
    place: usize,
) -> Result<bool, Fault>
    ensures new { IfOk result (λ new. new ≡ not (is_some (lookup (spec.has words.items) places.old.entries))) }
    ensures places { IfOk result (λ new. places.new.entries ≡ (if new then insert_entry spec.by_items places.old.entries words place else places.old.entries)) }
    ensures err { OnErr result (places.new.entries ≡ places.old.entries) }
{
    match places.entry(words)? {
        Entry::Vacant(entry) => {
            let _ = entry.insert(place);
            Ok(true)
        }
        Entry::Occupied(_) => Ok(false),
    }
}

fn add_bytes(words: &mut Vec<u64>, text: &Text) -> Result<(), Fault>
    ensures { OnOk result (words.new.items ≡ words.old.items ++ text.now) }
{
    for byte in text.as_str().as_bytes() {
        words.push(u64::from(*byte))?;
    }
    Ok(())
}

/// The words of a look-up, by which it differs from others.
fn words_of(alloc: Global, column: usize, attribute: &Attribute) -> Result<Vec<u64>, Fault>
    ensures { IfOk result (λ words. words.items ≡ spec.words_of column attribute.now) }
{
    let mut words = Vec::new(alloc);
    words.push(column as u64)?;
    match attribute {
        Attribute::Property(key) => {
            words.push(0)?;
            add_bytes(&mut words, key)?;
        }
        Attribute::RelType => words.push(1)?,
        Attribute::Labels => words.push(2)?,
    }
    Ok(words)
}
