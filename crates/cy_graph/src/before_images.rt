//! The values that a change has to give back.

ghost use Rattle.std.specs.Prelude.{◌≡◌, ◌<◌, ◌↔◌, ◌++◌, ◌∷◌, [], None, length, is_some, option_to_list, nat_eq, IsSome, IfOk, IfErr, OnOk, OnErr};
ghost use Rattle.std.specs.Iterator.{item_count, YieldsFirstBy};
ghost use Rattle.std.specs.List.{IsDistinct};
ghost use Rattle.std.specs.Map.{keys_of};
ghost use Rattle.indexmap.specs.IndexMap.{spare};
ghost use Rattle.cy_graph.specs.internal.Images.{rest_of};
ghost use Rattle.cy_graph.specs.internal.Slots.{value_under};

use crate::faults::GraphFault;
use indexmap::{IndexMap, map};
use std::alloc::{AllocError, Global};
use std::marker::Model;

/// Values under numbers.
#[derive(Drop)]
enum Images<V> {
    /// At most one. Most changes are of one value, for which a map would be made and dropped.
    One(Option<(u64, V)>),
    Many(IndexMap<u64, V>),
}

/// Values as they were when a change began, each under its number, in the order in which they were kept.
#[derive(Drop)]
pub(crate) struct BeforeImages<V> {
    images: Images<V>,
}

impl<V> Model for BeforeImages<V> {
    ghost use Rattle.cy_graph.specs.internal.Images.{BeforeImages as KeptImages, images_of};

    ghost Value = { KeptImages V };

    ghost view = { λ b. images_of b.images };
}

impl<V: Drop> BeforeImages<V> {
    /// No value, and room for one.
    pub(crate) fn new() -> Self
        ensures { result.entries ≡ [] }
    {
        BeforeImages {
            images: Images::One(None),
        }
    }

    /// Whether a value is kept under a number.
    pub(crate) fn contains(&self, number: u64) -> bool
        ensures { result ≡ is_some (value_under number self.now.entries) }
    {
        match &self.images {
            Images::One(None) => false,
            Images::One(Some((only, _))) => *only == number,
            Images::Many(map) => map.contains_key(&number),
        }
    }

    /// Makes room for one more. Fails only when out of memory.
    pub(crate) fn reserve(&mut self, alloc: Global) -> Result<(), GraphFault>
        ensures entries { self.new.entries ≡ self.old.entries }
        ensures ok { OnOk result (0 < self.new.spare) }
        ensures fault { IfErr result (λ fault. fault ≡ GraphFault.NoMemory) }
    {
        match &mut self.images {
            Images::One(None) => Ok(()),
            Images::One(one) => {
                let map = spilled(alloc, one)?;
                self.images = Images::Many(map);
                Ok(())
            }
            Images::Many(map) => Ok(map.reserve(1)?),
        }
    }

    /// Keeps a value under a number that has none. There is room for it.
    #[tactic(auto, using(crate::proofs::Steps::inserted_last))]
    pub(crate) fn add(&mut self, number: u64, value: V)
        requires absent { value_under number self.old.entries ≡ None }
        requires room { 0 < self.old.spare }
        ensures { self.new.entries ≡ self.old.entries ++ (number, value) ∷ [] }
    {
        match &mut self.images {
            Images::One(one) => *one = Some((number, value)),
            Images::Many(map) => {
                map.insert(number, value).unwrap();
            }
        }
    }

    /// Takes out the value that was kept last, if there is one.
    pub(crate) fn pop(&mut self) -> Option<(u64, V)>
        ensures entries { self.old.entries ≡ self.new.entries ++ option_to_list result }
        ensures found { IsSome result ↔ (0 < length self.old.entries) }
    {
        match &mut self.images {
            Images::One(one) => one.take(),
            Images::Many(map) => map.pop(),
        }
    }

    /// The values with their numbers.
    pub(crate) fn iter(&self) -> Iter<'_, V>
        ensures values { result ≡ self.now.entries }
        ensures distinct { IsDistinct nat_eq (keys_of self.now.entries) }
    {
        match &self.images {
            Images::One(None) => Iter::new(Rest::One(None)),
            Images::One(Some((number, value))) => Iter::new(Rest::One(Some((*number, value)))),
            Images::Many(map) => many(map),
        }
    }
}

// The values of a map with their numbers.
fn many<V>(map: &IndexMap<u64, V>) -> Iter<'_, V>
    ensures values { result ≡ map.now.entries }
    ensures distinct { IsDistinct nat_eq (keys_of map.now.entries) }
{
    let _unique = map.len();
    Iter::new(Rest::Many(map.iter()))
}

// The value that may be kept, in a map with room for another. Fails only when out of memory, and then it stays.
fn spilled<V: Drop>(
    alloc: Global,
    one: &mut Option<(u64, V)>,
) -> Result<IndexMap<u64, V>, AllocError>
    ensures entries { IfOk result (λ map. map.entries ≡ option_to_list one.old) }
    ensures room { IfOk result (λ map. 0 < spare map) }
    ensures err { OnErr result (one.new ≡ one.old) }
{
    let mut map = IndexMap::with_capacity(alloc, 2)?;
    if let Some((number, value)) = one.take() {
        map.insert(number, value).unwrap();
    }
    Ok(map)
}

/// What is still to be given.
#[derive(Drop)]
enum Rest<'a, V> {
    One(Option<(u64, &'a V)>),
    Many(map::Iter<'a, u64, V>),
}

/// Values that were kept, with their numbers, in the order in which they were.
#[derive(Drop)]
pub(crate) struct Iter<'a, V> {
    rest: Rest<'a, V>,
}

impl<'a, V> Model for Iter<'a, V> {
    ghost use Rattle.std.specs.Prelude.{List, ℕ};
    ghost use Rattle.cy_graph.specs.internal.Images.{rest_of};

    ghost Value = { List (ℕ × V) };

    ghost view = { λ i. rest_of i.rest };
}

impl<'a, V> Iter<'a, V> {
    fn new(rest: Rest<'a, V>) -> Self
        ensures { result ≡ rest_of rest.entry }
    {
        Iter { rest }
    }
}

impl<'a, V> Iterator for Iter<'a, V> {
    type Item = (u64, &'a V);

    ghost next_gives = { YieldsFirstBy (λ p. (p.0, p.1.now)) (λ v. v) };

    ghost remaining = { item_count (λ v. v) };

    fn next(&mut self) -> Option<(u64, &'a V)> {
        match &mut self.rest {
            Rest::One(one) => one.take(),
            Rest::Many(images) => {
                let (number, value) = images.next()?;
                Some((*number, value))
            }
        }
    }
}
