//! Numbers that are found by their hashes.

ghost use Rattle.std.specs.Prelude.{◌≡◌, ◌+◌, ◌^◌, ◌<◌, ◌≤◌, ◌++◌, ◌∷◌, [], true, OnOk, OnErr, length};
ghost use Rattle.cy_network_columns.specs.Hashes.{IsFilled, has_hash, last_below};
ghost use Rattle.cy_network_columns.specs.internal.Chains.{Descend, IsLinked, hashes_of, placed_at};

use crate::chains::{Link, join_all, join_chain, last_with, remove};
use std::alloc::{AllocError, Global};
use std::marker::Model;

/// For how many numbers room is made at first.
const FIRST_ROOM: usize = 4;

/// The most numbers that there may be.
const MOST_NUMBERS: usize = 4294967295;

/// The numbers from 0 up, each with a hash and found by it. They stand in chains, as many as there is room for numbers, so that the
/// numbers with a hash are found in the time of one look-up, and a number takes eight bytes and four for each chain. What has the hashes
/// is kept elsewhere, and so are the names under which it is found: numbers with other contents may have one hash.
#[derive(Drop)]
pub struct HashIndex {
    links: Vec<Link>,
    /// The rank of the greatest number at each place.
    heads: Vec<u32>,
}

impl Model for HashIndex {
    ghost use Rattle.cy_network_columns.specs.Hashes.{Hashes};
    ghost use Rattle.cy_network_columns.specs.internal.Chains.{IsIndex, hashes_of, room_in};
    ghost use Rattle.std.specs.Prelude.{vec_capacity};

    ghost Value = { Hashes };

    ghost view = { λ x. record { hashes = hashes_of x.links.items; room = room_in (vec_capacity x.links) x.heads.items x.links.items } };

    ghost invariant = { λ x. IsIndex x.heads.items x.links.items };
}

// Spreads the numbers over more places. Fails only when out of memory, and then all is as before.
fn spread(links: &mut [Link], heads: &mut Vec<u32>, places: usize) -> Result<(), AllocError>
    requires some { 0 < places }
    requires small { length links.old < 2 ^ 32 }
    requires descend { Descend links.old }
    ensures linked { OnOk result (IsLinked (placed_at places (hashes_of links.old)) heads.new.items links.new) }
    ensures places { OnOk result (length heads.new.items ≡ places) }
    ensures hashes { OnOk result (hashes_of links.new ≡ hashes_of links.old) }
    ensures long { length links.new ≡ length links.old }
    ensures links { OnErr result (links.new ≡ links.old) }
    ensures heads { OnErr result (heads.new.items ≡ heads.old.items) }
{
    let mut wider = Vec::from_elem(*heads.allocator(), 0, places)?;
    join_all(&mut wider, links);
    *heads = wider;
    Ok(())
}

impl HashIndex {
    /// No numbers.
    pub fn new(alloc: Global) -> Self
        ensures { result.hashes ≡ [] }
    {
        HashIndex {
            links: Vec::new(alloc),
            heads: Vec::new(alloc),
        }
    }

    /// There are fewer than 2^32 numbers: a law.
    pub fn laws(&self)
        ensures { length self.now.hashes < 2 ^ 32 }
    {
        let _ = self.links.len();
    }

    /// Makes room for more numbers. Fails only when out of memory, or at 2^32 numbers.
    pub fn reserve(&mut self, more: usize) -> Result<(), AllocError>
        ensures hashes { self.new.hashes ≡ self.old.hashes }
        ensures ok { OnOk result (more ≤ self.new.room) }
    {
        let len = self.links.len();
        if more > MOST_NUMBERS - len {
            return Err(AllocError);
        }
        self.links.reserve(more)?;
        let places = self.heads.len();
        if len + more <= places {
            return Ok(());
        }
        spread(
            &mut self.links,
            &mut self.heads,
            (len + more).max(2 * places).max(FIRST_ROOM),
        )
    }

    /// Adds the next number, with its hash. There is room for it.
    pub fn push(&mut self, hash: u32)
        requires { 0 < self.old.room }
        ensures hashes { self.new.hashes ≡ self.old.hashes ++ hash ∷ [] }
        ensures room { self.new.room + 1 ≡ self.old.room }
    {
        let number = self.links.len();
        self.links.push_reserved(Link { hash, below: 0 });
        join_chain(&mut self.heads, &mut self.links, number, hash);
    }

    /// Removes a number. The last one becomes this number.
    pub fn swap_remove(&mut self, number: usize)
        requires { number < length self.old.hashes }
        ensures { IsFilled number self.old.hashes self.new.hashes }
    {
        remove(&mut self.heads, &mut self.links, number);
        let _ = self.links.pop();
    }

    /// The greatest number with a hash.
    pub fn last(&self, hash: u32) -> Option<usize>
        ensures { result ≡ last_below (has_hash self.now.hashes hash) (length self.now.hashes) }
    {
        let places = self.heads.len();
        if places == 0 {
            return None;
        }
        let place = hash as usize % places;
        last_with(&self.links, self.heads[place], hash)
    }

    /// The greatest number below another one with the same hash.
    pub fn previous(&self, hash: u32, number: usize) -> Option<usize>
        requires { has_hash self.now.hashes hash number ≡ true }
        ensures { result ≡ last_below (has_hash self.now.hashes hash) number }
    {
        last_with(&self.links, self.links[number].below, hash)
    }
}
