//! Chains of numbers: the numbers at one place, the greatest first. The rank of a number is one more than it, and 0 is the rank of
//! none, so that a rank takes four bytes.

ghost use Rattle.std.specs.Prelude.{◌≡◌, ℕ, ◌+◌, ◌-◌, ◌^◌, ◌%◌, ◌<◌, ◌≤◌, true, Option, Some, None, IfSome, if◌then◌else◌, length, nat_eq, replicate, slice_get, slice_set};
ghost use Rattle.cy_network_columns.specs.Hashes.{has_hash, last_below};
ghost use Rattle.cy_network_columns.specs.internal.Chains.{Descend, IsIndex, IsLinked, AreChained, hashes_of, is_at, placed_at, rank_below, those_below, with_place, without};

/// The hash of a number, and the rank of the greatest number below it at the same place.
#[derive(Clone, Copy, Debug, Drop)]
pub(crate) struct Link {
    pub(crate) hash: u32,
    pub(crate) below: u32,
}

// The least number above another one in a chain, where the chain begins above that one.
fn above(links: &[Link], first: usize, number: usize) -> usize
    requires descend { Descend links.now }
    requires above { number < first }
    requires inside { first < length links.now }
    ensures above { number < result }
    ensures inside { result < length links.now }
    ensures last { IfSome (slice_get links.now result) (λ l. l.below ≤ number + 1) }
    ensures placed { (at : ℕ → Option ℕ) (place : ℕ) → AreChained at links.now → at first ≡ Some place → at result ≡ Some place }
{
    let mut above = first;
    while links[above].below as usize > number + 1 {
        above = links[above].below as usize - 1;
    }
    above
}

/// Takes a number out of the chain at its place.
pub(crate) fn leave_chain(heads: &mut [u32], links: &mut [Link], place: usize, number: usize)
    requires place { place < length heads.old }
    requires inside { number < length links.old }
    requires linked { (at : ℕ → Option ℕ) × IsLinked at heads.old links.old × (at number ≡ Some place) }
    ensures linked { (at : ℕ → Option ℕ) → IsLinked at heads.old links.old → at number ≡ Some place → IsLinked (without number at) heads.new links.new }
    ensures hashes { hashes_of links.new ≡ hashes_of links.old }
    ensures places { length heads.new ≡ length heads.old }
    ensures long { length links.new ≡ length links.old }
{
    let below = links[number].below;
    let rank = heads[place] as usize;
    if rank <= number + 1 {
        heads[place] = below;
    } else {
        let above = above(links, rank - 1, number);
        let hash = links[above].hash;
        links[above] = Link { hash, below };
    }
}

/// Gives a number that is in no chain a hash, and puts it into the chain at its place.
pub(crate) fn join_chain(heads: &mut [u32], links: &mut [Link], number: usize, hash: u32)
    requires some { 0 < length heads.old }
    requires inside { number < length links.old }
    requires small { number < 2 ^ 32 - 1 }
    requires linked { (at : ℕ → Option ℕ) × IsLinked at heads.old links.old × (at number ≡ None) }
    ensures linked { (at : ℕ → Option ℕ) → IsLinked at heads.old links.old → at number ≡ None → IsLinked (with_place number (hash % length heads.old) at) heads.new links.new }
    ensures hashes { hashes_of links.new ≡ slice_set (hashes_of links.old) number hash }
    ensures places { length heads.new ≡ length heads.old }
    ensures long { length links.new ≡ length links.old }
{
    let place = hash as usize % heads.len();
    let head = heads[place];
    let rank = head as usize;
    if rank <= number + 1 {
        links[number] = Link { hash, below: head };
        heads[place] = number as u32 + 1;
    } else {
        let above = above(links, rank - 1, number);
        let next = links[above];
        links[number] = Link {
            hash,
            below: next.below,
        };
        links[above] = Link {
            hash: next.hash,
            below: number as u32 + 1,
        };
    }
}

/// Links all numbers at the places of their hashes, where none was linked yet.
pub(crate) fn join_all(heads: &mut [u32], links: &mut [Link])
    requires some { 0 < length heads.old }
    requires none { heads.old ≡ replicate (length heads.old) 0 }
    requires small { length links.old < 2 ^ 32 }
    requires descend { Descend links.old }
    ensures linked { IsLinked (placed_at (length heads.old) (hashes_of links.old)) heads.new links.new }
    ensures hashes { hashes_of links.new ≡ hashes_of links.old }
    ensures places { length heads.new ≡ length heads.old }
    ensures long { length links.new ≡ length links.old }
{
    for number in 0..links.len() {
        let hash = links[number].hash;
        join_chain(heads, links, number, hash);
    }
}

/// Takes a number out of its chain; the last number becomes this one, and is in no chain as the last one.
pub(crate) fn remove(heads: &mut [u32], links: &mut [Link], number: usize)
    requires inside { number < length links.old }
    requires index { IsIndex heads.old links.old }
    ensures linked { IsLinked (those_below (length links.old - 1) (placed_at (length heads.old) (hashes_of links.new))) heads.new links.new }
    ensures hashes { (i : ℕ) → i + 1 < length links.old → slice_get (hashes_of links.new) i ≡ slice_get (hashes_of links.old) (if nat_eq number i then length links.old - 1 else i) }
    ensures places { length heads.new ≡ length heads.old }
    ensures long { length links.new ≡ length links.old }
{
    let last = links.len() - 1;
    let place = links[number].hash as usize % heads.len();
    leave_chain(heads, links, place, number);
    if number < last {
        let hash = links[last].hash;
        let place = hash as usize % heads.len();
        leave_chain(heads, links, place, last);
        join_chain(heads, links, number, hash);
    }
}

/// The greatest number with a hash, from one of a chain downwards.
pub(crate) fn last_with(links: &[Link], rank: u32, hash: u32) -> Option<usize>
    requires descend { Descend links.now }
    requires inside { rank ≤ length links.now }
    ensures { (at : ℕ → Option ℕ) (place bound : ℕ) → AreChained at links.now → rank ≡ rank_below (is_at at place) bound
        → ((i : ℕ) → has_hash (hashes_of links.now) hash i ≡ true → at i ≡ Some place) → result ≡ last_below (has_hash (hashes_of links.now) hash) bound }
{
    let mut rank = rank as usize;
    while rank > 0 {
        let number = rank - 1;
        let link = links[number];
        if link.hash == hash {
            return Some(number);
        }
        rank = link.below as usize;
    }
    None
}
