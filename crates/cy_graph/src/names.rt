//! Names of labels, types and keys, whose texts are shared.

ghost use Rattle.std.specs.Prelude.{◌≡◌};

use cy_values::{Duplicate, Text};
use std::alloc::{AllocError, Global};

/// How many places there are for names.
const PLACES: usize = 512;

/// How many bytes the longest name has that is kept.
const LONGEST_NAME: usize = 64;

/// The last two names of one place.
#[derive(Drop)]
struct Place {
    newer: Option<Text>,
    older: Option<Text>,
}

impl Place {
    fn new() -> Self {
        Place {
            newer: None,
            older: None,
        }
    }

    // Lets the name share the text of an equal one that is kept here, or else keeps it.
    fn share(&mut self, alloc: Global, name: &mut Text)
        ensures { name.new ≡ name.old }
    {
        if shares(alloc, name, &self.newer) || shares(alloc, name, &self.older) {
            return;
        }
        self.older = self.newer.take();
        self.newer = name.copy(alloc).ok();
    }
}

/// Names that came last, of at most 64 bytes each: a name has one place by its bytes, at which the last two stay. So what is kept
/// is bounded, and a name takes no more time for those that came before it.
#[derive(Drop)]
pub(crate) struct Names {
    /// None before the first name.
    places: Vec<Place>,
}

impl Names {
    pub(crate) fn new(alloc: Global) -> Self {
        Names {
            places: Vec::new(alloc),
        }
    }

    /// Lets a name share the text of an equal one that came before. Where none is kept, or there is no memory, it has its own.
    pub(crate) fn share(&mut self, name: &mut Text)
        ensures { name.new ≡ name.old }
    {
        if name.as_str().len() > LONGEST_NAME {
            return;
        }
        let alloc = *self.places.allocator();
        if self.places.is_empty()
            && let Ok(places) = empty_places(alloc)
        {
            self.places = places;
        }
        if let Some(place) = self.places.get_mut(place_of(name.as_str())) {
            place.share(alloc, name);
        }
    }
}

fn empty_places(alloc: Global) -> Result<Vec<Place>, AllocError> {
    let mut places = Vec::with_capacity(alloc, PLACES)?;
    for _ in 0..PLACES {
        places.push(Place::new())?;
    }
    Ok(places)
}

// The place of a name, by its bytes.
fn place_of(name: &str) -> usize {
    let mut hash: usize = 0;
    for byte in name.as_bytes() {
        hash = (hash ^ usize::from(*byte)).wrapping_mul(0x0100_0193);
    }
    hash % PLACES
}

// Lets the name share the text that is kept, if there is one and it is equal, and tells so.
fn shares(alloc: Global, name: &mut Text, kept: &Option<Text>) -> bool
    ensures { name.new ≡ name.old }
{
    match kept {
        Some(text) if text.as_str() == name.as_str() => {
            if let Ok(copy) = text.copy(alloc) {
                *name = copy;
            }
            true
        }
        _ => false,
    }
}
