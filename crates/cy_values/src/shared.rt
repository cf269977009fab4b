//! Lists that are shared, which a clause sees as plain lists.

ghost use Rattle.std.specs.Prelude.{◌≡◌, List, IfOk};
ghost use Rattle.std.specs.Arc.{arc_slice_items};

use crate::faults::Fault;
use crate::sequences::Duplicate;
use std::alloc::Global;
use std::cmp::Ordering;
use std::hash::{Hash, Hasher};
use std::marker::Model;
use std::sync::ArcSlice;

/// A list of values that a copy shares.
#[derive(Debug, Drop)]
pub struct Shared<T> {
    elements: ArcSlice<T>,
}

impl<T> Model for Shared<T> {
    ghost Value = { List T };

    ghost view = { λ s. arc_slice_items s.elements };
}

impl<T: Drop> Shared<T> {
    /// The list of a vector's items. Fails only when out of memory.
    pub fn new(elements: Vec<T>) -> Result<Self, Fault>
        ensures { IfOk result (λ s. s ≡ elements.items) }
    {
        Ok(Shared {
            elements: ArcSlice::from_vec(elements)?,
        })
    }
}

impl<T> Shared<T> {
    pub fn as_slice(&self) -> &[T]
        ensures { result.now ≡ self.now }
    {
        self.elements.as_slice()
    }
}

impl<T: Drop> Duplicate for Shared<T> {
    fn copy(&self, _alloc: Global) -> Result<Self, Fault> {
        Ok(Shared {
            elements: self.elements.clone()?,
        })
    }
}

impl<T: PartialEq> PartialEq for Shared<T> {
    ghost use Rattle.std.specs.Cmp.Lexicographic.{pointwise, lists_per};

    ghost eq = { pointwise T.eq };

    ghost laws = { lists_per T.laws };

    fn eq(&self, other: &Shared<T>) -> bool {
        self.elements == other.elements
    }
}

impl<T: Eq> Eq for Shared<T> {
    ghost use Rattle.std.specs.Cmp.Lexicographic.{lists_equiv};

    ghost laws = { lists_equiv T.Eq.laws };
}

impl<T: Hash> Hash for Shared<T> {
    ghost use Rattle.std.specs.Hash as fed;
    ghost use Rattle.std.specs.Hash.{items_Alike};

    ghost hash_input = { fed.slice T.hash_input };

    ghost respects_eq = { (items_Alike (record { fed = T.respects_eq })).fed };

    fn hash<H: Hasher>(&self, state: &mut H) {
        self.elements.hash(state);
    }
}

impl<T: PartialOrd> PartialOrd for Shared<T> {
    ghost use Rattle.std.specs.Cmp.Lexicographic.{slice_partial_cmp, lists_po};

    ghost partial_cmp = { slice_partial_cmp T.partial_cmp };

    ghost laws = { lists_po T.PartialOrd.laws };

    fn partial_cmp(&self, other: &Shared<T>) -> Option<Ordering> {
        self.elements.partial_cmp(&other.elements)
    }
}

impl<T: Ord> Ord for Shared<T> {
    ghost use Rattle.std.specs.Cmp.Lexicographic.{slice_cmp, lists_total, lists_agrees, lists_ties};

    ghost cmp = { slice_cmp T.cmp };

    ghost total = { lists_total T.total };

    ghost matches_partial_cmp = { λ x y. lists_agrees T.matches_partial_cmp x y };

    ghost matches_eq = { λ x y. lists_ties T.cmp T.matches_eq x y };

    fn cmp(&self, other: &Shared<T>) -> Ordering {
        self.elements.cmp(&other.elements)
    }
}
