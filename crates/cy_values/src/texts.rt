//! Text, which a clause sees as the list of its bytes.

ghost use Rattle.std.specs.Prelude.{◌≡◌, List, ℕ, Some, IfOk, string_bytes};
ghost use Rattle.std.specs.Arc.{arc_str_bytes};

use crate::faults::Fault;
use crate::sequences::Duplicate;
use std::alloc::Global;
use std::cmp::Ordering;
use std::hash::{Hash, Hasher};
use std::marker::Model;
use std::sync::ArcStr;

/// A text, in UTF-8. Texts are ordered by their bytes, which is the order of their code points.
#[derive(Debug, Drop)]
pub struct Text {
    string: ArcStr,
}

impl Model for Text {
    ghost Value = { List ℕ };

    ghost view = { λ t. arc_str_bytes t.string };
}

impl Text {
    /// The text of a string. Fails only when out of memory.
    pub fn new(string: String) -> Result<Self, Fault>
        ensures { IfOk result (λ t. t ≡ string_bytes string) }
    {
        Ok(Text {
            string: ArcStr::from_string(string)?,
        })
    }

    /// A copy of a text. Fails only when out of memory.
    pub fn from_str(alloc: Global, text: &str) -> Result<Self, Fault>
        ensures { IfOk result (λ t. t ≡ text.now) }
    {
        Ok(Text {
            string: ArcStr::from_str(alloc, text)?,
        })
    }

    pub fn as_str(&self) -> &str
        ensures { result.now ≡ self.now }
    {
        self.string.as_str()
    }
}

impl Duplicate for Text {
    /// A text that shares the string of this one.
    fn copy(&self, _alloc: Global) -> Result<Self, Fault> {
        Ok(Text {
            string: self.string.clone()?,
        })
    }
}

impl PartialEq for Text {
    ghost use Rattle.std.specs.Prelude.{nat_eq};
    ghost use Rattle.std.specs.Cmp as laws_of;
    ghost use Rattle.std.specs.Cmp.Lexicographic.{pointwise, nat_list_eq_equiv};

    ghost eq = { pointwise nat_eq };

    ghost laws = { laws_of.partial_equiv_from_equiv nat_list_eq_equiv };

    fn eq(&self, other: &Text) -> bool {
        self.as_str() == other.as_str()
    }
}

impl Eq for Text {
    ghost use Rattle.std.specs.Cmp.Lexicographic.{nat_list_eq_equiv};

    ghost laws = { nat_list_eq_equiv };
}

impl Hash for Text {
    ghost use Rattle.std.proofs.Common.{rules};
    ghost use Rattle.std.specs.Hash as fed;
    ghost use Rattle.std.specs.Cmp.Rules.{hashing};

    ghost hash_input = { λ t. fed.str t };

    ghost respects_eq = { Prim.search (hashing, rules) };

    fn hash<H: Hasher>(&self, state: &mut H) {
        self.as_str().hash(state);
    }
}

impl PartialOrd for Text {
    ghost use Rattle.std.specs.Ordering.{nat_cmp};
    ghost use Rattle.std.specs.Cmp.Lexicographic.{slice_cmp, texts_po};

    ghost partial_cmp = { λ x y. Some (slice_cmp nat_cmp x y) };

    ghost laws = { texts_po };

    fn partial_cmp(&self, other: &Text) -> Option<Ordering> {
        Some(self.cmp(other))
    }
}

impl Ord for Text {
    ghost use Rattle.std.specs.Prelude.{refl};
    ghost use Rattle.std.specs.Ordering.{nat_cmp};
    ghost use Rattle.std.specs.Cmp.Lexicographic.{slice_cmp, nat_list_cmp_total, texts_ties};

    ghost cmp = { slice_cmp nat_cmp };

    ghost total = { nat_list_cmp_total };

    ghost matches_partial_cmp = { λ x y. refl };

    ghost matches_eq = { λ x y. texts_ties x y };

    fn cmp(&self, other: &Text) -> Ordering {
        self.as_str().cmp(other.as_str())
    }
}
