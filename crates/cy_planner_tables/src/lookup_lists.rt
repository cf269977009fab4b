//! Look-ups that stand one after another, and where each of them is found.

ghost use Rattle.std.specs.Prelude.{◌≡◌, ◌+◌, ◌++◌, ◌∷◌, ◌≤◌, [], IfOk, OnOk, if◌then◌else◌, length, nat_lt};
ghost use Rattle.cy_planner_algebra.specs.WellFormed.{greatest_width};
ghost use Rattle.cy_planner_rows.specs.Places as places;

use cy_planner_algebra::Attribute;
use cy_planner_rows::{Wanted, WantedList, copy_attribute};
use cy_values::Fault;
use std::alloc::Global;
use std::marker::Model;

/// Look-ups that stand one after another. The same one may stand there more than once.
#[derive(Drop)]
pub(crate) struct LookupList {
    lookups: Vec<Wanted>,
    /// Each of them once, so that one is found without going over the list.
    distinct: WantedList,
    /// Where each of the distinct ones stands first.
    firsts: Vec<usize>,
}

impl Model for LookupList {
    ghost use Rattle.std.specs.Prelude.{List};
    ghost use Rattle.cy_planner_rows.specs.declared.places.Wanted.{Wanted};
    ghost use Rattle.cy_planner_tables.specs.internal.LookupLists.{AreFirsts};

    ghost Value = { List Wanted };

    ghost view = { λ l. l.lookups.items };

    ghost invariant = { λ l. AreFirsts l.lookups.items l.distinct l.firsts.items };
}

impl LookupList {
    /// Fails only when out of memory.
    pub(crate) fn new(alloc: Global, lookups: Vec<Wanted>) -> Result<Self, Fault>
        ensures { IfOk result (λ list. list ≡ lookups.items) }
    {
        let mut distinct = WantedList::new(alloc);
        let mut firsts = Vec::new(alloc);
        for (at, lookup) in lookups.iter().enumerate() {
            add_distinct(alloc, &mut distinct, &mut firsts, at, lookup)?;
        }
        Ok(LookupList {
            lookups,
            distinct,
            firsts,
        })
    }

    pub(crate) fn len(&self) -> usize
        ensures { result ≡ length self.now }
    {
        self.lookups.len()
    }

    pub(crate) fn as_slice(&self) -> &[Wanted]
        ensures { result.now ≡ self.now }
    {
        self.lookups.as_slice()
    }

    /// The column of a look-up, where they stand from a column on; the column after them, if it isn't there. Fails only when out of memory.
    pub(crate) fn place(
        &self,
        alloc: Global,
        first: usize,
        column: usize,
        attribute: &Attribute,
    ) -> Result<usize, Fault>
        requires { first + length self.now ≤ greatest_width }
        ensures { IfOk result (λ place. place ≡ places.place first self.now column attribute.now) }
    {
        let number = self.distinct.place(alloc, 0, column, attribute)?;
        match self.firsts.get(number) {
            Some(place) => Ok(first + *place),
            None => Ok(first + self.len()),
        }
    }
}

/// Adds a look-up that stands at a place to the distinct ones, unless it is there.
fn add_distinct(
    alloc: Global,
    distinct: &mut WantedList,
    firsts: &mut Vec<usize>,
    at: usize,
    lookup: &Wanted,
) -> Result<(), Fault>
    ensures distinct { OnOk result (distinct.new ≡ places.added distinct.old lookup.now) }
    ensures firsts { OnOk result (firsts.new.items ≡ (if nat_lt (length distinct.old) (length distinct.new) then firsts.old.items ++ at ∷ [] else firsts.old.items)) }
{
    let count = distinct.len();
    let attribute = copy_attribute(alloc, &lookup.attribute)?;
    distinct.add(Wanted {
        column: lookup.column,
        attribute,
    })?;
    if count < distinct.len() {
        firsts.push(at)?;
    }
    Ok(())
}
