//! What a line changes in the rows of the views.

ghost use Rattle.std.specs.Prelude.{◌≡◌, IfOk};
ghost use Rattle.cy_engine_views.specs.Upkeep.{entries_in};

use crate::registered::Registered;
use cy_bags::Entry;
use cy_values::{Duplicate, Fault, Text};
use indexmap::IndexMap;
use std::alloc::Global;

/// The entries of the views whose rows the open change, for which they are prepared, makes another bag: with their names, in the
/// order in which the views were made. Fails only when out of memory.
pub(crate) fn entries_of(
    alloc: Global,
    registry: &IndexMap<String, Registered>,
    tick: u64,
) -> Result<Vec<(Text, Entry)>, Fault>
    ensures { IfOk result (λ entries. entries.items ≡ entries_in tick registry.now.entries) }
{
    let mut entries = Vec::new(alloc);
    for (name, view) in registry.iter() {
        if let Some(change) = &view.change {
            let name = Text::from_str(alloc, name.as_str())?;
            let change = change.copy(alloc)?;
            entries.push((name, Entry { tick, change }))?;
        }
    }
    Ok(entries)
}
