//! All views, and each step of a change for all of them, in the order in which they were made.

ghost use Rattle.std.specs.Prelude.{◌≡◌, ℕ, ◌<◌, IfErr, OnOk, map};
ghost use Rattle.cy_graph.specs.Graph.{Content};
ghost use Rattle.cy_network_sources.specs.Changes.{IsChange, before_change};
ghost use Rattle.cy_network_relevance.specs.Masks.{mask_of};
ghost use Rattle.cy_engine_views.specs.Upkeep.{CannotFollow, held, upkeep_of};
ghost use Rattle.cy_engine_views.specs.internal.Loops.{AllAreSettled, AllCanRest, AllReady, AllRest, AllTake};

use crate::faults::UpkeepFault;
use crate::registered::Registered;
use cy_index::Sight;
use cy_network_relevance::Mask;
use cy_network_sources::GraphChange;
use indexmap::IndexMap;
use std::alloc::Global;

/// Makes all views ready for the end of the open change, which touched this and has this mask. After a refusal they are to be abandoned.
pub(crate) fn prepare_all<'a>(
    alloc: Global,
    registry: &mut IndexMap<String, Registered>,
    touched: &GraphChange<'a>,
    mask: Mask,
    sight: &mut Sight<'a>,
) -> Result<(), UpkeepFault>
    requires touched { IsChange (before_change sight.old.graph) sight.old.graph.now touched.now }
    requires mask { mask ≡ mask_of sight.old.graph.now touched.now }
    requires rest { (last : ℕ) × AllRest (before_change sight.old.graph).content last registry.old.entries }
    ensures ready { OnOk result ((last tick : ℕ) → AllRest (before_change sight.old.graph).content last registry.old.entries → last < tick → AllReady (before_change sight.old.graph) sight.old.graph.now tick registry.new.entries) }
    ensures back { (last : ℕ) → AllRest (before_change sight.old.graph).content last registry.old.entries → AllCanRest (before_change sight.old.graph).content last registry.new.entries }
    ensures refused { IfErr result (CannotFollow (map upkeep_of (map held registry.old.entries)) sight.old.graph.now.content) }
    ensures held { map held registry.new.entries ≡ map held registry.old.entries }
{
    for at in 0..registry.len() {
        if let Some(view) = registry.get_index_mut(at) {
            view.prepare(alloc, touched, mask, sight)?;
        }
    }
    Ok(())
}

/// The change was committed, and led to this tick: all views take over what was prepared for it.
pub(crate) fn settle_all(registry: &mut IndexMap<String, Registered>, tick: u64)
    requires { AllTake tick registry.old.entries }
    ensures { AllAreSettled tick registry.old.entries registry.new.entries }
{
    for at in 0..registry.len() {
        if let Some(view) = registry.get_index_mut(at) {
            view.settle(tick);
        }
    }
}

/// The change is rolled back: all views drop what was prepared for it.
pub(crate) fn abandon_all(registry: &mut IndexMap<String, Registered>)
    ensures rest { (graph : Content) (last : ℕ) → AllCanRest graph last registry.old.entries → AllRest graph last registry.new.entries }
    ensures held { map held registry.new.entries ≡ map held registry.old.entries }
{
    for at in 0..registry.len() {
        if let Some(view) = registry.get_index_mut(at) {
            view.abandon();
        }
    }
}
