//! What is registered under the name of a view.

ghost use Rattle.std.specs.Prelude.{◌≡◌, ℕ, ◌<◌, IfErr, OnErr, OnOk};
ghost use Rattle.cy_graph.specs.Graph.{Content};
ghost use Rattle.cy_network_sources.specs.Changes.{IsChange, before_change};
ghost use Rattle.cy_network_relevance.specs.Masks.{mask_of};
ghost use Rattle.cy_engine_views.specs.Upkeep.{CannotFollowBy, IsReady, Rests, network_of};
ghost use Rattle.cy_engine_views.specs.internal.Loops.{CanRest, IsOne, IsSettledFrom, Takes};

use crate::faults::UpkeepFault;
use crate::rows::QueryRows;
use cy_bags::{Change, Entry};
use cy_feeds::Feed;
use cy_index::Sight;
use cy_network_relevance::Mask;
use cy_network_sources::GraphChange;
use cy_values::{Duplicate, row_order_laws};
use std::alloc::Global;

/// A view: the rows of its query, and its feed.
pub(crate) struct Registered {
    pub(crate) rows: QueryRows,
    /// The tick at which it was made.
    pub(crate) made: u64,
    pub(crate) feed: Feed,
    /// How many steps its rows took for the last line that changed the graph, 0 where there was none.
    pub(crate) steps: u64,
    /// Whether its rows are prepared for the open change; they aren't where it doesn't concern them.
    pub(crate) prepared: bool,
    /// What the open change, for which they are prepared, does to them, where that is something.
    pub(crate) change: Option<Change>,
}

/// Called from each place where a view is dropped.
impl Drop for Registered {
    fn drop(self) {
        let Registered {
            rows: _,
            made: _,
            feed: _,
            steps: _,
            prepared: _,
            change: _,
        } = self;
    }
}

impl Registered {
    /// Makes the view ready for the end of the open change, which touched this: its rows, and its feed where they change. A view that reads nothing
    /// of what was touched, by the mask of the change, is left as it is. After a refusal it is to be abandoned.
    pub(crate) fn prepare<'a>(
        &mut self,
        alloc: Global,
        touched: &GraphChange<'a>,
        mask: Mask,
        sight: &mut Sight<'a>,
    ) -> Result<(), UpkeepFault>
        requires touched { IsChange (before_change sight.old.graph) sight.old.graph.now touched.now }
        requires mask { mask ≡ mask_of sight.old.graph.now touched.now }
        requires rests { (last : ℕ) × Rests self.old (before_change sight.old.graph).content last }
        ensures ready { OnOk result ((last tick : ℕ) → Rests self.old (before_change sight.old.graph).content last → last < tick → IsReady self.new (before_change sight.old.graph) sight.old.graph.now tick) }
        ensures err { OnErr result ((last : ℕ) → Rests self.old (before_change sight.old.graph).content last → CanRest self.new (before_change sight.old.graph).content last) }
        ensures refused { IfErr result (CannotFollowBy (network_of self.old.rows).plan sight.old.graph.now.content) }
        ensures one { IsOne self.old self.new }
        ensures sight { sight.new.graph ≡ sight.old.graph }
    {
        row_order_laws();
        if !self.rows.may_change(mask) {
            return Ok(());
        }
        self.rows.prepare(alloc, touched, sight)?;
        self.prepared = true;
        let change = self.rows.pending();
        if change.is_empty() {
            return Ok(());
        }
        self.feed.reserve()?;
        self.change = Some(change.copy(alloc)?);
        Ok(())
    }

    /// The change was committed, and led to this tick: takes over what was prepared for it, and puts what it did to the rows into the
    /// feed. A view that it didn't concern took no steps for it, and is written to only where it took some for the last one.
    pub(crate) fn settle(&mut self, tick: u64)
        requires { Takes tick self.old }
        ensures { IsSettledFrom tick self.old self.new }
    {
        if !self.prepared {
            if self.steps > 0 {
                self.steps = 0;
            }
            return;
        }
        self.rows.settle();
        self.prepared = false;
        self.steps = self.rows.steps();
        let Some(change) = self.change.take() else {
            return;
        };
        self.feed.push(Entry { tick, change });
    }

    /// The change is rolled back: drops what was prepared for it.
    pub(crate) fn abandon(&mut self)
        ensures rests { (graph : Content) (last : ℕ) → CanRest self.old graph last → Rests self.new graph last }
        ensures one { IsOne self.old self.new }
    {
        if !self.prepared {
            return;
        }
        self.rows.abandon();
        self.prepared = false;
        self.change = None;
    }
}
