//! The views, by name and in the order in which they were made.

ghost use Rattle.std.specs.Prelude.{◌≡◌, ℕ, ◌<◌, ◌≤◌, [], ◌∷◌, ◌++◌, IfErr, IfOk, IsFalse, IsSome, None, OnErr, OnOk, Some, is_some, length, map};
ghost use Rattle.std.specs.Option.{option_map};
ghost use Rattle.cy_trees.specs.TreeModels.{statement_of};
ghost use Rattle.cy_graph.specs.Graph.{Content, State};
ghost use Rattle.cy_feeds.specs.Feeds.{answer_since};
ghost use Rattle.cy_planner_algebra.specs.PlanModels.{plan_of};
ghost use Rattle.cy_planner_algebra.specs.declared.operators.Operator.{Operator};
ghost use Rattle.cy_planner.specs.Serves.{Serves};
ghost use Rattle.cy_planner.specs.Weight.{greatest_weight, weight};
ghost use Rattle.cy_network_sources.specs.Changes.{before_change};
ghost use Rattle.cy_engine_views.specs.HeldViews.{new_held};
ghost use Rattle.cy_engine_views.specs.Upkeep.{AreKeptUp, AreReady, CannotFollow, IsGoneFrom, IsUnkept, StandFor, held_in, upkeep_in, views_in};
ghost use Rattle.cy_engine_views.specs.RegisteredViews.{AreEntries, AreShown, Entries, fed, listed, view_among, view_limit};
ghost use Rattle.cy_engine_views.specs.internal.Loops.{AllCanRest};

use crate::entries::entries_of;
use crate::faults::UpkeepFault;
use crate::listings::{ViewListing, columns_of};
use crate::registered::Registered;
use crate::registry::{abandon_all, prepare_all, settle_all};
use crate::rows::QueryRows;
use cy_bags::Entry;
use cy_feeds::{Answer, Feed};
use cy_index::Store;
use cy_network_relevance::Mask;
use cy_network_sources::GraphChange;
use cy_scope::ViewQuery;
use cy_values::{Fault, Row, Sequence, Text};
use indexmap::IndexMap;
use std::alloc::Global;

/// Views, each under its name. Their rows follow a graph: a change of it is prepared before it ends, so that what then remains to be
/// done can't fail.
pub struct Views {
    alloc: Global,
    registered: IndexMap<String, Registered>,
}

/// Called from each place where views are dropped.
impl Drop for Views {
    fn drop(self) {
        let Views {
            alloc: _,
            registered: _,
        } = self;
    }
}

impl Views {
    /// No views.
    pub fn new(alloc: Global) -> Self
        ensures none { held_in result ≡ [] }
        ensures stand { (graph : Content) (tick : ℕ) → StandFor result graph tick }
    {
        Views {
            alloc,
            registered: IndexMap::new(alloc),
        }
    }

    /// How many views there are.
    pub fn len(&self) -> usize
        ensures { result ≡ length (held_in self.now) }
    {
        self.registered.len()
    }

    /// Whether there is a view of this name.
    pub fn contains(&self, name: &str) -> bool
        ensures { result ≡ is_some (view_among name.now (views_in self.now)) }
    {
        self.registered.contains_key(name)
    }

    /// Makes a view after the others, at this tick, by a plan that serves its query. History is how many entries its feed keeps.
    /// `PlanTooLarge` exactly where the query weighs more than 512; then `TooManyRows` only where a part of its plan has a row that
    /// counts more than 2^62 - 1. After a refusal the views are as before.
    pub fn make(
        &mut self,
        name: &str,
        query: ViewQuery,
        made: u64,
        history: usize,
        store: &Store,
    ) -> Result<(), UpkeepFault>
        requires from { 1 ≤ history }
        requires to { history ≤ 4096 }
        requires new { view_among name.now (views_in self.old) ≡ None }
        requires few { length (held_in self.old) < view_limit }
        ensures light { OnOk result (weight (statement_of query) ≤ greatest_weight) }
        ensures made { OnOk result ((plan : Operator) × Serves (plan_of plan) (statement_of query) × (held_in self.new ≡ held_in self.old ++ new_held name.now query plan made history ∷ [])) }
        ensures stand { OnOk result ((tick : ℕ) → StandFor self.old store.now.graph.now.content tick → tick ≤ made → StandFor self.new store.now.graph.now.content made) }
        ensures refused { IfErr result (IsUnkept (statement_of query) store.now.graph.now.content) }
        ensures err { OnErr result ((graph : Content) (tick : ℕ) → StandFor self.old graph tick → StandFor self.new graph tick) }
        ensures same { OnErr result (held_in self.new ≡ held_in self.old) }
    {
        let rows = QueryRows::build(self.alloc, query, store)?;
        let feed = Feed::new(self.alloc, history, made);
        let view = Registered {
            rows,
            made,
            feed,
            steps: 0,
            prepared: false,
            change: None,
        };
        let name = String::from_str(self.alloc, name)?;
        self.registered.insert(name, view)?;
        Ok(())
    }

    /// Takes the view of a name out, and answers whether there was one.
    pub fn remove(&mut self, name: &str) -> bool
        ensures there { result ≡ is_some (view_among name.now (views_in self.old)) }
        ensures stand { (graph : Content) (tick : ℕ) → StandFor self.old graph tick → StandFor self.new graph tick }
        ensures gone { (graph : Content) (tick : ℕ) → StandFor self.old graph tick → IsGoneFrom name.now self.old self.new }
        ensures none { IsFalse result → held_in self.new ≡ held_in self.old }
    {
        self.registered.shift_remove(name).is_some()
    }

    /// The rows of the view of a name with their counts: what its query means on the graph, each row once, in canonical order. It
    /// fails only when out of memory, where there is the view.
    pub fn rows(&self, name: &str) -> Result<Option<Vec<(Row, u64)>>, Fault>
        requires { (graph : Content) × ((tick : ℕ) × StandFor self.now graph tick) }
        ensures rows { IfOk result (λ rows. (graph : Content) (tick : ℕ) → StandFor self.now graph tick → AreShown (view_among name.now (views_in self.now)) graph (option_map (λ r. r.items) rows)) }
        ensures there { OnErr result (IsSome (view_among name.now (views_in self.now))) }
    {
        match self.registered.get(name) {
            Some(view) => Ok(Some(view.rows.counted(self.alloc)?)),
            None => Ok(None),
        }
    }

    /// What changed in the view of a name since a tick, as its feed says. It fails only when out of memory.
    pub fn since(&self, name: &str, tick: u64) -> Result<Option<Answer>, Fault>
        ensures { IfOk result (λ answer. answer ≡ option_map (λ view. answer_since tick view.feed) (view_among name.now (views_in self.now))) }
    {
        match self.registered.get(name) {
            Some(view) => Ok(Some(view.feed.since(tick)?)),
            None => Ok(None),
        }
    }

    /// The views as a list of them shows them. It fails only when out of memory.
    pub fn listings(&self) -> Result<Vec<ViewListing>, Fault>
        ensures { IfOk result (λ listings. listings.items ≡ map listed (views_in self.now)) }
    {
        let mut listings = Vec::new(self.alloc);
        for (name, view) in self.registered.iter() {
            listings.push(ViewListing {
                columns: Sequence::new(columns_of(self.alloc, &view.rows.query)?),
                made: view.made,
                name: Text::from_str(self.alloc, name.as_str())?,
            })?;
        }
        Ok(listings)
    }

    /// The name of each view, and how many steps its upkeep took for the last line that changed the graph while the view stood, 0 where
    /// there was none. It fails only when out of memory.
    pub fn steps(&self) -> Result<Vec<(Text, u64)>, Fault>
        ensures { IfOk result (λ steps. steps.items ≡ map (λ u. (u.name, u.steps)) (upkeep_in self.now)) }
    {
        let mut steps = Vec::new(self.alloc);
        for (name, view) in self.registered.iter() {
            steps.push((Text::from_str(self.alloc, name.as_str())?, view.steps))?;
        }
        Ok(steps)
    }

    /// Makes the views ready for the end of the open change, in the order in which they were made, and gives the entries that it
    /// makes at this tick. `TooManyRows` only where a part of a plan has a row that counts more than 2^62 - 1 on the graph of the
    /// change. After a refusal the views are as before. A view that reads nothing of what the change touched is left as it is. Where there are no
    /// views, it isn't asked what the change touched.
    pub fn prepare(
        &mut self,
        store: &Store,
        tick: u64,
    ) -> Result<Sequence<(Text, Entry)>, UpkeepFault>
        requires open { IsSome store.now.graph.was }
        requires stand { (last : ℕ) × (last < tick) × StandFor self.old (before_change store.now.graph).content last }
        ensures ready { IfOk result (λ entries. AreReady self.new (before_change store.now.graph) store.now.graph.now tick entries) }
        ensures entries { IfOk result (λ entries. AreEntries (views_in self.old) (before_change store.now.graph).content store.now.graph.now.content tick entries) }
        ensures err { OnErr result ((last : ℕ) → StandFor self.old (before_change store.now.graph).content last → StandFor self.new (before_change store.now.graph).content last) }
        ensures held { held_in self.new ≡ held_in self.old }
        ensures refused { IfErr result (CannotFollow (upkeep_in self.old) store.now.graph.now.content) }
    {
        if self.registered.is_empty() {
            return Ok(Sequence::new(Vec::new(self.alloc)));
        }
        match self.make_ready(store, tick) {
            Ok(entries) => Ok(entries),
            Err(fault) => {
                abandon_all(&mut self.registered);
                Err(fault)
            }
        }
    }

    // Makes the views ready for the end of the open change; after a refusal they are to be abandoned.
    fn make_ready(
        &mut self,
        store: &Store,
        tick: u64,
    ) -> Result<Sequence<(Text, Entry)>, UpkeepFault>
        requires open { IsSome store.now.graph.was }
        requires stand { (last : ℕ) × (last < tick) × StandFor self.old (before_change store.now.graph).content last }
        ensures ready { IfOk result (λ entries. AreReady self.new (before_change store.now.graph) store.now.graph.now tick entries) }
        ensures entries { IfOk result (λ entries. AreEntries (views_in self.old) (before_change store.now.graph).content store.now.graph.now.content tick entries) }
        ensures back { (last : ℕ) → StandFor self.old (before_change store.now.graph).content last → AllCanRest (before_change store.now.graph).content last self.new.registered.entries }
        ensures held { held_in self.new ≡ held_in self.old }
        ensures refused { IfErr result (CannotFollow (upkeep_in self.old) store.now.graph.now.content) }
    {
        store.laws();
        let mut sight = store.sight();
        let touched = GraphChange::new(self.alloc, &sight)?;
        let mask = Mask::of_change(&touched, &mut sight);
        prepare_all(self.alloc, &mut self.registered, &touched, mask, &mut sight)?;
        let entries = entries_of(self.alloc, &self.registered, tick)?;
        Ok(Sequence::new(entries))
    }

    /// The change was committed, and led to this tick: the views take over what was prepared for it, and the feeds their entries.
    pub fn settle(&mut self, tick: u64)
        requires { (before : State) × ((after : State) × ((entries : Entries) × AreReady self.old before after tick entries)) }
        ensures stand { (before after : State) (entries : Entries) → AreReady self.old before after tick entries → StandFor self.new after.content tick }
        ensures fed { (before after : State) (entries : Entries) → AreReady self.old before after tick entries → views_in self.new ≡ map (fed entries) (views_in self.old) }
        ensures kept { (before after : State) (entries : Entries) → AreReady self.old before after tick entries → AreKeptUp before after (upkeep_in self.old) (upkeep_in self.new) }
    {
        settle_all(&mut self.registered, tick);
    }
}
