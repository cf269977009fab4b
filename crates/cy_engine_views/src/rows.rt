//! The rows of a view's query, which follow the graph.

ghost use Rattle.std.specs.Prelude.{◌≡◌, ◌≤◌, IfErr, IfOk, OnErr, OnOk, false};
ghost use Rattle.cy_trees.specs.TreeModels.{statement_of};
ghost use Rattle.cy_graph.specs.Graph.{Content, State};
ghost use Rattle.cy_planner.specs.Weight.{greatest_weight, weight};
ghost use Rattle.cy_network_sources.specs.Changes.{IsChange, Touches, before_change};
ghost use Rattle.cy_network_relevance.specs.Masks.{mask_of};
ghost use Rattle.cy_bags.specs.Difference.{IsDifference};
ghost use Rattle.cy_network.specs.Networks.{operator_of};
ghost use Rattle.cy_engine_views.specs.Upkeep.{CannotFollowBy, IsPrepared, IsUnkept, StandsFor, network_of};
ghost use Rattle.cy_engine_views.specs.RegisteredViews.{AreRowsOf, rows_of};

use crate::faults::UpkeepFault;
use cy_bags::Change;
use cy_index::{Sight, Store};
use cy_network::Network;
use cy_network_memory::KeyedMemory;
use cy_network_relevance::Mask;
use cy_network_sources::GraphChange;
use cy_planner::plan;
use cy_scope::ViewQuery;
use cy_values::{Fault, Row};
use std::alloc::Global;

/// The rows of a view's query: those of a plan that serves it, kept by a network over hashed memories.
#[derive(Drop)]
pub(crate) struct QueryRows {
    pub(crate) query: ViewQuery,
    network: Network<KeyedMemory>,
    /// What the plan reads.
    reads: Mask,
}

impl QueryRows {
    /// The rows of a query over the graph of a store. `PlanTooLarge` exactly where the query weighs more than 512; then `TooManyRows` only
    /// where a part of its plan has a row that counts more than 2^62 - 1.
    pub(crate) fn build(
        alloc: Global,
        query: ViewQuery,
        store: &Store,
    ) -> Result<QueryRows, UpkeepFault>
        ensures query { IfOk result (λ rows. rows.query ≡ query) }
        ensures light { OnOk result (weight (statement_of query) ≤ greatest_weight) }
        ensures stands { IfOk result (λ rows. StandsFor rows store.now.graph.now.content) }
        ensures refused { IfErr result (λ fault. IsUnkept (statement_of query) store.now.graph.now.content fault) }
    {
        store.laws();
        let plan = plan(alloc, &query)?;
        let reads = Mask::of_plan(plan.root());
        let network = Network::build(alloc, plan, store)?;
        Ok(QueryRows {
            query,
            network,
            reads,
        })
    }

    /// Whether a change of this mask may concern the rows. Where it says no, they stand for the graph after it as well.
    pub(crate) fn may_change(&self, touched: Mask) -> bool
        ensures { result ≡ false → (before now : State) (touches : Touches) → IsChange before now touches → touched ≡ mask_of now touches → StandsFor self.now before.content → StandsFor self.now now.content }
    {
        self.reads.meets(touched)
    }

    /// Makes the rows ready for the end of the open change, which touched this. After a refusal they are as before. `TooManyRows` only where a
    /// part of the plan has a row that counts more than 2^62 - 1 on the graph of the change.
    pub(crate) fn prepare<'a>(
        &mut self,
        alloc: Global,
        change: &GraphChange<'a>,
        sight: &mut Sight<'a>,
    ) -> Result<(), UpkeepFault>
        requires change { IsChange (before_change sight.old.graph) sight.old.graph.now change.now }
        requires stands { StandsFor self.old (before_change sight.old.graph).content }
        ensures prepared { OnOk result (IsPrepared self.new (before_change sight.old.graph) sight.old.graph.now) }
        ensures err { OnErr result (StandsFor self.new (before_change sight.old.graph).content) }
        ensures refused { IfErr result (CannotFollowBy (network_of self.old).plan sight.old.graph.now.content) }
        ensures query { self.new.query ≡ self.old.query }
        ensures plan { operator_of self.new.network ≡ operator_of self.old.network }
        ensures sight { sight.new.graph ≡ sight.old.graph }
    {
        self.network.prepare_change(alloc, change, sight)?;
        Ok(())
    }

    /// What the open change, for which the rows are prepared, does to them.
    pub(crate) fn pending(&self) -> &Change
        requires { (before : State) × ((after : State) × IsPrepared self.now before after) }
        ensures { (before after : State) → IsPrepared self.now before after → IsDifference (rows_of (statement_of self.now.query) before.content) (rows_of (statement_of self.now.query) after.content) result.now }
    {
        self.network.pending()
    }

    /// The change was committed: takes over what was prepared for it.
    pub(crate) fn settle(&mut self)
        requires { (before : State) × ((after : State) × IsPrepared self.old before after) }
        ensures stands { (before after : State) → IsPrepared self.old before after → StandsFor self.new after.content }
        ensures query { self.new.query ≡ self.old.query }
        ensures plan { operator_of self.new.network ≡ operator_of self.old.network }
        ensures steps { (network_of self.new).steps ≡ (network_of self.old).steps }
    {
        self.network.settle();
    }

    /// The change is rolled back: drops what was prepared for it.
    pub(crate) fn abandon(&mut self)
        ensures stands { (before after : State) → IsPrepared self.old before after → StandsFor self.new before.content }
        ensures query { self.new.query ≡ self.old.query }
        ensures plan { operator_of self.new.network ≡ operator_of self.old.network }
    {
        self.network.abandon();
    }

    /// The rows with their counts, in canonical order. Fails only when out of memory.
    pub(crate) fn counted(&self, alloc: Global) -> Result<Vec<(Row, u64)>, Fault>
        requires { (graph : Content) × StandsFor self.now graph }
        ensures { IfOk result (λ rows. (graph : Content) → StandsFor self.now graph → AreRowsOf (statement_of self.now.query) graph rows.items) }
    {
        let rows = self.network.rows(alloc)?;
        Ok(rows)
    }

    /// How many steps the last change took for which the rows were prepared.
    pub(crate) fn steps(&self) -> u64
        ensures { result ≡ (network_of self.now).steps }
    {
        self.network.steps()
    }
}
