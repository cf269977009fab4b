//! A network that follows a change of the graph.

ghost use Rattle.std.specs.Prelude.{IsNone, IfOk};
ghost use Rattle.cy_network.specs.Networks.{Stands};

use cy_graph::TextMap;
use cy_index::Store;
use cy_network::Network;
use cy_network_memory::{KeyedMemory, ListMemory, Listed, Made};
use cy_planner_algebra::Plan;
use cy_values::Row;
use std::alloc::Global;
use std::process::Abort;
use std::test::Fail;

// A network of all nodes, twice. No query has this plan: the parts of its union have all rows in common.
#[tactic(auto, using(crate::proofs::Standing::nodes_twice_sure))]
fn nodes_twice<M: Made>(alloc: Global, store: &Store) -> Result<Network<M>, Fail>
    ensures { IfOk result (λ network. Stands M.Memory store.now.graph.now.content network) }
{
    let plan = Plan::union(alloc, Plan::nodes(), Plan::nodes())?;
    Ok(Network::build(alloc, plan, store)?)
}

// How often rows count in all.
fn counts(rows: &[(Row, u64)]) -> u64 {
    let mut counts = 0u64;
    for (_, count) in rows {
        counts = counts.saturating_add(*count);
    }
    counts
}

// A node is added. The network is prepared for that and abandoned, and then prepared and settled.
#[tactic(auto, using(crate::proofs::Standing::rows_standing, crate::proofs::Standing::change_pending, crate::proofs::Standing::graphs_prepared))]
fn expect_followed<M: Made + Listed>(
    rt: &impl Abort,
    alloc: Global,
    network: &mut Network<M>,
    store: &mut Store,
) -> Result<(), Fail>
    requires closed { IsNone store.old.graph.was }
    requires stands { Stands M.Memory store.old.graph.now.content network.old }
{
    store.begin();
    store.add_node(TextMap::new(alloc), TextMap::new(alloc))?;
    network.prepare(alloc, &mut store.sight())?;
    assert_eq!(rt; counts(network.pending().added.as_slice()), 2);
    network.abandon();
    assert!(rt; network.rows(alloc)?.is_empty());
    network.prepare(alloc, &mut store.sight())?;
    network.settle();
    store.commit();
    assert_eq!(rt; counts(&network.rows(alloc)?), 2);
    Ok(())
}

// The store and the network are borrowed there, since the proof of each exit of a function that owns one takes long.
fn expect_on<M: Made + Listed>(
    rt: &impl Abort,
    alloc: Global,
    store: &mut Store,
) -> Result<(), Fail>
    requires { IsNone store.old.graph.was }
{
    let mut network: Network<M> = nodes_twice(alloc, store)?;
    expect_followed(rt, alloc, &mut network, store)
}

fn expect<M: Made + Listed>(rt: &impl Abort, alloc: Global) -> Result<(), Fail> {
    let mut store = Store::new(alloc);
    expect_on::<M>(rt, alloc, &mut store)
}

#[test]
fn network_of_all_nodes_twice(rt: HostRuntime) -> Result<(), Fail> {
    expect::<KeyedMemory>(&rt, rt.alloc())?;
    expect::<ListMemory>(&rt, rt.alloc())
}
