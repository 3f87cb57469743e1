//! The nodes of a run, each with its desk and its connections.
ghost use Rattle.std.specs.Prelude.{◌≡◌, ◌<◌, ◌+◌, All, length, map, slice_get, vec_len, IfOk, OnOk, Some};
ghost use Rattle.desk.specs.Keeping.{MayOpen};
ghost use Rattle.run.specs.Wiring.{peers_of};

use desk::stores::NodeStore;
use desk::{Desk, Opening, RoomBell, SharedNode, Stored};
use serving::desk_of;
use sessions::{Network, NodeThreads, StartBarrier};
use std::alloc::Global;
use units::{NoMemory, Node};
use world::Core;

/// The desk of a node of a run.
pub(crate) type NodeDesk<O, S> = Desk<O, Core, S, RoomBell>;

/// Adds the node's desk. After `NoMemory` the desks are as they were.
fn push_desk<O: Opening, S: NodeStore + Drop>(
    alloc: Global,
    desks: &mut Vec<NodeDesk<O, S>>,
    peers: &[Node],
    loaded: Stored<Core, S>,
) -> Result<(), NoMemory>
    requires { MayOpen S.NodeStore O.opened loaded }
    ensures { OnOk result (vec_len desks.new ≡ vec_len desks.old + 1) }
{
    let desk = desk_of::<O, S>(alloc, peers, loaded)?;
    desks.push(desk)?;
    Ok(())
}

/// The nodes that the node with that index sends to: the log sends to all registries, and a registry to the log.
fn peers_at(names: &[Node], at: usize) -> &[Node]
    requires { at < length names.now }
    ensures { slice_get (peers_of names.now) at ≡ Some result.now }
{
    if at == 0 { &names[1..] } else { &names[..1] }
}

/// A desk of each node's state, which has a bell for each node that the node sends to.
pub(crate) fn desks_of<O: Opening, S: NodeStore + Drop>(
    alloc: Global,
    names: &[Node],
    loaded: Vec<Stored<Core, S>>,
) -> Result<Vec<NodeDesk<O, S>>, NoMemory>
    requires nodes { map (λ s. s.state.node) loaded.items ≡ names.now }
    requires may_open { All (MayOpen S.NodeStore O.opened) loaded.items }
    ensures { IfOk result (λ v. vec_len v ≡ length names.now) }
{
    let mut desks = Vec::new(alloc);
    for node in loaded {
        let peers = peers_at(names, desks.len());
        push_desk(alloc, &mut desks, peers, node)?;
    }
    Ok(desks)
}

/// The threads of each node: at its desk, over that network, to the nodes that it sends to. All arrive at that barrier.
pub(crate) fn nodes_to_run<'a, D: SharedNode, N: Network>(
    alloc: Global,
    names: &'a [Node],
    desks: &'a [D],
    network: &'a N,
    barrier: &'a StartBarrier,
) -> Result<Vec<NodeThreads<'a, D, N>>, NoMemory>
    requires { length desks.now ≡ length names.now }
    ensures count { IfOk result (λ v. vec_len v ≡ length names.now) }
    ensures names { IfOk result (λ v. map (λ n. n.node) v.items ≡ names.now) }
    ensures desks { IfOk result (λ v. map (λ n. n.desk.now) v.items ≡ desks.now) }
    ensures peers { IfOk result (λ v. map (λ n. n.peers.now) v.items ≡ peers_of names.now) }
    ensures network { IfOk result (λ v. All (λ n. n.network.now ≡ network.now) v.items) }
{
    let mut nodes = Vec::with_capacity(alloc, names.len())?;
    for at in 0..names.len() {
        let peers = peers_at(names, at);
        nodes.push(NodeThreads::new(alloc, names[at], &desks[at], network, peers, barrier)?)?;
    }
    Ok(nodes)
}
