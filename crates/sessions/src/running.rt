//! Nodes that run in threads.
ghost use Rattle.std.specs.Prelude.{◌≡◌, [], ℕ, All, length, vec_len, slice_get, IfOk, Ok, Some};
ghost use Rattle.std.specs.Thread.{IsSync};
ghost use Rattle.sessions.specs.Orders.{HasNoOrder, HaveNoOrders};
ghost use Rattle.sessions.specs.Sending.{IsReceivedBy};
ghost use Rattle.sessions.specs.Threads.{AreOfThread, thread_count};

use crate::network::Network;
use crate::node_threads::NodeThreads;
use desk::{Seat, SharedNode};
use std::alloc::Global;
use std::rt::Clock as SystemClock;
use std::sync::Wait;
use std::thread;
use std::thread::Threads;
use units::NoMemory;

/// That many seats without notes. Fails with `NoMemory` if memory runs out.
pub fn new_seats(alloc: Global, count: usize) -> Result<Vec<Seat>, NoMemory>
    ensures len { IfOk result (λ seats. vec_len seats ≡ count) }
    ensures none { IfOk result (λ seats. All (λ s. (s.tickets ≡ []) × (s.notes ≡ [])) seats.items) }
{
    let mut seats = Vec::new(alloc);
    for made in 0..count {
        seats.push(Seat::new(alloc))?;
    }
    Ok(seats)
}

/// Runs a node's threads until all have ended, and returns the seat of each, in the order of their indices. Fails with
/// `NoMemory` if memory ran out: then no thread was started.
///
/// If the system has no thread for one of them, another runs it once it has ended its own, and until then it hasn't
/// begun. A caller that gives orders at the node's desk should wait until all have begun, and stop the desk if one is
/// missing.
pub fn run_node<D, N, R>(
    rt: &R,
    alloc: Global,
    node: &NodeThreads<'_, D, N>,
) -> Result<Vec<Seat>, NoMemory>
where
    D: SharedNode + Sync,
    N: Network,
    R: Threads + Wait + SystemClock + Sync,
    ensures len { IfOk result (λ seats. vec_len seats ≡ thread_count (length node.now.peers.now)) }
    ensures taken { IfOk result (λ seats. All (AreOfThread D.is_to_send
        (IsReceivedBy (N.leads node.now.network.now) N.Reader.remaining N.Writer.contents)
        (N.Clock.tells node.now.network.now)) seats.items) }
    ensures none { IfOk result (λ seats. All HasNoOrder seats.items) }
{
    let mut seats = new_seats(alloc, node.count())?;
    let threads = seats.len().max(1);
    thread::for_each_mut(
        rt,
        seats.as_mut_slice(),
        threads,
        // It isn't inferred here that `rt` may be shared.
        &|index: usize, seat: &mut Seat|
            requires sync { IsSync R.row }
            requires taken { AreOfThread D.is_to_send
                (IsReceivedBy (N.leads node.now.network.now) N.Reader.remaining N.Writer.contents)
                (N.Clock.tells node.now.network.now) seat.old }
            ensures taken { AreOfThread D.is_to_send
                (IsReceivedBy (N.leads node.entry.now.network.now) N.Reader.remaining N.Writer.contents)
                (N.Clock.tells node.entry.now.network.now) seat.new }
            ensures none { HasNoOrder seat.new }
        { node.run_thread(rt, index, seat) },
    );
    Ok(seats)
}

/// As `run_node`. If memory ran out, the node has stopped.
fn run_one<D, N, R>(
    rt: &R,
    alloc: Global,
    node: &NodeThreads<'_, D, N>,
) -> Result<Vec<Seat>, NoMemory>
where
    D: SharedNode + Sync,
    N: Network,
    R: Threads + Wait + SystemClock + Sync,
    ensures len { IfOk result (λ seats. vec_len seats ≡ thread_count (length node.now.peers.now)) }
    ensures taken { IfOk result (λ seats. All (AreOfThread D.is_to_send
        (IsReceivedBy (N.leads node.now.network.now) N.Reader.remaining N.Writer.contents)
        (N.Clock.tells node.now.network.now)) seats.items) }
    ensures none { IfOk result (λ seats. All HasNoOrder seats.items) }
{
    let seats = run_node(rt, alloc, node);
    if seats.is_err() {
        node.give_up(rt);
    }
    seats
}

/// Runs several nodes, each as `run_node` does, until the threads of all have ended, and returns the seats of each in
/// the order of the nodes. Nothing that happens at one node stops another one; if memory ran out for a node's threads,
/// it has `NoMemory` in place of seats, and has stopped. Fails with `NoMemory` if memory ran out: then nothing is
/// reported of the work of the threads.
pub fn run_all<D, N, R>(
    rt: &R,
    alloc: Global,
    nodes: Vec<NodeThreads<'_, D, N>>,
) -> Result<Vec<Result<Vec<Seat>, NoMemory>>, NoMemory>
where
    D: SharedNode + Sync,
    N: Network,
    R: Threads + Wait + SystemClock + Sync,
    ensures count { IfOk result (λ ends. vec_len ends ≡ vec_len nodes.entry) }
    ensures seats { IfOk result
        (λ ends. (k : ℕ) (node : _) (seats : _) → slice_get nodes.entry.items k ≡ Some node
        → slice_get ends.items k ≡ Some (Ok seats)
        → vec_len seats ≡ thread_count (length node.peers.now)) }
    ensures taken { IfOk result
        (λ ends. (k : ℕ) (node : _) (seats : _) → slice_get nodes.entry.items k ≡ Some node
        → slice_get ends.items k ≡ Some (Ok seats)
        → All (AreOfThread D.is_to_send
        (IsReceivedBy (N.leads node.network.now) N.Reader.remaining N.Writer.contents)
        (N.Clock.tells node.network.now)) seats.items) }
    ensures none { IfOk result (λ ends. HaveNoOrders ends.items) }
{
    let ends = thread::map_vec(
        rt,
        nodes,
        &|node: NodeThreads<'_, D, N>| -> Result<Vec<Seat>, NoMemory>
            requires { IsSync R.row }
            ensures len { IfOk result (λ seats. vec_len seats ≡ thread_count (length node.entry.peers.now)) }
            ensures taken { IfOk result (λ seats. All (AreOfThread D.is_to_send
                (IsReceivedBy (N.leads node.entry.network.now) N.Reader.remaining N.Writer.contents)
                (N.Clock.tells node.entry.network.now)) seats.items) }
            ensures none { IfOk result (λ seats. All HasNoOrder seats.items) }
        { run_one(rt, alloc, &node) },
    )?;
    Ok(ends)
}
