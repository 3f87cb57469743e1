//! The threads of a node.
ghost use Rattle.std.specs.Prelude.{◌≡◌, length, IfOk};
ghost use Rattle.sessions.specs.Orders.{HasNoOrder};
ghost use Rattle.sessions.specs.Sending.{IsReceivedBy};
ghost use Rattle.sessions.specs.Threads.{AreOfThread, thread_count};

use crate::network::Network;
use crate::senders::send_all;
use crate::session_threads::SESSION_THREADS;
use crate::start_barrier::StartBarrier;
use crate::workers::JobRequest;
use crossbeam_channel::{Receiver, Sender};
use desk::{Bell, Seat, SharedNode};
use std::alloc::Global;
use std::rt::Clock as SystemClock;
use std::sync::{Mutex, Wait};
use units::{NoMemory, Node};

/// How many threads of a node have its desk take jobs.
pub const WORKERS: usize = 2;

/// How many jobs wait at most.
const MOST_JOBS: usize = 16;

// A session thread waits for one answer at a time, so there is room for the job of each while workers take them.
const _: () = prove!(SESSION_THREADS <= MOST_JOBS);

/// The work of a thread of a node.
#[derive(Clone, Copy, Debug, PartialEq, Eq)]
enum ThreadRole {
    /// It commits the desk's records to its store.
    Commit,
    /// It serves sessions, as the session thread of that number.
    Serve(usize),
    /// It has the desk take jobs.
    Work,
    /// It sends messages to the peer with that index.
    Send(usize),
}

/// The work of the thread with that index: the first commits, then `SESSION_THREADS` serve sessions, then come
/// `WORKERS` workers, and then a sender for each peer.
fn role_of(index: usize) -> ThreadRole {
    match index {
        0 => ThreadRole::Commit,
        _ if index <= SESSION_THREADS => ThreadRole::Serve(index - 1),
        _ if index <= SESSION_THREADS + WORKERS => ThreadRole::Work,
        _ => ThreadRole::Send(index - (1 + SESSION_THREADS + WORKERS)),
    }
}

/// Commits the desk's records to its store until the desk stops, also if the store has a fault: when a thread waits for
/// a commit, and every `LONGEST_QUIET` seconds, since no thread waits for the commit of an acknowledgement.
fn commit_all<D: SharedNode, R: Wait + SystemClock>(rt: &R, desk: &D) {
    for _ in rt.forever() {
        // Read before the desk is looked at, so that no ring between the two is missed.
        let rings = desk.bells().work().rings(rt);
        match desk.commit_next(rt) {
            Ok(0) => {
                if !desk.is_running(rt) {
                    return;
                }
                desk.bells().work().wait(rt, rings);
            }
            Ok(_) => {}
            Err(_) => return,
        }
    }
}

/// The place where a session thread finds its end of the channel by which it hands jobs to workers.
type SenderSlot = Mutex<Option<Sender<JobRequest>>>;

/// An end of the channel for each session thread. Fails with `NoMemory` if memory ran out.
fn sender_slots(alloc: Global, sender: &Sender<JobRequest>) -> Result<Vec<SenderSlot>, NoMemory> {
    let mut slots = Vec::new(alloc);
    for _ in 0..SESSION_THREADS {
        slots.push(Mutex::new(Some(sender.clone()?)))?;
    }
    Ok(slots)
}

/// The end of the channel for the session thread of that number, once. When the last one is dropped, no more jobs come.
fn take_sender<R: Wait>(rt: &R, slots: &[SenderSlot], number: usize) -> Option<Sender<JobRequest>> {
    let taken = slots.get(number)?.lock(rt).take();
    taken
}

/// A node's threads: the values that they share, and how sessions hand jobs to workers.
///
/// One commits the desk's records to its store. `SESSION_THREADS` serve the connections that others make, and wait for
/// the commits of the messages that came over them. `WORKERS` have the desk take the jobs of those; at most `MOST_JOBS`
/// jobs wait. One for each peer sends it the unacknowledged messages, again every `LONGEST_QUIET` seconds while they
/// aren't received, and after longer pauses while no connection with the peer can be made. The records in their seats
/// are messages, at moments that the clock gave, and acknowledgements of messages that their peers received, and no
/// orders.
///
/// The desk stops when it is asked to, if the store has a fault, and if 100 accepts in a row failed. Then each thread
/// ends by itself: one that waits at a bell or for a worker looks at the desk again after a limited time; one that
/// waits for a connection or for a peer is woken, since the network stops for the node; a session ends at its next
/// read; and the workers end once all session threads have ended, or once no job has come for a while.
#[derive(Drop)]
pub struct NodeThreads<'a, D: SharedNode, N: Network> {
    pub node: Node,
    pub desk: &'a D,
    pub network: &'a N,
    /// The nodes that it sends to.
    pub peers: &'a [Node],
    /// The barrier at which each thread arrives once when it begins.
    barrier: &'a StartBarrier,
    pub(crate) alloc: Global,
    slots: Vec<SenderSlot>,
    pub(crate) requests: Receiver<JobRequest>,
    /// How many accepts in a row have failed, at all session threads together.
    pub(crate) failures: Mutex<u32>,
}

impl<'a, D: SharedNode, N: Network> NodeThreads<'a, D, N> {
    /// The threads of that node at its desk, which sends to these peers over that network. None has begun, and each
    /// arrives at the barrier when it does. Fails with `NoMemory` if memory ran out.
    ///
    /// The network begins for the node, since it has stopped for it if threads of the node ran before: see
    /// `run_thread`.
    pub fn new(
        alloc: Global,
        node: Node,
        desk: &'a D,
        network: &'a N,
        peers: &'a [Node],
        barrier: &'a StartBarrier,
    ) -> Result<NodeThreads<'a, D, N>, NoMemory>
        ensures node { IfOk result (λ threads. threads.node ≡ node) }
        ensures desk { IfOk result (λ threads. threads.desk ≡ desk.entry) }
        ensures network { IfOk result (λ threads. threads.network ≡ network.entry) }
        ensures peers { IfOk result (λ threads. threads.peers ≡ peers.entry) }
    {
        let (sender, requests) = crossbeam_channel::bounded(alloc, MOST_JOBS)?;
        let slots = sender_slots(alloc, &sender)?;
        network.begin(node);
        Ok(NodeThreads {
            node,
            desk,
            network,
            peers,
            barrier,
            alloc,
            slots,
            requests,
            failures: Mutex::new(0),
        })
    }

    /// How many threads the node has.
    pub fn count(&self) -> usize
        ensures { result ≡ thread_count (length self.now.peers.now) }
    {
        1 + SESSION_THREADS + WORKERS + self.peers.len()
    }

    /// Runs the thread with that index to its end, with a seat of its own at the node's desk. It arrives at the barrier
    /// first, and ends soon after the desk stops, even if other threads of the node haven't begun.
    ///
    /// The thread that commits is woken at once when the desk stops, for any reason, and then stops the network for the
    /// node. Otherwise threads that wait for a connection, or for the reply to a message, would see the stop only once
    /// their wait has ended by itself.
    pub(crate) fn run_thread<R: Wait + SystemClock>(&self, rt: &R, index: usize, seat: &mut Seat)
        requires { AreOfThread D.is_to_send
            (IsReceivedBy (N.leads self.now.network.now) N.Reader.remaining N.Writer.contents)
            (N.Clock.tells self.now.network.now) seat.old }
        ensures taken { AreOfThread D.is_to_send
            (IsReceivedBy (N.leads self.now.network.now) N.Reader.remaining N.Writer.contents)
            (N.Clock.tells self.now.network.now) seat.new }
        ensures none { HasNoOrder seat.new }
    {
        self.barrier.arrive(rt);
        match role_of(index) {
            ThreadRole::Commit => {
                commit_all(rt, self.desk);
                self.network.stop(self.node);
            }
            ThreadRole::Serve(number) => {
                if let Some(jobs) = take_sender(rt, self.slots.as_slice(), number) {
                    self.serve_all(rt, &jobs, seat);
                }
            }
            ThreadRole::Work => self.work(rt, seat),
            ThreadRole::Send(at) => {
                if let Some(peer) = self.peers.get(at) {
                    send_all(rt, self.alloc, self.desk, self.network, *peer, seat);
                }
            }
        }
    }

    /// Stops the node, none of whose threads was started, so that no thread waits for a commit.
    pub(crate) fn give_up<R: Wait>(&self, rt: &R) {
        self.desk.stop(rt);
    }
}
