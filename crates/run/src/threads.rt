//! The threads of all nodes, and the one that plays a script.
ghost use Rattle.std.specs.Prelude.{◌≡◌, ℕ, All, length, map, slice_get, vec_len, IfOk, Ok, Some};
ghost use Rattle.std.specs.Thread.{IsSync};
ghost use Rattle.desk.specs.Keeping.{IsToSend, MayOpen};
ghost use Rattle.protocol.specs.Registries.{nodes as nodes_in};
ghost use Rattle.sessions.specs.Orders.{AreAll};
ghost use Rattle.sessions.specs.Sending.{IsReceivedBy};
ghost use Rattle.sessions.specs.Threads.{AreOfThread};
ghost use Rattle.serving.specs.Orders.{IsPlayed};

use crate::gathering::ThreadSeats;
use crate::playing::play_all;
use crate::script::Script;
use crate::wiring::{NodeDesk, desks_of, nodes_to_run};
use desk::stores::NodeStore;
use desk::{Opening, Seat, SharedNode, Stored};
use protocol::nodes_of;
use serving::{ScriptAnswer, Starting, Watch};
use sessions::{Network, NodeThreads, StartBarrier, new_seats, run_all};
use std::alloc::Global;
use std::rt::Clock as SystemClock;
use std::sync::Wait;
use std::thread;
use std::thread::Threads;
use units::{NoMemory, Node};
use world::Core;

/// The results of a script: an answer to each line, and the seats that noted them, one at each desk.
#[derive(Drop)]
pub(crate) struct Played {
    pub seats: Vec<Seat>,
    pub answers: Vec<ScriptAnswer>,
}

/// The notes made at the desks of all nodes: by the threads of each node, and by the script.
#[derive(Drop)]
pub(crate) struct Heard {
    pub threads: Vec<ThreadSeats>,
    pub script: Played,
}

/// The nodes of a run whose threads have ended: their names, their desks, and the notes made there, by the threads of
/// each node and by the script.
#[derive(Drop)]
pub(crate) struct EndingNodes<O: Opening, S: NodeStore + Drop> {
    pub names: Vec<Node>,
    pub desks: Vec<NodeDesk<O, S>>,
    pub threads: Vec<ThreadSeats>,
    pub script: Vec<Seat>,
}

/// The remains of a run: its nodes, and an answer to each line of the script.
#[derive(Drop)]
pub(crate) struct Run<O: Opening, S: NodeStore + Drop> {
    pub nodes: EndingNodes<O, S>,
    pub answers: Vec<ScriptAnswer>,
}

/// Plays the script with new seats at these desks of all nodes.
fn play_with_seats<D: SharedNode, P: Watch, R: Wait + SystemClock>(
    rt: &R,
    alloc: Global,
    script: &Script<'_>,
    desks: &[D],
    watch: &mut P,
) -> Result<Played, NoMemory>
    requires { length desks.now ≡ length (nodes_in script.now.scheme.now) }
    ensures played { IfOk result
        (λ p. IsPlayed script.now.scheme.now script.now.lines.now p.answers.items p.seats.items) }
    ensures seats { IfOk result (λ p. vec_len p.seats ≡ length (nodes_in script.now.scheme.now)) }
{
    let mut seats = new_seats(alloc, desks.len())?;
    let answers = play_all(
        rt,
        alloc,
        script.scheme,
        desks,
        seats.as_mut_slice(),
        script.lines,
        watch,
    )?;
    Ok(Played { seats, answers })
}

/// Plays the script with new seats once these threads have begun, and then stops all nodes. Fails with `NoMemory` if
/// one is missing: then no order was given and nothing asked.
fn play_and_stop<D: SharedNode, P: Watch, R: Wait + SystemClock>(
    rt: &R,
    alloc: Global,
    script: &Script<'_>,
    desks: &[D],
    starting: &Starting<'_>,
    watch: &mut P,
) -> Result<Played, NoMemory>
    requires { length desks.now ≡ length (nodes_in script.now.scheme.now) }
    ensures played { IfOk result
        (λ p. IsPlayed script.now.scheme.now script.now.lines.now p.answers.items p.seats.items) }
    ensures seats { IfOk result (λ p. vec_len p.seats ≡ length (nodes_in script.now.scheme.now)) }
{
    let played = match starting.wait(rt) {
        Ok(()) => play_with_seats(rt, alloc, script, desks, watch),
        Err(NoMemory) => Err(NoMemory),
    };
    for desk in desks {
        desk.stop(rt);
    }
    played
}

/// How many threads those nodes have.
fn count_threads<D: SharedNode, N: Network>(nodes: &[NodeThreads<'_, D, N>]) -> usize {
    let mut threads: usize = 0;
    for node in nodes {
        threads = threads.saturating_add(node.count());
    }
    threads
}

/// Runs the nodes in threads of their own while the script is played at their desks, which begins once all threads have
/// arrived at that barrier, and then stops all nodes. Fails with `NoMemory` if memory for the threads or for the answers
/// ran out, or if a thread didn't arrive.
///
/// If the system has no thread for the nodes, they begin when the script has ended: it was not played, since no thread
/// arrived, and all desks have stopped, so the nodes end at once.
fn run_beside<D, N, P, R>(
    rt: &R,
    alloc: Global,
    nodes: Vec<NodeThreads<'_, D, N>>,
    script: &Script<'_>,
    desks: &[D],
    barrier: &StartBarrier,
    watch: &mut P,
) -> Result<Heard, NoMemory>
where
    D: SharedNode + Sync,
    N: Network,
    P: Watch,
    R: Threads + Wait + SystemClock + Sync,
    requires { length desks.now ≡ length (nodes_in script.now.scheme.now) }
    ensures len { IfOk result (λ heard. vec_len heard.threads ≡ vec_len nodes.entry) }
    ensures taken { IfOk result
        (λ heard. (k : ℕ) (node : _) (seats : _) → slice_get nodes.entry.items k ≡ Some node
        → slice_get heard.threads.items k ≡ Some (Ok seats)
        → All (AreOfThread D.is_to_send
        (IsReceivedBy (N.leads node.network.now) N.Reader.remaining N.Writer.contents)
        (N.Clock.tells node.network.now)) seats.items) }
    ensures played { IfOk result
        (λ heard. IsPlayed script.now.scheme.now script.now.lines.now heard.script.answers.items
        heard.script.seats.items) }
    ensures seats { IfOk result (λ heard. vec_len heard.script.seats ≡ length (nodes_in script.now.scheme.now)) }
{
    let starting = Starting {
        barrier,
        threads: count_threads(nodes.as_slice()),
    };
    let (threads, played) = thread::join(
        rt,
        move || -> Result<Vec<ThreadSeats>, NoMemory>
            requires { IsSync R.row }
            ensures len { IfOk result (λ v. vec_len v ≡ vec_len nodes.entry) }
            ensures taken { IfOk result
                (λ v. (k : ℕ) (node : _) (seats : _) → slice_get nodes.entry.items k ≡ Some node
                → slice_get v.items k ≡ Some (Ok seats)
                → All (AreOfThread D.is_to_send
                (IsReceivedBy (N.leads node.network.now) N.Reader.remaining N.Writer.contents)
                (N.Clock.tells node.network.now)) seats.items) }
        { run_all(rt, alloc, nodes) },
        move || -> Result<Played, NoMemory>
            requires { length desks.now ≡ length (nodes_in script.now.scheme.now) }
            ensures played { IfOk result
                (λ p. IsPlayed script.entry.now.scheme.now script.entry.now.lines.now p.answers.items p.seats.items) }
            ensures seats { IfOk result (λ p. vec_len p.seats ≡ length (nodes_in script.entry.now.scheme.now)) }
        { play_and_stop(rt, alloc, script, desks, &starting, watch) },
    );
    Ok(Heard {
        threads: threads?,
        script: played?,
    })
}

/// Runs the nodes at these desks over that network while the script is played, as `run_beside` does.
fn run_desks<D, N, P, R>(
    rt: &R,
    alloc: Global,
    script: &Script<'_>,
    names: &[Node],
    desks: &[D],
    network: &N,
    watch: &mut P,
) -> Result<Heard, NoMemory>
where
    D: SharedNode + Sync,
    N: Network,
    P: Watch,
    R: Threads + Wait + SystemClock + Sync,
    requires names { names.now ≡ nodes_in script.now.scheme.now }
    requires desks { length desks.now ≡ length names.now }
    ensures taken { IfOk result
        (λ heard. AreAll (AreOfThread D.is_to_send
        (IsReceivedBy (N.leads network.now) N.Reader.remaining N.Writer.contents)
        (N.Clock.tells network.now)) heard.threads.items) }
    ensures played { IfOk result
        (λ heard. IsPlayed script.now.scheme.now script.now.lines.now heard.script.answers.items
        heard.script.seats.items) }
    ensures seats { IfOk result (λ heard. vec_len heard.script.seats ≡ length (nodes_in script.now.scheme.now)) }
{
    let barrier = StartBarrier::new();
    let nodes = nodes_to_run(alloc, names, desks, network, &barrier)?;
    run_beside(rt, alloc, nodes, script, desks, &barrier, watch)
}

/// Makes a desk of each node's state, and runs the nodes in threads of their own while the script's lines are ordered
/// and asked one after another; then stops all nodes, and returns once their threads have ended. The first line waits
/// for all threads to begin. The watch is called for each line. The answer to each order and each question comes once
/// all records are committed that the node's journal had then.
///
/// # Errors
///
/// Fails with `NoMemory` if memory ran out before a thread was started, for the threads or for the answers. It also
/// fails with `NoMemory` if the system had too few threads: some were missing, and for `LONGEST_START` seconds no
/// further one began. Then no line was ordered or asked. All nodes have stopped in any case.
pub(crate) fn run_and_play<O, N, P, R>(
    rt: &R,
    alloc: Global,
    script: &Script<'_>,
    loaded: Vec<Stored<Core, N::Store>>,
    network: &N,
    watch: &mut P,
) -> Result<Run<O, N::Store>, NoMemory>
where
    O: Opening + Send,
    N: Network,
    P: Watch,
    R: Threads + Wait + SystemClock + Sync,
    requires nodes { map (λ s. s.state.node) loaded.items ≡ nodes_in script.now.scheme.now }
    requires may_open { All (MayOpen N.Store.NodeStore O.opened) loaded.items }
    ensures names { IfOk result (λ run. run.nodes.names.items ≡ nodes_in script.now.scheme.now) }
    ensures desks { IfOk result (λ run. vec_len run.nodes.desks ≡ length run.nodes.names.items) }
    ensures taken { IfOk result
        (λ run. AreAll (AreOfThread (IsToSend N.Store.NodeStore O.opened)
        (IsReceivedBy (N.leads network.now) N.Reader.remaining N.Writer.contents)
        (N.Clock.tells network.now)) run.nodes.threads.items) }
    ensures played { IfOk result
        (λ run. IsPlayed script.now.scheme.now script.now.lines.now run.answers.items run.nodes.script.items) }
    ensures seats { IfOk result (λ run. vec_len run.nodes.script ≡ length (nodes_in script.now.scheme.now)) }
{
    let names = nodes_of(alloc, script.scheme)?;
    let desks = desks_of::<O, N::Store>(alloc, names.as_slice(), loaded)?;
    let Heard {
        threads,
        script: played,
    } = run_desks(
        rt,
        alloc,
        script,
        names.as_slice(),
        desks.as_slice(),
        network,
        watch,
    )?;
    let Played { seats, answers } = played;
    let nodes = EndingNodes {
        names,
        desks,
        threads,
        script: seats,
    };
    Ok(Run { nodes, answers })
}
