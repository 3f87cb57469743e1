//! The life of a node that stands alone, until its operator ends it.
ghost use Rattle.std.specs.Prelude.{◌≡◌, ◌++◌, ◌∷◌, [], true, false, ℕ, List, All, IfOk, Ok, OnOk, length, string_bytes};
ghost use Rattle.std.specs.Io.KnownBytes.{Appends};
ghost use Rattle.desk.specs.Keeping.{IsKept, IsToSend, MayOpen};
ghost use Rattle.node_state.specs.Views.{committed_records, opened_with};
ghost use Rattle.protocol.specs.Input.{Input as AnInput};
ghost use Rattle.protocol.specs.Registries.{is_node};
ghost use Rattle.protocol.specs.Scheme.{Scheme as AScheme};
ghost use Rattle.units.specs.declared.code.Node.{Node as ANode};
ghost use Rattle.sessions.specs.Orders.{HasNoOrder};
ghost use Rattle.sessions.specs.Sending.{IsReceivedBy};
ghost use Rattle.sessions.specs.Threads.{AreOfThread, IsOfThread};
ghost use Rattle.one_node.specs.Lives.{EndsSettled, IsLife, opens_with, records_line};
ghost use Rattle.one_node.specs.Operating.{Operates};

use crate::evidence::Evidence;
use crate::exporting::Exporter;
use crate::operator::{Client, Next, Operator};
use crate::threads::Remains;
use crate::timer::Timer;
use command_faults::{OpFault, write_out};
use desk::stores::NodeStore;
use desk::{Desk, Opening, RoomBell, Seat, SharedNode, Stored};
use ended_nodes::settle_node;
use protocol::NodeCore;
use protocol::scheme::Scheme;
use serving::{desk_of, end_desk};
use sessions::{Network, NodeThreads, StartBarrier};
use settling::begins_with;
use std::alloc::Global;
use std::fmt::Write as FmtWrite;
use std::io::{Read, Write};
use std::marker::Brand;
use std::rt::Clock as SystemClock;
use std::sync::Wait;
use std::thread::Threads;
use std::time::Duration;
use units::{NoMemory, Node};
use world::Core;

/// How a node that stands alone is run: the scheme, the nodes that it sends to, how it meets them, and how often its
/// clock orders a clean-up, if it does.
#[derive(Drop)]
pub struct Setting<'a, N: Network> {
    pub scheme: &'a Scheme,
    pub peers: &'a [Node],
    pub network: &'a N,
    pub clean_up: Option<Duration>,
}

/// Runs the node at its desk, and writes the results of the operator's lines, which rest on the evidence. It has six
/// type parameters: the desk, the network, the exporter, the operator's two streams, and the system; and eight
/// arguments: those of `live`, and what it has made.
fn run_desk<D, N, E, I, W, R>(
    rt: &R,
    setting: &Setting<'_, N>,
    node: Node,
    desk: &D,
    exporter: &E,
    operator: &mut Operator,
    evidence: Evidence,
    reader: &mut I,
    writer: &mut W,
) -> Result<Remains, OpFault>
where
    D: SharedNode + Sync,
    N: Network,
    E: Exporter,
    I: Read,
    W: Write,
    R: Threads + Wait + SystemClock + Sync,
    requires member { is_node setting.now.scheme.now node ≡ true }
    ensures taken { IfOk result (λ s. All (AreOfThread D.is_to_send
        (IsReceivedBy (N.leads setting.now.network.now) N.Reader.remaining N.Writer.contents)
        (N.Clock.tells setting.now.network.now)) s.threads.items) }
    ensures none { IfOk result (λ s. All HasNoOrder s.threads.items) }
    ensures talks { IfOk result (λ s. Operates setting.now.scheme.now node
        (N.Clock.tells setting.now.network.now) (E.holds exporter.now node)
        operator.old.line.held.items operator.new.line.held.items (I.remaining reader.old) (I.remaining reader.new)
        (W.contents writer.old) (W.contents writer.new) operator.old.count operator.new.count evidence s.evidence
        (Ok s.next)) }
{
    let barrier = StartBarrier::new();
    let threads = NodeThreads::new(
        operator.alloc,
        node,
        desk,
        setting.network,
        setting.peers,
        &barrier,
    )?;
    let client = Client {
        scheme: setting.scheme,
        node,
        desk,
        network: setting.network,
    };
    operator.run_threads(
        rt, &client, &threads, &barrier, exporter, evidence, reader, writer,
    )
}

/// The seats of the node's threads, and the operator's after them. Fails with `NoMemory` if memory ran out.
fn all_seats(threads: Vec<Seat>, seat: Seat) -> Result<Vec<Seat>, NoMemory>
    ensures { IfOk result (λ v. v.items ≡ threads.items ++ seat ∷ []) }
{
    let mut seats = threads;
    if seats.reserve(1).is_err() {
        drop(seats);
        drop(seat);
        return Err(NoMemory);
    }
    seats.push_reserved(seat);
    Ok(seats)
}

/// Takes the node's desk apart, which no thread shares any more, and settles the notes made at it. Its committed
/// records begin with those of the evidence.
///
/// # Errors
///
/// Fails with the fault that stopped the store, if one did; with `NoMemory` if the desk stopped for another reason,
/// since memory ran out for its connections; and with `Unsettled` if the notes of the threads and the operator aren't
/// those that a single thread would have made, or the records aren't those that were followed.
fn end_node<K: Opening, S: NodeStore + Drop>(
    alloc: Global,
    scheme: &Scheme,
    node: Node,
    desk: Desk<K, Core, S, RoomBell>,
    remains: Remains,
) -> Result<Stored<Core, S>, OpFault>
    ensures ends { IfOk result
        (λ s. EndsSettled S.NodeStore K.opened scheme.now node s remains.threads.items remains.evidence) }
    ensures asked { OnOk result (remains.next ≡ Next.End) }
{
    let Remains {
        threads,
        evidence,
        next,
    } = remains;
    let stored = end_desk(node, desk)?;
    let Next::End = next else {
        return Err(OpFault::NoMemory);
    };
    let Evidence { seat, replica, .. } = evidence;
    if !begins_with(stored.state().committed(), replica.records()) {
        return Err(OpFault::Unsettled { node });
    }
    drop(replica);
    let seats = all_seats(threads, seat)?;
    let core = settle_node(alloc, scheme, node, stored.state(), seats.as_slice())?;
    drop(core);
    drop(seats);
    Ok(stored)
}

/// The last line of a node with that many records.
fn last_line(alloc: Global, records: usize) -> Result<String, NoMemory>
    ensures { IfOk result (λ s. string_bytes s ≡ records_line records) }
{
    let mut text = String::new(alloc);
    writeln!(text, "records {records}")?;
    Ok(text)
}

/// Writes the last line, with the number of the node's committed records.
fn write_end<C: NodeCore, S: NodeStore, W: Write>(
    alloc: Global,
    stored: &Stored<C, S>,
    writer: &mut W,
) -> Result<(), OpFault>
    ensures { OnOk result (Appends (W.contents writer.old) (W.contents writer.new)
        (records_line (length (committed_records stored.now.state)))) }
{
    let text = last_line(alloc, stored.state().committed().len())?;
    write_out(writer, text.as_str())
}

/// As `run_alone`, with `K` for what is known of the desk when it opens. It has six type parameters, since `run_alone`
/// picks `K` and passes on all of its own.
fn live<K, N, E, I, W, R>(
    rt: &R,
    alloc: Global,
    setting: &Setting<'_, N>,
    loaded: Stored<Core, N::Store>,
    exporter: &E,
    reader: &mut I,
    writer: &mut W,
) -> Result<Stored<Core, N::Store>, OpFault>
where
    K: Opening + Send,
    N: Network,
    E: Exporter,
    I: Read,
    W: Write,
    R: Threads + Wait + SystemClock + Sync,
    requires member { is_node setting.now.scheme.now loaded.state.node ≡ true }
    requires may_open { MayOpen N.Store.NodeStore K.opened loaded }
    requires opens { (scheme : AScheme) (n : ANode) (journal : List AnInput) (faults : ℕ)
        → K.opened scheme n journal faults → opens_with setting.now.scheme.now loaded.state.node loaded.state.journal
        scheme n journal faults }
    ensures life { IfOk result (λ s. IsLife setting.now.scheme.now loaded.state.node
        (N.Clock.tells setting.now.network.now) (IsOfThread (IsToSend N.Store.NodeStore K.opened)
        (IsReceivedBy (N.leads setting.now.network.now) N.Reader.remaining N.Writer.contents)
        (N.Clock.tells setting.now.network.now))
        (E.holds exporter.now loaded.state.node) loaded.state.journal
        (committed_records s.state) (I.remaining reader.old) (I.remaining reader.new) (W.contents writer.old) (W.contents writer.new)) }
    ensures keeps { IfOk result (IsKept N.Store.NodeStore) }
{
    let node = loaded.state().node();
    let mut operator = Operator::new(alloc, Timer::new(rt, setting.clean_up))?;
    let evidence = Evidence::new(alloc, Core::new(alloc, setting.scheme, node)?);
    let desk = desk_of::<K, N::Store>(alloc, setting.peers, loaded)?;
    let ran = run_desk(
        rt,
        setting,
        node,
        &desk,
        exporter,
        &mut operator,
        evidence,
        reader,
        writer,
    );
    match ran {
        Ok(remains) => {
            let stored = end_node::<K, N::Store>(alloc, setting.scheme, node, desk, remains)?;
            write_end(alloc, &stored, writer)?;
            Ok(stored)
        }
        Err(fault) => {
            drop(desk);
            Err(fault)
        }
    }
}

/// Runs one node of a scheme in threads, and writes the result of each line of its operator as soon as it is committed.
/// The lines are orders and questions as a script has them, without the node's name, and `export PATH`, for which the
/// records are written into a new store at the path while the threads go on. At the line `stop`, or at the end of the
/// lines, the node stops, its threads end, and the number of its committed records is written as the last line. The
/// reader may fail with `WouldBlock`, `TimedOut` or `Interrupted` while no line has come yet, and must do so now and
/// then: between two reads clean-ups are ordered, a node whose store failed is ended, and the notes of the operator's
/// results are judged once there are many of them.
///
/// Returns the state with its store. The journal begins with the records that it was loaded with, and with the records
/// of each export, and bears out each written result. After the records that it was loaded with it has the operator's
/// orders whose result was that they are recorded, in their order, each once, and the clean-ups that the clock ordered.
/// Every other record is a message, at a moment that the clock gave, or the acknowledgement of a message that the store
/// had as a committed record's, and whose peer replied, over a connection, that it was received.
///
/// # Errors
///
/// The store is closed then, and its records are still there. Fails with
///
/// - `Store`: the store failed, and this has stopped the node.
/// - `Unsettled`: the notes of the threads and the operator aren't those that a single thread would have made.
/// - `Read`: the reader failed.
/// - `Write`: the output failed, after the number of bytes of a line that the fault has.
/// - `NoMemory`: memory ran out, also for 100 connections in a row, or the system had too few threads.
///
/// It has five type parameters: the network, the exporter, the operator's two streams, and the system.
pub fn run_alone<N, E, I, W, R>(
    rt: &R,
    alloc: Global,
    setting: &Setting<'_, N>,
    loaded: Stored<Core, N::Store>,
    exporter: &E,
    reader: &mut I,
    writer: &mut W,
) -> Result<Stored<Core, N::Store>, OpFault>
where
    N: Network,
    E: Exporter,
    I: Read,
    W: Write,
    R: Threads + Wait + SystemClock + Sync,
    requires member { is_node setting.now.scheme.now loaded.state.node ≡ true }
    requires opened { loaded.state
        ≡ opened_with setting.now.scheme.now loaded.state.node loaded.state.journal }
    ensures life { IfOk result (λ s. IsLife setting.now.scheme.now loaded.state.node
        (N.Clock.tells setting.now.network.now) (IsOfThread
        (IsToSend N.Store.NodeStore
        (opens_with setting.now.scheme.now loaded.state.node loaded.state.journal))
        (IsReceivedBy (N.leads setting.now.network.now) N.Reader.remaining N.Writer.contents)
        (N.Clock.tells setting.now.network.now))
        (E.holds exporter.now loaded.state.node) loaded.state.journal
        (committed_records s.state) (I.remaining reader.old) (I.remaining reader.new) (W.contents writer.old) (W.contents writer.new)) }
    ensures keeps { IfOk result (IsKept N.Store.NodeStore) }
{
    live::<Brand, N, E, I, W, R>(rt, alloc, setting, loaded, exporter, reader, writer)
}
