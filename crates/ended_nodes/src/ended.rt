//! The nodes after a run: each is settled, and the table is that of a run that leads to their records.
ghost use Rattle.std.specs.Prelude.{◌≡◌, ◌<◌, [], ℕ, All, List, length, map, IfErr, IfOk, OnOk, string_bytes};
ghost use Rattle.std.specs.Io.KnownBytes.{Appends};
ghost use Rattle.protocol.specs.Registries.{nodes};
ghost use Rattle.settling.specs.Settling.{IsSettled};
ghost use Rattle.node_state.specs.Views.{committed_records};
ghost use Rattle.ended_nodes.specs.Ended.{seats_in, states_in};
ghost use Rattle.ended_nodes.specs.Reported.{FailsToReport, IsReported, IsTableFault};
ghost use Rattle.ended_nodes.specs.Settled.{AreSettled, FailsToSettle, FailsToSettleAt};
ghost use Rattle.world.specs.Cores.{journal_of, node_of, scheme_of};

use command_faults::{OpFault, write_out};
use desk::{Seat, State, Stored, Unsettled, settle_with};
use loading::table_of_cores;
use protocol::scheme::Scheme;
use protocol::{NodeCore, nodes_of};
use report::Form;
use std::alloc::Global;
use std::io::Write;
use stores::NodeStore;
use units::Node;
use weave::{Nobody, Watch};
use world::Core;

/// A node after a run: its state with its store, and the seats that have notes of its desk.
#[derive(Drop)]
pub struct EndedNode<S: NodeStore> {
    pub stored: Stored<Core, S>,
    pub seats: Vec<Seat>,
}

/// Settles a node under the scheme: checks that the notes of these seats are those that one thread alone would have
/// got. Returns a core that has recorded the committed records.
///
/// # Errors
///
/// Fails with `Unsettled` where the notes differ, and with `NoMemory` where memory ran out.
pub fn settle_node(
    alloc: Global,
    scheme: &Scheme,
    node: Node,
    state: &State<Core>,
    seats: &[Seat],
) -> Result<Core, OpFault>
    ensures ok { OnOk result (IsSettled scheme.now node state.now seats.now) }
    ensures scheme { IfOk result (λ core. scheme_of core ≡ scheme.now) }
    ensures node { IfOk result (λ core. node_of core ≡ node) }
    ensures journal { IfOk result (λ core. journal_of core ≡ committed_records state.now) }
    ensures err { IfErr result (FailsToSettleAt scheme.now node state.now seats.now) }
{
    let core = Core::new(alloc, scheme, node)?;
    match settle_with(core, state, seats) {
        Ok(settled) => Ok(settled.core),
        Err(Unsettled::NoMemory) => Err(OpFault::NoMemory),
        Err(_) => Err(OpFault::Unsettled { node }),
    }
}

/// Settles these nodes, which are all of the scheme's, and adds their cores to an empty list. Reports each node's
/// number of records.
fn add_settled<S: NodeStore, P: Watch>(
    cores: &mut Vec<Core>,
    alloc: Global,
    scheme: &Scheme,
    names: &[Node],
    ended: &[EndedNode<S>],
    watch: &mut P,
) -> Result<(), OpFault>
    requires empty { cores.old.items ≡ [] }
    requires all { names.now ≡ nodes scheme.now }
    requires ended { length ended.now ≡ length (nodes scheme.now) }
    ensures ok { OnOk result (AreSettled scheme.now (states_in ended.now) (seats_in ended.now)) }
    ensures nodes { OnOk result (map node_of cores.new.items ≡ nodes scheme.now) }
    ensures schemes { OnOk result (All (λ core. scheme_of core ≡ scheme.now) cores.new.items) }
    ensures journals { OnOk result (map journal_of cores.new.items ≡ map committed_records (states_in ended.now)) }
    ensures err { IfErr result (FailsToSettle scheme.now (states_in ended.now) (seats_in ended.now)) }
{
    for at in 0..ended.len() {
        if cores.reserve(1).is_err() {
            return Err(OpFault::NoMemory);
        }
        let node = &ended[at];
        match settle_node(
            alloc,
            scheme,
            names[at],
            node.stored.state(),
            node.seats.as_slice(),
        ) {
            Ok(core) => {
                watch.read(core.records());
                cores.push_reserved(core);
            }
            Err(fault) => return Err(fault),
        }
    }
    Ok(())
}

/// Settles all nodes: the log, then the registries in the scheme's order. Returns their cores, which have the committed
/// records, and reports these records.
fn settle_all<S: NodeStore, P: Watch>(
    alloc: Global,
    scheme: &Scheme,
    ended: &[EndedNode<S>],
    watch: &mut P,
) -> Result<Vec<Core>, OpFault>
    requires ended { length ended.now ≡ length (nodes scheme.now) }
    ensures ok { OnOk result (AreSettled scheme.now (states_in ended.now) (seats_in ended.now)) }
    ensures nodes { IfOk result (λ v. map node_of v.items ≡ nodes scheme.now) }
    ensures schemes { IfOk result (λ v. All (λ core. scheme_of core ≡ scheme.now) v.items) }
    ensures journals { IfOk result (λ v. map journal_of v.items ≡ map committed_records (states_in ended.now)) }
    ensures err { IfErr result (FailsToSettle scheme.now (states_in ended.now) (seats_in ended.now)) }
{
    let names = nodes_of(alloc, scheme)?;
    let mut cores = Vec::new(alloc);
    match add_settled(&mut cores, alloc, scheme, names.as_slice(), ended, watch) {
        Ok(()) => Ok(cores),
        Err(fault) => {
            drop(cores);
            Err(fault)
        }
    }
}

/// Settles the nodes and finds a run that leads to their committed records, as `report_run` does, and returns the table
/// of the world that the run leads to. Reports the records as they are settled and woven.
///
/// # Errors
///
/// Fails with `Unsettled`, `Stuck` and `NoMemory` as `report_run` does.
pub fn table_of_ended<S: NodeStore, P: Watch>(
    alloc: Global,
    scheme: &Scheme,
    ended: &[EndedNode<S>],
    watch: &mut P,
) -> Result<String, OpFault>
    requires ended { length ended.now ≡ length (nodes scheme.now) }
    ensures ok { IfOk result (λ s. IsReported scheme.now (states_in ended.now) (seats_in ended.now)
        (string_bytes s)) }
    ensures err { IfErr result (IsTableFault scheme.now (states_in ended.now) (seats_in ended.now)) }
{
    match settle_all(alloc, scheme, ended, watch) {
        Ok(cores) => table_of_cores(alloc, scheme, cores, Form::Lines, watch),
        Err(fault) => Err(fault),
    }
}

/// Settles each node with the seats of its threads: checks that their notes are those that one thread alone would have
/// got. Finds a run that leads to the committed records of all nodes and to no others, and writes the table of the
/// world that it leads to.
///
/// The nodes, each with its state, its store and its seats, are the log, and then the registries in the scheme's order.
/// A node is settled by its core under the scheme, regardless of the scheme of its state.
///
/// # Errors
///
/// Nothing is written, except where the output failed:
///
/// - `Unsettled`: the notes of a node's threads differ, or its journal isn't recorded under the scheme; it is the first
///   such node in that order.
/// - `Stuck`: no run leads to the committed records. Followed as far as they go, the node is the first with a record
///   left, and the place is that record's.
/// - `Write`: the output failed, after the number of bytes in the fault.
/// - `NoMemory`: out of memory.
pub fn report_run<S: NodeStore, W: Write>(
    alloc: Global,
    scheme: &Scheme,
    ended: &[EndedNode<S>],
    writer: &mut W,
) -> Result<(), OpFault>
    requires ended { length ended.now ≡ length (nodes scheme.now) }
    ensures ok { OnOk result ((table : List ℕ)
        × IsReported scheme.now (states_in ended.now) (seats_in ended.now) table
        × Appends (W.contents writer.old) (W.contents writer.new) table) }
    ensures err { IfErr result
        (λ e. FailsToReport e scheme.now (states_in ended.now) (seats_in ended.now) (W.contents writer.old)
        (W.contents writer.new)) }
{
    match table_of_ended(alloc, scheme, ended, &mut Nobody) {
        Ok(table) => write_out(writer, table.as_str()),
        Err(fault) => Err(fault),
    }
}
