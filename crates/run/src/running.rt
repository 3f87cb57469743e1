//! A script, played while all nodes run in threads of their own.
ghost use Rattle.std.specs.Prelude.{◌≡◌, ◌++◌, ℕ, false, All, List, length, map, vec_len, IfErr, IfOk, string_bytes};
ghost use Rattle.std.specs.Io.KnownBytes.{Appends};
ghost use Rattle.protocol.specs.Registries.{nodes as all_nodes};
ghost use Rattle.protocol.specs.Input.{Input as AnInput};
ghost use Rattle.desk.specs.Keeping.{IsToSend, MayOpen};
ghost use Rattle.node_state.specs.Views.{SeatView, opened_with};
ghost use Rattle.input_lines.specs.declared.script_line.ScriptLine.{ScriptLine as ALine};
ghost use Rattle.serving.specs.Answers.{answer_lines, first_undone};
ghost use Rattle.ended_nodes.specs.Ended.{seats_in, states_in, stored_in};
ghost use Rattle.serving.specs.Orders.{IsPlayed};
ghost use Rattle.sessions.specs.Orders.{AreAll, HasOnly, was_ordered};
ghost use Rattle.sessions.specs.Sending.{IsReceivedBy};
ghost use Rattle.sessions.specs.Threads.{IsOfThread};
ghost use Rattle.run.specs.Gathered.{AreGathered};
ghost use Rattle.ended_nodes.specs.Reported.{IsTableFault};
ghost use Rattle.run.specs.Runs.{FailsToRun, HaveOthers, IsLoadedAmong, IsRunReport};
ghost use Rattle.serving.specs.Ends.{HaveEnded, IsLateFault};
ghost use Rattle.serving.specs.declared.answer.ScriptAnswer.{ScriptAnswer as AnAnswer};

use crate::gathering::end_all;
use crate::script::Script;
use crate::taking::Taking;
use crate::threads::{EndingNodes, Run, run_and_play};
use command_faults::{OpFault, write_out};
use desk::stores::NodeStore;
use desk::{Opening, Stored};
use ended_nodes::{EndedNode, table_of_ended};
use protocol::scheme::Scheme;
use serving::{Watch, first_undone, lines_of};
use sessions::Network;
use std::alloc::Global;
use std::io::Write;
use std::marker::Brand;
use std::rt::Clock as SystemClock;
use std::sync::Wait;
use std::thread::Threads;
use units::NoMemory;
use world::Core;

/// What a run leaves.
#[derive(Drop)]
pub struct EndedRun<S: NodeStore> {
    /// The nodes as they ended.
    pub nodes: Vec<EndedNode<S>>,
    /// The number of the first line of the script that was not carried out, counted from 1; `None` if there is none.
    pub undone: Option<u64>,
}

fn joined(alloc: Global, first: &str, second: &str) -> Result<String, NoMemory>
    ensures { IfOk result (λ s. string_bytes s ≡ first.now ++ second.now) }
{
    let mut text = String::from_str(alloc, first)?;
    text.push_str(second)?;
    Ok(text)
}

/// The answers, and then the table of the records that these nodes have committed.
fn with_table<T: Taking, S: NodeStore, P: weave::Watch>(
    alloc: Global,
    scheme: &Scheme,
    ended: &[EndedNode<S>],
    answers: &str,
    watch: &mut P,
) -> Result<String, OpFault>
    requires ended { length ended.now ≡ length (all_nodes scheme.now) }
    requires unordered { (input : AnInput) → T.takes input → was_ordered input ≡ false }
    ensures ok { IfOk result
        (λ s. (own : List SeatView) → length own ≡ length (all_nodes scheme.now)
        → AreGathered T.takes own (seats_in ended.now)
        → (lines : List ALine) (told : List AnAnswer) → IsPlayed scheme.now lines told own
        → answers.now ≡ answer_lines 1 told
        → IsRunReport scheme.now lines (states_in ended.now) (first_undone 1 lines told) (string_bytes s)
        × HaveOthers T.takes scheme.now (states_in ended.now)) }
    ensures err { IfErr result (IsTableFault scheme.now (states_in ended.now) (seats_in ended.now)) }
{
    match table_of_ended(alloc, scheme, ended, watch) {
        Ok(table) => Ok(joined(alloc, answers, table.as_str())?),
        Err(fault) => Err(fault),
    }
}

/// The nodes that a run leaves, and the answers with the table of their committed records.
#[derive(Drop)]
struct Whole<S: NodeStore> {
    ended: Vec<EndedNode<S>>,
    text: String,
}

/// Ends these nodes at their desks, and adds the table of their committed records to the answers.
fn whole_of<K: Opening + Taking, S: NodeStore + Drop, P: weave::Watch>(
    alloc: Global,
    scheme: &Scheme,
    nodes: EndingNodes<K, S>,
    answers: &str,
    watch: &mut P,
) -> Result<Whole<S>, OpFault>
    requires names { nodes.names.items ≡ all_nodes scheme.now }
    requires desks { vec_len nodes.desks ≡ length nodes.names.items }
    requires taken { AreAll (HasOnly K.takes) nodes.threads.items }
    requires seats { vec_len nodes.script ≡ length (all_nodes scheme.now) }
    requires unordered { (input : AnInput) → K.takes input → was_ordered input ≡ false }
    ensures ok { IfOk result
        (λ w. (lines : List ALine) (told : List AnAnswer) → IsPlayed scheme.now lines told nodes.script.items
        → answers.now ≡ answer_lines 1 told
        → IsRunReport scheme.now lines (states_in w.ended.items) (first_undone 1 lines told) (string_bytes w.text)
        × HaveOthers K.takes scheme.now (states_in w.ended.items)) }
    ensures ended { IfOk result (λ w. HaveEnded S.NodeStore K.opened scheme.now (stored_in w.ended.items)) }
    ensures err { IfErr result (IsLateFault S.NodeStore K.opened scheme.now) }
{
    let EndingNodes {
        names,
        desks,
        threads,
        script,
    } = nodes;
    let ended = end_all::<K, S>(alloc, names.as_slice(), desks, threads, script)?;
    let text = with_table::<K, S, P>(alloc, scheme, ended.as_slice(), answers, watch);
    watch.finished();
    match text {
        Ok(text) => Ok(Whole { ended, text }),
        Err(fault) => {
            drop(ended);
            Err(fault)
        }
    }
}

/// Writes the results of a run: the answers in any case, and then the table or the fault. Returns what the run leaves.
fn write_run<K: Opening + Taking, S: NodeStore + Drop, W: Write, P: weave::Watch>(
    alloc: Global,
    script: &Script<'_>,
    run: Run<K, S>,
    writer: &mut W,
    watch: &mut P,
) -> Result<EndedRun<S>, OpFault>
    requires names { run.nodes.names.items ≡ all_nodes script.now.scheme.now }
    requires desks { vec_len run.nodes.desks ≡ length run.nodes.names.items }
    requires taken { AreAll (HasOnly K.takes) run.nodes.threads.items }
    requires seats { vec_len run.nodes.script ≡ length (all_nodes script.now.scheme.now) }
    requires played { IsPlayed script.now.scheme.now script.now.lines.now run.answers.items run.nodes.script.items }
    requires unordered { (input : AnInput) → K.takes input → was_ordered input ≡ false }
    ensures ok { IfOk result
        (λ r. (text : List ℕ)
        × IsRunReport script.now.scheme.now script.now.lines.now (states_in r.nodes.items) r.undone text
        × Appends (W.contents writer.old) (W.contents writer.new) text) }
    ensures others { IfOk result (λ r. HaveOthers K.takes script.now.scheme.now (states_in r.nodes.items)) }
    ensures ended { IfOk result
        (λ r. HaveEnded S.NodeStore K.opened script.now.scheme.now (stored_in r.nodes.items)) }
    ensures err { IfErr result
        (λ e. FailsToRun S.NodeStore K.opened e script.now.scheme.now script.now.lines.now
        (W.contents writer.old) (W.contents writer.new)) }
{
    let Run { nodes, answers } = run;
    let told = answers.as_slice();
    let Ok(text) = lines_of(alloc, told) else {
        return Err(OpFault::NoMemory);
    };
    let undone = first_undone(script.lines, told);
    match whole_of::<K, S, P>(alloc, script.scheme, nodes, text.as_str(), watch) {
        Ok(Whole { ended, text }) => match write_out(writer, text.as_str()) {
            Ok(()) => Ok(EndedRun {
                nodes: ended,
                undone,
            }),
            Err(unwritten) => {
                drop(ended);
                Err(unwritten)
            }
        },
        Err(fault) => match write_out(writer, text.as_str()) {
            Ok(()) => Err(fault),
            Err(unwritten) => Err(unwritten),
        },
    }
}

/// As `run_script`, with `K` for what is known of the nodes when their desks open, and of what their threads take. It
/// has five type parameters, since `run_script` picks `K` and passes on all of its own.
fn run_opened<K, N, W, P, R>(
    rt: &R,
    alloc: Global,
    script: &Script<'_>,
    loaded: Vec<Stored<Core, N::Store>>,
    network: &N,
    writer: &mut W,
    watch: &mut P,
) -> Result<EndedRun<N::Store>, OpFault>
where
    K: Opening + Taking + Send,
    N: Network,
    W: Write,
    P: Watch + weave::Watch,
    R: Threads + Wait + SystemClock + Sync,
    requires nodes { map (λ s. s.state.node) loaded.items ≡ all_nodes script.now.scheme.now }
    requires may_open { All (MayOpen N.Store.NodeStore K.opened) loaded.items }
    requires takes { (input : AnInput)
        → IsOfThread (IsToSend N.Store.NodeStore K.opened)
        (IsReceivedBy (N.leads network.now) N.Reader.remaining N.Writer.contents) (N.Clock.tells network.now) input
        → K.takes input }
    requires unordered { (input : AnInput) → K.takes input → was_ordered input ≡ false }
    ensures ok { IfOk result
        (λ r. (text : List ℕ)
        × IsRunReport script.now.scheme.now script.now.lines.now (states_in r.nodes.items) r.undone text
        × Appends (W.contents writer.old) (W.contents writer.new) text) }
    ensures others { IfOk result (λ r. HaveOthers K.takes script.now.scheme.now (states_in r.nodes.items)) }
    ensures ended { IfOk result
        (λ r. HaveEnded N.Store.NodeStore K.opened script.now.scheme.now (stored_in r.nodes.items)) }
    ensures err { IfErr result
        (λ e. FailsToRun N.Store.NodeStore K.opened e script.now.scheme.now script.now.lines.now
        (W.contents writer.old) (W.contents writer.new)) }
{
    let run = run_and_play::<K, N, P, R>(rt, alloc, script, loaded, network, watch)?;
    write_run::<K, N::Store, W, P>(alloc, script, run, writer, watch)
}

/// Runs all nodes, each in threads of its own, while the script's lines are ordered and asked one after another; then
/// stops all nodes. The answer to each order and each question comes once all records are committed that the node's
/// journal had then. Writes the answers, a line each, and then the table of a run that leads to the committed records
/// of all nodes: of the world that the protocol's own steps lead to, regardless of how sockets and threads behaved.
///
/// The nodes are the log and then the registries in the scheme's order, each with its store and the state that the
/// store's records lead to. The watch is called for each of the script's lines,
/// and afterwards for the records as they are settled and woven. Returns the nodes as they ended: no store has failed,
/// each has the committed records of its node, which the table shows, and these begin with the records that it was
/// loaded with. After those it has each of the script's orders that was answered as recorded, in the script's order,
/// each once. It has no other orders except those that it had taken when it stopped. Every other record is a message,
/// at a moment that the clock gave, or the acknowledgement of a message that a store had as a committed record's, and
/// whose peer replied, over a connection, that it was received.
///
/// Returns with them the number of the first line that was not carried out, by its answer: it wasn't possible, its node
/// refused it, or it waited in vain for its status.
///
/// # Errors
///
/// The stores are closed then. The answers are written once the script has ended, and then it fails with the first of:
///
/// - `Store`: the fault of the first node's store that failed, in the order of the log and then the registries. That
///   node stopped, and the others went on.
/// - `Unsettled`: the first node whose threads made other notes than a single thread would have made.
/// - `Stuck`: no run leads to the committed records, as for `audit`.
///
/// And with `Write`, after the number of bytes that the fault has, or with `NoMemory` if memory ran out.
pub fn run_script<N, W, P, R>(
    rt: &R,
    alloc: Global,
    script: &Script<'_>,
    loaded: Vec<Stored<Core, N::Store>>,
    network: &N,
    writer: &mut W,
    watch: &mut P,
) -> Result<EndedRun<N::Store>, OpFault>
where
    N: Network,
    W: Write,
    P: Watch + weave::Watch,
    R: Threads + Wait + SystemClock + Sync,
    requires nodes { map (λ s. s.state.node) loaded.items ≡ all_nodes script.now.scheme.now }
    requires opened { All (λ s. s.state ≡ opened_with script.now.scheme.now s.state.node s.state.journal)
        loaded.items }
    ensures ok { IfOk result
        (λ r. (text : List ℕ)
        × IsRunReport script.now.scheme.now script.now.lines.now (states_in r.nodes.items) r.undone text
        × Appends (W.contents writer.old) (W.contents writer.new) text) }
    ensures others { IfOk result
        (λ r. HaveOthers (IsOfThread
        (IsToSend N.Store.NodeStore (IsLoadedAmong N.Store.NodeStore script.now.scheme.now loaded.items))
        (IsReceivedBy (N.leads network.now) N.Reader.remaining N.Writer.contents)
        (N.Clock.tells network.now)) script.now.scheme.now (states_in r.nodes.items)) }
    ensures ended { IfOk result
        (λ r. HaveEnded N.Store.NodeStore
        (IsLoadedAmong N.Store.NodeStore script.now.scheme.now loaded.items) script.now.scheme.now
        (stored_in r.nodes.items)) }
    ensures err { IfErr result
        (λ e. FailsToRun N.Store.NodeStore
        (IsLoadedAmong N.Store.NodeStore script.now.scheme.now loaded.items) e script.now.scheme.now
        script.now.lines.now (W.contents writer.old) (W.contents writer.new)) }
{
    run_opened::<Brand, N, W, P, R>(rt, alloc, script, loaded, network, writer, watch)
}
