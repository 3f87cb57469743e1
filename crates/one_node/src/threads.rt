//! The threads of a node, and its operator beside them, until the node ends.
ghost use Rattle.std.specs.Prelude.{◌≡◌, [], true, ℕ, List, All, IfOk, Ok, OnOk};
ghost use Rattle.std.specs.Thread.{IsSync};
ghost use Rattle.protocol.specs.Registries.{is_node};
ghost use Rattle.sessions.specs.Orders.{HasNoOrder};
ghost use Rattle.sessions.specs.Sending.{IsReceivedBy};
ghost use Rattle.sessions.specs.Threads.{AreOfThread};
ghost use Rattle.one_node.specs.Operating.{AnswersExport, Follows, Operates};
ghost use Rattle.one_node.specs.Turns.{AsksExport};

use crate::evidence::Evidence;
use crate::exporting::Exporter;
use crate::operator::{Client, Next, Operator};
use command_faults::OpFault;
use desk::{Seat, SharedNode};
use serving::Starting;
use sessions::{Network, NodeThreads, StartBarrier, run_node};
use std::io::{Read, Write};
use std::rt::Clock as SystemClock;
use std::sync::Wait;
use std::thread;
use std::thread::Threads;
use units::NoMemory;

/// The remains of a node's run: the notes of each of its threads, the evidence of its operator's results, and how the
/// run ended.
#[derive(Drop)]
pub(crate) struct Remains {
    pub(crate) threads: Vec<Seat>,
    pub(crate) evidence: Evidence,
    pub(crate) next: Next,
}

impl Operator {
    /// Exports the records that are committed now, and maybe further ones, to the path of the held line, and writes the
    /// result. The node's threads go on meanwhile. It has five type parameters: the desk, the network, the exporter, the
    /// output, and the system.
    ///
    /// # Errors
    ///
    /// Fails as `catch_up` of the evidence does, and with `Write` if the result can't be written.
    fn export<D: SharedNode, N: Network, E: Exporter, W: Write, R: Wait>(
        &mut self,
        rt: &R,
        client: &Client<'_, D, N>,
        exporter: &E,
        writer: &mut W,
        evidence: &mut Evidence,
    ) -> Result<(), OpFault>
        requires { AsksExport self.old.line.held.items }
        ensures answered { OnOk result
            (AnswersExport (E.holds exporter.now client.now.node)
            evidence.new.replica.journal self.old.line.held.items (W.contents writer.old) (W.contents writer.new)
            self.old.count self.new.count) }
        ensures line { OnOk result (self.new.line.held.items ≡ []) }
        ensures followed { OnOk result (Follows evidence.old evidence.new) }
    {
        evidence.catch_up(rt, client.node, client.desk)?;
        self.answer_export(exporter, client.node, evidence.replica.records(), writer)
    }

    /// Reads lines and writes their results, those of exports among them, until the node is to end. It has six type
    /// parameters: those of `operate`, and the exporter.
    ///
    /// # Errors
    ///
    /// Fails as `operate` and `export` do.
    fn serve<D, N, E, I, W, R>(
        &mut self,
        rt: &R,
        client: &Client<'_, D, N>,
        exporter: &E,
        reader: &mut I,
        writer: &mut W,
        evidence: &mut Evidence,
    ) -> Result<Next, OpFault>
    where
        D: SharedNode,
        N: Network,
        E: Exporter,
        I: Read,
        W: Write,
        R: Wait + SystemClock,
        requires member { is_node client.now.scheme.now client.now.node ≡ true }
        ensures { Operates client.now.scheme.now client.now.node (N.Clock.tells client.now.network.now)
            (E.holds exporter.now client.now.node)
            self.old.line.held.items self.new.line.held.items (I.remaining reader.old) (I.remaining reader.new)
            (W.contents writer.old) (W.contents writer.new) self.old.count self.new.count evidence.old evidence.new
            result }
    {
        for _ in rt.forever() {
            match self.operate(rt, client, reader, writer, evidence)? {
                Next::Export => self.export(rt, client, exporter, writer, evidence)?,
                next => return Ok(next),
            }
        }
        unreachable!()
    }

    /// Reads lines as `serve` does, once these threads have begun, and then stops the desk. Fails with `NoMemory` if a
    /// thread is missing: then no line was read. It has the type parameters of `serve`, and eight arguments: its own,
    /// and the threads that begin.
    fn serve_and_stop<D, N, E, I, W, R>(
        &mut self,
        rt: &R,
        client: &Client<'_, D, N>,
        starting: &Starting<'_>,
        exporter: &E,
        reader: &mut I,
        writer: &mut W,
        evidence: &mut Evidence,
    ) -> Result<Next, OpFault>
    where
        D: SharedNode,
        N: Network,
        E: Exporter,
        I: Read,
        W: Write,
        R: Wait + SystemClock,
        requires member { is_node client.now.scheme.now client.now.node ≡ true }
        ensures { Operates client.now.scheme.now client.now.node (N.Clock.tells client.now.network.now)
            (E.holds exporter.now client.now.node)
            self.old.line.held.items self.new.line.held.items (I.remaining reader.old) (I.remaining reader.new)
            (W.contents writer.old) (W.contents writer.new) self.old.count self.new.count evidence.old evidence.new
            result }
    {
        let next = match starting.wait(rt) {
            Ok(()) => self.serve(rt, client, exporter, reader, writer, evidence),
            Err(NoMemory) => Err(OpFault::NoMemory),
        };
        client.desk.stop(rt);
        next
    }

    /// Runs the node's threads, which arrive at that barrier, and this operator's lines, until all threads have ended.
    /// The results rest on the evidence, which has none yet. It has the type parameters of `serve`, and nine arguments:
    /// its own, the threads and their barrier.
    pub(crate) fn run_threads<D, N, E, I, W, R>(
        &mut self,
        rt: &R,
        client: &Client<'_, D, N>,
        node: &NodeThreads<'_, D, N>,
        barrier: &StartBarrier,
        exporter: &E,
        evidence: Evidence,
        reader: &mut I,
        writer: &mut W,
    ) -> Result<Remains, OpFault>
    where
        D: SharedNode + Sync,
        N: Network,
        E: Exporter,
        I: Read,
        W: Write,
        R: Threads + Wait + SystemClock + Sync,
        requires member { is_node client.now.scheme.now client.now.node ≡ true }
        ensures taken { IfOk result (λ s. All (AreOfThread D.is_to_send
            (IsReceivedBy (N.leads node.now.network.now) N.Reader.remaining N.Writer.contents)
            (N.Clock.tells node.now.network.now)) s.threads.items) }
        ensures none { IfOk result (λ s. All HasNoOrder s.threads.items) }
        ensures talks { IfOk result (λ s. Operates client.now.scheme.now client.now.node
            (N.Clock.tells client.now.network.now)
            (E.holds exporter.now client.now.node)
            self.old.line.held.items self.new.line.held.items (I.remaining reader.old) (I.remaining reader.new)
            (W.contents writer.old) (W.contents writer.new) self.old.count self.new.count evidence s.evidence
            (Ok s.next)) }
    {
        let alloc = self.alloc;
        let mut evidence = evidence;
        let starting = Starting {
            barrier,
            threads: node.count(),
        };
        let (threads, next) = thread::join_mut(
            rt,
            &mut || -> Result<Vec<Seat>, NoMemory>
                requires { IsSync R.row }
                ensures taken { IfOk result (λ seats. All (AreOfThread D.is_to_send
                    (IsReceivedBy (N.leads node.entry.now.network.now) N.Reader.remaining N.Writer.contents)
                    (N.Clock.tells node.entry.now.network.now)) seats.items) }
                ensures none { IfOk result (λ seats. All HasNoOrder seats.items) }
            { run_node(rt, alloc, node) },
            &mut || -> Result<Next, OpFault>
                requires member { is_node client.now.scheme.now client.now.node ≡ true }
                ensures { Operates client.entry.now.scheme.now client.entry.now.node
                    (N.Clock.tells client.entry.now.network.now)
                    (E.holds exporter.entry.now client.entry.now.node)
                    self.entry.now.line.held.items self.exit.now.line.held.items
                    (I.remaining reader.entry.now) (I.remaining reader.exit.now)
                    (W.contents writer.entry.now) (W.contents writer.exit.now)
                    self.entry.now.count self.exit.now.count evidence.entry evidence.exit result }
            {
                self.serve_and_stop(
                    rt,
                    client,
                    &starting,
                    exporter,
                    reader,
                    writer,
                    &mut evidence,
                )
            },
        );
        let Ok(threads) = threads else {
            drop(evidence);
            return Err(OpFault::NoMemory);
        };
        match next {
            Ok(next) => Ok(Remains {
                threads,
                evidence,
                next,
            }),
            Err(fault) => {
                drop(threads);
                drop(evidence);
                Err(fault)
            }
        }
    }
}
