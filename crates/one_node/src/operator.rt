//! The operator of a node, who writes lines and reads the result of each.
ghost use Rattle.std.specs.Prelude.{◌≡◌, ◌+◌, [], false, true, List, ℕ, IfOk, OnOk};
ghost use Rattle.std.specs.Io.KnownBytes.{Appends};
ghost use Rattle.units.specs.declared.code.Node.{Node as ANode};
ghost use Rattle.protocol.specs.Registries.{is_node};
ghost use Rattle.one_node.specs.Operating.{Asks, IsBegun, IsNext, IsTimed, Operates, TakesLine, Talks, held_nowhere};
ghost use Rattle.one_node.specs.Turns.{AsksExport, IsAhead, IsTimely, clean_up_moment, fault_line};

use crate::answering::{OperatorFault, push_fault};
use crate::evidence::Evidence;
use crate::exporting::export_path;
use crate::reading::{LineBuffer, Step};
use crate::timer::Timer;
use command_faults::{OpFault, write_out};
use desk::{Clock, Seat, SharedNode};
use input_lines::{Instruction, WordsFault, instruction_of};
use protocol::scheme::Scheme;
use serving::{Nobody, ScriptAnswer, ask, push_answer, takes};
use sessions::Network;
use status::Moment;
use std::alloc::Global;
use std::io::{Read, Write};
use std::rt::Clock as SystemClock;
use std::sync::Wait;
use std::thread;
use std::time::Duration;
use units::{NoMemory, Node};
use wire::Input;

/// How long the operator's thread sleeps if there is nothing to read, in milliseconds.
const QUIET_PAUSE: u64 = 10;

/// How many seconds the moment of an operator's clean-up may be ahead of the node's clock: a day. A wrong year would
/// cancel all transfers with status Checked.
const MOST_AHEAD: u64 = 86_400;

/// How many bytes the result of a line has at most.
const LONGEST_ANSWER: usize = 64;

/// What comes after a step of the operator.
#[derive(Clone, Copy, Debug, PartialEq, Eq)]
pub(crate) enum Next {
    /// Another step.
    On,
    /// The export of the records, which the held line asks for.
    Export,
    /// The node's end: the desk has stopped, and nobody asked for it.
    Stopped,
    /// The node's end: the operator asked for it, or the lines ended.
    End,
}

/// A node that is given orders and asked questions, at its desk and under its scheme.
#[derive(Drop)]
pub(crate) struct Client<'a, D: SharedNode, N: Network> {
    pub(crate) scheme: &'a Scheme,
    pub(crate) node: Node,
    pub(crate) desk: &'a D,
    pub(crate) network: &'a N,
}

/// The moment of the clean-up, if one is ordered.
fn clean_up_moment(instruction: &Instruction) -> Option<Moment>
    ensures { result ≡ clean_up_moment instruction.now }
{
    match instruction {
        Instruction::Order(Input::CleanUp(moment)) => Some(*moment),
        _ => None,
    }
}

impl<'a, D: SharedNode, N: Network> Client<'a, D, N> {
    /// Whether a clean-up is ordered at a moment that is more than a day ahead of the clock.
    fn is_ahead(&self, instruction: &Instruction) -> bool
        ensures ahead { result ≡ true → IsAhead (N.Clock.tells self.now.network.now) instruction.now }
        ensures timely { result ≡ false → IsTimely (N.Clock.tells self.now.network.now) instruction.now }
    {
        let Some(moment) = clean_up_moment(instruction) else {
            return false;
        };
        let now = self.network.now();
        moment.seconds.saturating_sub(now.seconds) > MOST_AHEAD
    }

    /// The node's result for an order or a question, if the node takes such an order.
    fn answer<R: Wait + SystemClock>(
        &self,
        rt: &R,
        seat: &mut Seat,
        instruction: Instruction,
    ) -> ScriptAnswer
        requires member { is_node self.now.scheme.now self.now.node ≡ true }
        ensures { Asks self.now.scheme.now self.now.node instruction seat.old seat.new result }
    {
        if takes(self.node, &instruction) {
            ScriptAnswer::Told(ask(rt, self.desk, seat, instruction, &[], &mut Nobody))
        } else {
            ScriptAnswer::NotPossible
        }
    }

    /// Orders a clean-up at the clock's moment, if the node is the log.
    fn clean_up<R: Wait + SystemClock>(&self, rt: &R, seat: &mut Seat)
        requires member { is_node self.now.scheme.now self.now.node ≡ true }
        ensures { IsTimed self.now.scheme.now self.now.node (N.Clock.tells self.now.network.now) seat.old
            seat.new }
    {
        match self.node {
            Node::Itl => self.order_clean_up(rt, seat),
            Node::Registry(_) => {}
        }
    }

    /// Orders a clean-up at the clock's moment. The node is the log.
    fn order_clean_up<R: Wait + SystemClock>(&self, rt: &R, seat: &mut Seat)
        requires log { self.now.node ≡ ANode.Itl }
        requires member { is_node self.now.scheme.now self.now.node ≡ true }
        ensures { IsTimed self.now.scheme.now self.now.node (N.Clock.tells self.now.network.now) seat.old
            seat.new }
    {
        let moment = self.network.now();
        let order = Instruction::Order(Input::CleanUp(moment));
        let _told = ask(rt, self.desk, seat, order, &[], &mut Nobody);
    }
}

/// An operator: the part of the next line that was read, how many lines have had their result written, and when the
/// node's clock orders its next clean-up.
#[derive(Drop)]
pub(crate) struct Operator {
    pub(crate) alloc: Global,
    pub(crate) line: LineBuffer,
    count: u64,
    timer: Timer,
}

impl Operator {
    /// An operator with no line read. Fails with `NoMemory` if memory ran out.
    pub(crate) fn new(alloc: Global, timer: Timer) -> Result<Operator, NoMemory>
        ensures line { IfOk result (λ o. o.line.held.items ≡ []) }
        ensures count { IfOk result (λ o. o.count ≡ 0) }
    {
        let line = LineBuffer::new(alloc)?;
        Ok(Operator {
            alloc,
            line,
            count: 0,
            timer,
        })
    }

    /// The number of the held line. Fails with `NoMemory` after the greatest number.
    pub(crate) fn number(&self) -> Result<u64, NoMemory>
        ensures { IfOk result (λ number. number ≡ self.now.count + 1) }
    {
        match self.count.checked_add(1) {
            Some(number) => Ok(number),
            None => Err(NoMemory),
        }
    }

    /// Writes the result of the held line, which has that number, and begins the next line.
    pub(crate) fn write_answer<W: Write>(
        &mut self,
        writer: &mut W,
        text: &str,
        number: u64,
    ) -> Result<(), OpFault>
        ensures written { OnOk result (Appends (W.contents writer.old) (W.contents writer.new) text.now) }
        ensures count { OnOk result (self.new.count ≡ number) }
        ensures line { OnOk result (self.new.line.held.items ≡ []) }
    {
        write_out(writer, text)?;
        self.count = number;
        self.line.begin();
        Ok(())
    }

    /// Writes the result of the held line, which has that fault, and begins the next line.
    pub(crate) fn refuse<W: Write>(
        &mut self,
        writer: &mut W,
        fault: OperatorFault,
    ) -> Result<(), OpFault>
        ensures written { OnOk result (Appends (W.contents writer.old) (W.contents writer.new)
            (fault_line (self.old.count + 1) fault)) }
        ensures count { OnOk result (self.new.count ≡ self.old.count + 1) }
        ensures line { OnOk result (self.new.line.held.items ≡ []) }
    {
        let number = self.number()?;
        let mut text = String::new(self.alloc);
        push_fault(&mut text, number, fault)?;
        self.write_answer(writer, text.as_str(), number)
    }

    /// Asks the node for what the held line says, and writes the result. A clean-up more than a day ahead of the clock
    /// is refused. Returns `Export` if the line asks for an export, whose result isn't written yet, and `End` if it
    /// asks for the node's end.
    fn take_line<D: SharedNode, N: Network, W: Write, R: Wait + SystemClock>(
        &mut self,
        rt: &R,
        client: &Client<'_, D, N>,
        writer: &mut W,
        evidence: &mut Evidence,
    ) -> Result<Next, OpFault>
        requires member { is_node client.now.scheme.now client.now.node ≡ true }
        ensures { IfOk result (λ next. TakesLine client.now.scheme.now client.now.node
            (N.Clock.tells client.now.network.now) held_nowhere self.old.line.held.items
            (W.contents writer.old) (W.contents writer.new) self.old.count self.new.count evidence.old evidence.new self.new.line.held.items next) }
    {
        if self.line.held() == b"stop".as_slice() {
            return Ok(Next::End);
        }
        if export_path(self.line.held()).is_some() {
            return Ok(Next::Export);
        }
        let number = self.number()?;
        // Before anything is asked, so that memory for the result can't run out afterwards.
        let Ok(mut text) = String::with_capacity(self.alloc, LONGEST_ANSWER) else {
            return Err(OpFault::NoMemory);
        };
        match instruction_of(self.alloc, self.line.held()) {
            Ok(instruction) => {
                if client.is_ahead(&instruction) {
                    self.refuse(writer, OperatorFault::Moment)?;
                    return Ok(Next::On);
                }
                let answer = client.answer(rt, &mut evidence.seat, instruction);
                push_answer(&mut text, number, answer)?;
                self.write_answer(writer, text.as_str(), number)?;
                Ok(Next::On)
            }
            Err(WordsFault::Order) => {
                self.refuse(writer, OperatorFault::Order)?;
                Ok(Next::On)
            }
            Err(WordsFault::NoMemory) => Err(OpFault::NoMemory),
        }
    }

    /// Orders the clean-up if one is due. Otherwise reads on, and if a line has been read to its end takes it and
    /// writes its result. It has five type parameters: the desk, the network, the operator's two streams, and the
    /// system.
    fn step<D: SharedNode, N: Network, I: Read, W: Write, R: Wait + SystemClock>(
        &mut self,
        rt: &R,
        client: &Client<'_, D, N>,
        reader: &mut I,
        writer: &mut W,
        evidence: &mut Evidence,
    ) -> Result<Next, OpFault>
        requires member { is_node client.now.scheme.now client.now.node ≡ true }
        ensures talks { (begun : List ℕ) → IsBegun self.old.line.held.items begun → IfOk result
            (λ next. (left : List ℕ) × Talks client.now.scheme.now client.now.node
            (N.Clock.tells client.now.network.now) held_nowhere begun (I.remaining reader.old) (I.remaining reader.new)
            (W.contents writer.old) (W.contents writer.new) self.old.count self.new.count evidence.old evidence.new left
            × IsNext self.new.line.held.items (I.remaining reader.new) left next) }
        ensures asks { IfOk result (λ next. next ≡ Next.Export → AsksExport self.new.line.held.items) }
    {
        if self.timer.is_due(rt) {
            client.clean_up(rt, &mut evidence.seat);
            return Ok(Next::On);
        }
        match self.line.step(reader) {
            Step::Line => self.take_line(rt, client, writer, evidence),
            Step::TooLong => {
                self.refuse(writer, OperatorFault::TooLong)?;
                Ok(Next::On)
            }
            Step::Quiet => {
                thread::sleep(rt, Duration::from_millis(QUIET_PAUSE));
                Ok(Next::On)
            }
            Step::Ended => Ok(Next::End),
            Step::Failed => Err(OpFault::Read),
        }
    }

    /// Reads lines and writes their results until the operator asks for an export, which returns `Export`, or for the
    /// node's end, which returns `End`; or until the desk has stopped, which returns `Stopped`. Meanwhile the evidence
    /// is kept small. It has the type parameters of `step`.
    ///
    /// # Errors
    ///
    /// Fails with `Read` if the reader failed, with `Write` if a result can't be written, with `Unsettled` if a result
    /// isn't one that the node's records bear out, and with `NoMemory` if memory ran out.
    pub(crate) fn operate<D: SharedNode, N: Network, I: Read, W: Write, R: Wait + SystemClock>(
        &mut self,
        rt: &R,
        client: &Client<'_, D, N>,
        reader: &mut I,
        writer: &mut W,
        evidence: &mut Evidence,
    ) -> Result<Next, OpFault>
        requires member { is_node client.now.scheme.now client.now.node ≡ true }
        ensures operates { Operates client.now.scheme.now client.now.node
            (N.Clock.tells client.now.network.now) held_nowhere self.old.line.held.items self.new.line.held.items
            (I.remaining reader.old) (I.remaining reader.new) (W.contents writer.old) (W.contents writer.new)
            self.old.count self.new.count evidence.old evidence.new result }
        ensures asks { IfOk result (λ next. next ≡ Next.Export → AsksExport self.new.line.held.items) }
    {
        for _ in rt.forever() {
            if !client.desk.is_running(rt) {
                return Ok(Next::Stopped);
            }
            evidence.keep_few(rt, client.node, client.desk)?;
            match self.step(rt, client, reader, writer, evidence)? {
                Next::On => {}
                next => return Ok(next),
            }
        }
        unreachable!()
    }
}
