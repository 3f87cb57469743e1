//! A message that a desk took, and the answer to its line.
ghost use Rattle.std.specs.Prelude.{◌≡◌, ◌⊎◌, ℕ, List, true, false, IfSome, None, Some};
ghost use Rattle.units.specs.RefusalCodes.{node_stopped, out_of_memory};
ghost use Rattle.wire.specs.Messages.{IsLine};
ghost use Rattle.replies.specs.Answers.{Asks, EndsWith, Gives, IsOfLine, IsRefusedBy, confirmed, is_without_journal};
ghost use Rattle.replies.specs.Beginning.{Becomes, Begins, line_of};

use crate::answer::{Answer, refused_by};
use crate::job::Job;
use desk::{Clock, Gate, Seat, SharedNode, Taken, Told, is_unjudged};
use protocol::refusals_have_causes;
use std::marker::Model;
use std::rt::Clock as SystemClock;
use std::sync::Wait;
use wire::{Input, Message, Reply, ReplyCode};

/// The reply to a result that isn't a journal's: the node had stopped, or memory ran out. `None` if a journal judged
/// it.
fn reply_at_once(told: Told) -> Option<Reply>
    ensures some { IfSome result
        (λ reply. (is_without_journal told ≡ true) × Gives told reply
        × (IsRefusedBy node_stopped reply ⊎ IsRefusedBy out_of_memory reply)) }
    ensures none { result ≡ None → is_without_journal told ≡ false }
{
    match told {
        Told::Refused(refusal) if is_unjudged(refusal) => Some(refused_by(refusal.code)),
        _ => None,
    }
}

/// The reply to a message that was judged by a journal.
fn reply_to(taken: &Taken) -> Reply
    requires source { (line : List ℕ) × IsOfLine line taken.now }
    requires judged { is_without_journal taken.now.told ≡ false }
    ensures { Gives taken.now.told result }
{
    refusals_have_causes();
    match taken.told() {
        Told::Step(_) => Reply::Received,
        Told::Refused(refusal) => match ReplyCode::new(refusal.code) {
            Some(code) => Reply::Refused(code),
            None => unreachable!(),
        },
        Told::Status(_) => unreachable!(),
    }
}

/// A line whose message a desk took and a journal judged. Its answer waits until all records are committed that the
/// journal had then. Only `begin_job` makes one.
#[derive(Debug)]
pub struct PendingAnswer {
    line: Vec<u8>,
    taken: Taken,
}

// Written out, since a derived destructor is proved anew in each crate that lets a value go.
impl Drop for PendingAnswer {
    fn drop(self) {
        let PendingAnswer { line, taken } = self;
        drop(line);
        drop(taken);
    }
}

impl Model for PendingAnswer {
    ghost use Rattle.replies.specs.Answers.{IsPending, PendingView};

    ghost Value = { PendingView };

    ghost view = { λ p. record { line = p.line.items; note = p.taken } };

    ghost invariant = { λ p. IsPending p.line.items p.taken };
}

impl PendingAnswer {
    /// Waits for the commit at that desk, and returns the answer: with its reply and the receipt, or with refusal
    /// `NODE_STOPPED` if the node stopped before. The caller keeps the receipt with the seat with which the message was
    /// taken, or with another seat of the same desk.
    pub fn wait<D: SharedNode, R: Wait + SystemClock>(self, rt: &R, desk: &D) -> Answer
        ensures judged { is_without_journal self.note.told ≡ false }
        ensures line { result.line ≡ self.line }
        ensures end { EndsWith self.note result }
    {
        let PendingAnswer { line, taken } = self;
        let reply = reply_to(&taken);
        match desk.receipt(rt, taken) {
            Ok(receipt) => Answer::backed(line, reply, receipt),
            Err(_) => Answer::stopped(line),
        }
    }

    /// As `wait`. The seat has kept the receipt.
    fn confirm<D: SharedNode, R: Wait + SystemClock>(
        self,
        rt: &R,
        desk: &D,
        seat: &mut Seat,
    ) -> Answer
        ensures judged { is_without_journal self.note.told ≡ false }
        ensures line { result.line ≡ self.line }
        ensures end { ((seat.new ≡ confirmed seat.old self.note) × (result.receipt ≡ Some self.note)
            × Gives self.note.told result.reply)
            ⊎ ((seat.new ≡ seat.old) × (result.receipt ≡ None) × IsRefusedBy node_stopped result.reply) }
    {
        let answer = self.wait(rt, desk);
        if let Some(receipt) = answer.receipt() {
            seat.confirm(receipt);
        }
        answer
    }
}

/// The outcome of a job.
#[derive(Debug, Drop)]
pub enum Begun {
    /// Its answer, since no journal judged its message: the node had stopped, or memory ran out.
    Answered(Answer),
    /// Its message was judged, and the answer waits for a commit.
    Pending(PendingAnswer),
}

/// The outcome for a line and the result for its message.
fn begun_of(line: Vec<u8>, taken: Taken) -> Begun
    requires { IsOfLine line.items taken }
    ensures line { line_of result ≡ line.items }
    ensures becomes { Becomes taken result }
{
    match reply_at_once(taken.told()) {
        Some(reply) => {
            drop(taken);
            Begun::Answered(Answer::bare(line, reply))
        }
        None => Begun::Pending(PendingAnswer { line, taken }),
    }
}

/// As `begin_job`, for a line and the message that it writes.
fn begin_message<D: SharedNode, K: Clock, G: Gate, R: Wait>(
    rt: &R,
    desk: &D,
    seat: &mut Seat,
    clock: &K,
    gate: &G,
    line: Vec<u8>,
    message: Message,
) -> Begun
    requires { IsLine line.items message }
    ensures line { line_of result ≡ line.items }
    ensures begins { Begins (K.tells clock.now) seat.old seat.new message result }
{
    let moment = clock.now();
    let taken = desk.take_at(rt, seat, Input::Received { message, moment }, gate);
    begun_of(line, taken)
}

/// Has the desk take a job's message once, at the clock's moment. Returns the answer to the job's line if the node had
/// stopped or memory ran out, and otherwise one that waits until all records are committed that the journal had then.
/// While the desk holds its lock, it passes the gate.
pub fn begin_job<D: SharedNode, K: Clock, G: Gate, R: Wait>(
    rt: &R,
    desk: &D,
    seat: &mut Seat,
    clock: &K,
    gate: &G,
    job: Job,
) -> Begun
    ensures line { line_of result ≡ job.line }
    ensures begins { Begins (K.tells clock.now) seat.old seat.new job.message result }
{
    let (line, message) = job.into_parts();
    begin_message(rt, desk, seat, clock, gate, line, message)
}

/// As `begin_job`, and returns the answer once it has waited for the commit. If the node stops before, the reply is
/// refusal `NODE_STOPPED`.
pub fn answer_job<D: SharedNode, K: Clock, G: Gate, R: Wait + SystemClock>(
    rt: &R,
    desk: &D,
    seat: &mut Seat,
    clock: &K,
    gate: &G,
    job: Job,
) -> Answer
    ensures line { result.line ≡ job.line }
    ensures asks { Asks (K.tells clock.now) seat.old seat.new job.message result }
{
    match begin_job(rt, desk, seat, clock, gate, job) {
        Begun::Answered(answer) => answer,
        Begun::Pending(pending) => pending.confirm(rt, desk, seat),
    }
}
