//! An order or a question, at the desk of its node.
ghost use Rattle.std.specs.Prelude.{◌≡◌, ◌⊎◌, true, false};
ghost use Rattle.replies.specs.Answers.{is_without_journal};
ghost use Rattle.serving.specs.Answers.{asked_by};
ghost use Rattle.serving.specs.Heard.{Grows, HasHeard, IsConfirmed};
ghost use Rattle.protocol.specs.Claims.{IsEnd};
ghost use Rattle.serving.specs.Notes.{HasOrEnds, IsAwaited, IsNoted, IsNotedOf};
ghost use Rattle.serving.specs.Orders.{Adds, Notes};

use crate::watch::{Watch, tell_committed};
use desk::{Asked, Seat, SharedNode, Taken, Told, is_unjudged};
use input_lines::Instruction;
use protocol::wire::Input;
use status::{Status, TransactionId};
use std::rt::Clock as SystemClock;
use std::sync::Wait;
use std::thread;
use std::time::Duration;
use units::Refusal;

/// How long a question that waits pauses before it asks again, in milliseconds.
const TURN: u64 = 1;

/// Whether the result isn't that of a journal.
fn is_without_journal(told: Told) -> bool
    ensures { result ≡ is_without_journal told }
{
    match told {
        Told::Refused(refusal) => is_unjudged(refusal),
        _ => false,
    }
}

/// The result of what was taken, once all records are committed that the journal had then; at once if no journal judged
/// it. Refusal `NODE_STOPPED` if the node stopped before.
fn confirmed<D: SharedNode, R: Wait + SystemClock>(
    rt: &R,
    desk: &D,
    seat: &mut Seat,
    taken: Taken,
) -> Told
    ensures { IsConfirmed seat.old taken seat.new result }
{
    let told = taken.told();
    if is_without_journal(told) {
        drop(taken);
        return told;
    }
    match desk.confirm(rt, seat, taken) {
        Ok(receipt) => {
            drop(receipt);
            told
        }
        Err(refusal) => Told::Refused(refusal),
    }
}

/// The node's result for an order, once its record is committed.
fn order<D: SharedNode, R: Wait + SystemClock>(
    rt: &R,
    desk: &D,
    seat: &mut Seat,
    input: Input,
) -> Told
    ensures heard { HasHeard seat.new (Asked.Take input) result }
    ensures grows { Grows seat.old seat.new }
    ensures adds { Adds (Asked.Take input) seat.old seat.new result }
    ensures notes { Notes (IsNoted (Asked.Take input)) seat.old seat.new result }
{
    let taken = desk.take(rt, seat, input);
    confirmed(rt, desk, seat, taken)
}

/// Where the transaction stands at the node, once the records are committed that the result rests on.
fn question<D: SharedNode, R: Wait + SystemClock>(
    rt: &R,
    desk: &D,
    seat: &mut Seat,
    id: TransactionId,
) -> Told
    ensures heard { HasHeard seat.new (Asked.Query id) result }
    ensures grows { Grows seat.old seat.new }
    ensures adds { Adds (Asked.Query id) seat.old seat.new result }
    ensures notes { Notes (IsNoted (Asked.Query id)) seat.old seat.new result }
{
    let taken = desk.query(rt, seat, id);
    confirmed(rt, desk, seat, taken)
}

/// Whether a transaction with that status is over: the status never changes.
fn is_end(status: Status) -> bool
    ensures end { result ≡ true → IsEnd status }
    ensures under_way { result ≡ false → IsEnd status → ⊥ }
{
    match status {
        Status::Proposed | Status::Checked | Status::Accepted => false,
        Status::Rejected | Status::Terminated | Status::Cancelled | Status::Completed => true,
    }
}

/// Whether the waiting is over: the transaction has the status, or one that never changes, or no journal judged the
/// question.
fn is_over(told: Told, status: Status) -> bool
    ensures over { result ≡ true → HasOrEnds status told ⊎ (is_without_journal told ≡ true) }
    ensures waits { result ≡ false → (HasOrEnds status told → ⊥) × (is_without_journal told ≡ false) }
{
    match told {
        Told::Status(Some(found)) => found == status || is_end(found),
        Told::Status(None) => false,
        _ => is_without_journal(told),
    }
}

/// The status that a question waits for, its transaction, and how often it is asked at most.
#[derive(Clone, Copy)]
struct Awaited {
    id: TransactionId,
    status: Status,
    turns: u64,
}

/// Asks where the transaction stands until it has that status or one that never changes, at most that many times, and
/// returns the last result. If no journal judged it, since the node had stopped or memory ran out, it isn't asked again. Between two questions the
/// watch is told how many records the watched desks have committed together.
fn question_until<D: SharedNode, P: Watch, R: Wait + SystemClock>(
    rt: &R,
    desk: &D,
    seat: &mut Seat,
    awaited: Awaited,
    watched: &[D],
    watch: &mut P,
) -> Told
    ensures heard { HasHeard seat.new (Asked.Query awaited.id) result }
    ensures grows { Grows seat.old seat.new }
    ensures adds { Adds (Asked.Query awaited.id) seat.old seat.new result }
    ensures notes { Notes (IsAwaited awaited.id awaited.status awaited.turns) seat.old seat.new result }
{
    let mut told = question(rt, desk, seat, awaited.id);
    for asked in 1..awaited.turns {
        if is_over(told, awaited.status) {
            break;
        }
        tell_committed(rt, watched, watch);
        thread::sleep(rt, Duration::from_millis(TURN));
        told = question(rt, desk, seat, awaited.id);
    }
    told
}

/// The result of an order or a question at the desk: for an order, once its record is committed, and for a question,
/// once the records that the result rests on are. The seat has kept the result. Refusal `NODE_STOPPED` if the node
/// stopped before, and refusal `OUT_OF_MEMORY` if memory ran out. While a question waits, the watch is told how many
/// records the watched desks have committed together.
pub fn ask<D: SharedNode, P: Watch, R: Wait + SystemClock>(
    rt: &R,
    desk: &D,
    seat: &mut Seat,
    instruction: Instruction,
    watched: &[D],
    watch: &mut P,
) -> Told
    ensures heard { HasHeard seat.new (asked_by instruction) result }
    ensures grows { Grows seat.old seat.new }
    ensures adds { Adds (asked_by instruction) seat.old seat.new result }
    ensures notes { Notes (IsNotedOf instruction) seat.old seat.new result }
{
    match instruction {
        Instruction::Order(input) => order(rt, desk, seat, input),
        Instruction::Status(id) => question(rt, desk, seat, id),
        Instruction::Until { id, status, turns } => {
            let awaited = Awaited { id, status, turns };
            question_until(rt, desk, seat, awaited, watched, watch)
        }
    }
}

/// The result of a copy of the order or the question, as that of `ask`. Refusal `OUT_OF_MEMORY` also if there is no
/// memory for a copy: then nothing was asked.
pub fn ask_copy<D: SharedNode, P: Watch, R: Wait + SystemClock>(
    rt: &R,
    desk: &D,
    seat: &mut Seat,
    instruction: &Instruction,
    watched: &[D],
    watch: &mut P,
) -> Told
    ensures heard { HasHeard seat.new (asked_by instruction.now) result }
    ensures grows { Grows seat.old seat.new }
    ensures adds { Adds (asked_by instruction.now) seat.old seat.new result }
    ensures notes { Notes (IsNotedOf instruction.now) seat.old seat.new result }
{
    match instruction.copy() {
        Ok(instruction) => ask(rt, desk, seat, instruction, watched, watch),
        Err(_) => Told::Refused(Refusal::NO_MEMORY),
    }
}
