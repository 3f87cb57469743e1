//! The contents of states, desks and seats, which a call that runs out of memory leaves as they were; and calls that
//! are made again after that.
ghost use Rattle.std.specs.Prelude.{◌≡◌, IfOk};

use crate::given::{Given, input_of};
use crate::same::assert_same;
use crate::worked_nodes::first_transfer;
use desk::stores::{NodeStore, StoreFault};
use desk::{Lengths, Seat, SharedNode, State, Stored, Taken, Told};
use protocol::NodeCore;
use protocol::status::TransactionId;
use protocol::units::{NoMemory, Node, Refusal};
use std::alloc::Global;
use std::process::Abort;
use std::sync::Wait;
use test_support::again;

/// The contents of a state.
#[derive(Clone, Copy, Debug, PartialEq, Eq)]
pub struct StateStanding {
    records: usize,
    committed: usize,
    /// The key of its next message to the log.
    next: Option<usize>,
    runs: bool,
}

/// The contents of a desk, and the notes of a seat at it.
#[derive(Clone, Copy, Debug, PartialEq, Eq)]
pub struct Standing {
    at_desk: StateStanding,
    tickets: usize,
    notes: usize,
    lengths: Lengths,
    confirmed: usize,
}

/// The contents of the state.
pub fn of_state<C: NodeCore>(rt: &impl Abort, state: &State<C>) -> StateStanding {
    let next = match state.next_send(Node::Itl, 0) {
        Some((key, _)) => Some(key),
        None => None,
    };
    let asked = state.query(first_transfer(rt));
    let records = asked.length();
    drop(asked);
    StateStanding {
        records,
        committed: state.committed().len(),
        next,
        runs: state.is_running(),
    }
}

/// How many records the desk has. The result has the length even if memory runs out for a question.
fn records_at<D: SharedNode, R: Wait + Abort>(rt: &R, alloc: Global, desk: &D) -> usize {
    let mut seat = Seat::new(alloc);
    let asked = desk.query(rt, &mut seat, first_transfer(rt));
    let records = asked.length();
    drop(asked);
    drop(seat);
    records
}

/// The key and the transaction of the message that is next for the log, from that key on.
pub fn next_for_log<D: SharedNode, R: Wait + Abort>(
    rt: &R,
    desk: &D,
    from: usize,
) -> Option<(usize, TransactionId)> {
    let found = again!(desk.next_send(rt, Node::Itl, from), Err(NoMemory) => ());
    match found.expect(rt, "memory") {
        Some((key, message)) => {
            let id = message.id;
            drop(message);
            Some((key, id))
        }
        None => None,
    }
}

/// The key of that message.
pub fn next_key<D: SharedNode, R: Wait + Abort>(rt: &R, desk: &D, from: usize) -> Option<usize> {
    let (key, _) = next_for_log(rt, desk, from)?;
    Some(key)
}

/// The contents of the desk, and the notes of the seat.
pub fn standing_at<D: SharedNode, R: Wait + Abort>(
    rt: &R,
    alloc: Global,
    desk: &D,
    seat: &Seat,
) -> Standing {
    Standing {
        at_desk: StateStanding {
            records: records_at(rt, alloc, desk),
            committed: desk.committed_count(rt),
            next: next_key(rt, desk, 0),
            runs: desk.is_running(rt),
        },
        tickets: seat.tickets().len(),
        notes: seat.notes().len(),
        lengths: seat.lengths(),
        confirmed: seat.confirmed(),
    }
}

/// The taken result, or the number of records in it if memory ran out.
pub fn unless_no_memory(taken: Taken) -> Result<Taken, usize>
    ensures { IfOk result (λ kept. kept ≡ taken) }
{
    if taken.told() == Told::Refused(Refusal::NO_MEMORY) {
        let records = taken.length();
        drop(taken);
        return Err(records);
    }
    Ok(taken)
}

/// Has the state take an input.
pub fn take_at<C: NodeCore>(
    rt: &impl Abort,
    alloc: Global,
    state: &mut State<C>,
    given: Given,
) -> Taken {
    let before = of_state(rt, state);
    let taken = again!(
        unless_no_memory(state.take(input_of(rt, alloc, given))),
        Err(records) => assert_same(rt, (records, of_state(rt, state)), (before.records, before))
    );
    taken.expect(rt, "memory")
}

/// Has the state with its store take an input.
pub fn take_stored<C: NodeCore, S: NodeStore>(
    rt: &impl Abort,
    alloc: Global,
    stored: &mut Stored<C, S>,
    given: Given,
) -> Taken {
    let before = of_state(rt, stored.state());
    let taken = again!(
        unless_no_memory(stored.take(input_of(rt, alloc, given))),
        Err(records) => assert_same(
            rt,
            (records, of_state(rt, stored.state())),
            (before.records, before),
        )
    );
    taken.expect(rt, "memory")
}

/// Has the desk take an input.
pub fn take<D: SharedNode, R: Wait + Abort>(
    rt: &R,
    alloc: Global,
    desk: &D,
    seat: &mut Seat,
    given: Given,
) -> Taken {
    let before = standing_at(rt, alloc, desk, seat);
    let taken = again!(
        unless_no_memory(desk.take(rt, seat, input_of(rt, alloc, given))),
        Err(records) => assert_same(
            rt,
            (records, standing_at(rt, alloc, desk, seat)),
            (before.at_desk.records, before),
        )
    );
    taken.expect(rt, "memory")
}

/// Asks the desk where NZ1 stands.
pub fn query<D: SharedNode, R: Wait + Abort>(
    rt: &R,
    alloc: Global,
    desk: &D,
    seat: &mut Seat,
) -> Taken {
    let before = standing_at(rt, alloc, desk, seat);
    let taken = again!(
        unless_no_memory(desk.query(rt, seat, first_transfer(rt))),
        Err(records) => assert_same(
            rt,
            (records, standing_at(rt, alloc, desk, seat)),
            (before.at_desk.records, before),
        )
    );
    taken.expect(rt, "memory")
}

/// Has the desk commit. `NoMemory` if its store ran out of memory: then the desk has stopped with the records that were
/// committed before, so the caller begins with another desk.
pub fn commit<D: SharedNode, R: Wait + Abort>(rt: &R, desk: &D) -> Result<usize, NoMemory> {
    let before = desk.committed_count(rt);
    match desk.commit_next(rt) {
        Ok(records) => Ok(records),
        Err(fault) => {
            assert_same(rt, fault, StoreFault::NoMemory);
            assert_same(rt, desk.committed_count(rt), before);
            assert!(rt; !desk.is_running(rt));
            Err(NoMemory)
        }
    }
}

/// Has the state commit to its store. `NoMemory` as for a desk.
pub fn commit_stored<C: NodeCore, S: NodeStore>(
    rt: &impl Abort,
    stored: &mut Stored<C, S>,
    max: usize,
) -> Result<usize, NoMemory> {
    let before = of_state(rt, stored.state());
    match stored.commit(max) {
        Ok(records) => Ok(records),
        Err(fault) => {
            assert_same(rt, fault, StoreFault::NoMemory);
            let stopped = StateStanding {
                next: None,
                runs: false,
                ..before
            };
            assert_same(rt, of_state(rt, stored.state()), stopped);
            Err(NoMemory)
        }
    }
}
