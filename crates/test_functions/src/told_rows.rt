//! The results of a state, and those that a seat keeps.
ghost use Rattle.std.specs.Prelude.{◌≡◌, Some};

use crate::given::input_of;
use crate::nz_desk::{TEN, nz_state, nz_stored, recorded};
use crate::same::assert_same;
use crate::standing::take_stored;
use crate::worked_nodes::first_transfer;
use desk::{Asked, Seat, Taken, Told};
use protocol::status::TransactionId;
use protocol::units::refusal_code::NODE_STOPPED;
use protocol::units::{NoMemory, Refusal};
use std::process::Abort;
use test_support::again;

/// Makes room at an empty seat for the result of a query for the transaction.
fn prepare(rt: &impl Abort, seat: &mut Seat, id: TransactionId)
    ensures { seat.new.prepared ≡ Some (Asked.Query id) }
{
    let prepared = again!(
        seat.prepare_query(id),
        Err(NoMemory) => assert_same(rt, (seat.tickets().len(), seat.notes().len()), (0, 0))
    );
    match prepared {
        Ok(()) => {}
        Err(NoMemory) => rt.abort(),
    }
}

/// Whether the state was asked where the transaction stands.
fn is_about(taken: &Taken, id: TransactionId) -> bool {
    match taken.asked() {
        Asked::Query(asked) => *asked == id,
        Asked::Take(_) => false,
    }
}

#[test]
fn a_question_is_kept_as_a_note(rt: HostRuntime) {
    let (alloc, id) = (rt.alloc(), first_transfer(&rt));
    let state = nz_state(&rt, alloc);
    let mut seat = Seat::new(alloc);
    prepare(&rt, &mut seat, id);
    let taken = state.query(id);
    seat.keep(&taken);
    assert!(rt; is_about(&taken, id));
    assert_same(&rt, taken.told(), Told::Status(None));
    assert_same(&rt, (seat.tickets().len(), seat.notes().len()), (0, 1));
    drop(taken);
    drop(seat);
    drop(state);
}

#[test]
fn a_refusal_for_memory_is_not_kept(rt: HostRuntime) {
    let (alloc, id) = (rt.alloc(), first_transfer(&rt));
    let state = nz_state(&rt, alloc);
    let mut seat = Seat::new(alloc);
    prepare(&rt, &mut seat, id);
    let taken = state.refuse_for_memory(Asked::Query(id));
    seat.keep(&taken);
    assert_same(&rt, taken.told(), Told::Refused(Refusal::NO_MEMORY));
    assert_same(&rt, (seat.tickets().len(), seat.notes().len()), (0, 0));
    drop(taken);
    drop(seat);
    drop(state);
}

#[test]
fn a_stopped_state_takes_nothing(rt: HostRuntime) {
    let alloc = rt.alloc();
    let mut state = nz_state(&rt, alloc);
    state.stop();
    let taken = state.take(input_of(&rt, alloc, TEN));
    let refusal = Refusal { code: NODE_STOPPED };
    assert_same(&rt, taken.told(), Told::Refused(refusal));
    assert_same(&rt, (taken.length(), state.is_running()), (0, false));
    drop(taken);
    drop(state);
}

#[test]
fn a_stopped_state_commits_nothing(rt: HostRuntime) {
    let alloc = rt.alloc();
    let mut stored = nz_stored(&rt, alloc);
    let taken = take_stored(&rt, alloc, &mut stored, TEN);
    assert_same(&rt, taken.told(), recorded(0));
    drop(taken);
    stored.stop();
    assert_same(&rt, stored.commit(1), Ok(0));
    assert_same(&rt, stored.state().committed().len(), 0);
    drop(stored);
}
