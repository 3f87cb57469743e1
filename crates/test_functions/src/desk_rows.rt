use crate::given::Given::{self, Message};
use crate::journals::records_in;
use crate::nz_desk::{
    NzDesk, NzState, NzStored, TEN, TEN_MORE, confirm, nz_desk, nz_stored, recorded, state_left,
    take_all, turn,
};
use crate::same::{assert_same, assert_same_in};
use crate::standing::{commit, commit_stored, next_for_log, next_key, query, take, take_stored};
use desk::{Life, Seat, SharedNode, Taken, Told, Unsettled, settle};
use protocol::status::{Status, TransactionId};
use protocol::units::refusal_code::NODE_STOPPED;
use protocol::units::{NoMemory, Refusal};
use protocol::{NodeCore, Stepped};
use registry_core::RegistryCore;
use std::alloc::Global;
use std::process::Abort;
use std::rt::Clock;
use std::sync::Wait;
use test_support::again;

const CANCELLED: Given = Message(
    r#"{"call":"AcceptNotification","codes":[],"from":"ITL","status":"Cancelled","to":"NZ","transaction":"JP1"}"#,
);

const CHECKED: Given = Message(
    r#"{"account":7,"call":"AcceptProposal","from":"ITL","status":"Checked","to":"NZ","to_account":1,"to_registry":"NZ","transaction":"JP1","units":["JP:1:1-1:AAU"]}"#,
);

/// Asserts the keys of the messages that are next for the log, from each of the keys 0 to 2 on.
fn assert_next(rt: &(impl Wait + Abort), desk: &NzDesk, expected: [Option<usize>; 3]) {
    for from in 0..3 {
        assert_same_in(rt, next_key(rt, desk, from), expected[from], from);
    }
}

/// Has the desk take a proposal, which is recorded at that place.
fn proposed(
    rt: &(impl Wait + Abort),
    alloc: Global,
    desk: &NzDesk,
    seat: &mut Seat,
    given: Given,
    place: usize,
) -> Taken {
    let taken = take(rt, alloc, desk, seat, given);
    assert_same(rt, taken.told(), recorded(place));
    taken
}

/// A desk that has committed two proposals, and the seats that noted them and had their results confirmed. `NoMemory`
/// if its store ran out of memory.
fn committed_two(
    rt: &(impl Wait + Clock + Abort),
    alloc: Global,
) -> Result<(NzDesk, [Seat; 2]), NoMemory> {
    let (mut a, mut b) = (Seat::new(alloc), Seat::new(alloc));
    let desk = nz_desk(rt, alloc);
    let first = proposed(rt, alloc, &desk, &mut a, TEN, 0);
    let second = proposed(rt, alloc, &desk, &mut b, TEN_MORE, 1);
    assert_next(rt, &desk, [None, None, None]);
    assert_same(rt, commit(rt, &desk)?, 2);
    assert!(rt; confirm(rt, &desk, &mut a, first));
    assert!(rt; confirm(rt, &desk, &mut b, second));
    Ok((desk, [a, b]))
}

/// Asserts that the message with that key is the next one for the log from that key on, and is about that transaction.
fn assert_about(rt: &(impl Wait + Abort), desk: &NzDesk, key: usize, id: &str) {
    let id = TransactionId::read(id).expect(rt, "an identifier");
    assert_same(rt, next_for_log(rt, desk, key), Some((key, id)));
}

#[test]
fn messages_leave_after_their_commit(rt: HostRuntime) {
    let alloc = rt.alloc();
    let committed = again!(committed_two(&rt, alloc), Err(NoMemory) => ());
    let (desk, seats) = committed.ok().expect(&rt, "memory");
    assert_next(&rt, &desk, [Some(0), Some(1), None]);
    assert_about(&rt, &desk, 0, "NZ1");
    assert_about(&rt, &desk, 1, "NZ2");
    drop((desk, seats));
}

/// Asserts that NZ1 has status Proposed at the desk, which has two records, and confirms the result.
fn assert_proposed(
    rt: &(impl Wait + Clock + Abort),
    alloc: Global,
    desk: &NzDesk,
    seat: &mut Seat,
) {
    let taken = query(rt, alloc, desk, seat);
    let proposed = Told::Status(Some(Status::Proposed));
    assert_same(rt, (taken.told(), taken.length()), (proposed, 2));
    assert!(rt; confirm(rt, desk, seat, taken));
}

#[test]
fn a_query_is_confirmed(rt: HostRuntime) {
    let alloc = rt.alloc();
    let committed = again!(committed_two(&rt, alloc), Err(NoMemory) => ());
    let (desk, [mut a, b]) = committed.ok().expect(&rt, "memory");
    assert_proposed(&rt, alloc, &desk, &mut a);
    assert_same(&rt, a.confirmed(), 2);
    drop((desk, a, b));
}

/// The results that the first seat gets after that, up to the stop.
const TOLD: &[(Given, Told)] = &[
    (CANCELLED, Told::Step(Stepped::Recorded(2))),
    (CANCELLED, Told::Step(Stepped::Repeat)),
    (CHECKED, Told::Step(Stepped::Late)),
];

/// Stops the desk, and asserts that it takes nothing and sends nothing then.
fn assert_stops(rt: &(impl Wait + Abort), alloc: Global, desk: &NzDesk, seat: &mut Seat) {
    assert!(rt; desk.is_running(rt));
    desk.stop(rt);
    assert!(rt; !desk.is_running(rt));
    let stopped = Told::Refused(Refusal { code: NODE_STOPPED });
    take_all(rt, alloc, desk, seat, &[(TEN, stopped)]);
    assert_next(rt, desk, [None, None, None]);
}

/// Asserts that the state settles with all seats, and not without the second one, which has the ticket of record 1.
fn assert_settles(rt: &impl Abort, state: &NzState, seats: &[Seat; 2]) {
    let life = Life {
        opening: 0,
        records: 3,
        committed: 2,
    };
    let all = again!(settle(state, seats), Err(Unsettled::NoMemory) => ());
    assert_same(rt, all, Ok(life));
    let first = again!(settle(state, &seats[..1]), Err(Unsettled::NoMemory) => ());
    assert_same(rt, first, Err(Unsettled::Missing(1)));
}

/// Asserts that a fresh core of the core's scheme and node has no record.
fn assert_fresh(rt: &impl Abort, core: RegistryCore) {
    let fresh = again!(core.fresh(), Err(NoMemory) => ());
    let fresh = fresh.expect(rt, "memory");
    assert_same(rt, fresh.records(), 0);
    drop(fresh);
    drop(core);
}

#[test]
fn a_stopped_desk_settles(rt: HostRuntime) {
    let alloc = rt.alloc();
    let committed = again!(committed_two(&rt, alloc), Err(NoMemory) => ());
    let (desk, [mut a, b]) = committed.ok().expect(&rt, "memory");
    take_all(&rt, alloc, &desk, &mut a, TOLD);
    assert_stops(&rt, alloc, &desk, &mut a);
    let (state, seats) = (state_left(desk), [a, b]);
    assert_settles(&rt, &state, &seats);
    drop(seats);
    assert_fresh(&rt, state.into_core());
}

/// Has the desk record that many inputs, which close and open an account in turn.
fn record_many(rt: &(impl Wait + Abort), alloc: Global, desk: &NzDesk, records: usize) {
    let mut seat = Seat::new(alloc);
    for place in 0..records {
        drop(take(rt, alloc, desk, &mut seat, turn(place)));
    }
    drop(seat);
}

/// How many of 65 records each of three commits of a desk appends. `NoMemory` if its store ran out of memory.
fn three_commits(rt: &(impl Wait + Abort), alloc: Global) -> Result<[usize; 3], NoMemory> {
    let desk = nz_desk(rt, alloc);
    record_many(rt, alloc, &desk, 65);
    let first = commit(rt, &desk)?;
    let second = commit(rt, &desk)?;
    Ok([first, second, commit(rt, &desk)?])
}

#[test]
fn a_desk_commits_64_at_most(rt: HostRuntime) {
    let alloc = rt.alloc();
    let commits = again!(three_commits(&rt, alloc), Err(NoMemory) => ());
    assert_same(&rt, commits, Ok([64, 1, 0]));
}

/// Asserts the state's result for an input.
fn assert_stored(rt: &impl Abort, alloc: Global, stored: &mut NzStored, given: Given, told: Told) {
    let taken = take_stored(rt, alloc, stored, given);
    assert_same(rt, taken.told(), told);
    drop(taken);
}

/// A state with two records and an empty store.
fn stored_two(rt: &impl Abort, alloc: Global) -> NzStored {
    let mut stored = nz_stored(rt, alloc);
    assert_stored(rt, alloc, &mut stored, TEN, recorded(0));
    assert_stored(rt, alloc, &mut stored, TEN_MORE, recorded(1));
    stored
}

/// How many records the state would commit next, if a batch has at most `max`.
fn next_batch(rt: &impl Abort, state: &NzState, max: usize) -> usize {
    let found = again!(state.batch(max), Err(NoMemory) => ());
    let batch = found.expect(rt, "memory");
    let records = batch.len();
    drop(batch);
    records
}

/// Has the state commit its next batch of at most `max` records.
fn commit_batch(rt: &impl Abort, stored: &mut NzStored, max: usize) -> Result<(), NoMemory> {
    let batch = next_batch(rt, stored.state(), max);
    assert_same(rt, commit_stored(rt, stored, max)?, batch);
    Ok(())
}

/// A state of two records that has committed batches of at most these numbers of records.
fn committed_in(rt: &impl Abort, alloc: Global, batches: &[usize]) -> Result<NzStored, NoMemory> {
    let mut stored = stored_two(rt, alloc);
    for max in batches {
        commit_batch(rt, &mut stored, *max)?;
    }
    Ok(stored)
}

/// Has a state of two records commit batches of at most these numbers of records, and asserts how many are committed
/// then, and that its store has them.
fn assert_committed(rt: &impl Abort, alloc: Global, batches: &[usize], records: usize) {
    let committed = again!(committed_in(rt, alloc, batches), Err(NoMemory) => ());
    let (state, mut store) = committed.ok().expect(rt, "memory").into_parts();
    assert_same(rt, state.committed().len(), records);
    let next = next_batch(rt, &state, 64);
    assert_same(rt, records.checked_add(next), Some(2));
    assert_same(rt, records_in(rt, &mut store), records);
    drop(state);
}

#[test]
fn a_state_commits_in_batches(rt: HostRuntime) {
    let alloc = rt.alloc();
    let batches = [1, 64, 64];
    for (count, records) in [(0, 0), (1, 1), (2, 2), (3, 2)] {
        assert_committed(&rt, alloc, &batches[..count], records);
    }
}

/// How many records the journal had when the result was taken that this receipt confirms.
fn received(rt: &impl Abort, state: &NzState, taken: Taken) -> usize {
    let receipt = state.receipt(taken).ok().expect(rt, "a receipt");
    let length = receipt.taken().length();
    drop(receipt);
    length
}

/// The taken result, which is handed back if there is no receipt of it yet.
fn not_received(rt: &impl Abort, state: &NzState, taken: Taken) -> Taken {
    state.receipt(taken).err().expect(rt, "what was taken")
}

/// Asserts that there is a receipt of the first once one record is committed, and of the second only after another.
fn assert_receipts(rt: &impl Abort, alloc: Global) -> Result<(), NoMemory> {
    let mut stored = nz_stored(rt, alloc);
    let first = take_stored(rt, alloc, &mut stored, TEN);
    let second = take_stored(rt, alloc, &mut stored, TEN_MORE);
    commit_batch(rt, &mut stored, 1)?;
    assert_same(rt, received(rt, stored.state(), first), 1);
    let second = not_received(rt, stored.state(), second);
    commit_batch(rt, &mut stored, 1)?;
    assert_same(rt, received(rt, stored.state(), second), 2);
    Ok(())
}

#[test]
fn what_is_committed_has_a_receipt(rt: HostRuntime) {
    let alloc = rt.alloc();
    let asserted = again!(assert_receipts(&rt, alloc), Err(NoMemory) => ());
    assert_same(&rt, asserted, Ok(()));
}
