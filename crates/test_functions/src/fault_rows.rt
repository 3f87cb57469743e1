use crate::given::input_of;
use crate::journals::{append, records_in};
use crate::nz_desk::{
    CLOSE, NzDesk, NzState, OPEN, TEN, TEN_MORE, assert_taken, confirm, failing_desk, nz, nz_core,
    recorded, settled, take_all,
};
use crate::same::assert_same;
use crate::standing::{next_key, take};
use desk::stores::{Kept, MemoryStore, NodeStore, StoreFault};
use desk::{Ended, Life, Seat, SharedNode, State, Told};
use protocol::units::refusal_code::NODE_STOPPED;
use protocol::units::{NoMemory, Refusal};
use std::alloc::Global;
use std::process::Abort;
use std::rt::Clock;
use std::sync::Wait;
use test_support::again;

const STOPPED: Told = Told::Refused(Refusal { code: NODE_STOPPED });

/// Asserts that a desk's commit fails, and that it has stopped then. `NoMemory` if the store ran out of memory before.
fn assert_stops(
    rt: &(impl Wait + Abort),
    alloc: Global,
    desk: &NzDesk,
    seat: &mut Seat,
) -> Result<(), NoMemory> {
    let committed = desk.commit_next(rt);
    if committed == Err(StoreFault::NoMemory) {
        return Err(NoMemory);
    }
    assert_same(rt, committed, Err(StoreFault::Device));
    assert_same(rt, desk.commit_next(rt), Ok(0));
    take_all(rt, alloc, desk, seat, &[(CLOSE, STOPPED)]);
    assert_same(rt, next_key(rt, desk, 0), None);
    Ok(())
}

/// Asserts that the desk leaves two records that aren't committed and the fault of its store, and that the state
/// settles with the notes of the seat. Returns the store.
fn left_store(rt: &impl Abort, desk: NzDesk, seat: Seat) -> MemoryStore {
    let Ended { stored, fault } = desk.end();
    assert_same(rt, fault, Some(StoreFault::Device));
    let (state, store) = stored.into_parts();
    let life = Life {
        opening: 0,
        records: 2,
        committed: 0,
    };
    let seats = [seat];
    assert_same(rt, settled(state, &seats), Ok(life));
    drop(seats);
    store
}

/// The store after a desk's first commit to it failed; it keeps all or nothing of the commit. `NoMemory` if it ran out
/// of memory before.
fn failed(
    rt: &(impl Wait + Clock + Abort),
    alloc: Global,
    keeps: Kept,
) -> Result<MemoryStore, NoMemory> {
    let desk = failing_desk(rt, alloc, keeps);
    let mut seat = Seat::new(alloc);
    take_all(rt, alloc, &desk, &mut seat, &[(TEN, recorded(0))]);
    let taken = take(rt, alloc, &desk, &mut seat, TEN_MORE);
    match assert_stops(rt, alloc, &desk, &mut seat) {
        Ok(()) => {
            assert!(rt; !confirm(rt, &desk, &mut seat, taken));
            Ok(left_store(rt, desk, seat))
        }
        Err(NoMemory) => {
            drop(taken);
            drop(seat);
            drop(desk);
            Err(NoMemory)
        }
    }
}

/// The store after a desk's first commit to it failed, opened again; it keeps all or nothing of the commit.
fn failed_store(rt: &(impl Wait + Clock + Abort), alloc: Global, keeps: Kept) -> MemoryStore {
    let failed = again!(failed(rt, alloc, keeps), Err(NoMemory) => ());
    let mut store = failed.expect(rt, "memory");
    assert_same(rt, store.reopen(), Ok(()));
    store
}

/// The state that is read from the store.
fn load(rt: &impl Abort, alloc: Global, store: &mut MemoryStore) -> Result<NzState, StoreFault> {
    State::load_from(alloc, nz_core(rt, alloc), store)
}

/// The state that is read from a store of that many records, or the store's fault.
fn loaded(
    rt: &impl Abort,
    alloc: Global,
    store: &mut MemoryStore,
    records: usize,
) -> Result<NzState, StoreFault> {
    again!(
        load(rt, alloc, store),
        Err(StoreFault::NoMemory) => assert_same(rt, records_in(rt, store), records)
    )
}

/// Asserts that the state runs with that many records, all of them committed, and records another.
fn assert_goes_on(rt: &impl Abort, alloc: Global, state: &mut NzState, records: usize) {
    assert_same(rt, state.committed().len(), records);
    assert!(rt; state.is_running());
    assert_taken(rt, alloc, state, CLOSE, recorded(records));
}

#[test]
fn a_failed_commit_stops_the_node(rt: HostRuntime) {
    let alloc = rt.alloc();
    for (keeps, records) in [(Kept::All, 2), (Kept::None, 0)] {
        let mut store = failed_store(&rt, alloc, keeps);
        let loaded = loaded(&rt, alloc, &mut store, records);
        let mut state = loaded.ok().expect(&rt, "a state");
        assert_goes_on(&rt, alloc, &mut state, records);
        drop(state);
    }
}

#[test]
fn a_record_that_is_not_recorded_is_damage(rt: HostRuntime) {
    let alloc = rt.alloc();
    let mut store = MemoryStore::new(alloc, nz(&rt));
    for (records, given) in [CLOSE, OPEN, OPEN].iter().enumerate() {
        append(&rt, &mut store, records, input_of(&rt, alloc, *given));
    }
    let loaded = loaded(&rt, alloc, &mut store, 3);
    assert_same(&rt, loaded.err(), Some(StoreFault::Damaged(2)));
}
