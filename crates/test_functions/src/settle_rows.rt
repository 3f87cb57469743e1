use crate::given::Given;
use crate::nz_desk::{
    CLOSE, NzDesk, NzState, TEN, TEN_MORE, assert_found, assert_taken, confirm, core_of_one,
    nz_desk, nz_state, recorded, settled, state_left, take_all,
};
use crate::same::assert_same;
use crate::standing::{commit, query, take};
use desk::{Lengths, Life, Seat, SharedNode, Told, Unsettled, settle_with};
use protocol::Stepped;
use protocol::units::NoMemory;
use std::alloc::Global;
use std::process::Abort;
use std::rt::Clock;
use std::sync::Wait;
use test_support::again;

/// A desk with three records.
fn desk_of_three(rt: &(impl Wait + Abort), alloc: Global) -> NzDesk {
    let desk = nz_desk(rt, alloc);
    let row = [
        (TEN, recorded(0)),
        (TEN_MORE, recorded(1)),
        (CLOSE, recorded(2)),
    ];
    let mut seat = Seat::new(alloc);
    take_all(rt, alloc, &desk, &mut seat, &row);
    drop(seat);
    desk
}

/// Asks the desk, and asserts how many records it has.
fn ask(rt: &(impl Wait + Abort), alloc: Global, desk: &NzDesk, seat: &mut Seat, records: usize) {
    let taken = query(rt, alloc, desk, seat);
    assert_same(rt, taken.length(), records);
    drop(taken);
}

/// A seat with tickets of three records, taken at a desk of its own.
fn seat_of_three(rt: &(impl Wait + Abort), alloc: Global) -> Seat {
    let desk = desk_of_three(rt, alloc);
    let mut seat = Seat::new(alloc);
    ask(rt, alloc, &desk, &mut seat, 3);
    drop(desk);
    assert_same(rt, seat.notes().len(), 1);
    seat
}

#[test]
fn fewer_records_at_another_desk_are_found(rt: HostRuntime) {
    let alloc = rt.alloc();
    let empty = nz_desk(&rt, alloc);
    let mut both = seat_of_three(&rt, alloc);
    ask(&rt, alloc, &empty, &mut both, 0);
    assert_same(&rt, both.lengths(), Lengths::Fell);
    assert_found(&rt, empty, both, Err(Unsettled::Fell));
}

#[test]
fn what_another_desk_told_is_found(rt: HostRuntime) {
    let alloc = rt.alloc();
    let other = seat_of_three(&rt, alloc);
    let empty = nz_desk(&rt, alloc);
    assert_found(&rt, empty, other, Err(Unsettled::Untrue(3)));
}

/// A seat with a ticket of NZ's first proposal, recorded at a desk of its own.
fn told_seat(rt: &(impl Wait + Abort), alloc: Global) -> Seat {
    let desk = nz_desk(rt, alloc);
    let mut seat = Seat::new(alloc);
    take_all(rt, alloc, &desk, &mut seat, &[(TEN, recorded(0))]);
    drop(desk);
    seat
}

/// The same, with the record confirmed as committed.
fn confirmed_seat(rt: &(impl Wait + Clock + Abort), alloc: Global) -> Result<Seat, NoMemory> {
    let desk = nz_desk(rt, alloc);
    let mut seat = Seat::new(alloc);
    let taken = take(rt, alloc, &desk, &mut seat, TEN);
    match commit(rt, &desk) {
        Ok(records) => {
            assert_same(rt, records, 1);
            assert!(rt; confirm(rt, &desk, &mut seat, taken));
            Ok(seat)
        }
        Err(NoMemory) => {
            drop(taken);
            drop(seat);
            Err(NoMemory)
        }
    }
}

/// Asserts the result of settling a state that has that one record, with those seats.
fn assert_unsettled(
    rt: &impl Abort,
    alloc: Global,
    given: Given,
    seats: &[Seat],
    expected: Unsettled,
) {
    let mut state = nz_state(rt, alloc);
    assert_taken(rt, alloc, &mut state, given, recorded(0));
    assert_same(rt, settled(state, seats), Err(expected));
}

#[test]
fn seats_of_other_desks_are_found(rt: HostRuntime) {
    let alloc = rt.alloc();
    let told = told_seat(&rt, alloc);
    let confirmed = again!(confirmed_seat(&rt, alloc), Err(NoMemory) => ());
    let both = [told, confirmed.expect(&rt, "memory")];
    let seats = &both[..];
    assert_unsettled(&rt, alloc, CLOSE, &seats[..1], Unsettled::Differs(0));
    assert_unsettled(&rt, alloc, TEN, &seats[1..], Unsettled::NotCommitted(1));
    assert_unsettled(&rt, alloc, TEN, seats, Unsettled::Twice(0));
    drop(both);
}

/// Two records, each with a ticket.
const TWO: &[(Given, Told)] = &[
    (TEN, Told::Step(Stepped::Recorded(0))),
    (TEN_MORE, Told::Step(Stepped::Recorded(1))),
];

#[test]
fn an_unconfirmed_tail_settles(rt: HostRuntime) {
    let alloc = rt.alloc();
    let desk = nz_desk(&rt, alloc);
    let mut seat = Seat::new(alloc);
    take_all(&rt, alloc, &desk, &mut seat, TWO);
    desk.stop(&rt);
    assert_same(&rt, commit(&rt, &desk), Ok(0));
    let life = Life {
        opening: 0,
        records: 2,
        committed: 0,
    };
    assert_same(&rt, seat.tickets().len(), 2);
    assert_found(&rt, desk, seat, Ok(life));
}

/// The result of settling the state with a core under another scheme.
fn found_by_another(
    rt: &impl Abort,
    alloc: Global,
    state: &NzState,
    seats: &[Seat],
) -> Option<Unsettled> {
    match settle_with(core_of_one(rt, alloc), state, seats) {
        Ok(settled) => {
            drop(settled);
            None
        }
        Err(fault) => Some(fault),
    }
}

#[test]
fn a_record_of_another_scheme_is_found(rt: HostRuntime) {
    let alloc = rt.alloc();
    let desk = nz_desk(&rt, alloc);
    let mut seat = Seat::new(alloc);
    take_all(
        &rt,
        alloc,
        &desk,
        &mut seat,
        &[(TEN, recorded(0)), (CLOSE, recorded(1))],
    );
    ask(&rt, alloc, &desk, &mut seat, 2);
    let (state, seats) = (state_left(desk), [seat]);
    let found = again!(
        found_by_another(&rt, alloc, &state, &seats),
        Some(Unsettled::NoMemory) => ()
    );
    assert_same(&rt, found, Some(Unsettled::NotRecorded(1)));
    drop(seats);
    drop(state);
}
