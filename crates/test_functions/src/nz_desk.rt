//! Registry NZ of the worked scheme, its desks, and the questions to them.

ghost use Rattle.std.specs.Prelude.{◌≡◌, [], true, false};
ghost use Rattle.protocol.specs.Node.TheVariants.{Registry};

use crate::given::Given::{self, Event};
use crate::same::{assert_same, assert_same_in};
use crate::standing::{take, take_at};
use desk::stores::{Kept, MemoryStore, NodeStore};
use desk::{
    Bells, Desk, Ended, Life, RoomBell, Seat, SharedNode, State, Stored, Taken, Told, Unsettled,
    settle,
};
use protocol::scheme::Scheme;
use protocol::units::{Code, NoMemory, Node};
use protocol::{NodeCore, Stepped};
use registry_core::RegistryCore;
use std::alloc::Global;
use std::marker::Brand;
use std::process::Abort;
use std::rt::Clock;
use std::sync::Wait;
use test_support::{READING, again};

const SCHEME: &str =
    r#"{"records":2000,"registries":[{"accounts":[7,8],"allotted":[],"code":"JP","eligible":true,"kinds":["AAU","CER"]},{"accounts":[1,2],"allotted":[{"account":1,"units":["NZ:1:1-100:AAU"]}],"code":"NZ","eligible":true,"kinds":["AAU","RMU","ERU","CER","tCER","lCER"]}]}"#;

/// The same registries, with one account of NZ.
const SCHEME_OF_ONE: &str =
    r#"{"records":2000,"registries":[{"accounts":[7,8],"allotted":[],"code":"JP","eligible":true,"kinds":["AAU","CER"]},{"accounts":[1],"allotted":[{"account":1,"units":["NZ:1:1-100:AAU"]}],"code":"NZ","eligible":true,"kinds":["AAU"]}]}"#;

/// NZ's first proposal.
pub const TEN: Given = Event("propose NZ 1 JP 7 NZ:1:1-10:AAU");

/// Its second one.
pub const TEN_MORE: Given = Event("propose NZ 1 JP 7 NZ:1:11-20:AAU");

pub const CLOSE: Given = Event("close NZ 2");

pub const OPEN: Given = Event("open NZ 2");

pub type NzState = State<RegistryCore>;

pub type NzStored = Stored<RegistryCore, MemoryStore>;

pub type NzDesk = Desk<Brand, RegistryCore, MemoryStore, RoomBell>;

pub fn nz(rt: &impl Abort) -> Node {
    Node::Registry(Code::read("NZ").expect(rt, "a code"))
}

pub fn nz_core(rt: &impl Abort, alloc: Global) -> RegistryCore
    ensures { result.journal ≡ [] }
{
    core_under(rt, alloc, SCHEME)
}

/// NZ's core under a scheme in which it has no account 2.
pub fn core_of_one(rt: &impl Abort, alloc: Global) -> RegistryCore
    ensures { result.journal ≡ [] }
{
    core_under(rt, alloc, SCHEME_OF_ONE)
}

fn core_under(rt: &impl Abort, alloc: Global, text: &str) -> RegistryCore
    ensures { result.journal ≡ [] }
{
    let scheme = Scheme::read(alloc, text.as_bytes()).expect(rt, READING);
    let code = Code::read("NZ").expect(rt, "a code");
    let core = again!(RegistryCore::new(alloc, &scheme, code), Err(NoMemory) => ());
    drop(scheme);
    core.expect(rt, "memory")
}

/// Asserts the state's result for an input.
pub fn assert_taken(rt: &impl Abort, alloc: Global, state: &mut NzState, given: Given, told: Told) {
    let taken = take_at(rt, alloc, state, given);
    assert_same(rt, taken.told(), told);
    drop(taken);
}

pub fn nz_state(rt: &impl Abort, alloc: Global) -> NzState {
    State::new(alloc, nz_core(rt, alloc))
}

/// NZ's state over that store of it.
pub fn stored_over<S: NodeStore + Drop>(
    rt: &impl Abort,
    alloc: Global,
    core: RegistryCore,
    store: S,
) -> Stored<RegistryCore, S>
    requires journal { core.journal ≡ [] }
    requires whose { S.whose store ≡ Registry core.code }
    requires own { S.is_honest store → S.must_reopen store ≡ false → S.is_own store }
    ensures { result.state.runs ≡ true }
{
    match Stored::load(alloc, core, store) {
        Ok(stored) => stored,
        Err((_, store)) => {
            drop(store);
            rt.abort()
        }
    }
}

/// NZ's state with an empty store.
pub fn nz_stored(rt: &impl Abort, alloc: Global) -> NzStored
    ensures { result.state.runs ≡ true }
{
    let core = nz_core(rt, alloc);
    let store = MemoryStore::new(alloc, core.node());
    stored_over(rt, alloc, core, store)
}

pub fn nz_desk(rt: &impl Abort, alloc: Global) -> NzDesk {
    Desk::new(nz_stored(rt, alloc), Bells::new(alloc))
}

/// NZ's desk over an empty store whose first append fails; the store keeps all or nothing of it.
pub fn failing_desk(rt: &impl Abort, alloc: Global, keeps: Kept) -> NzDesk {
    let core = nz_core(rt, alloc);
    let store = MemoryStore::fused(alloc, core.node(), 0, keeps);
    Desk::new(stored_over(rt, alloc, core, store), Bells::new(alloc))
}

/// The state and the store that the desk leaves.
pub fn parts_left(desk: NzDesk) -> (NzState, MemoryStore) {
    let Ended { stored, fault: _ } = desk.end();
    stored.into_parts()
}

/// The state that the desk leaves.
pub fn state_left(desk: NzDesk) -> NzState {
    let (state, store) = parts_left(desk);
    drop(store);
    state
}

/// The input at that place of a journal in which an account is closed and opened in turn.
pub fn turn(place: usize) -> Given {
    if place % 2 == 0 { CLOSE } else { OPEN }
}

/// Waits until that is committed, or the desk has stopped. Returns whether it is committed.
pub fn confirm(
    rt: &(impl Wait + Clock + Abort),
    desk: &NzDesk,
    seat: &mut Seat,
    taken: Taken,
) -> bool {
    desk.confirm(rt, seat, taken).is_ok()
}

/// The result of settling the state with those seats.
pub fn settled(state: NzState, seats: &[Seat]) -> Result<Life, Unsettled> {
    let found = again!(settle(&state, seats), Err(Unsettled::NoMemory) => ());
    drop(state);
    found
}

/// Ends the desk, and asserts the result of settling it with the one seat.
pub fn assert_found(rt: &impl Abort, desk: NzDesk, seat: Seat, expected: Result<Life, Unsettled>) {
    let seats = [seat];
    assert_same(rt, settled(state_left(desk), &seats), expected);
    drop(seats);
}

/// Has the desk take each input, and asserts the result.
pub fn take_all(
    rt: &(impl Wait + Abort),
    alloc: Global,
    desk: &NzDesk,
    seat: &mut Seat,
    row: &[(Given, Told)],
) {
    for (given, expected) in row {
        let taken = take(rt, alloc, desk, seat, *given);
        assert_same_in(rt, taken.told(), *expected, *given);
        drop(taken);
    }
}

/// The result for an input that is recorded at that place.
pub fn recorded(place: usize) -> Told {
    Told::Step(Stepped::Recorded(place))
}
