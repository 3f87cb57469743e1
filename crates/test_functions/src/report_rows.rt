//! Reports of states and seats that are given.
ghost use Rattle.std.specs.Prelude.{◌≡◌, IfOk, Some};

use crate::given::Given::{self, Event};
use crate::given::input_of;
use crate::journals::{
    ACCEPTED, ASKED, CHECKED, COMPLETED, IN_TRANSIT, PROPOSED, TOLD_JP, TOLD_NZ,
};
use crate::same::{assert_same, room};
use crate::standing::{commit_stored, of_state, take_stored, unless_no_memory};
use crate::stations::empty_state;
use crate::worked_nodes::{registry, worked_scheme};
use command_faults::OpFault;
use desk::stores::MemoryStore;
use desk::{Seat, Stored, Taken};
use ended_nodes::{EndedNode, report_run};
use protocol::scheme::Scheme;
use protocol::units::{NoMemory, Node};
use protocol::wire::Input;
use std::alloc::Global;
use std::process::Abort;
use test_support::again;
use world::Core;

/// A node's state, with its store.
type NodeState = Stored<Core, MemoryStore>;

/// The records of a node, and how many of them are committed.
type Row<'a> = (&'a [Given], usize);

/// The state of the node with these records. `NoMemory` if its store ran out of memory.
fn state_of(
    rt: &impl Abort,
    alloc: Global,
    scheme: &Scheme,
    node: Node,
    row: Row<'_>,
) -> Result<NodeState, NoMemory> {
    let (records, committed) = row;
    let mut state = empty_state(rt, alloc, scheme, node);
    for given in records {
        drop(take_stored(rt, alloc, &mut state, *given));
    }
    assert_same(rt, commit_stored(rt, &mut state, committed)?, committed);
    Ok(state)
}

/// Makes room at the seat for the result of the input, and has the state take it.
fn take_prepared(
    rt: &impl Abort,
    state: &mut NodeState,
    seat: &mut Seat,
    input: Input,
) -> Result<Taken, usize>
    ensures { IfOk result (λ taken. seat.new.prepared ≡ Some taken.asked) }
{
    let before = (seat.tickets().len(), seat.notes().len());
    let prepared = again!(
        seat.prepare_input(&input),
        Err(NoMemory) => assert_same(rt, (seat.tickets().len(), seat.notes().len()), before)
    );
    match prepared {
        Ok(()) => unless_no_memory(state.take(input)),
        Err(NoMemory) => rt.abort(),
    }
}

/// As `take_prepared`, and once more if memory ran out.
fn take_again(
    rt: &impl Abort,
    alloc: Global,
    state: &mut NodeState,
    seat: &mut Seat,
    given: Given,
) -> Taken
    ensures { seat.new.prepared ≡ Some result.asked }
{
    let before = of_state(rt, state.state());
    let taken = again!(
        take_prepared(rt, state, seat, input_of(rt, alloc, given)),
        Err(_) => assert_same(rt, of_state(rt, state.state()), before)
    );
    match taken {
        Ok(taken) => taken,
        Err(_) => rt.abort(),
    }
}

/// Has the state take the input, and has the seat keep the result.
fn tell(rt: &impl Abort, alloc: Global, state: &mut NodeState, seat: &mut Seat, given: Given) {
    let taken = take_again(rt, alloc, state, seat, given);
    seat.keep(&taken);
    drop(taken);
}

/// A seat with tickets of these records, taken by a state of its own.
fn told_seat(
    rt: &impl Abort,
    alloc: Global,
    scheme: &Scheme,
    node: Node,
    records: &[Given],
) -> Seat {
    let mut seat = Seat::new(alloc);
    let mut state = empty_state(rt, alloc, scheme, node);
    for given in records {
        tell(rt, alloc, &mut state, &mut seat, *given);
    }
    drop(state);
    seat
}

/// A node with these records, one of whose threads has tickets of those.
fn ended_node(
    rt: &impl Abort,
    alloc: Global,
    scheme: &Scheme,
    node: Node,
    row: Row<'_>,
    told: &[Given],
) -> Result<EndedNode<MemoryStore>, NoMemory> {
    let stored = state_of(rt, alloc, scheme, node, row)?;
    let mut seats = Vec::new(alloc);
    seats.reserve(1)?;
    seats.push_reserved(told_seat(rt, alloc, scheme, node, told));
    Ok(EndedNode { stored, seats })
}

/// The remains of a run at the log, at JP and at NZ, where each has these records and a thread of each has tickets of
/// all of them, except that NZ's thread has tickets of these.
fn ended_nodes(
    rt: &impl Abort,
    alloc: Global,
    scheme: &Scheme,
    rows: [Row<'_>; 3],
    told: &[Given],
) -> Result<[EndedNode<MemoryStore>; 3], NoMemory> {
    let [log, jp, nz] = rows;
    let log = ended_node(rt, alloc, scheme, Node::Itl, log, log.0)?;
    let jp = ended_node(rt, alloc, scheme, registry(rt, "JP"), jp, jp.0)?;
    let nz = ended_node(rt, alloc, scheme, registry(rt, "NZ"), nz, told)?;
    Ok([log, jp, nz])
}

/// The result and the output of `report_run` for such nodes.
fn reported(
    rt: &impl Abort,
    alloc: Global,
    rows: [Row<'_>; 3],
    told: &[Given],
) -> (Result<(), OpFault>, Vec<u8>) {
    let scheme = worked_scheme(rt, alloc);
    let mut written = room(rt, alloc);
    let ended = again!(ended_nodes(rt, alloc, &scheme, rows, told), Err(NoMemory) => ());
    let ended = ended.ok().expect(rt, "memory");
    let done = again!(
        report_run(alloc, &scheme, &ended, &mut written),
        Err(OpFault::NoMemory) => assert!(rt; written.is_empty())
    );
    drop(ended);
    drop(scheme);
    (done, written)
}

const LOG: &[Given] = &[ASKED, ACCEPTED, COMPLETED];

const JP: &[Given] = &[CHECKED, TOLD_JP];

const NZ: &[Given] = &[PROPOSED, TOLD_NZ];

#[test]
fn what_is_committed_is_in_the_table(rt: HostRuntime) {
    let rows = [(LOG, 3), (JP, 1), (NZ, 2)];
    let (done, written) = reported(&rt, rt.alloc(), rows, NZ);
    assert_same(&rt, done, Ok(()));
    assert!(rt; written.as_slice() == IN_TRANSIT.as_bytes());
}

/// The thread has a ticket for an order by which NZ closes an account, and NZ has no record of it.
#[test]
fn a_node_is_unsettled(rt: HostRuntime) {
    let node = registry(&rt, "NZ");
    let rows = [(LOG, 3), (JP, 2), (NZ, 2)];
    let (done, written) = reported(&rt, rt.alloc(), rows, &[PROPOSED, Event("close NZ 2")]);
    assert_same(&rt, done, Err(OpFault::Unsettled { node }));
    assert!(rt; written.is_empty());
}

/// The log has NZ's Completed, and NZ hasn't committed the record that sends it.
#[test]
fn no_run_leads_to_what_is_committed(rt: HostRuntime) {
    let node = Node::Itl;
    let rows = [(LOG, 3), (JP, 1), (NZ, 1)];
    let (done, written) = reported(&rt, rt.alloc(), rows, NZ);
    assert_same(&rt, done, Err(OpFault::Stuck { node, place: 2 }));
    assert!(rt; written.is_empty());
}
