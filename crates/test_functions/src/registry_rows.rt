use crate::cores::{ROOM, assert_sent, scheme, walk};
use crate::given::Given::{self, Event, Message};
use crate::given::{PROPOSE, PROPOSE_SIXTY, input_of, inputs};
use crate::registries::{assert_none_held, registry};
use crate::same::assert_same;
use checks::propose_check;
use protocol::Outcome::{Recorded, Refused};
use protocol::status::{Order, Status, TransactionId};
use protocol::units::limits::LAST_TRANSACTION;
use protocol::units::refusal_code::OUT_OF_MEMORY;
use protocol::units::{Code, Node, Refusal};
use protocol::wire::Input;
use protocol::{NodeCore, Outcome, ReplayFault, replay, resume};
use registry_core::RegistryCore;
use std::alloc::Global;
use std::process::Abort;
use test_support::{again, texts};

const CLOSE_2: Given = Event("close NZ 2");

const OPEN_2: Given = Event("open NZ 2");

const HUNDRED: Given = Event(PROPOSE);

const SIXTY: Given = Event(PROPOSE_SIXTY);

const ACCEPTED: Given = Message(texts::ACCEPTED_TO_NZ);

const ACK_0: Given = Event("ack NZ 0");

const REQUEST: Given = Event("request NZ NZ1");

/// The order that is given, if it is one to transfer units.
fn order(rt: &impl Abort, alloc: Global, given: Given) -> Option<Order> {
    match input_of(rt, alloc, given) {
        Input::Propose(order) => Some(order),
        other => {
            drop(other);
            None
        }
    }
}

/// Why NZ refuses the order after it has numbered that many transactions.
fn refusal_after(rt: &impl Abort, alloc: Global, order: &Order, last: u32) -> Option<Refusal> {
    let scheme = scheme(rt, alloc, ROOM);
    let code = Code::read("NZ").expect(rt, "a code");
    let nz = registry(rt, alloc, "NZ", ROOM);
    let checked = again!(
        propose_check(alloc, &scheme, code, nz.holdings(), last, order),
        Err(Refusal { code: OUT_OF_MEMORY }) => ()
    );
    drop(nz);
    drop(scheme);
    checked.err()
}

#[test]
fn transactions_are_used_up(rt: HostRuntime) {
    let alloc = rt.alloc();
    let order = order(&rt, alloc, HUNDRED).expect(&rt, "an order");
    let refusal = refusal_after(&rt, alloc, &order, LAST_TRANSACTION);
    assert_same(&rt, refusal, Some(Refusal { code: 109 }));
    drop(order);
}

/// Each kind of input of an initiator, and an order of all units of a period: too many for a worked equation, which
/// takes them one by one.
const TRANSFER_OUT: &[(Given, Outcome)] = &[
    (CLOSE_2, Recorded(0)),
    (OPEN_2, Recorded(1)),
    (
        Event("propose NZ 1 JP 7 NZ:1:1-999999999999999:AAU"),
        Refused(105),
    ),
    (SIXTY, Recorded(2)),
    (REQUEST, Recorded(3)),
    (ACCEPTED, Recorded(4)),
    (ACK_0, Recorded(5)),
];

/// Asserts that the units of the first transaction have left the registry for good.
fn assert_completed(rt: &impl Abort, nz: &RegistryCore) {
    let id = TransactionId::read("NZ1").expect(rt, "an identifier");
    assert_same(rt, nz.status_of(id), Some(Status::Completed));
    assert_same(rt, nz.holdings().free_count(1), 40);
    assert_none_held(rt, nz, "NZ:1:1-60:AAU");
}

#[test]
fn transfers_out_end_once(rt: HostRuntime) {
    let alloc = rt.alloc();
    let mut nz = registry(&rt, alloc, "NZ", ROOM);
    walk(&rt, alloc, &mut nz, TRANSFER_OUT);
    assert_completed(&rt, &nz);
    assert_sent(&rt, alloc, &nz, 2, &[texts::COMPLETED]);
    drop(nz);
}

/// Each kind of message that an acquirer receives; the last proposal has a finding.
const TRANSFER_IN: &[(Given, Outcome)] = &[
    (Message(texts::CANCELLED_TO_JP), Recorded(0)),
    (Message(texts::SECOND_CHECKED), Recorded(1)),
    (Message(texts::SECOND_COMPLETED_TO_JP), Recorded(2)),
    (
        Message(
            r#"{"account":1,"call":"AcceptProposal","from":"ITL","status":"Checked","to":"JP","to_account":7,"to_registry":"JP","transaction":"NZ4","units":["NZ:1:10-11:AAU"]}"#,
        ),
        Recorded(3),
    ),
];

#[test]
fn an_acquirer_records_each_message(rt: HostRuntime) {
    let alloc = rt.alloc();
    let mut jp = registry(&rt, alloc, "JP", ROOM);
    walk(&rt, alloc, &mut jp, TRANSFER_IN);
    assert_same(&rt, jp.holdings().free_count(7), 100);
    drop(jp);
}

fn assert_of_two_records(rt: &impl Abort, replayed: &RegistryCore, node: Node) {
    assert_same(rt, replayed.records(), 2);
    assert_same(rt, replayed.journal().len(), 2);
    assert_same(rt, replayed.node(), node);
}

/// Asserts that the two records are a journal, and that they can't be recorded once more after it.
fn assert_replayed(rt: &impl Abort, nz: &RegistryCore, records: &[Input]) {
    let replayed = again!(replay(nz, records), Err(ReplayFault::NoMemory) => ());
    let mut replayed = replayed.expect(rt, "a core");
    assert_of_two_records(rt, &replayed, nz.node());
    let resumed = again!(
        resume(&mut replayed, records),
        Err(ReplayFault::NoMemory) => assert_of_two_records(rt, &replayed, nz.node())
    );
    assert_same(rt, resumed, Err(ReplayFault::NotRecorded(2)));
    drop(replayed);
}

#[test]
fn journals_are_replayed(rt: HostRuntime) {
    let alloc = rt.alloc();
    let nz = registry(&rt, alloc, "NZ", ROOM);
    let records = inputs(&rt, alloc, &[HUNDRED, ACCEPTED]);
    assert_replayed(&rt, &nz, &records);
    drop(records);
    drop(nz);
}
