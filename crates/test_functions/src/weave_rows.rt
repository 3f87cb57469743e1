use crate::given::Given::{self, Event, Message};
use crate::given::input_of;
use crate::journals::{ASKED, PROPOSED, assert_table};
use crate::same::assert_same;
use crate::worked_nodes::{registry, worked_scheme};
use protocol::status::{Status, TransactionId};
use protocol::units::Node;
use protocol::wire::Input;
use std::alloc::Global;
use std::process::Abort;
use test_support::{READING, again, texts};
use weave::{WeaveFault, Woven, weave};

/// A clean-up a day after the proposal was checked.
const CLEANED_UP: Given = Event("clean-up 2012-05-02T00:00:00Z");

/// At the log the proposal, the clean-up that cancels it, and the second proposal, which is accepted and completed.
const LOG: [Given; 5] = [
    ASKED,
    CLEANED_UP,
    Message(texts::SECOND_PROPOSED),
    Message(texts::SECOND_ACCEPTED),
    Message(texts::SECOND_COMPLETED),
];

/// At JP the second proposal, that it is completed, and then the first one.
const JP: [Given; 3] = [
    Message(texts::SECOND_CHECKED),
    Message(texts::SECOND_COMPLETED_TO_JP),
    Message(texts::CHECKED),
];

/// At NZ the order, that it is cancelled, the order again, and that it is accepted.
const NZ: [Given; 4] = [
    PROPOSED,
    Message(texts::CANCELLED_TO_NZ),
    PROPOSED,
    Message(texts::SECOND_ACCEPTED_TO_NZ),
];

/// The table of the world that these journals lead to.
const TABLE: &str = "\
transaction NZ1 NZ Cancelled ITL Cancelled JP Rejected
transaction NZ2 NZ Completed ITL Completed JP Completed
registry JP held 100 spendable 100
holds JP 7 NZ:1:1-100:AAU free
registry NZ held 0 spendable 0
owed 0
end
";

fn records(rt: &impl Abort, alloc: Global, journal: &[Given]) -> Vec<Input> {
    let mut records = Vec::new(alloc);
    for given in journal {
        let record = input_of(rt, alloc, *given);
        records.push(record).expect(rt, READING);
    }
    records
}

/// The result of weaving the journals of the log, of JP and of NZ.
fn woven<'a>(
    rt: &impl Abort,
    alloc: Global,
    log: &'a [Input],
    jp: &'a [Input],
    nz: &'a [Input],
) -> Woven {
    let scheme = worked_scheme(rt, alloc);
    let journals = [log, jp, nz];
    let done = again!(weave(alloc, &scheme, &journals), Err(WeaveFault::NoMemory) => ());
    drop(scheme);
    done.ok().expect(rt, "a run")
}

/// Asserts where the transaction stands at that node in the end.
fn assert_status(rt: &impl Abort, woven: &Woven, node: Node, id: &str, wanted: Status) {
    let id = TransactionId::read(id).expect(rt, "an identifier");
    assert_same(rt, woven.world.status(node, id), Some(wanted));
}

/// A cancelled transfer whose proposal comes to JP after the transfer that took its place.
#[test]
fn stale_proposal(rt: HostRuntime) {
    let alloc = rt.alloc();
    let log = records(&rt, alloc, &LOG);
    let jp = records(&rt, alloc, &JP);
    let nz = records(&rt, alloc, &NZ);
    let woven = woven(&rt, alloc, &log, &jp, &nz);
    let registry = registry(&rt, "JP");
    assert_same(&rt, woven.events.len(), 35);
    assert_status(&rt, &woven, registry, "NZ1", Status::Rejected);
    assert_status(&rt, &woven, registry, "NZ2", Status::Completed);
    assert_status(&rt, &woven, Node::Itl, "NZ1", Status::Cancelled);
    drop(woven);
    drop(nz);
    drop(jp);
    drop(log);
    assert_table(&rt, alloc, [&LOG, &JP, &NZ], TABLE);
}
