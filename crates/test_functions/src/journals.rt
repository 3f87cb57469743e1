//! The journals of the worked scheme's nodes, and stores that have them.

use crate::given::Given::{self, Event, Message};
use crate::given::input_of;
use crate::same::{assert_same, room};
use crate::worked_nodes::{registry, worked_scheme};
use audit::{Form, audit};
use command_faults::OpFault;
use desk::stores::{MemoryStore, NodeStore, StoreFault};
use protocol::units::Node;
use protocol::wire::Input;
use std::alloc::Global;
use std::process::Abort;
use test_support::{again, texts};

/// NZ's proposals.
pub const PROPOSED: Given = Event("propose NZ 1 JP 7 NZ:1:1-100:AAU");

/// The proposal at the log.
pub const ASKED: Given = Message(texts::PROPOSED);

/// The proposal at JP, which the log has checked.
pub const CHECKED: Given = Message(texts::CHECKED);

/// JP's Accepted, at the log.
pub const ACCEPTED: Given = Message(texts::ACCEPTED);

/// The same at NZ.
pub const TOLD_NZ: Given = Message(texts::ACCEPTED_TO_NZ);

/// NZ's Completed, at the log.
pub const COMPLETED: Given = Message(texts::COMPLETED);

/// The same at JP.
pub const TOLD_JP: Given = Message(texts::COMPLETED_TO_JP);

/// The table if JP has the log's Completed and hasn't committed it.
pub const IN_TRANSIT: &str = "\
transaction NZ1 NZ Completed ITL Completed JP Accepted
registry JP held 0 spendable 0
registry NZ held 0 spendable 0
owed 100
due NZ1 NZ:1:1-100:AAU
end
";

/// The table of the worked scheme's opening.
pub const OPENING: &str = "\
registry JP held 0 spendable 0
registry NZ held 100 spendable 100
holds NZ 1 NZ:1:1-100:AAU free
owed 0
end
";

/// No records.
pub const NONE: &[Given] = &[];

/// Records of the log, of JP and of NZ.
pub type Journals<'a> = [&'a [Given]; 3];

/// How many records the store has.
pub fn records_in<S: NodeStore>(rt: &impl Abort, store: &mut S) -> usize {
    let loaded = again!(store.load(), Err(StoreFault::NoMemory) => ());
    let records = loaded.expect(rt, "the records");
    let count = records.len();
    drop(records);
    count
}

/// Reopens a store that ran out of memory, and asserts that it has that many records.
fn reopen(rt: &impl Abort, store: &mut MemoryStore, records: usize) {
    assert_same(rt, store.reopen(), Ok(()));
    assert_same(rt, records_in(rt, store), records);
}

/// Appends one record to those that the store has.
pub fn append(rt: &impl Abort, store: &mut MemoryStore, records: usize, record: Input) {
    let batch = [record];
    let done = again!(
        store.append(&batch),
        Err(StoreFault::NoMemory) => reopen(rt, store, records)
    );
    assert_same(rt, done, Ok(()));
    drop(batch);
}

/// A store with these records.
fn store_of(rt: &impl Abort, alloc: Global, node: Node, journal: &[Given]) -> MemoryStore {
    let mut store = MemoryStore::new(alloc, node);
    for (records, given) in journal.iter().enumerate() {
        append(rt, &mut store, records, input_of(rt, alloc, *given));
    }
    store
}

/// The result of an audit of stores with these records, and its output.
pub fn audited(
    rt: &impl Abort,
    alloc: Global,
    journals: Journals<'_>,
) -> (Result<(), OpFault>, Vec<u8>) {
    let scheme = worked_scheme(rt, alloc);
    let [log, jp, nz] = journals;
    let mut stores = [
        store_of(rt, alloc, Node::Itl, log),
        store_of(rt, alloc, registry(rt, "JP"), jp),
        store_of(rt, alloc, registry(rt, "NZ"), nz),
    ];
    let mut written = room(rt, alloc);
    let done = again!(
        audit(alloc, &scheme, &mut stores, &mut written, Form::Lines),
        Err(OpFault::NoMemory) => assert!(rt; written.is_empty())
    );
    drop(stores);
    drop(scheme);
    (done, written)
}

/// Asserts that the audit of these records writes that table.
pub fn assert_table(rt: &impl Abort, alloc: Global, journals: Journals<'_>, table: &str) {
    let (done, written) = audited(rt, alloc, journals);
    assert!(rt; done.is_ok());
    assert!(rt; written.as_slice() == table.as_bytes());
}

/// Asserts that the audit of these records fails with that fault, and writes nothing.
pub fn assert_fault(rt: &impl Abort, alloc: Global, journals: Journals<'_>, fault: OpFault) {
    let (done, written) = audited(rt, alloc, journals);
    assert_same(rt, done, Err(fault));
    assert!(rt; written.is_empty());
}
