use crate::given::Given::{self, Event, Message};
use crate::given::{PROPOSE, inputs};
use crate::same::{assert_same, room};
use command_faults::{OpFault, read_scheme};
use protocol::units::{Code, Node};
use report::Form;
use show::show;
use std::alloc::Global;
use std::io::{self, ErrorKind, Read};
use std::process::Abort;
use stores::{Kept, MemoryStore, NodeStore, StoreFault};
use test_support::failing_streams::Full;
use test_support::{again, texts};

const ORDER: Given = Event(PROPOSE);

const ACCEPTED: Given = Message(texts::ACCEPTED_TO_NZ);

fn nz(rt: &impl Abort) -> Node {
    Node::Registry(Code::read("NZ").expect(rt, "a code"))
}

/// Reopens a store that lacked memory, and asserts that it has no record.
fn reopen_empty(rt: &impl Abort, store: &mut MemoryStore) {
    assert!(rt; store.reopen().is_ok());
    let kept = store.load().ok().expect(rt, "the records");
    assert_same(rt, kept.len(), 0);
    drop(kept);
}

/// Has the store append the two records, and asserts the result.
fn append_two(
    rt: &impl Abort,
    alloc: Global,
    store: &mut MemoryStore,
    wanted: Result<(), StoreFault>,
) {
    let records = inputs(rt, alloc, &[ORDER, ACCEPTED]);
    let done = again!(
        store.append(&records),
        Err(StoreFault::NoMemory) => reopen_empty(rt, store)
    );
    assert_same(rt, done, wanted);
    drop(records);
}

#[test]
fn tells_how_much_was_shown(rt: HostRuntime) {
    let alloc = rt.alloc();
    let mut store = MemoryStore::new(alloc, nz(&rt));
    append_two(&rt, alloc, &mut store, Ok(()));
    let mut writer = Full { room: 103 };
    let shown = again!(
        show(alloc, nz(&rt), &mut store, &mut writer, Form::Lines),
        Err(OpFault::NoMemory) => assert_same(&rt, writer.room, 103)
    );
    assert_same(&rt, shown, Err(OpFault::Write(103)));
}

#[test]
fn shows_no_store_that_waits(rt: HostRuntime) {
    let (alloc, node) = (rt.alloc(), nz(&rt));
    let mut store = MemoryStore::fused(alloc, node, 0, Kept::None);
    append_two(&rt, alloc, &mut store, Err(StoreFault::Device));
    let mut writer = room(&rt, alloc);
    let fault = StoreFault::Reopen;
    let shown = again!(
        show(alloc, node, &mut store, &mut writer, Form::Lines),
        Err(OpFault::NoMemory) => assert!(rt; writer.is_empty())
    );
    assert_same(&rt, shown, Err(OpFault::Store { node, fault }));
    assert!(rt; writer.is_empty());
}

/// A reader that gives that number of zeros, and then fails.
#[derive(Drop)]
struct Broken {
    room: usize,
}

impl Read for Broken {
    fn read(&mut self, buf: &mut [u8]) -> io::Result<usize> {
        if self.room == 0 || buf.is_empty() {
            return Err(ErrorKind::Other.into());
        }
        self.room -= 1;
        buf[0] = b'0';
        Ok(1)
    }
}

#[test]
fn reads_no_broken_file(rt: HostRuntime) {
    let read = again!(
        read_scheme(rt.alloc(), &mut Broken { room: 3 }),
        Err(OpFault::NoMemory) => ()
    );
    assert_same(&rt, read.err(), Some(OpFault::Read));
}
