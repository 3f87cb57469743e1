use crate::cores::{ROOM, scheme, walk};
use crate::given::Given::{self, Event, Message};
use crate::given::input_of;
use crate::logs::{assert_owner, log, opening_register};
use crate::same::assert_same;
use checks::log_findings;
use log_core::LogCore;
use protocol::Outcome::Recorded;
use protocol::status::Content;
use protocol::units::{Block, Code, Items, NoMemory};
use protocol::wire::LogCodes;
use protocol::{NodeCore, Outcome, ReplayFault, resume};
use std::alloc::Global;
use std::process::Abort;
use test_support::{READING, again, texts};

const PROPOSAL: Given = Message(texts::PROPOSED);

const ACCEPTED: Given = Message(texts::ACCEPTED);

const COMPLETED: Given = Message(texts::COMPLETED);

const REQUEST: Given = Message(texts::REQUEST);

const FROM_JP: Given = Message(
    r#"{"account":7,"call":"AcceptProposal","from":"JP","status":"Proposed","to":"ITL","to_account":7,"to_registry":"JP","transaction":"JP1","units":["NZ:1:100-101:CER"]}"#,
);

/// A transfer of that block from JP to itself.
fn content_of(rt: &impl Abort, alloc: Global, jp: Code, block: &str) -> Content {
    let block = Block::read(block).expect(rt, "a block");
    let units = Items::from_vec(Vec::from_slice(alloc, &[block]).expect(rt, READING));
    Content::new(7, jp, 7, units).expect(rt, "a content")
}

/// The log's findings at the start for a transfer that JP proposes.
fn findings_at_start(rt: &impl Abort, alloc: Global, jp: Code, content: &Content) -> LogCodes {
    let scheme = scheme(rt, alloc, ROOM);
    let register = opening_register(rt, alloc, &scheme);
    let found = again!(
        log_findings(alloc, &scheme, &register, jp, content),
        Err(NoMemory) => ()
    );
    drop(register);
    drop(scheme);
    found.expect(rt, "memory").expect(rt, "findings")
}

#[test]
fn a_proposal_has_all_its_findings(rt: HostRuntime) {
    let alloc = rt.alloc();
    let jp = Code::read("JP").expect(&rt, "a code");
    let content = content_of(&rt, alloc, jp, "NZ:1:100-101:CER");
    let codes = findings_at_start(&rt, alloc, jp, &content);
    assert_same(&rt, codes.as_slice(), [201, 203, 204, 206].as_slice());
    drop(content);
    drop(codes);
}

const TRANSFER: &[(Given, Outcome)] = &[
    (PROPOSAL, Recorded(0)),
    (ACCEPTED, Recorded(1)),
    (COMPLETED, Recorded(2)),
    (Event("ack ITL 0"), Recorded(3)),
];

/// Asserts that the log doesn't record the input at that place.
fn assert_no_record(rt: &impl Abort, alloc: Global, log: &mut LogCore, given: Given, place: usize) {
    let record = [input_of(rt, alloc, given)];
    let records = log.records();
    let resumed = again!(
        resume(log, &record),
        Err(ReplayFault::NoMemory) => assert_same(rt, log.records(), records)
    );
    assert_same(rt, resumed, Err(ReplayFault::NotRecorded(place)));
    drop(record);
}

#[test]
fn a_completed_transfer_moves_the_book(rt: HostRuntime) {
    let alloc = rt.alloc();
    let mut log = log(&rt, alloc, ROOM);
    walk(&rt, alloc, &mut log, TRANSFER);
    assert_owner(&rt, &log, "NZ:1:100-100:AAU", "JP", false);
    assert!(rt; log.acknowledged(0) && !log.acknowledged(1));
    assert_no_record(&rt, alloc, &mut log, PROPOSAL, 4);
    drop(log);
}

#[test]
fn a_log_resumes_no_record_twice(rt: HostRuntime) {
    let alloc = rt.alloc();
    let mut log = log(&rt, alloc, ROOM);
    walk(&rt, alloc, &mut log, &[(PROPOSAL, Recorded(0))]);
    assert_owner(&rt, &log, "NZ:1:1-1:AAU", "NZ", true);
    assert_same(&rt, log.pieces().len(), 1);
    assert_no_record(&rt, alloc, &mut log, PROPOSAL, 1);
    assert_same(&rt, log.records(), 1);
    drop(log);
}

const CLEANED: &[(Given, Outcome)] = &[
    (PROPOSAL, Recorded(0)),
    (Event("clean-up 2012-05-02T00:00:00Z"), Recorded(1)),
];

#[test]
fn a_clean_up_frees_units(rt: HostRuntime) {
    let alloc = rt.alloc();
    let mut log = log(&rt, alloc, ROOM);
    walk(&rt, alloc, &mut log, CLEANED);
    assert_owner(&rt, &log, "NZ:1:1-1:AAU", "NZ", false);
    drop(log);
}

const OTHERS: &[(Given, Outcome)] = &[
    (REQUEST, Recorded(0)),
    (Event("eligible NZ no"), Recorded(1)),
    (FROM_JP, Recorded(2)),
];

#[test]
fn other_inputs_are_recorded(rt: HostRuntime) {
    let alloc = rt.alloc();
    let mut log = log(&rt, alloc, ROOM);
    walk(&rt, alloc, &mut log, OTHERS);
    drop(log);
}
