use crate::same::assert_same;
use protocol::units::NoMemory;
use protocol::wire::{Input, TextFault, encode_input};
use std::alloc::Global;
use std::process::Abort;
use test_support::again;
use test_support::texts::{ACCEPTED_RECORD, ACCEPTED_RECORD_1, PROPOSE_RECORD, PROPOSE_RECORD_1};
use wire_lines::{decode_input, decode_input_v1};

const CLOSE: &str = r#"{"account":8,"input":"close","v":2}"#;

const OPEN: &str = r#"{"account":8,"input":"open","v":2}"#;

const ACK: &str = r#"{"input":"ack","key":0,"v":2}"#;

const CLEAN_UP: &str = r#"{"input":"clean_up","moment":1335916800,"v":2}"#;

const ELIGIBLE: &str = r#"{"input":"eligible","may":false,"registry":"NZ","v":2}"#;

const REQUEST: &str = r#"{"input":"request","transaction":"NZ1","v":2}"#;

const RECORDS: [&str; 9] = [
    PROPOSE_RECORD,
    ACCEPTED_RECORD,
    CLOSE,
    OPEN,
    ACK,
    CLEAN_UP,
    ELIGIBLE,
    REQUEST,
    r#"{"input":"received","message":{"call":"RequestCancellation","from":"NZ","to":"ITL","transaction":"NZ1"},"moment":1335830400,"v":2}"#,
];

/// The same records in the first format, in the order of `RECORDS`.
const FIRST_FORMAT: [&str; 9] = [
    PROPOSE_RECORD_1,
    ACCEPTED_RECORD_1,
    r#"{"account":8,"input":"close"}"#,
    r#"{"account":8,"input":"open"}"#,
    r#"{"input":"ack","key":0}"#,
    r#"{"input":"clean_up","moment":1335916800}"#,
    r#"{"input":"eligible","may":false,"registry":"NZ"}"#,
    r#"{"input":"request","transaction":"NZ1"}"#,
    r#"{"input":"received","message":{"call":"RequestCancellation","from":"NZ","to":"ITL","transaction":"NZ1"},"moment":1335830400}"#,
];

/// Records of orders that no node acts on, and the last numbers of the others.
const KEPT: &[&str] = &[
    r#"{"account":1,"input":"propose","to_account":7,"to_registry":"JP","units":[],"v":2}"#,
    r#"{"account":1,"input":"propose","to_account":7,"to_registry":"JP","units":["NZ:1:1-1:AAU","NZ:1:1-1:AAU","NZ:1:1-1:AAU","NZ:1:1-1:AAU","NZ:1:1-1:AAU","NZ:1:1-1:AAU","NZ:1:1-1:AAU","NZ:1:1-1:AAU","NZ:1:1-1:AAU","NZ:1:1-1:AAU","NZ:1:1-1:AAU","NZ:1:1-1:AAU","NZ:1:1-1:AAU","NZ:1:1-1:AAU","NZ:1:1-1:AAU","NZ:1:1-1:AAU","NZ:1:1-1:AAU"],"v":2}"#,
    r#"{"account":0,"input":"propose","to_account":7,"to_registry":"JP","units":["NZ:1:6-5:AAU"],"v":2}"#,
    r#"{"account":999999999999999999,"input":"propose","to_account":0,"to_registry":"JP","units":["NZ:2:0-999999999999999999:lCER"],"v":2}"#,
    r#"{"account":0,"input":"close","v":2}"#,
    r#"{"account":999999999999999999,"input":"open","v":2}"#,
    r#"{"input":"ack","key":999999999999999999,"v":2}"#,
    r#"{"input":"clean_up","moment":253370764799,"v":2}"#,
    r#"{"input":"eligible","may":true,"registry":"JP","v":2}"#,
];

/// The record is written as that text.
fn assert_encoded(rt: &impl Abort, alloc: Global, input: &Input, text: &str) {
    let line = again!(encode_input(alloc, input), Err(NoMemory) => ());
    let line = line.expect(rt, "memory");
    assert_same(rt, line.as_slice(), text.as_bytes());
}

/// The record is written as that text, and is dropped then.
fn assert_built(rt: &impl Abort, alloc: Global, input: Input, text: &str) {
    assert_encoded(rt, alloc, &input, text);
    drop(input);
}

/// The result of reading the text.
fn decoded(alloc: Global, text: &str) -> Result<Input, TextFault> {
    again!(decode_input(alloc, text.as_bytes()), Err(TextFault::NoMemory) => ())
}

/// The result of reading the text in the first format.
fn decoded_v1(alloc: Global, text: &str) -> Result<Input, TextFault> {
    again!(decode_input_v1(alloc, text.as_bytes()), Err(TextFault::NoMemory) => ())
}

/// The text is a record. Its copy is the same, and is written as it was read.
fn assert_copied(rt: &impl Abort, alloc: Global, text: &str) {
    let input = decoded(alloc, text).expect(rt, text);
    let copy = again!(input.copy(), Err(NoMemory) => ());
    let copy = copy.expect(rt, "memory");
    assert!(rt; copy.same(&input));
    drop(input);
    assert_built(rt, alloc, copy, text);
}

#[test]
fn records_are_written_and_read_back(rt: HostRuntime) {
    for text in RECORDS {
        assert_copied(&rt, rt.alloc(), text);
    }
}

#[test]
fn an_order_is_kept_as_it_was_given(rt: HostRuntime) {
    for text in KEPT {
        assert_copied(&rt, rt.alloc(), text);
    }
}

const NO_RECORDS: &[&str] = &[
    "",
    "[]",
    "{}",
    r#"{"account":8,"v":2}"#,
    r#"{"account":8,"input":"split","v":2}"#,
    r#"{"account":8,"input":"Open","v":2}"#,
    r#"{"account":8,"input":1,"v":2}"#,
    r#"{"account":8,"input":"open","x":1,"v":2}"#,
    r#"{"account":8,"input":"open","v":2},"#,
    r#"{"account":"8","input":"close","v":2}"#,
    r#"{"account":1000000000000000000,"input":"close","v":2}"#,
    r#"{"input":"ack","v":2}"#,
    r#"{"input":"ack","key":-1,"v":2}"#,
    r#"{"input":"ack","key":1.0,"v":2}"#,
    r#"{"input":"ack","key":1000000000000000000,"v":2}"#,
    r#"{"input":"ack","key":18446744073709551616,"v":2}"#,
    r#"{"input":"clean_up","moment":253370764800,"v":2}"#,
    r#"{"input":"clean_up","key":0,"v":2}"#,
    r#"{"input":"eligible","may":1,"registry":"NZ","v":2}"#,
    r#"{"input":"eligible","may":"true","registry":"NZ","v":2}"#,
    r#"{"input":"eligible","may":true,"registry":"ITL","v":2}"#,
    r#"{"input":"received","message":{"call":"AcceptNotification","codes":[],"from":"ITL","status":"Checked","to":"NZ","transaction":"NZ1"},"moment":1335830400,"v":2}"#,
    r#"{"input":"received","message":{"call":"AcceptNotification","codes":[],"from":"ITL","status":"Accepted","to":"NZ","transaction":"NZ1"},"moment":253370764800,"v":2}"#,
    r#"{"input":"received","message":{"call":"AcceptNotification","codes":[],"from":"ITL","status":"Accepted","to":"NZ","transaction":"NZ1"},"v":2}"#,
    r#"{"input":"received","moment":1335830400,"v":2}"#,
    r#"{"input":"request","v":2}"#,
    r#"{"input":"request","transaction":"NZ0","v":2}"#,
    r#"{"input":"request","transaction":"NZ1","x":1,"v":2}"#,
    r#"{"account":1,"input":"propose","to_account":7,"to_registry":"JP","units":["NZ:3:1-5:AAU"],"v":2}"#,
    r#"{"account":1,"input":"propose","to_account":7,"to_registry":"JP","units":["NZ:1:1-1000000000000000000:AAU"],"v":2}"#,
    r#"{"account":1000000000000000000,"input":"propose","to_account":7,"to_registry":"JP","units":[],"v":2}"#,
    r#"{"account":1,"input":"propose","to_account":7,"to_registry":"JP","v":2}"#,
    r#"{"input":"ack","key":0}"#,
    r#"{"input":"ack","key":0,"v":1}"#,
    r#"{"input":"ack","key":0,"v":3}"#,
    r#"{"input":"ack","key":0,"v":2.0}"#,
    r#"{"input":"ack","key":0,"v":"2"}"#,
    r#"{"input":"ack","key":0,"V":2}"#,
    r#"{"input":"received","message":{"account":1,"call":"AcceptProposal","from":"ITL","status":"Checked","to":"JP","to_account":7,"to_registry":"JP","transaction":"NZ1","units":["NZ:1:1-1000000000000000:AAU"]},"moment":1335830400,"v":2}"#,
    r#"{"input":"received","message":{"call":"RequestCancellation","from":"NZ","to":"ITL","transaction":"NZ1","v":2},"moment":1335830400}"#,
    r#"{"input":"received","message":{"call":"RequestCancellation","from":"NZ","to":"ITL","transaction":"NZ1","v":2},"moment":1335830400,"v":2}"#,
];

#[test]
fn what_is_no_record(rt: HostRuntime) {
    for text in NO_RECORDS {
        let fault = decoded(rt.alloc(), text).err();
        assert_same(&rt, fault, Some(TextFault::Shape));
    }
}

/// The texts write one record in the two formats, and neither is read in the other format.
fn assert_formats(rt: &impl Abort, alloc: Global, first: &str, second: &str) {
    let old = decoded_v1(alloc, first).expect(rt, first);
    let input = decoded(alloc, second).expect(rt, second);
    assert!(rt; input.same(&old));
    drop(input);
    drop(old);
    let fault = decoded(alloc, first).err();
    assert_same(rt, fault, Some(TextFault::Shape));
    let fault = decoded_v1(alloc, second).err();
    assert_same(rt, fault, Some(TextFault::Shape));
}

#[test]
fn records_of_the_first_format(rt: HostRuntime) {
    for i in 0..RECORDS.len() {
        assert_formats(&rt, rt.alloc(), FIRST_FORMAT[i], RECORDS[i]);
    }
}

/// Records of the last unit of the first format: in a message, and in an order, whose numbers may be greater.
const LAST_UNITS: &[(&str, &str)] = &[
    (
        r#"{"input":"received","message":{"account":1,"call":"AcceptProposal","from":"ITL","status":"Checked","to":"JP","to_account":7,"to_registry":"JP","transaction":"NZ1","units":["NZ:1:1-999999999999:AAU"]},"moment":1335830400}"#,
        r#"{"input":"received","message":{"account":1,"call":"AcceptProposal","from":"ITL","status":"Checked","to":"JP","to_account":7,"to_registry":"JP","transaction":"NZ1","units":["NZ:1:1-999999999999:AAU"]},"moment":1335830400,"v":2}"#,
    ),
    (
        r#"{"account":1,"input":"propose","to_account":7,"to_registry":"JP","units":["NZ:2:0-999999999999999999:lCER"]}"#,
        r#"{"account":1,"input":"propose","to_account":7,"to_registry":"JP","units":["NZ:2:0-999999999999999999:lCER"],"v":2}"#,
    ),
];

#[test]
fn the_last_units_of_the_first_format(rt: HostRuntime) {
    for (first, second) in LAST_UNITS {
        assert_formats(&rt, rt.alloc(), first, second);
    }
}

/// Records of units that the first format doesn't have.
const GREATER_UNITS: &[(&str, &str)] = &[
    (
        r#"{"input":"received","message":{"account":1,"call":"AcceptProposal","from":"ITL","status":"Checked","to":"JP","to_account":7,"to_registry":"JP","transaction":"NZ1","units":["NZ:1:1-100:AAU","NZ:1:1000000000000-1000000000000:AAU"]},"moment":1335830400}"#,
        r#"{"input":"received","message":{"account":1,"call":"AcceptProposal","from":"ITL","status":"Checked","to":"JP","to_account":7,"to_registry":"JP","transaction":"NZ1","units":["NZ:1:1-100:AAU","NZ:1:1000000000000-1000000000000:AAU"]},"moment":1335830400,"v":2}"#,
    ),
    (
        r#"{"input":"received","message":{"account":1,"call":"AcceptProposal","from":"NZ","status":"Proposed","to":"ITL","to_account":7,"to_registry":"JP","transaction":"NZ1","units":["NZ:1:1-999999999999999:AAU"]},"moment":1335830400}"#,
        r#"{"input":"received","message":{"account":1,"call":"AcceptProposal","from":"NZ","status":"Proposed","to":"ITL","to_account":7,"to_registry":"JP","transaction":"NZ1","units":["NZ:1:1-999999999999999:AAU"]},"moment":1335830400,"v":2}"#,
    ),
];

#[test]
fn units_beyond_the_first_format(rt: HostRuntime) {
    for (first, second) in GREATER_UNITS {
        let fault = decoded_v1(rt.alloc(), first).err();
        assert_same(&rt, fault, Some(TextFault::Shape));
        assert_copied(&rt, rt.alloc(), second);
    }
}
