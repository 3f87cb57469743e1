use crate::same::assert_same;
use protocol::units::refusal_code::OUT_OF_MEMORY;
use protocol::units::{NoMemory, Refusal};
use protocol::wire::{Message, encode};
use std::alloc::Global;
use std::process::Abort;
use test_support::again;
use test_support::texts::{ACCEPTED, PROPOSED, REJECTED, REQUEST, TERMINATED_TO_NZ};
use wire_lines::decode;

/// The message is written as that text.
fn assert_encoded(rt: &impl Abort, alloc: Global, message: &Message, text: &str) {
    let line = again!(encode(alloc, message), Err(NoMemory) => ());
    let line = line.expect(rt, "memory");
    assert_same(rt, line.as_slice(), text.as_bytes());
}

/// The result of reading the line.
fn decoded(alloc: Global, line: &[u8]) -> Result<Message, Refusal> {
    again!(decode(alloc, line), Err(Refusal { code: OUT_OF_MEMORY }) => ())
}

/// The line is no message.
fn assert_refused(rt: &impl Abort, alloc: Global, line: &[u8]) {
    let fault = decoded(alloc, line).err();
    assert_same(rt, fault, Some(Refusal { code: 41 }));
}

/// The copy of the text's message is the same, and is written as it was read.
fn assert_copied(rt: &impl Abort, alloc: Global, text: &str) {
    let message = decoded(alloc, text.as_bytes()).expect(rt, "a message");
    let copy = again!(message.copy(), Err(NoMemory) => ());
    let copy = copy.expect(rt, "memory");
    assert!(rt; copy.same(&message));
    drop(message);
    assert_encoded(rt, alloc, &copy, text);
    drop(copy);
}

/// The log passes on a proposal of two blocks.
const CHECKED: &str =
    r#"{"account":999999999,"call":"AcceptProposal","from":"ITL","status":"Checked","to":"JP","to_account":7,"to_registry":"JP","transaction":"NZ999999","units":["NZ:1:1-100:AAU","CH:2:5-999999999999999:lCER"]}"#;

#[test]
fn texts_are_read_and_copied(rt: HostRuntime) {
    for text in [
        PROPOSED,
        CHECKED,
        ACCEPTED,
        REJECTED,
        TERMINATED_TO_NZ,
        REQUEST,
    ] {
        assert_copied(&rt, rt.alloc(), text);
    }
}

/// Lines that are no message.
const NO_MESSAGES: &[&[u8]] = &[
    b"",
    b"[",
    b"null",
    b"[]",
    b"{}",
    b"\"NZ1\"",
    b"\xef\xbb\xbf{}",
    b"{\"call\":\"\xff\"}",
];

#[test]
fn lines_that_are_no_message(rt: HostRuntime) {
    for line in NO_MESSAGES {
        assert_refused(&rt, rt.alloc(), line);
    }
    assert_refused(&rt, rt.alloc(), &[b'['; 200]);
}
