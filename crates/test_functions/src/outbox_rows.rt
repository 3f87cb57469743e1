use crate::same::assert_same;
use protocol::records::Outbox;
use protocol::status::TransactionId;
use protocol::units::{Code, NoMemory, Node};
use protocol::wire::{Body, Message};
use std::alloc::Global;
use std::process::Abort;
use test_support::{READING, again};

fn nz(rt: &impl Abort) -> Code {
    Code::read("NZ").expect(rt, "a code")
}

/// That number of requests from NZ to the log, about its transactions from 1 on.
fn requests(rt: &impl Abort, alloc: Global, count: u32) -> Vec<Message> {
    let (from, to) = (Node::Registry(nz(rt)), Node::Itl);
    let mut messages = Vec::new(alloc);
    for number in 1..=count {
        let id = TransactionId::new(nz(rt), number).expect(rt, "an identifier");
        let body = Body::Request;
        let message = Message { from, to, id, body };
        messages.push(message).expect(rt, READING);
    }
    messages
}

/// Asserts that the outbox has no record.
fn assert_empty(rt: &impl Abort, outbox: &Outbox) {
    assert_same(rt, (outbox.records(), outbox.sends()), (0, 0));
    assert_same(rt, outbox.next_unacknowledged(Node::Itl, 0), None);
}

/// An outbox of one record, which sends two requests.
fn recorded(rt: &impl Abort, alloc: Global) -> Outbox {
    let mut outbox = Outbox::new(alloc);
    let done = again!(
        outbox.record(requests(rt, alloc, 2)),
        Err(NoMemory) => assert_empty(rt, &outbox)
    );
    done.expect(rt, "memory");
    outbox
}

/// Asserts that the outbox has one record, of two requests, and that neither is acknowledged.
fn assert_unacknowledged(rt: &impl Abort, outbox: &Outbox) {
    assert_same(rt, (outbox.records(), outbox.sends()), (1, 2));
    assert!(rt; !outbox.is_acknowledged(0) && !outbox.is_acknowledged(1));
    assert_same(rt, outbox.next_unacknowledged(Node::Itl, 0), Some(0));
}

/// An outbox of two requests, the first acknowledged.
fn acknowledged(rt: &impl Abort, alloc: Global) -> Outbox {
    let mut outbox = recorded(rt, alloc);
    assert_unacknowledged(rt, &outbox);
    if outbox.sends() > 0 {
        let done = again!(
            outbox.acknowledge(0),
            Err(NoMemory) => assert_unacknowledged(rt, &outbox)
        );
        done.expect(rt, "memory");
    }
    outbox
}

#[test]
fn a_message_is_acknowledged(rt: HostRuntime) {
    let outbox = acknowledged(&rt, rt.alloc());
    assert_same(&rt, (outbox.records(), outbox.sends()), (2, 2));
    assert!(rt; outbox.is_acknowledged(0) && !outbox.is_acknowledged(1));
    assert_same(&rt, outbox.next_unacknowledged(Node::Itl, 0), Some(1));
    drop(outbox);
}

#[test]
fn the_last_record_is_taken_back(rt: HostRuntime) {
    let alloc = rt.alloc();
    let mut outbox = Outbox::new(alloc);
    let done = again!(
        outbox.record(requests(&rt, alloc, 3)),
        Err(NoMemory) => assert_empty(&rt, &outbox)
    );
    done.expect(&rt, "memory");
    outbox.take_back();
    assert_empty(&rt, &outbox);
    drop(outbox);
}
