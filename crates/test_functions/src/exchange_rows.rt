use crate::failing_streams::{Dripping, Halting, long_line};
use crate::same::{assert_same, room};
use crate::stations::{exchange_over, message};
use exchanges::{Counted, Exchange, exchange};
use protocol::wire::{Message, Reply};
use std::alloc::Global;
use std::process::Abort;
use test_support::again;
use test_support::failing_streams::Full;
use test_support::texts::{ACCEPTED, RECEIVED};

const NEVER: usize = usize::MAX;

/// Asserts that nothing was written, or all of the message's line, and clears it.
fn assert_all_or_nothing(rt: &impl Abort, written: &mut Vec<u8>) {
    if !written.is_empty() {
        assert_same(rt, written.strip_suffix(b"\n"), Some(ACCEPTED.as_bytes()));
    }
    written.clear();
}

/// How an exchange ends if the peer gives these bytes. It writes the message's line, which is cleared.
fn exchanged(
    rt: &impl Abort,
    alloc: Global,
    message: &Message,
    written: &mut Vec<u8>,
    bytes: &'static [u8],
    fails_at: usize,
) -> Exchange {
    let ended = again!(
        exchange_over(alloc, Dripping { bytes, fails_at }, &mut *written, message),
        Exchange::NoMemory => assert_all_or_nothing(rt, written)
    );
    assert_same(rt, written.strip_suffix(b"\n"), Some(ACCEPTED.as_bytes()));
    written.clear();
    ended
}

#[test]
fn an_exchange_ends_as_its_peer_does(rt: HostRuntime) {
    let alloc = rt.alloc();
    let message = message(&rt, alloc, ACCEPTED);
    let mut written = room(&rt, alloc);
    let rows: [(&'static [u8], Exchange); 4] = [
        (RECEIVED, Exchange::Answered(Reply::Received)),
        (&RECEIVED[..10], Exchange::PeerEnded),
        (b"{}\n", Exchange::BadReply),
        (b"\n", Exchange::BadReply),
    ];
    for (bytes, expected) in rows {
        let ended = exchanged(&rt, alloc, &message, &mut written, bytes, NEVER);
        assert_same(&rt, ended, expected);
    }
    drop(message);
}

/// Asserts how the exchange of that row ended.
fn assert_ended(rt: &impl Abort, row: usize, ended: Exchange, expected: Exchange) {
    assert_eq!(rt; ended, expected, "{row}");
}

#[test]
fn a_reply_that_is_cut_is_no_reply(rt: HostRuntime) {
    let alloc = rt.alloc();
    let message = message(&rt, alloc, ACCEPTED);
    let mut written = room(&rt, alloc);
    for n in 0..RECEIVED.len() {
        let ended = exchanged(&rt, alloc, &message, &mut written, &RECEIVED[..n], NEVER);
        assert_ended(&rt, n, ended, Exchange::PeerEnded);
        let ended = exchanged(&rt, alloc, &message, &mut written, RECEIVED, n);
        assert_ended(&rt, n, ended, Exchange::ReadFault);
    }
    drop(message);
}

/// How an exchange ends over a writer that takes that many bytes, and how many of its writes fail.
fn exchanged_over(alloc: Global, room: usize, message: &Message) -> (Exchange, u64) {
    let mut writer = Counted::new(Full { room });
    let ended = exchange(alloc, &mut Counted::new(RECEIVED), &mut writer, message);
    (ended, writer.failures())
}

/// Asserts how an exchange ends over a writer that takes that many bytes.
fn assert_exchanged(
    rt: &impl Abort,
    alloc: Global,
    room: usize,
    message: &Message,
    expected: (Exchange, u64),
) {
    let ended = again!(
        exchanged_over(alloc, room, message),
        (Exchange::NoMemory, failures) => assert_same(rt, failures, 0)
    );
    assert_same(rt, ended, expected);
}

/// The message's text and its newline are written, and no more.
#[test]
fn the_whole_text_is_written(rt: HostRuntime) {
    let alloc = rt.alloc();
    let message = message(&rt, alloc, ACCEPTED);
    for room in 0..104 {
        let expected = (Exchange::WriteFault(room), 1);
        assert_exchanged(&rt, alloc, room, &message, expected);
    }
    for room in [104, 105] {
        let expected = (Exchange::Answered(Reply::Received), 0);
        assert_exchanged(&rt, alloc, room, &message, expected);
    }
    drop(message);
}

#[test]
fn a_long_reply_is_a_bad_one(rt: HostRuntime) {
    let alloc = rt.alloc();
    let message = message(&rt, alloc, ACCEPTED);
    let reply = long_line(&rt, alloc, b' ', 8_193);
    let ended = again!(
        exchange_over(alloc, reply.as_slice(), Full { room: NEVER }, &message),
        Exchange::NoMemory => ()
    );
    assert_same(&rt, ended, Exchange::BadReply);
    drop(message);
}

/// How an exchange ends over a writer that is interrupted that often.
fn interrupted(alloc: Global, interruptions: u32, message: &Message) -> Exchange {
    let halting = Halting {
        interruptions,
        taken: 0,
    };
    exchange_over(alloc, RECEIVED, halting, message)
}

#[test]
fn an_interrupted_call_is_made_again(rt: HostRuntime) {
    let alloc = rt.alloc();
    let message = message(&rt, alloc, ACCEPTED);
    for (interruptions, expected) in [
        (3, Exchange::Answered(Reply::Received)),
        (19_999, Exchange::Answered(Reply::Received)),
        (20_000, Exchange::WriteFault(0)),
    ] {
        let ended = again!(
            interrupted(alloc, interruptions, &message),
            Exchange::NoMemory => ()
        );
        assert_ended(&rt, interruptions as usize, ended, expected);
    }
    drop(message);
}
