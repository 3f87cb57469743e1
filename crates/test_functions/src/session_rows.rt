use crate::failing_streams::{Dripping, long_line};
use crate::same::{assert_same, room};
use exchanges::{Answerer, Counted, SessionEnd, serve_session};
use protocol::units::refusal_code::{NODE_STOPPED, NOT_A_MESSAGE};
use protocol::units::{Items, NoMemory};
use protocol::wire::{Reply, ReplyCode};
use std::alloc::Global;
use std::io::{Read, Write};
use std::process::Abort;
use test_support::failing_streams::Full;
use test_support::texts::PROPOSED;
use test_support::{READING, again};

const NEVER: usize = usize::MAX;

/// How many bytes a reply has, with its newline.
const REPLY: usize = 31;

/// A line with its reply.
#[derive(Drop)]
struct Entry {
    line: Items<u8>,
    reply: Reply,
}

/// Replies to `stop` that the node has stopped, to an empty line that it is no message, and to any other line that it
/// was received.
#[derive(Drop)]
struct Scribe {
    alloc: Global,
    entries: Vec<Entry>,
}

fn refused(number: u16) -> Reply {
    match ReplyCode::new(number) {
        Some(code) => Reply::Refused(code),
        None => Reply::Received,
    }
}

fn reply_to(line: &[u8]) -> Reply {
    match line {
        b"stop" => refused(NODE_STOPPED),
        b"" => refused(NOT_A_MESSAGE),
        _ => Reply::Received,
    }
}

impl Answerer for Scribe {
    ghost use Rattle.std.specs.Prelude.{map};

    ghost given = { λ s. map (λ e. record { line = e.line; reply = e.reply }) s.entries.items };

    fn answer(&mut self, line: &[u8]) -> Result<Reply, NoMemory> {
        let reply = reply_to(line);
        let line = Items::from_vec(Vec::from_slice(self.alloc, line)?);
        self.entries.push(Entry { line, reply })?;
        Ok(reply)
    }
}

/// How a session over that reader and that writer ends, how many lines were given, and how many writes failed.
fn served<R: Read + Drop, W: Write + Drop>(
    alloc: Global,
    reader: R,
    writer: W,
) -> (SessionEnd, usize, u64) {
    let mut scribe = Scribe {
        alloc,
        entries: Vec::new(alloc),
    };
    let mut writer = Counted::new(writer);
    let end = serve_session(alloc, &mut Counted::new(reader), &mut writer, &mut scribe);
    let lines = scribe.entries.len();
    drop(scribe);
    (end, lines, writer.failures())
}

/// Asserts that a session that ran out of memory was given no more than that many lines, and that no write failed.
fn assert_no_more(rt: &impl Abort, given: usize, lines: usize, failures: u64) {
    assert!(rt; given <= lines);
    assert_same(rt, failures, 0);
}

const ROWS: [(&[u8], SessionEnd, usize); 6] = [
    (b"", SessionEnd::PeerEnded, 0),
    (b"a\n\nb\n", SessionEnd::PeerEnded, 3),
    (b"a\n{\"ca", SessionEnd::Truncated, 1),
    (b"a\nstop\nb\n", SessionEnd::Stopped, 2),
    (b"stop\n", SessionEnd::Stopped, 1),
    (b"a", SessionEnd::Truncated, 0),
];

/// Asserts that a session that ran out of memory has replied to each line that it was given, and clears the replies.
fn forget_replies(rt: &impl Abort, written: &mut Vec<u8>, given: usize, lines: usize) {
    assert!(rt; given <= lines);
    assert_same(rt, Some(written.len()), given.checked_mul(REPLY));
    written.clear();
}

/// Asserts how a session over these bytes ends, which are read at once, and that each line has a reply.
fn assert_replied(rt: &impl Abort, alloc: Global, bytes: &[u8], end: SessionEnd, lines: usize) {
    let mut written = room(rt, alloc);
    let ended = again!(
        served(alloc, bytes, &mut written),
        (SessionEnd::NoMemory, given, 0) => forget_replies(rt, &mut written, given, lines)
    );
    assert_same(rt, ended, (end, lines, 0));
    assert_same(rt, Some(written.len()), lines.checked_mul(REPLY));
}

/// Asserts how a session ends that reads these bytes one by one.
fn assert_served(
    rt: &impl Abort,
    alloc: Global,
    bytes: &'static [u8],
    end: SessionEnd,
    lines: usize,
) {
    let fails_at = NEVER;
    let ended = again!(
        served(alloc, Dripping { bytes, fails_at }, Full { room: NEVER }),
        (SessionEnd::NoMemory, given, failures) => assert_no_more(rt, given, lines, failures)
    );
    assert_same(rt, ended, (end, lines, 0));
}

#[test]
fn a_session_ends_as_its_stream_does(rt: HostRuntime) {
    let alloc = rt.alloc();
    for (bytes, end, lines) in ROWS {
        assert_replied(&rt, alloc, bytes, end, lines);
        assert_served(&rt, alloc, bytes, end, lines);
    }
}

const TWO: &[u8] = b"a\n\n";

/// Asserts that a session over two lines fails to read once that many bytes were read.
fn assert_read_fault(rt: &impl Abort, alloc: Global, fails_at: usize) {
    let bytes = TWO;
    let (end, _, failures) = again!(
        served(alloc, Dripping { bytes, fails_at }, Full { room: NEVER }),
        (SessionEnd::NoMemory, given, failures) => assert_no_more(rt, given, 2, failures)
    );
    assert_same(rt, (end, failures), (SessionEnd::ReadFault, 0));
}

/// Asserts that a session over two lines fails to write once that many bytes were written.
fn assert_write_fault(rt: &impl Abort, alloc: Global, room: usize) {
    let (end, _, failures) = again!(
        served(alloc, TWO, Full { room }),
        (SessionEnd::NoMemory, given, failures) => assert_no_more(rt, given, 2, failures)
    );
    assert_same(rt, (end, failures), (SessionEnd::WriteFault(room), 1));
}

#[test]
fn a_session_ends_where_its_streams_fail(rt: HostRuntime) {
    let alloc = rt.alloc();
    for fails_at in 0..3 {
        assert_read_fault(&rt, alloc, fails_at);
    }
    for room in 0..62 {
        assert_write_fault(&rt, alloc, room);
    }
}

/// Asserts how a session over a long line ends.
fn assert_long(rt: &impl Abort, alloc: Global, line: &[u8], end: SessionEnd, lines: usize) {
    let ended = again!(
        served(alloc, line, Full { room: NEVER }),
        (SessionEnd::NoMemory, given, failures) => assert_no_more(rt, given, lines, failures)
    );
    assert_same(rt, ended, (end, lines, 0));
}

#[test]
fn a_line_is_too_long_by_one_byte(rt: HostRuntime) {
    let alloc = rt.alloc();
    for (bytes, end, lines) in [
        (8_192, SessionEnd::PeerEnded, 1),
        (8_193, SessionEnd::TooLong, 0),
    ] {
        let line = long_line(&rt, alloc, b'x', bytes);
        assert_long(&rt, alloc, line.as_slice(), end, lines);
    }
}

/// The proposal with that many spaces after it, and a newline.
fn padded(rt: &impl Abort, alloc: Global, spaces: usize) -> Vec<u8> {
    let mut line = Vec::new(alloc);
    line.extend_from_slice(PROPOSED.as_bytes())
        .expect(rt, READING);
    let padding = long_line(rt, alloc, b' ', spaces);
    line.extend_from_slice(padding.as_slice())
        .expect(rt, READING);
    line
}

#[test]
fn a_padded_proposal_is_too_long_by_one_space(rt: HostRuntime) {
    let alloc = rt.alloc();
    for (spaces, end, lines) in [
        (8_031, SessionEnd::PeerEnded, 1),
        (8_032, SessionEnd::TooLong, 0),
    ] {
        let line = padded(&rt, alloc, spaces);
        assert_long(&rt, alloc, line.as_slice(), end, lines);
    }
}
