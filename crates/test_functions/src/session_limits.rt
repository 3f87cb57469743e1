use crate::failing_streams::long_line;
use crate::nz_desk::{NzDesk, nz_desk};
use crate::same::assert_same;
use desk::SharedNode;
use sessions::{MOST_SESSION_LINES, WatchedReader};
use std::alloc::Global;
use std::io::{ErrorKind, Read};
use std::process::Abort;
use std::rt::Clock;
use std::sync::Wait;

/// More bytes than a test reads.
const ENOUGH: usize = 2_000;

/// How many bytes are read one by one before a read returns none or fails, and the result of that read.
fn read_singly<R: Read>(reader: &mut R) -> (usize, Result<usize, ErrorKind>) {
    let mut byte = [0u8; 1];
    for count in 0..ENOUGH {
        match reader.read(&mut byte) {
            Ok(1) => {}
            Ok(other) => return (count, Ok(other)),
            Err(error) => return (count, Err(error.kind())),
        }
    }
    (ENOUGH, Ok(1))
}

/// Asserts how many of that many empty lines are read one by one in a session at the desk, the result of the read after
/// them, and how many lines are left.
fn assert_singly(
    rt: &(impl Wait + Clock + Abort),
    alloc: Global,
    desk: &NzDesk,
    (lines, read, ended, left): (usize, usize, Result<usize, ErrorKind>, usize),
) {
    let bytes = long_line(rt, alloc, b'\n', lines.saturating_sub(1));
    let mut reader = WatchedReader::new(rt, desk, bytes.as_slice());
    assert_same(rt, read_singly(&mut reader), (read, ended));
    assert_same(rt, reader.into_inner().len(), left);
    drop(bytes);
}

/// Up to 1,024 lines are read. The next read fails and reads nothing, whether or not there is another line.
#[test]
fn a_session_reads_1024_lines(rt: HostRuntime) {
    let alloc = rt.alloc();
    let desk = nz_desk(&rt, alloc);
    let late = Err(ErrorKind::TimedOut);
    for row in [
        (1_023, 1_023, Ok(0), 0),
        (1_024, 1_024, late, 0),
        (1_025, 1_024, late, 1),
    ] {
        assert_singly(&rt, alloc, &desk, row);
    }
    drop(desk);
}

/// The read that reaches that many lines returns all bytes that it read at once, and the next one fails.
#[test]
fn a_session_reads_its_last_lines_at_once(rt: HostRuntime) {
    let alloc = rt.alloc();
    let desk = nz_desk(&rt, alloc);
    let bytes = long_line(&rt, alloc, b'\n', MOST_SESSION_LINES);
    let mut reader = WatchedReader::new(&rt, &desk, bytes.as_slice());
    let mut piece = [0u8; ENOUGH];
    let first = reader.read(&mut piece).map_err(|error| error.kind());
    let next = reader.read(&mut piece).map_err(|error| error.kind());
    assert_same(&rt, (first, next), (Ok(1_025), Err(ErrorKind::TimedOut)));
    drop(reader);
    drop(bytes);
    drop(desk);
}

/// A session reads nothing more at a desk that has stopped.
#[test]
fn a_session_reads_while_its_desk_runs(rt: HostRuntime) {
    let alloc = rt.alloc();
    let desk = nz_desk(&rt, alloc);
    let mut reader = WatchedReader::new(&rt, &desk, &b"\n\n"[..]);
    let mut byte = [0u8; 1];
    let first = reader.read(&mut byte).map_err(|error| error.kind());
    desk.stop(&rt);
    let next = reader.read(&mut byte).map_err(|error| error.kind());
    assert_same(&rt, (first, next), (Ok(1), Err(ErrorKind::TimedOut)));
    assert_same(&rt, reader.into_inner().len(), 1);
    drop(desk);
}
