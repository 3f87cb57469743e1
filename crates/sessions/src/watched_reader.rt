//! The reader of a session, which ends with its node and has limits.
ghost use Rattle.std.specs.Prelude.{◌≡◌, ◌+◌, ◌<◌, ◌≤◌, false, length, take, MatchResult};
ghost use Rattle.std.specs.Io.{ReadsAtMost};
ghost use Rattle.std.specs.Io.KnownBytes.{ReadConsumes};
ghost use Rattle.sessions.specs.Serving.{newlines};

use crate::elapsed::have_passed;
use desk::SharedNode;
use std::io::{self, ErrorKind, Read};
use std::rt::Clock as SystemClock;
use std::sync::Wait;
use std::time::Instant;

/// How many seconds a line may take, from when its first byte was read until its newline is.
const LONGEST_LINE_TIME: u64 = 10;

/// How many seconds a session may last, from when its connection was accepted.
const LONGEST_SESSION_TIME: u64 = 60;

/// After how many newlines a session reads no more.
pub const MOST_SESSION_LINES: usize = 1_024;

/// How many of the bytes are newlines.
fn newlines_in(bytes: &[u8]) -> usize
    ensures count { result ≡ newlines bytes.now }
    ensures bound { result ≤ length bytes.now }
{
    bytes.iter().filter(|byte| **byte == b'\n').count()
}

/// A reader that reads on only while a desk runs, the current line was begun less than ten seconds ago, the session
/// less than 60 seconds ago, and fewer than `MOST_SESSION_LINES` newlines were read.
#[derive(Drop)]
pub struct WatchedReader<'a, Rd, D: SharedNode, R> {
    inner: Rd,
    rt: &'a R,
    desk: &'a D,
    /// When the session began, if known.
    opened: Option<Instant>,
    /// When the line that is being read was begun, if there is one.
    begun: Option<Instant>,
    /// How many newlines were read.
    lines: usize,
}

impl<'a, Rd, D: SharedNode, R: Wait + SystemClock> WatchedReader<'a, Rd, D, R> {
    /// A reader for a session that begins now. No line is begun, and none was read. If the time can't be read, the
    /// session ends at its first read.
    pub fn new(rt: &'a R, desk: &'a D, inner: Rd) -> WatchedReader<'a, Rd, D, R>
        ensures inner { result.inner ≡ inner }
        ensures lines { result.lines ≡ 0 }
    {
        WatchedReader {
            inner,
            rt,
            desk,
            opened: Instant::now(rt).ok(),
            begun: None,
            lines: 0,
        }
    }

    /// The reader that was watched, as its reads left it.
    pub fn into_inner(self) -> Rd
        ensures { result ≡ self.entry.inner }
    {
        let WatchedReader {
            inner,
            rt: _,
            desk: _,
            opened: _,
            begun: _,
            lines: _,
        } = self;
        inner
    }

    /// Whether the line that is being read was begun `LONGEST_LINE_TIME` seconds ago or earlier. A time that can't be
    /// read counts as too long.
    fn is_late(&self) -> bool {
        self.begun.is_some() && have_passed(self.rt, self.begun, LONGEST_LINE_TIME)
    }

    /// Whether the session reads no more: the desk doesn't run, a line or the session takes too long, or it has read
    /// all lines that it may. A time that can't be read counts as too long.
    fn is_over(&self) -> bool
        ensures { result ≡ false → self.now.lines < MOST_SESSION_LINES }
    {
        self.lines >= MOST_SESSION_LINES
            || !self.desk.is_running(self.rt)
            || self.is_late()
            || have_passed(self.rt, self.opened, LONGEST_SESSION_TIME)
    }

    /// When the line that is being read was begun, if there is one, once those bytes were read. If the time can't be
    /// read, the line counts as begun with the bytes that are read next.
    fn begun_after(&self, bytes: &[u8]) -> Option<Instant> {
        let Some(last) = bytes.last() else {
            return self.begun;
        };
        if *last == b'\n' {
            return None;
        }
        if self.begun.is_none() || bytes.contains(&b'\n') {
            return Instant::now(self.rt).ok();
        }
        self.begun
    }
}

impl<'a, Rd: Read, D: SharedNode, R: Wait + SystemClock> Read for WatchedReader<'a, Rd, D, R> {
    ghost remaining = { λ w. Rd.remaining w.inner };

    /// Fails with `TimedOut` if the desk doesn't run, if the line or the session takes too long, and if
    /// `MOST_SESSION_LINES` newlines were read. Nothing was read then. The read that reaches that number returns all
    /// bytes that it read.
    fn read(&mut self, piece: &mut [u8]) -> io::Result<usize>
        ensures bound { ReadsAtMost result piece.new }
        ensures bytes { ReadConsumes (Rd.remaining self.old.inner) (Rd.remaining self.new.inner) result piece.new }
        ensures lines { MatchResult result
            (λ n. (self.old.lines < MOST_SESSION_LINES)
            × (self.new.lines ≡ self.old.lines + newlines (take n piece.new)))
            (λ _. self.new.lines ≡ self.old.lines) }
    {
        if self.is_over() {
            return Err(ErrorKind::TimedOut.into());
        }
        let count = self.inner.read(piece)?;
        let bytes = &piece[..count];
        self.begun = self.begun_after(bytes);
        self.lines += newlines_in(bytes);
        Ok(count)
    }
}
