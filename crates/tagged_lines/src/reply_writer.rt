//! The writer of the side that accepts.

ghost use Rattle.std.specs.Prelude.{◌≡◌, IfOk};

use crate::line::{Added, add};
use crate::message::MessageCell;
use crate::opening_reader::BEFORE_TEXT;
use crate::sending::send_reply;
use std::alloc::Global;
use std::io::{self, ErrorKind, Write};
use std::marker::Model;
use units::NoMemory;

/// How many bytes the line of a reply may have, without its newline.
pub(crate) const LONGEST_REPLY: usize = 30;

/// A writer of a connection over which one message goes. It takes the reply's line, and sends it behind its tag if the
/// connection's reader has set the message, and otherwise as it is. Once a whole line was written, or a write failed,
/// each later write fails.
#[derive(Drop)]
pub struct ReplyWriter<'k, W> {
    inner: W,
    heard: MessageCell<'k>,
    line: Vec<u8>,
    out: Vec<u8>,
    closed: bool,
}

impl<'k, W> Model for ReplyWriter<'k, W> {
    ghost use Rattle.std.specs.Prelude.{◌≡◌, ◌+◌, ◌≤◌, [], length, false, vec_capacity};

    ghost Value = { W };

    ghost view = { λ w. w.inner };

    ghost invariant = { λ w. (length w.line.items ≤ 30) × (31 ≤ vec_capacity w.line) × (w.closed ≡ false → (w.out.items ≡ []) × (96 ≤ vec_capacity w.out)) };
}

impl<'k, W: Drop> ReplyWriter<'k, W> {
    /// A writer to that one. It finds in `heard` the message that the reply is to.
    ///
    /// # Errors
    ///
    /// Fails with `NoMemory` if memory ran out.
    pub fn new(
        alloc: Global,
        inner: W,
        heard: MessageCell<'k>,
    ) -> Result<ReplyWriter<'k, W>, NoMemory>
        ensures { IfOk result (λ w. w ≡ inner) }
    {
        let line = Vec::with_capacity(alloc, LONGEST_REPLY + 1)?;
        let out = Vec::with_capacity(alloc, BEFORE_TEXT + LONGEST_REPLY + 1)?;
        Ok(ReplyWriter {
            inner,
            heard,
            line,
            out,
            closed: false,
        })
    }

    /// The writer that it writes to.
    pub fn into_inner(self) -> W
        ensures { result ≡ self.entry }
    {
        self.inner
    }
}

impl<'k, W: Write> Write for ReplyWriter<'k, W> {
    /// Takes the bytes up to the first newline, and sends the line with its newline.
    ///
    /// # Errors
    ///
    /// Fails with `InvalidInput` if the line has more than `LONGEST_REPLY` bytes, with `WriteZero` if it couldn't be
    /// sent whole, and with `BrokenPipe` once a line was sent or a write failed.
    fn write(&mut self, bytes: &[u8]) -> io::Result<usize> {
        if self.closed {
            return Err(ErrorKind::BrokenPipe.into());
        }
        let before = self.line.len();
        match add(LONGEST_REPLY, &mut self.line, bytes) {
            Added::More => Ok(bytes.len()),
            Added::Whole => {
                self.closed = true;
                let taken = self.line.len() - before + 1;
                let sent = send_reply(
                    &mut self.inner,
                    &mut self.out,
                    self.heard.get(),
                    self.line.as_slice(),
                );
                if sent.is_err() {
                    return Err(ErrorKind::WriteZero.into());
                }
                Ok(taken)
            }
            Added::TooLong => {
                self.closed = true;
                Err(ErrorKind::InvalidInput.into())
            }
        }
    }

    fn flush(&mut self) -> io::Result<()> {
        self.inner.flush()
    }
}
