//! The writer of the side that makes the connection.
ghost use Rattle.std.specs.Prelude.{◌≡◌, IfOk};

use crate::line::{Added, add};
use crate::message::{KeyedMessage, MessageCell};
use crate::opening_reader::BEFORE_TEXT;
use crate::sending::send_message;
use std::alloc::Global;
use std::io::{self, ErrorKind, Write};
use std::marker::Model;
use std::mem;
use tags::Key;
use units::limits::LONGEST_LINE;
use units::{NoMemory, Node};

/// A writer of a connection over which one message goes. It takes the message's line, and sends it behind its tag, and
/// sets the message for the connection's reader. Once a whole line was written, or a write failed, each later write
/// fails.
#[derive(Drop)]
pub struct MessageWriter<'k, W> {
    inner: W,
    key: &'k Key,
    from: Node,
    to: Node,
    alloc: Global,
    sent: MessageCell<'k>,
    line: Vec<u8>,
    out: Vec<u8>,
    closed: bool,
}

impl<'k, W> Model for MessageWriter<'k, W> {
    ghost use Rattle.std.specs.Prelude.{◌≡◌, ◌+◌, ◌≤◌, [], length, false, vec_capacity};
    ghost use Rattle.units.specs.Limits.{longest_line};
    ghost use Rattle.tagged_lines.specs.Views.{MessageWriterView};

    ghost Value = { MessageWriterView W };

    ghost view = { λ w. record { inner = w.inner; key = w.key.now; from = w.from; to = w.to } };

    ghost invariant = { λ w. w.closed ≡ false → (length w.line.items ≤ longest_line) × (longest_line + 1 ≤ vec_capacity w.line)
        × (w.out.items ≡ []) × (longest_line + 66 ≤ vec_capacity w.out) };
}

impl<'k, W: Drop> MessageWriter<'k, W> {
    /// A writer to that one, of a message under that key from one node to another. It sets `sent` to the message, once
    /// the message was sent.
    ///
    /// # Errors
    ///
    /// Fails with `NoMemory` if memory ran out.
    pub fn new(
        alloc: Global,
        inner: W,
        key: &'k Key,
        from: Node,
        to: Node,
        sent: MessageCell<'k>,
    ) -> Result<MessageWriter<'k, W>, NoMemory>
        ensures { IfOk result (λ w. w ≡ record { inner = inner; key = key.now; from = from; to = to }) }
    {
        let line = Vec::with_capacity(alloc, LONGEST_LINE + 1)?;
        let out = Vec::with_capacity(alloc, BEFORE_TEXT + LONGEST_LINE + 1)?;
        Ok(MessageWriter {
            inner,
            key,
            from,
            to,
            alloc,
            sent,
            line,
            out,
            closed: false,
        })
    }

    /// The writer that it writes to.
    pub fn into_inner(self) -> W
        ensures { result ≡ self.entry.inner }
    {
        self.inner
    }
}

impl<'k, W: Write> Write for MessageWriter<'k, W> {
    /// Takes the bytes up to the first newline, and sends the line with its newline.
    ///
    /// # Errors
    ///
    /// Fails with `InvalidInput` if the line has more than `LONGEST_LINE` bytes, with `WriteZero` if it couldn't be
    /// sent whole, and with `BrokenPipe` once a line was sent or a write failed.
    fn write(&mut self, bytes: &[u8]) -> io::Result<usize> {
        if self.closed {
            return Err(ErrorKind::BrokenPipe.into());
        }
        let before = self.line.len();
        match add(LONGEST_LINE, &mut self.line, bytes) {
            Added::More => Ok(bytes.len()),
            Added::Whole => {
                self.closed = true;
                let taken = self.line.len() - before + 1;
                let text = mem::replace(&mut self.line, Vec::new(self.alloc));
                let message = KeyedMessage::new(self.key, self.from, self.to, text);
                if send_message(&mut self.inner, &mut self.out, &message).is_err() {
                    return Err(ErrorKind::WriteZero.into());
                }
                drop(self.sent.try_set(message));
                Ok(taken)
            }
            Added::TooLong => {
                self.closed = true;
                Err(ErrorKind::InvalidInput.into())
            }
        }
    }

    fn flush(&mut self) -> io::Result<()> {
        self.inner.flush()
    }
}
