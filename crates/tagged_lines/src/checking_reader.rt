//! The reader of the side that makes the connection.
ghost use Rattle.std.specs.Prelude.{◌≡◌, ◌≤◌, ◌<◌, ◌↔◌, IsTrue, IfOk, length, vec_capacity};
ghost use Rattle.tagged_lines.specs.Sent.{FitsCheck, IsTaggedReply, longest_tagged_reply};

use crate::line::{Added, add, give};
use crate::message::{KeyedMessage, MessageCell};
use crate::opening_reader::BEFORE_TEXT;
use crate::reply_writer::LONGEST_REPLY;
use std::alloc::Global;
use std::io::{self, ErrorKind, Read};
use std::marker::Model;
use tags::split_tagged;
use units::NoMemory;

/// How many bytes the line of a reply may have with its tag, before its newline.
const LONGEST_TAGGED_REPLY: usize = BEFORE_TEXT + LONGEST_REPLY;

/// How many bytes are read at once at most.
const PIECE: usize = 128;

/// How far a reader of a reply is.
#[derive(Clone, Copy, Debug, PartialEq, Eq)]
pub(crate) enum Check {
    /// The line isn't whole yet.
    Reading,
    /// The bytes of the line from there on are returned.
    Giving(usize),
    /// The stream ended before a newline.
    Ended,
    /// The line isn't the reply.
    Failed,
}

/// A reader of a connection over which one message goes. It reads a line from another reader, and returns the reply's
/// text and a newline if the line is a reply, behind its tag, to the message that the connection's writer has set.
///
/// Each read reads at most once from the other reader, and fails with `Interrupted` as long as there is nothing to
/// return.
#[derive(Drop)]
pub struct CheckingReader<'k, R> {
    inner: R,
    sent: MessageCell<'k>,
    line: Vec<u8>,
    check: Check,
}

impl<'k, R> Model for CheckingReader<'k, R> {
    ghost use Rattle.std.specs.Prelude.{◌<◌, vec_capacity};
    ghost use Rattle.tagged_lines.specs.Sent.{FitsCheck, longest_tagged_reply};

    ghost Value = { R };

    ghost view = { λ r. r.inner };

    ghost invariant = { λ r. FitsCheck r.check r.line.items × (longest_tagged_reply < vec_capacity r.line) };
}

/// Whether the line is a reply to the message behind its tag.
fn is_reply<'k>(message: &KeyedMessage<'k>, line: &[u8]) -> bool
    ensures { IsTrue result ↔ IsTaggedReply message.now line.now }
{
    match split_tagged(line) {
        Some((digits, reply)) => message.reply_tag(reply).is_written(digits),
        None => false,
    }
}

/// Reads once, and adds the bytes that were read to the line. `None` if the stream ended.
///
/// # Errors
///
/// Fails if the read failed.
fn read_piece<R: Read>(inner: &mut R, line: &mut Vec<u8>) -> io::Result<Option<Added>>
    requires within { length line.old.items ≤ longest_tagged_reply }
    requires room { longest_tagged_reply < vec_capacity line.old }
    ensures within { length line.new.items ≤ longest_tagged_reply }
    ensures room { longest_tagged_reply < vec_capacity line.new }
{
    let mut piece = [0u8; PIECE];
    let count = inner.read(&mut piece)?;
    if count == 0 {
        return Ok(None);
    }
    Ok(Some(add(LONGEST_TAGGED_REPLY, line, &piece[..count])))
}

impl<'k, R: Drop> CheckingReader<'k, R> {
    /// A reader of the bytes of `inner`. It finds in `sent` the message whose reply it reads.
    ///
    /// # Errors
    ///
    /// Fails with `NoMemory` if memory ran out.
    pub fn new(
        alloc: Global,
        inner: R,
        sent: MessageCell<'k>,
    ) -> Result<CheckingReader<'k, R>, NoMemory>
        ensures { IfOk result (λ r. r ≡ inner) }
    {
        let line = Vec::with_capacity(alloc, LONGEST_TAGGED_REPLY + 1)?;
        Ok(CheckingReader {
            inner,
            sent,
            line,
            check: Check::Reading,
        })
    }

    /// The reader that it reads from.
    pub fn into_inner(self) -> R
        ensures { result ≡ self.entry }
    {
        self.inner
    }
}

/// How far a reader is once the line is whole: it returns the reply if the line is one to the message.
fn checked<'k>(message: Option<&KeyedMessage<'k>>, line: &mut Vec<u8>) -> Check
    requires within { length line.old.items ≤ longest_tagged_reply }
    requires room { longest_tagged_reply < vec_capacity line.old }
    ensures fits { FitsCheck result line.new.items }
    ensures room { longest_tagged_reply < vec_capacity line.new }
{
    match message {
        Some(message) if is_reply(message, line.as_slice()) => {
            line.push_reserved(b'\n');
            Check::Giving(BEFORE_TEXT)
        }
        _ => Check::Failed,
    }
}

impl<'k, R: Read> Read for CheckingReader<'k, R> {
    /// Fails with `Interrupted` as long as nothing can be returned, and as the other reader does. Fails with
    /// `InvalidData`, then and from then on, if the line isn't the reply.
    fn read(&mut self, piece: &mut [u8]) -> io::Result<usize> {
        match self.check {
            Check::Reading => {
                self.check = match read_piece(&mut self.inner, &mut self.line)? {
                    Some(Added::More) => Check::Reading,
                    Some(Added::Whole) => checked(self.sent.get(), &mut self.line),
                    Some(Added::TooLong) => Check::Failed,
                    None => Check::Ended,
                };
                Err(ErrorKind::Interrupted.into())
            }
            Check::Giving(at) => {
                let count = give(self.line.as_slice(), at, piece);
                self.check = Check::Giving(at + count);
                Ok(count)
            }
            Check::Ended => Ok(0),
            Check::Failed => Err(ErrorKind::InvalidData.into()),
        }
    }
}
