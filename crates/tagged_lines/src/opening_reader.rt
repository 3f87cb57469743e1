//! The reader of the side that accepts.
ghost use Rattle.std.specs.Prelude.{◌≡◌, ◌≤◌, ◌<◌, ◌+◌, [], IfOk, OnErr, length, take, drop, vec_capacity};
ghost use Rattle.std.specs.Io.KnownBytes.{Keeps};
ghost use Rattle.streams.specs.Lines.{IsWithin};
ghost use Rattle.tagged_lines.specs.Opened.{longest_tagged, opened_line};
ghost use Rattle.tagged_lines.specs.Opening.{Fills, FitsStage, GoesOnWith};

use crate::line::{Added, add, give};
use crate::message::{KeyedMessage, MessageCell};
use crate::sender::line_sender;
use std::alloc::Global;
use std::io::{self, ErrorKind, Read};
use std::marker::Model;
use tags::{Keys, TAG_DIGITS};
use units::limits::LONGEST_LINE;
use units::{NoMemory, Node};

/// How many bytes come before the text in a line with a tag: the tag's digits and a space.
pub(crate) const BEFORE_TEXT: usize = TAG_DIGITS + 1;

/// How many bytes a line with a tag may have before its newline.
const LONGEST_TAGGED: usize = BEFORE_TEXT + LONGEST_LINE;

/// How many bytes are read at once at most.
const PIECE: usize = 4_096;

/// How far a reader is.
#[derive(Clone, Copy, Debug, PartialEq, Eq)]
pub enum Stage {
    /// The line isn't whole yet.
    Reading,
    /// The line is whole, and wasn't looked at yet.
    Whole,
    /// The bytes of the line from there on are returned.
    Giving(usize),
}

/// A reader of a connection over which one message goes. It reads a line from another reader, and returns the message's
/// text and a newline if the line is a message to its node, behind its tag, under the key of the message's sender. For
/// any other line it returns a newline alone, and it returns nothing if the stream ends before a newline, or if the
/// line is longer than one with a tag may be.
///
/// Each read reads at most once from the other reader, and fails with `Interrupted` as long as there is nothing to
/// return.
#[derive(Drop)]
pub struct OpeningReader<'k, R> {
    inner: R,
    keys: &'k Keys,
    node: Node,
    alloc: Global,
    heard: MessageCell<'k>,
    line: Vec<u8>,
    stage: Stage,
}

impl<'k, R> Model for OpeningReader<'k, R> {
    ghost use Rattle.std.specs.Prelude.{◌+◌, ◌≤◌, vec_capacity};
    ghost use Rattle.tagged_lines.specs.Opened.{longest_tagged};
    ghost use Rattle.tagged_lines.specs.Opening.{FitsStage};
    ghost use Rattle.tagged_lines.specs.Views.{OpeningView};

    ghost Value = { OpeningView R };

    ghost view = { λ r. record { inner = r.inner; keys = r.keys.now; node = r.node; line = r.line.items; stage = r.stage } };

    ghost invariant = { λ r. FitsStage r.stage r.line.items × (longest_tagged + 1 ≤ vec_capacity r.line) };
}

impl<'k, R: Drop> OpeningReader<'k, R> {
    /// A reader of the bytes of `inner`, at `node`. It sets `heard` to the message, once it has read one with its tag.
    ///
    /// # Errors
    ///
    /// Fails with `NoMemory` if memory ran out.
    pub fn new(
        alloc: Global,
        inner: R,
        keys: &'k Keys,
        node: Node,
        heard: MessageCell<'k>,
    ) -> Result<OpeningReader<'k, R>, NoMemory>
        ensures { IfOk result (λ r. r ≡ record { inner = inner; keys = keys.now; node = node; line = []; stage = Stage.Reading }) }
    {
        let line = Vec::with_capacity(alloc, LONGEST_TAGGED + 1)?;
        Ok(OpeningReader {
            inner,
            keys,
            node,
            alloc,
            heard,
            line,
            stage: Stage::Reading,
        })
    }

    /// The reader that it reads from.
    pub fn into_inner(self) -> R
        ensures { result ≡ self.entry.inner }
    {
        self.inner
    }
}

/// Reads once, and adds the bytes that were read to the line. Returns how far the reader is then.
///
/// # Errors
///
/// Fails if the read failed. Nothing was read.
fn fill<R: Read>(inner: &mut R, line: &mut Vec<u8>) -> io::Result<Stage>
    requires within { IsWithin longest_tagged line.old.items }
    requires room { longest_tagged + 1 ≤ vec_capacity line.old }
    ensures ok { IfOk result (λ stage. Fills (R.remaining inner.old) (R.remaining inner.new) line.old.items line.new.items stage) }
    ensures err { OnErr result (Keeps (R.remaining inner.old) (R.remaining inner.new)) }
    ensures same { OnErr result (line.new.items ≡ line.old.items) }
    ensures fits { IfOk result (λ stage. FitsStage stage line.new.items) }
    ensures room { longest_tagged + 1 ≤ vec_capacity line.new }
{
    let mut piece = [0u8; PIECE];
    let count = inner.read(&mut piece)?;
    if count == 0 {
        return Ok(Stage::Giving(line.as_slice().len()));
    }
    Ok(match add(LONGEST_TAGGED, line, &piece[..count]) {
        Added::More => Stage::Reading,
        Added::Whole => Stage::Whole,
        Added::TooLong => Stage::Giving(line.as_slice().len()),
    })
}

/// Looks at the line, which is whole, and sets `heard` to the message if it is one with its tag. Returns the place from
/// which on the line is returned.
///
/// # Errors
///
/// Fails with `NoMemory` if memory ran out. The line is as it was.
fn open_line<'k>(
    alloc: Global,
    keys: &'k Keys,
    node: Node,
    line: &mut Vec<u8>,
    heard: &MessageCell<'k>,
) -> Result<usize, NoMemory>
    requires within { length line.old.items ≤ longest_tagged }
    requires room { longest_tagged + 1 ≤ vec_capacity line.old }
    ensures gives { IfOk result (λ at. drop at line.new.items ≡ opened_line keys.now node line.old.items) }
    ensures bound { IfOk result (λ at. at ≤ length line.new.items) }
    ensures same { OnErr result (line.new.items ≡ line.old.items) }
    ensures room { longest_tagged + 1 ≤ vec_capacity line.new }
{
    let at = match line_sender(alloc, keys, node, line.as_slice())? {
        Some(sender) => {
            let text = Vec::from_slice(alloc, &line[BEFORE_TEXT..])?;
            let message = KeyedMessage::new(sender.key, sender.node, node, text);
            drop(heard.try_set(message));
            BEFORE_TEXT
        }
        None => line.len(),
    };
    line.push_reserved(b'\n');
    Ok(at)
}

impl<'k, R: Read> Read for OpeningReader<'k, R> {
    ghost use Rattle.tagged_lines.specs.Opening.{opening_remaining};

    ghost remaining = { λ r. opening_remaining R.remaining r };

    /// Fails with `Interrupted` as long as nothing can be returned, as the other reader does, and with `OutOfMemory` if
    /// memory ran out. Nothing is lost then.
    fn read(&mut self, piece: &mut [u8]) -> io::Result<usize> {
        match self.stage {
            Stage::Reading => {
                self.stage = fill(&mut self.inner, &mut self.line)?;
                Err(ErrorKind::Interrupted.into())
            }
            Stage::Whole => {
                let Ok(at) = open_line(
                    self.alloc,
                    self.keys,
                    self.node,
                    &mut self.line,
                    &self.heard,
                ) else {
                    return Err(ErrorKind::OutOfMemory.into());
                };
                self.stage = Stage::Giving(at);
                Err(ErrorKind::Interrupted.into())
            }
            Stage::Giving(at) => {
                let count = give(self.line.as_slice(), at, piece);
                self.stage = Stage::Giving(at + count);
                Ok(count)
            }
        }
    }
}
