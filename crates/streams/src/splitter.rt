//! A stream's lines, each ended by a newline (byte 10), regardless of the pieces in which the stream comes.
ghost use Rattle.std.specs.Prelude.{◌≡◌, ◌↔◌, ℕ, List, [], ◌++◌, IsTrue, is_ok, IfOk, OnOk, OnErr, true, false};
ghost use Rattle.streams.specs.Lines.{IsWithin, Splits, IsOver};
ghost use Rattle.streams.specs.Splitting.{IsCut, Feeds, rest_after};

use crate::lines::{FirstLine, first_line};
use bytes::BytesMut;
use std::alloc::{AllocError, Global};
use std::marker::Model;
use thiserror::Error;
use units::Items;

/// One line of a stream, without its newline.
#[derive(Debug, Drop)]
pub struct Line {
    bytes: Vec<u8>,
}

impl Model for Line {
    ghost use Rattle.std.specs.Prelude.{ℕ, List};

    ghost Value = { List ℕ };

    ghost view = { λ l. l.bytes.items };
}

impl Line {
    /// The bytes of the line.
    pub fn as_slice(&self) -> &[u8]
        ensures { result.now ≡ self.now }
    {
        self.bytes.as_slice()
    }

    /// The bytes of the line as a `Vec`. Takes no memory.
    pub fn into_vec(self) -> Vec<u8>
        ensures { result.items ≡ self }
    {
        self.bytes
    }
}

/// Why a splitter didn't take a piece.
#[derive(Debug, Drop, Error)]
pub enum LineFault {
    /// A line is longer than the limit. These lines of the call came before it. The splitter is
    /// closed from now on.
    #[error("a line is longer than the limit")]
    TooLong(Items<Line>),
    /// A line was longer than the limit at an earlier call. The splitter is as it was.
    #[error("an earlier line was longer than the limit")]
    Closed,
    /// An allocation was refused. The splitter is as it was, so the piece may be given again.
    #[error("out of memory")]
    NoMemory,
}

/// A piece cut at its newlines: the lines that end in it and the bytes after the last of them, or the lines before one
/// that is over the limit.
#[derive(Drop)]
enum Cut<'a> {
    Whole(Items<Line>, &'a [u8]),
    Over(Items<Line>),
}

/// The line of `begun` followed by `part`.
fn join_line(alloc: Global, begun: &[u8], part: &[u8]) -> Result<Line, AllocError>
    ensures { IfOk result (λ line. line ≡ begun.now ++ part.now) }
{
    let mut bytes = Vec::with_capacity(alloc, begun.len() + part.len())?;
    bytes.extend_from_slice(begun)?;
    bytes.extend_from_slice(part)?;
    Ok(Line { bytes })
}

/// Cuts `piece`, which follows the held bytes: its first line begins with `held`.
fn cut_lines<'a>(
    alloc: Global,
    limit: usize,
    held: &[u8],
    piece: &'a [u8],
) -> Result<Cut<'a>, AllocError>
    requires { IsWithin limit held.now }
    ensures { IfOk result (λ c. IsCut limit held.now piece.now c) }
{
    let mut lines = Vec::new(alloc);
    let mut begun = held;
    let mut left = piece;
    loop {
        match first_line(left, limit - begun.len()) {
            FirstLine::Whole(line, rest) => {
                lines.push(join_line(alloc, begun, line)?)?;
                begun = &[];
                left = rest;
            }
            FirstLine::Partial => return Ok(Cut::Whole(Items::from_vec(lines), left)),
            FirstLine::TooLong => return Ok(Cut::Over(Items::from_vec(lines))),
        }
    }
}

/// Holds `tail`: after the held bytes, or in their place if lines have ended.
fn hold(rest: &mut BytesMut, lines: &[Line], tail: &[u8]) -> Result<(), AllocError>
    ensures ok { OnOk result (rest.new.items ≡ rest_after rest.old.items lines.now tail.now) }
    ensures err { OnErr result (rest.new.items ≡ rest.old.items) }
{
    if lines.is_empty() {
        return rest.extend_from_slice(tail);
    }
    // The room of the held bytes is free once a line has ended.
    rest.reserve(tail.len().saturating_sub(rest.len()))?;
    rest.clear();
    rest.extend_reserved(tail);
    Ok(())
}

/// Cuts a stream into lines of a limited length. The stream may come in any pieces. Lengths are in
/// bytes, without the newline.
#[derive(Debug, Drop)]
pub struct Splitter {
    limit: usize,
    rest: BytesMut,
    closed: bool,
}

impl Model for Splitter {
    ghost use Rattle.streams.specs.SplitterView.{SplitterView};
    ghost use Rattle.streams.specs.Lines.{IsWithin};

    ghost Value = { SplitterView };

    ghost view = { λ s. record { limit = s.limit; rest = s.rest.items; closed = s.closed } };

    ghost invariant = { λ s. IsWithin s.limit s.rest.items };
}

impl Splitter {
    /// A splitter before the first byte of a stream, whose lines have `limit` bytes at most. Takes
    /// no memory.
    pub fn new(alloc: Global, limit: usize) -> Splitter
        ensures { result ≡ record { limit = limit; rest = []; closed = false } }
    {
        Splitter {
            limit,
            rest: BytesMut::new(alloc),
            closed: false,
        }
    }

    /// Takes the next piece of the stream, and returns the lines that end in it, in their order. The bytes after the
    /// last newline are kept for the next call.
    ///
    /// - `TooLong` if more than `limit` bytes follow one another without a newline. It has the lines before them. The
    ///   splitter is closed, and keeps the bytes that it kept before.
    /// - `Closed` if the splitter was closed. It stays as it was.
    /// - `NoMemory` if an allocation was refused. The splitter stays as it was.
    pub fn feed(&mut self, piece: &[u8]) -> Result<Items<Line>, LineFault>
        ensures { Feeds self.old self.new piece.now result }
    {
        if self.closed {
            return Err(LineFault::Closed);
        }
        let alloc: Global = *self.rest.allocator();
        match cut_lines(alloc, self.limit, self.rest.as_slice(), piece) {
            Ok(Cut::Whole(lines, tail)) => match hold(&mut self.rest, lines.as_slice(), tail) {
                Ok(()) => Ok(lines),
                Err(AllocError) => Err(LineFault::NoMemory),
            },
            Ok(Cut::Over(lines)) => {
                self.closed = true;
                Err(LineFault::TooLong(lines))
            }
            Err(AllocError) => Err(LineFault::NoMemory),
        }
    }

    /// Whether the stream may end here. Fails with `Truncated` if bytes follow its last newline, or if the splitter is
    /// closed.
    pub fn finish(&self) -> Result<(), Truncated>
        ensures { IsTrue (is_ok result) ↔ ((self.now.closed ≡ false) × (self.now.rest ≡ [])) }
    {
        if self.closed || !self.rest.is_empty() {
            Err(Truncated)
        } else {
            Ok(())
        }
    }
}

/// A stream ended without a newline, or a line of it was longer than the limit.
#[derive(Clone, Copy, Debug, PartialEq, Eq, Error)]
#[error("the stream ends without a newline, or has a line that is longer than the limit")]
pub struct Truncated;

/// How a stream is cut into pieces doesn't matter: the lines of two pieces, one after the other, are the lines of both
/// as one piece. There is at most one way to divide bytes into lines and a rest, at most one into lines and one that is
/// over the limit, and never both. Does nothing.
pub fn cuts()
    ensures joined { (limit : ℕ) (a b : List ℕ) (ls ms : List (List ℕ)) (r s : List ℕ)
        → Splits limit a ls r → Splits limit (r ++ b) ms s → Splits limit (a ++ b) (ls ++ ms) s }
    ensures joined_over { (limit : ℕ) (a b : List ℕ) (ls ms : List (List ℕ)) (r : List ℕ)
        → Splits limit a ls r → IsOver limit (r ++ b) ms → IsOver limit (a ++ b) (ls ++ ms) }
    ensures one_split { (limit : ℕ) (a : List ℕ) (ls ms : List (List ℕ)) (r s : List ℕ)
        → Splits limit a ls r → Splits limit a ms s → (ls ≡ ms) × (r ≡ s) }
    ensures one_over { (limit : ℕ) (a : List ℕ) (ls ms : List (List ℕ))
        → IsOver limit a ls → IsOver limit a ms → ls ≡ ms }
    ensures not_both { (limit : ℕ) (a : List ℕ) (ls ms : List (List ℕ)) (r : List ℕ)
        → Splits limit a ls r → IsOver limit a ms → ⊥ }
{}
