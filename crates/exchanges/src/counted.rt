//! A reader or a writer whose calls are counted.
ghost use Rattle.std.specs.Prelude.{◌≡◌, ◌<◌, length, MatchResult};
ghost use Rattle.std.specs.Io.{ReadsAtMost};
ghost use Rattle.std.specs.Io.KnownBytes.{ReadConsumes};
ghost use Rattle.streams.specs.Calls.{Counts, GoesOn, no_calls};
ghost use Rattle.exchanges.specs.Streams.{WritesAll, WritesFirst};

use std::io::{Read, Write};
use std::marker::Model;
use streams::{CallFault, Calls, write_all};

/// A reader or a writer, and how the calls went that were made of it here.
#[derive(Debug, Drop)]
pub struct Counted<T> {
    inner: T,
    calls: Calls,
}

impl<T> Model for Counted<T> {
    ghost use Rattle.exchanges.specs.CountedView.{CountedView};

    ghost Value = { CountedView T };

    ghost view = { λ c. record { inner = c.inner; calls = c.calls } };
}

impl<T> Counted<T> {
    /// That reader or writer, before any call of it.
    pub fn new(inner: T) -> Counted<T>
        ensures { result ≡ record { inner = inner; calls = no_calls } }
    {
        Counted {
            inner,
            calls: Calls::none(),
        }
    }

    /// The reader or writer, as its calls left it.
    pub fn into_inner(self) -> T
        ensures { result ≡ self.inner }
    {
        let Counted { inner, calls: _ } = self;
        inner
    }

    /// How many calls returned an error other than `Interrupted`, or were given bytes to write and took none. The count
    /// wraps around to 0 after `u64::MAX`.
    pub fn failures(&self) -> u64
        ensures { result ≡ self.now.calls.failures }
    {
        self.calls.failures()
    }
}

impl<T: Read> Counted<T> {
    /// Reads once into `piece`, which has room, and returns how many bytes were read: none only at the end.
    pub(crate) fn read_once(&mut self, piece: &mut [u8]) -> Result<usize, CallFault>
        requires { 0 < length piece.old }
        ensures bytes { ReadConsumes (T.remaining self.old.inner) (T.remaining self.new.inner) result piece.new }
        ensures bound { ReadsAtMost result piece.new }
        ensures counts { Counts self.old.calls self.new.calls result }
    {
        self.calls.read(&mut self.inner, piece)
    }
}

impl<T: Write> Counted<T> {
    /// Writes the bytes. An interrupted write is made again, and `left` is how many more interruptions there may be.
    ///
    /// Fails with how many of the first bytes were written, if the writer failed or was interrupted that often.
    pub(crate) fn write_all(&mut self, left: &mut u32, bytes: &[u8]) -> Result<(), usize>
        requires { 0 < left.old }
        ensures wrote { MatchResult result (λ _. WritesAll T.contents self.old self.new bytes.now)
            (λ n. WritesFirst T.contents left.old self.old self.new bytes.now n) }
        ensures goes { MatchResult result (λ _. GoesOn left.old left.new self.old.calls self.new.calls
            × (0 < left.new)) (λ _. Unit {0}) }
    {
        write_all(&mut self.inner, &mut self.calls, left, bytes)
    }
}
