//! How often a reader or a writer was called, and how those calls went.

use std::io::{Error, ErrorKind, Read, Write};

/// Why a call moved nothing.
#[derive(Clone, Copy, Debug, PartialEq, Eq)]
pub enum CallFault {
    /// It was interrupted, and may be made again.
    Interrupted,
    /// It returned another error, or it was given bytes to write and took none.
    Failed,
}

/// The calls of a reader or a writer so far. Each count is a `u64`, and wraps around to 0.
#[derive(Clone, Copy, Debug, PartialEq, Eq)]
pub struct Calls {
    /// How many there were.
    count: u64,
    /// How many of them returned an error other than `Interrupted`, or were given bytes to write and took none.
    failures: u64,
    /// How many of them were interrupted.
    interruptions: u64,
}

impl Calls {
    ghost use Rattle.std.specs.Prelude.{◌≡◌, ◌<◌, ◌≤◌, ◌↔◌, length, IfOk};
    ghost use Rattle.std.specs.Io.{ReadsAtMost};
    ghost use Rattle.std.specs.Io.KnownBytes.{ReadConsumes, WriteAppends};
    ghost use Rattle.std.specs.IoError.{error_kind};
    ghost use Rattle.streams.specs.Calls.{Counts, CountsFault, no_calls};

    /// No calls.
    pub fn none() -> Calls
        ensures { result ≡ no_calls }
    {
        Calls {
            count: 0,
            failures: 0,
            interruptions: 0,
        }
    }

    /// How many calls there were.
    pub fn count(&self) -> u64
        ensures { result ≡ self.now.count }
    {
        self.count
    }

    /// How many calls returned an error other than `Interrupted`, or were given bytes to write and took none.
    pub fn failures(&self) -> u64
        ensures { result ≡ self.now.failures }
    {
        self.failures
    }

    /// How many of the calls were interrupted.
    pub fn interruptions(&self) -> u64
        ensures { result ≡ self.now.interruptions }
    {
        self.interruptions
    }

    /// Counts the error of a call, and returns its kind.
    fn count_fault(&mut self, error: &Error) -> CallFault
        ensures kind { (result ≡ CallFault.Interrupted) ↔ (error_kind error.now ≡ ErrorKind.Interrupted) }
        ensures counts { CountsFault self.old self.new result }
    {
        if error.kind() == ErrorKind::Interrupted {
            self.interruptions = self.interruptions.wrapping_add(1);
            CallFault::Interrupted
        } else {
            self.failures = self.failures.wrapping_add(1);
            CallFault::Failed
        }
    }

    /// Reads once into `piece`, which has room, counts the call, and returns how many bytes were read: none only at the
    /// end.
    ///
    /// # Errors
    ///
    /// Fails with `Interrupted` if the reader was interrupted, and with `Failed` if it failed. Nothing was read.
    pub fn read<R: Read>(&mut self, reader: &mut R, piece: &mut [u8]) -> Result<usize, CallFault>
        requires { 0 < length piece.old }
        ensures bytes { ReadConsumes (R.remaining reader.old) (R.remaining reader.new) result piece.new }
        ensures bound { ReadsAtMost result piece.new }
        ensures counts { Counts self.old self.new result }
    {
        self.count = self.count.wrapping_add(1);
        match reader.read(piece) {
            Ok(n) => Ok(n),
            Err(error) => Err(self.count_fault(&error)),
        }
    }

    /// Writes once, counts the call, and returns how many of the first bytes were taken: none only if there are no
    /// bytes.
    ///
    /// # Errors
    ///
    /// Fails with `Interrupted` if the writer was interrupted, and with `Failed` if it failed or took none of some
    /// bytes. Nothing was written.
    pub fn write<W: Write>(&mut self, writer: &mut W, bytes: &[u8]) -> Result<usize, CallFault>
        ensures bytes { WriteAppends (W.contents writer.old) (W.contents writer.new) result bytes.now }
        ensures bound { IfOk result (λ n. n ≤ length bytes.now) }
        ensures some { IfOk result (λ n. 0 < length bytes.now → 0 < n) }
        ensures counts { Counts self.old self.new result }
    {
        self.count = self.count.wrapping_add(1);
        match writer.write(bytes) {
            Ok(n) => {
                if n > 0 || bytes.is_empty() {
                    return Ok(n);
                }
                self.failures = self.failures.wrapping_add(1);
                Err(CallFault::Failed)
            }
            Err(error) => Err(self.count_fault(&error)),
        }
    }
}
