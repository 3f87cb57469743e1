//! Lines that are read as they are written.
ghost use Rattle.std.specs.Prelude.{◌≡◌, ◌≤◌, ◌+◌, ◌++◌, ◌∷◌, [], IfOk, vec_capacity, vec_len};
ghost use Rattle.units.specs.Limits.{longest_line};
ghost use Rattle.one_node.specs.Reading.{ReadsByte, Steps, held_of};

use std::alloc::Global;
use std::io::{ErrorKind, Read};
use units::NoMemory;
use units::limits::LONGEST_LINE;

/// How many bytes one step reads at most, so that a stream without newlines doesn't hold it up.
const MOST_BYTES: u32 = 65_536;

/// The result of a step of reading.
#[derive(Clone, Copy, Debug, PartialEq, Eq)]
pub(crate) enum Step {
    /// A line was read to its newline. It is held.
    Line,
    /// A line was read to its newline, and is over the limit.
    TooLong,
    /// The line isn't whole yet.
    Quiet,
    /// The stream ended. The held bytes have no newline.
    Ended,
    /// The reader failed.
    Failed,
}

/// The result of reading a byte.
#[derive(Clone, Copy, Debug, PartialEq, Eq)]
pub(crate) enum Byte {
    /// That byte.
    Read(u8),
    /// There is nothing to read now.
    Quiet,
    /// The stream ended.
    Ended,
    /// The reader failed.
    Failed,
}

/// The part that was read of a line that is still being written. The reader fails with `WouldBlock`, `TimedOut` or
/// `Interrupted` if there is nothing to read now.
#[derive(Drop)]
pub(crate) struct LineBuffer {
    /// The part of the line that was read, or enough of it to show that the line is too long.
    held: Vec<u8>,
    ghost room: { longest_line + 1 ≤ vec_capacity held },
    ghost within: { vec_len held ≤ longest_line + 1 },
}

impl LineBuffer {
    /// Nothing of a line was read. Fails with `NoMemory` if memory ran out.
    pub(crate) fn new(alloc: Global) -> Result<LineBuffer, NoMemory>
        ensures { IfOk result (λ r. r.held.items ≡ []) }
    {
        let held = Vec::with_capacity(alloc, LONGEST_LINE + 1)?;
        Ok(LineBuffer { held })
    }

    /// The part of the line that was read.
    pub(crate) fn held(&self) -> &[u8]
        ensures { result.now ≡ self.now.held.items }
    {
        self.held.as_slice()
    }

    /// Begins the next line.
    pub(crate) fn begin(&mut self)
        ensures { self.new.held.items ≡ [] }
    {
        self.held.clear();
    }

    /// Holds a further byte, unless the held bytes already show that the line is too long.
    fn hold(&mut self, byte: u8)
        ensures { self.new.held.items ≡ held_of (self.old.held.items ++ byte ∷ []) }
    {
        if self.held.len() <= LONGEST_LINE {
            self.held.push_reserved(byte);
        }
    }

    /// Reads on, to the end of the line at most.
    pub(crate) fn step<R: Read>(&mut self, reader: &mut R) -> Step
        ensures { Steps self.old.held.items self.new.held.items (R.remaining reader.old) (R.remaining reader.new)
            result }
    {
        for _ in 0..MOST_BYTES {
            match read_byte(reader) {
                Byte::Read(b'\n') if self.held.len() > LONGEST_LINE => return Step::TooLong,
                Byte::Read(b'\n') => return Step::Line,
                Byte::Read(byte) => self.hold(byte),
                Byte::Quiet => return Step::Quiet,
                Byte::Ended => return Step::Ended,
                Byte::Failed => return Step::Failed,
            }
        }
        Step::Quiet
    }
}

/// Reads one byte.
fn read_byte<R: Read>(reader: &mut R) -> Byte
    ensures { ReadsByte (R.remaining reader.old) (R.remaining reader.new) result }
{
    let mut byte = [0u8; 1];
    match reader.read(&mut byte) {
        Ok(0) => Byte::Ended,
        Ok(_) => Byte::Read(byte[0]),
        Err(error) => match error.kind() {
            ErrorKind::WouldBlock | ErrorKind::TimedOut | ErrorKind::Interrupted => Byte::Quiet,
            _ => Byte::Failed,
        },
    }
}
