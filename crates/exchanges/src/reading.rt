//! One line from a reader.
ghost use Rattle.std.specs.Prelude.{◌≡◌, ◌≤◌, ◌<◌, ◌+◌, [], vec_capacity};
ghost use Rattle.units.specs.Limits.{longest_line};
ghost use Rattle.exchanges.specs.ReadLines.{ReadsLine};

use crate::counted::Counted;
use std::io::Read;
use streams::{CallFault, MOST_INTERRUPTIONS};
use units::limits::LONGEST_LINE;

/// Why the reading of a line ended.
#[derive(Clone, Copy)]
pub(crate) enum LineEnd {
    /// Its newline was read.
    Newline,
    /// `LONGEST_LINE + 1` bytes were read, and none is a newline.
    TooLong,
    /// The stream ended.
    Ended,
    /// The reader failed, or `MOST_INTERRUPTIONS` reads were interrupted.
    Fault,
}

/// Reads up to a newline and adds the bytes before it to `line`. Reads at most `LONGEST_LINE + 1` bytes. An interrupted
/// read is made again.
pub(crate) fn read_line<R: Read>(reader: &mut Counted<R>, line: &mut Vec<u8>) -> LineEnd
    requires empty { line.old.items ≡ [] }
    requires room { longest_line + 1 ≤ vec_capacity line.old }
    ensures { ReadsLine R.remaining reader.old reader.new line.new.items result }
{
    let mut left = MOST_INTERRUPTIONS;
    while line.len() <= LONGEST_LINE {
        let mut byte = [0u8; 1];
        match reader.read_once(&mut byte) {
            Ok(0) => return LineEnd::Ended,
            Ok(_) => {
                if byte[0] == b'\n' {
                    return LineEnd::Newline;
                }
                line.push_reserved(byte[0]);
            }
            Err(CallFault::Failed) => return LineEnd::Fault,
            Err(CallFault::Interrupted) => {
                left -= 1;
                if left == 0 {
                    return LineEnd::Fault;
                }
            }
        }
    }
    LineEnd::TooLong
}
