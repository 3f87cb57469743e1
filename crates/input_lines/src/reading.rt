//! The next line of an input, and the thing that it writes.
ghost use Rattle.std.specs.Prelude.{◌≡◌, ℕ, List, IfOk, IfErr};
ghost use Rattle.input_lines.specs.Lines.{IsLine, IsNextFault, room_after};

use crate::cutting::input_line;
use crate::line::WordsFault;
use command_faults::{Cause, OpFault};
use std::alloc::Global;

/// A thing that is written in one line.
pub trait WrittenLine: Drop {
    ghost use Rattle.std.specs.Prelude.{◌≡◌, ℕ, List, Err, IfOk};
    ghost use Rattle.input_lines.specs.declared.line.WordsFault.TheVariants as faults;

    /// The line, without its newline, writes the thing.
    ghost writes: { List ℕ → Self → Type 0 };

    /// The thing that the line writes.
    ///
    /// # Errors
    ///
    /// Fails with `Order` where the line writes no such thing, and with `NoMemory` for lack of memory.
    fn read(alloc: Global, line: &[u8]) -> Result<Self, WordsFault>
    where
        Self: Sized,
        ensures ok { IfOk result (writes line.now) }
        ensures order { result ≡ Err faults.Order → (written : Self) → writes line.now written → ⊥ };
}

/// The thing that the first line of `bytes` writes, the bytes after that line, and the number of bytes that the input
/// may still have then. `room` is that number before the line, and `line` is the line's number, for its fault.
///
/// # Errors
///
/// - `Input`: the line has a fault: `TooLong`, `Truncated`, or `Order`, where it writes no such thing.
/// - `NoMemory`: out of memory.
pub fn next_line<L: WrittenLine>(
    alloc: Global,
    bytes: &[u8],
    room: usize,
    line: u64,
) -> Result<(L, &[u8], usize), OpFault>
    ensures ok { IfOk result (λ p. (words : List ℕ) × IsLine bytes.now room words p.1.now × L.writes words p.0
        × (p.2 ≡ room_after room words)) }
    ensures err { IfErr result (IsNextFault L.writes bytes.now room line) }
{
    let (words, rest) = match input_line(bytes, room) {
        Ok(parts) => parts,
        Err(cause) => return Err(OpFault::Input { line, cause }),
    };
    match L::read(alloc, words) {
        Ok(written) => Ok((written, rest, room - (words.len() + 1))),
        Err(WordsFault::NoMemory) => Err(OpFault::NoMemory),
        Err(WordsFault::Order) => {
            let cause = Cause::Order;
            Err(OpFault::Input { line, cause })
        }
    }
}
