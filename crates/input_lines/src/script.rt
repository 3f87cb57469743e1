//! A file with a script.
ghost use Rattle.std.specs.Prelude.{◌≡◌, ◌++◌, ◌∷◌, [], IfOk, IfErr, OnOk};
ghost use Rattle.input_lines.specs.Lines.{AreLines};
ghost use Rattle.streams.specs.Inputs.{longest_input};
ghost use Rattle.input_lines.specs.ScriptLines.{IsScriptLine};
ghost use Rattle.input_lines.specs.Scripts.{FailsToReadScript, IsScriptFault, ReadsScript};

use crate::reading::next_line;
use crate::script_line::ScriptLine;
use command_faults::{Cause, OpFault};
use std::alloc::Global;
use std::io::Read;
use streams::{LONGEST_INPUT, read_input};
use units::NoMemory;

fn push(lines: &mut Vec<ScriptLine>, line: ScriptLine) -> Result<(), NoMemory>
    ensures { OnOk result (lines.new.items ≡ lines.old.items ++ line ∷ []) }
{
    lines.push(line)?;
    Ok(())
}

/// The lines of a script, from its bytes.
fn lines_of(alloc: Global, bytes: &[u8]) -> Result<Vec<ScriptLine>, OpFault>
    ensures ok { IfOk result (λ v. AreLines IsScriptLine bytes.now longest_input v.items) }
    ensures err { IfErr result (IsScriptFault bytes.now) }
{
    let mut lines = Vec::new(alloc);
    let mut rest = bytes;
    let mut room = LONGEST_INPUT;
    while !rest.is_empty() {
        let (line, others, left) = next_line(alloc, rest, room, lines.len() as u64 + 1)?;
        push(&mut lines, line)?;
        rest = others;
        room = left;
    }
    Ok(lines)
}

/// Reads the reader to its end, and returns the lines of the script.
///
/// # Errors
///
/// - `Read`: the reader failed.
/// - `Input`: the first line with a fault, counted from 1, and its fault: `TooLong`, `Truncated` (also where there is
///   no line at all) or `Order`, where the line is no line of a script.
/// - `NoMemory`: out of memory.
pub fn read_script<R: Read>(alloc: Global, reader: &mut R) -> Result<Vec<ScriptLine>, OpFault>
    ensures ok { IfOk result (λ v. ReadsScript (R.remaining reader.old) (R.remaining reader.new) v.items) }
    ensures err { IfErr result (λ e. FailsToReadScript e (R.remaining reader.old) (R.remaining reader.new)) }
{
    let input = read_input(alloc, reader)?;
    if input.is_empty() {
        let cause = Cause::Truncated;
        return Err(OpFault::Input { line: 1, cause });
    }
    lines_of(alloc, input.as_slice())
}
