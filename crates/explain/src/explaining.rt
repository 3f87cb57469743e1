//! Writing the text of a topic, or the names of all.
ghost use Rattle.std.specs.Prelude.{ℕ, List, IfErr, OnOk, map, string_bytes};
ghost use Rattle.std.specs.Io.KnownBytes.{Appends};
ghost use Rattle.explain.specs.Topics.{Explains, FailsToExplain};

use crate::asking::text_asked;
use crate::topics::listed_names;
use command_faults::{Cause, OpFault, write_out};
use std::alloc::Global;
use std::io::Write;

/// Writes the text of the topic for which the words ask, and nothing else; or without words the name of each topic, one
/// on a line, in the order of the tables.
///
/// The words are cut at spaces into pieces. These names are tried in turn, and the first one that a topic has decides:
///
/// 1. all pieces, with hyphens between them;
/// 2. each two neighbouring pieces, from left to right: the second one, if the first is `refused`, and otherwise both,
///    with a hyphen between them;
/// 3. each piece that is no number, from left to right;
/// 4. each piece that is a number, from left to right.
///
/// A single piece is taken without the hyphens before it, without one colon, comma or full stop after it, and as far as
/// its first apostrophe.
///
/// # Errors
///
/// - `Input`, at line 1, with `Order`: no topic has one of these names. Nothing is written.
/// - `Write`: the output failed, after the number of bytes in the fault. They are the first ones of the text.
/// - `NoMemory`: out of memory. Nothing is written.
pub fn explain<W: Write>(alloc: Global, writer: &mut W, words: &[String]) -> Result<(), OpFault>
    ensures ok { OnOk result ((text : List ℕ) × Explains (map string_bytes words.now) text
        × Appends (W.contents writer.old) (W.contents writer.new) text) }
    ensures err { IfErr result
        (λ e. FailsToExplain e (map string_bytes words.now) (W.contents writer.old) (W.contents writer.new)) }
{
    if words.is_empty() {
        let Ok(names) = listed_names(alloc) else {
            return Err(OpFault::NoMemory);
        };
        return write_out(writer, names.as_str());
    }
    let Ok(found) = text_asked(alloc, words) else {
        return Err(OpFault::NoMemory);
    };
    match found {
        Some(text) => write_out(writer, text),
        None => Err(OpFault::Input {
            line: 1,
            cause: Cause::Order,
        }),
    }
}
