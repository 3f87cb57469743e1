//! Messages and records whose text is exactly the one that is written for them, read without building a JSON value.
//!
//! Whatever is found in such a text is a guess. It counts only if the text written for it is the given text, byte for
//! byte, so nothing has to be known about how it was found.
ghost use Rattle.std.specs.Prelude.{IfOk, IfSome};
ghost use Rattle.wire.specs.Messages.{IsLine};
ghost use Rattle.wire.specs.Records.{IsRecordText};
ghost use Rattle.wire.specs.declared.record_format.RecordFormat.TheVariants.{Two};

use crate::guesses::{guess_input, guess_message};
use std::alloc::Global;
use units::NoMemory;
use wire::{Input, Message, encode, encode_input};

/// The message whose text is this line. `None` if it isn't found; the line may then write a message in another form.
pub(crate) fn exact_message(alloc: Global, line: &[u8]) -> Result<Option<Message>, NoMemory>
    ensures { IfOk result (λ found. IfSome found (IsLine line.now)) }
{
    let Some(message) = guess_message(alloc, line) else {
        return Ok(None);
    };
    let text = encode(alloc, &message)?;
    if text.as_slice() == line {
        return Ok(Some(message));
    }
    Ok(None)
}

/// The input whose record in format Two has this text. `None` if it isn't found; the text may then write an input in
/// another form.
pub(crate) fn exact_input(alloc: Global, text: &[u8]) -> Result<Option<Input>, NoMemory>
    ensures { IfOk result (λ found. IfSome found (IsRecordText Two text.now)) }
{
    let Some(input) = guess_input(alloc, text) else {
        return Ok(None);
    };
    let written = encode_input(alloc, &input)?;
    if written.as_slice() == text {
        return Ok(Some(input));
    }
    Ok(None)
}
