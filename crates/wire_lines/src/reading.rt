//! Reading messages from lines.
ghost use Rattle.std.specs.Prelude.{◌≡◌, ◌⊎◌, IfOk, IfErr};
ghost use Rattle.json_fields.specs.Found.{Finds};
ghost use Rattle.units.specs.RefusalCodes.{not_a_message, out_of_memory};
ghost use Rattle.wire.specs.Messages.{IsLine};
ghost use Rattle.wire.specs.declared.message.Message.{Message};

use crate::exact::exact_message;
use json_fields::TextFault;
use serde_json::Value;
use std::alloc::Global;
use units::Refusal;
use units::limits::LONGEST_LINE;
use units::refusal_code::NOT_A_MESSAGE;
use wire::Message;
use wire_objects::message;

const NO_MESSAGE: Refusal = Refusal {
    code: NOT_A_MESSAGE,
};

/// The message that the line writes.
fn read_line(alloc: Global, line: &[u8]) -> Result<Message, TextFault>
    ensures { Finds (IsLine line.now) result }
{
    if line.len() > LONGEST_LINE {
        return Err(TextFault::Shape);
    }
    if let Some(message) = exact_message(alloc, line)? {
        return Ok(message);
    }
    match Value::from_slice(alloc, line) {
        Ok(value) => message(alloc, &value),
        Err(e) if e.is_memory() => Err(TextFault::NoMemory),
        Err(_) => Err(TextFault::Shape),
    }
}

/// The message that a line writes, in JSON (RFC 8259) without its newline. Fails with `NOT_A_MESSAGE` if the line has
/// more than `LONGEST_LINE` bytes, is no JSON in UTF-8, has a key or a value outside the grammar of messages, or lacks
/// one. Fails with `OUT_OF_MEMORY` if an allocation was refused; that says nothing about the line.
pub fn decode(alloc: Global, line: &[u8]) -> Result<Message, Refusal>
    ensures ok { IfOk result (λ m. IsLine line.now m) }
    ensures refused { IfErr result (λ e. (e.code ≡ out_of_memory)
        ⊎ ((e.code ≡ not_a_message) × ((m : Message) → IsLine line.now m → ⊥))) }
{
    match read_line(alloc, line) {
        Ok(message) => Ok(message),
        Err(TextFault::Shape) => Err(NO_MESSAGE),
        Err(TextFault::NoMemory) => Err(Refusal::NO_MEMORY),
    }
}
