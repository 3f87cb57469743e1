//! Reading the records of a journal.
ghost use Rattle.std.specs.Prelude.{◌≤◌, ◌↔◌, codes, IsTrue};
ghost use Rattle.std.specs.List.{AllByRecursion};
ghost use Rattle.serde_json.specs.Data.{string};
ghost use Rattle.serde_json.specs.View.{view};
ghost use Rattle.status.specs.Content.{raws};
ghost use Rattle.json_fields.specs.Fields.{HasAt};
ghost use Rattle.json_fields.specs.Found.{Finds, Reads};
ghost use Rattle.wire.specs.Objects.{HasFields};
ghost use Rattle.wire.specs.Records.{AreUnitsWithin, IsRecord, IsRecordText, format_fields};
ghost use Rattle.wire.specs.Reading.{HasMessage, HasWord, IsAccountOrder};
ghost use Rattle.wire.specs.declared.input.Input.TheVariants.{Propose, Request, Ack, CleanUp, Eligible, Received};
ghost use Rattle.wire.specs.declared.record_format.RecordFormat.TheVariants.{One, Two};

use crate::exact::exact_input;
use json_fields::{TextFault, bool_at, has_keys, value_at};
use serde_json::Value;
use status::{Moment, Order, TransactionId};
use std::alloc::Global;
use units::{Block, Code};
use wire::{Body, Input, Message, Number, RecordFormat};
use wire_objects::{
    code_at, has_number, has_text, id_at, message, moment_at, raw_blocks, short_at, whole_at,
};

/// Whether the object has the fields that the format adds.
fn is_of(value: &Value, format: RecordFormat) -> bool
    ensures { IsTrue result ↔ HasFields (view value.now) (format_fields format) }
{
    match format {
        RecordFormat::One => true,
        RecordFormat::Two => has_number(value, "v", u64::from(format.number())),
    }
}

/// Whether the object is a record with that word, with `own` keys besides those of the format.
fn has_word(value: &Value, format: RecordFormat, word: &str, own: u8) -> bool
    ensures { IsTrue result ↔ HasWord format (view value.now) word.now own }
{
    has_keys(value, usize::from(own) + format.keys())
        && has_text(value, "input", word)
        && is_of(value, format)
}

/// An order to transfer units.
fn order(alloc: Global, value: &Value, format: RecordFormat) -> Result<Order, TextFault>
    ensures { Finds (λ o. IsRecord format (view value.now) (Propose o)) result }
{
    if !has_word(value, format, "propose", 5) {
        return Err(TextFault::Shape);
    }
    let account = whole_at(value, "account").ok_or(TextFault::Shape)?;
    let to_account = whole_at(value, "to_account").ok_or(TextFault::Shape)?;
    let acquirer = code_at(value, "to_registry").ok_or(TextFault::Shape)?;
    let units = raw_blocks(alloc, value)?;
    Order::new(account, acquirer, to_account, units).ok_or(TextFault::Shape)
}

/// The transaction of an order to ask for cancellation.
fn request_order(value: &Value, format: RecordFormat) -> Option<TransactionId>
    ensures { Reads (λ t. IsRecord format (view value.now) (Request t)) result }
{
    if !has_word(value, format, "request", 2) {
        return None;
    }
    id_at(value, "transaction")
}

/// The account of an order with that word.
fn account_order(value: &Value, format: RecordFormat, word: &str) -> Option<Number>
    ensures { Reads (IsAccountOrder format (view value.now) word.now) result }
{
    if !has_word(value, format, word, 2) {
        return None;
    }
    short_at(value, "account")
}

/// The key of an acknowledgement.
fn acknowledgement(value: &Value, format: RecordFormat) -> Option<Number>
    ensures { Reads (λ n. IsRecord format (view value.now) (Ack n)) result }
{
    if !has_word(value, format, "ack", 2) {
        return None;
    }
    short_at(value, "key")
}

/// The moment of a clean-up.
fn clean_up(value: &Value, format: RecordFormat) -> Option<Moment>
    ensures { Reads (λ t. IsRecord format (view value.now) (CleanUp t)) result }
{
    if !has_word(value, format, "clean_up", 2) {
        return None;
    }
    moment_at(value, "moment")
}

/// The registry of an eligibility order, and whether it may take part.
fn eligibility(value: &Value, format: RecordFormat) -> Option<(Code, bool)>
    ensures { Reads (λ p. IsRecord format (view value.now) (Eligible p.0 p.1)) result }
{
    if !has_word(value, format, "eligible", 3) {
        return None;
    }
    let registry = code_at(value, "registry")?;
    let may = bool_at(value, "may")?;
    Some((registry, may))
}

/// Whether no number of the blocks is above the last one.
fn are_up_to(blocks: &[Block], last: u64) -> bool
    ensures { IsTrue result ↔ AllByRecursion (λ b. b.last ≤ last) (raws blocks.now) }
{
    blocks.iter().all(|block| block.raw.last <= last)
}

/// Whether all units of a message with that body are within the format.
fn are_units_within(body: &Body, format: RecordFormat) -> bool
    ensures { IsTrue result ↔ AreUnitsWithin format body.now }
{
    match body {
        Body::Proposal(proposal) => are_up_to(proposal.content.units(), format.last_unit()),
        _ => true,
    }
}

/// The message at the key `message`.
fn message_at(alloc: Global, value: &Value, format: RecordFormat) -> Result<Message, TextFault>
    ensures { Finds (HasMessage format (view value.now)) result }
{
    let inner = value_at(value, "message").ok_or(TextFault::Shape)?;
    let message = message(alloc, inner)?;
    if are_units_within(&message.body, format) {
        Ok(message)
    } else {
        Err(TextFault::Shape)
    }
}

/// A message and the moment at which it came.
fn received(
    alloc: Global,
    value: &Value,
    format: RecordFormat,
) -> Result<(Message, Moment), TextFault>
    ensures { Finds (λ p. IsRecord format (view value.now) (Received p.0 p.1)) result }
{
    if !has_word(value, format, "received", 3) {
        return Err(TextFault::Shape);
    }
    let moment = moment_at(value, "moment").ok_or(TextFault::Shape)?;
    let message = message_at(alloc, value, format)?;
    Ok((message, moment))
}

/// An input that is no order to transfer units and no message.
fn small_input(value: &Value, format: RecordFormat) -> Option<Input>
    requires propose { HasAt (view value.now) (codes "input") (string (codes "propose")) → ⊥ }
    requires received { HasAt (view value.now) (codes "input") (string (codes "received")) → ⊥ }
    ensures { Reads (IsRecord format (view value.now)) result }
{
    if has_text(value, "input", "open") {
        return Some(Input::OpenAccount(account_order(value, format, "open")?));
    }
    if has_text(value, "input", "close") {
        return Some(Input::CloseAccount(account_order(value, format, "close")?));
    }
    if has_text(value, "input", "ack") {
        return Some(Input::Ack(acknowledgement(value, format)?));
    }
    if has_text(value, "input", "clean_up") {
        return Some(Input::CleanUp(clean_up(value, format)?));
    }
    if has_text(value, "input", "eligible") {
        let (registry, may) = eligibility(value, format)?;
        return Some(Input::Eligible { registry, may });
    }
    if has_text(value, "input", "request") {
        return Some(Input::Request(request_order(value, format)?));
    }
    None
}

/// The input that the value writes.
fn input(alloc: Global, value: &Value, format: RecordFormat) -> Result<Input, TextFault>
    ensures { Finds (IsRecord format (view value.now)) result }
{
    if has_text(value, "input", "propose") {
        let order = order(alloc, value, format)?;
        return Ok(Input::Propose(order));
    }
    if has_text(value, "input", "received") {
        let (message, moment) = received(alloc, value, format)?;
        return Ok(Input::Received { message, moment });
    }
    small_input(value, format).ok_or(TextFault::Shape)
}

/// The input that a record's text of that format writes.
fn read_text(alloc: Global, text: &[u8], format: RecordFormat) -> Result<Input, TextFault>
    ensures { Finds (IsRecordText format text.now) result }
{
    match Value::from_slice(alloc, text) {
        Ok(value) => input(alloc, &value, format),
        Err(e) if e.is_memory() => Err(TextFault::NoMemory),
        Err(_) => Err(TextFault::Shape),
    }
}

/// The input that a record's text of format Two writes, in JSON (RFC 8259). Fails with `Shape` if the text is no JSON
/// in UTF-8, has a key or a value outside the grammar of records, or lacks one. Fails with `NoMemory` if an allocation
/// was refused; that says nothing about the text.
pub fn decode_input(alloc: Global, text: &[u8]) -> Result<Input, TextFault>
    ensures { Finds (IsRecordText Two text.now) result }
{
    if let Some(input) = exact_input(alloc, text)? {
        return Ok(input);
    }
    read_text(alloc, text, RecordFormat::Two)
}

/// The input that a record's text of format One writes, in JSON (RFC 8259): without the key `v`, and with no unit above
/// `LAST_UNIT_OF_FORMAT_ONE` in a message. Fails as `decode_input` does.
pub fn decode_input_v1(alloc: Global, text: &[u8]) -> Result<Input, TextFault>
    ensures { Finds (IsRecordText One text.now) result }
{
    read_text(alloc, text, RecordFormat::One)
}
