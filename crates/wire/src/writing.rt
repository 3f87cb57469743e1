//! The texts of messages.
ghost use Rattle.std.specs.Prelude.{◌≡◌, ◌++◌, IfOk, OnOk, take, drop};
ghost use Rattle.status.specs.Content.{IsContent};
ghost use Rattle.wire.specs.Messages.{fields_with, message_fields, message_data, message_text, IsSound, IsLine};
ghost use Rattle.wire.specs.NotifiedStatuses.{IsNotified};
ghost use Rattle.json_fields.specs.Writing.{after_fields, data_tokens};
ghost use Rattle.wire.specs.declared.message.Body.TheVariants as body;

use crate::members::{put_blocks, put_code, put_id, put_node, put_numbers};
use crate::message::{Body, Message, Proposal};
use crate::notified::NotifiedStatus;
use json_fields::JsonText;
use std::alloc::Global;
use units::NoMemory;

/// The first five fields of a message with a proposal.
fn put_first_fields(
    alloc: Global,
    out: &mut JsonText,
    message: &Message,
    proposal: &Proposal,
) -> Result<(), NoMemory>
    ensures { OnOk result
        (out.new ≡ after_fields out.old (take 5 (fields_with message.now (body.Proposal proposal.now)))) }
{
    out.put_number("account", proposal.content.account())?;
    out.put_text("call", "AcceptProposal")?;
    put_node(alloc, out, "from", message.from)?;
    out.put_text("status", proposal.status.status().name())?;
    put_node(alloc, out, "to", message.to)
}

/// The other four fields.
fn put_last_fields(
    alloc: Global,
    out: &mut JsonText,
    message: &Message,
    proposal: &Proposal,
) -> Result<(), NoMemory>
    ensures fields { OnOk result
        (out.new ≡ after_fields out.old (drop 5 (fields_with message.now (body.Proposal proposal.now)))) }
    ensures sound { OnOk result (IsContent proposal.now.content) }
{
    out.put_number("to_account", proposal.content.to_account())?;
    put_code(alloc, out, "to_registry", proposal.content.acquirer())?;
    put_id(alloc, out, "transaction", message.id)?;
    put_blocks(alloc, out, "units", proposal.content.units())
}

/// The fields of a message with a proposal.
fn put_proposal(
    alloc: Global,
    out: &mut JsonText,
    message: &Message,
    proposal: &Proposal,
) -> Result<(), NoMemory>
    ensures fields { OnOk result
        (out.new ≡ after_fields out.old (fields_with message.now (body.Proposal proposal.now))) }
    ensures sound { OnOk result (IsContent proposal.now.content) }
{
    put_first_fields(alloc, out, message, proposal)?;
    put_last_fields(alloc, out, message, proposal)
}

/// The fields of a message with a notification.
fn put_notification(
    alloc: Global,
    out: &mut JsonText,
    message: &Message,
    notified: &NotifiedStatus,
) -> Result<(), NoMemory>
    ensures fields { OnOk result
        (out.new ≡ after_fields out.old (fields_with message.now (body.Notification notified.now))) }
    ensures sound { OnOk result (IsNotified notified.now) }
{
    out.put_text("call", "AcceptNotification")?;
    put_numbers(out, "codes", notified.codes())?;
    put_node(alloc, out, "from", message.from)?;
    out.put_text("status", notified.status().name())?;
    put_node(alloc, out, "to", message.to)?;
    put_id(alloc, out, "transaction", message.id)
}

/// The fields of a message with a request.
fn put_request(alloc: Global, out: &mut JsonText, message: &Message) -> Result<(), NoMemory>
    ensures { OnOk result (out.new ≡ after_fields out.old (fields_with message.now body.Request)) }
{
    out.put_text("call", "RequestCancellation")?;
    put_node(alloc, out, "from", message.from)?;
    put_node(alloc, out, "to", message.to)?;
    put_id(alloc, out, "transaction", message.id)
}

/// The fields of a message.
fn put_message(alloc: Global, out: &mut JsonText, message: &Message) -> Result<(), NoMemory>
    ensures fields { OnOk result (out.new ≡ after_fields out.old (message_fields message.now)) }
    ensures sound { OnOk result (IsSound message.now.body) }
{
    match &message.body {
        Body::Proposal(proposal) => put_proposal(alloc, out, message, proposal),
        Body::Notification(notified) => put_notification(alloc, out, message, notified),
        Body::Request => put_request(alloc, out, message),
    }
}

/// Writes a message.
pub(crate) fn write_message(
    alloc: Global,
    out: &mut JsonText,
    message: &Message,
) -> Result<(), NoMemory>
    ensures tokens { OnOk result (out.new ≡ out.old ++ data_tokens (message_data message.now)) }
    ensures sound { OnOk result (IsSound message.now.body) }
{
    out.begin_object()?;
    put_message(alloc, out, message)?;
    out.end_object()
}

/// The text of a message: compact JSON, keys in byte order, no newline, at most 8,192 bytes. Fails with `NoMemory` if
/// an allocation was refused.
pub fn encode(alloc: Global, message: &Message) -> Result<Vec<u8>, NoMemory>
    ensures text { IfOk result (λ v. v.items ≡ message_text message.now) }
    ensures line { IfOk result (λ v. IsLine v.items message.now) }
{
    let mut out = JsonText::new(alloc)?;
    write_message(alloc, &mut out, message)?;
    Ok(out.into_bytes())
}
