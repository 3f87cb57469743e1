//! Reading messages from JSON objects.
ghost use Rattle.std.specs.Prelude.{◌≡◌, ◌↔◌, [], IfSome, IfNone, IsTrue};
ghost use Rattle.serde_json.specs.View.{view};
ghost use Rattle.json_fields.specs.Found.{Finds, Reads};
ghost use Rattle.wire.specs.Messages.{IsMessage};
ghost use Rattle.wire.specs.Reading.{HasBody, HasContent, HasNotified, HasProposalStatus, IsCall, Says};
ghost use Rattle.wire.specs.declared.notified.NotifiedStatus.{NotifiedStatus};

use crate::lists::{blocks, codes};
use crate::values::{code_at, has_text, id_at, node_at, whole_at};
use json_fields::{TextFault, has_keys, text_at};
use serde_json::Value;
use status::{Content, Status};
use std::alloc::Global;
use units::Items;
use wire::{AcquirerCodes, Body, LogCodes, Message, NotifiedStatus, Proposal, ProposalStatus};

/// The content of a proposal.
fn content(alloc: Global, value: &Value) -> Result<Content, TextFault>
    ensures { Finds (HasContent (view value.now)) result }
{
    let account = whole_at(value, "account").ok_or(TextFault::Shape)?;
    let to_account = whole_at(value, "to_account").ok_or(TextFault::Shape)?;
    let acquirer = code_at(value, "to_registry").ok_or(TextFault::Shape)?;
    let units = blocks(alloc, value)?;
    Content::new(account, acquirer, to_account, units).ok_or(TextFault::Shape)
}

/// The status of a proposal.
fn proposal_status(value: &Value) -> Option<ProposalStatus>
    ensures { Reads (HasProposalStatus (view value.now)) result }
{
    if has_text(value, "status", "Proposed") {
        return Some(ProposalStatus::Proposed);
    }
    if has_text(value, "status", "Checked") {
        return Some(ProposalStatus::Checked);
    }
    None
}

/// The status, which must have no codes.
fn without_codes(notified: NotifiedStatus, codes: &[u16]) -> Option<NotifiedStatus>
    ensures some { IfSome result (λ n. (n ≡ notified) × (codes.now ≡ [])) }
    ensures none { IfNone result (codes.now ≡ [] → ⊥) }
{
    if codes.is_empty() {
        Some(notified)
    } else {
        None
    }
}

/// The status of that text and those codes.
fn notified_of(text: &str, codes: Items<u16>) -> Option<NotifiedStatus>
    ensures some { IfSome result (λ n. Says text.now codes n) }
    ensures none { IfNone result ((n : NotifiedStatus) → Says text.now codes n → ⊥) }
{
    match Status::read(text)? {
        Status::Accepted => without_codes(NotifiedStatus::Accepted, codes.as_slice()),
        Status::Rejected => {
            let codes = AcquirerCodes::new(codes)?;
            Some(NotifiedStatus::Rejected(codes))
        }
        Status::Terminated => {
            let codes = LogCodes::new(codes)?;
            Some(NotifiedStatus::Terminated(codes))
        }
        Status::Cancelled => without_codes(NotifiedStatus::Cancelled, codes.as_slice()),
        Status::Completed => without_codes(NotifiedStatus::Completed, codes.as_slice()),
        _ => None,
    }
}

/// The content of a notification.
fn notified(alloc: Global, value: &Value) -> Result<NotifiedStatus, TextFault>
    ensures { Finds (HasNotified (view value.now)) result }
{
    let codes = codes(alloc, value)?;
    let text = text_at(value, "status").ok_or(TextFault::Shape)?;
    notified_of(text, codes).ok_or(TextFault::Shape)
}

fn proposal(alloc: Global, value: &Value) -> Result<Proposal, TextFault>
    ensures { Finds (λ p. HasProposalStatus (view value.now) p.status × HasContent (view value.now) p.content) result }
{
    let status = proposal_status(value).ok_or(TextFault::Shape)?;
    let content = content(alloc, value)?;
    Ok(Proposal { status, content })
}

/// Whether the object has that many keys, and its call has that name.
fn is_call(value: &Value, count: usize, name: &str) -> bool
    ensures { IsTrue result ↔ IsCall (view value.now) count name.now }
{
    has_keys(value, count) && has_text(value, "call", name)
}

/// The content of a message about its transaction.
fn body(alloc: Global, value: &Value) -> Result<Body, TextFault>
    ensures { Finds (HasBody (view value.now)) result }
{
    if is_call(value, 9, "AcceptProposal") {
        return Ok(Body::Proposal(proposal(alloc, value)?));
    }
    if is_call(value, 6, "AcceptNotification") {
        return Ok(Body::Notification(notified(alloc, value)?));
    }
    if is_call(value, 4, "RequestCancellation") {
        return Ok(Body::Request);
    }
    Err(TextFault::Shape)
}

/// The message that the value writes.
pub fn message(alloc: Global, value: &Value) -> Result<Message, TextFault>
    ensures { Finds (IsMessage (view value.now)) result }
{
    let from = node_at(value, "from").ok_or(TextFault::Shape)?;
    let to = node_at(value, "to").ok_or(TextFault::Shape)?;
    let id = id_at(value, "transaction").ok_or(TextFault::Shape)?;
    let body = body(alloc, value)?;
    Ok(Message { from, to, id, body })
}
