//! Refusals of messages by the log, before its table is consulted.
ghost use Rattle.std.specs.Prelude.{◌≡◌, List, option_copied, option_map};
ghost use Rattle.status.specs.declared.id.TransactionId.{TransactionId as Id};
ghost use Rattle.wire.specs.declared.message.Body.TheVariants as body;
ghost use Rattle.protocol.specs.AtLog as log;
ghost use Rattle.protocol.specs.AtLog.{log_body_refusals, log_refusals};
ghost use Rattle.protocol.specs.Deciding as deciding;
ghost use Rattle.protocol.specs.History as history;
ghost use Rattle.protocol.specs.History.{Entry, newest, transitions_of};
ghost use Rattle.checks.specs.Refusing.{first_of};
ghost use Rattle.log_core.specs.Readings.{of_transition};
ghost use Rattle.log_core.specs.Transfers.{transfer_state_of};

use crate::registries::is_member;
use crate::transfer::LoggedTransfer;
use crate::transfers::{content, status};
use protocol::{is_log, is_registry};
use scheme::Scheme;
use status::{Content, Status, TransactionId};
use std::collections::BTreeMap;
use units::Node;
use units::refusal_code::{
    NO_ROW, OTHER_ADDRESSEE, OTHER_CONTENT, SENDER_NOT_ALLOWED, UNKNOWN_TRANSACTION, WRONG_PARTY,
};
use wire::{Body, Message, NotifiedStatus, Proposal, ProposalStatus};

/// Whether the node is no registry of the scheme.
fn is_no_registry(scheme: &Scheme, node: Node) -> bool
    ensures { result ≡ log.is_no_registry scheme.now node }
{
    match node {
        Node::Itl => true,
        Node::Registry(code) => !is_member(scheme, code),
    }
}

/// Whether an initiator has proposed it.
fn is_proposed(status: ProposalStatus) -> bool
    ensures { result ≡ log.is_proposed status }
{
    match status {
        ProposalStatus::Proposed => true,
        ProposalStatus::Checked => false,
    }
}

/// Whether a transaction has another content than that one.
fn has_other(
    transfers: &BTreeMap<TransactionId, LoggedTransfer>,
    id: TransactionId,
    other: &Content,
) -> bool
    ensures { (es : List Entry)
        → transfer_state_of transfers.now id ≡ option_map of_transition (newest (transitions_of es) id)
        → result ≡ deciding.has_other (newest (transitions_of es) id) other.now }
{
    match content(transfers, id) {
        Some(recorded) => !recorded.same(other),
        None => false,
    }
}

/// Whether a record is about the transaction.
fn is_known(transfers: &BTreeMap<TransactionId, LoggedTransfer>, id: TransactionId) -> bool
    ensures { (es : List Entry)
        → transfer_state_of transfers.now id ≡ option_map of_transition (newest (transitions_of es) id)
        → result ≡ history.is_known (transitions_of es) id }
{
    status(transfers, id).is_some()
}

/// Whether the node isn't the acquirer of that content.
fn is_not_acquirer(from: Node, content: Option<&Content>) -> bool
    ensures { result ≡ log.is_not_acquirer from (option_copied content.entry) }
{
    match content {
        Some(content) => !is_registry(from, content.acquirer()),
        None => true,
    }
}

/// Whether a notification of that status comes from another node than the one that decides on it.
fn is_from_another(from: Node, id: TransactionId, content: Option<&Content>, told: Status) -> bool
    ensures { result ≡ log.is_from_another from id (option_copied content.entry) told }
{
    match told {
        Status::Accepted | Status::Rejected => is_not_acquirer(from, content),
        Status::Completed => !is_registry(from, id.code),
        _ => false,
    }
}

/// The code with which the log refuses that proposal from a registry before its table is consulted; `None` where it
/// doesn't.
fn proposal_refusal(
    transfers: &BTreeMap<TransactionId, LoggedTransfer>,
    from: Node,
    id: TransactionId,
    proposal: &Proposal,
) -> Option<u16>
    ensures { (es : List Entry) → ((t : Id)
        → transfer_state_of transfers.now t ≡ option_map of_transition (newest (transitions_of es) t))
        → result ≡ first_of (log_body_refusals es from id (body.Proposal proposal.now)) }
{
    if !is_registry(from, id.code) {
        return Some(WRONG_PARTY);
    }
    if has_other(transfers, id, &proposal.content) {
        return Some(OTHER_CONTENT);
    }
    if !is_proposed(proposal.status) {
        return Some(NO_ROW);
    }
    None
}

/// The code with which the log refuses that notification from a registry before its table is consulted; `None` where it
/// doesn't.
fn notification_refusal(
    transfers: &BTreeMap<TransactionId, LoggedTransfer>,
    from: Node,
    id: TransactionId,
    notified: &NotifiedStatus,
) -> Option<u16>
    ensures { (es : List Entry) → ((t : Id)
        → transfer_state_of transfers.now t ≡ option_map of_transition (newest (transitions_of es) t))
        → result ≡ first_of (log_body_refusals es from id (body.Notification notified.now)) }
{
    if !is_known(transfers, id) {
        return Some(UNKNOWN_TRANSACTION);
    }
    if is_from_another(from, id, content(transfers, id), notified.status()) {
        return Some(WRONG_PARTY);
    }
    None
}

/// The code with which the log refuses a request about that transaction from a registry before its table is consulted;
/// `None` where it doesn't.
fn request_refusal(from: Node, id: TransactionId) -> Option<u16>
    ensures { (es : List Entry) → result ≡ first_of (log_body_refusals es from id body.Request) }
{
    if is_registry(from, id.code) {
        None
    } else {
        Some(WRONG_PARTY)
    }
}

/// The code with which the log refuses a message before its table is consulted; `None` where it doesn't.
pub(crate) fn message_refusal(
    scheme: &Scheme,
    transfers: &BTreeMap<TransactionId, LoggedTransfer>,
    message: &Message,
) -> Option<u16>
    ensures { (es : List Entry) → ((t : Id)
        → transfer_state_of transfers.now t ≡ option_map of_transition (newest (transitions_of es) t))
        → result ≡ first_of (log_refusals scheme.now es message.now) }
{
    let (from, id) = (message.from, message.id);
    if !is_log(message.to) {
        return Some(OTHER_ADDRESSEE);
    }
    if is_no_registry(scheme, from) {
        return Some(SENDER_NOT_ALLOWED);
    }
    match &message.body {
        Body::Proposal(proposal) => proposal_refusal(transfers, from, id, proposal),
        Body::Notification(notified) => notification_refusal(transfers, from, id, notified),
        Body::Request => request_refusal(from, id),
    }
}
