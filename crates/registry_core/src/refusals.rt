//! Refusals of messages by a registry, before its tables are consulted.
ghost use Rattle.std.specs.Prelude.{◌≡◌, ◌&&◌, ◌||◌, not, false, List};
ghost use Rattle.std.specs.FinMap as map;
ghost use Rattle.units.specs.Code.{same_code};
ghost use Rattle.status.specs.Status.{same_status};
ghost use Rattle.status.specs.declared.id.TransactionId.{TransactionId as Id};
ghost use Rattle.status.specs.declared.status.Status.TheVariants as statuses;
ghost use Rattle.wire.specs.declared.message.Body.TheVariants as body;
ghost use Rattle.protocol.specs.AtRegistry.{is_checked, registry_body_refusals, registry_refusals};
ghost use Rattle.protocol.specs.Deciding as deciding;
ghost use Rattle.protocol.specs.History.{Entry, newest, transitions_of};
ghost use Rattle.protocol.specs.History as history;
ghost use Rattle.protocol.specs.Pieces.{pieces, repeats};
ghost use Rattle.checks.specs.Refusing.{first_of};
ghost use Rattle.registry_core.specs.Readings.{foreign_row, is_foreign, is_own, own_row, row_at};

use acquirer::Acquirer;
use checks::has_repeats;
use initiator::Initiator;
use protocol::{is_log, is_registry};
use status::{Content, Status, TransactionId};
use units::Code;
use units::refusal_code::{
    NO_ROW, OTHER_ADDRESSEE, OTHER_CONTENT, SENDER_NOT_ALLOWED, UNKNOWN_TRANSACTION, WRONG_PARTY,
};
use wire::{Body, Message, NotifiedStatus, Proposal, ProposalStatus};

/// Whether the log has checked the proposal.
fn is_checked(status: ProposalStatus) -> bool
    ensures { result ≡ is_checked status }
{
    match status {
        ProposalStatus::Proposed => false,
        ProposalStatus::Checked => true,
    }
}

/// Whether the transfer isn't one to the registry from another one, or has a unit twice.
fn is_wrong_party(code: Code, id: TransactionId, content: &Content) -> bool
    ensures { result ≡ (not (same_code content.now.acquirer code) ||
        (same_code id.code code || repeats (pieces content.now.units))) }
{
    content.acquirer() != code || id.code == code || has_repeats(content.units())
}

/// Whether the transfer of another registry has another content than that one.
fn has_other(acquirer: &Acquirer, id: TransactionId, content: &Content) -> bool
    ensures { (code : Code) (es : List Entry) → ((t : Id)
        → map.get acquirer.now.transfers t ≡ row_at (is_foreign code) foreign_row (transitions_of es) t)
        → same_code id.code code ≡ false → result ≡ deciding.has_other (newest (transitions_of es) id) content.now }
{
    match acquirer.content(id) {
        Some(recorded) => !recorded.same(content),
        None => false,
    }
}

/// Whether a record is about the transaction.
fn is_known(code: Code, initiator: &Initiator, acquirer: &Acquirer, id: TransactionId) -> bool
    ensures { (es : List Entry) → ((t : Id)
        → map.get initiator.now.transfers t ≡ row_at (is_own code) (own_row es) (transitions_of es) t)
        → ((t : Id) → map.get acquirer.now.transfers t ≡ row_at (is_foreign code) foreign_row (transitions_of es) t)
        → result ≡ history.is_known (transitions_of es) id }
{
    if id.code == code {
        initiator.status_of(id).is_some()
    } else {
        acquirer.status_of(id).is_some()
    }
}

/// Whether a notification of that status means that a transfer of another registry is Cancelled.
fn forestalls(code: Code, id: TransactionId, told: Status) -> bool
    ensures { result ≡ (same_status told statuses.Cancelled && not (same_code id.code code)) }
{
    told == Status::Cancelled && id.code != code
}

/// The code with which a registry refuses that proposal from the log before its table is consulted; `None` where it
/// doesn't.
fn proposal_refusal(
    code: Code,
    acquirer: &Acquirer,
    id: TransactionId,
    proposal: &Proposal,
) -> Option<u16>
    ensures { (es : List Entry) → ((t : Id)
        → map.get acquirer.now.transfers t ≡ row_at (is_foreign code) foreign_row (transitions_of es) t)
        → result ≡ first_of (registry_body_refusals code es id (body.Proposal proposal.now)) }
{
    if is_wrong_party(code, id, &proposal.content) {
        return Some(WRONG_PARTY);
    }
    if has_other(acquirer, id, &proposal.content) {
        return Some(OTHER_CONTENT);
    }
    if !is_checked(proposal.status) {
        return Some(NO_ROW);
    }
    None
}

/// The code with which a registry refuses that notification from the log before its tables are consulted; `None` where
/// it doesn't.
fn notification_refusal(
    code: Code,
    initiator: &Initiator,
    acquirer: &Acquirer,
    id: TransactionId,
    notified: &NotifiedStatus,
) -> Option<u16>
    ensures { (es : List Entry) → ((t : Id)
        → map.get initiator.now.transfers t ≡ row_at (is_own code) (own_row es) (transitions_of es) t)
        → ((t : Id) → map.get acquirer.now.transfers t ≡ row_at (is_foreign code) foreign_row (transitions_of es) t)
        → result ≡ first_of (registry_body_refusals code es id (body.Notification notified.now)) }
{
    if is_known(code, initiator, acquirer, id) || forestalls(code, id, notified.status()) {
        return None;
    }
    Some(UNKNOWN_TRANSACTION)
}

/// The code with which a registry refuses a message before its tables are consulted; `None` where it doesn't.
pub(crate) fn message_refusal(
    code: Code,
    initiator: &Initiator,
    acquirer: &Acquirer,
    message: &Message,
) -> Option<u16>
    ensures { (es : List Entry) → ((t : Id)
        → map.get initiator.now.transfers t ≡ row_at (is_own code) (own_row es) (transitions_of es) t)
        → ((t : Id) → map.get acquirer.now.transfers t ≡ row_at (is_foreign code) foreign_row (transitions_of es) t)
        → result ≡ first_of (registry_refusals code es message.now) }
{
    if !is_registry(message.to, code) {
        return Some(OTHER_ADDRESSEE);
    }
    if !is_log(message.from) {
        return Some(SENDER_NOT_ALLOWED);
    }
    let id = message.id;
    match &message.body {
        Body::Proposal(proposal) => proposal_refusal(code, acquirer, id, proposal),
        Body::Notification(notified) => {
            notification_refusal(code, initiator, acquirer, id, notified)
        }
        Body::Request => None,
    }
}
