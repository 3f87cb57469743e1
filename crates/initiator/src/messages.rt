//! The messages that an initiator sends.
ghost use Rattle.std.specs.Prelude.{◌≡◌, ◌⊎◌, Option, IfOk, Some};
ghost use Rattle.protocol.specs.Effects.{initiator_sends};
ghost use Rattle.status.specs.Content.{Content as Terms};
ghost use Rattle.status.specs.declared.rows.RowInput.TheVariants as words;
ghost use Rattle.units.specs.declared.code.Node.TheVariants.{Itl, Registry};

use protocol::one_message;
use protocol::wire::{Body, Message, NotifiedStatus, Proposal, ProposalStatus};
use status::{Content, RowInput, Status, TransactionId};
use std::alloc::Global;
use units::{Code, Items, NoMemory, Node};

/// The message to the log with that body.
fn to_log(code: Code, id: TransactionId, body: Body) -> Message
    ensures { result ≡ record { from = Registry code; to = Itl; id = id; body = body } }
{
    Message {
        from: Node::Registry(code),
        to: Node::Itl,
        id,
        body,
    }
}

/// The proposal to the log.
pub(crate) fn on_proposing(
    alloc: Global,
    code: Code,
    id: TransactionId,
    content: &Content,
) -> Result<Items<Message>, NoMemory>
    ensures { IfOk result (λ messages. messages ≡ initiator_sends code id (Some content.now) words.Propose) }
{
    let proposal = Proposal {
        status: ProposalStatus::Proposed,
        content: content.copy()?,
    };
    one_message(alloc, to_log(code, id, Body::Proposal(proposal)))
}

/// The messages after an order to ask for cancellation: a request to the log after the first one.
pub(crate) fn on_request(
    alloc: Global,
    code: Code,
    id: TransactionId,
    column: RowInput,
) -> Result<Items<Message>, NoMemory>
    requires { (column ≡ words.RequestOrder) ⊎ (column ≡ words.RepeatedRequestOrder) }
    ensures { (content : Option Terms) → IfOk result (λ messages. messages ≡ initiator_sends code id content column) }
{
    if column != RowInput::RequestOrder {
        return Ok(Items::new(alloc));
    }
    one_message(alloc, to_log(code, id, Body::Request))
}

/// The messages after a notification of that status: Completed to the log after Accepted, and none after any other.
pub(crate) fn on_notified(
    alloc: Global,
    code: Code,
    id: TransactionId,
    told: Status,
) -> Result<Items<Message>, NoMemory>
    ensures { (content : Option Terms)
        → IfOk result (λ messages. messages ≡ initiator_sends code id content (words.Notified told)) }
{
    if told != Status::Accepted {
        return Ok(Items::new(alloc));
    }
    let completed = Body::Notification(NotifiedStatus::Completed);
    one_message(alloc, to_log(code, id, completed))
}
