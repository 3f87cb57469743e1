//! The messages that an acquirer sends.
ghost use Rattle.std.specs.Prelude.{◌≡◌, IfOk};
ghost use Rattle.protocol.specs.Deciding.{column_of_proposal};
ghost use Rattle.protocol.specs.Effects.{acquirer_sends};
ghost use Rattle.checks.specs.Finding.{codes_in};
ghost use Rattle.std.specs.Prelude.{None};

use protocol::one_message;
use protocol::wire::{AcquirerCodes, Body, Message, NotifiedStatus};
use status::TransactionId;
use std::alloc::Global;
use units::{Code, Items, NoMemory, Node};

/// The message after a proposal, by its findings: Accepted to the log, or Rejected with the codes.
pub(crate) fn on_proposal(
    alloc: Global,
    code: Code,
    id: TransactionId,
    found: Option<AcquirerCodes>,
) -> Result<Items<Message>, NoMemory>
    ensures { IfOk result (λ messages. messages ≡ acquirer_sends code id (codes_in found) (column_of_proposal None
        (codes_in found))) }
{
    let notified = match found {
        None => NotifiedStatus::Accepted,
        Some(codes) => NotifiedStatus::Rejected(codes),
    };
    let message = Message {
        from: Node::Registry(code),
        to: Node::Itl,
        id,
        body: Body::Notification(notified),
    };
    one_message(alloc, message)
}
