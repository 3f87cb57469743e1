//! The messages that the log sends.
ghost use Rattle.std.specs.Prelude.{◌≡◌, [], ◌∷◌, ◌++◌, Some, None, IfOk, OnOk, option_copied};
ghost use Rattle.checks.specs.Finding.{codes_in};
ghost use Rattle.protocol.specs.Deciding.{column_of_proposal};
ghost use Rattle.protocol.specs.Effects.{log_sends, notifies};
ghost use Rattle.units.specs.declared.code.Node.TheVariants as nodes;
ghost use Rattle.status.specs.declared.rows.RowInput.TheVariants as column;
ghost use Rattle.wire.specs.NotifiedStatuses.{notified_codes, notified_status};

use protocol::one_message;
use status::{Content, TransactionId};
use std::alloc::Global;
use units::{Code, Items, NoMemory, Node};
use wire::{Body, LogCodes, Message, NotifiedStatus, Proposal, ProposalStatus};

/// The notification to that registry.
fn notification(registry: Code, id: TransactionId, notified: NotifiedStatus) -> Message
    ensures { result ≡ notifies nodes.Itl (nodes.Registry registry) id notified }
{
    Message {
        from: Node::Itl,
        to: Node::Registry(registry),
        id,
        body: Body::Notification(notified),
    }
}

/// The message after a proposal, by its findings: the proposal as Checked to the acquirer, or Terminated with the codes
/// to the initiator.
pub(crate) fn on_proposal(
    alloc: Global,
    id: TransactionId,
    content: &Content,
    found: Option<LogCodes>,
) -> Result<Items<Message>, NoMemory>
    ensures { IfOk result (λ messages. messages ≡ log_sends id (Some content.now) (codes_in found)
        (column_of_proposal None (codes_in found))) }
{
    if let Some(codes) = found {
        return one_message(
            alloc,
            notification(id.code, id, NotifiedStatus::Terminated(codes)),
        );
    }
    let proposal = Proposal {
        status: ProposalStatus::Checked,
        content: content.copy()?,
    };
    let message = Message {
        from: Node::Itl,
        to: Node::Registry(content.acquirer()),
        id,
        body: Body::Proposal(proposal),
    };
    one_message(alloc, message)
}

/// The message after a notification: Accepted and Rejected go to the initiator, and Completed to the acquirer.
pub(crate) fn on_notified(
    alloc: Global,
    id: TransactionId,
    content: Option<&Content>,
    notified: &NotifiedStatus,
) -> Result<Items<Message>, NoMemory>
    ensures { IfOk result (λ messages. messages ≡ log_sends id (option_copied content.entry)
        (notified_codes notified.now) (column.Notified (notified_status notified.now))) }
{
    match (notified, content) {
        (NotifiedStatus::Accepted, _) => one_message(
            alloc,
            notification(id.code, id, NotifiedStatus::Accepted),
        ),
        (NotifiedStatus::Rejected(codes), _) => {
            let notified = NotifiedStatus::Rejected(codes.copy()?);
            one_message(alloc, notification(id.code, id, notified))
        }
        (NotifiedStatus::Completed, Some(content)) => one_message(
            alloc,
            notification(content.acquirer(), id, NotifiedStatus::Completed),
        ),
        _ => Ok(Items::new(alloc)),
    }
}

/// Adds the messages after a cancellation: Cancelled to the initiator, and then to the acquirer, where that is known.
pub(crate) fn push_cancelled(
    messages: &mut Vec<Message>,
    id: TransactionId,
    content: Option<&Content>,
) -> Result<(), NoMemory>
    ensures { OnOk result (messages.new.items ≡ messages.old.items ++ log_sends id (option_copied content.entry)
        [] column.CleanUp) }
{
    messages.push(notification(id.code, id, NotifiedStatus::Cancelled))?;
    if let Some(content) = content {
        messages.push(notification(content.acquirer(), id, NotifiedStatus::Cancelled))?;
    }
    Ok(())
}

/// The messages after a request: the same as after a cancellation.
pub(crate) fn on_request(
    alloc: Global,
    id: TransactionId,
    content: Option<&Content>,
) -> Result<Items<Message>, NoMemory>
    ensures { IfOk result (λ messages. messages ≡ log_sends id (option_copied content.entry) [] column.Request) }
{
    let mut messages = Vec::new(alloc);
    push_cancelled(&mut messages, id, content)?;
    Ok(Items::from_vec(messages))
}
