//! The messages about one transaction that nodes posted.
ghost use Rattle.std.specs.Prelude.{◌≡◌, ◌∷◌, ◌++◌, [], OnOk};
ghost use Rattle.status.specs.Id.{same_id};
ghost use Rattle.trace.specs.Followed.{acknowledges_one, is_sent, sent_about};

use protocol::Posted;
use status::TransactionId;
use units::{NoMemory, Node};
use wire::Input;

/// A message that a node posted: that node, and the message's key there.
#[derive(Clone, Copy, Debug)]
pub(crate) struct Sent {
    pub node: Node,
    pub key: u64,
}

pub(crate) fn is_same_id(a: TransactionId, b: TransactionId) -> bool
    ensures { result ≡ same_id a b }
{
    a == b
}

/// Adds the message if it is about the transaction.
fn add_one(sent: &mut Vec<Sent>, id: TransactionId, posted: &Posted) -> Result<(), NoMemory>
    ensures { OnOk result (sent.new.items ≡ sent.old.items ++ sent_about id (posted.now ∷ [])) }
{
    if is_same_id(posted.message.id, id) {
        sent.push(Sent {
            node: posted.node,
            key: posted.key,
        })?;
    }
    Ok(())
}

/// Adds those of the messages that are about the transaction.
pub(crate) fn add_sent(
    sent: &mut Vec<Sent>,
    id: TransactionId,
    posted: &[Posted],
) -> Result<(), NoMemory>
    ensures { OnOk result (sent.new.items ≡ sent.old.items ++ sent_about id posted.now) }
{
    for message in posted {
        add_one(sent, id, message)?;
    }
    Ok(())
}

/// Whether the node posted one of these messages with that key.
fn is_sent(sent: &[Sent], node: Node, key: u64) -> bool
    ensures { result ≡ is_sent sent.now node key }
{
    sent.iter().any(|s| s.node == node && s.key == key)
}

/// Whether the input acknowledges one of these messages of the node.
pub(crate) fn acknowledges(sent: &[Sent], node: Node, input: &Input) -> bool
    ensures { result ≡ acknowledges_one sent.now node input.now }
{
    match input {
        Input::Ack(key) => is_sent(sent, node, key.value),
        _ => false,
    }
}
