//! The messages that aren't acknowledged, by the node that they go to.
ghost use Rattle.std.specs.Prelude.{◌≡◌, ◌+◌, ◌^◌, ◌<◌, ◌≤◌, ◌||◌, ◌&&◌, not, false, drop, length, OnOk, OnErr};
ghost use Rattle.std.specs.BTreeSet.{contains};
ghost use Rattle.records.specs.Awaiting.{among, unacknowledged_cmp, unacknowledged_of};
ghost use Rattle.records.specs.declared.unacknowledged.Unacknowledged.{Unacknowledged};

use crate::unacknowledged::Unacknowledged;
use std::collections::BTreeSet;
use units::{NoMemory, Node};
use wire::Message;

/// The message with that key, which goes to that node.
pub(crate) fn unacknowledged_of(node: Node, key: usize) -> Unacknowledged
    ensures { result ≡ unacknowledged_of node key }
{
    match node {
        Node::Itl => Unacknowledged {
            registry: None,
            key,
        },
        Node::Registry(code) => Unacknowledged {
            registry: Some(code),
            key,
        },
    }
}

/// Takes these messages out. Their keys go up from `start`. Takes no memory.
pub(crate) fn forget_all(
    unacknowledged: &mut BTreeSet<Unacknowledged>,
    start: usize,
    messages: &[Message],
)
    requires { start + length messages.now < 2 ^ 64 }
    ensures { (q : Unacknowledged) → contains unacknowledged_cmp unacknowledged.new q
        ≡ (contains unacknowledged_cmp unacknowledged.old q && not (among start messages.now q)) }
{
    for (i, message) in messages.iter().enumerate() {
        unacknowledged.remove(&unacknowledged_of(message.to, start + i));
    }
}

/// Takes out the messages from key `start` on. Takes no memory.
pub(crate) fn forget_from(
    unacknowledged: &mut BTreeSet<Unacknowledged>,
    start: usize,
    messages: &[Message],
)
    requires { start ≤ length messages.now }
    ensures { (q : Unacknowledged) → contains unacknowledged_cmp unacknowledged.new q
        ≡ (contains unacknowledged_cmp unacknowledged.old q && not (among start (drop start messages.now) q)) }
{
    forget_all(unacknowledged, start, &messages[start..]);
}

/// Puts these messages in. Their keys go up from `start`, above all keys that are there. After `NoMemory` nothing has
/// changed.
pub(crate) fn await_all(
    unacknowledged: &mut BTreeSet<Unacknowledged>,
    start: usize,
    messages: &[Message],
) -> Result<(), NoMemory>
    requires fits { start + length messages.now < 2 ^ 64 }
    requires above { (q : Unacknowledged) → start ≤ q.key → contains unacknowledged_cmp unacknowledged.old q ≡ false }
    ensures ok { OnOk result ((q : Unacknowledged) → contains unacknowledged_cmp unacknowledged.new q
        ≡ (contains unacknowledged_cmp unacknowledged.old q || among start messages.now q)) }
    ensures err { OnErr result ((q : Unacknowledged)
        → contains unacknowledged_cmp unacknowledged.new q ≡ contains unacknowledged_cmp unacknowledged.old q) }
{
    for (i, message) in messages.iter().enumerate() {
        if unacknowledged
            .insert(unacknowledged_of(message.to, start + i))
            .is_err()
        {
            forget_all(unacknowledged, start, &messages[..i]);
            return Err(NoMemory);
        }
    }
    Ok(())
}
