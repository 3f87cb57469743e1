//! Words of a peer and of a time.
ghost use Rattle.std.specs.Prelude.{◌≡◌, ◌≤◌, ℕ, IfNone, IfSome};
ghost use Rattle.sockets.specs.Addresses.{NodeAddress};
ghost use Rattle.node_setup.specs.Words.{IsPeerWord, IsSeconds};

use std::net::SocketAddr;
use units::{Node, cut, number};

/// The node that a word names and its address, as in `ITL=127.0.0.1:7000`.
pub(crate) fn read_peer(word: &str) -> Option<(Node, SocketAddr)>
    ensures some { IfSome result (λ peer. IsPeerWord word.now peer) }
    ensures none { IfNone result ((peer : NodeAddress) → IsPeerWord word.now peer → ⊥) }
{
    let (name, text) = cut(word, '=')?;
    let node = Node::read(name)?;
    let address = text.parse::<SocketAddr>().ok()?;
    Some((node, address))
}

/// The number of seconds that a word writes, 1 at least.
pub(crate) fn read_seconds(word: &str) -> Option<u64>
    ensures some { IfSome result (λ seconds. IsSeconds word.now seconds) }
    ensures none { IfNone result ((seconds : ℕ) → IsSeconds word.now seconds → ⊥) }
{
    match number(word)? {
        0 => None,
        seconds => Some(seconds),
    }
}
