//! Making and accepting connections whose messages and replies have tags.
ghost use Rattle.std.specs.Prelude.{◌≡◌};

use std::alloc::Global;
use tags::Keys;
use units::Node;

/// Makes connections of a node, or accepts them, as `C` does. One message goes over each, with a tag under the key that
/// the node shares with its peer, and the reply to it has a tag too.
///
/// - On a connection that is made, the writer puts the message's tag before it, and the reader returns the reply if its
///   tag is right, and fails otherwise. No connection is made with a node with which no key is shared, and none if
///   memory runs out.
/// - On a connection that is accepted, the reader returns the message if its tag is right, and an empty line otherwise;
///   the writer puts a tag before the reply to a message whose tag is right. Accepting a connection fails if memory
///   runs out.
#[derive(Drop)]
pub struct Tagged<'k, C> {
    pub(crate) inner: C,
    pub(crate) keys: &'k Keys,
    pub(crate) node: Node,
    pub(crate) alloc: Global,
}

impl<'k, C> Tagged<'k, C> {
    /// Makes or accepts connections of `node` as `inner` does, under these keys.
    pub fn new(inner: C, keys: &'k Keys, node: Node, alloc: Global) -> Tagged<'k, C>
        ensures inner { result.inner ≡ inner }
        ensures keys { result.keys ≡ keys.entry }
        ensures node { result.node ≡ node }
    {
        Tagged {
            inner,
            keys,
            node,
            alloc,
        }
    }
}
