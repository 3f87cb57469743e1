//! A key that two nodes share.
ghost use Rattle.std.specs.Prelude.{◌≡◌, ◌≤◌, bytes_eq};
ghost use Rattle.units.specs.Code.{node_text};
ghost use Rattle.tags.specs.Tags.{message_tag, reply_tag};

use crate::hashing::hmac;
use crate::tag::Tag;
use std::marker::Model;
use units::Node;

/// How many bytes a key has.
pub const KEY_BYTES: usize = 32;

/// The name of a node as bytes: the first `len` of these.
#[derive(Drop)]
struct Name {
    bytes: [u8; 3],
    len: usize,
    ghost short: { len ≤ 3 },
}

impl Model for Name {
    ghost use Rattle.std.specs.Prelude.{ℕ, List, take};

    ghost Value = { List ℕ };

    ghost view = { λ n. take n.len n.bytes };
}

impl Name {
    fn of(node: Node) -> Name
        ensures { result ≡ node_text node }
    {
        match node {
            Node::Itl => Name {
                bytes: *b"ITL",
                len: 3,
            },
            Node::Registry(code) => Name {
                bytes: [code.first, code.second, 0],
                len: 2,
            },
        }
    }

    fn as_slice(&self) -> &[u8]
        ensures { result.now ≡ self.now }
    {
        &self.bytes[..self.len]
    }
}

/// A key that two nodes share. It has no `Debug`, which would print it.
#[derive(Drop)]
pub struct Key {
    bytes: [u8; KEY_BYTES],
}

impl Model for Key {
    ghost use Rattle.std.specs.Prelude.{ℕ, List};

    ghost Value = { List ℕ };

    ghost view = { λ k. k.bytes };
}

impl Key {
    /// The key of those bytes.
    pub fn new(bytes: [u8; KEY_BYTES]) -> Key
        ensures { result ≡ bytes }
    {
        Key { bytes }
    }

    /// Whether both are the same key.
    pub(crate) fn is_same(&self, other: &Key) -> bool
        ensures { result ≡ bytes_eq self.now other.now }
    {
        self.bytes == other.bytes
    }

    /// The tag of a message from one node to another, whose line without its newline is `text`: the HMAC-SHA-256
    /// (RFC 2104) of `FROM SPACE TO SPACE TEXT`.
    pub fn message_tag(&self, from: Node, to: Node, text: &[u8]) -> Tag
        ensures { result ≡ message_tag self.now from to text.now }
    {
        let from = Name::of(from);
        let to = Name::of(to);
        let parts = [from.as_slice(), b" ", to.as_slice(), b" ", text];
        Tag::new(hmac(&self.bytes, &parts))
    }

    /// The tag of the reply to a message from one node to another: the HMAC-SHA-256 (RFC 2104) of
    /// `TO SPACE FROM SPACE TEXT NEWLINE REPLY`, where `text` is the message's line and `reply` that of the reply, both
    /// without their newlines.
    pub fn reply_tag(&self, from: Node, to: Node, text: &[u8], reply: &[u8]) -> Tag
        ensures { result ≡ reply_tag self.now from to text.now reply.now }
    {
        let sender = Name::of(to);
        let receiver = Name::of(from);
        let parts = [
            sender.as_slice(),
            b" ",
            receiver.as_slice(),
            b" ",
            text,
            b"\n",
            reply,
        ];
        Tag::new(hmac(&self.bytes, &parts))
    }
}
