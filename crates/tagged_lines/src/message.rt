//! A message with the key of its tag.
ghost use Rattle.std.specs.Prelude.{◌≡◌};
ghost use Rattle.tagged_lines.specs.Sent.{tag_of, reply_tag_of};

use std::alloc::Global;
use std::marker::Model;
use std::sync::{Arc, OnceLock};
use tags::{Key, Tag};
use units::Node;

/// A message from one node to another, with the key that they share.
#[derive(Drop)]
pub struct KeyedMessage<'k> {
    key: &'k Key,
    from: Node,
    to: Node,
    text: Vec<u8>,
}

/// The cell in which the reader and the writer of a connection share the message that went over it, once one has set
/// it.
pub type MessageCell<'k> = Arc<OnceLock<KeyedMessage<'k>>>;

impl<'k> Model for KeyedMessage<'k> {
    ghost use Rattle.tagged_lines.specs.Views.{MessageView};

    ghost Value = { MessageView };

    ghost view = { λ m. record { key = m.key.now; from = m.from; to = m.to; text = m.text.items } };
}

impl<'k> KeyedMessage<'k> {
    /// The message of that text, a line without its newline.
    pub(crate) fn new(key: &'k Key, from: Node, to: Node, text: Vec<u8>) -> KeyedMessage<'k>
        ensures { result ≡ record { key = key.now; from = from; to = to; text = text.items } }
    {
        KeyedMessage {
            key,
            from,
            to,
            text,
        }
    }

    /// Its text.
    pub(crate) fn text(&self) -> &[u8]
        ensures { result.now ≡ self.now.text }
    {
        self.text.as_slice()
    }

    /// Its tag.
    pub(crate) fn tag(&self) -> Tag
        ensures { result ≡ tag_of self.now }
    {
        self.key
            .message_tag(self.from, self.to, self.text.as_slice())
    }

    /// The tag of a reply to it.
    pub(crate) fn reply_tag(&self, reply: &[u8]) -> Tag
        ensures { result ≡ reply_tag_of self.now reply.now }
    {
        self.key
            .reply_tag(self.from, self.to, self.text.as_slice(), reply)
    }
}
