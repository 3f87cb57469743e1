//! Connections that are made.
ghost use Rattle.std.specs.Prelude.{◌≡◌, IfOk, Some};
ghost use Rattle.tags.specs.Keys.{key_of};

use crate::tagged::Tagged;
use sessions::Dial;
use std::alloc::Global;
use std::sync::{Arc, OnceLock};
use tagged_lines::{CheckingReader, MessageCell, MessageWriter};
use tags::Key;
use units::{NoMemory, Node};

/// The two directions of a connection from one node to another, over those of an inner connection.
fn made<'k, R: Drop, W: Drop>(
    alloc: Global,
    key: &'k Key,
    from: Node,
    to: Node,
    reader: R,
    writer: W,
) -> Result<(CheckingReader<'k, R>, MessageWriter<'k, W>), NoMemory>
    ensures reader { IfOk result (λ ends. ends.0 ≡ reader) }
    ensures writer { IfOk result
        (λ ends. ends.1 ≡ record { inner = writer; key = key.now; from = from; to = to }) }
{
    let cell: MessageCell<'k> = Arc::new(alloc, OnceLock::new())?;
    let sent = Arc::try_clone(&cell)?;
    let reader = CheckingReader::new(alloc, reader, cell)?;
    let writer = MessageWriter::new(alloc, writer, key, from, to, sent)?;
    Ok((reader, writer))
}

impl<'k, D: Dial> Dial for Tagged<'k, D> {
    type Reader = CheckingReader<'k, D::Reader>;

    type Writer = MessageWriter<'k, D::Writer>;

    // The connection below leads to the peer, and the message goes there from the dialer's node, under the key that it
    // shares with the peer.
    ghost leads = { λ d peer reader writer. D.leads d.inner peer reader writer.inner × (writer.to ≡ peer)
        × (writer.from ≡ d.node) × (key_of d.keys.now peer ≡ Some writer.key) };

    fn connect(
        &self,
        peer: Node,
    ) -> Option<(CheckingReader<'k, D::Reader>, MessageWriter<'k, D::Writer>)> {
        let key = self.keys.key_of(peer)?;
        let (reader, writer) = self.inner.connect(peer)?;
        made(self.alloc, key, self.node, peer, reader, writer).ok()
    }

    fn stop(&self) {
        self.inner.stop();
    }

    fn begin(&self) {
        self.inner.begin();
    }
}
