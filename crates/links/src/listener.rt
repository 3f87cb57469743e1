//! Connections that are accepted.
ghost use Rattle.std.specs.Prelude.{◌≡◌, IfOk};

use crate::tagged::Tagged;
use sessions::{Accepted, Listen};
use std::alloc::Global;
use std::sync::{Arc, OnceLock};
use tagged_lines::{MessageCell, OpeningReader, ReplyWriter};
use tags::Keys;
use units::{NoMemory, Node};

/// The two directions of a connection that `node` accepted, over those of an inner connection.
fn accepted<'k, R: Drop, W: Drop>(
    alloc: Global,
    keys: &'k Keys,
    node: Node,
    reader: R,
    writer: W,
) -> Result<(OpeningReader<'k, R>, ReplyWriter<'k, W>), NoMemory>
    ensures reader { IfOk result (λ ends. (ends.0.inner ≡ reader) × (ends.0.keys ≡ keys.now) × (ends.0.node ≡ node)) }
    ensures writer { IfOk result (λ ends. ends.1 ≡ writer) }
{
    let cell: MessageCell<'k> = Arc::new(alloc, OnceLock::new())?;
    let heard = Arc::try_clone(&cell)?;
    let reader = OpeningReader::new(alloc, reader, keys, node, cell)?;
    let writer = ReplyWriter::new(alloc, writer, heard)?;
    Ok((reader, writer))
}

impl<'k, L: Listen> Listen for Tagged<'k, L> {
    type Reader = OpeningReader<'k, L::Reader>;

    type Writer = ReplyWriter<'k, L::Writer>;

    fn accept(&self) -> Accepted<OpeningReader<'k, L::Reader>, ReplyWriter<'k, L::Writer>> {
        match self.inner.accept() {
            Accepted::Connection(reader, writer) => {
                match accepted(self.alloc, self.keys, self.node, reader, writer) {
                    Ok((reader, writer)) => Accepted::Connection(reader, writer),
                    Err(NoMemory) => Accepted::Failed,
                }
            }
            Accepted::Nobody => Accepted::Nobody,
            Accepted::Failed => Accepted::Failed,
        }
    }

    fn stop(&self) {
        self.inner.stop();
    }

    fn begin(&self) {
        self.inner.begin();
    }
}
