//! Connections between nodes.
ghost use Rattle.std.specs.Prelude.{IfSome};
ghost use Rattle.units.specs.declared.code.Node.{Node};

use std::io::{Read, Write};
use units::Node;

/// The result of a wait for a connection.
#[derive(Debug, Drop)]
pub enum Accepted<R, W> {
    /// A connection: the bytes that the other end sends, and those that go to it.
    Connection(R, W),
    /// Nobody connected within the time that the listener waits.
    Nobody,
    /// Accepting a connection failed.
    Failed,
}

/// Accepts the connections that others make with a node.
pub trait Listen {
    /// The bytes that the other end sends.
    type Reader: Read + Send + Drop;
    /// The bytes that go to the other end.
    type Writer: Write + Send + Drop;

    /// Waits for a connection, for a limited time, and returns its two directions if there is one. A listener that
    /// waits without a limit would keep a node's threads from ending.
    ///
    /// The reader of an accepted connection may end after a line, if the connection is to be given back.
    fn accept(&self) -> Accepted<Self::Reader, Self::Writer>;

    /// Takes back a connection on which each line got a reply, so that a later `accept` may return it once it has a
    /// line again. A listener that keeps none closes it, as this one does.
    fn give_back(&self, reader: Self::Reader, writer: Self::Writer) {
        drop(reader);
        drop(writer);
    }

    /// From now on no accept waits: one that waits returns soon with `Nobody`, and a further one returns `Nobody` at
    /// once. Either may still return a connection that has come. A listener whose accepts wait for a short time only
    /// need not do anything, as this one doesn't.
    fn stop(&self) {}

    /// Accepts wait again. Undoes the calls of `stop` before it.
    fn begin(&self) {}
}

/// Makes connections with nodes.
pub trait Dial {
    /// The bytes that the other end sends.
    type Reader: Read + Send + Drop;
    /// The bytes that go to the other end.
    type Writer: Write + Send + Drop;

    /// They are the two directions of a connection that it made with that node.
    ghost leads: { Self → Node → Self.Reader → Self.Writer → Type 0 };

    /// Makes a connection with that node, and returns its two directions. `None` if that failed.
    fn connect(&self, peer: Node) -> Option<(Self::Reader, Self::Writer)>
        ensures { IfSome result (λ made. leads self.now peer made.0 made.1) };

    /// From now on reads and writes of all connections that it made fail soon, and of those that it makes. A dialer
    /// whose connections wait for a short time only need not do anything, as this one doesn't.
    fn stop(&self) {}

    /// Reads and writes wait again for the other end. Undoes the calls of `stop` before it.
    fn begin(&self) {}
}
