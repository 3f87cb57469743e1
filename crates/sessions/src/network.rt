//! The network of nodes: their connections with one another, their clock and their gate.
ghost use Rattle.std.specs.Prelude.{IfSome};
ghost use Rattle.units.specs.declared.code.Node.{Node};

use crate::connections::Accepted;
use desk::stores::NodeStore;
use desk::{Clock, Gate};
use std::io::{Read, Write};
use units::Node;

/// The parts of a node that its threads share beside its desk: the connections that it accepts and makes, its clock,
/// and the gate that its workers pass. Several nodes may share one network. It has few types, since a proof about a
/// function takes longer with each type that the function reaches; and it names the type of the nodes' stores, so that
/// functions that make the desks of its nodes have no further parameter for it.
pub trait Network: Clock + Gate + Send + Sync + Drop {
    /// The store of a node's records.
    type Store: NodeStore + Send + Drop;
    /// The bytes that the other end of a connection sends.
    type Reader: Read + Send + Drop;
    /// The bytes that go to the other end of a connection.
    type Writer: Write + Send + Drop;

    /// They are the two directions of a connection that it made with that node.
    ghost leads: { Self → Node → Self.Reader → Self.Writer → Type 0 };

    /// Waits for a connection that another one makes with the node, for a limited time, as `Listen::accept` does. Fails
    /// if no connections are accepted for the node.
    fn accept(&self, node: Node) -> Accepted<Self::Reader, Self::Writer>;

    /// Takes back a connection of the node on which each line got a reply, as `Listen::give_back` does.
    fn give_back(&self, node: Node, reader: Self::Reader, writer: Self::Writer);

    /// Makes a connection with that node, and returns its two directions. `None` if that failed.
    fn connect(&self, peer: Node) -> Option<(Self::Reader, Self::Writer)>
        ensures { IfSome result (λ made. leads self.now peer made.0 made.1) };

    /// Ends the waits of the node's threads: from now on no accept for the node waits, as after `Listen::stop`. If it
    /// is the only node of the network, reads and writes of connections that were made fail soon, as after
    /// `Dial::stop`.
    fn stop(&self, node: Node);

    /// The node's threads wait again for connections and for their other ends. Undoes the calls of `stop` for this node
    /// before it.
    fn begin(&self, node: Node);
}
