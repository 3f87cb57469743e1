//! A network of listeners and a dialer.
ghost use Rattle.std.specs.Prelude.{◌≡◌, ◌↔◌, IfSome, IsTrue, vec_len};

use crate::connections::{Accepted, Dial, Listen};
use crate::direction::Direction;
use crate::network::Network;
use desk::stores::NodeStore;
use desk::{Clock, Gate, Spot};
use protocol::status::Moment;
use std::marker::PhantomData;
use std::sync::Mutex;
use units::Node;

/// The network of nodes with a listener each, which make their connections by one dialer, with one clock. Its gate lets
/// every thread pass at once.
pub struct JoinedNetwork<S, L, D, K> {
    listeners: Vec<(Node, L)>,
    dialer: D,
    clock: K,
    // The store's type is only named. Threads may share a lock of a type that they may not share.
    stores: Mutex<PhantomData<S>>,
}

// Written out, since a derived destructor is proved anew in each crate that lets a value go.
impl<S, L: Drop, D: Drop, K: Drop> Drop for JoinedNetwork<S, L, D, K> {
    fn drop(self) {
        let JoinedNetwork {
            listeners,
            dialer,
            clock,
            stores,
        } = self;
        drop(listeners);
        drop(dialer);
        drop(clock);
        drop(stores);
    }
}

impl<S, L, D, K> JoinedNetwork<S, L, D, K> {
    /// The network of nodes that accept connections by these listeners. If a node has two, the first one is used.
    pub fn new(listeners: Vec<(Node, L)>, dialer: D, clock: K) -> JoinedNetwork<S, L, D, K>
        ensures listeners { result.listeners.items ≡ listeners.items }
        ensures dialer { result.dialer ≡ dialer }
        ensures clock { result.clock ≡ clock }
    {
        JoinedNetwork {
            listeners,
            dialer,
            clock,
            stores: Mutex::new(PhantomData),
        }
    }

    /// The listener of the node, or `None` if it has none.
    fn listener(&self, node: Node) -> Option<&L> {
        for (named, listener) in &self.listeners {
            if *named == node {
                return Some(listener);
            }
        }
        None
    }

    /// Whether the dialer makes the connections of one node only.
    fn has_one_node(&self) -> bool
        ensures { IsTrue result ↔ (vec_len self.now.listeners ≡ 1) }
    {
        self.listeners.len() == 1
    }
}

impl<S, L, D, K: Clock> Clock for JoinedNetwork<S, L, D, K> {
    ghost tells = { λ network. K.tells network.clock };

    fn now(&self) -> Moment {
        self.clock.now()
    }
}

impl<S, L, D, K> Gate for JoinedNetwork<S, L, D, K> {
    fn pass(&self, _spot: Spot) {}
}

impl<S, L, D, K> Network for JoinedNetwork<S, L, D, K>
where
    S: NodeStore + Send + Drop,
    L: Listen + Send + Sync + Drop,
    D: Dial + Send + Sync + Drop,
    K: Clock + Send + Sync + Drop,
{
    ghost use Rattle.sessions.specs.Directions.{AreMade};

    type Store = S;

    type Reader = Direction<L::Reader, D::Reader>;

    type Writer = Direction<L::Writer, D::Writer>;

    // The dialer made the connection.
    ghost leads = { λ network peer. AreMade (D.leads network.dialer peer) };

    fn accept(
        &self,
        node: Node,
    ) -> Accepted<Direction<L::Reader, D::Reader>, Direction<L::Writer, D::Writer>> {
        let Some(listener) = self.listener(node) else {
            return Accepted::Failed;
        };
        match listener.accept() {
            Accepted::Connection(reader, writer) => {
                Accepted::Connection(Direction::Accepted(reader), Direction::Accepted(writer))
            }
            Accepted::Nobody => Accepted::Nobody,
            Accepted::Failed => Accepted::Failed,
        }
    }

    fn give_back(
        &self,
        node: Node,
        reader: Direction<L::Reader, D::Reader>,
        writer: Direction<L::Writer, D::Writer>,
    ) {
        match (reader, writer, self.listener(node)) {
            (Direction::Accepted(reader), Direction::Accepted(writer), Some(listener)) => {
                listener.give_back(reader, writer);
            }
            (reader, writer, _) => {
                drop(reader);
                drop(writer);
            }
        }
    }

    fn connect(
        &self,
        peer: Node,
    ) -> Option<
        (
            Direction<L::Reader, D::Reader>,
            Direction<L::Writer, D::Writer>,
        ),
    > {
        let (reader, writer) = self.dialer.connect(peer)?;
        Some((Direction::Made(reader), Direction::Made(writer)))
    }

    /// Stops the node's listener. Stops the dialer only if there is one listener: a dialer of several nodes goes on for
    /// the others.
    fn stop(&self, node: Node) {
        let Some(listener) = self.listener(node) else {
            return;
        };
        listener.stop();
        if self.has_one_node() {
            self.dialer.stop();
        }
    }

    /// Has the node's listener begin, and the dialer if there is one listener.
    fn begin(&self, node: Node) {
        let Some(listener) = self.listener(node) else {
            return;
        };
        if self.has_one_node() {
            self.dialer.begin();
        }
        listener.begin();
    }
}
