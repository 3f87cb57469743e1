//! The addresses at which all nodes accept connections, and the dialer that connects to them there.
ghost use Rattle.std.specs.Prelude.{◌≡◌, ◌++◌, ◌∷◌, [], IfSome, Some, OnErr, OnOk};
ghost use Rattle.std.specs.Io.Buffered.{reader_inner};
ghost use Rattle.sockets.specs.Addresses.{address_of};

use crate::accept_faults::{is_for_room, trouble_of};
use crate::dialled::{Dialled, Stopped, dial_at};
use crate::notice::{Notice, Trouble};
use crate::port::Port;
use sessions::Dial;
use std::alloc::Global;
use std::io::{BufReader, Eprint};
use std::marker::Model;
use std::net::{Net, SocketAddr, TcpStream};
use std::rt::Clock as SystemClock;
use std::sync::Arc;
use std::sync::atomic::{AtomicBool, Ordering};
use units::{NoMemory, Node};

/// How many bytes are read of a connection at once: a reply has fewer.
const READ_AT_ONCE: usize = 256;

/// The work of a dialer, as its notices name it.
const CONNECTING: &str = "connecting to other nodes";

/// The addresses at which some nodes accept connections.
///
/// If the system has no file handle or no memory for a connection, standard error has a line that says so, and no
/// further one until a connection was made.
pub struct Ports<R> {
    net: R,
    alloc: Global,
    addresses: Vec<(Node, SocketAddr)>,
    /// Made with the first address, since making it takes memory.
    stopped: Option<Stopped>,
    notice: Notice,
}

// Written out, since a derived destructor is proved anew in each crate that lets a value go.
impl<R: Drop> Drop for Ports<R> {
    fn drop(self) {
        let Ports {
            net,
            alloc: _,
            addresses,
            stopped,
            notice,
        } = self;
        drop(net);
        drop(addresses);
        drop(stopped);
        drop(notice);
    }
}

impl<R> Model for Ports<R> {
    ghost use Rattle.std.specs.Prelude.{List};
    ghost use Rattle.sockets.specs.Addresses.{NodeAddress};

    ghost Value = { List NodeAddress };

    ghost view = { λ p. p.addresses.items };
}

impl<R: Net> Ports<R> {
    /// A dialer over that network. No node has an address yet.
    pub fn new(net: R, alloc: Global) -> Ports<R>
        ensures { result ≡ [] }
    {
        Ports {
            net,
            alloc,
            addresses: Vec::new(alloc),
            stopped: None,
            notice: Notice::new(CONNECTING),
        }
    }

    /// Adds the port at which the node accepts connections. If an address was added for it before, that one is still
    /// used.
    ///
    /// # Errors
    ///
    /// Fails with `NoMemory` if memory ran out, and nothing changed.
    pub fn add(&mut self, node: Node, port: &Port) -> Result<(), NoMemory>
        ensures ok { OnOk result (self.new ≡ self.old ++ (node, port.now) ∷ []) }
        ensures err { OnErr result (self.new ≡ self.old) }
    {
        self.add_address(node, port.address())
    }

    /// Adds the address at which the node accepts connections. If one was added for it before, that one is still used.
    ///
    /// # Errors
    ///
    /// Fails with `NoMemory` if memory ran out, and nothing changed.
    pub fn add_address(&mut self, node: Node, address: SocketAddr) -> Result<(), NoMemory>
        ensures ok { OnOk result (self.new ≡ self.old ++ (node, address) ∷ []) }
        ensures err { OnErr result (self.new ≡ self.old) }
    {
        if self.stopped.is_none() {
            self.stopped = Some(Arc::new(self.alloc, AtomicBool::new(false))?);
        }
        self.addresses.push((node, address))?;
        Ok(())
    }

    /// From now on its connections know that it has stopped, or that it hasn't.
    fn set_stopped(&self, is_stopped: bool) {
        if let Some(stopped) = &self.stopped {
            stopped.store(is_stopped, Ordering::SeqCst);
        }
    }

    /// The address at which the node accepts connections. `None` if no address was added for it.
    pub fn address_of(&self, node: Node) -> Option<SocketAddr>
        ensures { result ≡ address_of self.now node }
    {
        let (_, address) = self.addresses.iter().find(|entry| entry.0 == node)?;
        Some(*address)
    }
}

impl<R: Net<Stream = TcpStream> + SystemClock + Eprint + Copy> Ports<R> {
    /// The two directions of a connection to that address. `None` if it can't be made or the node has stopped.
    fn dial(&self, address: SocketAddr) -> Option<(Dialled<R>, Dialled<R>)>
        ensures { IfSome result (λ made. (made.0 ≡ address) × (made.1 ≡ address)) }
    {
        let stopped = self.stopped.as_ref()?;
        // A connect can wait for seconds, for which a stop would wait too.
        if stopped.load(Ordering::SeqCst) {
            return None;
        }
        match dial_at(self.net, address, stopped) {
            Ok(made) => {
                self.notice.over();
                Some(made)
            }
            Err(error) => {
                // A peer that is down is no trouble of this node's.
                if is_for_room(&error) {
                    let trouble = trouble_of(&error, Trouble::NoHandle);
                    self.notice.tell(&self.net, trouble);
                }
                None
            }
        }
    }
}

impl<R: Net<Stream = TcpStream> + SystemClock + Eprint + Copy + Send> Dial for Ports<R> {
    // One exchange reads a byte at a time, up to its newline.
    type Reader = BufReader<Dialled<R>>;

    type Writer = Dialled<R>;

    // Both directions are those of a connection that was made to the address at which the node accepts connections.
    ghost leads = { λ addresses peer reader writer. (address_of addresses peer ≡ Some (reader_inner reader))
        × (address_of addresses peer ≡ Some writer) };

    fn connect(&self, peer: Node) -> Option<(BufReader<Dialled<R>>, Dialled<R>)> {
        let address = self.address_of(peer)?;
        let (reader, writer) = self.dial(address)?;
        let reader = BufReader::with_capacity(self.alloc, READ_AT_ONCE, reader).ok()?;
        Some((reader, writer))
    }

    fn stop(&self) {
        self.set_stopped(true);
    }

    fn begin(&self) {
        self.set_stopped(false);
    }
}
