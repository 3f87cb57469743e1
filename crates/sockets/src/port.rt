//! Where one node accepts connections.
ghost use Rattle.std.specs.Prelude.{◌≡◌, IfOk};
ghost use Rattle.connections.specs.Loopback.{IsOfLoopback};

use connections::{at_loopback, directions};
use sessions::{Accepted, Listen};
use std::io::{self, ErrorKind};
use std::marker::Model;
use std::net::{Net, SocketAddr, TcpListener, TcpStream};
use std::os::fd::OwnedFd;
use std::time::Duration;

/// How many milliseconds an accept waits for a peer to connect.
const LONGEST_ACCEPT: u64 = 100;

/// That listener, with accepts that wait for at most `LONGEST_ACCEPT` milliseconds and fail with `WouldBlock` if nobody
/// connected.
fn with_limit(listener: TcpListener) -> io::Result<TcpListener> {
    // A listener has no call for this, but its socket has: the system keeps the limit for the reads of a stream with
    // the socket, and on Linux an accept waits no longer than that either.
    let socket = TcpStream::from(OwnedFd::from(listener));
    socket.set_read_timeout(Some(Duration::from_millis(LONGEST_ACCEPT)))?;
    Ok(TcpListener::from(OwnedFd::from(socket)))
}

/// A TCP listener at a port of 127.0.0.1, with accepts that wait for at most `LONGEST_ACCEPT` milliseconds.
pub struct Port {
    listener: TcpListener,
    address: SocketAddr,
}

// Written out, since a derived destructor is proved anew in each crate that lets a value go.
impl Drop for Port {
    fn drop(self) {
        let Port {
            listener,
            address: _,
        } = self;
        drop(listener);
    }
}

impl Model for Port {
    ghost use Rattle.std.specs.declared.net.socket_addr.SocketAddr.{SocketAddr};
    ghost use Rattle.connections.specs.Loopback.{IsOfLoopback};

    ghost Value = { SocketAddr };

    ghost view = { λ p. p.address };

    ghost invariant = { λ p. IsOfLoopback p.address };
}

impl Port {
    /// A listener at a port that was free.
    ///
    /// # Errors
    ///
    /// Fails as the system does: if it has no port or no handle left, allows the process no listener, or takes no limit
    /// for the wait of an accept.
    pub fn open<R: Net<Listener = TcpListener, Stream = TcpStream>>(net: &R) -> io::Result<Port>
        ensures { IfOk result IsOfLoopback }
    {
        let listener = with_limit(net.bind(at_loopback(0))?)?;
        let bound = listener.local_addr()?;
        Ok(Port {
            listener,
            address: at_loopback(bound.port()),
        })
    }

    /// Where it listens.
    pub fn address(&self) -> SocketAddr
        ensures same { result ≡ self.now }
        ensures loopback { IsOfLoopback self.now }
    {
        self.address
    }
}

impl Listen for Port {
    type Reader = TcpStream;

    type Writer = TcpStream;

    fn accept(&self) -> Accepted<TcpStream, TcpStream> {
        match self.listener.accept() {
            Ok((stream, _)) => match directions(stream) {
                Some((reader, writer)) => Accepted::Connection(reader, writer),
                None => Accepted::Failed,
            },
            Err(error) if error.kind() == ErrorKind::WouldBlock => Accepted::Nobody,
            Err(_) => Accepted::Failed,
        }
    }
}
