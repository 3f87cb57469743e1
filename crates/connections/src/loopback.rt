//! Addresses of the loopback interface, and the two directions of a connection.
ghost use Rattle.std.specs.Prelude.{◌≡◌, ◌↔◌, IsTrue};
ghost use Rattle.std.specs.Net.Socket.{socket_port};
ghost use Rattle.connections.specs.Loopback.{IsOfLoopback, LeadsBack};

use std::io;
use std::net::{Ipv4Addr, SocketAddr, SocketAddrV4, TcpStream};
use std::time::Duration;

/// 127.0.0.1, with that port.
pub fn at_loopback(port: u16) -> SocketAddr
    ensures loopback { IsOfLoopback result }
    ensures port { socket_port result ≡ port }
{
    SocketAddr::V4(SocketAddrV4::new(Ipv4Addr::new(127, 0, 0, 1), port))
}

/// Whether the address is of the loopback interface, so that nobody on another machine can reach it: one of 127.0.0.0/8
/// (RFC 1122), ::1 (RFC 4291), or one of 127.0.0.0/8 as an IPv4-mapped address, of ::ffff:127.0.0.0/104 (RFC 4291).
pub fn is_loopback(address: SocketAddr) -> bool
    ensures { IsTrue result ↔ LeadsBack address }
{
    match address {
        SocketAddr::V4(address) => address.ip().is_loopback(),
        SocketAddr::V6(address) => {
            let ip = address.ip();
            match ip.to_ipv4_mapped() {
                Some(mapped) => mapped.is_loopback(),
                None => ip.is_loopback(),
            }
        }
    }
}

/// How many seconds a read, a write or a connect waits for the other end. The port of a node that has stopped still
/// takes as many connections as its queue has room for, and nobody replies to them.
pub const LONGEST_WAIT: u64 = 2;

/// Makes each read and each write of the connection fail after `LONGEST_WAIT` seconds from now on. `None` if the system
/// takes no limit for its waits.
pub fn limit_waits(stream: &TcpStream) -> Option<()> {
    limit_waits_to(stream, Duration::from_secs(LONGEST_WAIT)).ok()
}

/// Makes each read and each write of the connection fail with `WouldBlock` after that time, which isn't zero.
///
/// # Errors
///
/// Fails as the system does, if it takes no such limit.
pub fn limit_waits_to(stream: &TcpStream, longest: Duration) -> io::Result<()> {
    stream.set_read_timeout(Some(longest))?;
    stream.set_write_timeout(Some(longest))?;
    // Otherwise a line waits for the acknowledgement of the one before it. If it can't be set, everything is only
    // slower.
    let _ = stream.set_nodelay(true);
    Ok(())
}

/// The reader and the writer of a connection; each fails after `LONGEST_WAIT` seconds. `None` if the system has no
/// second handle for it, or takes no limit for its waits.
pub fn directions(stream: TcpStream) -> Option<(TcpStream, TcpStream)> {
    limit_waits(&stream)?;
    let other = stream.try_clone().ok()?;
    Some((stream, other))
}
