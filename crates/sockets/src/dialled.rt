//! Connections that this side makes.
ghost use Rattle.std.specs.Prelude.{◌≡◌, ◌*◌, IfOk};

use connections::{LONGEST_WAIT, limit_waits_to};
use std::alloc::Global;
use std::io::{self, ErrorKind, Read, Write};
use std::marker::Model;
use std::net::{Net, SocketAddr, TcpStream};
use std::rt::Clock as SystemClock;
use std::sync::Arc;
use std::sync::atomic::{AtomicBool, Ordering};
use std::time::{Duration, Instant};

/// How many seconds after it was made a connection is read and written to at most. Without this a peer that sends its
/// reply byte by byte could hold it: no single read waits for long.
const LONGEST_USE: u64 = 10;

/// How many milliseconds a read or a write waits at once: after these it looks whether its dialer has stopped.
const LONGEST_PIECE: u64 = 200;

/// How many such pieces make `LONGEST_WAIT`.
const MOST_PIECES: u64 = LONGEST_WAIT * 1_000 / LONGEST_PIECE;

/// Whether a dialer has stopped, shared with its connections.
pub(crate) type Stopped = Arc<AtomicBool>;

/// One direction of a connection, with the address that it was made to. It fails `LONGEST_USE` seconds after it was
/// made, and within `LONGEST_PIECE` milliseconds once its dialer has stopped.
///
/// No clause of the standard library says where a stream leads. That this address is the right one therefore rests on
/// the body of `dial_at`, the only function that makes one: it asks the network for a connection to the address that it
/// is given, and to no other.
pub struct Dialled<R> {
    stream: TcpStream,
    address: SocketAddr,
    rt: R,
    /// When it was made.
    made: Instant,
    stopped: Stopped,
}

// Written out, since a derived destructor is proved anew in each crate that lets a value go.
impl<R: Drop> Drop for Dialled<R> {
    fn drop(self) {
        let Dialled {
            stream,
            address: _,
            rt,
            made: _,
            stopped,
        } = self;
        drop(stream);
        drop(rt);
        drop(stopped);
    }
}

impl<R> Model for Dialled<R> {
    ghost use Rattle.std.specs.declared.net.socket_addr.SocketAddr.{SocketAddr};

    ghost Value = { SocketAddr };

    ghost view = { λ d. d.address };
}

impl<R: SystemClock> Dialled<R> {
    /// Whether its dialer has stopped, or it was made `LONGEST_USE` seconds ago or longer. A time that can't be read
    /// counts as too long.
    fn is_over(&self) -> bool {
        if self.stopped.load(Ordering::SeqCst) {
            return true;
        }
        match self.made.elapsed(&self.rt) {
            Ok(passed) => passed >= Duration::from_secs(LONGEST_USE),
            Err(_) => true,
        }
    }
}

/// Makes a connection to that address, and returns its reader and its writer, which fail once the dialer has stopped.
///
/// # Errors
///
/// Fails as the system does, with `TimedOut` if the other end didn't take it within `LONGEST_WAIT` seconds, and if the
/// clock can't be read.
pub(crate) fn dial_at<R: Net<Stream = TcpStream> + SystemClock + Copy>(
    rt: R,
    address: SocketAddr,
    stopped: &Stopped,
) -> io::Result<(Dialled<R>, Dialled<R>)>
    ensures { IfOk result (λ made. (made.0 ≡ address) × (made.1 ≡ address)) }
{
    // Otherwise a connect to a listener whose queue is full waits for minutes.
    let longest = Duration::from_secs(LONGEST_WAIT);
    let stream = rt.connect_timeout(address, longest)?;
    limit_waits_to(&stream, Duration::from_millis(LONGEST_PIECE))?;
    let other = stream.try_clone()?;
    let made = Instant::now(&rt)?;
    let reader = Dialled {
        stream,
        address,
        rt,
        made,
        stopped: Arc::try_clone(stopped)?,
    };
    let writer = Dialled {
        stream: other,
        address,
        rt,
        made,
        stopped: Arc::try_clone(stopped)?,
    };
    Ok((reader, writer))
}

impl<R: SystemClock> Read for Dialled<R> {
    /// Fails with `WouldBlock` if nothing has come for `LONGEST_WAIT` seconds, and with `TimedOut` if the dialer has
    /// stopped or the connection was made `LONGEST_USE` seconds ago. Nothing was read then.
    fn read(&mut self, piece: &mut [u8]) -> io::Result<usize> {
        for _ in 0..MOST_PIECES {
            if self.is_over() {
                return Err(ErrorKind::TimedOut.into());
            }
            match self.stream.read(piece) {
                Err(error) if error.kind() == ErrorKind::WouldBlock => {}
                ended => return ended,
            }
        }
        Err(ErrorKind::WouldBlock.into())
    }
}

impl<R: SystemClock> Write for Dialled<R> {
    /// Fails with `WouldBlock` if nothing could be written for `LONGEST_WAIT` seconds, and with `TimedOut` if the
    /// dialer has stopped or the connection was made `LONGEST_USE` seconds ago. Nothing was written then.
    fn write(&mut self, bytes: &[u8]) -> io::Result<usize> {
        for _ in 0..MOST_PIECES {
            if self.is_over() {
                return Err(ErrorKind::TimedOut.into());
            }
            match self.stream.write(bytes) {
                Err(error) if error.kind() == ErrorKind::WouldBlock => {}
                ended => return ended,
            }
        }
        Err(ErrorKind::WouldBlock.into())
    }

    fn flush(&mut self) -> io::Result<()> {
        self.stream.flush()
    }
}
