//! A port where connections wait for their lines.
ghost use Rattle.std.specs.Prelude.{◌≡◌};
ghost use Rattle.std.specs.VecDeque.{deque_len};
ghost use Rattle.connections.specs.Waiting.{MayHold};

use crate::accept_faults::{AcceptFault, accept_fault, trouble_of};
use crate::notice::{Notice, Trouble};
use connections::{ArrivedLine, Arriving, Connections, Held, Ready, limit_waits};
use mio::unix::SourceFd;
use mio::{Events, Interest, Poll, Registry, Token, Waker};
use sessions::{Accepted, Listen};
use std::alloc::Global;
use std::io::{self, Eprint};
use std::marker::Model;
use std::net::{Net, SocketAddr, TcpListener, TcpStream};
use std::os::fd::AsRawFd;
use std::rt::Clock as SystemClock;
use std::sync::atomic::{AtomicBool, Ordering};
use std::sync::{Mutex, Wait};
use std::thread;
use std::time::{Duration, Instant};

/// How many events one accept handles at most, how many connections it takes, and how many late ones it closes.
const MOST_AT_ONCE: usize = 64;

/// The token of the listener among all that is watched.
const LISTENER: usize = 0;

/// The token of the waker.
const WAKER: usize = 1;

/// The number of the first connection.
const FIRST_CONNECTION: usize = 2;

// An event of the listener or of the waker is none of a connection.
const _: () = prove!(LISTENER < FIRST_CONNECTION && WAKER < FIRST_CONNECTION);

/// The work of a port, as its notices name it.
const ACCEPTING: &str = "accepting connections";

/// How many milliseconds an accept pauses that can't go on.
const PAUSE: u64 = 100;

/// Waits for an event of the listener or of a connection.
#[derive(Drop)]
struct Watch {
    poll: Poll,
    events: Events,
}

/// How the work of an accept went.
#[derive(Clone, Copy)]
enum Work {
    /// What was due was done.
    Done,
    /// What was due was done, and connections that waited were closed, since the system had no room for others.
    Cramped(Trouble),
    /// It can't go on now.
    Failed(Trouble),
}

/// A TCP listener that hands a connection to a session only once a whole line of it has come, or the beginning of one
/// that is too long, and for that line alone: its reader ends after the newline. Each byte is read once, when it comes.
/// `give_back` has the connection wait for its next line.
///
/// It has up to `MOST_CONNECTIONS` connections that no session has. For a further one, the one that has waited longest
/// for a line is closed. A connection that ends or fails is closed, and so is one whose line isn't whole
/// `LONGEST_LINE_TIME` seconds after it was accepted or given back.
///
/// An accept waits until something comes or the next connection is late, so for `LONGEST_LINE_TIME` seconds at most,
/// and not at all from `stop` until `begin`. It does a limited part of the work that is due, so that it returns
/// regardless of how much comes. Several threads may call it: one waits for all, and the others for it.
///
/// An accept never fails. If it can't go on, since the system refuses it something or the clock can't be read, it
/// pauses for 100 milliseconds and returns `Nobody`. Standard error then has a line that says so, and no further one
/// until an accept has returned a connection, and nothing was lacking.
pub struct LinePort<R> {
    rt: R,
    alloc: Global,
    listener: TcpListener,
    address: SocketAddr,
    /// The registry of `watch`, with which a connection can be added while `watch` waits.
    registry: Registry,
    /// Ends the wait of an accept.
    waker: Waker,
    /// Whether accepts don't wait.
    is_stopped: AtomicBool,
    notice: Notice,
    /// Code that takes both locks takes this one first.
    watch: Mutex<Watch>,
    held: Mutex<Held>,
}

// Written out, since a derived destructor is proved anew in each crate that lets a value go.
impl<R: Drop> Drop for LinePort<R> {
    fn drop(self) {
        let LinePort {
            rt,
            alloc: _,
            listener,
            address: _,
            registry,
            waker,
            is_stopped: _,
            notice,
            watch,
            held,
        } = self;
        drop(rt);
        drop(listener);
        drop(registry);
        drop(waker);
        drop(notice);
        drop(watch);
        drop(held);
    }
}

impl<R> Model for LinePort<R> {
    ghost use Rattle.std.specs.declared.net.socket_addr.SocketAddr.{SocketAddr};

    ghost Value = { SocketAddr };

    ghost view = { λ p. p.address };
}

impl<R: Net<Listener = TcpListener, Stream = TcpStream> + Drop> LinePort<R> {
    /// A listener at that address; if its port is 0, at a port that was free. A line may have `longest_line` bytes
    /// before its newline.
    ///
    /// # Errors
    ///
    /// Fails as the system does, and with `OutOfMemory` if memory ran out.
    pub fn open_at(
        rt: R,
        alloc: Global,
        address: SocketAddr,
        longest_line: usize,
    ) -> io::Result<LinePort<R>> {
        let listener = rt.bind(address)?;
        listener.set_nonblocking(true)?;
        let address = listener.local_addr()?;
        let poll = Poll::new(&rt)?;
        let registry = poll.registry().try_clone()?;
        registry.register(
            &mut SourceFd(&listener.as_raw_fd()),
            Token(LISTENER),
            Interest::READABLE,
        )?;
        let waker = Waker::new(&registry, Token(WAKER))?;
        let events = Events::with_capacity(alloc, MOST_AT_ONCE)?;
        let connections = Connections::new(alloc, FIRST_CONNECTION)?;
        let piece = Vec::from_elem(alloc, 0u8, longest_line.saturating_add(1))?;
        Ok(LinePort {
            rt,
            alloc,
            listener,
            address,
            registry,
            waker,
            is_stopped: AtomicBool::new(false),
            notice: Notice::new(ACCEPTING),
            watch: Mutex::new(Watch { poll, events }),
            held: Mutex::new(Held {
                connections,
                piece,
                is_behind: false,
            }),
        })
    }
}

impl<R> LinePort<R> {
    /// Where it listens.
    pub fn address(&self) -> SocketAddr
        ensures { result ≡ self.now }
    {
        self.address
    }
}

impl<R: Wait + SystemClock> LinePort<R> {
    /// The connection waits for a line from now on. If there are `MOST_CONNECTIONS`, it takes the place of the one that
    /// has waited longest. It is closed if a line has come on each of them, if it can't be watched, or if memory ran
    /// out.
    fn hold(&self, held: &mut Held, arriving: Arriving, now: Instant)
        ensures waiting { MayHold arriving now held.old.connections.next (deque_len held.old.connections.ready)
            held.old.connections.waiting.entries held.new.connections.waiting.entries }
        ensures ready { held.new.connections.ready ≡ held.old.connections.ready }
    {
        let connections = &mut held.connections;
        if !connections.make_room() {
            return;
        }
        let watched = self.registry.register(
            &mut SourceFd(&arriving.stream().as_raw_fd()),
            Token(connections.next_number()),
            Interest::READABLE,
        );
        if watched.is_ok() {
            let _refused = connections.add(arriving, now);
        }
    }

    /// Takes the connections that others have made, up to `MOST_AT_ONCE`. If the system has no room for one, the one
    /// that has waited longest is closed. It can't go on if none waits then, or if the listener fails.
    fn admit(&self, held: &mut Held, now: Instant) -> Work {
        let mut work = Work::Done;
        held.is_behind = true;
        for _ in 0..MOST_AT_ONCE {
            if held.connections.is_full_of_lines() {
                return work;
            }
            match self.listener.accept() {
                Ok((stream, _)) => {
                    if limit_waits(&stream).is_some() && stream.set_nonblocking(true).is_ok() {
                        self.hold(held, Arriving::new(self.alloc, stream), now);
                    }
                }
                Err(error) => match accept_fault(&error) {
                    AcceptFault::Nobody => {
                        held.is_behind = false;
                        return work;
                    }
                    AcceptFault::Gone => {}
                    AcceptFault::NoRoom => {
                        let trouble = trouble_of(&error, Trouble::Refused);
                        if held.connections.take_longest().is_none() {
                            return Work::Failed(trouble);
                        }
                        work = Work::Cramped(trouble);
                    }
                    AcceptFault::Failed => return Work::Failed(Trouble::Refused),
                },
            }
        }
        work
    }

    /// Handles the events: looks at their connections, ends the wait of those that are late, and takes further ones. It
    /// can't go on if the clock can't be read, and as `admit`.
    fn work_off(&self, events: &Events) -> Work {
        let mut guard = self.held.lock(&self.rt);
        let held = &mut *guard;
        for event in events.iter() {
            held.look_at(event.token().0, event.is_read_closed() || event.is_error());
        }
        let Ok(now) = Instant::now(&self.rt) else {
            return Work::Failed(Trouble::Clock);
        };
        held.end_late(now, MOST_AT_ONCE);
        self.admit(held, now)
    }

    /// A connection on which a line has come, for a session. `None` if there is none, or if it can't be handed over and
    /// is closed.
    ///
    /// # Errors
    ///
    /// Fails with `NoHandle` if there is one, and the system has no second handle for it. It is closed.
    fn next_line(&self) -> Result<Option<(ArrivedLine, TcpStream)>, Trouble> {
        let mut guard = self.held.lock(&self.rt);
        let held = &mut *guard;
        let Some(Ready { connection, length }) = held.connections.take_ready() else {
            return Ok(None);
        };
        let stream = connection.stream();
        let source = &mut SourceFd(&stream.as_raw_fd());
        if self.registry.deregister(source).is_err() || stream.set_nonblocking(false).is_err() {
            return Ok(None);
        }
        match held.second_handle(stream) {
            Some(writer) => Ok(Some((connection.into_line(length), writer))),
            None => Err(Trouble::NoHandle),
        }
    }

    /// How long an accept waits for an event. `None` if the clock can't be read.
    fn longest_wait(&self) -> Option<Duration> {
        if self.is_stopped.load(Ordering::SeqCst) {
            return Some(Duration::ZERO);
        }
        let held = self.held.lock(&self.rt);
        if held.has_work() {
            return Some(Duration::ZERO);
        }
        let now = Instant::now(&self.rt).ok()?;
        Some(held.connections.time_left(now))
    }

    /// Waits for events, and handles them.
    fn wait_and_work(&self) -> Work {
        let mut guard = self.watch.lock(&self.rt);
        let watch = &mut *guard;
        let Some(longest) = self.longest_wait() else {
            return Work::Failed(Trouble::Clock);
        };
        match watch.poll.poll(&mut watch.events, Some(longest)) {
            Ok(()) => self.work_off(&watch.events),
            Err(error) => Work::Failed(trouble_of(&error, Trouble::Refused)),
        }
    }

    /// Ends the wait of the accept that waits, or of the next one. If that fails, the wait ends by itself.
    fn wake(&self) {
        let _ = self.waker.wake();
    }
}

impl<R: Wait + SystemClock + Eprint> LinePort<R> {
    /// Writes how the work of an accept went that returns nobody, and pauses if it can't go on.
    fn tell(&self, work: Work) {
        match work {
            Work::Done => {}
            Work::Cramped(trouble) => self.notice.tell(&self.rt, trouble),
            Work::Failed(trouble) => {
                self.notice.tell(&self.rt, trouble);
                thread::sleep(&self.rt, Duration::from_millis(PAUSE));
            }
        }
    }
}

impl<R: Wait + SystemClock + Eprint> Listen for LinePort<R> {
    // It ends after the line.
    type Reader = ArrivedLine;

    type Writer = TcpStream;

    fn accept(&self) -> Accepted<ArrivedLine, TcpStream> {
        // Nothing is written, and nobody pauses, under a lock.
        let work = self.wait_and_work();
        match (self.next_line(), work) {
            (Ok(Some((reader, writer))), Work::Done) => {
                self.notice.over();
                Accepted::Connection(reader, writer)
            }
            (Ok(Some((reader, writer))), _) => Accepted::Connection(reader, writer),
            (Ok(None), work) => {
                self.tell(work);
                Accepted::Nobody
            }
            (Err(trouble), _) => {
                self.notice.tell(&self.rt, trouble);
                Accepted::Nobody
            }
        }
    }

    /// Takes back a connection whose line got a reply: it waits for a further line, or is for a session at once if that
    /// has come. It is closed if not all bytes were read that were to be, or if it can't be held.
    fn give_back(&self, reader: ArrivedLine, writer: TcpStream) {
        drop(writer);
        let Ok(now) = Instant::now(&self.rt) else {
            return;
        };
        let mut guard = self.held.lock(&self.rt);
        let held = &mut *guard;
        let longest = held.piece.len().saturating_sub(1);
        let Some((arriving, next)) = reader.into_arriving(longest) else {
            return;
        };
        if arriving.stream().set_nonblocking(true).is_err() {
            return;
        }
        let number = held.connections.next_number();
        self.hold(held, arriving, now);
        if let Some(length) = next {
            held.connections.line_came(number, length);
            // An accept that waits already gets no event of this line.
            self.wake();
        }
    }

    fn stop(&self) {
        self.is_stopped.store(true, Ordering::SeqCst);
        // An accept looks before it waits, so none that comes later waits, and one that waits is woken.
        self.wake();
    }

    fn begin(&self) {
        self.is_stopped.store(false, Ordering::SeqCst);
    }
}
