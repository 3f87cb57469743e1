//! Standard input, and that of a node, whose operator may write nothing for long.

use commands::{Notice, Trouble};
use mio::unix::SourceFd;
use mio::{Events, Interest, Poll, Token};
use std::alloc::Global;
use std::io::{self, BufReader, ErrorKind, Input, Read, StdinLock};
use std::net::Net;
use std::thread;
use std::time::Duration;

/// The file descriptor of standard input.
const STANDARD_INPUT: i32 = 0;

/// How long a read waits for something to be written, in milliseconds.
const LONGEST_WAIT: u64 = 250;

/// The work of a reader, as its notices name it.
const READING: &str = "reading standard input";

/// How many bytes are read at once at most.
const READ_AT_ONCE: usize = 4_096;

/// Waits until there is something to read.
#[derive(Drop)]
struct Watch {
    poll: Poll,
    events: Events,
}

impl Watch {
    /// A wait for standard input. `None` if the system can't wait for it, as for a file, which always has something to
    /// read or has ended.
    fn new<R: Net>(rt: &R, alloc: Global) -> Option<Watch> {
        let poll = Poll::new(rt).ok()?;
        let events = Events::with_capacity(alloc, 1).ok()?;
        let watch = Watch { poll, events };
        watch
            .poll
            .registry()
            .register(&mut SourceFd(&STANDARD_INPUT), Token(0), Interest::READABLE)
            .ok()?;
        Some(watch)
    }

    /// Waits for something to read or the end of the input, for at most `LONGEST_WAIT` milliseconds. Returns whether
    /// either has come.
    fn has_come(&mut self) -> io::Result<bool> {
        // An event comes once: without this, bytes that a read has left would wait for the next event.
        self.poll.registry().reregister(
            &mut SourceFd(&STANDARD_INPUT),
            Token(0),
            Interest::READABLE,
        )?;
        let longest = Some(Duration::from_millis(LONGEST_WAIT));
        self.poll.poll(&mut self.events, longest)?;
        Ok(!self.events.is_empty())
    }
}

/// Standard input, with reads that fail with `WouldBlock` if nothing was written for `LONGEST_WAIT` milliseconds.
#[derive(Drop)]
pub(crate) struct OperatorInput<'a> {
    rt: &'a HostRuntime,
    stdin: StdinLock<'static>,
    watch: Option<Watch>,
    notice: Notice,
}

impl<'a> OperatorInput<'a> {
    /// Whether a read returns at once. If the system can't tell, standard error has a line that says so, and no further
    /// one until it can again; this has then lasted as long as a wait in which nothing came.
    fn has_come(&mut self) -> bool {
        let Some(watch) = &mut self.watch else {
            return true;
        };
        match watch.has_come() {
            Ok(has_come) => {
                self.notice.over();
                has_come
            }
            Err(_) => {
                self.notice.tell(self.rt, Trouble::Refused);
                thread::sleep(self.rt, Duration::from_millis(LONGEST_WAIT));
                false
            }
        }
    }
}

impl<'a> Read for OperatorInput<'a> {
    /// Also fails with `WouldBlock` if the system can't tell whether something was written.
    fn read(&mut self, piece: &mut [u8]) -> io::Result<usize> {
        if self.has_come() {
            self.stdin.read(piece)
        } else {
            Err(ErrorKind::WouldBlock.into())
        }
    }
}

/// Standard input, as a command reads it.
#[derive(Drop)]
pub(crate) enum StandardInput<'a> {
    /// Each read waits until something is written. What was read is kept for a hint, if one is wanted and memory
    /// doesn't run out.
    Waiting {
        stdin: StdinLock<'static>,
        kept: Option<Vec<u8>>,
    },
    /// A read returns now and then if nothing is written.
    Returning(BufReader<OperatorInput<'a>>),
}

impl<'a> StandardInput<'a> {
    /// The input of a node's operator.
    ///
    /// # Errors
    ///
    /// Fails with `OutOfMemory`.
    pub(crate) fn of_operator<R: Net>(
        rt: &'a HostRuntime,
        net: &R,
    ) -> io::Result<StandardInput<'a>> {
        let input = OperatorInput {
            rt,
            stdin: rt.reader(),
            watch: Watch::new(net, rt.alloc()),
            notice: Notice::new(READING),
        };
        let reader = BufReader::with_capacity(rt.alloc(), READ_AT_ONCE, input)?;
        Ok(StandardInput::Returning(reader))
    }

    /// The input of any other command.
    pub(crate) fn of_command(rt: &HostRuntime) -> StandardInput<'a> {
        StandardInput::Waiting {
            stdin: rt.reader(),
            kept: None,
        }
    }

    /// The input of a command whose hints show a line of it: what is read is kept.
    pub(crate) fn kept_for_hints(rt: &HostRuntime) -> StandardInput<'a> {
        StandardInput::Waiting {
            stdin: rt.reader(),
            kept: Some(Vec::new(rt.alloc())),
        }
    }

    /// What was read, if it was kept.
    pub(crate) fn kept(&self) -> Option<&[u8]> {
        match self {
            StandardInput::Waiting {
                kept: Some(bytes),
                ..
            } => Some(bytes.as_slice()),
            _ => None,
        }
    }
}

/// Adds these bytes to those that were kept. If memory runs out, none is kept any more.
fn keep(kept: &mut Option<Vec<u8>>, bytes: &[u8]) {
    let is_lost = match kept {
        Some(before) => before.extend_from_slice(bytes).is_err(),
        None => false,
    };
    if is_lost {
        *kept = None;
    }
}

impl<'a> Read for StandardInput<'a> {
    fn read(&mut self, piece: &mut [u8]) -> io::Result<usize> {
        match self {
            StandardInput::Waiting { stdin, kept } => {
                let count = stdin.read(piece)?;
                keep(kept, &piece[..count]);
                Ok(count)
            }
            StandardInput::Returning(reader) => reader.read(piece),
        }
    }
}
