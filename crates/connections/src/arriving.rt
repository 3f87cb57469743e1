//! A connection, with the bytes that have come on it and that no session has read.
ghost use Rattle.std.specs.Prelude.{◌≡◌, ◌≤◌, vec_len};
ghost use Rattle.connections.specs.LineEnds.{length_of};

use std::alloc::Global;
use std::cell::Cell;
use std::io::{self, ErrorKind, Read, Take};
use std::marker::Model;
use std::net::TcpStream;
use streams::{FirstLine, first_line};

/// What a look at a connection shows.
#[derive(Clone, Copy)]
pub(crate) enum Arrival {
    /// A line has come, or the beginning of one that is too long, with the number of bytes that a session is to read.
    Line(u64),
    /// Less than a line has come, or nothing.
    Part,
    /// The connection has ended or failed, or memory ran out for its bytes.
    End,
}

/// How many bytes a session is to read of the line: the line and its newline, or all that comes if the line is too
/// long. `None` if it isn't whole.
fn length_of(line: FirstLine<'_>) -> Option<u64>
    ensures { result ≡ length_of line.entry }
{
    match line {
        FirstLine::Whole(line, _) => Some((line.len() as u64).saturating_add(1)),
        FirstLine::Partial => None,
        FirstLine::TooLong => Some(u64::MAX),
    }
}

/// A connection that waits for a line, and the bytes of the line that have come. Each byte is read and looked at once.
#[derive(Drop)]
pub struct Arriving {
    alloc: Global,
    stream: TcpStream,
    came: Cell<Vec<u8>>,
}

impl Model for Arriving {
    ghost use Rattle.std.specs.declared.net.tcp.TcpStream.{TcpStream};

    ghost Value = { TcpStream };

    ghost view = { λ a. a.stream };
}

impl Arriving {
    /// A connection of which nothing has been read.
    pub fn new(alloc: Global, stream: TcpStream) -> Arriving
        ensures { result ≡ stream }
    {
        Arriving {
            alloc,
            stream,
            came: Cell::new(Vec::new(alloc)),
        }
    }

    /// The connection.
    pub fn stream(&self) -> &TcpStream
        ensures { result.now ≡ self.now }
    {
        &self.stream
    }

    /// Reads the bytes that have come, as many as `piece` has room for, without waiting. A line may have one byte less
    /// than that.
    pub(crate) fn read_on(&self, piece: &mut [u8]) -> Arrival {
        let longest = piece.len().saturating_sub(1);
        match (&self.stream).read(piece) {
            Ok(0) => Arrival::End,
            Ok(count) => self.look_at(&piece[..count], longest),
            Err(error) => match error.kind() {
                ErrorKind::WouldBlock | ErrorKind::Interrupted => Arrival::Part,
                _ => Arrival::End,
            },
        }
    }

    /// Keeps these bytes, which come after those before, and looks for the end of the line among them.
    fn look_at(&self, bytes: &[u8], longest: usize) -> Arrival {
        let mut came = self.came.replace(Vec::new(self.alloc));
        let before = came.len();
        let kept = came.extend_from_slice(bytes);
        self.came.set(came);
        if kept.is_err() {
            return Arrival::End;
        }
        match length_of(first_line(bytes, longest.saturating_sub(before))) {
            Some(length) => Arrival::Line(length.saturating_add(before as u64)),
            None => Arrival::Part,
        }
    }

    /// The line that has come, of that length with its newline.
    pub fn into_line(self, length: u64) -> ArrivedLine {
        let Arriving {
            alloc,
            stream,
            came,
        } = self;
        let came = came.into_inner();
        let left = length.saturating_sub(came.len() as u64);
        let end = came.len().min(length as usize);
        ArrivedLine {
            alloc,
            stream: stream.take(left),
            came,
            at: 0,
            end,
        }
    }
}

/// A reader of one line that has come on a connection: it ends after the newline. If the line is too long, it reads on
/// as long as bytes come.
#[derive(Drop)]
pub struct ArrivedLine {
    alloc: Global,
    stream: Take<TcpStream>,
    came: Vec<u8>,
    /// How many of the bytes that have come were returned.
    at: usize,
    /// How many of them are to be returned.
    end: usize,
    ghost returned: { at ≤ end },
    ghost within: { end ≤ vec_len came },
}

impl ArrivedLine {
    /// The connection, with the bytes that came after the line, and how many bytes a session is to read of the next
    /// line, if it has come. A line may have `longest` bytes. `None` if not all of this line was read, or if memory ran
    /// out.
    pub fn into_arriving(self, longest: usize) -> Option<(Arriving, Option<u64>)> {
        let ArrivedLine {
            alloc,
            stream,
            came,
            at,
            end,
        } = self;
        if at < end || stream.limit() > 0 {
            return None;
        }
        let rest = Vec::from_slice(alloc, &came[end..]).ok()?;
        let next = length_of(first_line(rest.as_slice(), longest));
        let arriving = Arriving {
            alloc,
            stream: stream.into_inner(),
            came: Cell::new(rest),
        };
        Some((arriving, next))
    }
}

impl Read for ArrivedLine {
    fn read(&mut self, piece: &mut [u8]) -> io::Result<usize> {
        if self.at == self.end {
            return self.stream.read(piece);
        }
        let count = piece.len().min(self.end - self.at);
        piece[..count].copy_from_slice(&self.came[self.at..self.at + count]);
        self.at += count;
        Ok(count)
    }
}
