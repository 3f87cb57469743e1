//! One direction of a connection.
ghost use Rattle.sessions.specs.Directions.{by_either};

use std::io::{self, Read, Write};

/// One direction of a connection, which was accepted or made.
#[derive(Drop)]
pub enum Direction<A, M> {
    /// Of a connection that was accepted.
    Accepted(A),
    /// Of a connection that was made.
    Made(M),
}

impl<A: Read, M: Read> Read for Direction<A, M> {
    ghost remaining = { by_either A.remaining M.remaining };

    fn read(&mut self, piece: &mut [u8]) -> io::Result<usize> {
        match self {
            Direction::Accepted(inner) => inner.read(piece),
            Direction::Made(inner) => inner.read(piece),
        }
    }
}

impl<A: Write, M: Write> Write for Direction<A, M> {
    ghost contents = { by_either A.contents M.contents };

    fn write(&mut self, bytes: &[u8]) -> io::Result<usize> {
        match self {
            Direction::Accepted(inner) => inner.write(bytes),
            Direction::Made(inner) => inner.write(bytes),
        }
    }

    fn flush(&mut self) -> io::Result<()> {
        match self {
            Direction::Accepted(inner) => inner.flush(),
            Direction::Made(inner) => inner.flush(),
        }
    }
}
