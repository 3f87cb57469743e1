//! Readers and writers that fail midway, and lines that are too long.

use std::alloc::Global;
use std::io::{self, ErrorKind, Read, Write};
use std::process::Abort;
use test_support::READING;

/// Gives its bytes one by one, and fails in place of the byte at `fails_at`.
#[derive(Drop)]
pub struct Dripping {
    pub bytes: &'static [u8],
    pub fails_at: usize,
}

impl Read for Dripping {
    fn read(&mut self, piece: &mut [u8]) -> io::Result<usize> {
        if self.fails_at == 0 {
            return Err(ErrorKind::Other.into());
        }
        self.fails_at -= 1;
        if self.bytes.is_empty() || piece.is_empty() {
            return Ok(0);
        }
        piece[0] = self.bytes[0];
        self.bytes = &self.bytes[1..];
        Ok(1)
    }
}

/// Gives lines of 99 bytes without end, a byte at a time.
#[derive(Clone, Copy)]
pub struct Endless {
    pub given: usize,
}

impl Read for Endless {
    fn read(&mut self, piece: &mut [u8]) -> io::Result<usize> {
        if piece.is_empty() {
            return Ok(0);
        }
        self.given = self.given.saturating_add(1);
        piece[0] = if self.given % 100 == 0 { b'\n' } else { b'x' };
        Ok(1)
    }
}

/// Is interrupted `interruptions` times, and then takes one byte at a time.
#[derive(Drop)]
pub struct Halting {
    pub interruptions: u32,
    pub taken: usize,
}

impl Write for Halting {
    fn write(&mut self, bytes: &[u8]) -> io::Result<usize> {
        if self.interruptions > 0 {
            self.interruptions -= 1;
            return Err(ErrorKind::Interrupted.into());
        }
        let taken = bytes.len().min(1);
        self.taken = self.taken.saturating_add(taken);
        Ok(taken)
    }

    fn flush(&mut self) -> io::Result<()> {
        Ok(())
    }
}

/// A line of that byte, repeated that often before its newline.
pub fn long_line(rt: &impl Abort, alloc: Global, byte: u8, count: usize) -> Vec<u8> {
    let mut line = Vec::new(alloc);
    for _ in 0..count {
        line.push(byte).expect(rt, READING);
    }
    line.push(b'\n').expect(rt, READING);
    line
}
