//! Writers that fail midway.

use std::io::{self, ErrorKind, Write};

/// A writer that takes `room` bytes, three at a time, and then fails.
#[derive(Drop)]
pub struct Full {
    pub room: usize,
}

impl Write for Full {
    fn write(&mut self, bytes: &[u8]) -> io::Result<usize> {
        if self.room == 0 {
            return Err(ErrorKind::Other.into());
        }
        let taken = bytes.len().min(self.room).min(3);
        self.room -= taken;
        Ok(taken)
    }

    fn flush(&mut self) -> io::Result<()> {
        Ok(())
    }
}
