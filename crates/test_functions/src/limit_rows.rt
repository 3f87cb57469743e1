//! The limits of reads and writes that are interrupted, from both sides.
use crate::same::{assert_same, assert_same_in};
use command_faults::{Cause, OpFault, read_scheme, write_out};
use std::alloc::Global;
use std::io::{self, ErrorKind, Read, Write};
use test_support::again;

/// A scheme of two registries that have nothing.
pub const SCHEME: &str =
    r#"{"records":9,"registries":[{"accounts":[],"allotted":[],"code":"JP","eligible":true,"kinds":[]},{"accounts":[],"allotted":[],"code":"NZ","eligible":true,"kinds":[]}]}"#;

/// The line of an event.
pub const EVENT: &str = "commit NZ 0\n";

/// A reader that is interrupted that number of times, and then is at its end.
#[derive(Drop)]
struct Interrupted {
    left: u64,
}

impl Read for Interrupted {
    fn read(&mut self, _buf: &mut [u8]) -> io::Result<usize> {
        if self.left == 0 {
            return Ok(0);
        }
        self.left -= 1;
        Err(ErrorKind::Interrupted.into())
    }
}

/// Why no scheme was read after that number of interrupted reads.
fn fault_after(alloc: Global, left: u64) -> Option<OpFault> {
    let read = again!(
        read_scheme(alloc, &mut Interrupted { left }),
        Err(OpFault::NoMemory) => ()
    );
    read.err()
}

#[test]
fn an_input_is_read_so_often(rt: HostRuntime) {
    let no_text = OpFault::Input {
        line: 1,
        cause: Cause::NotJson,
    };
    assert_same(&rt, fault_after(rt.alloc(), 16_777_216), Some(no_text));
    assert_same(
        &rt,
        fault_after(rt.alloc(), 16_777_217),
        Some(OpFault::Read),
    );
}

/// A writer that is interrupted that number of times before it takes any bytes.
#[derive(Drop)]
struct Hesitant {
    left: u64,
}

impl Write for Hesitant {
    fn write(&mut self, bytes: &[u8]) -> io::Result<usize> {
        if self.left == 0 {
            return Ok(bytes.len());
        }
        self.left -= 1;
        Err(ErrorKind::Interrupted.into())
    }

    fn flush(&mut self) -> io::Result<()> {
        Ok(())
    }
}

#[test]
fn a_write_is_interrupted_so_often(rt: HostRuntime) {
    for (left, wanted) in [(19_999, Ok(())), (20_000, Err(OpFault::Write(0)))] {
        let mut writer = Hesitant { left };
        assert_same_in(&rt, write_out(&mut writer, EVENT), wanted, left);
    }
}
