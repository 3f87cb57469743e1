use crate::limit_rows::{EVENT, SCHEME};
use crate::same::{assert_same, room};
use command_faults::{Cause, OpFault};
use rehearse::rehearse;
use std::alloc::Global;
use std::io::{self, ErrorKind, Read, Write};
use std::process::Abort;
use streams::{Calls, ReadFault, read_input, write_text};
use test_support::failing_streams::Full;
use test_support::{READING, again};

/// A scheme, and one event.
fn input(rt: &impl Abort, alloc: Global) -> String {
    format!(in alloc; "{SCHEME}\n{EVENT}").expect(rt, READING)
}

const REPORT: &str = "\
1 done
registry JP held 0 spendable 0
registry NZ held 0 spendable 0
owed 0
end
";

/// A reader that gives its bytes one by one, with an error before the byte at `at`.
#[derive(Drop)]
struct Interrupted {
    bytes: &'static [u8],
    at: usize,
    kind: ErrorKind,
}

impl Read for Interrupted {
    fn read(&mut self, buf: &mut [u8]) -> io::Result<usize> {
        if self.at == 0 {
            self.at = usize::MAX;
            return Err(self.kind.into());
        }
        self.at -= 1;
        if self.bytes.is_empty() || buf.is_empty() {
            return Ok(0);
        }
        buf[0] = self.bytes[0];
        self.bytes = &self.bytes[1..];
        Ok(1)
    }
}

/// A reader of three bytes that fails with `kind` once, after the second.
fn broken_once(kind: ErrorKind) -> Interrupted {
    Interrupted {
        bytes: b"{}\n",
        at: 2,
        kind,
    }
}

/// Asserts that `rehearse` fails with `fault` and writes nothing where the reader fails with `kind` after two bytes.
fn assert_interrupted(rt: &impl Abort, alloc: Global, kind: ErrorKind, fault: OpFault) {
    let mut writer = room(rt, alloc);
    let ended = again!(
        rehearse(alloc, &mut broken_once(kind), &mut writer),
        Err(OpFault::NoMemory) => assert!(rt; writer.is_empty())
    );
    assert_same(rt, ended, Err(fault));
    assert!(rt; writer.is_empty());
}

#[test]
fn reads_on_after_an_interruption_alone(rt: HostRuntime) {
    let (line, cause) = (1, Cause::Shape);
    assert_interrupted(
        &rt,
        rt.alloc(),
        ErrorKind::Interrupted,
        OpFault::Input { line, cause },
    );
    assert_interrupted(&rt, rt.alloc(), ErrorKind::Other, OpFault::Read);
}

/// The counted reads that a fault carries.
fn reads_of(fault: ReadFault) -> Calls {
    match fault {
        ReadFault::Read(calls) | ReadFault::NoMemory(calls) => calls,
    }
}

#[test]
fn tells_how_often_it_read(rt: HostRuntime) {
    let read = again!(
        read_input(rt.alloc(), &mut broken_once(ErrorKind::Other)),
        Err(ReadFault::NoMemory(calls)) => assert_same(&rt, calls.failures(), 0)
    );
    let calls = reads_of(read.err().expect(&rt, "a fault"));
    assert_same(
        &rt,
        (calls.count(), calls.failures(), calls.interruptions()),
        (3, 1, 0),
    );
}

/// A writer that takes one byte, and is then interrupted at each write.
#[derive(Drop)]
struct Stalled {
    taken: usize,
}

impl Write for Stalled {
    fn write(&mut self, bytes: &[u8]) -> io::Result<usize> {
        if self.taken > 0 {
            return Err(ErrorKind::Interrupted.into());
        }
        self.taken = bytes.len().min(1);
        Ok(self.taken)
    }

    fn flush(&mut self) -> io::Result<()> {
        Ok(())
    }
}

#[test]
fn tells_how_often_it_was_interrupted(rt: HostRuntime) {
    let mut writer = Stalled { taken: 0 };
    let fault = write_text(&mut writer, b"end\n").err();
    let fault = fault.expect(&rt, "a fault");
    let calls = fault.calls;
    assert_same(&rt, fault.written, 1);
    assert_same(
        &rt,
        (calls.count(), calls.failures(), calls.interruptions()),
        (20_001, 0, 20_000),
    );
}

#[test]
fn tells_how_much_was_written(rt: HostRuntime) {
    let input = input(&rt, rt.alloc());
    let mut writer = Full { room: 15 };
    let ended = again!(
        rehearse(rt.alloc(), &mut input.as_bytes(), &mut writer),
        Err(OpFault::NoMemory) => assert_same(&rt, writer.room, 15)
    );
    assert_same(&rt, ended, Err(OpFault::Write(15)));
}

/// A writer that takes one byte at every third write, and is interrupted at the others.
#[derive(Drop)]
struct Halting {
    interrupted: u8,
    taken: usize,
}

impl Write for Halting {
    fn write(&mut self, bytes: &[u8]) -> io::Result<usize> {
        if self.interrupted < 2 {
            self.interrupted += 1;
            return Err(ErrorKind::Interrupted.into());
        }
        self.interrupted = 0;
        let taken = bytes.len().min(1);
        self.taken = self.taken.saturating_add(taken);
        Ok(taken)
    }

    fn flush(&mut self) -> io::Result<()> {
        Ok(())
    }
}

#[test]
fn writes_on_after_interruptions(rt: HostRuntime) {
    let input = input(&rt, rt.alloc());
    let mut writer = Halting {
        interrupted: 0,
        taken: 0,
    };
    let ended = again!(
        rehearse(rt.alloc(), &mut input.as_bytes(), &mut writer),
        Err(OpFault::NoMemory) => assert_same(&rt, (writer.interrupted, writer.taken), (0, 0))
    );
    assert_same(&rt, ended, Ok(()));
    assert_same(&rt, writer.taken, REPORT.len());
}
