//! Two values that must be equal, and room for written bytes.

use std::alloc::Global;
use std::fmt::Debug;
use std::process::Abort;
use test_support::READING;

/// More bytes than a test writes.
const ROOM: usize = 65_536;

/// Asserts that the two values are equal, and prints both where they aren't.
pub fn assert_same<T: PartialEq + Debug + Drop>(rt: &impl Abort, left: T, right: T) {
    assert_eq!(rt; left, right);
}

/// The same, for one row among others. Prints the row too.
pub fn assert_same_in<T: PartialEq + Debug + Drop>(
    rt: &impl Abort,
    left: T,
    right: T,
    row: impl Debug + Drop,
) {
    assert_eq!(rt; left, right, "{row:?}");
}

/// Bytes to write into, with room for more than a test writes: no write lacks memory.
pub fn room(rt: &impl Abort, alloc: Global) -> Vec<u8> {
    let mut bytes = Vec::new(alloc);
    bytes.reserve(ROOM).expect(rt, READING);
    bytes
}
