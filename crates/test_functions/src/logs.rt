//! Logs of the worked scheme.

use crate::cores::{Seen, scheme};
use crate::same::assert_same;
use checks::{BookEntry, Register};
use log_core::LogCore;
use protocol::scheme::Scheme;
use protocol::units::{Block, Code, NoMemory, UnitMap};
use std::alloc::Global;
use std::collections::BTreeMap;
use std::process::Abort;
use test_support::again;

/// A unit of each part of the allotted units, as blocks.
const UNITS: [&str; 4] = [
    "NZ:1:1-1:AAU",
    "NZ:1:11-11:AAU",
    "NZ:1:100-100:AAU",
    "NZ:1:101-101:AAU",
];

/// The log of the worked scheme, with room for that number of records.
pub fn log(rt: &impl Abort, alloc: Global, room: &str) -> LogCore {
    let scheme = scheme(rt, alloc, room);
    let log = again!(LogCore::new(alloc, &scheme), Err(NoMemory) => ());
    drop(scheme);
    log.expect(rt, "memory")
}

/// The book of the worked scheme's log at the start: all units are NZ's.
fn opening_book(rt: &impl Abort, alloc: Global) -> UnitMap<BookEntry> {
    let registry = Code::read("NZ").expect(rt, "a code");
    let block = Block::read("NZ:1:1-100:AAU").expect(rt, "a block");
    let mut book = UnitMap::new(alloc);
    let set = again!(
        book.set(&block, Some(BookEntry { registry })),
        Err(NoMemory) => assert!(rt; book.pieces().is_empty())
    );
    set.expect(rt, "memory");
    book
}

/// The register of units and registries of the worked scheme's log at the start.
pub fn opening_register(rt: &impl Abort, alloc: Global, scheme: &Scheme) -> Register {
    let book = opening_book(rt, alloc);
    let allotments = again!(scheme.allotments(alloc), Err(NoMemory) => ());
    Register {
        allotments: allotments.expect(rt, "memory"),
        book,
        under_way: UnitMap::new(alloc),
        orders: BTreeMap::new(alloc),
    }
}

impl Seen for LogCore {
    fn is_like(&self, rt: &impl Abort, other: &LogCore) -> bool {
        for text in UNITS {
            let unit = Block::read(text).expect(rt, "a block").first_unit();
            if self.book_owner(&unit) != other.book_owner(&unit)
                || self.transfer_of(&unit) != other.transfer_of(&unit)
            {
                return false;
            }
        }
        self.pieces().len() == other.pieces().len()
    }
}

/// Asserts who owns the first unit of that block, and whether a transfer has it.
pub fn assert_owner(rt: &impl Abort, log: &LogCore, block: &str, owner: &str, is_under_way: bool) {
    let unit = Block::read(block).expect(rt, "a block").first_unit();
    assert_same(rt, log.book_owner(&unit), Code::read(owner));
    assert_same(rt, log.transfer_of(&unit).is_some(), is_under_way);
}
