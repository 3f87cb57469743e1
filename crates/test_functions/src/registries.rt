//! Registries of the worked scheme.

use crate::cores::{Seen, scheme};
use protocol::units::{Block, Code, NoMemory};
use registry_core::RegistryCore;
use std::alloc::Global;
use std::process::Abort;
use test_support::again;

/// The accounts of both registries.
const ACCOUNTS: [u64; 4] = [1, 2, 7, 8];

/// The registry of that code in the worked scheme, with room for that number of records.
pub fn registry(rt: &impl Abort, alloc: Global, code: &str, room: &str) -> RegistryCore {
    let scheme = scheme(rt, alloc, room);
    let code = Code::read(code).expect(rt, "a code");
    let registry = again!(RegistryCore::new(alloc, &scheme, code), Err(NoMemory) => ());
    drop(scheme);
    registry.expect(rt, "memory")
}

impl Seen for RegistryCore {
    fn is_like(&self, rt: &impl Abort, other: &RegistryCore) -> bool {
        for account in ACCOUNTS {
            if self.holdings().free_count(account) != other.holdings().free_count(account) {
                return false;
            }
        }
        let (lines, expected) = (
            self.lines().expect(rt, "memory"),
            other.lines().expect(rt, "memory"),
        );
        lines.as_slice() == expected.as_slice()
    }
}

/// Asserts that the registry has no unit of that block.
pub fn assert_none_held(rt: &impl Abort, registry: &RegistryCore, block: &str) {
    let block = Block::read(block).expect(rt, "a block");
    assert!(rt; !registry.holdings().holds_any(&[block]));
}
