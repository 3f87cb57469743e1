//! The worked scheme, and the nodes of its registries.

ghost use Rattle.std.specs.Prelude.{◌≡◌, length};
ghost use Rattle.protocol.specs.Registries.{nodes};

use protocol::scheme::Scheme;
use protocol::status::TransactionId;
use protocol::units::{Code, Node};
use std::alloc::Global;
use std::process::Abort;
use test_support::READING;
use test_support::texts::SCHEME;

/// The registry of that code.
pub fn registry(rt: &impl Abort, code: &str) -> Node {
    Node::Registry(Code::read(code).expect(rt, "a code"))
}

/// The first transfer that NZ proposes.
pub fn first_transfer(rt: &impl Abort) -> TransactionId {
    TransactionId::read("NZ1").expect(rt, "an identifier")
}

/// The scheme, of the log and two registries.
pub fn worked_scheme(rt: &impl Abort, alloc: Global) -> Scheme
    ensures { length (nodes result) ≡ 3 }
{
    let scheme = Scheme::read(alloc, SCHEME.as_bytes()).expect(rt, READING);
    assert_eq!(rt; scheme.registries().len(), 2);
    scheme
}
