//! Values by their texts.

use protocol::status::TransactionId;
use protocol::units::{Block, Code, Node, Unit};
use std::process::Abort;

/// The registry's code of that text.
pub fn code(rt: &impl Abort, text: &str) -> Code {
    Code::read(text).expect(rt, "a code")
}

/// The node of that text.
pub fn node(rt: &impl Abort, text: &str) -> Node {
    Node::read(text).expect(rt, "a node")
}

/// The identifier of that text.
pub fn id(rt: &impl Abort, text: &str) -> TransactionId {
    TransactionId::read(text).expect(rt, "an identifier")
}

/// The block of that text.
pub fn block(rt: &impl Abort, text: &str) -> Block {
    Block::read(text).expect(rt, "a block")
}

/// The first unit of that block.
pub fn unit(rt: &impl Abort, text: &str) -> Unit {
    block(rt, text).first_unit()
}
