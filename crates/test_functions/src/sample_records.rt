//! The records for rows on stores: two of NZ, by their texts.

use protocol::units::NoMemory;
use protocol::wire::{Input, encode_input};
use std::alloc::Global;
use std::process::Abort;
use test_support::{READING, again, texts};
use wire_lines::decode_input;

/// The record of NZ's proposal.
pub const PROPOSE: &str = texts::PROPOSE_RECORD;

/// The record of its acceptance.
pub const ACCEPTED: &str = texts::ACCEPTED_RECORD;

/// The record of that text.
pub fn record(rt: &impl Abort, alloc: Global, text: &str) -> Input {
    decode_input(alloc, text.as_bytes()).expect(rt, READING)
}

/// Both records.
pub fn two(rt: &impl Abort, alloc: Global) -> Vec<Input> {
    let batch = [record(rt, alloc, PROPOSE), record(rt, alloc, ACCEPTED)];
    Vec::from_array(alloc, batch).expect(rt, READING)
}

/// Whether the record is written as that text.
pub fn has_text(alloc: Global, input: &Input, text: &str) -> bool {
    match again!(encode_input(alloc, input), Err(NoMemory) => ()) {
        Ok(found) => found.as_slice() == text.as_bytes(),
        Err(_) => false,
    }
}

/// Whether these are both records.
pub fn are_two(alloc: Global, inputs: &[Input]) -> bool {
    match inputs {
        [first, second] => has_text(alloc, first, PROPOSE) && has_text(alloc, second, ACCEPTED),
        _ => false,
    }
}
