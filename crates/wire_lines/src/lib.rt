//! Messages and records, read from their texts.
#![tactic(auto)]

mod exact;
mod guesses;
mod reading;
mod reading_records;

pub use reading::decode;
pub use reading_records::{decode_input, decode_input_v1};
pub use wire;
