//! Messages, and the values of their fields, read from JSON objects.
#![tactic(auto)]

mod lists;
mod reading;
mod values;

pub use lists::raw_blocks;
pub use reading::message;
pub use values::{code_at, has_number, has_text, id_at, moment_at, short_at, whole_at};
