//! JSON objects: the values at their keys, the faults of values outside a grammar, and compact texts.
#![tactic(auto)]

mod fault;
mod json_text;
mod object;

pub use fault::TextFault;
pub use json_text::JsonText;
pub use object::{bool_at, has_keys, list_at, number_at, text_at, value_at};
