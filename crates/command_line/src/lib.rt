//! The words of the command line: which action they name, and the help.
#![tactic(auto)]

mod actions;
mod notes;
mod parsing;

pub use actions::{Action, Extent, Missing, NodeWords, Strictness};
pub use parsing::{UsageFault, parse_words};
