//! The lines that people write: those of events, of scripts and of a node's operator, each with one space between its
//! words; and the reading of an input's lines one after another.
#![tactic(auto)]

mod cutting;
mod events;
mod instruction;
mod instructions;
mod line;
mod orders;
mod reading;
mod script;
mod script_line;
mod verbs;
mod written;

pub use cutting::input_line;
pub use events::event_of;
pub use instruction::{Instruction, MOST_TURNS};
pub use instructions::instruction_of;
pub use line::WordsFault;
pub use reading::{WrittenLine, next_line};
pub use script::read_script;
pub use script_line::{ScriptLine, script_line_of};
pub use written::line_of;
