//! The command `run`: a script that is played at the desks of nodes with threads of their own, and the table that their
//! records lead to.
#![tactic(auto)]

mod gathering;
mod playing;
mod running;
mod script;
mod taking;
mod threads;
mod wiring;

pub use running::{EndedRun, run_script};
pub use script::Script;
