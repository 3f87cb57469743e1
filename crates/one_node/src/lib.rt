//! The command `node`: one node of a scheme with its threads, and the lines that its operator writes.
#![tactic(auto)]

mod answering;
mod evidence;
mod exporting;
mod living;
mod operator;
mod reading;
mod threads;
mod timer;

pub use answering::OperatorFault;
pub use exporting::{Exporter, NotExported};
pub use living::{Setting, run_alone};
