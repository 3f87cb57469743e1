//! The command `audit`: finds one run that leads to the records of all nodes' stores, or the run that leads furthest,
//! and writes the table of its world.
#![tactic(auto)]

mod auditing;
mod cutting;

pub use auditing::{audit, audit_watched};
pub use cutting::audit_cut;
pub use report::Form;
