//! The command `trace`: the records of one transaction in the stores of all nodes, in the order of one run.
#![tactic(auto)]

mod following;
mod sent;
mod text;
mod tracing;

pub use tracing::trace;
