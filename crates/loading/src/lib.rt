//! The stores of all nodes, read: the cores that their records lead to, and the one run that leads to all of them. The
//! commands that read a folder's stores share it.
#![tactic(auto)]

mod cores;
mod runs;

pub use cores::load_cores;
pub use runs::{fault_of, load_run, read_first, table_of_cores};
