//! The command `show`: the records of one node's store.
#![tactic(auto)]

mod showing;

pub use showing::show;
