//! The meaning of the words of the command `node`: which node it is, where it listens, its peers with their addresses,
//! and how often its clock orders a clean-up; and the sum of a scheme.
#![tactic(auto)]

mod peers;
mod setup;
mod sum;
mod words;

pub use setup::{Setup, read_setup};
pub use sum::sum_of;
