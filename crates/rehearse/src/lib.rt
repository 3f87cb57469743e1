//! The command `rehearse`: a written list of events, run from the opening world of a scheme.
#![tactic(auto)]

mod rehearsal;

pub use rehearsal::rehearse;
