//! The command `events`: a run that leads to the records of all nodes' stores, as `rehearse` reads it or as JSON.
#![tactic(auto)]

mod listing;
mod objects;
mod text;

pub use listing::{ends_with_audits_table, list_events};
pub use text::is_rehearsal;
