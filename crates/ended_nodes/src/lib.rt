//! The nodes after a run: their notes are settled, and the table of a run that leads to their records.
#![tactic(auto)]

mod ended;

pub use ended::{EndedNode, report_run, settle_node, table_of_ended};
