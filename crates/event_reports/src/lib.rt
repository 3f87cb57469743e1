//! Reports on a written list of events under a scheme. The commands `rehearse` and `chart` make one each.
#![tactic(auto)]

mod reporting;

pub use reporting::{Reporter, report_input};
