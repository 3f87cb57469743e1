//! The command `explain`: the text of the documents about a code, a status, an outcome or a fault.
#![tactic(auto)]

mod asking;
mod explaining;
mod format_topics;
mod naming;
mod pieces;
mod protocol_topics;
mod table_topics;
mod topics;

pub use explaining::explain;
pub use topics::names_differ;
