//! The messages of nodes and the records of their journals: their types, the grammar of their texts, and how they are
//! written. `wire_lines` reads them.
#![tactic(auto)]

mod codes;
mod input;
mod laws;
mod members;
mod message;
mod notified;
mod record_format;
mod reply;
mod reply_code;
mod same;
mod writing;
mod writing_records;

pub use codes::{AcquirerCodes, LogCodes};
pub use input::{Input, Number};
pub use json_fields::TextFault;
pub use laws::{one_input, one_message};
pub use message::{Body, Message, Proposal, ProposalStatus};
pub use notified::NotifiedStatus;
pub use record_format::RecordFormat;
pub use reply::{Reply, ReplyFault, one_reply};
pub use reply_code::ReplyCode;
pub use streams::{Line, LineFault, Splitter, Truncated, cuts};
pub use writing::encode;
pub use writing_records::encode_input;
