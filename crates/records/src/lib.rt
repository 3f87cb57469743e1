//! A node's journal, the messages that its records send, by number, and which of these were acknowledged.
#![tactic(auto)]

mod awaiting;
mod outbox;
mod record;
mod records;
mod unacknowledged;

pub use outbox::Outbox;
pub use records::Records;
