//! The role of the registry that a transfer goes to.
#![tactic(auto)]

mod acquirer;
mod awaited;
mod messages;
mod table;
mod transfer;

pub use acquirer::Acquirer;
pub use transfer::IncomingTransfer;
