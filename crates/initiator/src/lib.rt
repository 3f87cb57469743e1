//! The role of the registry that a transfer leaves.
#![tactic(auto)]

mod initiator;
mod messages;
mod table;
mod transfer;

pub use initiator::Initiator;
pub use transfer::{Cancellation, OutgoingTransfer};
