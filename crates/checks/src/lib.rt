//! Numbered checks of orders and transfers: the refusals of an order by a registry, and the findings of the acquirer
//! and of the log.
#![tactic(auto)]

mod acquirer;
mod blocks;
mod canonical;
mod column;
mod findings;
mod log;
mod order;
mod register;
mod registries;
pub mod table;

pub use acquirer::{acquirer_findings, holds_some};
pub use blocks::has_repeats;
pub use column::column_of_proposal;
pub use log::{is_eligible, log_findings};
pub use order::{NewTransfer, propose_check};
pub use register::{BookEntry, Register, UnderWay};
