//! A registry's holdings: which units are in which account, and which of them are reserved.
#![tactic(auto)]

mod account;
mod apart;
mod holdings;
mod lines;
mod reservation;
mod unit_holding;

pub use holdings::Holdings;
pub use unit_holding::{AccountStatus, HeldBlock, UnitHolding};
