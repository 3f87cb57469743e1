//! The log of a scheme, as the core of its node.
#![tactic(auto)]

mod cleaning;
mod deciding;
mod effect;
mod log;
mod messages;
mod moving;
mod opening;
mod refusals;
mod register;
mod registries;
mod tables;
mod taking;
mod transfer;
mod transfers;
mod waiting;

pub use log::LogCore;
