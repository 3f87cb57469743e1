//! A registry.
#![tactic(auto)]

mod effect;
mod opening;
mod refusals;
mod registry;
mod tables;
mod taking;

pub use registry::RegistryCore;

// The holdings of a registry.
pub use accounts;
