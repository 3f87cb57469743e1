//! All nodes of a scheme, each with its core, and the bag of posted messages: one world, which moves by events.
#![tactic(auto)]

mod any_core;
mod reached;
mod station;
mod stations;
mod views;
mod world;

pub use any_core::Core;
pub use protocol::{Outcome, Posted, WorldEvent};
pub use reached::ReachedWorld;
pub use views::{ProposedTransfer, Stock};
pub use world::World;
