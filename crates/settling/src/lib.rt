//! Whether one thread alone would have made the notes of all threads at a node's state.
#![tactic(auto)]

mod counting;
mod judging;
mod life;
mod replica;
mod settling;

pub use life::{Life, Settled, Unsettled};
pub use replica::{Replica, begins_with};
pub use settling::{settle, settle_with};
