//! A node's state for several threads, and the notes that each thread makes of it.
#![tactic(auto)]

mod loading;
mod notes;
mod seat;
mod state;

pub use notes::{Asked, Lengths, Note, Ticket, Told, is_unjudged};
pub use seat::Seat;
pub use state::{Receipt, State, Taken, tell};

// A state is loaded from a store.
pub use stores;
