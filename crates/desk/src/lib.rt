//! A node's state and its store for several threads, which wait for its commits.
#![tactic(auto)]

mod at_desk;
mod bell;
mod bells;
mod clock;
mod confirmation;
mod desk;
mod gate;
mod locked;
mod opening;
mod shared_node;
mod stored;

pub use at_desk::BATCH;
pub use bell::{Bell, LONGEST_QUIET, RoomBell};
pub use bells::Bells;
pub use clock::{Clock, WallClock};
pub use desk::{Desk, Ended};
pub use gate::{Gate, OpenGate, Spot};
pub use node_state::{
    Asked, Lengths, Note, Receipt, Seat, State, Taken, Ticket, Told, is_unjudged,
};
pub use opening::Opening;
pub use settling::{Life, Settled, Unsettled, settle, settle_with};
pub use shared_node::SharedNode;
pub use stored::Stored;

// A desk owns a store.
pub use stores;
