//! The threads of a node, over any connections, clock and store.
#![tactic(auto)]

mod back_off;
mod connections;
mod delivery;
mod direction;
mod elapsed;
mod joined;
mod network;
mod node_threads;
mod running;
mod senders;
mod sending;
mod session_threads;
mod start_barrier;
mod watched_reader;
mod workers;

pub use connections::{Accepted, Dial, Listen};
pub use direction::Direction;
pub use joined::JoinedNetwork;
pub use network::Network;
pub use node_threads::{NodeThreads, WORKERS};
pub use running::{new_seats, run_all, run_node};
pub use session_threads::SESSION_THREADS;
pub use start_barrier::{LONGEST_START, StartBarrier, Started};
pub use watched_reader::{MOST_SESSION_LINES, WatchedReader};

// A node stands at a desk.
pub use desk;
