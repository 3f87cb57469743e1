//! The TCP connections of a run's nodes with one another, over the loopback interface, and those of a node with
//! strangers, which wait outside its sessions for their lines.
#![tactic(auto)]

mod accept_faults;
mod dialled;
mod line_port;
mod notice;
mod port;
mod ports;

pub use connections::{LONGEST_LINE_TIME, MOST_CONNECTIONS, is_loopback};
pub use dialled::Dialled;
pub use line_port::LinePort;
pub use notice::{Notice, Trouble};
pub use port::Port;
pub use ports::Ports;
