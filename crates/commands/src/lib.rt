//! The commands, over any files and stores that their words name.
#![tactic(auto)]

mod archive;
mod exports;
mod obeying;
mod opening;
mod performing;
mod progress;
mod running;
mod standing;

pub use archive::{Archive, Unopened};
pub use obeying::{CommandEnd, obey};
pub use opening::scheme_at;
pub use progress::Progress;

// The actions, the faults that they end with, and the watches of their progress.
pub use command_faults;
pub use command_line;
pub use serving;
pub use weave;

// What a node writes of its troubles.
pub use sockets::{Notice, Trouble};
