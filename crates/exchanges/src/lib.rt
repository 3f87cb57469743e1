//! One message and its reply, and a session of lines and replies, over any reader and any writer.
#![tactic(auto)]

mod answerer;
mod counted;
mod ends;
mod pieces;
mod reading;
mod replying;
mod serving;
mod swapping;

pub use answerer::Answerer;
pub use counted::Counted;
pub use ends::{Exchange, SessionEnd};
pub use serving::serve_session;
pub use swapping::exchange;
