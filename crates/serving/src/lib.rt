//! A node at its desk: an order or a question, its result once the records are committed that it rests on, and the end
//! of the desk. `run` and `one_node` serve their nodes by it.
#![tactic(auto)]

mod answer;
mod asking;
mod desks;
mod ends;
mod orders;
mod starting;
mod watch;

pub use answer::{ScriptAnswer, first_undone, lines_of, push_answer};
pub use asking::{ask, ask_copy};
pub use desks::desk_of;
pub use ends::end_desk;
pub use orders::takes;
pub use starting::Starting;
pub use watch::{Nobody, Watch, tell_committed};

// The nodes are those of a world.
pub use world;
