//! From journals of all nodes back to one run: a list of events that leads to them, or the result that there is none;
//! and the furthest cut of them that some list of events leads to.
#![tactic(auto)]

mod committed;
mod cores;
mod cut;
mod fault;
mod following;
mod giving;
mod left;
mod numbers;
mod watch;
mod weaving;

pub use cut::{Cut, Rest, cut_cores};
pub use fault::WeaveFault;
pub use watch::{Nobody, Watch};
pub use weaving::{Woven, weave, weave_cores};
