//! The connections that a port holds until their lines are whole, and addresses of the loopback interface.
#![tactic(auto)]

mod arriving;
mod held;
mod loopback;
mod waiting;

pub use arriving::{ArrivedLine, Arriving};
pub use held::Held;
pub use loopback::{
    LONGEST_WAIT, at_loopback, directions, is_loopback, limit_waits, limit_waits_to,
};
pub use waiting::{Connections, LONGEST_LINE_TIME, MOST_CONNECTIONS, Ready, Waiter};
