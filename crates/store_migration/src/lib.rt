//! The migration of a store of format One, whose records an older version wrote, to format Two, in one transaction.
#![tactic(auto)]

mod migrating;
mod watch;

pub use migrating::migrate;
pub use watch::{Nobody, Watch};
