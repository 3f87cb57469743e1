//! Journals that outlive the process: a node's store in a file of SQLite.
#![tactic(auto)]

mod backing;
mod fault;
mod open_store;
mod opening;
mod sql_store;
mod store_state;

pub use sql_store::SqlStore;
pub use store_migration::{Nobody, Watch};
