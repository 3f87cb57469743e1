//! The two tables of a node's store in a database of SQLite: `entries` with its records, and `about` with its owner and
//! their format. The crate has their layout, their content, and the statements on them, one function for each, over any
//! connection.
#![tactic(auto)]

mod batch;
mod fault;
mod layout;
mod owner_row;
mod reading;

pub use batch::append;
pub use fault::fault_of;
pub use layout::{Tables, tables_of};
pub use owner_row::{FileOwner, owner_in, place_in};
pub use reading::{bodies, rows_inside, rows_of};
