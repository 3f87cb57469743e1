//! Transactions: their identifiers, their statuses, the status tables of the three roles, and moments.
#![tactic(auto)]

mod content;
mod id;
mod id_order;
mod moment;
mod order;
mod rows;
mod status;
mod tables;

pub use content::Content;
pub use id::TransactionId;
pub use id_order::order_of_ids;
pub use moment::{Moment, MomentFault};
pub use order::Order;
pub use rows::{RecordedStatus, Role, Row, RowInput};
pub use status::Status;
pub use tables::row;
