//! Laws of units and of tables, over every scheme and every list of events: a unit keeps its kind, and arrives in the
//! account that its proposal names; a list of events has one table. This crate has no code that runs: each function has
//! an empty body, and its clauses are the law.
#![tactic(auto)]

mod arrivals;
mod kinds;
mod tables;

pub use arrivals::units_arrive_where_proposed;
pub use kinds::kinds_stay;
pub use tables::events_have_one_table;
