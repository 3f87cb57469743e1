//! The lines that commands write: one for each event's outcome, and those of the table of a world, with the law of
//! their numbers; and messages in words.
#![tactic(auto)]

mod debts;
mod form;
mod holdings;
mod messages;
mod outcomes;
mod safe_worlds;
mod table;
mod totals;
mod transactions;

pub use form::{Form, end_line};
pub use messages::{message_word, push_message};
pub use outcomes::{push_outcome, push_outcome_text};
pub use table::push_table;
pub use totals::tonnes_add_up;
