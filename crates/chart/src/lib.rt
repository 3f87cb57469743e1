//! The command `chart`: a written list of events as Mermaid's sequence diagram of the nodes' actions and of the
//! messages between them.
#![tactic(auto)]

mod charting;
mod events;
mod messages;
mod orders;
mod table;

pub use charting::chart;
