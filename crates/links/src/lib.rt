//! Connections whose messages and replies have tags, over any connections between nodes.
#![tactic(auto)]

mod dialer;
mod listener;
mod tagged;

pub use tagged::Tagged;
pub use tagged_lines::{CheckingReader, MessageWriter, OpeningReader, ReplyWriter};
