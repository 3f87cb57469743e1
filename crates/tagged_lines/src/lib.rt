//! Lines with tags: a reader and a writer for each side of a connection over which one message goes.
#![tactic(auto)]

mod checking_reader;
mod laws;
mod line;
mod message;
mod message_writer;
mod opening_reader;
mod reply_writer;
mod sender;
mod sending;

pub use checking_reader::CheckingReader;
pub use laws::given_has_tag;
pub use message::{KeyedMessage, MessageCell};
pub use message_writer::MessageWriter;
pub use opening_reader::{OpeningReader, Stage};
pub use reply_writer::ReplyWriter;
