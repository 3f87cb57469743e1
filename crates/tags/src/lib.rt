//! Keys that nodes share, and the tags of messages and replies under them: HMAC-SHA-256 (RFC 2104).
#![tactic(auto)]

mod hashing;
mod key;
mod key_file;
mod keys;
mod tag;

pub use hashing::hmac;
pub use key::{KEY_BYTES, Key};
pub use key_file::{KeysFault, MOST_KEYS};
pub use keys::Keys;
pub use tag::{TAG_DIGITS, Tag, split_tagged};
