//! A message that isn't acknowledged.

use units::Code;

/// A message that isn't acknowledged: the registry that it goes to, or `None` where it goes to the log, and its key.
#[derive(Clone, Copy, Debug, PartialEq, Eq, PartialOrd, Ord)]
pub(crate) struct Unacknowledged {
    pub registry: Option<Code>,
    pub key: usize,
}
