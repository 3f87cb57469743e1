//! Whether the result of a call is confirmed.

use node_state::{Receipt, Taken};

/// Whether the records are committed that the journal had when a result was taken.
#[derive(Drop)]
pub(crate) enum Confirmation {
    /// All of them are.
    Committed(Receipt),
    /// Not all are, and the state runs. The taken result is handed back.
    Awaited(Taken),
    /// Not all are, and the state has stopped.
    Stopped,
}
