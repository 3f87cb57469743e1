//! The content of a notification.

use crate::codes::{AcquirerCodes, LogCodes};

/// The status of a transfer, as one node notifies another of it, with the codes of the findings if the transfer failed.
#[derive(Debug, Drop)]
pub enum NotifiedStatus {
    Accepted,
    /// By the acquirer, for these findings.
    Rejected(AcquirerCodes),
    /// By the log, for these findings.
    Terminated(LogCodes),
    Cancelled,
    Completed,
}
