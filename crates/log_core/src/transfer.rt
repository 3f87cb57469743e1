//! A transaction in the log's tables.
ghost use Rattle.std.specs.Prelude.{◌≡◌, Some};
ghost use Rattle.log_core.specs.Readings.{of_transfer};
ghost use Rattle.log_core.specs.Transfers as transfers;

use status::{Content, Moment, RecordedStatus, Status};

/// A transaction: its status, its content where that is known, and since when it has that status.
#[derive(Debug, Drop)]
pub(crate) struct LoggedTransfer {
    pub status: Status,
    pub content: Option<Content>,
    pub since: Moment,
}

impl LoggedTransfer {
    /// Its recorded status, as the status table takes it.
    pub(crate) fn known(&self) -> RecordedStatus
        ensures { result ≡ transfers.known_transfer_state (Some (of_transfer self.now)) }
    {
        match self.content {
            Some(_) => RecordedStatus::Stands(self.status),
            None => RecordedStatus::Bare,
        }
    }
}
