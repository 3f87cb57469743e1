//! A transfer in an acquirer's table.
ghost use Rattle.std.specs.Prelude.{◌≡◌, option_copied};
ghost use Rattle.acquirer.specs.Transfers as transfers;

use status::{Content, RecordedStatus, RowInput, Status};

/// A transfer in the table of its acquirer: where it stands, and its content, or `None` where it was cancelled before
/// its proposal came.
#[derive(Debug)]
pub struct IncomingTransfer {
    pub status: Status,
    pub content: Option<Content>,
}

// Written out, since a derived destructor is proved anew in each crate that lets a value go.
impl Drop for IncomingTransfer {
    fn drop(self) {
        let IncomingTransfer { status, content } = self;
        drop(status);
        drop(content);
    }
}

impl IncomingTransfer {
    /// Its recorded status, as the status table takes it.
    pub(crate) fn known(&self) -> RecordedStatus
        ensures { result ≡ transfers.known_of self.now }
    {
        match self.content {
            Some(_) => RecordedStatus::Stands(self.status),
            None => RecordedStatus::Bare,
        }
    }
}
