//! A transfer in an initiator's table.

ghost use Rattle.std.specs.Prelude.{◌≡◌, ◌⊎◌};
ghost use Rattle.initiator.specs.Transfers as transfers;
ghost use Rattle.status.specs.declared.rows.RowInput.TheVariants as words;

use status::{RecordedStatus, RowInput, Status};

/// Whether an order to ask for a transfer's cancellation is recorded.
#[derive(Clone, Copy, Debug, PartialEq, Eq)]
pub enum Cancellation {
    NotAsked,
    Asked,
}

/// A transfer in the table of its initiator: where it stands, and whether its cancellation was asked for.
#[derive(Clone, Copy, Debug, PartialEq, Eq)]
pub struct OutgoingTransfer {
    pub status: Status,
    pub cancellation: Cancellation,
}

/// The recorded status of a transfer, as the status table takes it.
pub(crate) fn known(transfer: Option<OutgoingTransfer>) -> RecordedStatus
    ensures { result ≡ transfers.known_transfer transfer }
{
    match transfer {
        Some(transfer) => RecordedStatus::Stands(transfer.status),
        None => RecordedStatus::Unknown,
    }
}

/// Whether it stands Proposed.
pub(crate) fn is_proposed(transfer: Option<OutgoingTransfer>) -> bool
    ensures { result ≡ transfers.is_still_proposed transfer }
{
    match transfer {
        Some(transfer) => transfer.status == Status::Proposed,
        None => false,
    }
}

/// The column of an order to ask for its cancellation.
pub(crate) fn request_column(transfer: Option<OutgoingTransfer>) -> RowInput
    ensures value { result ≡ transfers.column_of_request transfer }
    ensures either { (result ≡ words.RequestOrder) ⊎ (result ≡ words.RepeatedRequestOrder) }
{
    match transfer {
        Some(transfer) if transfer.cancellation == Cancellation::Asked =>
            RowInput::RepeatedRequestOrder,
        _ => RowInput::RequestOrder,
    }
}
