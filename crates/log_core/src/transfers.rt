//! The table of the log's transactions.
ghost use Rattle.std.specs.BTreeMap as tree;
ghost use Rattle.std.specs.Prelude.{◌≡◌, option_map, option_copied, if◌then◌else◌};
ghost use Rattle.log_core.specs.Transfers as asked;
ghost use Rattle.log_core.specs.Transfers.{came_at, transfer_state_of};
ghost use Rattle.log_core.specs.Effects.{transfer_state_content};
ghost use Rattle.status.specs.Id.{id_cmp, same_id};
ghost use Rattle.status.specs.declared.id.TransactionId.{TransactionId};

use crate::transfer::LoggedTransfer;
use status::{Content, Moment, RecordedStatus, Status, TransactionId};
use std::collections::BTreeMap;

/// Sets the transaction's status, since that moment.
pub(crate) fn set_status(
    transfers: &mut BTreeMap<TransactionId, LoggedTransfer>,
    id: TransactionId,
    new: Status,
    moment: Moment,
)
    ensures { (t : TransactionId)
        → tree.get id_cmp transfers.new t
        ≡ (if same_id id t then option_map (came_at new moment)
        (tree.get id_cmp transfers.old t) else tree.get id_cmp transfers.old t) }
{
    if let Some(transfer) = transfers.get_mut(&id) {
        transfer.status = new;
        transfer.since = moment;
    }
}

/// The transaction's recorded status, as the status table takes it.
pub(crate) fn known(
    transfers: &BTreeMap<TransactionId, LoggedTransfer>,
    id: TransactionId,
) -> RecordedStatus
    ensures { result ≡ asked.known_transfer_state (transfer_state_of transfers.now id) }
{
    match transfers.get(&id) {
        Some(transfer) => transfer.known(),
        None => RecordedStatus::Unknown,
    }
}

/// The content of the transaction, or `None` where none is recorded.
pub(crate) fn content(
    transfers: &BTreeMap<TransactionId, LoggedTransfer>,
    id: TransactionId,
) -> Option<&Content>
    ensures { option_copied result ≡ transfer_state_content (transfer_state_of transfers.now id) }
{
    let transfer = transfers.get(&id)?;
    transfer.content.as_ref()
}

/// Where the transaction stands, or `None` where no record is about it.
pub(crate) fn status(
    transfers: &BTreeMap<TransactionId, LoggedTransfer>,
    id: TransactionId,
) -> Option<Status>
    ensures { result ≡ option_map (λ x. x.status) (transfer_state_of transfers.now id) }
{
    let transfer = transfers.get(&id)?;
    Some(transfer.status)
}
