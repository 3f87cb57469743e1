//! The table of an initiator's transfers.
ghost use Rattle.std.specs.BTreeMap as tree;
ghost use Rattle.std.specs.Prelude.{◌≡◌, Some, OnErr, OnOk, option_map, if◌then◌else◌};
ghost use Rattle.initiator.specs.Transfers.{asked, opened, concluded};
ghost use Rattle.status.specs.Id.{id_cmp, same_id};
ghost use Rattle.status.specs.declared.id.TransactionId.{TransactionId};

use crate::transfer::{Cancellation, OutgoingTransfer};
use checks::table;
use status::{Status, TransactionId};
use std::collections::BTreeMap;
use units::NoMemory;

/// Adds a new transfer. After `NoMemory` nothing has changed.
pub(crate) fn open(
    transfers: &mut BTreeMap<TransactionId, OutgoingTransfer>,
    id: TransactionId,
) -> Result<(), NoMemory>
    ensures ok { OnOk result ((t : TransactionId)
        → tree.get id_cmp transfers.new t ≡ (if same_id id t then Some opened else tree.get id_cmp transfers.old t)) }
    ensures err { OnErr result (transfers.new.entries ≡ transfers.old.entries) }
{
    let transfer = OutgoingTransfer {
        status: Status::Proposed,
        cancellation: Cancellation::NotAsked,
    };
    table::put(transfers, id, transfer)
}

/// Notes that the transfer's cancellation was asked for.
pub(crate) fn ask(transfers: &mut BTreeMap<TransactionId, OutgoingTransfer>, id: TransactionId)
    ensures { (t : TransactionId)
        → tree.get id_cmp transfers.new t
        ≡ (if same_id id t then option_map asked
        (tree.get id_cmp transfers.old t) else tree.get id_cmp transfers.old t) }
{
    if let Some(transfer) = transfers.get_mut(&id) {
        transfer.cancellation = Cancellation::Asked;
    }
}

/// Moves the transfer to that status.
pub(crate) fn conclude(
    transfers: &mut BTreeMap<TransactionId, OutgoingTransfer>,
    id: TransactionId,
    new: Status,
)
    ensures { (t : TransactionId)
        → tree.get id_cmp transfers.new t
        ≡ (if same_id id t then option_map (concluded new)
        (tree.get id_cmp transfers.old t) else tree.get id_cmp transfers.old t) }
{
    if let Some(transfer) = transfers.get_mut(&id) {
        transfer.status = new;
    }
}
