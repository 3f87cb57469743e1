//! The table of the transfers to an acquirer, and which of them are awaited.
ghost use Rattle.std.specs.BTreeMap as tree;
ghost use Rattle.std.specs.Prelude.{◌≡◌, ◌&&◌, false, None, Some, OnErr, OnOk, option_map, if◌then◌else◌};
ghost use Rattle.acquirer.specs.Awaiting.{AreAwaited, is_awaited_entry};
ghost use Rattle.acquirer.specs.Transfers.{is_awaited_by, finished};
ghost use Rattle.acquirer.specs.declared.awaited.Awaited.{Awaited};
ghost use Rattle.status.specs.Id.{id_cmp, same_id};
ghost use Rattle.status.specs.Status.{same_status};
ghost use Rattle.status.specs.declared.id.TransactionId.{TransactionId};
ghost use Rattle.status.specs.declared.status.Status.TheVariants as words;

use crate::awaited::{Awaited, awaited_of, forget, remember};
use crate::transfer::IncomingTransfer;
use checks::table;
use status::{Status, TransactionId};
use std::collections::{BTreeMap, BTreeSet};
use units::NoMemory;

/// Adds a transfer. After `NoMemory` nothing has changed.
pub(crate) fn put(
    transfers: &mut BTreeMap<TransactionId, IncomingTransfer>,
    awaited: &mut BTreeSet<Awaited>,
    id: TransactionId,
    transfer: IncomingTransfer,
) -> Result<(), NoMemory>
    requires absent { tree.get id_cmp transfers.old id ≡ None }
    requires kept { AreAwaited transfers.old awaited.old }
    ensures ok { OnOk result ((t : TransactionId)
        → tree.get id_cmp transfers.new t ≡ (if same_id id t then Some transfer else tree.get id_cmp transfers.old t)) }
    ensures err { OnErr result (transfers.new.entries ≡ transfers.old.entries) }
    ensures kept { AreAwaited transfers.new awaited.new }
{
    let entry = awaited_of(id, &transfer);
    remember(awaited, entry)?;
    if let Err(refused) = table::put(transfers, id, transfer) {
        forget(awaited, entry);
        return Err(refused);
    }
    Ok(())
}

/// The entry of the transfer with that identifier among those that are awaited, or `None` where it isn't awaited.
fn awaited_in(
    transfers: &BTreeMap<TransactionId, IncomingTransfer>,
    id: TransactionId,
) -> Option<Awaited>
    ensures { (q : Awaited) → is_awaited_entry q result ≡ (same_id id q.id && is_awaited_by q.account
        (tree.get id_cmp transfers.now id)) }
{
    match transfers.get(&id) {
        Some(transfer) => awaited_of(id, transfer),
        None => None,
    }
}

/// Sets the transfer's status.
fn set_status(
    transfers: &mut BTreeMap<TransactionId, IncomingTransfer>,
    id: TransactionId,
    new: Status,
)
    ensures { (t : TransactionId)
        → tree.get id_cmp transfers.new t
        ≡ (if same_id id t then option_map (finished new)
        (tree.get id_cmp transfers.old t) else tree.get id_cmp transfers.old t) }
{
    if let Some(transfer) = transfers.get_mut(&id) {
        transfer.status = new;
    }
}

/// Moves the transfer to that status, which isn't Accepted.
pub(crate) fn finish(
    transfers: &mut BTreeMap<TransactionId, IncomingTransfer>,
    awaited: &mut BTreeSet<Awaited>,
    id: TransactionId,
    new: Status,
)
    requires over { same_status new words.Accepted ≡ false }
    requires kept { AreAwaited transfers.old awaited.old }
    ensures transfers { (t : TransactionId)
        → tree.get id_cmp transfers.new t
        ≡ (if same_id id t then option_map (finished new)
        (tree.get id_cmp transfers.old t) else tree.get id_cmp transfers.old t) }
    ensures kept { AreAwaited transfers.new awaited.new }
{
    forget(awaited, awaited_in(transfers, id));
    set_status(transfers, id, new);
}
