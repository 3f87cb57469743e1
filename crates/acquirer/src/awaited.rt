//! Transfers that accounts await.
ghost use Rattle.std.specs.BTreeSet.{contains};
ghost use Rattle.std.specs.Prelude.{◌≡◌, ◌||◌, ◌&&◌, not, ℕ, true, false, Some, IfSome, IfNone, OnOk, OnErr};
ghost use Rattle.acquirer.specs.Awaiting.{awaited_cmp, is_awaited_entry};
ghost use Rattle.acquirer.specs.Transfers.{is_awaited_by};
ghost use Rattle.acquirer.specs.declared.awaited.Awaited.{Awaited};
ghost use Rattle.status.specs.Id.{id_cmp, same_id};
ghost use Rattle.std.specs.Ordering.{is_gt};
ghost use Rattle.status.specs.declared.id.TransactionId.{TransactionId};

use crate::transfer::IncomingTransfer;
use status::{Status, TransactionId};
use std::collections::BTreeSet;
use units::NoMemory;

/// A transfer that was accepted, by the account that it goes to.
#[derive(Clone, Copy, Debug, PartialEq, Eq, PartialOrd, Ord)]
pub(crate) struct Awaited {
    pub account: u64,
    pub id: TransactionId,
}

/// The entry of a transfer among those that are awaited, or `None` where it isn't awaited.
pub(crate) fn awaited_of(id: TransactionId, transfer: &IncomingTransfer) -> Option<Awaited>
    ensures { (q : Awaited) → is_awaited_entry q result ≡ (same_id id q.id && is_awaited_by q.account
        (Some transfer.now)) }
{
    let content = transfer.content.as_ref()?;
    if transfer.status != Status::Accepted {
        return None;
    }
    Some(Awaited {
        account: content.to_account(),
        id,
    })
}

/// Adds the entry, if there is one. After `NoMemory` nothing has changed.
pub(crate) fn remember(
    awaited: &mut BTreeSet<Awaited>,
    entry: Option<Awaited>,
) -> Result<(), NoMemory>
    ensures ok { OnOk result ((q : Awaited)
        → contains awaited_cmp awaited.new q ≡ (contains awaited_cmp awaited.old q || is_awaited_entry q entry)) }
    ensures err { OnErr result ((q : Awaited)
        → contains awaited_cmp awaited.new q ≡ contains awaited_cmp awaited.old q) }
{
    if let Some(entry) = entry {
        awaited.insert(entry)?;
    }
    Ok(())
}

/// Removes the entry.
pub(crate) fn forget(awaited: &mut BTreeSet<Awaited>, entry: Option<Awaited>)
    ensures { (q : Awaited) → contains awaited_cmp awaited.new q ≡ (contains awaited_cmp awaited.old q && not
        (is_awaited_entry q entry)) }
{
    if let Some(entry) = entry {
        awaited.remove(&entry);
    }
}

/// An entry of the account that comes before all its transfers.
fn start_of(account: u64) -> Awaited
    ensures account { result.account ≡ account }
    ensures least { (t : TransactionId) → is_gt (id_cmp result.id t) ≡ false }
{
    Awaited {
        account,
        id: TransactionId::LEAST,
    }
}

/// A transfer that the account awaits, if there is one.
pub(crate) fn first_awaited(awaited: &BTreeSet<Awaited>, account: u64) -> Option<Awaited>
    ensures some { IfSome result (λ q. (q.account ≡ account) × (contains awaited_cmp awaited.now q ≡ true)) }
    ensures none { IfNone result ((q : Awaited) → q.account ≡ account → contains awaited_cmp awaited.now q ≡ false) }
{
    let start = start_of(account);
    let found = awaited.range(start..).next()?;
    if found.account == account {
        Some(*found)
    } else {
        None
    }
}
