//! Transactions in the order in which clean-ups cancel them.
ghost use Rattle.std.specs.BTreeSet.{contains};
ghost use Rattle.std.specs.Prelude.{◌≡◌, ◌||◌, ◌&&◌, not, OnOk, OnErr};
ghost use Rattle.log_core.specs.Kept.{waiting_cmp};
ghost use Rattle.log_core.specs.Transfers.{is_waiting_entry};
ghost use Rattle.log_core.specs.declared.waiting.Waiting as declared;

use status::{Moment, TransactionId};
use std::collections::BTreeSet;
use units::NoMemory;

/// A transaction that stands Checked, and since when.
#[derive(Clone, Copy, Debug, PartialEq, Eq, PartialOrd, Ord)]
pub(crate) struct Waiting {
    pub since: Moment,
    pub id: TransactionId,
}

/// Adds the entry. After `NoMemory` nothing has changed.
pub(crate) fn remember(checked: &mut BTreeSet<Waiting>, entry: Waiting) -> Result<(), NoMemory>
    ensures ok { OnOk result ((w : declared.Waiting)
        → contains waiting_cmp checked.new w ≡ (contains waiting_cmp checked.old w || is_waiting_entry w entry)) }
    ensures err { OnErr result ((w : declared.Waiting)
        → contains waiting_cmp checked.new w ≡ contains waiting_cmp checked.old w) }
{
    checked.insert(entry)?;
    Ok(())
}

/// Removes the entry.
pub(crate) fn forget(checked: &mut BTreeSet<Waiting>, entry: Waiting)
    ensures { (w : declared.Waiting)
        → contains waiting_cmp checked.new w ≡ (contains waiting_cmp checked.old w && not (is_waiting_entry w entry)) }
{
    checked.remove(&entry);
}
