//! Moves of transactions to a status, in all tables that depend on it.
//!
//! Four tables depend on the status of a transaction, and no call may leave two of them inconsistent, even where memory
//! runs out between two of its changes:
//!
//! - `transfers` has each transaction with its status, its content, and the moment of that status;
//! - `checked` has those that stand Checked alone, the oldest first: a clean-up finds them without a walk over all;
//! - `under_way` has for a unit the transaction that it is in, which stands Checked or Accepted; a unit is in one at
//!   most, since a proposal of a unit under way is refused;
//! - `book` has the owner of each unit, which changes only where a transaction moves to Completed.
//!
//! Each call first makes the changes that may need memory (an entry of `checked`, spans of `under_way` or of `book`),
//! undoes them where the next one runs out of memory, and ends with the changes that take none.
ghost use Rattle.std.specs.BTreeMap as tree;
ghost use Rattle.std.specs.BTreeSet.{contains};
ghost use Rattle.std.specs.FinMap as map;
ghost use Rattle.std.specs.Prelude.{◌≡◌, ◌&&◌, ◌||◌, not, true, false, Some, None, OnErr, OnOk, option_map, option_copied, if◌then◌else◌};
ghost use Rattle.units.specs.Intervals.{labels_that};
ghost use Rattle.units.specs.declared.block.Unit.{Unit as Serial};
ghost use Rattle.status.specs.Id.{id_cmp, same_id};
ghost use Rattle.status.specs.Status.{same_status};
ghost use Rattle.status.specs.declared.id.TransactionId as declared_id;
ghost use Rattle.status.specs.declared.status.Status.TheVariants as words;
ghost use Rattle.protocol.specs.History.{has_serial};
ghost use Rattle.log_core.specs.Effects.{transfer_state_content, handed_over, is_among};
ghost use Rattle.log_core.specs.Kept.{waiting_cmp};
ghost use Rattle.log_core.specs.Transfers.{AreLabelled, AreWaiting, IsApart, came_at, is_waiting_entry, transfer_state_of};
ghost use Rattle.log_core.specs.declared.waiting.Waiting as declared;

use crate::register;
use crate::transfer::LoggedTransfer;
use crate::transfers::{content, set_status};
use crate::waiting::{Waiting, forget, remember};
use checks::table::{put, take_out};
use checks::{BookEntry, UnderWay};
use status::{Content, Moment, Status, TransactionId};
use std::collections::{BTreeMap, BTreeSet};
use units::{NoMemory, UnitMap};

/// Adds a transfer with that content, Checked since that moment. After `NoMemory` nothing has changed.
fn start(
    under_way: &mut UnitMap<UnderWay>,
    checked: &mut BTreeSet<Waiting>,
    content: Option<&Content>,
    entry: Waiting,
) -> Result<(), NoMemory>
    requires apart { IsApart (option_copied content) }
    requires absent { (w : declared.Waiting) → is_waiting_entry w entry ≡ true
        → contains waiting_cmp checked.old w ≡ false }
    ensures units { OnOk result ((s : Serial)
        → map.get under_way.new s
        ≡ (if has_serial (option_copied content.entry) s then Some
        (record { id = entry.id }) else map.get under_way.old s)) }
    ensures waits { OnOk result ((w : declared.Waiting)
        → contains waiting_cmp checked.new w ≡ (contains waiting_cmp checked.old w || is_waiting_entry w entry)) }
    ensures err { OnErr result ((under_way.new ≡ under_way.old)
        × ((w : declared.Waiting) → contains waiting_cmp checked.new w ≡ contains waiting_cmp checked.old w)) }
{
    remember(checked, entry)?;
    if let Err(refused) = register::begin(under_way, content, entry.id) {
        forget(checked, entry);
        return Err(refused);
    }
    Ok(())
}

/// Adds a transaction that wasn't known. Where it is Checked its units are then under way. After `NoMemory` nothing has
/// changed.
pub(crate) fn begin(
    under_way: &mut UnitMap<UnderWay>,
    transfers: &mut BTreeMap<TransactionId, LoggedTransfer>,
    checked: &mut BTreeSet<Waiting>,
    id: TransactionId,
    transfer: LoggedTransfer,
) -> Result<(), NoMemory>
    requires absent { tree.get id_cmp transfers.old id ≡ None }
    requires waiting { AreWaiting transfers.old checked.old }
    requires apart { same_status transfer.status words.Checked ≡ true → IsApart transfer.content }
    ensures transfers { OnOk result ((t : declared_id.TransactionId)
        → tree.get id_cmp transfers.new t ≡ (if same_id id t then Some transfer else tree.get id_cmp transfers.old t)) }
    ensures units { OnOk result ((s : Serial)
        → map.get under_way.new s
        ≡ (if same_status transfer.status words.Checked && has_serial transfer.content s then Some
        (record { id = id }) else map.get under_way.old s)) }
    ensures waits { OnOk result ((w : declared.Waiting)
        → contains waiting_cmp checked.new w
        ≡ (contains waiting_cmp checked.old w ||
        (same_status transfer.status words.Checked && is_waiting_entry w
        (record { since = transfer.since; id = id })))) }
    ensures err { OnErr result ((under_way.new ≡ under_way.old)
        × ((t : declared_id.TransactionId) → tree.get id_cmp transfers.new t ≡ tree.get id_cmp transfers.old t)
        × ((w : declared.Waiting) → contains waiting_cmp checked.new w ≡ contains waiting_cmp checked.old w)) }
{
    let (status, since) = (transfer.status, transfer.since);
    put(transfers, id, transfer)?;
    if status != Status::Checked {
        return Ok(());
    }
    let entry = Waiting { since, id };
    if let Err(refused) = start(under_way, checked, content(transfers, id), entry) {
        take_out(transfers, id);
        return Err(refused);
    }
    Ok(())
}

/// Removes the transaction's entry from those that stand Checked.
fn stop_waiting(
    transfers: &BTreeMap<TransactionId, LoggedTransfer>,
    checked: &mut BTreeSet<Waiting>,
    id: TransactionId,
)
    requires { AreWaiting transfers.now checked.old }
    ensures { (w : declared.Waiting)
        → contains waiting_cmp checked.new w ≡ (not (same_id id w.id) && contains waiting_cmp checked.old w) }
{
    if let Some(transfer) = transfers.get(&id) {
        let since = transfer.since;
        forget(checked, Waiting { since, id });
    }
}

/// Moves the transaction to that status, which isn't Checked. Takes no memory.
fn leave(
    transfers: &mut BTreeMap<TransactionId, LoggedTransfer>,
    checked: &mut BTreeSet<Waiting>,
    id: TransactionId,
    new: Status,
    moment: Moment,
)
    requires over { same_status new words.Checked ≡ false }
    requires waiting { AreWaiting transfers.old checked.old }
    ensures transfers { (t : declared_id.TransactionId)
        → tree.get id_cmp transfers.new t
        ≡ (if same_id id t then option_map (came_at new moment)
        (tree.get id_cmp transfers.old t) else tree.get id_cmp transfers.old t) }
    ensures waits { (w : declared.Waiting)
        → contains waiting_cmp checked.new w ≡ (not (same_id id w.id) && contains waiting_cmp checked.old w) }
    ensures waiting { AreWaiting transfers.new checked.new }
{
    stop_waiting(transfers, checked, id);
    set_status(transfers, id, new, moment);
}

/// Moves the transaction to that status, which isn't Checked. Its units aren't under way any more. Takes no memory.
fn finish(
    under_way: &mut UnitMap<UnderWay>,
    transfers: &mut BTreeMap<TransactionId, LoggedTransfer>,
    checked: &mut BTreeSet<Waiting>,
    id: TransactionId,
    new: Status,
    moment: Moment,
)
    requires over { same_status new words.Checked ≡ false }
    requires waiting { AreWaiting transfers.old checked.old }
    requires labelled { AreLabelled transfers.old under_way.old }
    ensures transfers { (t : declared_id.TransactionId)
        → tree.get id_cmp transfers.new t
        ≡ (if same_id id t then option_map (came_at new moment)
        (tree.get id_cmp transfers.old t) else tree.get id_cmp transfers.old t) }
    ensures units { (s : Serial)
        → map.get under_way.new s ≡ labels_that (λ u. not (same_id u.id id)) (map.get under_way.old s) }
    ensures waits { (w : declared.Waiting)
        → contains waiting_cmp checked.new w ≡ (not (same_id id w.id) && contains waiting_cmp checked.old w) }
    ensures waiting { AreWaiting transfers.new checked.new }
    ensures labelled { AreLabelled transfers.new under_way.new }
{
    register::end(under_way, content(transfers, id), id);
    leave(transfers, checked, id, new, moment);
}

/// Moves a known transaction to that status, which isn't Checked. Its units become the acquirer's where the status is
/// Completed, and aren't under way any more except where it is Accepted. After `NoMemory` nothing has changed.
pub(crate) fn advance(
    book: &mut UnitMap<BookEntry>,
    under_way: &mut UnitMap<UnderWay>,
    transfers: &mut BTreeMap<TransactionId, LoggedTransfer>,
    checked: &mut BTreeSet<Waiting>,
    id: TransactionId,
    new: Status,
    moment: Moment,
) -> Result<(), NoMemory>
    requires over { same_status new words.Checked ≡ false }
    requires apart { same_status new words.Completed ≡ true
        → IsApart (transfer_state_content (transfer_state_of transfers.old id)) }
    requires waiting { AreWaiting transfers.old checked.old }
    requires labelled { AreLabelled transfers.old under_way.old }
    ensures book { OnOk result ((s : Serial)
        → map.get book.new s ≡ (if same_status new words.Completed then handed_over (transfer_state_content
        (transfer_state_of transfers.old id)) s (map.get book.old s) else map.get book.old s)) }
    ensures transfers { OnOk result ((t : declared_id.TransactionId)
        → tree.get id_cmp transfers.new t
        ≡ (if same_id id t then option_map (came_at new moment)
        (tree.get id_cmp transfers.old t) else tree.get id_cmp transfers.old t)) }
    ensures units { OnOk result ((s : Serial)
        → map.get under_way.new s
        ≡ (if same_status new words.Accepted then map.get under_way.old s else labels_that (λ u. not (same_id u.id id))
        (map.get under_way.old s))) }
    ensures waits { OnOk result ((w : declared.Waiting)
        → contains waiting_cmp checked.new w ≡ (not (same_id id w.id) && contains waiting_cmp checked.old w)) }
    ensures err { OnErr result ((book.new ≡ book.old) × (under_way.new ≡ under_way.old)
        × (transfers.new ≡ transfers.old) × (checked.new ≡ checked.old)) }
{
    if new == Status::Completed {
        register::hand_over(book, content(transfers, id))?;
    }
    if new == Status::Accepted {
        leave(transfers, checked, id, new, moment);
    } else {
        finish(under_way, transfers, checked, id, new, moment);
    }
    Ok(())
}

/// Cancels each of the transactions. Their units aren't under way any more. Takes no memory.
pub(crate) fn cancel(
    under_way: &mut UnitMap<UnderWay>,
    transfers: &mut BTreeMap<TransactionId, LoggedTransfer>,
    checked: &mut BTreeSet<Waiting>,
    ids: &[TransactionId],
    moment: Moment,
)
    requires waiting { AreWaiting transfers.old checked.old }
    requires labelled { AreLabelled transfers.old under_way.old }
    ensures transfers { (t : declared_id.TransactionId)
        → tree.get id_cmp transfers.new t
        ≡ (if is_among ids.now t then option_map (came_at words.Cancelled moment)
        (tree.get id_cmp transfers.old t) else tree.get id_cmp transfers.old t) }
    ensures units { (s : Serial)
        → map.get under_way.new s ≡ labels_that (λ u. not (is_among ids.now u.id)) (map.get under_way.old s) }
    ensures waits { (w : declared.Waiting)
        → contains waiting_cmp checked.new w ≡ (not (is_among ids.now w.id) && contains waiting_cmp checked.old w) }
{
    for id in ids {
        finish(
            under_way,
            transfers,
            checked,
            *id,
            Status::Cancelled,
            moment,
        );
    }
}
