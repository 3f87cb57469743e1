//! Clean-ups: transactions that have stood Checked for a day are Cancelled.
ghost use Rattle.std.specs.BTreeSet.{IsOrdered};
ghost use Rattle.std.specs.List.Sorted.{IsSorted};
ghost use Rattle.std.specs.Prelude.{◌≡◌, [], List, IfOk, IsPermutation, flat_map};
ghost use Rattle.status.specs.Id.{id_cmp};
ghost use Rattle.status.specs.declared.id.TransactionId as declared_id;
ghost use Rattle.status.specs.declared.rows.RowInput.TheVariants as column;
ghost use Rattle.wire.specs.declared.input.Input.TheVariants as inputs;
ghost use Rattle.protocol.specs.Effects.{log_sends};
ghost use Rattle.log_core.specs.Cleaning.{AreAged};
ghost use Rattle.log_core.specs.Effects.{transfer_state_content};
ghost use Rattle.log_core.specs.Kept.{IsKept, waiting_cmp};
ghost use Rattle.log_core.specs.Taking.{Takes};
ghost use Rattle.log_core.specs.Transfers.{transfer_state_of};

use crate::effect::{LogEffect, TransferEffect};
use crate::messages::push_cancelled;
use crate::tables::Tables;
use crate::transfer::LoggedTransfer;
use crate::transfers::content;
use crate::waiting::Waiting;
use protocol::Stepped;
use status::{Moment, TransactionId};
use std::alloc::Global;
use std::collections::{BTreeMap, BTreeSet};
use units::limits::CLEAN_UP_AGE;
use units::{Items, NoMemory, Refusal};
use wire::{Input, Message};

/// The transactions that have stood Checked for a day at that moment, by age. Looks at no transaction after the first
/// one that hasn't. Fails with `NoMemory` where memory runs out.
fn aged(
    alloc: Global,
    checked: &BTreeSet<Waiting>,
    moment: Moment,
) -> Result<Vec<TransactionId>, NoMemory>
    ensures aged { IfOk result (λ ids. AreAged moment.seconds checked.now.keys ids.items) }
    ensures ordered { IsOrdered waiting_cmp checked.now }
{
    let mut ids = Vec::new(alloc);
    for waiting in checked {
        if waiting.since.seconds + CLEAN_UP_AGE > moment.seconds {
            return Ok(ids);
        }
        ids.push(waiting.id)?;
    }
    Ok(ids)
}

/// The same in ascending order of code and number; or `NoMemory`.
fn expired(
    alloc: Global,
    checked: &BTreeSet<Waiting>,
    moment: Moment,
) -> Result<Vec<TransactionId>, NoMemory>
    ensures aged { IfOk result (λ ids. (held : List declared_id.TransactionId)
        × AreAged moment.seconds checked.now.keys held × IsPermutation held ids.items) }
    ensures sorted { IfOk result (λ ids. IsSorted id_cmp ids.items) }
    ensures ordered { IsOrdered waiting_cmp checked.now }
{
    let mut ids = aged(alloc, checked, moment)?;
    ids.sort_unstable();
    Ok(ids)
}

/// The messages after the cancellation of each of the transactions, in their order; or `NoMemory`.
fn cancellations(
    alloc: Global,
    transfers: &BTreeMap<TransactionId, LoggedTransfer>,
    ids: &[TransactionId],
) -> Result<Items<Message>, NoMemory>
    ensures { IfOk result (λ messages. messages ≡ flat_map (λ t. log_sends t (transfer_state_content
        (transfer_state_of transfers.now t)) [] column.CleanUp) ids.now) }
{
    let mut messages = Vec::new(alloc);
    for id in ids {
        push_cancelled(&mut messages, *id, content(transfers, *id))?;
    }
    Ok(Items::from_vec(messages))
}

impl Tables {
    /// Takes a clean-up of that moment: one record for all transactions that have expired, and a repeat where none has.
    pub(crate) fn clean_up(&mut self, input: &Input, moment: Moment) -> Result<Stepped, Refusal>
        requires kept { IsKept self.old.scheme self.old }
        requires input { input.now ≡ inputs.CleanUp moment }
        ensures { Takes self.old.scheme self.old self.new input.now result }
    {
        let ids = expired(self.alloc, &self.checked, moment)?;
        if ids.is_empty() {
            return Ok(Stepped::Repeat);
        }
        let messages = cancellations(self.alloc, &self.transfers, ids.as_slice())?;
        let effect = TransferEffect::Cancel(ids);
        self.record(input, LogEffect::Transfers { effect, moment }, messages)
    }
}
