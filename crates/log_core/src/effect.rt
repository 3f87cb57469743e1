//! The effect of a record on the log's tables.
ghost use Rattle.std.specs.Prelude.{◌≡◌, IfErr, OnErr, OnOk};
ghost use Rattle.units.specs.RefusalCodes.{out_of_memory};
ghost use Rattle.log_core.specs.Effects.{Carried, CarriedOut, transfer_state_in};
ghost use Rattle.log_core.specs.Transfers.{AreApart, AreLabelled, AreSame, AreWaiting, IsOfKnown, MayCarry};

use crate::moving::{advance, begin, cancel};
use crate::registries::order;
use crate::tables::Tables;
use crate::transfer::LoggedTransfer;
use status::{Content, Moment, Status, TransactionId};
use units::{Code, Refusal};

/// The effect of a record on the log's transactions.
#[derive(Debug, Drop)]
pub(crate) enum TransferEffect {
    /// A transaction that wasn't known has that status: Checked, with its units under way; Terminated; or Cancelled
    /// without a content.
    Begin {
        id: TransactionId,
        new: Status,
        content: Option<Content>,
    },
    /// A known transaction moves to that status: Accepted, Rejected, or Completed, where its units are then the
    /// acquirer's.
    Advance {
        id: TransactionId,
        new: Status,
    },
    /// These transactions, which stood Checked, are Cancelled.
    Cancel(Vec<TransactionId>),
}

/// The effect of a record on the log's tables.
#[derive(Debug, Drop)]
pub(crate) enum LogEffect {
    /// Transactions move to a status, at that moment.
    Transfers {
        effect: TransferEffect,
        moment: Moment,
    },
    /// The registry may take part in transfers, or may not.
    Eligible {
        registry: Code,
        may: bool,
    },
}

impl Tables {
    /// Moves transactions, at that moment. Fails with `OUT_OF_MEMORY` alone; then the contents of the tables are as
    /// they were.
    fn move_transfers(&mut self, effect: TransferEffect, moment: Moment) -> Result<(), Refusal>
        requires known { IsOfKnown (transfer_state_in self.old) effect }
        requires apart { AreApart (transfer_state_in self.old) effect }
        requires waiting { AreWaiting self.old.transfers self.old.checked }
        requires labelled { AreLabelled self.old.transfers self.old.register.under_way }
        ensures ok { OnOk result (Carried effect moment.seconds self.old self.new) }
        ensures scheme { self.new.scheme ≡ self.old.scheme }
        ensures records { self.new.records ≡ self.old.records }
        ensures err { OnErr result (AreSame self.old self.new) }
        ensures refused { IfErr result (λ r. r.code ≡ out_of_memory) }
    {
        let under_way = &mut self.register.under_way;
        let (transfers, checked) = (&mut self.transfers, &mut self.checked);
        match effect {
            TransferEffect::Begin { id, new, content } => {
                let transfer = LoggedTransfer {
                    status: new,
                    content,
                    since: moment,
                };
                begin(under_way, transfers, checked, id, transfer)?;
            }
            TransferEffect::Advance { id, new } => {
                let book = &mut self.register.book;
                advance(book, under_way, transfers, checked, id, new, moment)?;
            }
            TransferEffect::Cancel(ids) => {
                cancel(under_way, transfers, checked, ids.as_slice(), moment)
            }
        }
        Ok(())
    }

    /// Carries the effect out. Fails with `OUT_OF_MEMORY` alone; then the contents of the tables are as they were.
    pub(crate) fn carry_out(&mut self, effect: LogEffect) -> Result<(), Refusal>
        requires may { MayCarry (transfer_state_in self.old) effect }
        requires waiting { AreWaiting self.old.transfers self.old.checked }
        requires labelled { AreLabelled self.old.transfers self.old.register.under_way }
        ensures ok { OnOk result (CarriedOut effect self.old self.new) }
        ensures scheme { self.new.scheme ≡ self.old.scheme }
        ensures records { self.new.records ≡ self.old.records }
        ensures err { OnErr result (AreSame self.old self.new) }
        ensures refused { IfErr result (λ r. r.code ≡ out_of_memory) }
    {
        match effect {
            LogEffect::Transfers { effect, moment } => self.move_transfers(effect, moment),
            LogEffect::Eligible { registry, may } => {
                order(&mut self.register.orders, registry, may)?;
                Ok(())
            }
        }
    }
}
