//! The role of the registry that a transfer goes to.
ghost use Rattle.std.specs.Prelude.{◌≡◌, ℕ, List, [], true, false, Some, None, Option, IfOk, IfErr, OnOk, OnErr, option_map, option_copied, is_some, if◌then◌else◌, Bool};
ghost use Rattle.std.specs.FinMap as map;
ghost use Rattle.std.specs.List.{list_any};
ghost use Rattle.std.specs.Option.{option_map_or, option_or};
ghost use Rattle.units.specs.Apart.{AllApart};
ghost use Rattle.units.specs.RefusalCodes.{transfer_accepted};
ghost use Rattle.units.specs.Unit.{have_unit};
ghost use Rattle.units.specs.declared.block.Block.{Block};
ghost use Rattle.units.specs.declared.block.Unit.{Unit as Serial};
ghost use Rattle.status.specs.Content.{Content as Terms, raws};
ghost use Rattle.status.specs.Id.{same_id};
ghost use Rattle.status.specs.Rows.{acquirer_row};
ghost use Rattle.status.specs.Status.{same_status};
ghost use Rattle.status.specs.declared.id.TransactionId.{TransactionId};
ghost use Rattle.status.specs.declared.rows.RowInput.TheVariants as column;
ghost use Rattle.status.specs.declared.status.Status.TheVariants as words;
ghost use Rattle.accounts.specs.Holdings as held;
ghost use Rattle.accounts.specs.Holdings.{kind_in};
ghost use Rattle.protocol.specs.Scheme.{Scheme};
ghost use Rattle.protocol.specs.AtRegistry.{unless_held};
ghost use Rattle.protocol.specs.Checks.{Holding, acquirer_findings};
ghost use Rattle.protocol.specs.Deciding.{column_of_proposal};
ghost use Rattle.protocol.specs.Decisions.{decided};
ghost use Rattle.protocol.specs.Effects.{acquirer_sends};
ghost use Rattle.protocol.specs.Pieces.{pieces};
ghost use Rattle.checks.specs.Finding.{codes_in};
ghost use Rattle.checks.specs.Knowing.{Knows};
ghost use Rattle.acquirer.specs.Crediting.{MayCredit};
ghost use Rattle.acquirer.specs.Transfers.{is_awaited_by, kept_content, finished, known_transfer};

use crate::awaited::{Awaited, first_awaited};
use crate::messages::on_proposal;
use crate::table::{finish, put};
use crate::transfer::IncomingTransfer;
use accounts::Holdings;
use checks::{acquirer_findings, column_of_proposal, holds_some};
use protocol::Decision;
use protocol::scheme::Scheme;
use protocol::wire::{AcquirerCodes, Message};
use status::{Content, RecordedStatus, Role, Row, RowInput, Status, TransactionId, row};
use std::alloc::Global;
use std::collections::{BTreeMap, BTreeSet};
use std::marker::Model;
use units::refusal_code::{NO_ROW, TRANSFER_ACCEPTED};
use units::{Code, Items, NoMemory, Refusal};

/// The transfers to a registry, by their identifiers. Without any change it gives the decision of the acquirer's table
/// on an input; other calls carry out a decision that moves a transfer.
#[derive(Debug)]
pub struct Acquirer {
    code: Code,
    transfers: BTreeMap<TransactionId, IncomingTransfer>,
    awaited: BTreeSet<Awaited>,
}

// Written out, since a derived destructor is proved anew in each crate that lets a value go.
impl Drop for Acquirer {
    fn drop(self) {
        let Acquirer {
            code: _,
            transfers,
            awaited,
        } = self;
        drop(transfers);
        drop(awaited);
    }
}

impl Model for Acquirer {
    ghost use Rattle.acquirer.specs.Awaiting.{AreAwaited};
    ghost use Rattle.acquirer.specs.Coding.{acquiring_code};
    ghost use Rattle.acquirer.specs.Transfers.{AcquirerView, transfers_by_id};

    ghost Value = { AcquirerView };

    ghost view = { λ s. record { code = s.code; transfers = transfers_by_id s.transfers } };

    ghost coded = { acquiring_code };

    ghost invariant = { λ s. AreAwaited s.transfers s.awaited };
}

/// The codes of the findings.
fn codes_in(found: &Option<AcquirerCodes>) -> &[u16]
    ensures { result.now ≡ codes_in found.now }
{
    match found {
        None => &[],
        Some(codes) => codes.as_slice(),
    }
}

impl Acquirer {
    /// The acquirer of that registry, which knows of no transfer yet. Takes no memory.
    pub fn new(alloc: Global, code: Code) -> Acquirer
        ensures { result ≡ record { code = code; transfers = map.empty } }
    {
        Acquirer {
            code,
            transfers: BTreeMap::new(alloc),
            awaited: BTreeSet::new(alloc),
        }
    }

    /// The transfer with that identifier.
    fn transfer(&self, id: TransactionId) -> Option<&IncomingTransfer>
        ensures { option_copied result ≡ map.get self.now.transfers id }
    {
        self.transfers.get(&id)
    }

    /// Where the transfer stands, or `None` where no record is about it.
    pub fn status_of(&self, id: TransactionId) -> Option<Status>
        ensures { result ≡ option_map (λ x. x.status) (map.get self.now.transfers id) }
    {
        let transfer = self.transfer(id)?;
        Some(transfer.status)
    }

    /// The content of the transfer, or `None` where none is recorded.
    pub fn content(&self, id: TransactionId) -> Option<&Content>
        ensures { option_copied result ≡ kept_content (map.get self.now.transfers id) }
    {
        let transfer = self.transfer(id)?;
        transfer.content.as_ref()
    }

    /// The recorded status of the transfer, as the status table takes it.
    fn known(&self, id: TransactionId) -> RecordedStatus
        ensures { result ≡ known_transfer (map.get self.now.transfers id) }
    {
        match self.transfer(id) {
            Some(transfer) => transfer.known(),
            None => RecordedStatus::Unknown,
        }
    }

    /// The findings in the proposal of a transfer whose content isn't recorded, and none in any other. Fails with
    /// `NoMemory` where memory runs out.
    pub fn findings(
        &self,
        alloc: Global,
        scheme: &Scheme,
        holdings: &Holdings,
        id: TransactionId,
        content: &Content,
    ) -> Result<Option<AcquirerCodes>, NoMemory>
        ensures { (known_so : Holding) → Knows scheme.now self.now.code holdings.now known_so
            → IfOk result (λ found. codes_in found
            ≡ (if is_some (kept_content (map.get self.now.transfers id)) then [] else acquirer_findings scheme.now
            self.now.code known_so content.now)) }
    {
        if self.content(id).is_some() {
            return Ok(None);
        }
        acquirer_findings(alloc, scheme, self.code, holdings, content)
    }

    /// The table's decision on a proposal that the log passes on, with these findings. Where a content is recorded for
    /// the transfer, the proposal's content is equal to it. Fails with `NO_ROW` where the table has no such row.
    pub fn proposal(
        &self,
        id: TransactionId,
        found: &Option<AcquirerCodes>,
    ) -> Result<Decision, Refusal>
        ensures { result ≡ decided (acquirer_row (known_transfer (map.get self.now.transfers id))
            (column_of_proposal (kept_content (map.get self.now.transfers id)) (codes_in found.now))) }
    {
        Decision::by_row(row(
            Role::Acquirer,
            self.known(id),
            column_of_proposal(self.content(id), codes_in(found)),
        ))
    }

    /// The message that is sent where a transfer arrives, by the findings in its proposal: Accepted to the log, or
    /// Rejected with the codes.
    pub fn notifies(
        &self,
        alloc: Global,
        id: TransactionId,
        found: Option<AcquirerCodes>,
    ) -> Result<Items<Message>, NoMemory>
        ensures { IfOk result (λ messages. messages ≡ acquirer_sends self.now.code id (codes_in found)
            (column_of_proposal None (codes_in found))) }
    {
        on_proposal(alloc, self.code, id, found)
    }

    /// Whether one of the transfer's units is held.
    fn holds_some_of(&self, holdings: &Holdings, id: TransactionId) -> bool
        ensures { (scheme : Scheme) (known_so : Holding) → Knows scheme self.now.code holdings.now known_so
            → result ≡ option_map_or (λ k. list_any (λ p. known_so.is_held p.unit) (pieces k.units))
            (kept_content (map.get self.now.transfers id)) false }
    {
        match self.content(id) {
            Some(content) => holds_some(holdings, content.units()),
            None => false,
        }
    }

    /// The table's decision on the log's notification of that status. A transfer isn't Completed while the registry
    /// holds one of its units. Fails with `NO_ROW` where the table has no such row. Takes no memory.
    pub fn notice(
        &self,
        holdings: &Holdings,
        id: TransactionId,
        told: Status,
    ) -> Result<Decision, Refusal>
        ensures { (scheme : Scheme) (known_so : Holding) → Knows scheme self.now.code holdings.now known_so
            → result ≡ decided
            (unless_held (option_map_or (λ k. list_any (λ p. known_so.is_held p.unit) (pieces k.units)) (kept_content
            (map.get self.now.transfers id)) false)
            (acquirer_row (known_transfer (map.get self.now.transfers id)) (column.Notified told))) }
    {
        match row(Role::Acquirer, self.known(id), RowInput::Notified(told)) {
            Row::Move(Status::Completed) if self.holds_some_of(holdings, id) => {
                Err(Refusal { code: NO_ROW })
            }
            other => Decision::by_row(other),
        }
    }

    /// Whether the account awaits no transfer. Refused with `TRANSFER_ACCEPTED` where a transfer that goes to the
    /// account was accepted and hasn't ended. Takes no memory.
    pub fn may_close(&self, account: u64) -> Result<(), Refusal>
        ensures ok { OnOk result ((t : TransactionId) → is_awaited_by account (map.get self.now.transfers t) ≡ false) }
        ensures err { IfErr result (λ r. (r.code ≡ transfer_accepted)
            × ((t : TransactionId) × (is_awaited_by account (map.get self.now.transfers t) ≡ true))) }
    {
        match first_awaited(&self.awaited, account) {
            None => Ok(()),
            Some(_) => Err(Refusal {
                code: TRANSFER_ACCEPTED,
            }),
        }
    }

    /// Adds a transfer that has arrived, with that status and content. After `NoMemory` nothing has changed.
    pub fn arrive(
        &mut self,
        id: TransactionId,
        new: Status,
        content: Content,
    ) -> Result<(), NoMemory>
        requires { map.get self.old.transfers id ≡ None }
        ensures ok { OnOk result ((self.new.code ≡ self.old.code)
            × ((t : TransactionId)
            → map.get self.new.transfers t
            ≡ (if same_id id t then Some
            (record { status = new; content = Some content }) else map.get self.old.transfers t))) }
        ensures err { OnErr result (self.new ≡ self.old) }
    {
        let transfer = IncomingTransfer {
            status: new,
            content: Some(content),
        };
        put(&mut self.transfers, &mut self.awaited, id, transfer)
    }

    /// Adds a transfer that was cancelled before its proposal came. After `NoMemory` nothing has changed.
    pub fn forestall(&mut self, id: TransactionId) -> Result<(), NoMemory>
        requires { map.get self.old.transfers id ≡ None }
        ensures ok { OnOk result ((self.new.code ≡ self.old.code)
            × ((t : TransactionId)
            → map.get self.new.transfers t
            ≡ (if same_id id t then Some
            (record { status = words.Cancelled; content = None }) else map.get self.old.transfers t))) }
        ensures err { OnErr result (self.new ≡ self.old) }
    {
        let transfer = IncomingTransfer {
            status: Status::Cancelled,
            content: None,
        };
        put(&mut self.transfers, &mut self.awaited, id, transfer)
    }

    /// Completes the transfer, and puts its units into the account that it goes to. After `NoMemory` nothing has
    /// changed.
    pub fn complete(&mut self, holdings: &mut Holdings, id: TransactionId) -> Result<(), NoMemory>
        requires { (k : Terms) → kept_content (map.get self.old.transfers id) ≡ Some k → MayCredit holdings.old k }
        ensures transfers { OnOk result ((self.new.code ≡ self.old.code)
            × ((t : TransactionId)
            → map.get self.new.transfers t
            ≡ (if same_id id t then option_map (finished words.Completed)
            (map.get self.old.transfers t) else map.get self.old.transfers t))) }
        ensures accounts { holdings.new.accounts ≡ holdings.old.accounts }
        ensures unit_holdings { (k : Terms) → kept_content (map.get self.old.transfers id) ≡ Some k
            → OnOk result ((blocks : List Block) × (raws blocks ≡ k.units)
            × ((s : Serial) → map.get holdings.new.unit_holdings s ≡ option_or (option_map
            (held.free_unit_holding k.to_account) (kind_in blocks s)) (map.get holdings.old.unit_holdings s))) }
        ensures none { kept_content (map.get self.old.transfers id) ≡ None → holdings.new ≡ holdings.old }
        ensures err { OnErr result ((self.new ≡ self.old) × (holdings.new ≡ holdings.old)) }
    {
        if let Some(content) = self.content(id) {
            holdings.credit(content.to_account(), content.units())?;
        }
        finish(
            &mut self.transfers,
            &mut self.awaited,
            id,
            Status::Completed,
        );
        Ok(())
    }

    /// Cancels the transfer. Its account awaits it no longer. Takes no memory.
    pub fn cancel(&mut self, id: TransactionId)
        ensures code { self.new.code ≡ self.old.code }
        ensures transfers { (t : TransactionId)
            → map.get self.new.transfers t
            ≡ (if same_id id t then option_map (finished words.Cancelled)
            (map.get self.old.transfers t) else map.get self.old.transfers t) }
    {
        finish(
            &mut self.transfers,
            &mut self.awaited,
            id,
            Status::Cancelled,
        );
    }
}
