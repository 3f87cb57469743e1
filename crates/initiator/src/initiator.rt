//! The role of the registry that a transfer leaves.
ghost use Rattle.std.specs.Prelude.{◌≡◌, ◌+◌, ◌⊎◌, not, List, Some, None, Option, IfOk, IfErr, OnOk, OnErr, option_map, if◌then◌else◌};
ghost use Rattle.std.specs.FinMap as map;
ghost use Rattle.units.specs.RefusalCodes.{out_of_memory};
ghost use Rattle.units.specs.Unit.{have_unit};
ghost use Rattle.units.specs.Intervals.{labels_that};
ghost use Rattle.units.specs.declared.block.Block.{Block};
ghost use Rattle.units.specs.declared.block.Unit.{Unit as Serial};
ghost use Rattle.status.specs.Content.{Content as Terms, raws};
ghost use Rattle.status.specs.Id.{same_id, id_at};
ghost use Rattle.status.specs.Rows.{initiator_row};
ghost use Rattle.status.specs.Status.{same_status};
ghost use Rattle.status.specs.declared.id.TransactionId.{TransactionId};
ghost use Rattle.status.specs.declared.rows.RowInput.TheVariants as column;
ghost use Rattle.status.specs.declared.status.Status.TheVariants as status_word;
ghost use Rattle.accounts.specs.Holdings as held;
ghost use Rattle.accounts.specs.Refusals.{MayReserve};
ghost use Rattle.protocol.specs.AtRegistry.{content_of};
ghost use Rattle.protocol.specs.Checks.{Holding};
ghost use Rattle.protocol.specs.Decisions.{decided, unless};
ghost use Rattle.protocol.specs.Effects.{initiator_sends};
ghost use Rattle.checks.specs.Knowing.{Knows};
ghost use Rattle.checks.specs.Refusing.{first_of, order_refusals};
ghost use Rattle.initiator.specs.Transfers.{opened, asked, concluded, known_transfer, column_of_request, cancellation_refusals};

use crate::messages::{on_notified, on_proposing, on_request};
use crate::table::{ask, conclude, open};
use crate::transfer::{OutgoingTransfer, is_proposed, known, request_column};
use accounts::Holdings;
use checks::table::take_out;
use checks::{NewTransfer, propose_check};
use protocol::Decision;
use protocol::scheme::Scheme;
use protocol::wire::Message;
use status::{Order, Role, RowInput, Status, TransactionId, row};
use std::alloc::Global;
use std::collections::BTreeMap;
use std::marker::Model;
use units::refusal_code::{NO_LONGER_PROPOSED, NOT_PROPOSED_HERE};
use units::{Code, Items, NoMemory, Refusal};

/// The transfers that a registry proposed, by their identifiers. Without any change it gives the decision of the
/// initiator's table on an input and the messages of a move; other calls carry the move out.
#[derive(Debug)]
pub struct Initiator {
    code: Code,
    last: u32,
    transfers: BTreeMap<TransactionId, OutgoingTransfer>,
}

// Written out, since a derived destructor is proved anew in each crate that lets a value go.
impl Drop for Initiator {
    fn drop(self) {
        let Initiator {
            code: _,
            last: _,
            transfers,
        } = self;
        drop(transfers);
    }
}

impl Model for Initiator {
    ghost use Rattle.initiator.specs.Transfers.{InitiatorView, transfers_by_id};

    ghost Value = { InitiatorView };

    ghost view = { λ s. record { code = s.code; last = s.last; transfers = transfers_by_id s.transfers } };

    ghost use Rattle.initiator.specs.Coding.{initiating_code};

    ghost coded = { initiating_code };
}

impl Initiator {
    /// The initiator of that registry, which has proposed nothing yet. Takes no memory.
    pub fn new(alloc: Global, code: Code) -> Initiator
        ensures { result ≡ record { code = code; last = 0; transfers = map.empty } }
    {
        Initiator {
            code,
            last: 0,
            transfers: BTreeMap::new(alloc),
        }
    }

    /// The transfer with that identifier.
    fn transfer(&self, id: TransactionId) -> Option<OutgoingTransfer>
        ensures { result ≡ map.get self.now.transfers id }
    {
        self.transfers.get(&id).copied()
    }

    /// Where the transfer stands, or `None` where the registry proposed no such transfer.
    pub fn status_of(&self, id: TransactionId) -> Option<Status>
        ensures { result ≡ option_map (λ x. x.status) (map.get self.now.transfers id) }
    {
        let transfer = self.transfer(id)?;
        Some(transfer.status)
    }

    /// The new transfer of an order, under the registry's next number. Fails as `propose_check` fails.
    pub fn new_transfer(
        &self,
        alloc: Global,
        scheme: &Scheme,
        holdings: &Holdings,
        order: &Order,
    ) -> Result<NewTransfer, Refusal>
        ensures ok { (known : Holding) → Knows scheme.now self.now.code holdings.now known
            → IfOk result (λ new_transfer. first_of
            (order_refusals scheme.now self.now.code known self.now.last order.now) ≡ None) }
        ensures id { IfOk result (λ new_transfer. id_at self.now.code (self.now.last + 1) ≡ Some new_transfer.id) }
        ensures content { IfOk result (λ new_transfer. new_transfer.content ≡ content_of order.now) }
        ensures reservable { IfOk result (λ new_transfer. (blocks : List Block)
            → raws blocks ≡ new_transfer.content.units → MayReserve holdings.now new_transfer.content.account blocks) }
        ensures refused { (known : Holding) → Knows scheme.now self.now.code holdings.now known
            → IfErr result (λ r. (r.code ≡ out_of_memory)
            ⊎ (first_of (order_refusals scheme.now self.now.code known self.now.last order.now) ≡ Some r.code)) }
    {
        propose_check(alloc, scheme, self.code, holdings, self.last, order)
    }

    /// The table's decision on a new transfer with that identifier. Fails with `NO_ROW` where the registry has a
    /// transfer with the identifier.
    pub fn propose(&self, id: TransactionId) -> Result<Decision, Refusal>
        ensures { result ≡ decided (initiator_row (known_transfer (map.get self.now.transfers id)) column.Propose) }
    {
        Decision::by_row(row(Role::Initiator, known(self.transfer(id)), RowInput::Propose))
    }

    /// The message that is sent where a new transfer is Proposed: the proposal to the log.
    pub fn proposes(
        &self,
        alloc: Global,
        new_transfer: &NewTransfer,
    ) -> Result<Items<Message>, NoMemory>
        ensures { IfOk result
            (λ messages. messages ≡ initiator_sends self.now.code new_transfer.now.id
            (Some new_transfer.now.content) column.Propose) }
    {
        on_proposing(alloc, self.code, new_transfer.id, &new_transfer.content)
    }

    /// The table's decision on an order to ask the log for the transfer's cancellation: the first order is to be sent,
    /// and any other is a repeat. Fails with `NOT_PROPOSED_HERE` where this registry didn't propose the transfer, and
    /// with `NO_LONGER_PROPOSED` where it has another status than Proposed.
    pub fn request(&self, id: TransactionId) -> Result<Decision, Refusal>
        ensures { result ≡ unless (cancellation_refusals self.now id)
            (decided (initiator_row (known_transfer (map.get self.now.transfers id))
            (column_of_request (map.get self.now.transfers id)))) }
    {
        let transfer = self.transfer(id);
        if id.code != self.code || transfer.is_none() {
            return Err(Refusal {
                code: NOT_PROPOSED_HERE,
            });
        }
        if !is_proposed(transfer) {
            return Err(Refusal {
                code: NO_LONGER_PROPOSED,
            });
        }
        Decision::by_row(row(Role::Initiator, known(transfer), request_column(transfer)))
    }

    /// The message that is sent where the order to ask for the transfer's cancellation is recorded: the request to the
    /// log.
    pub fn requests(&self, alloc: Global, id: TransactionId) -> Result<Items<Message>, NoMemory>
        ensures { (content : Option Terms)
            → IfOk result (λ messages. messages ≡ initiator_sends self.now.code id content
            (column_of_request (map.get self.now.transfers id))) }
    {
        on_request(alloc, self.code, id, request_column(self.transfer(id)))
    }

    /// The table's decision on the log's notification of that status. Fails with `NO_ROW` where the table has no such
    /// row.
    pub fn notice(&self, id: TransactionId, told: Status) -> Result<Decision, Refusal>
        ensures { result ≡ decided
            (initiator_row (known_transfer (map.get self.now.transfers id)) (column.Notified told)) }
    {
        Decision::by_row(row(
            Role::Initiator,
            known(self.transfer(id)),
            RowInput::Notified(told),
        ))
    }

    /// The messages that are sent where the notification of that status is recorded: Completed to the log after
    /// Accepted, and none after any other.
    pub fn notifies(
        &self,
        alloc: Global,
        id: TransactionId,
        told: Status,
    ) -> Result<Items<Message>, NoMemory>
        ensures { (content : Option Terms)
            → IfOk result (λ messages. messages ≡ initiator_sends self.now.code id content (column.Notified told)) }
    {
        on_notified(alloc, self.code, id, told)
    }

    /// Adds the new transfer as Proposed, and reserves its units for it. Fails with `OUT_OF_MEMORY` alone; then nothing
    /// has changed.
    pub fn open(
        &mut self,
        holdings: &mut Holdings,
        new_transfer: &NewTransfer,
    ) -> Result<(), Refusal>
        requires absent { map.get self.old.transfers new_transfer.now.id ≡ None }
        requires reservable { (blocks : List Block) → raws blocks ≡ new_transfer.now.content.units
            → MayReserve holdings.old new_transfer.now.content.account blocks }
        ensures ok { OnOk result ((self.new.code ≡ self.old.code) × (self.new.last ≡ new_transfer.now.id.number)
            × ((t : TransactionId)
            → map.get self.new.transfers t
            ≡ (if same_id new_transfer.now.id t then Some opened else map.get self.old.transfers t))) }
        ensures accounts { holdings.new.accounts ≡ holdings.old.accounts }
        ensures unit_holdings { OnOk result ((s : Serial)
            → map.get holdings.new.unit_holdings s
            ≡ (if have_unit new_transfer.now.content.units s then option_map (held.reserved new_transfer.now.id)
            (map.get holdings.old.unit_holdings s) else map.get holdings.old.unit_holdings s)) }
        ensures err { OnErr result ((self.new ≡ self.old) × (holdings.new ≡ holdings.old)) }
        ensures refused { IfErr result (λ r. r.code ≡ out_of_memory) }
    {
        open(&mut self.transfers, new_transfer.id)?;
        let (account, units) = (new_transfer.content.account(), new_transfer.content.units());
        if let Err(refused) = holdings.reserve(account, units, new_transfer.id) {
            take_out(&mut self.transfers, new_transfer.id);
            return Err(refused);
        }
        self.last = new_transfer.id.number;
        Ok(())
    }

    /// Notes that the transfer's cancellation was asked for. Takes no memory.
    pub fn ask(&mut self, id: TransactionId)
        ensures transfers { (t : TransactionId)
            → map.get self.new.transfers t
            ≡ (if same_id id t then option_map asked (map.get self.old.transfers t) else map.get self.old.transfers t) }
        ensures code { self.new.code ≡ self.old.code }
        ensures last { self.new.last ≡ self.old.last }
    {
        ask(&mut self.transfers, id);
    }

    /// Moves the transfer to that status: its units leave the registry where it is Completed, and are free again
    /// otherwise. Takes no memory.
    pub fn conclude(&mut self, holdings: &mut Holdings, id: TransactionId, new: Status)
        ensures transfers { (t : TransactionId)
            → map.get self.new.transfers t
            ≡ (if same_id id t then option_map (concluded new)
            (map.get self.old.transfers t) else map.get self.old.transfers t) }
        ensures code { self.new.code ≡ self.old.code }
        ensures last { self.new.last ≡ self.old.last }
        ensures accounts { holdings.new.accounts ≡ holdings.old.accounts }
        ensures unit_holdings { (s : Serial)
            → map.get holdings.new.unit_holdings s
            ≡ (if same_status new status_word.Completed then labels_that
            (λ unit_holding. not (held.is_reserved_by id unit_holding))
            (map.get holdings.old.unit_holdings s) else option_map (held.released id)
            (map.get holdings.old.unit_holdings s)) }
    {
        conclude(&mut self.transfers, id, new);
        if new == Status::Completed {
            holdings.remove(id);
        } else {
            holdings.release(id);
        }
    }
}
