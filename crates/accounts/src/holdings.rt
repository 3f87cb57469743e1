//! The holdings of a registry.
ghost use Rattle.std.specs.Prelude.{◌≡◌, ◌≢◌, ◌⊎◌, ℕ, ◌==◌, not, true, Option, Some, None, IsTrue, IsSome, is_none, OnOk, OnErr, IfOk, IfErr, option_map, count_by, if◌then◌else◌};
ghost use Rattle.std.specs.Option.{option_or};
ghost use Rattle.std.specs.Bool.{OnTrue, OnFalse};
ghost use Rattle.std.specs.FinMap as map;
ghost use Rattle.std.specs.List.{list_any};
ghost use Rattle.units.specs.Apart.{AllApart};
ghost use Rattle.units.specs.Canonical.{AreCanonical};
ghost use Rattle.units.specs.Intervals.{AreKept, label_at, labels_that};
ghost use Rattle.units.specs.RefusalCodes.{out_of_memory};
ghost use Rattle.units.specs.Spans.{intervals_of};
ghost use Rattle.units.specs.Unit.{has_unit, covers};
ghost use Rattle.units.specs.declared.block.Unit.{Unit as Serial};
ghost use Rattle.accounts.specs.Holdings.{is_open, is_reserved_by, is_free_in, reserved, released, free_unit_holding, kind_in};
ghost use Rattle.accounts.specs.Lines.{AreLines};
ghost use Rattle.accounts.specs.Tables.{is_in, unit_holding_in};
ghost use Rattle.accounts.specs.Refusals.{IsOpen, IsHeldAs, AreHeld, AreFree, IsLacking, MayReserve, IsReserveRefusal, IsOpenRefusal, IsCloseRefusal, HasUnits};
ghost use Rattle.accounts.specs.declared.unit_holding.AccountStatus.TheVariants.{Open, Closed};

use crate::account::{
    Account, open_accounts, put_in, release_all, reserve, set_account_status, take_out_all,
};
use crate::apart::{apart, count};
use crate::lines::lines;
use crate::reservation::{Reservation, Share, extend, shorten, take};
use crate::unit_holding::{AccountStatus, HeldBlock, UnitHolding};
use status::TransactionId;
use std::alloc::Global;
use std::collections::BTreeMap;
use std::marker::Model;
use units::refusal_code::{
    ACCOUNT_NOT_OPEN, ALREADY_SO, HOLDS_UNITS, UNIT_RESERVED, UNKNOWN_ACCOUNT,
};
use units::{Block, NoMemory, Refusal, Span, Unit, UnitMap};

/// A registry's accounts and the units that they hold.
#[derive(Debug)]
pub struct Holdings {
    alloc: Global,
    accounts: BTreeMap<u64, Account>,
    unit_holdings: UnitMap<UnitHolding>,
    reservations: BTreeMap<TransactionId, Reservation>,
}

// Written out, since a derived destructor is proved anew in each crate that lets a value go.
impl Drop for Holdings {
    fn drop(self) {
        let Holdings {
            alloc: _,
            accounts,
            unit_holdings,
            reservations,
        } = self;
        drop(accounts);
        drop(unit_holdings);
        drop(reservations);
    }
}

impl Model for Holdings {
    ghost use Rattle.accounts.specs.Holdings.{HoldingsView};
    ghost use Rattle.accounts.specs.Accounts.{account_statuses};
    ghost use Rattle.accounts.specs.Coding.{held_code};
    ghost use Rattle.accounts.specs.Tables.{AreInStep};

    ghost Value = { HoldingsView };

    ghost coded = { held_code };

    ghost view = { λ h. record { accounts = account_statuses h.accounts; unit_holdings = h.unit_holdings } };

    ghost invariant = { λ h. AreInStep h.accounts h.unit_holdings h.reservations };
}

/// Whether the transaction reserves the unit holding.
fn is_reserved_by(unit_holding: &UnitHolding, id: TransactionId) -> bool
    ensures { result ≡ is_reserved_by id unit_holding.now }
{
    unit_holding.reserving == Some(id)
}

/// The unit holding after the transaction has released it.
fn released(unit_holding: UnitHolding, id: TransactionId) -> UnitHolding
    ensures { result ≡ released id unit_holding }
{
    if is_reserved_by(&unit_holding, id) {
        UnitHolding {
            reserving: None,
            ..unit_holding
        }
    } else {
        unit_holding
    }
}

/// Puts the units of each block into the account, with their block's kind and with that reserving transaction or none.
fn set_unit_holdings(
    unit_holdings: &mut UnitMap<UnitHolding>,
    account: u64,
    blocks: &[Block],
    reserving: Option<TransactionId>,
) -> Result<(), NoMemory>
    requires { AllApart blocks.now }
    ensures ok { OnOk result ((s : Serial)
        → map.get unit_holdings.new s
        ≡ option_or (option_map (unit_holding_in account reserving) (kind_in blocks.now s))
        (map.get unit_holdings.old s)) }
    ensures err { OnErr result (unit_holdings.new ≡ unit_holdings.old) }
{
    unit_holdings.set_all(blocks, |block| {
        Some(UnitHolding {
            account,
            kind: block.raw.kind,
            reserving,
        })
    })
}

impl Holdings {
    /// Open accounts of these numbers, which hold nothing. A number that is listed twice is one account. Fails with
    /// `NoMemory` where memory runs out.
    pub fn new(alloc: Global, accounts: &[u64]) -> Result<Holdings, NoMemory>
        ensures accounts { IfOk result (λ h. (n : ℕ)
            → map.get h.accounts n ≡ (if list_any (λ a. a == n) accounts.now then Some Open else None)) }
        ensures unit_holdings { IfOk result (λ h. h.unit_holdings ≡ map.empty) }
    {
        let accounts = open_accounts(alloc, accounts)?;
        Ok(Holdings {
            alloc,
            accounts,
            unit_holdings: UnitMap::new(alloc),
            reservations: BTreeMap::new(alloc),
        })
    }

    /// Whether the account is open, or `None` where the registry has no such account. Takes no memory.
    pub fn is_open(&self, account: u64) -> Option<bool>
        ensures { result ≡ option_map is_open (map.get self.now.accounts account) }
    {
        let account_status = self.account_status(account)?;
        Some(matches!(account_status, AccountStatus::Open))
    }

    /// The status of the account.
    fn account_status(&self, account: u64) -> Option<AccountStatus>
        ensures { result ≡ map.get self.now.accounts account }
    {
        let account = self.accounts.get(&account)?;
        Some(account.account_status)
    }

    /// Gives an account of the registry the status.
    fn set_account_status(&mut self, account: u64, account_status: AccountStatus)
        requires { IsSome (map.get self.old.accounts account) }
        ensures accounts { (n : ℕ) → map.get self.new.accounts n
            ≡ (if n == account then Some account_status else map.get self.old.accounts n) }
        ensures unit_holdings { self.new.unit_holdings ≡ self.old.unit_holdings }
    {
        set_account_status(&mut self.accounts, account, account_status);
    }

    /// Whether each of the block's units is in the account, with the block's kind.
    fn holds(&self, account: u64, block: &Block) -> bool
        ensures all { OnTrue result ((s : Serial) → IsTrue (has_unit block.now.raw s)
            → IsHeldAs self.now account block.now.raw.kind s) }
        ensures lacking { OnFalse result ((s : Serial) × IsTrue (has_unit block.now.raw s)
            × (IsHeldAs self.now account block.now.raw.kind s → ⊥)) }
    {
        let kind = block.raw.kind;
        self.unit_holdings.has_all_of(
            block,
            |unit_holding| unit_holding.account == account && unit_holding.kind == kind,
        )
    }

    /// Whether each unit of the blocks is in the account, with its block's kind.
    fn holds_each(&self, account: u64, blocks: &[Block]) -> bool
        ensures all { OnTrue result (AreHeld self.now account blocks.now) }
        ensures lacking { OnFalse result (IsLacking self.now account blocks.now) }
    {
        blocks.iter().all(|block| self.holds(account, block))
    }

    /// Whether each of the block's units is there, reserved by none.
    fn is_free(&self, block: &Block) -> bool
        ensures all { OnTrue result ((s : Serial) → IsTrue (has_unit block.now.raw s)
            → option_map (λ unit_holding. is_none unit_holding.reserving) (map.get self.now.unit_holdings s)
            ≡ Some true) }
        ensures lacking { OnFalse result ((s : Serial) × IsTrue (has_unit block.now.raw s)
            × (option_map (λ unit_holding. is_none unit_holding.reserving)
            (map.get self.now.unit_holdings s) ≢ Some true)) }
    {
        self.unit_holdings
            .has_all_of(block, |unit_holding| unit_holding.reserving.is_none())
    }

    /// Whether each unit of the blocks is there, reserved by none.
    fn is_each_free(&self, blocks: &[Block]) -> bool
        ensures all { OnTrue result (AreFree self.now blocks.now) }
        ensures lacking { OnFalse result ((s : Serial) × IsTrue (covers blocks.now s)
            × (option_map (λ unit_holding. is_none unit_holding.reserving)
            (map.get self.now.unit_holdings s) ≢ Some true)) }
    {
        blocks.iter().all(|block| self.is_free(block))
    }

    /// Whether each of the block's units is in the account, with the block's kind, and reserved by none.
    fn holds_free(&self, account: u64, block: &Block) -> bool
        ensures { OnTrue result ((s : Serial) → IsTrue (has_unit block.now.raw s)
            → IsHeldAs self.now account block.now.raw.kind s
            × (option_map (λ unit_holding. is_none unit_holding.reserving) (map.get self.now.unit_holdings s)
            ≡ Some true)) }
    {
        let kind = block.raw.kind;
        self.unit_holdings.has_all_of(
            block,
            |unit_holding| unit_holding.account == account
                && unit_holding.kind == kind
                && unit_holding.reserving.is_none(),
        )
    }

    /// Whether each unit of the blocks is in the account, with its block's kind, and reserved by none.
    fn holds_each_free(&self, account: u64, blocks: &[Block]) -> bool
        ensures { OnTrue result (AreHeld self.now account blocks.now × AreFree self.now blocks.now) }
    {
        blocks.iter().all(|block| self.holds_free(account, block))
    }

    /// Whether the account may reserve the blocks' units: it is open and has them all with their blocks' kinds, none of
    /// them reserved. Each check looks at all units before the next one does. Refused with `ACCOUNT_NOT_OPEN`: the
    /// account is unknown or closed; `UNIT_NOT_HELD`: a unit isn't held in the account with its block's kind;
    /// `UNIT_RESERVED`: a unit is reserved. Takes no memory.
    pub fn check(&self, account: u64, blocks: &[Block]) -> Result<(), Refusal>
        ensures ok { OnOk result (MayReserve self.now account blocks.now) }
        ensures err { IfErr result (λ r. IsReserveRefusal self.now account blocks.now r.code) }
    {
        if self.is_open(account) != Some(true) {
            return Err(Refusal {
                code: ACCOUNT_NOT_OPEN,
            });
        }
        // Where nothing is wrong, one walk finds that. Otherwise two of them find the first one in the order of
        // refusals.
        if self.holds_each_free(account, blocks) {
            return Ok(());
        }
        if !self.holds_each(account, blocks) {
            return Err(Refusal::NOT_HELD);
        }
        if !self.is_each_free(blocks) {
            return Err(Refusal {
                code: UNIT_RESERVED,
            });
        }
        Ok(())
    }

    /// Reserves the blocks' units for the transaction. Fails as `check` fails, and with `OUT_OF_MEMORY` only where
    /// `check` finds nothing. After a refusal nothing has changed.
    pub fn reserve(
        &mut self,
        account: u64,
        blocks: &[Block],
        id: TransactionId,
    ) -> Result<(), Refusal>
        ensures may { OnOk result (MayReserve self.old account blocks.now) }
        ensures ok { OnOk result ((self.new.accounts ≡ self.old.accounts)
            × ((s : Serial) → map.get self.new.unit_holdings s ≡ (if covers blocks.now s then option_map (reserved id)
            (map.get self.old.unit_holdings s) else map.get self.old.unit_holdings s))) }
        ensures refused { IfErr result (λ r. ((r.code ≡ out_of_memory) × MayReserve self.old account blocks.now)
            ⊎ IsReserveRefusal self.old account blocks.now r.code) }
        ensures err { OnErr result (self.new ≡ self.old) }
    {
        self.check(account, blocks)?;
        let parts = apart(self.alloc, blocks)?;
        let share = Share {
            account,
            count: count(&parts),
        };
        extend(self.alloc, &mut self.reservations, id, &parts, share)?;
        if let Err(refused) = set_unit_holdings(
            &mut self.unit_holdings,
            account,
            &parts,
            Some(id),
        ) {
            shorten(&mut self.reservations, id, &parts);
            return Err(refused.into());
        }
        reserve(&mut self.accounts, account, share.count);
        Ok(())
    }

    /// Frees the units that the transaction reserves. Takes no memory.
    pub fn release(&mut self, id: TransactionId)
        ensures accounts { self.new.accounts ≡ self.old.accounts }
        ensures unit_holdings { (s : Serial)
            → map.get self.new.unit_holdings s ≡ option_map (released id) (map.get self.old.unit_holdings s) }
    {
        let Some(reservation) = take(&mut self.reservations, id) else {
            return;
        };
        self.unit_holdings.relabel_in(
            &reservation.blocks,
            |unit_holding|
                ensures { result ≡ released id unit_holding }
            { released(unit_holding, id) },
        );
        release_all(&mut self.accounts, &reservation.shares);
    }

    /// Takes out the units that the transaction reserves. Takes no memory.
    pub fn remove(&mut self, id: TransactionId)
        ensures accounts { self.new.accounts ≡ self.old.accounts }
        ensures unit_holdings { (s : Serial)
            → map.get self.new.unit_holdings s
            ≡ labels_that (λ unit_holding. not (is_reserved_by id unit_holding)) (map.get self.old.unit_holdings s) }
    {
        let Some(reservation) = take(&mut self.reservations, id) else {
            return;
        };
        self.unit_holdings.remove_in(
            &reservation.blocks,
            |unit_holding|
                ensures { result ≡ is_reserved_by id unit_holding }
            { is_reserved_by(&unit_holding, id) },
        );
        take_out_all(&mut self.accounts, &reservation.shares);
    }

    /// Puts the blocks' units into the account, free. The account is open, and none of the units
    /// is in two of the blocks or held already. After `NoMemory` nothing has changed.
    pub fn credit(&mut self, account: u64, blocks: &[Block]) -> Result<(), NoMemory>
        requires open_account { IsOpen self.old account }
        requires apart { AllApart blocks.now }
        requires absent { (s : Serial) → IsTrue (covers blocks.now s) → map.get self.old.unit_holdings s ≡ None }
        ensures ok { OnOk result ((self.new.accounts ≡ self.old.accounts)
            × ((s : Serial) → map.get self.new.unit_holdings s ≡ option_or (option_map (free_unit_holding account)
            (kind_in blocks.now s)) (map.get self.old.unit_holdings s))) }
        ensures err { OnErr result (self.new ≡ self.old) }
    {
        set_unit_holdings(&mut self.unit_holdings, account, blocks, None)?;
        put_in(&mut self.accounts, account, count(blocks));
        Ok(())
    }

    /// Whether `open_account` would open the account; refused as it refuses. Takes no memory.
    pub fn may_open(&self, account: u64) -> Result<(), Refusal>
        ensures ok { OnOk result (map.get self.now.accounts account ≡ Some Closed) }
        ensures err { IfErr result (λ r. IsOpenRefusal self.now account r.code) }
    {
        let code = match self.account_status(account) {
            None => UNKNOWN_ACCOUNT,
            Some(AccountStatus::Open) => ALREADY_SO,
            Some(AccountStatus::Closed) => return Ok(()),
        };
        Err(Refusal { code })
    }

    /// Opens a closed account. Refused with `UNKNOWN_ACCOUNT`: the registry has no such account;
    /// `ALREADY_SO`: it is open already. After a refusal nothing has changed. Takes no memory.
    pub fn open_account(&mut self, account: u64) -> Result<(), Refusal>
        ensures ok { OnOk result ((map.get self.old.accounts account ≡ Some Closed)
            × (self.new.unit_holdings ≡ self.old.unit_holdings)
            × ((n : ℕ) → map.get self.new.accounts n ≡
            (if n == account then Some Open else map.get self.old.accounts n))) }
        ensures refused { IfErr result (λ r. IsOpenRefusal self.old account r.code) }
        ensures err { OnErr result (self.new ≡ self.old) }
    {
        self.may_open(account)?;
        self.set_account_status(account, AccountStatus::Open);
        Ok(())
    }

    /// Whether `close_account` would close the account; refused as it refuses. Takes no memory.
    pub fn may_close(&self, account: u64) -> Result<(), Refusal>
        ensures ok { OnOk result ((map.get self.now.accounts account ≡ Some Open) × (HasUnits self.now account → ⊥)) }
        ensures err { IfErr result (λ r. IsCloseRefusal self.now account r.code) }
    {
        match self.account_status(account) {
            None => Err(Refusal {
                code: UNKNOWN_ACCOUNT,
            }),
            Some(AccountStatus::Closed) => Err(Refusal { code: ALREADY_SO }),
            Some(AccountStatus::Open) if self.has_units(account) => Err(Refusal {
                code: HOLDS_UNITS,
            }),
            Some(AccountStatus::Open) => Ok(()),
        }
    }

    /// The number of units of the account.
    fn held_count(&self, account: u64) -> u64
        ensures { result ≡ count_by (λ e. is_in account e.1) (map.entries self.now.unit_holdings) }
    {
        match self.accounts.get(&account) {
            Some(account) => account.held,
            None => 0,
        }
    }

    /// Whether a unit is in the account.
    fn has_units(&self, account: u64) -> bool
        ensures some { OnTrue result (HasUnits self.now account) }
        ensures none { OnFalse result (HasUnits self.now account → ⊥) }
    {
        self.held_count(account) > 0
    }

    /// Closes an open account that holds nothing. Refused with `UNKNOWN_ACCOUNT`: the registry has
    /// no such account; `ALREADY_SO`: it is closed already; `HOLDS_UNITS`. After a refusal nothing
    /// has changed. Takes no memory.
    pub fn close_account(&mut self, account: u64) -> Result<(), Refusal>
        ensures ok { OnOk result ((map.get self.old.accounts account ≡ Some Open) × (HasUnits self.old account → ⊥)
            × (self.new.unit_holdings ≡ self.old.unit_holdings)
            × ((n : ℕ) → map.get self.new.accounts n ≡
            (if n == account then Some Closed else map.get self.old.accounts n))) }
        ensures refused { IfErr result (λ r. IsCloseRefusal self.old account r.code) }
        ensures err { OnErr result (self.new ≡ self.old) }
    {
        self.may_close(account)?;
        self.set_account_status(account, AccountStatus::Closed);
        Ok(())
    }

    /// How the unit is held, or `None`. Takes no memory.
    pub fn unit_holding(&self, unit: &Unit) -> Option<UnitHolding>
        ensures { result ≡ map.get self.now.unit_holdings unit.now }
    {
        self.unit_holdings.get(unit)
    }

    /// The intervals of units that are held in one way, keyed by their first units. No two intervals share a unit, and
    /// neighbours that are held in the same way are joined. Takes no memory.
    pub fn pieces(&self) -> &BTreeMap<Unit, Span<UnitHolding>>
        ensures kept { AreKept (intervals_of result.now.entries) }
        ensures joined { AreCanonical (λ _. 0) (intervals_of result.now.entries) }
        ensures means { (s : Serial) → label_at (intervals_of result.now.entries) s ≡ map.get self.now.unit_holdings s }
    {
        self.unit_holdings.pieces()
    }

    /// Whether one of the block's units is held.
    fn holds_some_of(&self, block: &Block) -> bool
        ensures some { OnTrue result ((s : Serial) × IsTrue (has_unit block.now.raw s)
            × IsSome (map.get self.now.unit_holdings s)) }
        ensures none { OnFalse result ((s : Serial) → IsTrue (has_unit block.now.raw s)
            → map.get self.now.unit_holdings s ≡ None) }
    {
        !self.unit_holdings.has_none_of(block)
    }

    /// Whether one of the blocks' units is held. Takes no memory.
    pub fn holds_any(&self, blocks: &[Block]) -> bool
        ensures some { OnTrue result ((s : Serial) × IsTrue (covers blocks.now s)
            × IsSome (map.get self.now.unit_holdings s)) }
        ensures none { OnFalse result ((s : Serial) → IsTrue (covers blocks.now s)
            → map.get self.now.unit_holdings s ≡ None) }
    {
        blocks.iter().any(|block| self.holds_some_of(block))
    }

    /// The number of the account's units that no transaction reserves. Takes no memory.
    pub fn free_count(&self, account: u64) -> u64
        ensures { result ≡ count_by (λ e. is_free_in account e.1) (map.entries self.now.unit_holdings) }
    {
        match self.accounts.get(&account) {
            Some(account) => account.free,
            None => 0,
        }
    }

    /// The holdings as lines, by account and then in the order of units, with neighbours of one account, kind and
    /// reserving transaction joined. Fails with `NoMemory` where memory runs out.
    pub fn lines(&self, alloc: Global) -> Result<Vec<HeldBlock>, NoMemory>
        ensures { IfOk result (λ v. AreLines self.now v.items) }
    {
        let intervals = self.unit_holdings.in_order()?;
        Ok(lines(alloc, &intervals)?)
    }
}
