//! An order to transfer units.
ghost use Rattle.std.specs.Prelude.{◌≡◌, ◌<◌, ◌↔◌, IsTrue, IfOk, IfSome, IfNone};
ghost use Rattle.std.specs.List.{AllByRecursion};
ghost use Rattle.units.specs.Limits.{too_long};
ghost use Rattle.status.specs.Content.{same_blocks};
ghost use Rattle.status.specs.Order.{IsOrder, same_order};

use std::marker::Model;
use units::limits::TOO_LONG;
use units::{Code, Items, NoMemory, RawBlock};

/// An order to transfer units, as it was given. None of its parts is checked, except that its numbers have at most
/// `MOST_DIGITS` digits.
#[derive(Debug)]
pub struct Order {
    account: u64,
    acquirer: Code,
    to_account: u64,
    units: Items<RawBlock>,
}

// Written out, since a derived destructor is proved anew in each crate that lets a value go.
impl Drop for Order {
    fn drop(self) {
        let Order {
            account: _,
            acquirer: _,
            to_account: _,
            units,
        } = self;
        drop(units);
    }
}

impl Model for Order {
    ghost use Rattle.status.specs.Order.{Order as Asked, IsOrder};

    ghost Value = { Asked };

    ghost view = { λ o. record
        { account = o.account; acquirer = o.acquirer; to_account = o.to_account; units = o.units } };

    ghost invariant = { λ o. IsOrder
        (record { account = o.account; acquirer = o.acquirer; to_account = o.to_account; units = o.units }) };
}

fn are_short(blocks: &[RawBlock]) -> bool
    ensures { IsTrue result ↔ AllByRecursion (λ b. (b.first < too_long) × (b.last < too_long)) blocks.now }
{
    for block in blocks {
        if block.first >= TOO_LONG || block.last >= TOO_LONG {
            return false;
        }
    }
    true
}

fn are_same_blocks(a: &[RawBlock], b: &[RawBlock]) -> bool
    ensures { result ≡ same_blocks a.now b.now }
{
    a == b
}

impl Order {
    /// An order with these parts, or `None` where a number has more than `MOST_DIGITS` digits.
    pub fn new(
        account: u64,
        acquirer: Code,
        to_account: u64,
        units: Items<RawBlock>,
    ) -> Option<Order>
        ensures some { IfSome result
            (λ o. o ≡ record { account = account; acquirer = acquirer; to_account = to_account; units = units }) }
        ensures valid { IfSome result (λ o. IsOrder o) }
        ensures none { IfNone result
            (IsOrder (record { account = account; acquirer = acquirer; to_account = to_account; units = units })
            → ⊥) }
    {
        if account < TOO_LONG && to_account < TOO_LONG && are_short(units.as_slice()) {
            Some(Order {
                account,
                acquirer,
                to_account,
                units,
            })
        } else {
            None
        }
    }

    /// The account that the units are to leave.
    pub fn account(&self) -> u64
        ensures value { result ≡ self.now.account }
        ensures valid { IsOrder self.now }
    {
        self.account
    }

    /// The registry that the units are to go to.
    pub fn acquirer(&self) -> Code
        ensures { result ≡ self.now.acquirer }
    {
        self.acquirer
    }

    /// The account there that the units are to go to.
    pub fn to_account(&self) -> u64
        ensures value { result ≡ self.now.to_account }
        ensures valid { IsOrder self.now }
    {
        self.to_account
    }

    /// The blocks as they were ordered.
    pub fn units(&self) -> &[RawBlock]
        ensures value { result.now ≡ self.now.units }
        ensures valid { IsOrder self.now }
    {
        self.units.as_slice()
    }

    /// Whether both are the same, blocks compared as lists. Takes no memory.
    pub fn same(&self, other: &Order) -> bool
        ensures value { result ≡ same_order self.now other.now }
        ensures meaning { IsTrue result ↔ self.now ≡ other.now }
    {
        self.account == other.account
            && self.acquirer == other.acquirer
            && self.to_account == other.to_account
            && are_same_blocks(self.units.as_slice(), other.units.as_slice())
    }

    /// An equal order, or `NoMemory`.
    pub fn copy(&self) -> Result<Order, NoMemory>
        ensures { IfOk result (λ o. o ≡ self.now) }
    {
        Ok(Order {
            account: self.account,
            acquirer: self.acquirer,
            to_account: self.to_account,
            units: self.units.copy()?,
        })
    }
}
