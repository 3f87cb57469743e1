//! The content of a transfer.
ghost use Rattle.std.specs.Prelude.{◌≡◌, ◌≤◌, ◌↔◌, IsTrue, IfOk, IfSome, IfNone, length};
ghost use Rattle.units.specs.Facts.{IsAccountNumber};
ghost use Rattle.status.specs.Content.{IsContent, raws, same_blocks, same_content};

use std::marker::Model;
use units::limits::{LAST_ACCOUNT, MOST_BLOCKS};
use units::{Block, Code, Items, NoMemory};

/// The content of a transfer: the account that the units leave, the acquirer and its account that they go to, and 1 to
/// `MOST_BLOCKS` blocks. The transfer's identifier isn't a part of it; the code of the identifier is the initiator.
/// Accounts are 1 to `LAST_ACCOUNT`.
#[derive(Debug)]
pub struct Content {
    account: u64,
    acquirer: Code,
    to_account: u64,
    units: Items<Block>,
}

// Written out, since a derived destructor is proved anew in each crate that lets a value go.
impl Drop for Content {
    fn drop(self) {
        let Content {
            account: _,
            acquirer: _,
            to_account: _,
            units,
        } = self;
        drop(units);
    }
}

impl Model for Content {
    ghost use Rattle.status.specs.Content.{Content as Terms, IsContent, raws};

    ghost Value = { Terms };

    ghost view = { λ c. record
        { account = c.account; acquirer = c.acquirer; to_account = c.to_account; units = raws c.units } };

    ghost invariant = { λ c. IsContent
        (record { account = c.account; acquirer = c.acquirer; to_account = c.to_account; units = raws c.units }) };
}

fn is_account(number: u64) -> bool
    ensures { IsTrue result ↔ IsAccountNumber number }
{
    (1..=LAST_ACCOUNT).contains(&number)
}

fn are_same_blocks(a: &[Block], b: &[Block]) -> bool
    ensures { result ≡ same_blocks (raws a.now) (raws b.now) }
{
    a == b
}

impl Content {
    /// A content with these parts, or `None` where an account is out of range, or there is no block or more than
    /// `MOST_BLOCKS`.
    pub fn new(
        account: u64,
        acquirer: Code,
        to_account: u64,
        units: Items<Block>,
    ) -> Option<Content>
        ensures some { IfSome result
            (λ c. c ≡ record { account = account; acquirer = acquirer; to_account = to_account; units = raws units }) }
        ensures valid { IfSome result (λ c. IsContent c) }
        ensures none { IfNone result
            (IsContent (record { account = account; acquirer = acquirer; to_account = to_account; units = raws units })
            → ⊥) }
    {
        let count = units.as_slice().len();
        if is_account(account) && is_account(to_account) && 1 <= count && count <= MOST_BLOCKS {
            Some(Content {
                account,
                acquirer,
                to_account,
                units,
            })
        } else {
            None
        }
    }

    /// The initiator's account, which the units leave: 1 to `LAST_ACCOUNT`.
    pub fn account(&self) -> u64
        ensures value { result ≡ self.now.account }
        ensures valid { IsContent self.now }
    {
        self.account
    }

    /// The registry that the units go to.
    pub fn acquirer(&self) -> Code
        ensures { result ≡ self.now.acquirer }
    {
        self.acquirer
    }

    /// The acquirer's account, which the units go to: 1 to `LAST_ACCOUNT`.
    pub fn to_account(&self) -> u64
        ensures value { result ≡ self.now.to_account }
        ensures valid { IsContent self.now }
    {
        self.to_account
    }

    /// The blocks, 1 to `MOST_BLOCKS`.
    pub fn units(&self) -> &[Block]
        ensures value { raws result.now ≡ self.now.units }
        ensures valid { IsContent self.now }
    {
        self.units.as_slice()
    }

    /// Whether both are the same, blocks compared as lists.
    pub fn same(&self, other: &Content) -> bool
        ensures value { result ≡ same_content self.now other.now }
        ensures meaning { IsTrue result ↔ self.now ≡ other.now }
    {
        self.account == other.account
            && self.acquirer == other.acquirer
            && self.to_account == other.to_account
            && are_same_blocks(self.units.as_slice(), other.units.as_slice())
    }

    /// An equal content, or `NoMemory`.
    pub fn copy(&self) -> Result<Content, NoMemory>
        ensures { IfOk result (λ c. c ≡ self.now) }
    {
        Ok(Content {
            account: self.account,
            acquirer: self.acquirer,
            to_account: self.to_account,
            units: self.units.copy()?,
        })
    }
}
