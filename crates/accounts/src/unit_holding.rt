//! The ways in which a unit is held.

use status::TransactionId;
use units::{Block, Kind, Label};

/// Whether an account may take part in transfers.
#[derive(Clone, Copy, Debug, PartialEq, Eq)]
pub enum AccountStatus {
    Open,
    Closed,
}

/// How a unit is held: the account, the kind, and the transaction that reserves it, if any.
#[derive(Clone, Copy, Debug, PartialEq, Eq)]
pub struct UnitHolding {
    /// One of the registry's accounts.
    pub account: u64,
    pub kind: Kind,
    /// The transaction that reserves it, `None` where it is free.
    pub reserving: Option<TransactionId>,
}

/// A block of an account's units, all of them reserved by one transaction or by none.
#[derive(Clone, Copy, Debug, PartialEq, Eq)]
pub struct HeldBlock {
    /// One of the registry's accounts.
    pub account: u64,
    pub block: Block,
    /// The transaction that reserves all of it, `None` where all of it is free.
    pub reserving: Option<TransactionId>,
}

impl Label for UnitHolding {
    ghost use Rattle.accounts.specs.declared.unit_holding.UnitHolding.{UnitHolding};

    ghost group = { λ unit_holding. unit_holding.account };

    fn group(&self) -> u64 {
        self.account
    }

    fn is_same(&self, other: &UnitHolding) -> bool {
        self == other
    }
}
