//! The registries of a scheme and the units that their accounts have at the start.
ghost use Rattle.std.specs.Prelude.{◌≡◌};

use json_fields::TextFault;
use std::alloc::{AllocError, AllocFailed};
use thiserror::Error;
use units::{Block, Code, Items, Kind, Label};

/// The blocks that an account has at the start.
#[derive(Debug)]
pub struct Allotment {
    /// One of the registry's accounts, in any scheme: 1 to `LAST_ACCOUNT`.
    pub account: u64,
    pub units: Items<Block>,
}

// Written out, since a derived destructor is proved anew in each crate that lets a value go.
impl Drop for Allotment {
    fn drop(self) {
        let Allotment { account: _, units } = self;
        drop(units);
    }
}

/// A registry of the scheme.
#[derive(Debug)]
pub struct SchemeRegistry {
    pub code: Code,
    /// Numbers of 1 to `LAST_ACCOUNT`, in every scheme. In a scheme that was read: at most `MOST_ACCOUNTS`, none twice.
    pub accounts: Items<u64>,
    /// In a scheme that was read: at most `MOST_ALLOTTED` blocks in all registries, no unit twice.
    pub allotted: Items<Allotment>,
    /// Whether it may take part in transfers at the start.
    pub eligible: bool,
    /// The kinds of units that it takes.
    pub kinds: Items<Kind>,
}

// Written out, since a derived destructor is proved anew in each crate that lets a value go.
impl Drop for SchemeRegistry {
    fn drop(self) {
        let SchemeRegistry {
            code: _,
            accounts,
            allotted,
            eligible: _,
            kinds,
        } = self;
        drop(accounts);
        drop(allotted);
        drop(kinds);
    }
}

/// Who holds a unit at the start.
#[derive(Clone, Copy, Debug, PartialEq, Eq)]
pub struct Holder {
    pub registry: Code,
    /// One of that registry's accounts.
    pub account: u64,
    pub kind: Kind,
}

impl Label for Holder {
    ghost group = { λ _. 0 };

    fn group(&self) -> u64 {
        0
    }

    fn is_same(&self, other: &Holder) -> bool {
        self == other
    }
}

/// Why a text is no scheme: the first of these faults, in this order.
#[derive(Clone, Copy, Debug, PartialEq, Eq, Error)]
pub enum SchemeFault {
    /// It is no JSON text in UTF-8.
    #[error("not-json")]
    NotJson,
    /// It is JSON with a key or a value outside the grammar.
    #[error("shape")]
    Shape,
    /// More than `MOST_REGISTRIES` registries, `MOST_ACCOUNTS` accounts in one, or `MOST_ALLOTTED`
    /// allotted blocks.
    #[error("too-many")]
    TooMany,
    /// Fewer than `LEAST_REGISTRIES` registries.
    #[error("too-few")]
    TooFew,
    /// Two registries have one code.
    #[error("code-twice")]
    CodeTwice,
    /// An account number is listed twice in one registry.
    #[error("account-twice")]
    AccountTwice,
    /// An allotment is to an account that its registry doesn't have.
    #[error("unknown-account")]
    UnknownAccount,
    /// A unit is allotted twice, with any kinds.
    #[error("allotment-overlap")]
    AllotmentOverlap,
    #[error("out of memory")]
    NoMemory,
}

impl From<AllocError> for SchemeFault {
    ghost use Rattle.scheme.specs.declared.members.SchemeFault.TheVariants.{NoMemory};

    ghost from_gives = { λ _ e. e ≡ NoMemory };

    fn from(_: AllocError) -> SchemeFault {
        SchemeFault::NoMemory
    }
}

impl<T: Drop> From<AllocFailed<T>> for SchemeFault {
    ghost use Rattle.scheme.specs.declared.members.SchemeFault.TheVariants.{NoMemory};

    ghost from_gives = { λ _ e. e ≡ NoMemory };

    fn from(_: AllocFailed<T>) -> SchemeFault {
        SchemeFault::NoMemory
    }
}

impl From<TextFault> for SchemeFault {
    ghost use Rattle.scheme.specs.Unread.{fault_from};

    ghost from_gives = { λ f e. e ≡ fault_from f };

    fn from(fault: TextFault) -> SchemeFault {
        match fault {
            TextFault::Shape => SchemeFault::Shape,
            TextFault::NoMemory => SchemeFault::NoMemory,
        }
    }
}
