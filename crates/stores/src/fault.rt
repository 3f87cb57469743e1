//! Why a store can't do what it is asked.
ghost use Rattle.std.specs.Prelude.{◌≡◌};

use std::alloc::AllocFailed;
use std::error::Error;
use std::fmt;
use units::NoMemory;

/// A fault of a store. Its text is the word that the program shows.
#[derive(Clone, Copy, Debug, PartialEq, Eq)]
pub enum StoreFault {
    /// The device, or the file on it, failed.
    Device,
    /// No room on the device, or a record too large for it.
    Full,
    /// The record at this place is missing or can't be read; at place 0, also: the file is no store.
    Damaged(u64),
    /// The store is another node's.
    WrongNode,
    /// The store has another format.
    WrongVersion,
    /// A fault came before, and the store has not been reopened since.
    Reopen,
    /// Out of memory.
    NoMemory,
}

impl fmt::Display for StoreFault {
    ghost use Rattle.std.specs.Prelude.{Some};
    ghost use Rattle.stores.specs.FaultTexts.{fault_text};

    ghost output = { λ fault. Some (fault_text fault) };

    fn fmt<W: fmt::Write>(&self, f: &mut fmt::Formatter<W>) -> fmt::Result {
        match *self {
            StoreFault::Device => f.write_str("device"),
            StoreFault::Full => f.write_str("full"),
            StoreFault::Damaged(place) => write!(f, "damaged {place}"),
            StoreFault::WrongNode => f.write_str("wrong-node"),
            StoreFault::WrongVersion => f.write_str("wrong-version"),
            StoreFault::Reopen => f.write_str("reopen"),
            StoreFault::NoMemory => f.write_str("out of memory"),
        }
    }
}

impl Error for StoreFault {}

impl<T: Drop> From<AllocFailed<T>> for StoreFault {
    ghost use Rattle.stores.specs.declared.fault.StoreFault.TheVariants.{NoMemory};

    ghost from_gives = { λ _ e. e ≡ NoMemory };

    fn from(_: AllocFailed<T>) -> StoreFault {
        StoreFault::NoMemory
    }
}

impl From<NoMemory> for StoreFault {
    ghost use Rattle.stores.specs.declared.fault.StoreFault.TheVariants.{NoMemory};

    ghost from_gives = { λ _ e. e ≡ NoMemory };

    fn from(_: NoMemory) -> StoreFault {
        StoreFault::NoMemory
    }
}
