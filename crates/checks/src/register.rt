//! The log's knowledge of units and registries.
ghost use Rattle.std.specs.Prelude.{◌≡◌};

use scheme::Holder;
use status::TransactionId;
use std::collections::BTreeMap;
use units::{Code, Label, UnitMap};

/// An entry of the log's book: which registry owns a unit.
#[derive(Clone, Copy, Debug, PartialEq, Eq)]
pub struct BookEntry {
    pub registry: Code,
}

/// The transfer that a unit is in, which stands Checked or Accepted.
#[derive(Clone, Copy, Debug, PartialEq, Eq)]
pub struct UnderWay {
    pub id: TransactionId,
}

/// The log's knowledge of units and registries.
#[derive(Debug)]
pub struct Register {
    /// Who holds each allotted unit at the start.
    pub allotments: UnitMap<Holder>,
    /// Who owns each allotted unit.
    pub book: UnitMap<BookEntry>,
    /// The transfer that each unit under way is in.
    pub under_way: UnitMap<UnderWay>,
    /// Whether a registry may take part in transfers, by the last order for it.
    pub orders: BTreeMap<Code, bool>,
}

// Written out, since a derived destructor is proved anew in each crate that lets a value go.
impl Drop for Register {
    fn drop(self) {
        let Register {
            allotments,
            book,
            under_way,
            orders,
        } = self;
        drop(allotments);
        drop(book);
        drop(under_way);
        drop(orders);
    }
}

impl Label for BookEntry {
    ghost group = { λ _. 0 };

    fn group(&self) -> u64 {
        0
    }

    fn is_same(&self, other: &BookEntry) -> bool {
        self == other
    }
}

impl Label for UnderWay {
    ghost group = { λ _. 0 };

    fn group(&self) -> u64 {
        0
    }

    fn is_same(&self, other: &UnderWay) -> bool {
        self == other
    }
}
