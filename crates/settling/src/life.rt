//! The result of settling.
ghost use Rattle.std.specs.Prelude.{◌≡◌};

use thiserror::Error;
use units::NoMemory as OutOfMemory;

/// How many records the journal had at the opening, how many it has now, and how many of these are committed.
#[derive(Clone, Copy, Debug, PartialEq, Eq)]
pub struct Life {
    pub opening: usize,
    pub records: usize,
    pub committed: usize,
}

/// A node that was settled: how long its journal is, and a core that has recorded the committed records again.
#[derive(Drop)]
pub struct Settled<C> {
    pub life: Life,
    pub core: C,
}

/// Why the notes of the seats aren't those of a single thread.
#[derive(Clone, Copy, Debug, PartialEq, Eq, Error)]
pub enum Unsettled {
    /// No seat has a ticket of the record at that place.
    #[error("no thread has a note of the record at place {0}")]
    Missing(usize),
    /// The record at that place has more than one ticket.
    #[error("threads have more than one note of the record at place {0}")]
    Twice(usize),
    /// A ticket for that place doesn't have the input recorded there, or the place isn't one since the opening.
    #[error("a note of the record at place {0} has another record")]
    Differs(usize),
    /// This number of records was confirmed to a seat as committed, and fewer are.
    #[error("a note has {0} records as committed, and fewer are")]
    NotCommitted(usize),
    /// A seat noted a shorter journal after a longer one.
    #[error("a note has a shorter journal than the note before it")]
    Fell,
    /// The result that a seat noted after this number of records isn't the expected one.
    #[error("a note made after {0} records isn't the one that is due then")]
    Untrue(usize),
    /// The record at that place isn't one that the node records there.
    #[error("the record at place {0} isn't one that the node records there")]
    NotRecorded(usize),
    #[error("out of memory")]
    NoMemory,
}

impl From<OutOfMemory> for Unsettled {
    ghost use Rattle.settling.specs.declared.life.Unsettled.TheVariants.{NoMemory};

    ghost from_gives = { λ _ e. e ≡ NoMemory };

    fn from(_: OutOfMemory) -> Unsettled {
        Unsettled::NoMemory
    }
}
