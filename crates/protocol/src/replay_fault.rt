//! Why a journal can't be replayed.
ghost use Rattle.std.specs.Prelude.{◌≡◌};

use thiserror::Error;
use units::NoMemory as OutOfMemory;

/// Why a journal can't be replayed.
#[derive(Clone, Copy, Debug, PartialEq, Eq, Error)]
pub enum ReplayFault {
    /// The record at that place of the whole journal, counted from 0, isn't one that the core records there.
    #[error("not-recorded {0}")]
    NotRecorded(usize),
    #[error("out of memory")]
    NoMemory,
}

impl From<OutOfMemory> for ReplayFault {
    ghost use Rattle.protocol.specs.declared.replay_fault.ReplayFault.TheVariants.{NoMemory};

    ghost from_gives = { λ _ e. e ≡ NoMemory };

    fn from(_: OutOfMemory) -> ReplayFault {
        ReplayFault::NoMemory
    }
}
