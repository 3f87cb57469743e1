//! Why journals are not woven.
ghost use Rattle.std.specs.Prelude.{◌≡◌};

use thiserror::Error;
use units::{NoMemory as OutOfMemory, Node};

/// Why journals are not woven into a list of events.
#[derive(Clone, Copy, Debug, PartialEq, Eq, Error)]
pub enum WeaveFault {
    /// No list of events leads to the journals. This is the first node with a record left after following them as far
    /// as they go, the log before the registries in the scheme's order, and the place of that record, counted from 0.
    #[error("stuck at {node} {place}")]
    Stuck { node: Node, place: usize },
    #[error("out of memory")]
    NoMemory,
}

impl From<OutOfMemory> for WeaveFault {
    ghost use Rattle.weave.specs.declared.fault.WeaveFault.TheVariants.{NoMemory};

    ghost from_gives = { λ _ e. e ≡ NoMemory };

    fn from(_: OutOfMemory) -> WeaveFault {
        WeaveFault::NoMemory
    }
}
