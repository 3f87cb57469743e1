//! The decision of a role's table on an input, before anything has changed.
ghost use Rattle.std.specs.Prelude.{◌≡◌};
ghost use Rattle.protocol.specs.Decisions.{decided, step_of};

use crate::node_core::Stepped;
use status::{Row, Status};
use units::Refusal;
use units::refusal_code::NO_ROW;

/// Why an input that isn't refused changes nothing.
#[derive(Clone, Copy, Debug, PartialEq, Eq)]
pub enum Stale {
    /// It was acted on before.
    Repeat,
    /// It came too late to act on.
    Late,
}

/// The decision of a role's table on an input that isn't refused.
#[derive(Clone, Copy, Debug, PartialEq, Eq)]
pub enum Decision {
    /// It is to be recorded, and its transaction then has that status.
    Moves(Status),
    /// It changes nothing.
    Stays(Stale),
}

impl Decision {
    /// The decision of the row. Fails with `NO_ROW` where the table has no such row.
    pub fn by_row(row: Row) -> Result<Decision, Refusal>
        ensures { result ≡ decided row }
    {
        match row {
            Row::Move(new) => Ok(Decision::Moves(new)),
            Row::Repeat => Ok(Decision::Stays(Stale::Repeat)),
            Row::Late => Ok(Decision::Stays(Stale::Late)),
            Row::Refused => Err(Refusal { code: NO_ROW }),
        }
    }
}

impl From<Stale> for Stepped {
    ghost from_gives = { λ stale stepped. stepped ≡ step_of stale };

    fn from(stale: Stale) -> Stepped {
        match stale {
            Stale::Repeat => Stepped::Repeat,
            Stale::Late => Stepped::Late,
        }
    }
}
