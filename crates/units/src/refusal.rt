//! Refusals by number.
ghost use Rattle.std.specs.Prelude.{◌≡◌};
ghost use Rattle.units.specs.RefusalCodes.{out_of_memory};

use crate::memory::NoMemory;
use crate::refusal_code::{BLOCKS_OVERLAP, OUT_OF_MEMORY, UNIT_NOT_HELD};

/// Why an input was refused: one of the codes in `refusal_code`.
#[derive(Clone, Copy, Debug, PartialEq, Eq)]
pub struct Refusal {
    /// A code of `refusal_code`.
    pub code: u16,
}

impl Refusal {
    /// Out of memory.
    pub const NO_MEMORY: Refusal = Refusal {
        code: OUT_OF_MEMORY,
    };

    /// A unit is there already.
    pub const OVERLAP: Refusal = Refusal {
        code: BLOCKS_OVERLAP,
    };

    /// A unit isn't there, or is of another kind.
    pub const NOT_HELD: Refusal = Refusal {
        code: UNIT_NOT_HELD,
    };
}

impl From<NoMemory> for Refusal {
    ghost from_gives = { λ _ r. r.code ≡ out_of_memory };

    fn from(_: NoMemory) -> Refusal {
        Refusal::NO_MEMORY
    }
}
