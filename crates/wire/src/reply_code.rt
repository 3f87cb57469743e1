//! The numbers of refusals of a message.
ghost use Rattle.std.specs.Prelude.{◌≡◌, ◌≤◌, IfSome, IfNone};
ghost use Rattle.units.specs.RefusalCodes.{not_a_message, out_of_memory};

use units::refusal_code::{NOT_A_MESSAGE, OUT_OF_MEMORY};

/// Why a message was refused: a code from `NOT_A_MESSAGE` to `OUT_OF_MEMORY`.
#[derive(Clone, Copy, Debug, PartialEq, Eq)]
pub struct ReplyCode {
    /// `NOT_A_MESSAGE` to `OUT_OF_MEMORY`.
    pub number: u16,
    pub ghost in_range: { (not_a_message ≤ number) × (number ≤ out_of_memory) },
}

impl ReplyCode {
    /// That number, if it is in the range.
    pub fn new(number: u16) -> Option<ReplyCode>
        ensures some { IfSome result (λ c. c.number ≡ number) }
        ensures none { IfNone result ((not_a_message ≤ number) × (number ≤ out_of_memory) → ⊥) }
    {
        if (NOT_A_MESSAGE..=OUT_OF_MEMORY).contains(&number) {
            Some(ReplyCode { number })
        } else {
            None
        }
    }
}
