//! Questions to a state, and its results.
ghost use Rattle.std.specs.Prelude.{◌≡◌};
ghost use Rattle.node_state.specs.Telling.{is_unjudged};

use protocol::Stepped;
use status::{Status, TransactionId};
use units::Refusal;
use units::refusal_code::{NODE_STOPPED, OUT_OF_MEMORY};
use wire::Input;

/// A question to a state.
#[derive(Debug, Drop)]
pub enum Asked {
    /// To take that input.
    Take(Input),
    /// Where that transaction stands.
    Query(TransactionId),
}

/// The result of a question.
#[derive(Clone, Copy, Debug, PartialEq, Eq)]
pub enum Told {
    /// How the input was recorded.
    Step(Stepped),
    /// Where the transaction stands, or `None` if no record is about it.
    Status(Option<Status>),
    /// The input was refused, or the state had stopped.
    Refused(Refusal),
}

/// Whether the refusal comes from no journal: the state had stopped, or memory ran out.
pub fn is_unjudged(refusal: Refusal) -> bool
    ensures { result ≡ is_unjudged refusal.code }
{
    refusal.code == NODE_STOPPED || refusal.code == OUT_OF_MEMORY
}

/// A question, its result, and how many records the journal then had.
#[derive(Debug)]
pub struct Note {
    pub asked: Asked,
    pub told: Told,
    pub length: usize,
}

// Written out, since a derived destructor is proved anew in each crate that lets a value go.
impl Drop for Note {
    fn drop(self) {
        let Note {
            asked,
            told: _,
            length: _,
        } = self;
        drop(asked);
    }
}

/// An input that was recorded, and its place in the journal, counted from 0.
#[derive(Debug)]
pub struct Ticket {
    pub place: usize,
    pub input: Input,
}

// Written out, since a derived destructor is proved anew in each crate that lets a value go.
impl Drop for Ticket {
    fn drop(self) {
        let Ticket { place: _, input } = self;
        drop(input);
    }
}

/// Whether the lengths of the journal that a seat noted ever fell.
#[derive(Clone, Copy, Debug, PartialEq, Eq)]
pub enum Lengths {
    /// None was below an earlier one.
    Grew,
    /// One was below an earlier one.
    Fell,
}
