//! The interface of a node's core.

use records::Records;
use status::{Status, TransactionId};
use units::{NoMemory, Node, Refusal};
use wire::{Input, Message};

/// The result of an input that a core took.
#[derive(Clone, Copy, Debug, PartialEq, Eq)]
pub enum Stepped {
    /// It is a record of the journal, at that place, counted from 0.
    Recorded(usize),
    /// It was acted on before.
    Repeat,
    /// It came too late to act on.
    Late,
}

/// The core of a node: a scheme, a node, and its journal, the list of the inputs that it recorded, the oldest first.
/// Its results are those of `verdict`, `sends` and `stands` for the journal's history.
pub trait NodeCore: Drop {
    ghost use Rattle.std.specs.Prelude.{◌≡◌, ℕ, List, [], length, take, slice_get, option_copied, IfErr, IfOk};
    ghost use Rattle.units.specs.RefusalCodes.{out_of_memory};
    ghost use Rattle.units.specs.declared.code.Node.{Node};
    ghost use Rattle.wire.specs.declared.input.Input.{Input};
    ghost use Rattle.scheme.specs.declared.registries.Scheme.{Scheme};
    ghost use Rattle.protocol.specs.History.{sends, stands, transitions_of, is_acknowledged};
    ghost use Rattle.protocol.specs.Verdict.{history};
    ghost use Rattle.protocol.specs.Cores.{AreRecordsOf, IsExpectedOrNoMemory, Replays, after, answer};
    ghost use Rattle.protocol.specs.Unacknowledged.{IsLeastFrom, awaits};

    /// The scheme of the core.
    ghost scheme_of: { Self → Scheme };

    /// The node of the core.
    ghost node_of: { Self → Node };

    /// The inputs that it recorded, the oldest first.
    ghost journal_of: { Self → List Input };

    /// The core lacked the memory to take the input. `step` ensures this where it fails with `OUT_OF_MEMORY`.
    ghost lacked_memory: { Self → Input → Type 0 };

    /// The node of the core.
    fn node(&self) -> Node
        ensures { result ≡ node_of self.now };

    /// Its journal, with the effect of each record on the node's messages.
    fn recorded(&self) -> &Records
        ensures { AreRecordsOf (scheme_of self.now) (node_of self.now) (journal_of self.now) result.now };

    /// Takes an input, and returns the result that is expected after the journal: the input is recorded, at the place
    /// that is returned, or it is a repeat, or late, or it is refused with the code of the reason. Refusal
    /// `OUT_OF_MEMORY` may be returned in place of any of these. Where the input isn't recorded, nothing has changed.
    fn step(&mut self, input: &Input) -> Result<Stepped, Refusal>
        ensures memory { IfErr result (λ refusal. refusal.code ≡ out_of_memory → lacked_memory self.old input.now) }
        ensures answer { IsExpectedOrNoMemory result
            (answer (scheme_of self.old) (node_of self.old) (journal_of self.old) input.now) }
        ensures journal { journal_of self.new ≡ after (journal_of self.old) input.now result }
        ensures scheme { scheme_of self.new ≡ scheme_of self.old }
        ensures node { node_of self.new ≡ node_of self.old };

    /// Where a transaction stands, or `None` where no record is about it.
    fn status_of(&self, id: TransactionId) -> Option<Status>
        ensures { result ≡ stands
            (transitions_of (history (scheme_of self.now) (node_of self.now) (journal_of self.now))) id };

    /// The core of the empty journal, under the same scheme and at the same node; or `NoMemory`.
    fn fresh(&self) -> Result<Self, NoMemory>
    where
        Self: Sized,
        ensures scheme { IfOk result (λ core. scheme_of core ≡ scheme_of self.now) }
        ensures node { IfOk result (λ core. node_of core ≡ node_of self.now) }
        ensures journal { IfOk result (λ core. journal_of core ≡ []) };

    /// The records of its journal, the oldest first. Each was recorded at its place after those before it.
    fn journal(&self) -> &[Input]
        ensures value { result.now ≡ journal_of self.now }
        ensures replays { Replays (scheme_of self.now) (node_of self.now) (journal_of self.now) }
    {
        self.recorded().inputs()
    }

    /// The number of records.
    fn records(&self) -> usize
        ensures { result ≡ length (journal_of self.now) }
    {
        self.recorded().len()
    }

    /// The number of messages that the journal sends.
    fn sends(&self) -> usize
        ensures { result ≡ length (sends (history (scheme_of self.now) (node_of self.now) (journal_of self.now))) }
    {
        self.recorded().sends()
    }

    /// The number of messages that the first `records` records send.
    fn sent_by(&self, records: usize) -> usize
        ensures { result ≡ length
            (sends (history (scheme_of self.now) (node_of self.now) (take records (journal_of self.now)))) }
    {
        self.recorded().sent_by(records)
    }

    /// The message with that key, or `None` where none has it. A message's key is its number among all that the
    /// journal sends, counted from 0.
    fn outbox(&self, key: usize) -> Option<&Message>
        ensures { option_copied result
            ≡ slice_get (sends (history (scheme_of self.now) (node_of self.now) (journal_of self.now))) key }
    {
        self.recorded().message(key)
    }

    /// Whether a record of the journal acknowledges the message with that key.
    fn acknowledged(&self, key: usize) -> bool
        ensures { result ≡ is_acknowledged
            (history (scheme_of self.now) (node_of self.now) (journal_of self.now)) key }
    {
        self.recorded().is_acknowledged(key)
    }

    /// The least key, from that one on, of a message that goes to `peer` and isn't acknowledged; or `None` where
    /// there is no such message.
    fn next_unacknowledged(&self, peer: Node, from: usize) -> Option<usize>
        ensures { let es = history (scheme_of self.now) (node_of self.now) (journal_of self.now) in IsLeastFrom
            (awaits (sends es) (is_acknowledged es) peer) from result }
    {
        self.recorded().next_unacknowledged(peer, from)
    }
}
