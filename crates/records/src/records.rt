//! A journal with the messages that it sent.
ghost use Rattle.std.specs.Prelude.{◌≡◌, ◌⊎◌, ◌<◌, List, [], true, false, nat_le, length, take, slice_get, option_copied, IfOk, IfErr, OnOk, vec_capacity, vec_len};
ghost use Rattle.units.specs.RefusalCodes.{journal_full, out_of_memory};
ghost use Rattle.wire.specs.declared.input.Input.{Input};
ghost use Rattle.wire.specs.declared.message.Message.{Message};
ghost use Rattle.records.specs.Records.{Admits, RecordsView, with_record};
ghost use Rattle.records.specs.Sending as sending;
ghost use Rattle.records.specs.Sending.{Acknowledges, EndsWithMessages, Sends};
ghost use Rattle.records.specs.Unacknowledged.{IsLeastFrom, awaits};

use crate::outbox::Outbox;
use scheme::Scheme;
use std::alloc::Global;
use std::marker::Model;
use units::refusal_code::JOURNAL_FULL;
use units::{NoMemory, Node, Refusal};
use wire::{Input, Message};

/// The inputs that a node has recorded, the oldest first, and the effect of each record on the node's messages: it
/// sends some, which are numbered in order from 0, or acknowledges one.
#[derive(Debug)]
pub struct Records {
    inputs: Vec<Input>,
    outbox: Outbox,
}

// Written out, since a derived destructor is proved anew in each crate that lets a value go.
impl Drop for Records {
    fn drop(self) {
        let Records { inputs, outbox } = self;
        drop(inputs);
        drop(outbox);
    }
}

impl Model for Records {
    ghost use Rattle.std.specs.Prelude.{◌≡◌, length};
    ghost use Rattle.records.specs.Records.{RecordsView};

    ghost Value = { RecordsView };

    ghost view = { λ r. record { inputs = r.inputs.items; sent = r.outbox } };

    ghost invariant = { λ r. length r.inputs.items ≡ length r.outbox };
}

/// A copy of the input, for which the journal has room afterwards. Refused with `JOURNAL_FULL` where the journal has
/// the number of records that the scheme allows, and with `OUT_OF_MEMORY`. The journal keeps its records.
fn fitting(journal: &mut Vec<Input>, scheme: &Scheme, input: &Input) -> Result<Input, Refusal>
    ensures items { journal.new.items ≡ journal.old.items }
    ensures room { OnOk result (vec_len journal.new < vec_capacity journal.new) }
    ensures copy { IfOk result (λ i. i ≡ input.now) }
    ensures ok { OnOk result (nat_le scheme.now.records (length journal.old.items) ≡ false) }
    ensures err { IfErr result (λ r. (r.code ≡ out_of_memory)
        ⊎ ((r.code ≡ journal_full) × (nat_le scheme.now.records (length journal.old.items) ≡ true))) }
{
    if scheme.records() <= journal.len() as u64 {
        return Err(Refusal { code: JOURNAL_FULL });
    }
    if journal.reserve(1).is_err() {
        return Err(Refusal::NO_MEMORY);
    }
    Ok(input.copy()?)
}

impl Records {
    /// No records. Takes no memory.
    pub fn new(alloc: Global) -> Records
        ensures { result ≡ record { inputs = []; sent = [] } }
    {
        Records {
            inputs: Vec::new(alloc),
            outbox: Outbox::new(alloc),
        }
    }

    /// The inputs.
    pub fn inputs(&self) -> &[Input]
        ensures { result.now ≡ self.now.inputs }
    {
        self.inputs.as_slice()
    }

    /// Records a copy of the input, which sends these messages: their keys go up from `sends`. Returns the record's
    /// place. Refused with `JOURNAL_FULL` where the journal has the number of records that the scheme allows, and with
    /// `OUT_OF_MEMORY`; then nothing has changed.
    #[inline(always)]
    pub fn admit(
        &mut self,
        scheme: &Scheme,
        input: &Input,
        messages: Vec<Message>,
    ) -> Result<usize, Refusal>
        ensures { Admits scheme.now.records self.old self.new input.now (Sends messages.items) result }
    {
        let input = match fitting(&mut self.inputs, scheme, input) {
            Ok(input) => input,
            Err(refused) => {
                drop(messages);
                return Err(refused);
            }
        };
        if let Err(NoMemory) = self.outbox.record(messages) {
            drop(input);
            return Err(Refusal::NO_MEMORY);
        }
        let place = self.inputs.len();
        self.inputs.push_reserved(input);
        Ok(place)
    }

    /// Records a copy of the input, which acknowledges the message with that key. Returns the record's place. Refused
    /// as `admit` is.
    pub fn acknowledge(
        &mut self,
        scheme: &Scheme,
        input: &Input,
        key: usize,
    ) -> Result<usize, Refusal>
        requires { key < length (sending.messages self.old.sent) }
        ensures { Admits scheme.now.records self.old self.new input.now (Acknowledges key) result }
    {
        let input = fitting(&mut self.inputs, scheme, input)?;
        if let Err(NoMemory) = self.outbox.acknowledge(key) {
            drop(input);
            return Err(Refusal::NO_MEMORY);
        }
        let place = self.inputs.len();
        self.inputs.push_reserved(input);
        Ok(place)
    }

    /// Removes the last record, which sends messages, as if it hadn't been admitted. Takes no memory.
    pub fn take_back(&mut self)
        requires { EndsWithMessages self.old.sent }
        ensures { (earlier : RecordsView) (input : Input) (messages : List Message)
            → self.old ≡ with_record earlier input (Sends messages) → self.new ≡ earlier }
    {
        self.inputs.pop();
        self.outbox.take_back();
    }

    /// The number of records.
    pub fn len(&self) -> usize
        ensures { result ≡ length self.now.inputs }
    {
        self.inputs.len()
    }

    /// The message with that key, or `None` where none has it.
    pub fn message(&self, key: usize) -> Option<&Message>
        ensures { option_copied result ≡ slice_get (sending.messages self.now.sent) key }
    {
        self.outbox.message(key)
    }

    /// Whether a record acknowledges the message with that key.
    pub fn is_acknowledged(&self, key: usize) -> bool
        ensures { result ≡ sending.is_key_acknowledged self.now.sent key }
    {
        self.outbox.is_acknowledged(key)
    }

    /// The number of messages.
    pub fn sends(&self) -> usize
        ensures { result ≡ length (sending.messages self.now.sent) }
    {
        self.outbox.sends()
    }

    /// The number of messages that the first `records` records send.
    pub fn sent_by(&self, records: usize) -> usize
        ensures { result ≡ length (sending.messages (take records self.now.sent)) }
    {
        self.outbox.sent_by(records)
    }

    /// The least key, from that one on, of a message that goes to `peer` and isn't acknowledged; or `None` where
    /// there is no such message.
    pub fn next_unacknowledged(&self, peer: Node, from: usize) -> Option<usize>
        ensures { IsLeastFrom
            (awaits (sending.messages self.now.sent) (sending.is_key_acknowledged self.now.sent) peer) from result }
    {
        self.outbox.next_unacknowledged(peer, from)
    }
}
