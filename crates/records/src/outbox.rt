//! Numbered messages.
ghost use Rattle.std.specs.Prelude.{◌≡◌, ◌<◌, [], ◌∷◌, ◌++◌, List, length, take, slice_get, option_copied, OnOk, OnErr};
ghost use Rattle.records.specs.Sending as sending;
ghost use Rattle.records.specs.Sending.{Sent, Sends, Acknowledges, EndsWithMessages};
ghost use Rattle.records.specs.Unacknowledged.{IsLeastFrom, awaits};
ghost use Rattle.wire.specs.declared.message.Message.{Message};

use crate::awaiting::{await_all, forget_from, unacknowledged_of};
use crate::record::{Record, record_at, sends_after};
use crate::unacknowledged::Unacknowledged;
use std::alloc::Global;
use std::collections::BTreeSet;
use std::marker::Model;
use units::{NoMemory, Node};
use wire::Message;

/// The messages that the records of a node's journal send, numbered in order from 0, and which of them were
/// acknowledged. In contracts it is the list of the effects of the records, the oldest first.
#[derive(Debug)]
pub struct Outbox {
    messages: Vec<Message>,
    records: Vec<Record>,
    // Those that aren't acknowledged.
    unacknowledged: BTreeSet<Unacknowledged>,
}

// Written out, since a derived destructor is proved anew in each crate that lets a value go.
impl Drop for Outbox {
    fn drop(self) {
        let Outbox {
            messages,
            records,
            unacknowledged,
        } = self;
        drop(messages);
        drop(records);
        drop(unacknowledged);
    }
}

impl Model for Outbox {
    ghost use Rattle.std.specs.Prelude.{List};
    ghost use Rattle.records.specs.Sending.{Sent};

    ghost Value = { List Sent };

    ghost use Rattle.records.specs.Kept.{IsKept, sent_in};

    ghost view = { λ s. sent_in 0 s.records.items s.messages.items };

    ghost invariant = { λ s. IsKept
        (sent_in 0 s.records.items s.messages.items) s.records.items s.messages.items s.unacknowledged };
}

/// The message with that key.
fn message_at(messages: &[Message], key: usize) -> Option<&Message>
    ensures { option_copied result ≡ slice_get messages.now key }
{
    messages.get(key)
}

impl Outbox {
    /// No records. Takes no memory.
    pub fn new(alloc: Global) -> Outbox
        ensures { result ≡ [] }
    {
        Outbox {
            messages: Vec::new(alloc),
            records: Vec::new(alloc),
            unacknowledged: BTreeSet::new(alloc),
        }
    }

    /// Adds a record that sends these messages. Their keys go up from `sends`. After `NoMemory` nothing has changed.
    pub fn record(&mut self, mut messages: Vec<Message>) -> Result<(), NoMemory>
        ensures ok { OnOk result (self.new ≡ self.old ++ Sends messages.items ∷ []) }
        ensures err { OnErr result (self.new ≡ self.old) }
    {
        self.records.reserve(1)?;
        let start = self.messages.len();
        self.messages.append(&mut messages)?;
        if await_all(&mut self.unacknowledged, start, &self.messages[start..]).is_err() {
            self.messages.truncate(start);
            return Err(NoMemory);
        }
        self.records.push_reserved(Record {
            sends: self.messages.len(),
            acknowledges: None,
        });
        Ok(())
    }

    /// Adds a record that acknowledges the message with that key. After `NoMemory` nothing has changed.
    pub fn acknowledge(&mut self, key: usize) -> Result<(), NoMemory>
        requires { key < length (sending.messages self.old) }
        ensures ok { OnOk result (self.new ≡ self.old ++ Acknowledges key ∷ []) }
        ensures err { OnErr result (self.new ≡ self.old) }
    {
        self.records.reserve(1)?;
        let peer = self.messages[key].to;
        self.unacknowledged.remove(&unacknowledged_of(peer, key));
        self.records.push_reserved(Record {
            sends: self.messages.len(),
            acknowledges: Some(key),
        });
        Ok(())
    }

    /// Removes the last record, which sends messages, as if `record` hadn't been called. Takes no memory.
    pub fn take_back(&mut self)
        requires { EndsWithMessages self.old }
        ensures { (earlier : List Sent) (last : List Message) → self.old ≡ earlier ++ Sends last ∷ []
            → self.new ≡ earlier }
    {
        self.records.pop();
        let start = sends_after(self.records.as_slice());
        forget_from(&mut self.unacknowledged, start, self.messages.as_slice());
        self.messages.truncate(start);
    }

    /// The message with that key, or `None` where none has it.
    pub fn message(&self, key: usize) -> Option<&Message>
        ensures { option_copied result ≡ slice_get (sending.messages self.now) key }
    {
        message_at(self.messages.as_slice(), key)
    }

    /// Whether a record acknowledges the message with that key.
    pub fn is_acknowledged(&self, key: usize) -> bool
        ensures { result ≡ sending.is_key_acknowledged self.now key }
    {
        match message_at(self.messages.as_slice(), key) {
            Some(message) => !self
                .unacknowledged
                .contains(&unacknowledged_of(message.to, key)),
            None => false,
        }
    }

    /// The number of messages.
    pub fn sends(&self) -> usize
        ensures { result ≡ length (sending.messages self.now) }
    {
        self.messages.len()
    }

    /// The number of records.
    pub fn records(&self) -> usize
        ensures { result ≡ length self.now }
    {
        self.records.len()
    }

    /// The number of messages that the first `records` records send.
    pub fn sent_by(&self, records: usize) -> usize
        ensures { result ≡ length (sending.messages (take records self.now)) }
    {
        if records == 0 {
            return 0;
        }
        match record_at(self.records.as_slice(), records - 1) {
            Some(record) => record.sends,
            None => self.messages.len(),
        }
    }

    /// The least key, from that one on, of a message that goes to `peer` and isn't acknowledged; or `None` where
    /// there is no such message.
    pub fn next_unacknowledged(&self, peer: Node, from: usize) -> Option<usize>
        ensures { IsLeastFrom
            (awaits (sending.messages self.now) (sending.is_key_acknowledged self.now) peer) from result }
    {
        let first = unacknowledged_of(peer, from);
        let found = self.unacknowledged.range(first..).next()?;
        if found.registry == first.registry {
            Some(found.key)
        } else {
            None
        }
    }
}
