//! A node's state.
ghost use Rattle.std.specs.Prelude.{◌≡◌, ◌+◌, ◌<◌, ◌≤◌, [], true, false, length, take, drop, slice_get, option_copied, option_map, None, Some, Ok, Err, IfOk, IfSome, MatchResult};
ghost use Rattle.protocol.specs.Cores.{Replays};
ghost use Rattle.protocol.specs.History.{is_acknowledged, sends};
ghost use Rattle.protocol.specs.Unacknowledged.{IsLeastFrom, awaits};
ghost use Rattle.units.specs.RefusalCodes.{out_of_memory};
ghost use Rattle.stores.specs.Calls.{Appends};
ghost use Rattle.stores.specs.Faults.{faults_after};
ghost use Rattle.node_state.specs.Calls.{Takes, Tells, batch_of, committed_by, done};
ghost use Rattle.node_state.specs.Expected.{status_told, told_of};
ghost use Rattle.node_state.specs.Views.{committed_past, committed_records, opened_with, past, tail};

use crate::notes::{Asked, Told};
use protocol::{NodeCore, Stepped};
use status::TransactionId;
use std::alloc::Global;
use std::marker::Model;
use stores::{NodeStore, StoreFault};
use units::refusal_code::NODE_STOPPED;
use units::{NoMemory, Node, Refusal};
use wire::{Input, Message};

/// A question to a state, its result, and how many records its journal then had. It isn't known yet whether these are
/// committed. Only a state makes one.
#[derive(Debug)]
pub struct Taken {
    asked: Asked,
    told: Told,
    length: usize,
}

// Written out, since a derived destructor is proved anew in each crate that lets a value go.
impl Drop for Taken {
    fn drop(self) {
        let Taken {
            asked,
            told: _,
            length: _,
        } = self;
        drop(asked);
    }
}

impl Model for Taken {
    ghost use Rattle.node_state.specs.declared.notes.Note.{Note};

    ghost Value = { Note };

    ghost view = { λ t. record { asked = t.asked; told = t.told; length = t.length } };
}

impl Taken {
    /// The question.
    pub fn asked(&self) -> &Asked
        ensures { result.now ≡ self.now.asked }
    {
        &self.asked
    }

    /// Its result.
    pub fn told(&self) -> Told
        ensures { result ≡ self.now.told }
    {
        self.told
    }

    /// How many records the journal of the state then had.
    pub fn length(&self) -> usize
        ensures { result ≡ self.now.length }
    {
        self.length
    }
}

/// A result of a state, and the knowledge that all records of its journal at that time are committed. Only
/// `State::receipt` makes one.
#[derive(Debug)]
pub struct Receipt {
    taken: Taken,
}

// Written out, since a derived destructor is proved anew in each crate that lets a value go.
impl Drop for Receipt {
    fn drop(self) {
        let Receipt { taken } = self;
        drop(taken);
    }
}

impl Model for Receipt {
    ghost use Rattle.node_state.specs.declared.notes.Note.{Note};

    ghost Value = { Note };

    ghost view = { λ r. r.taken };
}

impl Receipt {
    /// The result.
    pub fn taken(&self) -> &Taken
        ensures { result.now ≡ self.now }
    {
        &self.taken
    }
}

/// A node's core with its journal; the first records of the journal are committed to its store. It runs until it is
/// stopped.
pub struct State<C: NodeCore> {
    alloc: Global,
    core: C,
    committed: usize,
    opening: usize,
    runs: bool,
}

// Written out, since a derived destructor is proved anew in each crate that lets a value go.
impl<C: NodeCore> Drop for State<C> {
    fn drop(self) {
        drop(self.into_core());
    }
}

impl<C: NodeCore> Model for State<C> {
    ghost use Rattle.std.specs.Coded.{codes};
    ghost use Rattle.std.specs.Prelude.{◌≤◌, length};
    ghost use Rattle.scheme.specs.contracts.registries.Scheme as kept_scheme;
    ghost use Rattle.node_state.specs.Views.{StateView};

    ghost Value = { StateView };

    ghost coded = { Prim.hlevel (codes, kept_scheme.the_row.coded) };

    ghost view = { λ s. record {
      scheme = C.scheme_of s.core;
      node = C.node_of s.core;
      journal = C.journal_of s.core;
      committed = s.committed;
      opening = s.opening;
      runs = s.runs;
    } };

    ghost invariant = { λ s. (s.opening ≤ s.committed) × (s.committed ≤ length (C.journal_of s.core)) };
}

/// The result of a core, as it is noted.
pub fn tell(returned: Result<Stepped, Refusal>) -> Told
    ensures { result ≡ told_of returned }
{
    match returned {
        Ok(stepped) => Told::Step(stepped),
        Err(refusal) => Told::Refused(refusal),
    }
}

impl<C: NodeCore> State<C> {
    /// A state that runs, in which the whole journal of the core is committed. Each of its records is recorded at its
    /// place after those before it.
    pub fn new(alloc: Global, core: C) -> State<C>
        ensures state { result ≡ opened_with (C.scheme_of core) (C.node_of core) (C.journal_of core) }
        ensures replays { Replays result.scheme result.node result.journal }
    {
        let records = core.journal().len();
        State {
            alloc,
            core,
            committed: records,
            opening: records,
            runs: true,
        }
    }

    /// Takes an input. Returns the expected result after the journal, or refusal `OUT_OF_MEMORY` in its place; if the
    /// input was recorded it is the journal's last record, and otherwise nothing has changed. A state that was stopped
    /// returns refusal `NODE_STOPPED`, and nothing changes. The length is that of the journal after the call.
    pub fn take(&mut self, input: Input) -> Taken
        ensures asked { result.asked ≡ Asked.Take input }
        ensures told { Tells self.old input result.told self.new }
        ensures length { result.length ≡ length self.new.journal }
    {
        let told = tell(self.step(&input));
        Taken {
            asked: Asked::Take(input),
            told,
            length: self.core.records(),
        }
    }

    fn step(&mut self, input: &Input) -> Result<Stepped, Refusal>
        ensures { Takes self.old input.now result self.new }
    {
        if !self.runs {
            return Err(Refusal { code: NODE_STOPPED });
        }
        self.core.step(input)
    }

    /// Returns where a transaction stands after the whole journal, or refusal `NODE_STOPPED` if the state was stopped.
    /// The length is that of the journal.
    pub fn query(&self, id: TransactionId) -> Taken
        ensures { result ≡ record
            { asked = Asked.Query id; told = status_told self.now id; length = length self.now.journal } }
    {
        let told = if self.runs {
            Told::Status(self.core.status_of(id))
        } else {
            Told::Refused(Refusal { code: NODE_STOPPED })
        };
        Taken {
            asked: Asked::Query(id),
            told,
            length: self.core.records(),
        }
    }

    /// Returns refusal `OUT_OF_MEMORY` for a question that couldn't be asked. The length is that of the journal.
    pub fn refuse_for_memory(&self, asked: Asked) -> Taken
        ensures { result ≡ record
            { asked = asked; told = Told.Refused (record { code = out_of_memory }); length = length self.now.journal } }
    {
        Taken {
            asked,
            told: Told::Refused(Refusal::NO_MEMORY),
            length: self.core.records(),
        }
    }

    /// The first records that aren't committed yet, at most `max`; or `NoMemory`.
    pub fn batch(&self, max: usize) -> Result<Vec<Input>, NoMemory>
        ensures { IfOk result (λ batch. batch.items ≡ take max (tail self.now)) }
    {
        let start = self.committed;
        copies(
            self.alloc,
            &self.core.journal()[start..start + self.tail_within(max)],
        )
    }

    /// How many records aren't committed, at most `max`.
    fn tail_within(&self, max: usize) -> usize
        ensures { result ≡ length (take max (tail self.now)) }
    {
        max.min(self.core.records() - self.committed)
    }

    /// Marks the next `count` records as committed, so that `batch` begins after them.
    fn mark_committed(&mut self, count: usize)
        requires { self.old.committed + count ≤ length self.old.journal }
        ensures { self.new ≡ record self.old { committed = self.old.committed + count } }
    {
        // The journal is at least as long, so the sum can't be too large.
        let _records = self.core.records();
        self.committed += count;
    }

    /// Appends the first records that aren't committed, at most `max`, to the store, and returns how many: these are
    /// committed now. Returns 0 and changes nothing if the state was stopped, if all records are committed, or if `max`
    /// is 0.
    ///
    /// Fails as `append` of the store does. Then the state has stopped, and nothing else of it has changed.
    pub fn commit<S: NodeStore>(&mut self, store: &mut S, max: usize) -> Result<usize, StoreFault>
        ensures state { self.new ≡ committed_by self.old result }
        ensures count { IfOk result (λ count. count ≡ length (batch_of self.old max)) }
        ensures none { length (batch_of self.old max) ≡ 0 → (result ≡ Ok 0) × (self.new ≡ self.old)
            × (store.new ≡ store.old) }
        ensures some { 0 < length (batch_of self.old max)
            → Appends S.is_honest S.content S.may_hold S.must_reopen store.old store.new (batch_of self.old max)
            (done result) }
        ensures faults { S.faults store.new ≡ faults_after (S.faults store.old) result }
        ensures whose { S.whose store.new ≡ S.whose store.old }
        ensures own { S.is_honest store.new → S.must_reopen store.new ≡ false → S.is_own store.old
            → S.is_own store.new }
    {
        let count = if self.runs { self.tail_within(max) } else { 0 };
        if count == 0 {
            return Ok(0);
        }
        let start = self.committed;
        match store.append(&self.core.journal()[start..start + count]) {
            Ok(()) => {
                self.mark_committed(count);
                Ok(count)
            }
            Err(fault) => {
                self.stop();
                Err(fault)
            }
        }
    }

    /// The least key, from `from` on, of a message to `peer` that the committed records send and no record of the
    /// journal acknowledges, with the message; or `None` if there is no such message, or if the state was stopped.
    pub fn next_send(&self, peer: Node, from: usize) -> Option<(usize, &Message)>
        ensures stopped { self.now.runs ≡ false → option_map (λ sent. sent.0) result ≡ None }
        ensures key { self.now.runs ≡ true
            → IsLeastFrom (awaits (sends (committed_past self.now)) (is_acknowledged (past self.now)) peer) from
            (option_map (λ sent. sent.0) result) }
        ensures message { IfSome result (λ sent. slice_get (sends (committed_past self.now)) sent.0 ≡ Some sent.1.now) }
    {
        if !self.runs {
            return None;
        }
        let key = self.core.next_unacknowledged(peer, from)?;
        let message = self.committed_message(key)?;
        Some((key, message))
    }

    /// How many messages the committed records send.
    pub fn committed_sends(&self) -> usize
        ensures { result ≡ length (sends (committed_past self.now)) }
    {
        self.core.sent_by(self.committed)
    }

    /// The message with that key, if a committed record sends it.
    pub fn committed_message(&self, key: usize) -> Option<&Message>
        ensures { option_copied result ≡ slice_get (sends (committed_past self.now)) key }
    {
        if key < self.committed_sends() {
            self.core.outbox(key)
        } else {
            None
        }
    }

    /// A receipt of this result, if all records that the journal had then are committed. Otherwise fails with the
    /// result itself.
    pub fn receipt(&self, taken: Taken) -> Result<Receipt, Taken>
        ensures { MatchResult result (λ receipt. (receipt ≡ taken) × (taken.length ≤ self.now.committed))
            (λ back. (back ≡ taken) × (self.now.committed < taken.length)) }
    {
        if taken.length <= self.committed {
            Ok(Receipt { taken })
        } else {
            Err(taken)
        }
    }

    /// From now on the state takes nothing, commits nothing, and hands out no message.
    pub fn stop(&mut self)
        ensures { self.new ≡ record self.old { runs = false } }
    {
        self.runs = false;
    }

    /// Runs again, if it was stopped.
    pub fn go_on(&mut self)
        ensures { self.new ≡ record self.old { runs = true } }
    {
        self.runs = true;
    }

    /// From now on the committed records are those of the opening.
    pub fn open_anew(&mut self)
        ensures { self.new ≡ record self.old { opening = self.old.committed } }
    {
        self.opening = self.committed;
    }

    /// Whether the state runs: it wasn't stopped, and no commit of it failed.
    pub fn is_running(&self) -> bool
        ensures { result ≡ self.now.runs }
    {
        self.runs
    }

    /// The core, which has all records of the journal, committed or not.
    pub fn into_core(self) -> C
        ensures scheme { C.scheme_of result ≡ self.scheme }
        ensures node { C.node_of result ≡ self.node }
        ensures journal { C.journal_of result ≡ self.journal }
    {
        let State {
            alloc: _,
            core,
            committed: _,
            opening: _,
            runs: _,
        } = self;
        core
    }

    /// The node whose state it is.
    pub fn node(&self) -> Node
        ensures { result ≡ self.now.node }
    {
        self.core.node()
    }

    /// All records of the journal, the oldest first. Each was recorded at its place after those before it.
    pub fn journal(&self) -> &[Input]
        ensures value { result.now ≡ self.now.journal }
        ensures replays { Replays self.now.scheme self.now.node self.now.journal }
    {
        self.core.journal()
    }

    /// How many records the journal had at the opening.
    pub fn opening(&self) -> usize
        ensures value { result ≡ self.now.opening }
        ensures within { self.now.opening ≤ length self.now.journal }
    {
        self.opening
    }

    /// The core of the empty journal, under the same scheme and at the same node; or `NoMemory`.
    pub fn fresh(&self) -> Result<C, NoMemory>
        ensures scheme { IfOk result (λ core. C.scheme_of core ≡ self.now.scheme) }
        ensures node { IfOk result (λ core. C.node_of core ≡ self.now.node) }
        ensures journal { IfOk result (λ core. C.journal_of core ≡ []) }
    {
        self.core.fresh()
    }

    /// How many records are committed.
    pub fn committed_count(&self) -> usize
        ensures value { result ≡ self.now.committed }
        ensures within { result ≤ length self.now.journal }
    {
        self.committed
    }

    /// The allocator of the state.
    pub fn alloc(&self) -> Global {
        self.alloc
    }

    /// The records that are committed, the oldest first.
    pub fn committed(&self) -> &[Input]
        ensures { result.now ≡ committed_records self.now }
    {
        &self.core.journal()[..self.committed]
    }

    /// Copies of the committed records from place `from` on, at most `most` of them, the oldest first; none if no more
    /// are committed. Fails with `NoMemory` if memory ran out.
    pub fn committed_from(&self, from: usize, most: usize) -> Result<Vec<Input>, NoMemory>
        ensures { IfOk result (λ records. records.items ≡ take most (drop from (committed_records self.now))) }
    {
        let committed = self.committed();
        // No place and no sum is past the end.
        let start = from.min(committed.len());
        let count = most.min(committed.len() - start);
        copies(self.alloc, &committed[start..start + count])
    }
}

/// An equal list; or `NoMemory`.
fn copies(alloc: Global, inputs: &[Input]) -> Result<Vec<Input>, NoMemory>
    ensures { IfOk result (λ all. all.items ≡ inputs.now) }
{
    let mut all = Vec::new(alloc);
    for input in inputs {
        all.push(input.copy()?)?;
    }
    Ok(all)
}
