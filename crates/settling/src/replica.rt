//! A replica of a node's journal.
ghost use Rattle.std.specs.Prelude.{◌≡◌, ◌↔◌, ◌+◌, ◌-◌, ◌++◌, ◌≤◌, List, length, take, All, IfErr, IfOk, OnErr, OnOk, IsTrue};
ghost use Rattle.wire.specs.declared.input.Input.{Input};
ghost use Rattle.node_state.specs.declared.notes.Note.{Note};
ghost use Rattle.node_state.specs.Expected.{expected};
ghost use Rattle.settling.specs.Replicas.{AwaitsMore, FailsToFollow, FailsToJudge, HasFollowed, Leaves, ReplicaView};
ghost use Rattle.settling.specs.declared.life.Unsettled.TheVariants.{NoMemory};
ghost use Rattle.settling.specs.Settling.{Bears};

use crate::judging::is_true;
use crate::life::Unsettled;
use node_state::Note;
use protocol::{NodeCore, ReplayFault, resume};
use std::marker::Model;
use wire::Input;

/// The first records of a node's journal, recorded again by a core of their own, in step with the node. It judges notes
/// of the node on the way, so that they need not be kept until the node ends.
pub struct Replica<C: NodeCore> {
    core: C,
}

// Written out, since a derived destructor is proved anew in each crate that lets a value go.
impl<C: NodeCore> Drop for Replica<C> {
    fn drop(self) {
        let Replica { core } = self;
        drop(core);
    }
}

impl<C: NodeCore> Model for Replica<C> {
    ghost use Rattle.std.specs.Coded.{codes};
    ghost use Rattle.scheme.specs.contracts.registries.Scheme as kept_scheme;
    ghost use Rattle.settling.specs.Replicas.{ReplicaView};

    ghost Value = { ReplicaView };

    ghost coded = { Prim.hlevel (codes, kept_scheme.the_row.coded) };

    ghost view = { λ r. record {
      scheme = C.scheme_of r.core;
      node = C.node_of r.core;
      journal = C.journal_of r.core;
    } };
}

impl<C: NodeCore> Replica<C> {
    /// A replica of the records that the core has.
    pub fn new(core: C) -> Replica<C>
        ensures { result ≡ record
            { scheme = C.scheme_of core; node = C.node_of core; journal = C.journal_of core } }
    {
        Replica { core }
    }

    /// The records that it has, the oldest first.
    pub fn records(&self) -> &[Input]
        ensures { result.now ≡ self.now.journal }
    {
        self.core.journal()
    }

    /// Records these records, which come next in the node's journal, and judges the notes as far as it has their
    /// lengths: returns how many of the first notes the journal bears out. The note after these was made at a longer
    /// journal. Takes time in proportion to the records and the notes that it judges.
    ///
    /// # Errors
    ///
    /// - `NotRecorded`: the record at that place isn't one that the node records there.
    /// - `Untrue`: a note of that length isn't borne out by the journal, it tells of a record, or it was made at a
    ///   shorter journal than the replica had before.
    /// - `Fell`: a note was made at a shorter journal than the note before it.
    /// - `NoMemory`: memory ran out.
    ///
    /// The replica then has the first of the records, except that after `Untrue` the input of the note may be its last
    /// record; and nothing is known of the notes.
    pub fn follow(&mut self, records: &[Input], notes: &[Note]) -> Result<usize, Unsettled>
        ensures scheme { self.new.scheme ≡ self.old.scheme }
        ensures node { self.new.node ≡ self.old.node }
        ensures journal { OnOk result (self.new.journal ≡ self.old.journal ++ records.now) }
        ensures borne { IfOk result
            (λ judged. All (Bears self.old.scheme self.old.node self.new.journal) (take judged notes.now)) }
        ensures all { IfOk result (AwaitsMore (length self.new.journal) notes.now) }
        ensures fault { IfErr result (FailsToFollow self.old records.now notes.now) }
        ensures left { IfErr result (Leaves self.old records.now self.new) }
    {
        let opening = self.core.records();
        let judged = self.judge_all(opening, records, notes)?;
        self.advance(opening, records, records.len())?;
        Ok(judged)
    }

    /// Judges the notes from the first one on, up to one that was made after more than these records, and records as
    /// many of these as it needs. Returns how many notes it judged.
    fn judge_all(
        &mut self,
        opening: usize,
        records: &[Input],
        notes: &[Note],
    ) -> Result<usize, Unsettled>
        requires { opening ≡ length self.old.journal }
        ensures scheme { self.new.scheme ≡ self.old.scheme }
        ensures node { self.new.node ≡ self.old.node }
        ensures followed { OnOk result (HasFollowed self.old records.now self.new) }
        ensures long { OnOk result (length self.old.journal ≤ length self.new.journal) }
        ensures borne { IfOk result (λ judged.
            All (Bears self.old.scheme self.old.node (self.old.journal ++ records.now)) (take judged notes.now)) }
        ensures all { IfOk result (AwaitsMore (length (self.old.journal ++ records.now)) notes.now) }
        ensures fault { IfErr result (FailsToFollow self.old records.now notes.now) }
        ensures left { IfErr result (Leaves self.old records.now self.new) }
    {
        for k in 0..notes.len() {
            let note = &notes[k];
            if note.length < opening {
                return Err(Unsettled::Untrue(note.length));
            }
            let count = note.length - opening;
            if count > records.len() {
                return Ok(k);
            }
            if note.length < self.core.records() {
                return Err(Unsettled::Fell);
            }
            self.advance(opening, records, count)?;
            self.judge(note)?;
        }
        Ok(notes.len())
    }

    /// Records the first `count` of these records, of which it has some. At the opening it had none of them.
    fn advance(&mut self, opening: usize, records: &[Input], count: usize) -> Result<(), Unsettled>
        requires from { opening ≤ length self.old.journal }
        requires to { length self.old.journal ≤ opening + count }
        requires within { count ≤ length records.now }
        ensures scheme { self.new.scheme ≡ self.old.scheme }
        ensures node { self.new.node ≡ self.old.node }
        ensures long { OnOk result (length self.new.journal ≡ opening + count) }
        ensures followed { (held : ReplicaView) → length held.journal ≡ opening
            → HasFollowed held records.now self.old → HasFollowed held records.now self.new }
        ensures fault { IfErr result (λ fault. (held : ReplicaView) → length held.journal ≡ opening
            → HasFollowed held records.now self.old → (notes : List Note)
            → FailsToFollow held records.now notes fault) }
    {
        let have = self.core.records() - opening;
        match resume(&mut self.core, &records[have..count]) {
            Ok(()) => Ok(()),
            Err(ReplayFault::NotRecorded(place)) => Err(Unsettled::NotRecorded(place)),
            Err(ReplayFault::NoMemory) => Err(Unsettled::NoMemory),
        }
    }

    /// Judges a note that was made at a journal as long as its own.
    fn judge(&mut self, note: &Note) -> Result<(), Unsettled>
        ensures scheme { self.new.scheme ≡ self.old.scheme }
        ensures node { self.new.node ≡ self.old.node }
        ensures expected { OnOk result (expected self.old.scheme self.old.node self.old.journal note.now.asked
            ≡ note.now.told) }
        ensures journal { OnOk result (self.new.journal ≡ self.old.journal) }
        ensures fault { IfErr result (FailsToJudge self.old note.now) }
        ensures memory { IfErr result (λ fault. fault ≡ NoMemory → self.new.journal ≡ self.old.journal) }
    {
        if is_true(&mut self.core, note)? {
            Ok(())
        } else {
            Err(Unsettled::Untrue(note.length))
        }
    }
}

/// Whether the journal begins with these records.
pub fn begins_with(journal: &[Input], records: &[Input]) -> bool
    ensures { IsTrue result ↔ ((rest : List Input) × (journal.now ≡ records.now ++ rest)) }
{
    if records.len() > journal.len() {
        return false;
    }
    for k in 0..records.len() {
        if !records[k].same(&journal[k]) {
            return false;
        }
    }
    true
}
