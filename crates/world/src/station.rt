//! A node of a world: its core, how much of its journal is committed, and whether it runs.
ghost use Rattle.std.specs.BTreeSet.{contains};
ghost use Rattle.std.specs.Prelude.{◌≡◌, ◌≤◌, ◌==◌, ◌||◌, [], ℕ, false, length, take, slice_get, option_copied, IfOk, OnErr, OnOk};
ghost use Rattle.std.specs.Ordering.{nat_cmp};
ghost use Rattle.protocol.specs.World as worlds;
ghost use Rattle.world.specs.Cores.{journal_of, node_of, scheme_of};

use crate::any_core::Core;
use protocol::{NodeCore, Outcome, ReplayFault, replay};
use std::alloc::Global;
use std::collections::BTreeSet;
use std::mem;
use units::{NoMemory, Node, Refusal};
use wire::{Input, Message};

/// A node of a world. The first `committed` records of its core's journal are committed, the others are its tail.
#[derive(Debug, Drop)]
pub(crate) struct Station {
    pub core: Core,
    pub committed: usize,
    pub runs: bool,
    /// The keys of the messages that it posted.
    pub posted: BTreeSet<u64>,
    pub ghost within: { committed ≤ length (journal_of core) },
}

/// The core of the first `records` records of the journal.
fn core_before(core: &Core, records: usize) -> Result<Core, NoMemory>
    requires { records ≤ length (journal_of core.now) }
    ensures scheme { IfOk result (λ c. scheme_of c ≡ scheme_of core.now) }
    ensures node { IfOk result (λ c. node_of c ≡ node_of core.now) }
    ensures journal { IfOk result (λ c. journal_of c ≡ take records (journal_of core.now)) }
{
    match replay(core, &core.journal()[..records]) {
        Ok(core) => Ok(core),
        Err(ReplayFault::NoMemory) => Err(NoMemory),
        // The first records of a journal are always recorded again.
        Err(ReplayFault::NotRecorded(_)) => unreachable!(),
    }
}

/// Cuts the core's journal to its first `records` records. Only where this drops records is the remaining journal
/// replayed. After `NoMemory` the core is as it was.
fn cut_core(core: &mut Core, records: usize) -> Result<(), NoMemory>
    requires { records ≤ length (journal_of core.old) }
    ensures front { OnOk result (take records (journal_of core.new) ≡ take records (journal_of core.old)) }
    ensures short { OnOk result (length (journal_of core.new) ≤ records) }
    ensures err { OnErr result (core.new ≡ core.old) }
    ensures scheme { scheme_of core.new ≡ scheme_of core.old }
    ensures node { node_of core.new ≡ node_of core.old }
{
    if core.records() <= records {
        return Ok(());
    }
    let restarted = core_before(core, records)?;
    drop(mem::replace(core, restarted));
    Ok(())
}

impl Station {
    ghost use Rattle.world.specs.Stations.{station_of, uncommitted_station};

    /// A running node with that core, which has committed no record of its journal and has posted nothing. Takes no
    /// memory.
    pub(crate) fn new(alloc: Global, core: Core) -> Station
        ensures seen { station_of result ≡ uncommitted_station core }
        ensures core { result.core ≡ core }
        ensures posted { (key : ℕ) → contains nat_cmp result.posted key ≡ false }
    {
        Station {
            core,
            committed: 0,
            runs: true,
            posted: BTreeSet::new(alloc),
        }
    }

    /// Takes an input, with the protocol's outcome. After `NoMemory` the node is as it was.
    pub(crate) fn take(&mut self, input: &Input) -> Result<Outcome, NoMemory>
        ensures ok { IfOk result
            (λ o. record { station = station_of self.new; outcome = o }
            ≡ worlds.take_input (scheme_of self.old.core) input.now (station_of self.old)) }
        ensures err { OnErr result (station_of self.new ≡ station_of self.old) }
        ensures scheme { scheme_of self.new.core ≡ scheme_of self.old.core }
        ensures node { node_of self.new.core ≡ node_of self.old.core }
        ensures posted { self.new.posted ≡ self.old.posted }
    {
        if !self.runs {
            return Ok(Outcome::NotPossible);
        }
        match self.core.step(input) {
            Ok(stepped) => Ok(Outcome::from(stepped)),
            Err(refusal) if refusal == Refusal::NO_MEMORY => Err(NoMemory),
            Err(refusal) => Ok(Outcome::Refused(refusal.code)),
        }
    }

    /// Commits the first `count` records of the tail, where the node runs and its tail has that many.
    pub(crate) fn commit(&mut self, count: u64) -> Outcome
        ensures value { record { station = station_of self.new; outcome = result }
            ≡ worlds.commit count (station_of self.old) }
        ensures core { self.new.core ≡ self.old.core }
        ensures posted { self.new.posted ≡ self.old.posted }
    {
        let tail = self.core.records() - self.committed;
        if self.runs && count <= tail as u64 {
            self.committed += count as usize;
            Outcome::Done
        } else {
            Outcome::NotPossible
        }
    }

    /// Stops the node, where it runs and its tail has `kept` records: these are committed, and the other records of the
    /// tail are lost. After `NoMemory` the node is as it was.
    pub(crate) fn crash(&mut self, kept: u64) -> Result<Outcome, NoMemory>
        ensures ok { IfOk result
            (λ o. record { station = station_of self.new; outcome = o } ≡ worlds.crash kept (station_of self.old)) }
        ensures err { OnErr result (station_of self.new ≡ station_of self.old) }
        ensures scheme { scheme_of self.new.core ≡ scheme_of self.old.core }
        ensures node { node_of self.new.core ≡ node_of self.old.core }
        ensures posted { self.new.posted ≡ self.old.posted }
    {
        let tail = self.core.records() - self.committed;
        if !self.runs || kept > tail as u64 {
            return Ok(Outcome::NotPossible);
        }
        let left = self.committed + kept as usize;
        cut_core(&mut self.core, left)?;
        self.committed = left;
        self.runs = false;
        Ok(Outcome::Done)
    }

    /// Starts a stopped node.
    pub(crate) fn restart(&mut self) -> Outcome
        ensures value { record { station = station_of self.new; outcome = result }
            ≡ worlds.restart (station_of self.old) }
        ensures core { self.new.core ≡ self.old.core }
        ensures posted { self.new.posted ≡ self.old.posted }
    {
        if self.runs {
            Outcome::NotPossible
        } else {
            self.runs = true;
            Outcome::Done
        }
    }

    /// The message with that key, of a running node where its record is committed.
    pub(crate) fn sent(&self, key: u64) -> Option<&Message>
        ensures { option_copied result ≡ worlds.sent (scheme_of self.now.core) key (station_of self.now) }
    {
        let key = key as usize;
        if self.runs && key < self.core.sent_by(self.committed) {
            self.core.outbox(key)
        } else {
            None
        }
    }

    /// Notes that the message with that key was posted. After `NoMemory` nothing has changed.
    pub(crate) fn mark_posted(&mut self, key: u64) -> Result<(), NoMemory>
        ensures seen { station_of self.new ≡ station_of self.old }
        ensures core { self.new.core ≡ self.old.core }
        ensures ok { OnOk result ((k : ℕ)
            → contains nat_cmp self.new.posted k ≡ (contains nat_cmp self.old.posted k || (key == k))) }
        ensures err { OnErr result ((k : ℕ) → contains nat_cmp self.new.posted k ≡ contains nat_cmp self.old.posted k) }
    {
        self.posted.insert(key)?;
        Ok(())
    }
}
