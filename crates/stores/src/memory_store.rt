//! A store in memory.
ghost use Rattle.std.specs.Prelude.{◌≡◌, ◌⊎◌, ◌++◌, [], false, take, drop, Ok, Err, Some, None, IfOk, IfErr, OnOk, OnErr, IsTrue};
ghost use Rattle.stores.specs.Memories.{HasBurned, burns, passed, burned, stopped, reopened};
ghost use Rattle.stores.specs.Records.{AreRecords, written};
ghost use Rattle.stores.specs.declared.fault.StoreFault.TheVariants.{Device, Reopen, NoMemory as OutOfMemory};

use crate::fault::StoreFault;
use crate::node_store::NodeStore;
use crate::readiness::Readiness;
use crate::records::encode_records;
use std::alloc::Global;
use std::marker::Model;
use units::{NoMemory, Node};
use wire::Input;

/// The part that is kept of the batch of an append that fails with `Device`.
#[derive(Clone, Copy, Debug, PartialEq, Eq)]
pub enum Kept {
    /// The whole batch.
    All,
    /// No record of it.
    None,
}

/// Lets `passes` appends pass, and then burns, once.
#[derive(Clone, Copy, Debug, PartialEq, Eq)]
struct Fuse {
    passes: u64,
    keeps: Kept,
}

/// A store in memory, for tests and for runs that needn't outlive the process. It keeps the records of one node.
#[derive(Debug)]
pub struct MemoryStore {
    node: Node,
    records: Vec<Input>,
    readiness: Readiness,
    fuse: Option<Fuse>,
    faults: u64,
    alloc: Global,
}

// Written out, since a derived destructor is proved anew in each crate that drops a value.
impl Drop for MemoryStore {
    fn drop(self) {
        let MemoryStore {
            node: _,
            records,
            readiness: _,
            fuse,
            faults: _,
            alloc: _,
        } = self;
        drop(records);
        drop(fuse);
    }
}

impl Model for MemoryStore {
    ghost use Rattle.stores.specs.Memories.{MemoryStoreView};
    ghost use Rattle.stores.specs.Readiness.{is_stopped};
    ghost use Rattle.stores.specs.Records.{AreRecords, written};

    ghost Value = { MemoryStoreView };

    ghost view = { λ s. record
        { node = s.node; inputs = s.records.items; must_reopen = is_stopped s.readiness; fuse = s.fuse; faults = s.faults } };

    ghost invariant = { λ s. AreRecords (written s.records.items) s.records.items };
}

/// Equal inputs.
fn copies(alloc: Global, inputs: &[Input]) -> Result<Vec<Input>, NoMemory>
    ensures { IfOk result (λ copies. copies.items ≡ inputs.now) }
{
    let mut copies = Vec::with_capacity(alloc, inputs.len())?;
    for input in inputs {
        let copy = input.copy()?;
        copies.push(copy)?;
    }
    Ok(copies)
}

/// Appends the batch to the records, if each input of it has a text. After `NoMemory` the records are as they were.
fn grow(alloc: Global, records: &mut Vec<Input>, batch: &[Input]) -> Result<(), NoMemory>
    ensures ok { OnOk result (records.new.items ≡ records.old.items ++ batch.now) }
    ensures records { OnOk result (AreRecords (written batch.now) batch.now) }
    ensures refused { OnErr result (records.new.items ≡ records.old.items) }
{
    // an input is a record only where it has a text; none is kept
    encode_records(alloc, batch)?;
    let mut more = copies(alloc, batch)?;
    records.append(&mut more)?;
    Ok(())
}

impl MemoryStore {
    /// An empty store.
    pub fn new(alloc: Global, node: Node) -> MemoryStore
        ensures { result ≡ record { node = node; inputs = []; must_reopen = false; fuse = None; faults = 0 } }
    {
        MemoryStore {
            node,
            records: Vec::new(alloc),
            readiness: Readiness::Ready,
            fuse: None,
            faults: 0,
            alloc,
        }
    }

    /// An empty store that lets `passes` appends of at least one record pass. The next such append fails with `Device`,
    /// and keeps the whole batch or none of it, as `keeps` says. The fuse burns once: after a reopening all appends
    /// pass.
    pub fn fused(alloc: Global, node: Node, passes: u64, keeps: Kept) -> MemoryStore
        ensures { result ≡ record {
          node = node;
          inputs = [];
          must_reopen = false;
          fuse = Some
              (record { passes = passes; keeps = keeps });
          faults = 0;
        } }
    {
        let fuse = Some(Fuse { passes, keeps });
        MemoryStore {
            node,
            records: Vec::new(alloc),
            readiness: Readiness::Ready,
            fuse,
            faults: 0,
            alloc,
        }
    }

    /// The node whose records they are.
    pub fn node(&self) -> Node
        ensures { result ≡ self.now.node }
    {
        self.node
    }

    /// Appends the batch to the records, without regard to the fuse. After `NoMemory` the store must be reopened, and
    /// all else is as it was.
    fn keep(&mut self, batch: &[Input]) -> Result<(), StoreFault>
        ensures ok { OnOk result (self.new ≡ record self.old { inputs = self.old.inputs ++ batch.now }) }
        ensures refused { OnErr result (self.new ≡ stopped self.old) }
        ensures named { IfErr result (λ e. e ≡ OutOfMemory) }
    {
        match grow(self.alloc, &mut self.records, batch) {
            Ok(()) => Ok(()),
            Err(NoMemory) => {
                self.readiness = Readiness::MustReopen;
                Err(StoreFault::NoMemory)
            }
        }
    }

    /// The fuse burns at the batch. All of the batch is kept, or nothing.
    fn burn(&mut self, batch: &[Input], keeps: Kept) -> Result<(), StoreFault>
        ensures named { (result ≡ Err Device) ⊎ (result ≡ Err OutOfMemory) }
        ensures device { result ≡ Err Device → self.new ≡ burned keeps batch.now self.old }
        ensures refused { result ≡ Err OutOfMemory → self.new ≡ stopped self.old }
    {
        if keeps == Kept::All {
            self.keep(batch)?;
        }
        self.fuse = None;
        self.faults = self.faults.wrapping_add(1);
        self.readiness = Readiness::MustReopen;
        Err(StoreFault::Device)
    }
}

impl NodeStore for MemoryStore {
    ghost use Rattle.std.specs.Prelude.{◌≡◌};
    ghost use Rattle.stores.specs.Records.{written};

    ghost is_honest = { λ _. Unit {0} };

    ghost content = { λ m. written m.inputs };

    ghost may_hold = { λ m next. next ≡ written m.inputs };

    ghost must_reopen = { λ m. m.must_reopen };

    ghost faults = { λ m. m.faults };

    ghost whose = { λ m. m.node };

    ghost is_own = { λ _. Unit {0} };

    /// Fails with `Device` only where the fuse burns, and never with `Full`.
    fn append(&mut self, batch: &[Input]) -> Result<(), StoreFault>
        ensures reopen { IsTrue self.old.must_reopen → (result ≡ Err Reopen) × (self.new ≡ self.old) }
        ensures empty { self.old.must_reopen ≡ false → batch.now ≡ [] → result ≡ Ok tt }
        ensures ok { OnOk result ((burns self.old.fuse batch.now ≡ false) × (self.new ≡ passed batch.now self.old)) }
        ensures named { self.old.must_reopen ≡ false → IfErr result (λ e. (e ≡ OutOfMemory) ⊎ (e ≡ Device)) }
        ensures refused { result ≡ Err OutOfMemory → self.new ≡ stopped self.old }
        ensures device { result ≡ Err Device → HasBurned batch.now self.old self.new }
    {
        if self.readiness == Readiness::MustReopen {
            return Err(StoreFault::Reopen);
        }
        if batch.is_empty() {
            return Ok(());
        }
        match self.fuse {
            None => self.keep(batch),
            Some(Fuse { passes: 0, keeps }) => self.burn(batch, keeps),
            Some(Fuse { passes, keeps }) => {
                self.keep(batch)?;
                let passes = passes - 1;
                self.fuse = Some(Fuse { passes, keeps });
                Ok(())
            }
        }
    }

    /// Never fails with `Damaged`.
    fn load(&mut self) -> Result<Vec<Input>, StoreFault>
        ensures reopen { IsTrue self.old.must_reopen → (result ≡ Err Reopen) × (self.new ≡ self.old) }
        ensures ok { IfOk result (λ inputs. inputs.items ≡ self.old.inputs) }
        ensures records { IfOk result (λ inputs. AreRecords (written self.old.inputs) inputs.items) }
        ensures named { self.old.must_reopen ≡ false → IfErr result (λ e. e ≡ OutOfMemory) }
        ensures kept { self.new ≡ self.old }
    {
        if self.readiness == Readiness::MustReopen {
            return Err(StoreFault::Reopen);
        }
        Ok(copies(self.alloc, &self.records)?)
    }

    /// Never fails with `Damaged`.
    fn load_page(&mut self, from: u64, max: u64) -> Result<Vec<Input>, StoreFault>
        ensures reopen { IsTrue self.old.must_reopen → (result ≡ Err Reopen) × (self.new ≡ self.old) }
        ensures ok { IfOk result (λ inputs. inputs.items ≡ take max (drop from self.old.inputs)) }
        ensures records { IfOk result
            (λ inputs. AreRecords (take max (drop from (written self.old.inputs))) inputs.items) }
        ensures named { self.old.must_reopen ≡ false → IfErr result (λ e. e ≡ OutOfMemory) }
        ensures kept { self.new ≡ self.old }
    {
        if self.readiness == Readiness::MustReopen {
            return Err(StoreFault::Reopen);
        }
        let first = self.records.len().min(from as usize);
        let rest = &self.records[first..];
        let few = rest.len().min(max as usize);
        Ok(copies(self.alloc, &rest[..few])?)
    }

    /// Never fails.
    fn reopen(&mut self) -> Result<(), StoreFault>
        ensures ok { result ≡ Ok tt }
        ensures reopened { self.new ≡ reopened self.old }
    {
        self.readiness = Readiness::Ready;
        Ok(())
    }

    fn fault_count(&self) -> u64 {
        self.faults
    }
}
