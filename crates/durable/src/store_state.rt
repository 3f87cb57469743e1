//! A store in files: by its connection while it is open, and by its files while it is shut.
ghost use Rattle.std.specs.Prelude.{◌≡◌, ◌≢◌, ◌⊎◌, ◌↔◌, ◌-◌, ℕ, take, drop, false, Ok, Err, OnOk, IfOk, IfErr, IsTrue};
ghost use Rattle.sqlite.specs.Files.{over_files, file_state};
ghost use Rattle.sqlite.specs.State.{HasCleanDisk, Opens};
ghost use Rattle.sqlite.specs.Tree.{Trees};
ghost use Rattle.sqlite.specs.WalReads.{AreClean};
ghost use Rattle.units.specs.Code.{node_text};
ghost use Rattle.stores.specs.Calls.{Appends, Loads};
ghost use Rattle.durable.specs.Backing.{IsFound, MayFind, Hold, HoldAlone};
ghost use Rattle.durable.specs.Connected as connected;
ghost use Rattle.stores.specs.Faults.{is_judgement, count_after};
ghost use Rattle.durable.specs.CallFaults.{IsCallFault};
ghost use Rattle.store_tables.specs.Held.{slots_in, node_in, IsStore};
ghost use Rattle.store_migration.specs.Migrating.{IsOpenedAs};
ghost use Rattle.durable.specs.Kept.{IsHonest, MayHold, content, owner, disk_faults, must_reopen, is_there, AreFilesOf};
ghost use Rattle.durable.specs.Opening.{IsOpeningFault, MayComeOf};
ghost use Rattle.stores.specs.Records.{Places, written};
ghost use Rattle.durable.specs.Refusals.{IsRefusal, IsUnharmed, AreSpared};
ghost use Rattle.stores.specs.declared.fault.StoreFault.TheVariants.{Device, Reopen, NoMemory, Full};
ghost use Rattle.store_tables.specs.Rooms.{LacksRoom};

use crate::backing::{copied_files, files_of, open_again};
use crate::open_store::OpenStore;
use crate::opening::open_as_store;
use sqlite::{Connection, FileStore, Options};
use sqlite_disk::{Disk, Files};
use std::alloc::Global;
use store_migration::Watch;
use stores::StoreFault;
use units::Node;
use wire::Input;

/// The store over the connection, or the files after a reopening that failed.
#[derive(Drop)]
pub(crate) enum StoreState<D: Disk + Drop> {
    Open(OpenStore<FileStore<D>>),
    Shut(Files<D>),
    /// Only within a reopening.
    Absent,
}

/// The number of failed calls of the device, counting this fault too.
pub(crate) fn count_fault(faults: u64, fault: StoreFault) -> u64
    ensures { result ≡ count_after faults fault }
{
    match fault {
        StoreFault::Device | StoreFault::Full => faults.wrapping_add(1),
        _ => faults,
    }
}

impl<D: Disk + Drop> StoreState<D> {
    /// The files, with no call of the device.
    pub(crate) fn into_files(self) -> Files<D>
        requires there { IsTrue (is_there D.Disk self) }
        ensures honest { AreClean D.Disk result.log result.db → IsHonest D.Disk self }
        ensures left { (db : Trees) → MayFind D.Disk result db → (next : Places) → IsOpenedAs db next
            → ∥ MayHold D.Disk self next ∥₁ }
        ensures kept { must_reopen D.Disk self ≡ false → (db : Trees) → MayFind D.Disk result db
            → ∥ slots_in db ≡ content D.Disk self ∥₁ }
        ensures files { AreFilesOf D.Disk self result }
        ensures holds { must_reopen D.Disk self ≡ false
            → Hold D.Disk result (λ db. IsStore db × (slots_in db ≡ content D.Disk self)
            × (node_in db ≡ owner D.Disk self)) }
    {
        match self {
            StoreState::Open(store) => files_of(store.into_connection()),
            StoreState::Shut(files) => files,
            StoreState::Absent => unreachable!(),
        }
    }

    /// Whether a fault stopped it.
    pub(crate) fn must_reopen(&self) -> bool
        ensures { result ≡ must_reopen D.Disk self.now }
    {
        match self {
            StoreState::Open(store) => store.must_reopen(),
            StoreState::Shut(_) | StoreState::Absent => true,
        }
    }

    /// Copies the log, and returns the files. The database file then holds the whole store without its log. A fault
    /// gives the files back; for `Reopen` no call of the device was made.
    pub(crate) fn into_copied_files(self) -> Result<Files<D>, (StoreFault, Files<D>)>
        requires there { IsTrue (is_there D.Disk self) }
        ensures runs { OnOk result (must_reopen D.Disk self ≡ false) }
        ensures honest { IfOk result (λ files. AreClean D.Disk files.log files.db → IsHonest D.Disk self) }
        ensures alone { IfOk result
            (λ files. HoldAlone D.Disk files (λ db. IsStore db × (slots_in db ≡ content D.Disk self)
            × (node_in db ≡ owner D.Disk self))) }
        ensures named { IfErr result (λ e. (e.0 ≡ Reopen) ⊎ IsCallFault e.0) }
        ensures reopen { IfErr result (λ e. (e.0 ≡ Reopen) ↔ IsTrue (must_reopen D.Disk self)) }
        ensures untouched { IfErr result (λ e. e.0 ≡ Reopen → AreFilesOf D.Disk self e.1) }
        ensures honest_before { IfErr result (λ e. AreClean D.Disk e.1.log e.1.db → IsHonest D.Disk self) }
        ensures left { IfErr result (λ e. e.0 ≢ Device → (db : Trees) → MayFind D.Disk e.1 db → (next : Places)
            → IsOpenedAs db next → ∥ MayHold D.Disk self next ∥₁) }
        ensures kept { IfErr result (λ e. e.0 ≢ Device → must_reopen D.Disk self ≡ false → (db : Trees)
            → MayFind D.Disk e.1 db → ∥ slots_in db ≡ content D.Disk self ∥₁) }
        ensures holds { IfErr result (λ e. e.0 ≢ Device → must_reopen D.Disk self ≡ false
            → Hold D.Disk e.1
            (λ db. IsStore db × (slots_in db ≡ content D.Disk self) × (node_in db ≡ owner D.Disk self))) }
    {
        if self.must_reopen() {
            return Err((StoreFault::Reopen, self.into_files()));
        }
        match self {
            StoreState::Open(store) => match copied_files(store.into_connection()) {
                Ok(files) => Ok(files),
                Err((fault, files)) => Err((fault, files)),
            },
            StoreState::Shut(_files) => unreachable!(),
            StoreState::Absent => unreachable!(),
        }
    }

    /// Appends the whole batch, or nothing of it.
    pub(crate) fn append(&mut self, batch: &[Input]) -> Result<(), StoreFault>
        ensures appends { Appends (IsHonest D.Disk) (content D.Disk) (MayHold D.Disk)
            (must_reopen D.Disk) self.old self.new batch.now result }
        ensures there { is_there D.Disk self.new ≡ is_there D.Disk self.old }
        ensures owner { IsHonest D.Disk self.new → must_reopen D.Disk self.new ≡ false
            → owner D.Disk self.new ≡ owner D.Disk self.old }
        ensures full { IsHonest D.Disk self.new → result ≡ Err Full
            → LacksRoom (content D.Disk self.old) batch.now (disk_faults D.Disk self.old)
            (disk_faults D.Disk self.new) }
    {
        match self {
            StoreState::Open(store) => store.append(batch),
            StoreState::Shut(_) | StoreState::Absent => Err(StoreFault::Reopen),
        }
    }

    /// The records from place `from` on, at most `max`.
    pub(crate) fn load_page(&mut self, from: u64, max: u64) -> Result<Vec<Input>, StoreFault>
        ensures loads { Loads (IsHonest D.Disk) (content D.Disk) (MayHold D.Disk)
            (must_reopen D.Disk) self.old self.new from (take max (drop from (content D.Disk self.old))) result }
        ensures there { is_there D.Disk self.new ≡ is_there D.Disk self.old }
        ensures owner { IsHonest D.Disk self.new → must_reopen D.Disk self.new ≡ false
            → owner D.Disk self.new ≡ owner D.Disk self.old }
    {
        match self {
            StoreState::Open(store) => store.load_page(from, max),
            StoreState::Shut(_) | StoreState::Absent => Err(StoreFault::Reopen),
        }
    }

    /// All records in their order.
    pub(crate) fn load(&mut self) -> Result<Vec<Input>, StoreFault>
        ensures loads { Loads (IsHonest D.Disk) (content D.Disk) (MayHold D.Disk)
            (must_reopen D.Disk) self.old self.new 0 (content D.Disk self.old) result }
        ensures there { is_there D.Disk self.new ≡ is_there D.Disk self.old }
        ensures owner { IsHonest D.Disk self.new → must_reopen D.Disk self.new ≡ false
            → owner D.Disk self.new ≡ owner D.Disk self.old }
    {
        match self {
            StoreState::Open(store) => store.load(),
            StoreState::Shut(_) | StoreState::Absent => Err(StoreFault::Reopen),
        }
    }
}

/// A store over an open connection whose file is one of the node, or becomes one. After a fault it gives the files up.
pub(crate) fn store_over<D: Disk + Drop, W: Watch>(
    alloc: Global,
    mut conn: Connection<FileStore<D>>,
    name: &str,
    watch: &mut W,
) -> Result<OpenStore<FileStore<D>>, (StoreFault, Files<D>)>
    requires idle { conn.in_transaction ≡ false }
    requires opened { HasCleanDisk (file_state conn) → Opens (file_state conn) }
    ensures runs { IfOk result (λ k. k.must_reopen ≡ false) }
    ensures honest { IfOk result (λ k. connected.IsHonest over_files k → HasCleanDisk (file_state conn)) }
    ensures owner { IfOk result (λ k. connected.IsHonest over_files k
        → node_in (file_state k.conn).committed.trees ≡ name.now) }
    ensures opened { IfOk result (λ k. connected.IsHonest over_files k
        → IsOpenedAs (file_state conn).committed.trees (connected.content over_files k)) }
    ensures durable { IfOk result (λ k. connected.IsHonest over_files k → (next : Places)
        → connected.MayHold over_files k next → next ≡ connected.content over_files k) }
    ensures named { IfErr result (λ e. e.0 ≢ Reopen) }
    ensures refused { IfErr result (λ e. AreClean D.Disk e.1.log e.1.db → HasCleanDisk (file_state conn)) }
    ensures fault { IfErr result (λ e. AreClean D.Disk e.1.log e.1.db
        → IsOpeningFault name.now (file_state conn).committed e.0) }
    ensures unharmed { IfErr result (λ e. IsTrue (is_judgement e.0)
        → Hold D.Disk e.1 (λ next. next ≡ (file_state conn).committed.trees)) }
    ensures spared { IfErr result (λ e. Hold D.Disk e.1 (MayComeOf name.now (file_state conn).committed)) }
{
    match open_as_store(&mut conn, alloc, name, watch) {
        Ok(count) => Ok(OpenStore::new(alloc, conn, count)),
        Err(fault) => Err((fault, files_of(conn))),
    }
}

/// Opens the files as a store of the node, and reports to the watch how far a migration is. An error gives them back,
/// and files that were found to be no store of the node, or to have a damaged record, hold what they held.
pub(crate) fn store_from_files<D: Disk + Drop, W: Watch>(
    alloc: Global,
    files: Files<D>,
    options: Options,
    node: Node,
    watch: &mut W,
) -> Result<OpenStore<FileStore<D>>, (StoreFault, Files<D>)>
    ensures runs { IfOk result (λ k. k.must_reopen ≡ false) }
    ensures owner { IfOk result (λ k. connected.IsHonest over_files k
        → node_in (file_state k.conn).committed.trees ≡ node_text node) }
    ensures found { IfOk result (λ k. connected.IsHonest over_files k → (db : Trees) × IsFound D.Disk files db
        × IsOpenedAs db (connected.content over_files k)) }
    ensures durable { IfOk result (λ k. connected.IsHonest over_files k → (next : Places)
        → connected.MayHold over_files k next → next ≡ connected.content over_files k) }
    ensures named { IfErr result (λ e. e.0 ≢ Reopen) }
    ensures fault { IfErr result (λ e. AreClean D.Disk e.1.log e.1.db → IsRefusal D.Disk files (node_text node) e.0) }
    ensures unharmed { IfErr result (λ e. AreClean D.Disk e.1.log e.1.db → IsUnharmed D.Disk files e.0 e.1) }
    ensures spared { IfErr result (λ e. AreSpared D.Disk (node_text node) files e.1 e.0) }
{
    let Ok(name) = format!(in alloc; "{node}") else {
        return Err((StoreFault::NoMemory, files));
    };
    let conn = open_again(alloc, files, options)?;
    store_over(alloc, conn, &name, watch)
}
