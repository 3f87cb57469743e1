//! A store in a file of SQLite and its log.
ghost use Rattle.std.specs.Prelude.{◌≡◌, ◌≢◌, ◌⊎◌, ◌↔◌, ℕ, false, None, OnOk, IfOk, IfErr, IsTrue};
ghost use Rattle.sqlite.specs.Tree.{Trees};
ghost use Rattle.sqlite.specs.WalReads.{AreClean};
ghost use Rattle.units.specs.Code.{node_text};
ghost use Rattle.durable.specs.Backing.{IsFound, MayFind, Hold, HoldAlone};
ghost use Rattle.durable.specs.CallFaults.{IsCallFault};
ghost use Rattle.store_tables.specs.Held.{slots_in, node_in, IsStore};
ghost use Rattle.store_migration.specs.Migrating.{IsOpenedAs};
ghost use Rattle.durable.specs.Kept.{is_there};
ghost use Rattle.stores.specs.Records.{Places};
ghost use Rattle.durable.specs.Refusals.{IsRefusal, IsUnharmed, AreSpared};

use crate::store_state::{StoreState, count_fault, store_from_files};
use sqlite::{File, Options};
use sqlite_disk::{Disk, Files};
use std::alloc::Global;
use std::mem;
use store_migration::{Nobody, Watch};
use stores::{NodeStore, StoreFault};
use units::Node;
use wire::Input;

/// A store in a file of SQLite and its log.
pub struct SqlStore<D: Disk + Drop> {
    store_state: StoreState<D>,
    node: Node,
    faults: u64,
    options: Options,
    alloc: Global,
    ghost there: { IsTrue (is_there D.Disk store_state) },
}

// Written out, since a derived destructor is proved anew in each crate that drops a value.
impl<D: Disk + Drop> Drop for SqlStore<D> {
    fn drop(self) {
        let SqlStore {
            store_state,
            node: _,
            faults: _,
            options: _,
            alloc: _,
        } = self;
        drop(store_state);
    }
}

impl<D: Disk + Drop> SqlStore<D> {
    ghost use Rattle.durable.specs.Stores.{IsHonest, MayHold, content, must_reopen, owner, node_of, faults, HadFiles};

    /// Opens the database file and its log, makes them a store of the node where they are new, and migrates a store of
    /// format One to format Two, whose progress it reports to the watch. An error gives the files back.
    ///
    /// Fails with the first of these that applies: `Damaged(0)` where the files hold no store, `WrongVersion`,
    /// `WrongNode`, and `Damaged(p)`, where `p` is the first place without a record in a store of format One. The
    /// database that the files hold then stays as it was.
    ///
    /// Fails with `Device`, `Full` or `NoMemory` at any call of the database, and with `Device` where the files can't
    /// be used since a sync failed. Then one of these is the case. No call of the files was made, and they are as they
    /// were. SQLite couldn't open them, and gave them back with its error. Or SQLite could open them, and they hold the
    /// database that it found, a store that was made of new files, or a store that was migrated from format One.
    pub fn open_files<W: Watch>(
        alloc: Global,
        files: Files<D>,
        options: Options,
        node: Node,
        watch: &mut W,
    ) -> Result<SqlStore<D>, (StoreFault, Files<D>)>
        ensures runs { IfOk result (λ s. must_reopen D.Disk s ≡ false) }
        ensures node { IfOk result (λ s. node_of D.Disk s ≡ node) }
        ensures faults { IfOk result (λ s. faults D.Disk s ≡ 0) }
        ensures owner { IfOk result (λ s. IsHonest D.Disk s → owner D.Disk s ≡ node_text node) }
        ensures found { IfOk result (λ s. IsHonest D.Disk s → (db : Trees) × IsFound D.Disk files db
            × IsOpenedAs db (content D.Disk s)) }
        ensures durable { IfOk result (λ s. IsHonest D.Disk s → (next : Places) → MayHold D.Disk s next
            → next ≡ content D.Disk s) }
        ensures named { IfErr result (λ e. e.0 ≢ StoreFault.Reopen) }
        ensures fault { IfErr result (λ e. AreClean D.Disk e.1.log e.1.db
            → IsRefusal D.Disk files (node_text node) e.0) }
        ensures unharmed { IfErr result (λ e. AreClean D.Disk e.1.log e.1.db → IsUnharmed D.Disk files e.0 e.1) }
        ensures spared { IfErr result (λ e. AreSpared D.Disk (node_text node) files e.1 e.0) }
    {
        let store = store_from_files(alloc, files, options, node, watch)?;
        Ok(SqlStore {
            store_state: StoreState::Open(store),
            node,
            faults: 0,
            options,
            alloc,
        })
    }

    /// The node for which it was opened.
    pub fn node(&self) -> Node
        ensures { result ≡ node_of D.Disk self.now }
    {
        self.node
    }

    /// Copies what the log holds into the database file, closes the store, and gives both files back. After `Ok` the
    /// database file holds the content and the owner by itself, with or without its log, now and after a crash. An
    /// error gives the files back.
    ///
    /// Fails with `Reopen` exactly when the store must be reopened first; then no call of the device is made, and the
    /// files are the store's, as they were. Fails with `Full` where there is no room for the database file, and with
    /// `NoMemory`; then the files hold the content and the owner as they were, now and after a crash. Fails with
    /// `Device` at any call of the files. No clause says what an opening finds in them then, since the database has
    /// none for files after a failed call of the device has shut it.
    pub fn checkpoint_files(self) -> Result<Files<D>, (StoreFault, Files<D>)>
        ensures runs { OnOk result (must_reopen D.Disk self ≡ false) }
        ensures honest { IfOk result (λ files. AreClean D.Disk files.log files.db → IsHonest D.Disk self) }
        ensures alone { IfOk result
            (λ files. HoldAlone D.Disk files (λ db. IsStore db × (slots_in db ≡ content D.Disk self)
            × (node_in db ≡ owner D.Disk self))) }
        ensures named { IfErr result (λ e. (e.0 ≡ StoreFault.Reopen)
            ⊎ IsCallFault e.0) }
        ensures reopen { IfErr result (λ e. (e.0 ≡ StoreFault.Reopen) ↔ IsTrue (must_reopen D.Disk self)) }
        ensures untouched { IfErr result (λ e. e.0 ≡ StoreFault.Reopen → HadFiles D.Disk self e.1) }
        ensures honest_before { IfErr result (λ e. AreClean D.Disk e.1.log e.1.db → IsHonest D.Disk self) }
        ensures left { IfErr result (λ e. e.0 ≢ StoreFault.Device → (db : Trees) → MayFind D.Disk e.1 db
            → (next : Places) → IsOpenedAs db next → ∥ MayHold D.Disk self next ∥₁) }
        ensures kept { IfErr result (λ e. e.0 ≢ StoreFault.Device → must_reopen D.Disk self ≡ false → (db : Trees)
            → MayFind D.Disk e.1 db → ∥ slots_in db ≡ content D.Disk self ∥₁) }
        ensures holds { IfErr result (λ e. e.0 ≢ StoreFault.Device → must_reopen D.Disk self ≡ false
            → Hold D.Disk e.1
            (λ db. IsStore db × (slots_in db ≡ content D.Disk self) × (node_in db ≡ owner D.Disk self))) }
    {
        let SqlStore {
            store_state,
            node: _,
            faults: _,
            options: _,
            alloc: _,
        } = self;
        store_state.into_copied_files()
    }
}

impl SqlStore<File> {
    ghost use Rattle.durable.specs.Stores.{must_reopen};

    /// As `checkpoint_files`, and closes the files.
    ///
    /// Fails with `Reopen` exactly when the store must be reopened first, and else with `Device`, `Full` or `NoMemory`.
    pub fn checkpoint(self) -> Result<(), StoreFault>
        ensures runs { OnOk result (must_reopen _ self ≡ false) }
        ensures named { IfErr result (λ e. (e ≡ StoreFault.Reopen)
            ⊎ IsCallFault e) }
        ensures reopen { IfErr result (λ e. (e ≡ StoreFault.Reopen) ↔ IsTrue (must_reopen _ self)) }
    {
        match self.checkpoint_files() {
            Ok(_) => Ok(()),
            Err((fault, _)) => Err(fault),
        }
    }
}

impl<D: Disk + Drop> NodeStore for SqlStore<D> {
    ghost use Rattle.std.specs.Prelude.{◌≡◌, ◌≢◌, ◌⊎◌, ℕ, false, Ok, Err, OnOk, IfErr, IsTrue};
    ghost use Rattle.stores.specs.Calls.{Appends, Reopens};
    ghost use Rattle.stores.specs.Faults.{faults_after};
    ghost use Rattle.stores.specs.Records.{Places};
    ghost use Rattle.store_tables.specs.Rooms.{LacksRoom};
    ghost use Rattle.stores.specs.declared.fault.StoreFault.TheVariants.{Reopen, NoMemory, Damaged, Full};
    ghost use Rattle.units.specs.Code.{node_text};
    ghost use Rattle.durable.specs.Stores.{IsHonest, MayHold, content, must_reopen, faults, disk_faults, node_of, owner, IsReopeningFault, HasSpared};

    ghost is_honest = { λ s. IsHonest D.Disk s };

    ghost content = { λ s. content D.Disk s };

    ghost may_hold = { λ s next. MayHold D.Disk s next };

    ghost must_reopen = { λ s. must_reopen D.Disk s };

    ghost faults = { λ s. faults D.Disk s };

    ghost whose = { λ s. node_of D.Disk s };

    ghost is_own = { λ s. owner D.Disk s ≡ node_text (node_of D.Disk s) };

    /// Fails with `Full` where a call of the files failed, where the count of the places with the batch is not below
    /// 2^62, and where SQLite itself refuses one of the records.
    fn append(&mut self, batch: &[Input]) -> Result<(), StoreFault>
        ensures appends { Appends (IsHonest D.Disk) (content D.Disk) (MayHold D.Disk)
            (must_reopen D.Disk) self.old self.new batch.now result }
        ensures count { faults D.Disk self.new ≡ faults_after (faults D.Disk self.old) result }
        ensures node { node_of D.Disk self.new ≡ node_of D.Disk self.old }
        ensures owner { IsHonest D.Disk self.new → must_reopen D.Disk self.new ≡ false
            → owner D.Disk self.new ≡ owner D.Disk self.old }
        ensures full { IsHonest D.Disk self.new → result ≡ Err Full
            → LacksRoom (content D.Disk self.old) batch.now (disk_faults D.Disk self.old)
            (disk_faults D.Disk self.new) }
    {
        match self.store_state.append(batch) {
            Ok(()) => Ok(()),
            Err(fault) => {
                self.faults = count_fault(self.faults, fault);
                Err(fault)
            }
        }
    }

    fn load(&mut self) -> Result<Vec<Input>, StoreFault> {
        match self.store_state.load() {
            Ok(inputs) => Ok(inputs),
            Err(fault) => {
                self.faults = count_fault(self.faults, fault);
                Err(fault)
            }
        }
    }

    fn load_page(&mut self, from: u64, max: u64) -> Result<Vec<Input>, StoreFault> {
        match self.store_state.load_page(from, max) {
            Ok(inputs) => Ok(inputs),
            Err(fault) => {
                self.faults = count_fault(self.faults, fault);
                Err(fault)
            }
        }
    }

    /// Fails with `Damaged(p)`, `WrongVersion` and `WrongNode` as `open_files` does, and leaves the files as it does.
    /// After a sync that failed the same files can't be used again, and every reopening fails with `Device`.
    fn reopen(&mut self) -> Result<(), StoreFault>
        ensures reopens { Reopens (IsHonest D.Disk) (content D.Disk) (MayHold D.Disk)
            (must_reopen D.Disk) self.old self.new result }
        ensures count { faults D.Disk self.new ≡ faults_after (faults D.Disk self.old) result }
        ensures node { node_of D.Disk self.new ≡ node_of D.Disk self.old }
        ensures owner { IsHonest D.Disk self.new
            → OnOk result (owner D.Disk self.new ≡ node_text (node_of D.Disk self.new)) }
        ensures fault { IsHonest D.Disk self.new → IfErr result (IsReopeningFault D.Disk self.old) }
        ensures spared { IfErr result (HasSpared D.Disk self.old self.new) }
    {
        let files = mem::replace(&mut self.store_state, StoreState::Absent).into_files();
        match store_from_files(self.alloc, files, self.options, self.node, &mut Nobody) {
            Ok(store) => {
                self.store_state = StoreState::Open(store);
                Ok(())
            }
            Err((fault, files)) => {
                self.store_state = StoreState::Shut(files);
                self.faults = count_fault(self.faults, fault);
                Err(fault)
            }
        }
    }

    fn fault_count(&self) -> u64 {
        self.faults
    }
}
