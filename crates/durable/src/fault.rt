//! The store's faults for errors of a database whose log is copied.
ghost use Rattle.std.specs.Prelude.{◌≡◌, ◌≢◌, ◌⊎◌, IsTrue};
ghost use Rattle.sqlite.specs.State.{store_error};
ghost use Rattle.sqlite.specs.View.{IsClean};
ghost use Rattle.sqlite.specs.FileStore.{view};
ghost use Rattle.durable.specs.CallFaults.{IsCallFault};
ghost use Rattle.store_tables.specs.SqlFaults.{store_fault_of};

use sqlite::FileStore;
use sqlite_disk::Disk;
use sqlite_trees::error::StoreError;
use sqlite_trees::store::Store;
use stores::StoreFault;

/// The fault for an error of the database below the statements.
fn fault_below(error: StoreError) -> StoreFault
    ensures told { result ≡ store_fault_of (store_error error) }
{
    match error {
        StoreError::OutOfMemory => StoreFault::NoMemory,
        StoreError::Full | StoreError::Unstorable => StoreFault::Full,
        StoreError::Io | StoreError::Corrupt | StoreError::Broken => StoreFault::Device,
    }
}

/// The fault of a call that copies the log, from the database's error: `Device` where a failed call of the device shut
/// the database.
pub(crate) fn fault_of_copying<D: Disk>(database: &FileStore<D>, error: StoreError) -> StoreFault
    ensures open { result ≢ StoreFault.Device → IsClean (view database.now) → IsTrue (view database.now).is_open }
    ensures told { (result ≡ StoreFault.Device) ⊎ (result ≡ store_fault_of (store_error error)) }
    ensures named { IsCallFault result }
{
    if database.is_broken() {
        return StoreFault::Device;
    }
    fault_below(error)
}
