//! The store's faults for SQLite's errors.
ghost use Rattle.std.specs.Prelude.{◌≡◌, ◌⊎◌, IsTrue};
ghost use Rattle.stores.specs.Faults.{is_device_fault};
ghost use Rattle.store_tables.specs.SqlFaults.{store_fault_of};

use sqlite::{Error as SqlError, ErrorCode};
use stores::StoreFault;

/// The fault for an error of a statement: out of memory, no room, or a fault of the device.
pub fn fault_of(error: SqlError) -> StoreFault
    ensures told { result ≡ store_fault_of error }
    ensures named { (result ≡ StoreFault.NoMemory) ⊎ IsTrue (is_device_fault result) }
{
    match error {
        SqlError::SqliteFailure(ErrorCode::OutOfMemory) => StoreFault::NoMemory,
        SqlError::SqliteFailure(ErrorCode::DiskFull | ErrorCode::TooBig) => StoreFault::Full,
        _ => StoreFault::Device,
    }
}
