//! How a connection over files is given up, and opened again.
ghost use Rattle.std.specs.Prelude.{◌≡◌, ◌≢◌, ◌⊎◌, ℕ, false, IfOk, IfErr};
ghost use Rattle.sqlite.specs.Effect.{IsDatabase};
ghost use Rattle.sqlite.specs.Tree.{Trees};
ghost use Rattle.sqlite.specs.State.{HasCleanDisk, Opens};
ghost use Rattle.sqlite.specs.Files.{file_state};
ghost use Rattle.sqlite.specs.Closing.{IsCopied};
ghost use Rattle.sqlite.specs.WalReads.{AreClean};
ghost use Rattle.durable.specs.Backing.{IsFound, MayFind, Hold};
ghost use Rattle.durable.specs.CallFaults.{IsCallFault};
ghost use Rattle.store_tables.specs.SqlFaults.{store_fault_of};
ghost use Rattle.durable.specs.Refusals.{IsFileFault, IsToldOf, AreUntouched, AreGivenBack};

use crate::fault::fault_of_copying;
use sqlite::{Connection, Error as SqlError, ErrorCode, FileStore, Options};
use sqlite_disk::{Disk, Files, Tally};
use sqlite_trees::store::Store;
use std::alloc::Global;
use store_tables::fault_of;
use stores::StoreFault;

/// Gives the connection up for its files, with no call of the device. What isn't committed is lost.
pub(crate) fn files_of<D: Disk + Drop>(conn: Connection<FileStore<D>>) -> Files<D>
    ensures honest { AreClean D.Disk result.log result.db → HasCleanDisk (file_state conn) }
    ensures left { (db : Trees) → MayFind D.Disk result db → ∥ (file_state conn).may_leave db ∥₁ }
    ensures holds { Hold D.Disk result (file_state conn).may_leave }
{
    conn.into_store().close()
}

/// Copies what the log holds into the database file, and gives both files back, on a fault too. What isn't committed is
/// lost.
///
/// Fails with `Device`, `Full` or `NoMemory` as a call of the database does, and with `Device` where a failed call of
/// the device shut it.
pub(crate) fn copied_files<D: Disk + Drop>(
    conn: Connection<FileStore<D>>,
) -> Result<Files<D>, (StoreFault, Files<D>)>
    ensures copied { IfOk result (λ files. AreClean D.Disk files.log files.db → IsCopied conn files) }
    ensures named { IfErr result (λ e. IsCallFault e.0) }
    ensures honest { IfErr result (λ e. AreClean D.Disk e.1.log e.1.db → HasCleanDisk (file_state conn)) }
    ensures left { IfErr result (λ e. e.0 ≢ StoreFault.Device → (db : Trees) → MayFind D.Disk e.1 db
        → ∥ (file_state conn).may_leave db ∥₁) }
    ensures holds { IfErr result (λ e. e.0 ≢ StoreFault.Device → Hold D.Disk e.1 (file_state conn).may_leave) }
{
    let mut database = conn.into_store();
    // Repeated here, since only this store's rollback has a clause about the log.
    database.rollback();
    match database.checkpoint() {
        Ok(()) => Ok(database.close()),
        Err(error) => {
            let fault = fault_of_copying(&database, error);
            Err((fault, database.close()))
        }
    }
}

/// The fault for an error of an opening, by the tallies of the files' failed calls before and after it. SQLite reports
/// a file as corrupt where it can't be a database and where a read was found wrong; only the first is a fault of the
/// file's content.
pub(crate) fn opening_fault(error: SqlError, before: Tally, now: Tally) -> StoreFault
    ensures told { IsToldOf before now error result }
    ensures named { (result ≡ StoreFault.Damaged 0) ⊎ IsCallFault result }
    ensures no_database { error ≡ SqlError.SqliteFailure ErrorCode.NotADatabase → result ≡ StoreFault.Damaged 0 }
    ensures corrupt { error ≡ SqlError.SqliteFailure ErrorCode.DatabaseCorrupt → now.caught ≡ before.caught
        → result ≡ StoreFault.Damaged 0 }
    ensures caught { error ≢ SqlError.SqliteFailure ErrorCode.NotADatabase → now.caught ≢ before.caught
        → result ≡ store_fault_of error }
    ensures other { error ≢ SqlError.SqliteFailure ErrorCode.NotADatabase
        → error ≢ SqlError.SqliteFailure ErrorCode.DatabaseCorrupt → result ≡ store_fault_of error }
    ensures damaged { (p : ℕ) → result ≡ StoreFault.Damaged p
        → (error ≡ SqlError.SqliteFailure ErrorCode.NotADatabase)
        ⊎ ((error ≡ SqlError.SqliteFailure ErrorCode.DatabaseCorrupt) × (now.caught ≡ before.caught)) }
{
    match error {
        SqlError::SqliteFailure(ErrorCode::NotADatabase) => StoreFault::Damaged(0),
        SqlError::SqliteFailure(ErrorCode::DatabaseCorrupt) if now.caught == before.caught => {
            StoreFault::Damaged(0)
        }
        error => fault_of(error),
    }
}

/// Opens the files. An error gives them back; after a failed sync they can't be used again.
///
/// Fails with `Damaged(0)` where they hold no database, and with `Device`, `Full` or `NoMemory` at any call.
pub(crate) fn open_again<D: Disk + Drop>(
    alloc: Global,
    files: Files<D>,
    options: Options,
) -> Result<Connection<FileStore<D>>, (StoreFault, Files<D>)>
    ensures idle { IfOk result (λ conn. conn.in_transaction ≡ false) }
    ensures opened { IfOk result (λ conn. HasCleanDisk (file_state conn) → Opens (file_state conn)) }
    ensures sound { IfOk result (λ conn. HasCleanDisk (file_state conn) → IsDatabase (file_state conn).committed) }
    ensures found { IfOk result (λ conn. HasCleanDisk (file_state conn)
        → IsFound D.Disk files (file_state conn).committed.trees) }
    ensures named { IfErr result (λ e. (e.0 ≡ StoreFault.Damaged 0)
        ⊎ IsCallFault e.0) }
    ensures fault { IfErr result (λ e. AreClean D.Disk e.1.log e.1.db → IsFileFault D.Disk files e.0) }
    ensures spared { IfErr result (λ e. AreUntouched D.Disk files e.1 e.0 ⊎ AreGivenBack D.Disk files e.1 e.0) }
{
    if !files.may_be_used() {
        return Err((StoreFault::Device, files));
    }
    let before = files.tally();
    match Connection::open_files(alloc, files, options) {
        Ok(conn) => Ok(conn),
        Err((error, left)) => {
            let files = left.into_files();
            let fault = opening_fault(error, before, files.tally());
            Err((fault, files))
        }
    }
}
