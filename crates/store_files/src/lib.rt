//! A node's store at a path: opens the two files there, and hands them to `durable`. No clause ties what a path names
//! to the files that are opened: this crate must be read, and does nothing else.
#![tactic(auto)]

ghost use Rattle.std.specs.Prelude.{◌≡◌, ◌≢◌, ◌⊎◌, true, false, IfOk, IfErr};
ghost use Rattle.sqlite_std_file.specs.File.{IsFresh};
ghost use Rattle.units.specs.Code.{node_text};
ghost use Rattle.stores.specs.Records.{Places};
ghost use Rattle.durable.specs.Stores.{IsHonest, MayHold, content, must_reopen, owner, node_of, faults};

use durable::{Nobody, SqlStore, Watch};
use sqlite::{File, Files, Options, Unknown};
use sqlite_std_file::OpenError;
use std::hash::{BuildHasher, RandomState};
use std::io::ErrorKind;
use stores::StoreFault;
use units::Node;

/// How many pages of 4,096 bytes a store keeps in memory. Appending reads only the last ones, and loading reads each
/// once.
const CACHE_PAGES: usize = 256;

/// The options of a store: its pages in memory, and a seed for its log.
///
/// Fails with `Device` where the system has no random number.
fn options(rt: &HostRuntime) -> Result<Options, StoreFault>
    ensures { IfErr result (λ e. e ≡ StoreFault.Device) }
{
    let Ok(seeds) = RandomState::new(rt) else {
        return Err(StoreFault::Device);
    };
    Ok(Options {
        cache_pages: CACHE_PAGES,
        ..Options::new(seeds.hash_one(&0u8))
    })
}

/// Opens the database file at the path and its log beside it, and makes those that are missing.
///
/// Fails with `NoMemory` for lack of memory, and else with `Device`.
fn files_at(rt: &HostRuntime, path: &str) -> Result<Files<File>, StoreFault>
    ensures fresh { IfOk result (λ files. IsFresh true files.log × IsFresh false files.db) }
    ensures named { IfErr result (λ e. (e ≡ StoreFault.NoMemory) ⊎ (e ≡ StoreFault.Device)) }
{
    match sqlite_std_file::open(rt, path, Unknown) {
        Ok(files) => Ok(files),
        Err(OpenError::OutOfMemory) => Err(StoreFault::NoMemory),
        Err(OpenError::Io(error)) if error.kind() == ErrorKind::OutOfMemory => {
            Err(StoreFault::NoMemory)
        }
        Err(_) => Err(StoreFault::Device),
    }
}

/// Opens the file at the path, with its log beside it, makes it a store of the node where there is none, and migrates a
/// store of format One to format Two.
///
/// Fails as `SqlStore::open_files` does, and with `Device` where the file can't be opened or another handle has it
/// open. No clause ties the result to the files at the path.
pub fn open_path(rt: &HostRuntime, path: &str, node: Node) -> Result<SqlStore<File>, StoreFault>
    ensures runs { IfOk result (λ s. must_reopen _ s ≡ false) }
    ensures node { IfOk result (λ s. node_of _ s ≡ node) }
    ensures faults { IfOk result (λ s. faults _ s ≡ 0) }
    ensures owner { IfOk result (λ s. IsHonest _ s → owner _ s ≡ node_text node) }
    ensures durable { IfOk result (λ s. IsHonest _ s → (next : Places) → MayHold _ s next → next ≡ content _ s) }
    ensures named { IfErr result (λ e. e ≢ StoreFault.Reopen) }
{
    open_path_watched(rt, path, node, &mut Nobody)
}

/// As `open_path`, and reports to the watch how far a migration of the store is.
///
/// Fails as `open_path` does.
pub fn open_path_watched<W: Watch>(
    rt: &HostRuntime,
    path: &str,
    node: Node,
    watch: &mut W,
) -> Result<SqlStore<File>, StoreFault>
    ensures runs { IfOk result (λ s. must_reopen _ s ≡ false) }
    ensures node { IfOk result (λ s. node_of _ s ≡ node) }
    ensures faults { IfOk result (λ s. faults _ s ≡ 0) }
    ensures owner { IfOk result (λ s. IsHonest _ s → owner _ s ≡ node_text node) }
    ensures durable { IfOk result (λ s. IsHonest _ s → (next : Places) → MayHold _ s next → next ≡ content _ s) }
    ensures named { IfErr result (λ e. e ≢ StoreFault.Reopen) }
{
    let options = options(rt)?;
    let files = files_at(rt, path)?;
    match SqlStore::open_files(rt.alloc(), files, options, node, watch) {
        Ok(store) => Ok(store),
        Err((fault, _)) => Err(fault),
    }
}

// The crate of the stores that are opened at a path.
pub use durable;
