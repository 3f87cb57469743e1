//! Copies of stores. A command that reads stores alone reads a copy, so that no file of a store changes.

use std::fs::{DirBuilder, Metadata, OpenOptions};
use std::hash::{BuildHasher, RandomState};
use std::io::{ErrorKind, Read};
use std::os::unix::fs::{DirBuilderExt, OpenOptionsExt};
use std::time::SystemTime;
use std::{env, fs, io};
use stores::StoreFault;

/// The permissions of a copy's folder: its owner alone has access.
const OWN_FOLDER: u32 = 0o700;

/// The permissions of a copied file: its owner alone has access.
const OWN_FILE: u32 = 0o600;

/// How many bytes at the beginning of a log change when it is begun again.
const LOG_HEAD: u64 = 32;

/// How often a store is copied at most, if a program writes to its database file meanwhile.
const MOST_TRIES: usize = 3;

/// A copy of a store's database file and of its log, in a folder of its own.
pub(crate) struct StoreCopy {
    folder: String,
    database: String,
    log: String,
}

impl Drop for StoreCopy {
    fn drop(self) {
        let StoreCopy {
            folder,
            database,
            log,
        } = self;
        drop(folder);
        drop(database);
        drop(log);
    }
}

/// The fault of a store for an error of the system.
fn fault_of(error: io::Error) -> StoreFault {
    match error.kind() {
        ErrorKind::OutOfMemory => StoreFault::NoMemory,
        ErrorKind::StorageFull => StoreFault::Full,
        _ => StoreFault::Device,
    }
}

/// What shows that a database file, and the log of what isn't in it yet, are those of a moment before: while these are
/// the same, a log only grows, and a copy of its first part has all records that were there when it was begun.
#[derive(Drop)]
struct State {
    length: u64,
    modified: SystemTime,
    head: Vec<u8>,
}

impl State {
    fn is(&self, other: &State) -> bool {
        self.length == other.length
            && self.modified == other.modified
            && self.head.as_slice() == other.head.as_slice()
    }
}

/// The first bytes of the file at the path; none if there is no file.
fn head_of(rt: &HostRuntime, path: &str) -> io::Result<Vec<u8>> {
    let mut head = Vec::new(rt.alloc());
    match fs::open(rt, path) {
        Ok(file) => {
            file.take(LOG_HEAD).read_to_end(&mut head)?;
            Ok(head)
        }
        Err(error) if error.kind() == ErrorKind::NotFound => Ok(head),
        Err(error) => Err(error),
    }
}

/// The state of the files now.
fn state_of(rt: &HostRuntime, database: &str, log: &str) -> io::Result<State> {
    let metadata: Metadata = fs::metadata(rt, database)?;
    Ok(State {
        length: metadata.len(),
        modified: metadata.modified()?,
        head: head_of(rt, log)?,
    })
}

/// Copies a file that is opened to be read alone. A file that isn't there has no copy.
fn copy_file(rt: &HostRuntime, from: &str, to: &str) -> io::Result<()> {
    let mut source = match fs::open(rt, from) {
        Ok(source) => source,
        Err(error) if error.kind() == ErrorKind::NotFound => return Ok(()),
        Err(error) => return Err(error),
    };
    let mut options = OpenOptions::new();
    options
        .write(true)
        .create(true)
        .truncate(true)
        .mode(OWN_FILE);
    let mut copy = options.open(rt, to)?;
    io::copy(&mut source, &mut copy)?;
    Ok(())
}

impl StoreCopy {
    /// Makes the folder for the copy of a store.
    fn new(rt: &HostRuntime) -> Result<StoreCopy, StoreFault> {
        let alloc = rt.alloc();
        let (Ok(temporary), Ok(seeds)) = (env::temp_dir(rt), RandomState::new(rt)) else {
            return Err(StoreFault::Device);
        };
        let number = seeds.hash_one(&0u8);
        let Ok(folder) = format!(in alloc; "{}/kyoto-link-{number:016x}", temporary.as_str()) else {
            return Err(StoreFault::NoMemory);
        };
        let Ok(database) = format!(in alloc; "{}/copy.db", folder.as_str()) else {
            return Err(StoreFault::NoMemory);
        };
        let Ok(log) = format!(in alloc; "{}-wal", database.as_str()) else {
            return Err(StoreFault::NoMemory);
        };
        match DirBuilder::new()
            .mode(OWN_FOLDER)
            .create(rt, folder.as_str())
        {
            Ok(()) => Ok(StoreCopy {
                folder,
                database,
                log,
            }),
            Err(error) => Err(fault_of(error)),
        }
    }

    /// Copies the store's files, again if its database file was written to meanwhile.
    fn fill(&self, rt: &HostRuntime, database: &str, log: &str) -> io::Result<()> {
        for _ in 0..MOST_TRIES {
            let before = state_of(rt, database, log)?;
            copy_file(rt, database, self.database.as_str())?;
            copy_file(rt, log, self.log.as_str())?;
            if before.is(&state_of(rt, database, log)?) {
                return Ok(());
            }
        }
        Err(ErrorKind::ResourceBusy.into())
    }

    /// Copies the store whose database file is at the path.
    ///
    /// # Errors
    ///
    /// Fails with `Device` if a file can't be read or copied, if another program has left a rollback journal beside the
    /// database file, or if one writes to it all the time; with `Full` if there is no room for the copy; and with
    /// `NoMemory` if memory ran out. No copy is left then.
    pub(crate) fn make(rt: &HostRuntime, path: &str) -> Result<StoreCopy, StoreFault> {
        // As SQLite does, the files are looked for where a link leads.
        let real = match fs::canonicalize(rt, path) {
            Ok(real) => real,
            Err(error) => return Err(fault_of(error)),
        };
        let (Ok(log), Ok(journal)) = (
            format!(in rt.alloc(); "{}-wal", real.as_str()),
            format!(in rt.alloc(); "{}-journal", real.as_str()),
        ) else {
            return Err(StoreFault::NoMemory);
        };
        if !matches!(fs::exists(rt, journal.as_str()), Ok(false)) {
            return Err(StoreFault::Device);
        }
        let copy = StoreCopy::new(rt)?;
        match copy.fill(rt, real.as_str(), log.as_str()) {
            Ok(()) => Ok(copy),
            Err(error) => {
                copy.remove(rt);
                Err(fault_of(error))
            }
        }
    }

    /// The path of the copied database file.
    pub(crate) fn path(&self) -> &str {
        self.database.as_str()
    }

    /// Removes the copy's files and its folder. A file that is open can be read until it is closed.
    pub(crate) fn remove(self, rt: &HostRuntime) {
        let _ = fs::remove_file(rt, self.database.as_str());
        let _ = fs::remove_file(rt, self.log.as_str());
        let _ = fs::remove_dir(rt, self.folder.as_str());
    }
}
