//! The files of the system, and the stores in its folders.

use crate::copies::StoreCopy;
use crate::watching::MigrationLine;
use commands::command_faults::{OpFault, SetupFault};
use commands::command_line::Missing;
use commands::{Archive, Unopened};
use protocol::units::Node;
use sqlite::File as StoreFile;
use std::alloc::{AllocError, Global};
use std::fs::File;
use std::io::{ErrorKind, Read, Write};
use std::os::unix::fs::{MetadataExt, PermissionsExt};
use std::{fs, io};
use store_files::durable::SqlStore;
use stores::StoreFault;

/// How the store of a node is opened.
#[derive(Clone, Copy)]
enum Access {
    /// In its place, and made if it isn't there.
    Create,
    /// In its place, if it is there.
    Existing,
    /// As a copy, if it is there. Its files stay as they are.
    Copied,
}

/// The files of the system. No clause relates a path to the file that is opened, so the bodies here have to be read.
#[derive(Clone, Copy)]
pub(crate) struct SystemFiles<'a> {
    rt: &'a HostRuntime,
    access: Access,
}

impl<'a> SystemFiles<'a> {
    /// The files of the system, in which a missing store is made.
    pub(crate) fn new(rt: &'a HostRuntime) -> SystemFiles<'a> {
        SystemFiles {
            rt,
            access: Access::Create,
        }
    }
}

/// The path of the node's store.
pub(crate) fn store_path(alloc: Global, folder: &str, node: Node) -> Result<String, AllocError> {
    format!(in alloc; "{folder}/{node}.db")
}

/// The path of the sum of the scheme of the node's store.
fn sum_path(alloc: Global, folder: &str, node: Node) -> Result<String, AllocError> {
    format!(in alloc; "{folder}/{node}.scheme")
}

/// The folder of this process.
const OWN_PROCESS: &str = "/proc/self";

/// The permissions that others than its owner have on a file.
const OF_OTHERS: u32 = 0o077;

/// The path at which the sum is written before it is moved to its place, so that it is there as a whole or not at all.
fn new_sum_path(alloc: Global, folder: &str, node: Node) -> Result<String, AllocError> {
    format!(in alloc; "{folder}/{node}.scheme.new")
}

/// Writes the sum, and a newline, into a file at the first path, and moves it to the second one. The folder is synced
/// too, so that the name is there after a power failure.
fn write_sum(rt: &HostRuntime, folder: &str, new: &str, path: &str, sum: &str) -> io::Result<()> {
    let mut file = fs::create(rt, new)?;
    file.write_all(sum.as_bytes())?;
    file.write_all(b"\n")?;
    file.sync_all()?;
    fs::rename(rt, new, path)?;
    fs::open(rt, folder)?.sync_all()
}

/// Whether that user runs this program. The system has a folder for each process, which belongs to the user who runs it.
/// Where there is none, each user may.
fn is_own(rt: &HostRuntime, user: u32) -> bool {
    match fs::metadata(rt, OWN_PROCESS) {
        Ok(process) => process.uid() == user,
        Err(_) => true,
    }
}

/// Whether there is no file at the path.
fn is_missing(rt: &HostRuntime, path: &str) -> bool {
    matches!(fs::exists(rt, path), Ok(false))
}

/// Writes that a store isn't there and is made: the store of another folder may be meant.
fn tell_missing(rt: &HostRuntime, path: &str) {
    if is_missing(rt, path) {
        let _ = eprintln!(rt; "kyoto-link: {path} doesn't exist, and is created as an empty store");
    }
}

impl<'a> Archive for SystemFiles<'a> {
    type File = File;

    type Store = SqlStore<StoreFile>;

    ghost opens = { λ _ path file. Unit {0} };

    ghost is_folder = { λ _ path. Unit {0} };

    ghost lacks = { λ _ path. Unit {0} };

    ghost reads_as = { λ _ missing archive. Unit {0} };

    ghost appends_as = { λ _ missing archive. Unit {0} };

    ghost keeps = { λ _ folder n store. Unit {0} };

    ghost misses = { λ _ folder n. Unit {0} };

    ghost fails = { λ _ folder n fault. Unit {0} };

    ghost closes = { λ _ store. Unit {0} };

    ghost unclosed = { λ _ store fault. Unit {0} };

    ghost makes = { λ _ path n store. Unit {0} };

    ghost is_private = { λ _ path bytes. Unit {0} };

    ghost is_marked = { λ _ folder n sum. Unit {0} };

    fn open(&self, path: &str) -> Option<File> {
        fs::open(self.rt, path).ok()
    }

    fn has_folder(&self, path: &str) -> bool {
        match fs::metadata(self.rt, path) {
            Ok(metadata) => metadata.is_dir(),
            Err(_) => false,
        }
    }

    fn to_read(&self, missing: Missing) -> SystemFiles<'a> {
        let access = match missing {
            Missing::Create => Access::Create,
            Missing::Refuse => Access::Copied,
        };
        SystemFiles {
            rt: self.rt,
            access,
        }
    }

    fn to_append(&self, missing: Missing) -> SystemFiles<'a> {
        let access = match missing {
            Missing::Create => Access::Create,
            Missing::Refuse => Access::Existing,
        };
        SystemFiles {
            rt: self.rt,
            access,
        }
    }

    fn open_store(&self, folder: &str, node: Node) -> Result<SqlStore<StoreFile>, Unopened> {
        let Ok(path) = store_path(self.rt.alloc(), folder, node) else {
            return Err(Unopened::Fault(StoreFault::NoMemory));
        };
        let path = path.as_str();
        match self.access {
            Access::Create => tell_missing(self.rt, path),
            Access::Existing | Access::Copied => {
                if is_missing(self.rt, path) {
                    return Err(Unopened::Missing);
                }
            }
        }
        let copy = match self.access {
            Access::Create | Access::Existing => None,
            Access::Copied => match StoreCopy::make(self.rt, path) {
                Ok(copy) => Some(copy),
                Err(fault) => return Err(Unopened::Fault(fault)),
            },
        };
        let place = match &copy {
            Some(copy) => copy.path(),
            None => path,
        };
        let mut line = MigrationLine::new(self.rt, node);
        let opened = store_files::open_path_watched(self.rt, place, node, &mut line);
        line.finished();
        if let Some(copy) = copy {
            copy.remove(self.rt);
        }
        match opened {
            Ok(store) => Ok(store),
            Err(fault) => Err(Unopened::Fault(fault)),
        }
    }

    /// Copies the store's log into its database file, which then has all its records by itself, and closes it.
    fn close(&self, store: SqlStore<StoreFile>) -> Result<(), StoreFault> {
        store.checkpoint()
    }

    fn make_store(&self, path: &str, node: Node) -> Result<SqlStore<StoreFile>, StoreFault> {
        match fs::exists(self.rt, path) {
            Ok(false) => store_files::open_path(self.rt, path, node),
            _ => Err(StoreFault::Device),
        }
    }

    fn read_keys(&self, path: &str) -> Result<Vec<u8>, OpFault> {
        let unread = OpFault::Setup(SetupFault::KeysUnread);
        let Ok(mut file) = fs::open(self.rt, path) else {
            return Err(unread);
        };
        let Ok(metadata) = file.metadata() else {
            return Err(unread);
        };
        // A folder can't be read, and a pipe or a device may have no end.
        if !metadata.is_file() {
            return Err(OpFault::Setup(SetupFault::KeysNoFile));
        }
        if !is_own(self.rt, metadata.uid()) {
            return Err(OpFault::Setup(SetupFault::KeysOwner));
        }
        if metadata.permissions().mode() & OF_OTHERS != 0 {
            return Err(OpFault::Setup(SetupFault::KeysShared));
        }
        let mut bytes = Vec::new(self.rt.alloc());
        match file.read_to_end(&mut bytes) {
            Ok(_) => Ok(bytes),
            Err(error) if error.kind() == ErrorKind::OutOfMemory => Err(OpFault::NoMemory),
            Err(_) => Err(unread),
        }
    }

    fn kept_sum(&self, folder: &str, node: Node) -> Result<Option<String>, OpFault> {
        let Ok(path) = sum_path(self.rt.alloc(), folder, node) else {
            return Err(OpFault::NoMemory);
        };
        let kept = match fs::read_to_string(self.rt, path.as_str()) {
            Ok(kept) => kept,
            Err(error) => {
                return match error.kind() {
                    ErrorKind::NotFound => Ok(None),
                    ErrorKind::OutOfMemory => Err(OpFault::NoMemory),
                    _ => Err(OpFault::Setup(SetupFault::SchemeSum)),
                };
            }
        };
        match String::from_str(self.rt.alloc(), kept.as_str().trim_end()) {
            Ok(sum) => Ok(Some(sum)),
            Err(_) => Err(OpFault::NoMemory),
        }
    }

    fn keep_sum(&self, folder: &str, node: Node, sum: &str) -> Result<(), OpFault> {
        let Ok(path) = sum_path(self.rt.alloc(), folder, node) else {
            return Err(OpFault::NoMemory);
        };
        let Ok(new) = new_sum_path(self.rt.alloc(), folder, node) else {
            return Err(OpFault::NoMemory);
        };
        match write_sum(self.rt, folder, new.as_str(), path.as_str(), sum) {
            Ok(()) => Ok(()),
            Err(_) => Err(OpFault::Setup(SetupFault::SchemeSum)),
        }
    }
}
