//! The files and the stores that the words of a command name.
ghost use Rattle.std.specs.Prelude.{◌≡◌, true, false, IfErr, IfNone, IfOk, IfSome, OnOk, List, ℕ, string_bytes};
ghost use Rattle.stores.specs.declared.fault.StoreFault.{StoreFault as AFault};
ghost use Rattle.command_line.specs.declared.actions.Missing.{Missing as IfMissing};
ghost use Rattle.commands.specs.Unopened.{IsUnopened};
ghost use Rattle.units.specs.declared.code.Node.{Node as ANode};

use command_faults::OpFault;
use command_line::Missing;
use std::io::Read;
use stores::{NodeStore, StoreFault};
use units::Node;

/// Why a store isn't open.
#[derive(Clone, Copy, Debug, PartialEq, Eq)]
pub enum Unopened {
    /// There is none, and a missing store is refused.
    Missing,
    /// It has that fault, which is never `Reopen`.
    Fault(StoreFault),
}

/// Files at paths, and folders with the stores of nodes.
pub trait Archive: Copy {
    /// An open file.
    type File: Read + Drop;
    /// An open store.
    type Store: NodeStore + Send + Drop;

    /// It is the file at that path.
    ghost opens: { Self → List ℕ → Self.File → Type 0 };

    /// There is a folder at that path.
    ghost is_folder: { Self → List ℕ → Type 0 };

    /// There is no such file, or folder, or it can't be opened.
    ghost lacks: { Self → List ℕ → Type 0 };

    /// The second archive is the first one for a command that reads stores alone, where a missing store is treated so: if
    /// it is refused, no file changes.
    ghost reads_as: { Self → IfMissing → Self → Type 0 };

    /// The second archive is the first one for a command that appends to stores, where a missing store is treated so.
    ghost appends_as: { Self → IfMissing → Self → Type 0 };

    /// It is the store of that node in the folder at that path.
    ghost keeps: { Self → List ℕ → ANode → Self.Store → Type 0 };

    /// There is no store of that node in the folder at that path, and a missing store is refused.
    ghost misses: { Self → List ℕ → ANode → Type 0 };

    /// Opening the node's store in the folder at that path fails with that fault.
    ghost fails: { Self → List ℕ → ANode → AFault → Type 0 };

    /// The store was closed, and its records are all in its database file.
    ghost closes: { Self → Self.Store → Type 0 };

    /// Closing the store failed with that fault.
    ghost unclosed: { Self → Self.Store → AFault → Type 0 };

    /// The store is that of that node, and was made in a new file at that path.
    ghost makes: { Self → List ℕ → ANode → Self.Store → Type 0 };

    /// The file at that path has these bytes, and its owner alone may read and write it.
    ghost is_private: { Self → List ℕ → List ℕ → Type 0 };

    /// The sum that is kept beside the store of that node in the folder at that path is this one.
    ghost is_marked: { Self → List ℕ → ANode → List ℕ → Type 0 };

    /// Opens the file at the path, to be read. `None` if it can't be opened.
    fn open(&self, path: &str) -> Option<Self::File>
        ensures some { IfSome result (opens self.now path.now) }
        ensures none { IfNone result (lacks self.now path.now) };

    /// Whether there is a folder at the path.
    fn has_folder(&self, path: &str) -> bool
        ensures yes { result ≡ true → is_folder self.now path.now }
        ensures no { result ≡ false → lacks self.now path.now };

    /// The archive for a command that reads stores alone. If missing stores are refused, no file changes.
    fn to_read(&self, missing: Missing) -> Self
    where
        Self: Sized,
        ensures { reads_as self.now missing result };

    /// The archive for a command that appends to stores.
    fn to_append(&self, missing: Missing) -> Self
    where
        Self: Sized,
        ensures { appends_as self.now missing result };

    /// Opens the store of the node in the folder at the path. A store that isn't there is made, unless this archive is one
    /// that refuses missing stores.
    ///
    /// # Errors
    ///
    /// Fails with `Missing` if there is no store and missing ones are refused, and with the store's fault.
    fn open_store(&self, folder: &str, node: Node) -> Result<Self::Store, Unopened>
        ensures keeps { IfOk result (keeps self.now folder.now node) }
        ensures whose { IfOk result (λ s. Self.Store.whose s ≡ node) }
        ensures own { IfOk result (λ s. Self.Store.is_honest s → Self.Store.must_reopen s ≡ false
            → Self.Store.is_own s) }
        ensures fails { IfErr result (IsUnopened (misses self.now) (fails self.now) folder.now node) };

    /// Closes the store. Its records are all in its database file afterwards.
    ///
    /// # Errors
    ///
    /// Fails with the store's fault. Its records are still there, in its file and its log.
    fn close(&self, store: Self::Store) -> Result<(), StoreFault>
        ensures closes { OnOk result (closes self.now store) }
        ensures unclosed { IfErr result (unclosed self.now store) };

    /// Makes a store of the node in a new file at the path.
    ///
    /// # Errors
    ///
    /// Fails with `Device` if there is a file at the path, and otherwise with the store's fault.
    fn make_store(&self, path: &str, node: Node) -> Result<Self::Store, StoreFault>
        ensures makes { IfOk result (makes self.now path.now node) }
        ensures whose { IfOk result (λ s. Self.Store.whose s ≡ node) };

    /// The bytes of the file at the path, which its owner alone may read and write.
    ///
    /// # Errors
    ///
    /// Fails with `Setup` of `KeysUnread` if the file can't be read, with `Setup` of `KeysNoFile` if it is no regular
    /// file, with `Setup` of `KeysOwner` if it belongs to another user, with `Setup` of `KeysShared` if others than its
    /// owner may read or write it, and with `NoMemory` if memory ran out.
    fn read_keys(&self, path: &str) -> Result<Vec<u8>, OpFault>
        ensures { IfOk result (λ bytes. is_private self.now path.now bytes.items) };

    /// The sum of a scheme that is kept beside the store of the node in the folder, if one is.
    ///
    /// # Errors
    ///
    /// Fails with `Setup` of `SchemeSum` if it can't be read, and with `NoMemory` if memory ran out.
    fn kept_sum(&self, folder: &str, node: Node) -> Result<Option<String>, OpFault>
        ensures { IfOk result (λ kept. IfSome kept (λ sum. is_marked self.now folder.now node (string_bytes sum))) };

    /// Keeps the sum of a scheme beside the store of the node in the folder, if none is kept.
    ///
    /// # Errors
    ///
    /// Fails with `Setup` of `SchemeSum` if it can't be kept, and with `NoMemory` if memory ran out.
    fn keep_sum(&self, folder: &str, node: Node, sum: &str) -> Result<(), OpFault>
        ensures { OnOk result (is_marked self.now folder.now node sum.now) };
}
