//! The files, folders and stores that a command's words name, opened and read.
ghost use Rattle.std.specs.Prelude.{◌≡◌, IfErr, IfOk, OnOk};
ghost use Rattle.protocol.specs.Registries.{nodes};
ghost use Rattle.commands.specs.Opened.{AreStoresIn, FailsToOpen, HasScheme, HasScript, IsShut, IsStoreIn, LacksFolder, LacksScheme, LacksScript};
ghost use Rattle.commands.specs.Unopened.{of_unopened};

use crate::archive::{Archive, Unopened};
use command_faults::{OpFault, SetupFault, read_scheme, store_fault};
use input_lines::{ScriptLine, read_script};
use loading::read_first;
use protocol::nodes_of;
use protocol::scheme::Scheme;
use std::alloc::Global;
use units::Node;

/// The scheme of the file at the path.
///
/// # Errors
///
/// Fails with `Read` if the file can't be opened, and as `read_scheme` does.
pub fn scheme_at<A: Archive>(alloc: Global, archive: &A, path: &str) -> Result<Scheme, OpFault>
    ensures ok { IfOk result (HasScheme A.Archive archive.now A.File.remaining path.now) }
    ensures err { IfErr result (LacksScheme A.Archive archive.now A.File.remaining path.now) }
{
    match archive.open(path) {
        Some(mut file) => read_scheme(alloc, &mut file),
        None => Err(OpFault::Read),
    }
}

/// The lines of the script in the file at the path.
///
/// # Errors
///
/// Fails with `Read` if the file can't be opened, and as `read_script` does.
pub(crate) fn script_at<A: Archive>(
    alloc: Global,
    archive: &A,
    path: &str,
) -> Result<Vec<ScriptLine>, OpFault>
    ensures ok { IfOk result (λ v. HasScript A.Archive archive.now A.File.remaining path.now v.items) }
    ensures err { IfErr result (LacksScript A.Archive archive.now A.File.remaining path.now) }
{
    match archive.open(path) {
        Some(mut file) => read_script(alloc, &mut file),
        None => Err(OpFault::Read),
    }
}

/// Fails with `Read` if there is no folder at the path.
pub(crate) fn find_folder<A: Archive>(archive: &A, path: &str) -> Result<(), OpFault>
    ensures ok { OnOk result (A.is_folder archive.now path.now) }
    ensures err { IfErr result (LacksFolder A.Archive archive.now path.now) }
{
    if archive.has_folder(path) {
        Ok(())
    } else {
        Err(OpFault::Read)
    }
}

/// The command's fault for a store of the node that isn't open.
fn unopened_fault(node: Node, unopened: Unopened) -> OpFault
    ensures { result ≡ of_unopened node unopened }
{
    match unopened {
        Unopened::Missing => OpFault::Setup(SetupFault::NoStore(node)),
        Unopened::Fault(fault) => store_fault(node, fault),
    }
}

/// The store of the node in the folder.
///
/// # Errors
///
/// Fails with `Setup` of `NoStore` if there is none and the archive refuses missing stores, with the store's fault, or
/// with `NoMemory` if memory ran out.
pub(crate) fn open_store<A: Archive>(
    archive: &A,
    folder: &str,
    node: Node,
) -> Result<A::Store, OpFault>
    ensures ok { IfOk result (IsStoreIn A.Archive archive.now A.Store.NodeStore folder.now node) }
    ensures err { IfErr result (IsShut A.Archive archive.now folder.now node) }
{
    match archive.open_store(folder, node) {
        Ok(store) => Ok(store),
        Err(unopened) => Err(unopened_fault(node, unopened)),
    }
}

/// The stores of all nodes in the folder: the log's, then those of the registries in the scheme's order. If one can't
/// be opened, a fault in the records of those before it comes first.
///
/// # Errors
///
/// Fails with the first fault of a store, or with `NoMemory` if memory ran out.
pub(crate) fn open_stores<A: Archive>(
    alloc: Global,
    archive: &A,
    scheme: &Scheme,
    folder: &str,
) -> Result<Vec<A::Store>, OpFault>
    ensures ok { IfOk result (λ v. AreStoresIn A.Archive archive.now A.Store.NodeStore folder.now
        (nodes scheme.now) v.items) }
    ensures err { IfErr result (FailsToOpen A.Archive archive.now A.Store.NodeStore folder.now scheme.now) }
{
    let names = nodes_of(alloc, scheme)?;
    let mut stores = Vec::new(alloc);
    for at in 0..names.len() {
        match open_store(archive, folder, names[at]) {
            Ok(store) => match stores.push(store) {
                Ok(()) => {}
                Err(_) => return Err(OpFault::NoMemory),
            },
            Err(fault) => {
                read_first(alloc, scheme, stores.as_mut_slice())?;
                return Err(fault);
            }
        }
    }
    Ok(stores)
}
