//! The work of each command.
ghost use Rattle.std.specs.Prelude.{◌≡◌, IfErr, IfOk, OnOk};
ghost use Rattle.status.specs.Id.{id_text};
ghost use Rattle.commands.specs.Commands.{AuditsFolder, AuditsTo, CutsFolder, FailsToAuditFolder, FailsToAuditTo, FailsToCutFolder, FailsToListFolder, FailsToPerform, FailsToShowNode, FailsToTraceFolder, ListsFolder, NamesNoTransaction, Performs, ShowsNode, TracesFolder};

use crate::archive::Archive;
use crate::opening::{find_folder, open_store, open_stores, scheme_at};
use crate::progress::Progress;
use crate::running::run_folder;
use crate::standing::stand_alone;
use audit::{audit_cut, audit_watched};
use chart::chart;
use command_faults::{Cause, OpFault, node_of};
use command_line::{Action, Extent};
use events::list_events;
use explain::explain;
use protocol::status::TransactionId;
use rehearse::rehearse;
use report::Form;
use show::show;
use std::alloc::Global;
use std::io::{Eprint, Read, Write};
use std::net::{Net, TcpListener, TcpStream};
use std::rt::Clock as SystemClock;
use std::sync::Wait;
use std::thread::Threads;
use trace::trace;
use weave::Watch;

/// Writes the records of the store of the node that the word names.
fn show_node<A: Archive, W: Write>(
    alloc: Global,
    archive: &A,
    scheme: &str,
    folder: &str,
    word: &str,
    form: Form,
    writer: &mut W,
) -> Result<(), OpFault>
    ensures ok { OnOk result
        (ShowsNode A.Archive archive.now A.File.remaining A.Store.NodeStore form scheme.now folder.now word.now
        (W.contents writer.old) (W.contents writer.new)) }
    ensures err { IfErr result
        (λ e. FailsToShowNode A.Archive archive.now A.File.remaining A.Store.NodeStore form scheme.now folder.now
        word.now e (W.contents writer.old) (W.contents writer.new)) }
{
    let scheme = scheme_at(alloc, archive, scheme)?;
    let node = node_of(&scheme, word)?;
    find_folder(archive, folder)?;
    let mut store = open_store(archive, folder, node)?;
    show(alloc, node, &mut store, writer, form)
}

/// Writes the table of a run that leads to the records of the stores in the folder.
fn audit_folder<A: Archive, W: Write, P: Progress>(
    alloc: Global,
    archive: &A,
    scheme: &str,
    folder: &str,
    form: Form,
    writer: &mut W,
    progress: &P,
) -> Result<(), OpFault>
    ensures ok { OnOk result
        (AuditsFolder A.Archive archive.now A.File.remaining A.Store.NodeStore form scheme.now folder.now
        (W.contents writer.old) (W.contents writer.new)) }
    ensures err { IfErr result
        (λ e. FailsToAuditFolder A.Archive archive.now A.File.remaining A.Store.NodeStore form scheme.now folder.now e
        (W.contents writer.old) (W.contents writer.new)) }
{
    let scheme = scheme_at(alloc, archive, scheme)?;
    find_folder(archive, folder)?;
    let mut stores = open_stores(alloc, archive, &scheme, folder)?;
    let mut watch = progress.of_audit();
    let done = audit_watched(
        alloc,
        &scheme,
        stores.as_mut_slice(),
        writer,
        form,
        &mut watch,
    );
    watch.finished();
    done
}

/// Writes the table of the furthest run whose journals are first records of the stores in the folder, and the records
/// that are left.
fn cut_folder<A: Archive, W: Write, P: Progress>(
    alloc: Global,
    archive: &A,
    scheme: &str,
    folder: &str,
    form: Form,
    writer: &mut W,
    progress: &P,
) -> Result<(), OpFault>
    ensures ok { OnOk result
        (CutsFolder A.Archive archive.now A.File.remaining A.Store.NodeStore form scheme.now folder.now
        (W.contents writer.old) (W.contents writer.new)) }
    ensures err { IfErr result
        (λ e. FailsToCutFolder A.Archive archive.now A.File.remaining A.Store.NodeStore form scheme.now folder.now e
        (W.contents writer.old) (W.contents writer.new)) }
{
    let scheme = scheme_at(alloc, archive, scheme)?;
    find_folder(archive, folder)?;
    let mut stores = open_stores(alloc, archive, &scheme, folder)?;
    let mut watch = progress.of_audit();
    let done = audit_cut(
        alloc,
        &scheme,
        stores.as_mut_slice(),
        writer,
        form,
        &mut watch,
    );
    watch.finished();
    done
}

/// Writes the table of a run that leads to as many of the records of the stores in the folder as the extent says. It has
/// eight arguments: four are words of the command.
fn audit_to<A: Archive, W: Write, P: Progress>(
    alloc: Global,
    archive: &A,
    scheme: &str,
    folder: &str,
    extent: Extent,
    form: Form,
    writer: &mut W,
    progress: &P,
) -> Result<(), OpFault>
    ensures ok { OnOk result
        (AuditsTo A.Archive archive.now A.File.remaining A.Store.NodeStore extent form scheme.now folder.now
        (W.contents writer.old) (W.contents writer.new)) }
    ensures err { IfErr result
        (λ e. FailsToAuditTo A.Archive archive.now A.File.remaining A.Store.NodeStore extent form scheme.now folder.now e
        (W.contents writer.old) (W.contents writer.new)) }
{
    match extent {
        Extent::Whole => audit_folder(alloc, archive, scheme, folder, form, writer, progress),
        Extent::Furthest => cut_folder(alloc, archive, scheme, folder, form, writer, progress),
    }
}

/// Writes the events of a run that leads to the records of the stores in the folder.
fn list_folder<A: Archive, W: Write, P: Progress>(
    alloc: Global,
    archive: &A,
    scheme: &str,
    folder: &str,
    form: Form,
    writer: &mut W,
    progress: &P,
) -> Result<(), OpFault>
    ensures ok { OnOk result
        (ListsFolder A.Archive archive.now A.File.remaining A.Store.NodeStore form scheme.now folder.now
        (W.contents writer.old) (W.contents writer.new)) }
    ensures err { IfErr result
        (λ e. FailsToListFolder A.Archive archive.now A.File.remaining A.Store.NodeStore form scheme.now folder.now e
        (W.contents writer.old) (W.contents writer.new)) }
{
    let scheme = scheme_at(alloc, archive, scheme)?;
    find_folder(archive, folder)?;
    let mut stores = open_stores(alloc, archive, &scheme, folder)?;
    let mut watch = progress.of_audit();
    let done = list_events(
        alloc,
        &scheme,
        stores.as_mut_slice(),
        writer,
        form,
        &mut watch,
    );
    watch.finished();
    done
}

/// The transaction that the word names. Otherwise fails with `Input`, of line 1, with `Order`.
fn transaction_of(word: &str) -> Result<TransactionId, OpFault>
    ensures ok { IfOk result (λ id. word.now ≡ id_text id) }
    ensures err { IfErr result (NamesNoTransaction word.now) }
{
    match TransactionId::read(word) {
        Some(id) => Ok(id),
        None => Err(OpFault::Input {
            line: 1,
            cause: Cause::Order,
        }),
    }
}

/// Writes the records of the transaction that the word names, in the order of a run that leads to the records of the
/// stores in the folder. It has eight arguments: four are words of the command.
fn trace_folder<A: Archive, W: Write, P: Progress>(
    alloc: Global,
    archive: &A,
    scheme: &str,
    folder: &str,
    word: &str,
    form: Form,
    writer: &mut W,
    progress: &P,
) -> Result<(), OpFault>
    ensures ok { OnOk result
        (TracesFolder A.Archive archive.now A.File.remaining A.Store.NodeStore form scheme.now folder.now word.now
        (W.contents writer.old) (W.contents writer.new)) }
    ensures err { IfErr result
        (λ e. FailsToTraceFolder A.Archive archive.now A.File.remaining A.Store.NodeStore form scheme.now folder.now
        word.now e (W.contents writer.old) (W.contents writer.new)) }
{
    let scheme = scheme_at(alloc, archive, scheme)?;
    let id = transaction_of(word)?;
    find_folder(archive, folder)?;
    let mut stores = open_stores(alloc, archive, &scheme, folder)?;
    let mut watch = progress.of_audit();
    let done = trace(
        alloc,
        &scheme,
        stores.as_mut_slice(),
        id,
        writer,
        form,
        &mut watch,
    );
    watch.finished();
    done
}

/// Does what the action says. Reads standard input from `reader` if it reads it, and writes its results to `writer`.
///
/// # Errors
///
/// Fails with the first fault, in the order in which the command looks at the files and nodes that its words name.
/// Nothing is written then, unless the output failed; but a run or a node that stands alone may have written lines
/// before it failed, and a strict run that fails with `Undone` has written everything.
///
/// It has five type parameters: the archive, the two streams, the progress and the system.
pub(crate) fn perform<A, I, W, P, R>(
    rt: &R,
    alloc: Global,
    archive: &A,
    action: &Action,
    reader: &mut I,
    writer: &mut W,
    progress: &P,
) -> Result<(), OpFault>
where
    A: Archive,
    I: Read,
    W: Write,
    P: Progress,
    R: Threads
        + Wait
        + SystemClock
        + Eprint
        + Net<Listener = TcpListener, Stream = TcpStream>
        + Sync,
    ensures ok { OnOk result (Performs A.Archive archive.now A.File.remaining A.Store.NodeStore action.now
        (I.remaining reader.old) (I.remaining reader.new) (W.contents writer.old) (W.contents writer.new)) }
    ensures err { IfErr result
        (λ e. FailsToPerform A.Archive archive.now A.File.remaining A.Store.NodeStore action.now e
        (I.remaining reader.old) (I.remaining reader.new) (W.contents writer.old) (W.contents writer.new)) }
{
    match action {
        Action::Rehearse => rehearse(alloc, reader, writer),
        Action::Chart => chart(alloc, reader, writer),
        Action::Show {
            scheme,
            folder,
            node,
            form,
            missing,
        } => show_node(
            alloc,
            &archive.to_read(*missing),
            scheme.as_str(),
            folder.as_str(),
            node.as_str(),
            *form,
            writer,
        ),
        Action::Audit {
            scheme,
            folder,
            extent,
            form,
            missing,
        } => audit_to(
            alloc,
            &archive.to_read(*missing),
            scheme.as_str(),
            folder.as_str(),
            *extent,
            *form,
            writer,
            progress,
        ),
        Action::Events {
            scheme,
            folder,
            form,
            missing,
        } => list_folder(
            alloc,
            &archive.to_read(*missing),
            scheme.as_str(),
            folder.as_str(),
            *form,
            writer,
            progress,
        ),
        Action::Trace {
            scheme,
            folder,
            id,
            form,
            missing,
        } => trace_folder(
            alloc,
            &archive.to_read(*missing),
            scheme.as_str(),
            folder.as_str(),
            id.as_str(),
            *form,
            writer,
            progress,
        ),
        Action::Explain { words } => explain(alloc, writer, words.as_slice()),
        Action::Run {
            scheme,
            folder,
            script,
            missing,
            strictness,
        } => run_folder(
            rt,
            alloc,
            &archive.to_append(*missing),
            scheme.as_str(),
            folder.as_str(),
            script.as_str(),
            *strictness,
            writer,
            progress,
        ),
        Action::Node(words) => stand_alone(rt, alloc, archive, words, reader, writer),
    }
}
