//! The command `run`.
ghost use Rattle.std.specs.Prelude.{◌≡◌, ◌⊎◌, None, IfErr, IfOk, OnOk};
ghost use Rattle.std.specs.Io.KnownBytes.{Keeps};
ghost use Rattle.ended_nodes.specs.Ended.{stored_in};
ghost use Rattle.run.specs.Runs.{FailsToRun, IsLoadedAmong};
ghost use Rattle.commands.specs.Commands.{AreClosed, AreOpened, FailsToLoadFolder, FailsToRunFolder, FailsToRunLoaded, HasClosingFault, HasReported, IsPortFault, IsUndone, LoadsFolder, RunsFolder, RunsLoaded};

use crate::archive::Archive;
use crate::opening::{find_folder, open_stores, scheme_at, script_at};
use crate::progress::Progress;
use command_faults::{OpFault, store_fault};
use command_line::Strictness;
use desk::{Stored, WallClock};
use ended_nodes::EndedNode;
use loading::load_run;
use protocol::scheme::Scheme;
use run::{EndedRun, Script, run_script};
use serving::world::Core;
use sessions::JoinedNetwork;
use sockets::{Port, Ports};
use std::alloc::Global;
use std::io::{Eprint, ErrorKind, Write};
use std::net::{Net, TcpListener, TcpStream};
use std::rt::Clock as SystemClock;
use std::sync::Wait;
use std::thread::Threads;
use stores::NodeStore;
use units::{NoMemory, Node};
use weave::Watch;

/// The stores of all nodes in the folder, each with the state that its records lead to.
///
/// # Errors
///
/// Fails with the first fault of a store, and with `Stuck` if no run leads to these records: a run that went on from
/// them would add to them.
fn load_nodes<A: Archive, P: Progress>(
    alloc: Global,
    archive: &A,
    scheme: &Scheme,
    folder: &str,
    progress: &P,
) -> Result<Vec<Stored<Core, A::Store>>, OpFault>
    ensures ok { IfOk result (λ v. LoadsFolder A.Archive archive.now A.Store.NodeStore folder.now scheme.now v.items) }
    ensures err { IfErr result (FailsToLoadFolder A.Archive archive.now A.Store.NodeStore folder.now scheme.now) }
{
    let stores = open_stores(alloc, archive, scheme, folder)?;
    let mut watch = progress.of_audit();
    let loaded = load_run(alloc, scheme, stores, &mut watch);
    watch.finished();
    loaded
}

/// A listener of the node's own.
///
/// # Errors
///
/// Fails with `Read` if a port can't be had, and with `NoMemory` if memory ran out.
fn open_listener<R: Net<Listener = TcpListener, Stream = TcpStream>>(
    net: &R,
) -> Result<Port, OpFault>
    ensures err { IfErr result IsPortFault }
{
    match Port::open(net) {
        Ok(port) => Ok(port),
        Err(error) if error.kind() == ErrorKind::OutOfMemory => Err(OpFault::NoMemory),
        Err(_) => Err(OpFault::Read),
    }
}

/// Adds the listener of a node, and its address.
fn push<R: Net>(
    listeners: &mut Vec<(Node, Port)>,
    ports: &mut Ports<R>,
    node: Node,
    listener: Port,
) -> Result<(), NoMemory> {
    ports.add(node, &listener)?;
    listeners.push((node, listener))?;
    Ok(())
}

/// A listener for each of the nodes, and the dialer that connects to them.
///
/// # Errors
///
/// Fails as `open_listener` does, and with `NoMemory` if memory ran out.
fn open_all<S, R>(
    net: R,
    alloc: Global,
    loaded: &[Stored<Core, S>],
) -> Result<(Vec<(Node, Port)>, Ports<R>), OpFault>
where
    S: NodeStore,
    R: Net<Listener = TcpListener, Stream = TcpStream> + Copy + Drop,
    ensures { IfErr result IsPortFault }
{
    let mut listeners = Vec::new(alloc);
    let mut ports = Ports::new(net, alloc);
    for stored in loaded {
        let listener = open_listener(&net)?;
        push(&mut listeners, &mut ports, stored.state().node(), listener)?;
    }
    Ok((listeners, ports))
}

/// Closes each store.
///
/// # Errors
///
/// Fails with the first fault of a store, after all of them were closed.
fn close_stores<A: Archive>(archive: &A, nodes: Vec<EndedNode<A::Store>>) -> Result<(), OpFault>
    ensures ok { OnOk result (AreClosed (A.closes archive.now) (stored_in nodes.items)) }
    ensures err { IfErr result
        (HasClosingFault (A.closes archive.now) (A.unclosed archive.now) (stored_in nodes.items)) }
{
    let mut first = Ok(());
    for ended in nodes {
        let EndedNode { stored, seats } = ended;
        drop(seats);
        let (state, store) = stored.into_parts();
        let node = state.node();
        drop(state);
        if let Err(fault) = archive.close(store) {
            match first {
                Ok(()) => first = Err(store_fault(node, fault)),
                Err(_) => {}
            }
        }
    }
    first
}

/// Runs the nodes in threads, over connections of the loopback interface, while the script is played, and reports.
fn run_connected<S, W, P, R>(
    rt: &R,
    alloc: Global,
    script: &Script<'_>,
    loaded: Vec<Stored<Core, S>>,
    writer: &mut W,
    progress: &P,
) -> Result<EndedRun<S>, OpFault>
where
    S: NodeStore + Send + Drop,
    W: Write,
    P: Progress,
    R: Threads
        + Wait
        + SystemClock
        + Eprint
        + Net<Listener = TcpListener, Stream = TcpStream>
        + Sync,
    requires opened { AreOpened script.now.scheme.now loaded.items }
    ensures ok { IfOk result
        (λ r. HasReported S.NodeStore script.now.scheme.now script.now.lines.now loaded.items
        (stored_in r.nodes.items) r.undone (W.contents writer.old) (W.contents writer.new)) }
    ensures err { IfErr result
        (λ e. (IsPortFault e × Keeps (W.contents writer.old) (W.contents writer.new))
        ⊎ FailsToRun S.NodeStore (IsLoadedAmong S.NodeStore script.now.scheme.now loaded.items) e
        script.now.scheme.now script.now.lines.now (W.contents writer.old) (W.contents writer.new)) }
{
    let (listeners, ports) = open_all(rt, alloc, loaded.as_slice())?;
    let network = JoinedNetwork::new(listeners, ports, WallClock::new(rt));
    let mut watch = progress.of_run(script.lines.len());
    let ended = run_script::<JoinedNetwork<S, Port, Ports<&R>, WallClock<&R>>, W, P::OfRun, R>(
        rt, alloc, script, loaded, &network, writer, &mut watch,
    );
    watch.finished();
    ended
}

/// Fails with `Undone` of the first line that was not carried out, if there is one and the run is strict.
fn judged(strictness: Strictness, undone: Option<u64>) -> Result<(), OpFault>
    ensures ok { OnOk result (strictness ≡ Strictness.Strict → undone ≡ None) }
    ensures err { IfErr result (IsUndone strictness undone) }
{
    match strictness {
        Strictness::Lenient => Ok(()),
        Strictness::Strict => match undone {
            Some(line) => Err(OpFault::Undone(line)),
            None => Ok(()),
        },
    }
}

/// Runs the nodes in threads, over connections of the loopback interface, while the script is played; reports, and
/// closes the stores. It has eight arguments: those of `run_connected`, and the archive and the strictness.
fn run_loaded<A, W, P, R>(
    rt: &R,
    alloc: Global,
    archive: &A,
    script: &Script<'_>,
    strictness: Strictness,
    loaded: Vec<Stored<Core, A::Store>>,
    writer: &mut W,
    progress: &P,
) -> Result<(), OpFault>
where
    A: Archive,
    W: Write,
    P: Progress,
    R: Threads
        + Wait
        + SystemClock
        + Eprint
        + Net<Listener = TcpListener, Stream = TcpStream>
        + Sync,
    requires opened { AreOpened script.now.scheme.now loaded.items }
    ensures ok { OnOk result
        (RunsLoaded A.Store.NodeStore (A.closes archive.now) script.now.scheme.now script.now.lines.now strictness
        loaded.items (W.contents writer.old) (W.contents writer.new)) }
    ensures err { IfErr result
        (λ e. FailsToRunLoaded A.Store.NodeStore (A.closes archive.now)
        (A.unclosed archive.now) script.now.scheme.now script.now.lines.now strictness loaded.items e
        (W.contents writer.old) (W.contents writer.new)) }
{
    match run_connected(rt, alloc, script, loaded, writer, progress) {
        Ok(EndedRun { nodes, undone }) => match close_stores(archive, nodes) {
            Ok(()) => judged(strictness, undone),
            Err(fault) => Err(fault),
        },
        Err(fault) => Err(fault),
    }
}

/// Runs the nodes of a scheme in threads, with their stores in the folder, while the script is played. Before anything
/// runs it looks at the scheme, then at the whole script, at the folder, at the stores, and opens the ports last.
///
/// # Errors
///
/// Fails with the first fault of these, and as `run_script` does. If everything was written, fails with the first fault
/// of a store that is closed, and, if the run is strict, with `Undone` of the first line that was not carried out.
///
/// It has nine arguments: four are the words of the command.
pub(crate) fn run_folder<A, W, P, R>(
    rt: &R,
    alloc: Global,
    archive: &A,
    scheme: &str,
    folder: &str,
    script: &str,
    strictness: Strictness,
    writer: &mut W,
    progress: &P,
) -> Result<(), OpFault>
where
    A: Archive,
    W: Write,
    P: Progress,
    R: Threads
        + Wait
        + SystemClock
        + Eprint
        + Net<Listener = TcpListener, Stream = TcpStream>
        + Sync,
    ensures ok { OnOk result
        (RunsFolder A.Archive archive.now A.File.remaining A.Store.NodeStore scheme.now folder.now script.now strictness
        (W.contents writer.old) (W.contents writer.new)) }
    ensures err { IfErr result
        (λ e. FailsToRunFolder A.Archive archive.now A.File.remaining A.Store.NodeStore scheme.now folder.now script.now
        strictness e (W.contents writer.old) (W.contents writer.new)) }
{
    let scheme = scheme_at(alloc, archive, scheme)?;
    let lines = script_at(alloc, archive, script)?;
    find_folder(archive, folder)?;
    let loaded = load_nodes(alloc, archive, &scheme, folder, progress)?;
    let script = Script {
        scheme: &scheme,
        lines: lines.as_slice(),
    };
    run_loaded(
        rt, alloc, archive, &script, strictness, loaded, writer, progress,
    )
}
