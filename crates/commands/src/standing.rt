//! The command `node`.
ghost use Rattle.std.specs.Prelude.{◌≡◌, false, true, IfErr, IfOk, Ok, OnOk};
ghost use Rattle.std.specs.Io.KnownBytes.{Appends};
ghost use Rattle.desk.specs.Keeping.{IsKept};
ghost use Rattle.node_state.specs.Loading.{IsLoaded};
ghost use Rattle.node_state.specs.Views.{opened_with};
ghost use Rattle.protocol.specs.Registries.{is_node};
ghost use Rattle.commands.specs.Standing.{AreKeysOf, FailsToStand, Lives, LoadsNode, StandsAlone, StandsIn, sum_line};

use crate::archive::Archive;
use crate::exports::Exports;
use crate::opening::{find_folder, open_store, scheme_at};
use command_faults::{OpFault, SetupFault, store_fault, write_out};
use command_line::NodeWords;
use desk::{Stored, WallClock};
use links::Tagged;
use node_setup::{Setup, read_setup, sum_of};
use one_node::{Exporter, Setting, run_alone};
use protocol::nodes_of;
use protocol::scheme::Scheme;
use serving::world::Core;
use sessions::{JoinedNetwork, Network};
use sockets::{LinePort, Ports};
use std::alloc::Global;
use std::io::{Eprint, ErrorKind, Read, Write};
use std::net::{Net, SocketAddr, TcpListener, TcpStream};
use std::rt::Clock as SystemClock;
use std::sync::Wait;
use std::thread::Threads;
use std::time::Duration;
use stores::NodeStore;
use tags::{Keys, KeysFault, MOST_KEYS, TAG_DIGITS};
use units::limits::LONGEST_LINE;
use units::{NoMemory, Node};

/// How many bytes a line of a link with keys may have before its newline.
const LONGEST_TAGGED: usize = TAG_DIGITS + 1 + LONGEST_LINE;

/// The network of a node whose links have no keys, with its records in a store of the type `S`, and the connections and
/// the clock of that runtime.
type OpenNetwork<S, R> = JoinedNetwork<S, LinePort<R>, Ports<R>, WallClock<R>>;

/// The same for a node whose links have keys.
type KeyedNetwork<'k, S, R> = JoinedNetwork<
    S,
    Tagged<'k, LinePort<R>>,
    Tagged<'k, Ports<R>>,
    WallClock<R>,
>;

/// The setup of a node's run: the scheme, all nodes of the scheme, its own name, where it listens, and how many seconds
/// lie between two clean-ups; and the source of its memory.
#[derive(Clone, Copy)]
struct Standing<'a> {
    alloc: Global,
    scheme: &'a Scheme,
    names: &'a [Node],
    node: Node,
    listen: SocketAddr,
    clean_up: Option<u64>,
}

impl<'a> Standing<'a> {
    /// The nodes that it sends to: a registry sends to the log, and the log to all registries. The log is the first of
    /// the names.
    fn peers(&self) -> &'a [Node] {
        let (log, registries) = self.names.split_at(self.names.len().min(1));
        match self.node {
            Node::Itl => registries,
            Node::Registry(_) => log,
        }
    }
}

/// Why a text isn't that of a file of keys.
fn keys_fault(fault: KeysFault) -> OpFault {
    match fault {
        KeysFault::Form(line) | KeysFault::Twice(line) | KeysFault::Same(line) => {
            OpFault::Setup(SetupFault::KeysLine(line as u64))
        }
        KeysFault::TooMany => OpFault::Setup(SetupFault::KeysLine(MOST_KEYS as u64 + 1)),
        KeysFault::Empty => OpFault::Setup(SetupFault::KeysLine(1)),
        KeysFault::NoMemory => OpFault::NoMemory,
    }
}

/// The keys of the file that the words name, one for each of these peers; or `None` if they name none.
///
/// # Errors
///
/// Fails as `read_keys` of the archive does, with `Setup` of `KeysLine` if a line isn't a further node with its key,
/// and with `Setup` of `NoKey` if a peer has none.
fn keys_of<A: Archive>(
    alloc: Global,
    archive: &A,
    words: &NodeWords,
    peers: &[Node],
) -> Result<Option<Keys>, OpFault>
    ensures { IfOk result (AreKeysOf A.Archive archive.now words.now.keys) }
{
    let Some(path) = &words.keys else {
        return Ok(None);
    };
    let text = archive.read_keys(path.as_str())?;
    let keys = match Keys::read(alloc, text.as_slice()) {
        Ok(keys) => keys,
        Err(fault) => return Err(keys_fault(fault)),
    };
    for peer in peers {
        if keys.key_of(*peer).is_none() {
            return Err(OpFault::Setup(SetupFault::NoKey(*peer)));
        }
    }
    Ok(Some(keys))
}

/// The state that the records of the node's store lead to, with the store.
///
/// # Errors
///
/// Fails with the store's fault and with `NoMemory` if memory ran out. The store is closed then.
fn load_store<S: NodeStore + Drop>(
    alloc: Global,
    scheme: &Scheme,
    node: Node,
    store: S,
) -> Result<Stored<Core, S>, OpFault>
    requires whose { S.whose store ≡ node }
    requires own { S.is_honest store → S.must_reopen store ≡ false → S.is_own store }
    ensures loaded { IfOk result (λ s. IsLoaded S.NodeStore scheme.now node store s.store (Ok s.state.journal)) }
    ensures state { IfOk result (λ s. s.state ≡ opened_with scheme.now node s.state.journal) }
{
    let core = Core::new(alloc, scheme, node)?;
    match Stored::load(alloc, core, store) {
        Ok(stored) => Ok(stored),
        Err((fault, store)) => {
            drop(store);
            Err(store_fault(node, fault))
        }
    }
}

/// The node's store in the folder, with the state that its records lead to. Afterwards the scheme's sum is kept beside
/// it.
///
/// # Errors
///
/// Fails with the store's fault, as `kept_sum` and `keep_sum` of the archive do, with `Setup` of `OtherScheme` if the
/// sum of another scheme is kept, and with `NoMemory` if memory ran out. No sum is kept if the records can't be loaded.
fn load_node<A: Archive>(
    alloc: Global,
    archive: &A,
    scheme: &Scheme,
    folder: &str,
    node: Node,
    sum: &str,
) -> Result<Stored<Core, A::Store>, OpFault>
    ensures { IfOk result (LoadsNode A.Archive archive.now A.Store.NodeStore folder.now scheme.now node sum.now) }
{
    let store = open_store(archive, folder, node)?;
    match archive.kept_sum(folder, node)? {
        Some(kept) if kept.as_str() == sum => load_store(alloc, scheme, node, store),
        Some(_) => Err(OpFault::Setup(SetupFault::OtherScheme)),
        None => {
            let stored = load_store(alloc, scheme, node, store)?;
            archive.keep_sum(folder, node, sum)?;
            Ok(stored)
        }
    }
}

/// A listener at that address, of lines of that many bytes at most.
///
/// # Errors
///
/// Fails with `Setup` of `Port` if the address can't be had, and with `NoMemory` if memory ran out.
fn open_port<R>(
    net: R,
    alloc: Global,
    address: SocketAddr,
    longest_line: usize,
) -> Result<LinePort<R>, OpFault>
where
    R: Net<Listener = TcpListener, Stream = TcpStream> + Drop,
{
    match LinePort::open_at(net, alloc, address, longest_line) {
        Ok(port) => Ok(port),
        Err(error) if error.kind() == ErrorKind::OutOfMemory => Err(OpFault::NoMemory),
        Err(_) => Err(OpFault::Setup(SetupFault::Port)),
    }
}

/// The listener of the only node. Fails with `NoMemory` if memory ran out.
fn only<L: Drop>(alloc: Global, node: Node, listener: L) -> Result<Vec<(Node, L)>, NoMemory> {
    let mut listeners = Vec::new(alloc);
    listeners.push((node, listener))?;
    Ok(listeners)
}

/// The network of the node, which listens at a port at its address and connects to these peers.
///
/// # Errors
///
/// Fails as `open_port` does.
fn open_network<S, R>(
    system: R,
    standing: &Standing<'_>,
    peers: Ports<R>,
) -> Result<OpenNetwork<S, R>, OpFault>
where
    R: Net<Listener = TcpListener, Stream = TcpStream> + SystemClock + Copy + Drop,
{
    let alloc = standing.alloc;
    let port = open_port(system, alloc, standing.listen, LONGEST_LINE)?;
    let listeners = only(alloc, standing.node, port)?;
    Ok(JoinedNetwork::new(listeners, peers, WallClock::new(system)))
}

/// The same, with these keys for its links.
///
/// # Errors
///
/// Fails as `open_port` does.
fn keyed_network<'k, S, R>(
    system: R,
    standing: &Standing<'_>,
    keys: &'k Keys,
    peers: Ports<R>,
) -> Result<KeyedNetwork<'k, S, R>, OpFault>
where
    R: Net<Listener = TcpListener, Stream = TcpStream> + SystemClock + Copy + Drop,
{
    let (alloc, node) = (standing.alloc, standing.node);
    let port = open_port(system, alloc, standing.listen, LONGEST_TAGGED)?;
    let listeners = only(alloc, node, Tagged::new(port, keys, node, alloc))?;
    let dialer = Tagged::new(peers, keys, node, alloc);
    Ok(JoinedNetwork::new(listeners, dialer, WallClock::new(system)))
}

/// Runs the loaded node over that network until its operator ends it. It has the type parameters of `run_alone`.
fn run_over<N, E, I, W, R>(
    rt: &R,
    standing: Standing<'_>,
    network: &N,
    loaded: Stored<Core, N::Store>,
    exporter: &E,
    reader: &mut I,
    writer: &mut W,
) -> Result<Stored<Core, N::Store>, OpFault>
where
    N: Network,
    E: Exporter,
    I: Read,
    W: Write,
    R: Threads + Wait + SystemClock + Sync,
    requires member { is_node standing.scheme.now loaded.state.node ≡ true }
    requires opened { loaded.state
        ≡ opened_with standing.scheme.now loaded.state.node loaded.state.journal }
    ensures life { IfOk result (λ s. Lives (E.holds exporter.now loaded.state.node)
        standing.entry.scheme.now loaded.state.node loaded.state.journal s.state
        (I.remaining reader.old) (I.remaining reader.new) (W.contents writer.old) (W.contents writer.new)) }
    ensures keeps { IfOk result (IsKept N.Store.NodeStore) }
{
    let clean_up = match standing.clean_up {
        Some(seconds) => Some(Duration::from_secs(seconds)),
        None => None,
    };
    let setting = Setting {
        scheme: standing.scheme,
        peers: standing.peers(),
        network,
        clean_up,
    };
    run_alone(
        rt,
        standing.alloc,
        &setting,
        loaded,
        exporter,
        reader,
        writer,
    )
}

/// The links of a node to its peers: their addresses, the keys, if they have any, and the system that connects them.
#[derive(Drop)]
struct Links<'k, T: Drop> {
    system: T,
    keys: Option<&'k Keys>,
    peers: Ports<T>,
}

/// Runs the node at a port at its address, over these links. It has six type parameters: those of `run_alone`, with that
/// of the store in place of the network, and the system of the links.
fn run_linked<S, E, I, W, T, R>(
    rt: &R,
    standing: Standing<'_>,
    links: Links<'_, T>,
    stored: Stored<Core, S>,
    exporter: &E,
    reader: &mut I,
    writer: &mut W,
) -> Result<Stored<Core, S>, OpFault>
where
    S: NodeStore + Send + Drop,
    E: Exporter,
    I: Read,
    W: Write,
    T: Net<Listener = TcpListener, Stream = TcpStream>
        + Wait
        + SystemClock
        + Eprint
        + Copy
        + Send
        + Sync
        + Drop,
    R: Threads + Wait + SystemClock + Sync,
    requires member { is_node standing.scheme.now stored.state.node ≡ true }
    requires opened { stored.state ≡ opened_with standing.scheme.now stored.state.node stored.state.journal }
    ensures life { IfOk result (λ s. Lives (E.holds exporter.now stored.state.node)
        standing.entry.scheme.now stored.state.node stored.state.journal s.state
        (I.remaining reader.old) (I.remaining reader.new) (W.contents writer.old) (W.contents writer.new)) }
    ensures keeps { IfOk result (IsKept S.NodeStore) }
{
    let Links {
        system,
        keys,
        peers,
    } = links;
    match keys {
        Some(keys) => {
            let network = keyed_network::<S, T>(system, &standing, keys, peers)?;
            run_over::<KeyedNetwork<'_, S, T>, E, I, W, R>(
                rt, standing, &network, stored, exporter, reader, writer,
            )
        }
        None => {
            let network = open_network::<S, T>(system, &standing, peers)?;
            run_over::<OpenNetwork<S, T>, E, I, W, R>(
                rt, standing, &network, stored, exporter, reader, writer,
            )
        }
    }
}

/// Writes the first line of a node's output, with the sum of its scheme.
fn write_sum<W: Write>(alloc: Global, writer: &mut W, sum: &str) -> Result<(), OpFault>
    ensures { OnOk result (Appends (W.contents writer.old) (W.contents writer.new) (sum_line sum.now)) }
{
    let Ok(text) = format!(in alloc; "scheme {sum}\n") else {
        return Err(OpFault::NoMemory);
    };
    write_out(writer, text.as_str())
}

/// Closes the store.
///
/// # Errors
///
/// Fails with the store's fault. Its records are still there.
fn close_store<A: Archive>(archive: &A, stored: Stored<Core, A::Store>) -> Result<(), OpFault>
    ensures { OnOk result (A.closes archive.now stored.store) }
{
    let (state, store) = stored.into_parts();
    let node = state.node();
    drop(state);
    match archive.close(store) {
        Ok(()) => Ok(()),
        Err(fault) => Err(store_fault(node, fault)),
    }
}

/// Runs a node as it was set up: looks at the keys, the folder and the store, writes the scheme's sum, and opens the
/// port last. Closes the store in the end. It has eight arguments: those of `stand_alone`, and the scheme and the setup
/// that the words name.
fn stand<A, I, W, R>(
    rt: &R,
    alloc: Global,
    archive: &A,
    words: &NodeWords,
    scheme: &Scheme,
    setup: Setup<&R>,
    reader: &mut I,
    writer: &mut W,
) -> Result<(), OpFault>
where
    A: Archive,
    I: Read,
    W: Write,
    R: Threads
        + Wait
        + SystemClock
        + Eprint
        + Net<Listener = TcpListener, Stream = TcpStream>
        + Sync,
    requires { is_node scheme.now setup.node ≡ true }
    ensures { OnOk result (StandsIn A.Archive archive.now A.Store.NodeStore words.now scheme.now setup.entry.node
        (I.remaining reader.old) (I.remaining reader.new) (W.contents writer.old) (W.contents writer.new)) }
{
    let Setup {
        node,
        listen,
        peers,
        clean_up,
    } = setup;
    let names = nodes_of(alloc, scheme)?;
    let standing = Standing {
        alloc,
        scheme,
        names: names.as_slice(),
        node,
        listen,
        clean_up,
    };
    let keys = keys_of(alloc, archive, words, standing.peers())?;
    let folder = words.folder.as_str();
    find_folder(archive, folder)?;
    let sum = sum_of(alloc, scheme)?;
    let stored = load_node(alloc, archive, scheme, folder, node, sum.as_str())?;
    write_sum(alloc, writer, sum.as_str())?;
    let exporter = Exports::new(archive);
    let links = Links {
        system: rt,
        keys: keys.as_ref(),
        peers,
    };
    let ended = run_linked(rt, standing, links, stored, &exporter, reader, writer)?;
    close_store(archive, ended)
}

/// Runs one node of a scheme, with its store in the folder, and writes the results of its operator's lines. Before
/// anything runs it looks at the scheme, then at the words, the file of keys, the folder and the store, and opens the
/// port last.
///
/// # Errors
///
/// Fails with the first fault of these, and as `run_alone` does. If everything was written, fails with the fault of the
/// store that is closed.
pub(crate) fn stand_alone<A, I, W, R>(
    rt: &R,
    alloc: Global,
    archive: &A,
    words: &NodeWords,
    reader: &mut I,
    writer: &mut W,
) -> Result<(), OpFault>
where
    A: Archive,
    I: Read,
    W: Write,
    R: Threads
        + Wait
        + SystemClock
        + Eprint
        + Net<Listener = TcpListener, Stream = TcpStream>
        + Sync,
    ensures ok { OnOk result (StandsAlone A.Archive archive.now A.File.remaining A.Store.NodeStore words.now
        (I.remaining reader.old) (I.remaining reader.new) (W.contents writer.old) (W.contents writer.new)) }
    ensures err { IfErr result (λ e. FailsToStand A.Archive archive.now A.File.remaining words.now e
        (W.contents writer.old) (W.contents writer.new)) }
{
    let scheme = scheme_at(alloc, archive, words.scheme.as_str())?;
    let setup = read_setup(rt, alloc, &scheme, words)?;
    stand(rt, alloc, archive, words, &scheme, setup, reader, writer)
}
