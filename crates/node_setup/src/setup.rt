//! The setup of a node, from the words of the command `node`.
ghost use Rattle.std.specs.Prelude.{◌≡◌, IfErr, IfOk};
ghost use Rattle.node_setup.specs.Setups.{FailsToListen, FailsToSetUp, FailsToTime, IsListenWord, IsSetup, IsTimed, guard_of};

use crate::peers::{Guard, read_peers};
use crate::words::read_seconds;
use command_faults::{OpFault, SetupFault, node_of};
use command_line::NodeWords;
use protocol::scheme::Scheme;
use sockets::Ports;
use std::alloc::Global;
use std::net::{Net, SocketAddr};
use units::Node;

/// The setup of a node that stands alone.
#[derive(Drop)]
pub struct Setup<R: Drop> {
    /// The node, which is one of the scheme.
    pub node: Node,
    /// Where it accepts connections.
    pub listen: SocketAddr,
    /// Where its peers accept connections: the log of a registry, and all registries of the log.
    pub peers: Ports<R>,
    /// How many seconds lie between two clean-ups that its clock orders, if it orders any. It is 1 at least.
    pub clean_up: Option<u64>,
}

/// Whether the words name keys.
fn guard_of(words: &NodeWords) -> Guard
    ensures { result ≡ guard_of words.now }
{
    match words.keys {
        Some(_) => Guard::Keys,
        None => Guard::Loopback,
    }
}

/// The address that a word writes, at which a node is to listen.
///
/// # Errors
///
/// Fails with `Listen` if the word is no address, and with `Exposed` if the node may not have that address.
fn read_listen(guard: Guard, word: &str) -> Result<SocketAddr, SetupFault>
    ensures ok { IfOk result (IsListenWord guard word.now) }
    ensures err { IfErr result (FailsToListen guard word.now) }
{
    let Ok(address) = word.parse::<SocketAddr>() else {
        return Err(SetupFault::Listen);
    };
    if guard.allows(address) {
        Ok(address)
    } else {
        Err(SetupFault::Exposed)
    }
}

/// How many seconds lie between two clean-ups of the node, if a word says so.
///
/// # Errors
///
/// Fails with `CleanUp` if the word is no number of seconds, and with `NotTheLog` if the node is a registry.
fn read_clean_up(node: Node, word: &Option<String>) -> Result<Option<u64>, SetupFault>
    ensures ok { IfOk result (IsTimed node word.now) }
    ensures err { IfErr result (FailsToTime node word.now) }
{
    let Some(word) = word else {
        return Ok(None);
    };
    let Some(seconds) = read_seconds(word.as_str()) else {
        return Err(SetupFault::CleanUp);
    };
    match node {
        Node::Itl => Ok(Some(seconds)),
        Node::Registry(_) => Err(SetupFault::NotTheLog),
    }
}

/// The setup that the words describe under a scheme. They are read in this order: the node, its address, its peers, its
/// clean-ups.
///
/// # Errors
///
/// Fails with `NoMemory` if memory ran out, and otherwise with `Setup` of the first fault:
///
/// - `Unknown`: the node isn't one of the scheme.
/// - `Listen`: its address isn't one.
/// - `Peer`, `Stranger`, `Twice`: a peer isn't a node with an address, isn't one that the node sends to, or is one that
///   an earlier word names.
/// - `Exposed`: there are no keys, and the address of the node or of a peer is not of the loopback interface.
/// - `Missing`: a node that this one sends to is no peer.
/// - `CleanUp`: the time between clean-ups is no number of seconds.
/// - `NotTheLog`: there is such a time, and the node is a registry.
pub fn read_setup<R: Net + Drop>(
    net: R,
    alloc: Global,
    scheme: &Scheme,
    words: &NodeWords,
) -> Result<Setup<R>, OpFault>
    ensures ok { IfOk result (IsSetup scheme.now words.now) }
    ensures err { IfErr result (FailsToSetUp scheme.now words.now) }
{
    let Ok(node) = node_of(scheme, words.node.as_str()) else {
        return Err(OpFault::Setup(SetupFault::Unknown));
    };
    let guard = guard_of(words);
    let listen = read_listen(guard, words.listen.as_str())?;
    let peers = read_peers(net, alloc, scheme, node, guard, words.peers.as_slice())?;
    let clean_up = read_clean_up(node, &words.clean_up)?;
    Ok(Setup {
        node,
        listen,
        peers,
        clean_up,
    })
}
