//! The peers of a node, with their addresses.
ghost use Rattle.std.specs.Prelude.{◌≡◌, ◌↔◌, IfErr, IfOk, IsTrue, OnErr, OnOk, map, string_bytes};
ghost use Rattle.node_setup.specs.Peers.{AddsPeer, Allows, ArePeers, FailsToAdd, FailsToFind, FailsToLink, HasAll, is_peer};

use crate::words::read_peer;
use command_faults::{OpFault, SetupFault};
use protocol::nodes_of;
use protocol::scheme::Scheme;
use sockets::{Ports, is_loopback};
use std::alloc::Global;
use std::net::{Net, SocketAddr};
use units::Node;

/// Whether links have keys.
#[derive(Clone, Copy, Debug, PartialEq, Eq)]
pub enum Guard {
    /// They have.
    Keys,
    /// They have none: every address must be of the loopback interface.
    Loopback,
}

impl Guard {
    /// Whether a node may have that address.
    pub(crate) fn allows(self, address: SocketAddr) -> bool
        ensures { IsTrue result ↔ Allows self address }
    {
        match self {
            Guard::Keys => true,
            Guard::Loopback => is_loopback(address),
        }
    }
}

/// Whether the node sends to that one: a registry sends to the log, and the log to each registry of the scheme.
fn is_peer(scheme: &Scheme, node: Node, peer: Node) -> bool
    ensures { result ≡ is_peer scheme.now node peer }
{
    match node {
        Node::Itl => match peer {
            Node::Itl => false,
            Node::Registry(code) => scheme.member(code).is_some(),
        },
        Node::Registry(_) => match peer {
            Node::Itl => true,
            Node::Registry(_) => false,
        },
    }
}

/// Adds the peer of a word to those of the words before it.
///
/// # Errors
///
/// Fails with `Peer`, `Stranger`, `Exposed` or `Twice`, the first of these that the word has, and with `NoMemory` if
/// memory ran out. The peers are as they were.
fn add_peer<R: Net>(
    ports: &mut Ports<R>,
    scheme: &Scheme,
    node: Node,
    guard: Guard,
    word: &str,
) -> Result<(), OpFault>
    ensures ok { OnOk result (AddsPeer scheme.now node guard ports.old word.now ports.new) }
    ensures err { IfErr result (FailsToAdd scheme.now node guard ports.old word.now) }
{
    let Some((peer, address)) = read_peer(word) else {
        return Err(OpFault::Setup(SetupFault::Peer));
    };
    if !is_peer(scheme, node, peer) {
        return Err(OpFault::Setup(SetupFault::Stranger(peer)));
    }
    if !guard.allows(address) {
        return Err(OpFault::Setup(SetupFault::Exposed));
    }
    if ports.address_of(peer).is_some() {
        return Err(OpFault::Setup(SetupFault::Twice(peer)));
    }
    ports.add_address(peer, address)?;
    Ok(())
}

/// Fails with `Missing` for the first node in the scheme's order that this one sends to and that has no address, and
/// with `NoMemory` if memory ran out.
fn find_all<R: Net>(
    alloc: Global,
    ports: &Ports<R>,
    scheme: &Scheme,
    node: Node,
) -> Result<(), OpFault>
    ensures ok { OnOk result (HasAll scheme.now node ports.now) }
    ensures err { IfErr result (FailsToFind scheme.now node ports.now) }
{
    let names = nodes_of(alloc, scheme)?;
    for at in 0..names.len() {
        let peer = names[at];
        if is_peer(scheme, node, peer) && ports.address_of(peer).is_none() {
            return Err(OpFault::Setup(SetupFault::Missing(peer)));
        }
    }
    Ok(())
}

/// The peers that the words name, in their order.
///
/// # Errors
///
/// Fails with the first fault of a word, then with `Missing`, and with `NoMemory` if memory ran out.
pub(crate) fn read_peers<R: Net + Drop>(
    net: R,
    alloc: Global,
    scheme: &Scheme,
    node: Node,
    guard: Guard,
    words: &[String],
) -> Result<Ports<R>, OpFault>
    ensures ok { IfOk result (ArePeers scheme.now node guard (map string_bytes words.now)) }
    ensures all { IfOk result (HasAll scheme.now node) }
    ensures err { IfErr result (FailsToLink scheme.now node guard (map string_bytes words.now)) }
{
    let mut ports = Ports::new(net, alloc);
    for at in 0..words.len() {
        add_peer(&mut ports, scheme, node, guard, words[at].as_str())?;
    }
    find_all(alloc, &ports, scheme, node)?;
    Ok(ports)
}
