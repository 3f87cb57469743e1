//! The bells that wake the threads of a node, each when there is work for it.

use crate::bell::Bell;
use std::alloc::Global;
use std::sync::Wait;
use std::sync::atomic::{AtomicBool, Ordering};
use units::{NoMemory, Node};

/// The bell of the thread that sends to a peer, and whether it rings after the commit that is being made.
#[derive(Drop)]
struct PeerBell<B: Bell> {
    peer: Node,
    bell: B,
    is_due: AtomicBool,
}

/// The bells of a desk: one for the thread that commits, one for those that wait for a commit, and one for each peer,
/// at which the thread that sends to it waits. A node has at most 32 peers.
pub struct Bells<B: Bell> {
    work: B,
    commits: B,
    peers: Vec<PeerBell<B>>,
}

// Written out, since a derived destructor is proved anew in each crate that lets a value go.
impl<B: Bell> Drop for Bells<B> {
    fn drop(self) {
        let Bells {
            work,
            commits,
            peers,
        } = self;
        drop(work);
        drop(commits);
        drop(peers);
    }
}

impl<B: Bell> Bells<B> {
    /// Bells of a desk that sends to nobody. Takes no memory.
    pub fn new(alloc: Global) -> Bells<B> {
        Bells {
            work: B::new(),
            commits: B::new(),
            peers: Vec::new(alloc),
        }
    }

    /// Bells of a desk that sends to these peers; or `NoMemory`.
    pub fn with_peers(alloc: Global, peers: &[Node]) -> Result<Bells<B>, NoMemory> {
        let mut bells = Bells::new(alloc);
        for peer in peers {
            bells.peers.push(PeerBell {
                peer: *peer,
                bell: B::new(),
                is_due: AtomicBool::new(false),
            })?;
        }
        Ok(bells)
    }

    /// The bell for the thread that commits. It rings when a thread begins to wait for a commit, and when the desk
    /// stops.
    pub fn work(&self) -> &B {
        &self.work
    }

    /// The bell for the threads that wait for a commit. It rings after each commit, and when the desk stops.
    pub fn commits(&self) -> &B {
        &self.commits
    }

    /// The bell for the thread that sends to the peer. It rings after each commit of a record that sends a message to
    /// the peer, and when the desk stops. If the desk has no bell of that peer, this is the bell of all commits.
    pub fn of_peer(&self, peer: Node) -> &B {
        match self.peers.iter().find(|it| it.peer == peer) {
            Some(found) => &found.bell,
            None => &self.commits,
        }
    }

    /// A message to the peer is being committed: its bell rings with the next `ring_commit`.
    pub(crate) fn mark(&self, peer: Node) {
        if let Some(found) = self.peers.iter().find(|it| it.peer == peer) {
            found.is_due.store(true, Ordering::SeqCst);
        }
    }

    /// Rings for those that wait for a commit, and for the peers that were marked.
    pub(crate) fn ring_commit<R: Wait>(&self, rt: &R) {
        self.commits.ring(rt);
        for it in self.peers.as_slice() {
            if it.is_due.swap(false, Ordering::SeqCst) {
                it.bell.ring(rt);
            }
        }
    }

    /// Rings all bells, for instance when the desk has stopped.
    pub(crate) fn ring_all<R: Wait>(&self, rt: &R) {
        self.work.ring(rt);
        self.commits.ring(rt);
        for it in self.peers.as_slice() {
            it.bell.ring(rt);
        }
    }
}
