//! The desk of a loaded node.
ghost use Rattle.desk.specs.Keeping.{MayOpen};

use desk::stores::NodeStore;
use desk::{Bells, Desk, Opening, RoomBell, Stored};
use std::alloc::Global;
use units::{NoMemory, Node};
use world::Core;

/// A desk of the node's state that has a bell for each of these peers.
///
/// # Errors
///
/// Fails with `NoMemory` if memory ran out. The store is closed then.
pub fn desk_of<O: Opening, S: NodeStore + Drop>(
    alloc: Global,
    peers: &[Node],
    loaded: Stored<Core, S>,
) -> Result<Desk<O, Core, S, RoomBell>, NoMemory>
    requires { MayOpen S.NodeStore O.opened loaded }
{
    match Bells::with_peers(alloc, peers) {
        Ok(bells) => Ok(Desk::new(loaded, bells)),
        Err(NoMemory) => {
            drop(loaded);
            Err(NoMemory)
        }
    }
}
