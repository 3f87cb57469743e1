//! The end of a node's desk.
ghost use Rattle.std.specs.Prelude.{◌≡◌, IfErr, IfOk};
ghost use Rattle.serving.specs.Ends.{EndsWell, IsLateFault};

use command_faults::{OpFault, store_fault};
use desk::stores::NodeStore;
use desk::{Desk, Ended, Opening, RoomBell, Stored};
use protocol::NodeCore;
use units::Node;
use world::Core;

/// The state with its store that the desk of that node leaves. No thread shares the desk any more.
///
/// # Errors
///
/// Fails with the fault that stopped the store, if one did, and with `Unsettled` if the desk is another node's. The
/// store is closed then.
pub fn end_desk<O: Opening, S: NodeStore + Drop>(
    node: Node,
    desk: Desk<O, Core, S, RoomBell>,
) -> Result<Stored<Core, S>, OpFault>
    ensures well { IfOk result (EndsWell S.NodeStore O.opened) }
    ensures node { IfOk result (λ s. s.state.node ≡ node) }
    ensures err { (scheme : _) → IfErr result (IsLateFault S.NodeStore O.opened scheme) }
{
    let Ended { stored, fault } = desk.end();
    if stored.state().node() != node {
        drop(stored);
        return Err(OpFault::Unsettled { node });
    }
    match fault {
        None => Ok(stored),
        Some(fault) => {
            drop(stored);
            Err(store_fault(node, fault))
        }
    }
}
