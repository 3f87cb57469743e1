//! The remains of a run at each node.
ghost use Rattle.std.specs.Prelude.{◌≡◌, ◌++◌, ◌∷◌, [], All, Some, length, vec_len, IfErr, IfOk, IfSome, OnOk};
ghost use Rattle.node_state.specs.Views.{SeatView};
ghost use Rattle.protocol.specs.Registries.{nodes};
ghost use Rattle.sessions.specs.Orders.{AreAll, HasOnly};
ghost use Rattle.ended_nodes.specs.Ended.{seats_in, stored_in};
ghost use Rattle.run.specs.Gathered.{AreGathered, IsGathered};
ghost use Rattle.serving.specs.Ends.{EndsWell, HaveEnded, IsLateFault};

use crate::taking::Taking;
use crate::wiring::NodeDesk;
use command_faults::OpFault;
use desk::stores::NodeStore;
use desk::{Opening, Seat};
use ended_nodes::EndedNode;
use serving::end_desk;
use std::alloc::Global;
use units::{NoMemory, Node};

/// The notes of a node's threads: a seat for each thread, or `NoMemory` if memory ran out for them.
pub(crate) type ThreadSeats = Result<Vec<Seat>, NoMemory>;

/// The seats of a node's threads, and the script's seat at the node after them. Fails with `NoMemory` if memory ran
/// out, also for the threads.
fn all_seats<T: Taking>(
    threads: Option<ThreadSeats>,
    script: Option<Seat>,
) -> Result<Vec<Seat>, NoMemory>
    requires { IfSome threads (λ ended. IfOk ended (λ seats. All (HasOnly T.takes) seats.items)) }
    ensures { IfOk result (λ all. (seat : SeatView) × (script ≡ Some seat) × IsGathered T.takes all.items seat) }
{
    let Some(Ok(mut seats)) = threads else {
        return Err(NoMemory);
    };
    let Some(seat) = script else {
        return Err(NoMemory);
    };
    seats.reserve(1)?;
    seats.push_reserved(seat);
    Ok(seats)
}

/// The remains of the node at that desk. Fails as `end_desk` and `all_seats` do.
fn end_node<K: Opening + Taking, S: NodeStore + Drop>(
    node: Node,
    desk: NodeDesk<K, S>,
    threads: Option<ThreadSeats>,
    script: Option<Seat>,
) -> Result<EndedNode<S>, OpFault>
    requires { IfSome threads (λ ended. IfOk ended (λ seats. All (HasOnly K.takes) seats.items)) }
    ensures well { IfOk result (λ e. EndsWell S.NodeStore K.opened e.stored) }
    ensures node { IfOk result (λ e. e.stored.state.node ≡ node) }
    ensures seats { IfOk result
        (λ e. (seat : SeatView) × (script ≡ Some seat) × IsGathered K.takes e.seats.items seat) }
    ensures err { (scheme : _) → IfErr result (IsLateFault S.NodeStore K.opened scheme) }
{
    let seats = all_seats::<K>(threads, script);
    match end_desk(node, desk) {
        Ok(stored) => match seats {
            Ok(seats) => Ok(EndedNode { stored, seats }),
            Err(NoMemory) => {
                drop(stored);
                Err(OpFault::NoMemory)
            }
        },
        Err(fault) => {
            drop(seats);
            Err(fault)
        }
    }
}

/// Adds a node.
fn push<S: NodeStore + Drop>(
    nodes: &mut Vec<EndedNode<S>>,
    node: EndedNode<S>,
) -> Result<(), NoMemory>
    ensures { OnOk result (nodes.new.items ≡ nodes.old.items ++ node ∷ []) }
{
    nodes.push(node)?;
    Ok(())
}

/// The remains of these nodes at these desks, which no thread shares any more, with the seats of each node's threads and
/// then that of the script, in the order of the desks. Fails with the fault of the first node that has one, and with
/// `NoMemory` if memory ran out, also for the threads of a node.
pub(crate) fn end_all<K: Opening + Taking, S: NodeStore + Drop>(
    alloc: Global,
    names: &[Node],
    desks: Vec<NodeDesk<K, S>>,
    threads: Vec<ThreadSeats>,
    script: Vec<Seat>,
) -> Result<Vec<EndedNode<S>>, OpFault>
    requires desks { vec_len desks ≡ length names.now }
    requires threads { AreAll (HasOnly K.takes) threads.items }
    requires script { vec_len script ≡ length names.now }
    ensures ended { (scheme : _) → names.now ≡ nodes scheme
        → IfOk result (λ v. HaveEnded S.NodeStore K.opened scheme (stored_in v.items)) }
    ensures seats { IfOk result (λ v. AreGathered K.takes script.items (seats_in v.items)) }
    ensures err { (scheme : _) → IfErr result (IsLateFault S.NodeStore K.opened scheme) }
{
    let mut ended = Vec::new(alloc);
    let mut threads = threads.into_iter();
    let mut script = script.into_iter();
    for desk in desks {
        let node = names[ended.len()];
        match end_node::<K, S>(node, desk, threads.next(), script.next()) {
            Ok(node) => push(&mut ended, node)?,
            Err(fault) => return Err(fault),
        }
    }
    Ok(ended)
}
