//! What a desk reads of its state while it holds the lock. The clauses of these functions hold for some state, so that
//! the clauses of the desk's functions, which can't name the state, follow from them.
ghost use Rattle.std.specs.Prelude.{◌≡◌, false};
ghost use Rattle.desk.specs.Desks.{IsOf, IsConfirmation, IsQueryOf};

use crate::confirmation::Confirmation;
use node_state::{Asked, State, Taken};
use protocol::NodeCore;
use status::TransactionId;

/// As `query` of the state.
pub(crate) fn query_some<C: NodeCore>(state: &State<C>, id: TransactionId) -> Taken
    ensures asked { result.asked ≡ Asked.Query id }
    ensures told { IsQueryOf id result }
{
    state.query(id)
}

/// Whether the records that the journal had when this was taken are committed.
pub(crate) fn confirmation_of<C: NodeCore>(state: &State<C>, taken: Taken) -> Confirmation
    ensures same { IsOf taken result }
    ensures confirmation { IsConfirmation state.now taken.length result }
{
    match state.receipt(taken) {
        Ok(receipt) => Confirmation::Committed(receipt),
        Err(back) => {
            if state.is_running() {
                Confirmation::Awaited(back)
            } else {
                drop(back);
                Confirmation::Stopped
            }
        }
    }
}
