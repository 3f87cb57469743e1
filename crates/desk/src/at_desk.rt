//! What lies under a desk's lock. The clauses of these functions hold for some state, so that the clauses of the desk's
//! functions, which can't name the state, follow from them.
ghost use Rattle.std.specs.Prelude.{◌≡◌, IfOk};
ghost use Rattle.desk.specs.Desks.{IsOf, IsTakeOf};
ghost use Rattle.desk.specs.Keeping.{AreCommitted, HaveSent, IsAtDesk, IsCommit, IsKept, IsConfirmationOfRun, IsToSend, MayOpen, fault_after};

use crate::confirmation::Confirmation;
use crate::locked::confirmation_of;
use crate::opening::Opening;
use crate::stored::Stored;
use node_state::{Asked, State, Taken};
use protocol::NodeCore;
use std::marker::{Model, PhantomData};
use stores::{NodeStore, StoreFault};
use units::{NoMemory, Node};
use wire::{Input, Message};

/// How many records one commit of a desk appends at most.
pub const BATCH: usize = 64;

/// The fault that ended the commits, if one did.
fn fault_after(
    fault: Option<StoreFault>,
    committed: Result<usize, StoreFault>,
) -> Option<StoreFault>
    ensures { result ≡ fault_after fault committed }
{
    match committed {
        Ok(_) => fault,
        Err(told) => Some(told),
    }
}

/// A state with its store, of a run of which `O` is known, and the fault that stopped the store, if one did.
pub(crate) struct AtDesk<O: Opening, C: NodeCore, S: NodeStore> {
    stored: Stored<C, S>,
    fault: Option<StoreFault>,
    run: PhantomData<O>,
}

// Written out, since a derived destructor is proved anew in each crate that lets a value go.
impl<O: Opening, C: NodeCore, S: NodeStore + Drop> Drop for AtDesk<O, C, S> {
    fn drop(self) {
        let AtDesk {
            stored,
            fault: _,
            run: _,
        } = self;
        drop(stored);
    }
}

impl<O: Opening, C: NodeCore, S: NodeStore> Model for AtDesk<O, C, S> {
    ghost use Rattle.std.specs.Coded.{codes};
    ghost use Rattle.scheme.specs.contracts.registries.Scheme as kept_scheme;
    ghost use Rattle.desk.specs.Keeping.{AreCommitted, HaveSent, IsAtDesk, StoredView};

    ghost Value = { StoredView S };

    ghost coded = { Prim.hlevel (codes, kept_scheme.the_row.coded, S.code) };

    ghost view = { λ d. d.stored };

    ghost invariant = { λ d. IsAtDesk S.NodeStore O.opened d.stored d.fault };
}

impl<O: Opening, C: NodeCore, S: NodeStore> AtDesk<O, C, S> {
    /// A state that runs, with its store.
    pub(crate) fn new(stored: Stored<C, S>) -> AtDesk<O, C, S>
        requires { MayOpen S.NodeStore O.opened stored }
        ensures { result ≡ stored }
    {
        // Its clause says that the store runs too.
        let _state = stored.state();
        AtDesk {
            stored,
            fault: None,
            run: PhantomData,
        }
    }

    /// The state.
    pub(crate) fn state(&self) -> &State<C>
        ensures { result.now ≡ self.now.state }
    {
        self.stored.state()
    }

    /// As `take` of the state.
    pub(crate) fn take(&mut self, input: Input) -> Taken
        ensures asked { result.asked ≡ Asked.Take input }
        ensures told { IsTakeOf input result }
    {
        self.stored.take(input)
    }

    /// As `commit` of the state to its store, of at most `BATCH` records.
    pub(crate) fn commit(&mut self) -> Result<usize, StoreFault>
        ensures { IsCommit S.NodeStore O.opened BATCH result }
    {
        let committed = self.stored.commit(BATCH);
        self.fault = fault_after(self.fault, committed);
        committed
    }

    /// A copy of the message that `next_send` of the state returns, with its key; or `NoMemory`.
    pub(crate) fn next_send(
        &self,
        peer: Node,
        from: usize,
    ) -> Result<Option<(usize, Message)>, NoMemory>
        ensures { IfOk result (λ found. IsToSend S.NodeStore O.opened peer from found) }
    {
        match self.stored.state().next_send(peer, from) {
            Some((key, message)) => Ok(Some((key, message.copy()?))),
            None => Ok(None),
        }
    }

    /// As `committed_sends` of the state.
    pub(crate) fn committed_sends(&self) -> usize
        ensures { HaveSent S.NodeStore O.opened result }
    {
        self.stored.state().committed_sends()
    }

    /// As `committed_from` of the state.
    pub(crate) fn committed_from(&self, from: usize, most: usize) -> Result<Vec<Input>, NoMemory>
        ensures { IfOk result (λ records. AreCommitted S.NodeStore O.opened from most records.items) }
    {
        self.stored.state().committed_from(from, most)
    }

    /// As `confirmation_of` of the state.
    pub(crate) fn confirmation_of(&self, taken: Taken) -> Confirmation
        ensures same { IsOf taken result }
        ensures confirmation { IsConfirmationOfRun S.NodeStore O.opened taken.length result }
    {
        confirmation_of(self.stored.state(), taken)
    }

    /// As `stop` of the state.
    pub(crate) fn stop(&mut self) {
        self.stored.stop();
    }

    /// The state with its store, and the fault that stopped the store, if one did.
    pub(crate) fn into_parts(self) -> (Stored<C, S>, Option<StoreFault>)
        ensures stored { result.0 ≡ self }
        ensures keeps { IsKept S.NodeStore result.0 }
        ensures at { IsAtDesk S.NodeStore O.opened result.0 result.1 }
    {
        let AtDesk {
            stored,
            fault,
            run: _,
        } = self;
        (stored, fault)
    }
}
