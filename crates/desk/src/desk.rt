//! A node's state with its store, shared by several threads.
ghost use Rattle.std.specs.Prelude.{◌≡◌, Some, MatchResult};
ghost use Rattle.desk.specs.Desks.{IsOf, IsQueryOf, IsTakeOf, lacking};
ghost use Rattle.node_state.specs.Expected.{stopped};
ghost use Rattle.desk.specs.Keeping.{AreStored, IsAtDesk, IsCommit, IsKept, IsConfirmationOfRun, MayOpen};
ghost use Rattle.node_state.specs.Telling.{kept};

use crate::at_desk::{AtDesk, BATCH};
use crate::bell::{Bell, RoomBell};
use crate::bells::Bells;
use crate::confirmation::Confirmation;
use crate::gate::{Gate, OpenGate, Spot};
use crate::locked::query_some;
use crate::opening::Opening;
use crate::shared_node::SharedNode;
use crate::stored::Stored;
use node_state::{Asked, Receipt, Seat, State, Taken};
use protocol::NodeCore;
use status::TransactionId;
use std::rt::Clock as SystemClock;
use std::sync::{Mutex, Wait};
use stores::{NodeStore, StoreFault};
use units::refusal_code::NODE_STOPPED;
use units::{NoMemory, Node, Refusal};
use wire::{Input, Message};

/// The remains of a desk: the state with its store, and the fault that stopped the store, if one did.
#[derive(Drop)]
pub struct Ended<C: NodeCore, S: NodeStore> {
    pub stored: Stored<C, S>,
    pub fault: Option<StoreFault>,
}

/// A node's state and its store under a lock, and bells that ring when a thread waits for a commit, when the state has
/// committed records, and when it has stopped. A thread brings a seat of its own to each call whose result it notes.
pub struct Desk<O: Opening, C: NodeCore, S: NodeStore, B: Bell> {
    locked: Mutex<AtDesk<O, C, S>>,
    bells: Bells<B>,
}

// Written out, since a derived destructor is proved anew in each crate that lets a value go.
impl<O: Opening, C: NodeCore, S: NodeStore + Drop, B: Bell> Drop for Desk<O, C, S, B> {
    fn drop(self) {
        let Desk { locked, bells } = self;
        drop(locked);
        drop(bells);
    }
}

impl<O: Opening, C: NodeCore, S: NodeStore, B: Bell> Desk<O, C, S, B> {
    /// A desk with this state, which runs, and its store.
    pub fn new(stored: Stored<C, S>, bells: Bells<B>) -> Desk<O, C, S, B>
        requires { MayOpen S.NodeStore O.opened stored }
    {
        Desk {
            locked: Mutex::new(AtDesk::new(stored)),
            bells,
        }
    }

    /// As `take_at`, once the seat has made room.
    fn take_prepared<R: Wait, G: Gate>(
        &self,
        rt: &R,
        seat: &mut Seat,
        input: Input,
        gate: &G,
    ) -> Taken
        requires { seat.old.prepared ≡ Some (Asked.Take input) }
        ensures asked { result.asked ≡ Asked.Take input }
        ensures told { IsTakeOf input result }
        ensures seat { seat.new ≡ kept seat.old result }
    {
        let taken = self.take_locked(rt, input, gate);
        seat.keep(&taken);
        taken
    }

    fn take_locked<R: Wait, G: Gate>(&self, rt: &R, input: Input, gate: &G) -> Taken
        ensures asked { result.asked ≡ Asked.Take input }
        ensures told { IsTakeOf input result }
    {
        let mut locked = self.locked.lock(rt);
        gate.pass(Spot::Locked(locked.state().node()));
        locked.take(input)
    }

    /// Returns refusal `OUT_OF_MEMORY` for a question for which a seat had no room.
    fn refuse<R: Wait, G: Gate>(&self, rt: &R, seat: &mut Seat, asked: Asked, gate: &G) -> Taken
        ensures asked { result.asked ≡ asked }
        ensures told { result.told ≡ lacking }
        ensures seat { seat.new ≡ kept seat.old result }
    {
        let taken = self.refuse_locked(rt, asked, gate);
        seat.keep_length(&taken);
        taken
    }

    fn refuse_locked<R: Wait, G: Gate>(&self, rt: &R, asked: Asked, gate: &G) -> Taken
        ensures asked { result.asked ≡ asked }
        ensures told { result.told ≡ lacking }
    {
        let locked = self.locked.lock(rt);
        gate.pass(Spot::Locked(locked.state().node()));
        locked.state().refuse_for_memory(asked)
    }

    /// As `query`, once the seat has made room.
    fn query_prepared<R: Wait>(&self, rt: &R, seat: &mut Seat, id: TransactionId) -> Taken
        requires { seat.old.prepared ≡ Some (Asked.Query id) }
        ensures asked { result.asked ≡ Asked.Query id }
        ensures told { IsQueryOf id result }
        ensures seat { seat.new ≡ kept seat.old result }
    {
        let taken = self.query_locked(rt, id);
        seat.keep(&taken);
        taken
    }

    fn query_locked<R: Wait>(&self, rt: &R, id: TransactionId) -> Taken
        ensures asked { result.asked ≡ Asked.Query id }
        ensures told { IsQueryOf id result }
    {
        query_some(self.locked.lock(rt).state(), id)
    }

    /// As `receipt`, once the thread that commits is woken.
    fn wait_for_commit<R: Wait + SystemClock>(
        &self,
        rt: &R,
        taken: Taken,
    ) -> Result<Receipt, Refusal>
        ensures { MatchResult result
            (λ receipt. (receipt ≡ taken) × AreStored S.NodeStore O.opened taken.length)
            (λ refusal. refusal ≡ stopped) }
    {
        let mut awaited = taken;
        for _ in rt.forever() {
            // Read before the state is asked, so that no ring between the two is missed.
            let rings = self.bells.commits().rings(rt);
            match self.confirmation_locked(rt, awaited) {
                Confirmation::Committed(receipt) => return Ok(receipt),
                Confirmation::Stopped => return Err(Refusal { code: NODE_STOPPED }),
                Confirmation::Awaited(back) => awaited = back,
            }
            self.bells.commits().wait(rt, rings);
        }
        unreachable!()
    }

    fn confirmation_locked<R: Wait>(&self, rt: &R, taken: Taken) -> Confirmation
        ensures same { IsOf taken result }
        ensures confirmation { IsConfirmationOfRun S.NodeStore O.opened taken.length result }
    {
        self.locked.lock(rt).confirmation_of(taken)
    }

    fn commit_locked<R: Wait>(&self, rt: &R) -> Result<usize, StoreFault>
        ensures { IsCommit S.NodeStore O.opened BATCH result }
    {
        let mut locked = self.locked.lock(rt);
        let first = locked.state().committed_sends();
        let committed = locked.commit();
        self.mark_receivers(locked.state(), first);
        committed
    }

    /// Marks the bells of the receivers of all committed messages from that key on.
    fn mark_receivers(&self, state: &State<C>, first: usize) {
        for key in first..state.committed_sends() {
            if let Some(message) = state.committed_message(key) {
                self.bells.mark(message.to);
            }
        }
    }

    /// The state with its store, and the fault that stopped the store, if one did, once no thread shares the desk.
    pub fn end(self) -> Ended<C, S>
        ensures keeps { IsKept S.NodeStore result.stored }
        ensures at { IsAtDesk S.NodeStore O.opened result.stored result.fault }
    {
        let Desk { locked, bells: _ } = self;
        let (stored, fault) = locked.into_inner().into_parts();
        Ended { stored, fault }
    }
}

impl<O: Opening, C: NodeCore, S: NodeStore> SharedNode for Desk<O, C, S, RoomBell> {
    ghost use Rattle.desk.specs.Keeping.{AreCommitted, AreStored, HaveSent, IsCommit, IsToSend};

    ghost is_commit = { IsCommit S.NodeStore O.opened };

    ghost is_to_send = { IsToSend S.NodeStore O.opened };

    ghost have_sent = { HaveSent S.NodeStore O.opened };

    ghost are_committed = { AreCommitted S.NodeStore O.opened };

    ghost are_stored = { AreStored S.NodeStore O.opened };

    fn take_at<R: Wait, G: Gate>(&self, rt: &R, seat: &mut Seat, input: Input, gate: &G) -> Taken {
        match seat.prepare_input(&input) {
            Ok(()) => self.take_prepared(rt, seat, input, gate),
            Err(_) => self.refuse(rt, seat, Asked::Take(input), gate),
        }
    }

    fn query<R: Wait>(&self, rt: &R, seat: &mut Seat, id: TransactionId) -> Taken {
        match seat.prepare_query(id) {
            Ok(()) => self.query_prepared(rt, seat, id),
            Err(_) => self.refuse(rt, seat, Asked::Query(id), &OpenGate),
        }
    }

    fn receipt<R: Wait + SystemClock>(&self, rt: &R, taken: Taken) -> Result<Receipt, Refusal> {
        match self.confirmation_locked(rt, taken) {
            Confirmation::Committed(receipt) => Ok(receipt),
            Confirmation::Stopped => Err(Refusal { code: NODE_STOPPED }),
            Confirmation::Awaited(back) => {
                self.bells.work().ring(rt);
                self.wait_for_commit(rt, back)
            }
        }
    }

    fn commit_next<R: Wait>(&self, rt: &R) -> Result<usize, StoreFault> {
        let committed = self.commit_locked(rt);
        match committed {
            Ok(0) => {}
            Ok(_) => self.bells.ring_commit(rt),
            Err(_) => self.bells.ring_all(rt),
        }
        committed
    }

    fn next_send<R: Wait>(
        &self,
        rt: &R,
        peer: Node,
        from: usize,
    ) -> Result<Option<(usize, Message)>, NoMemory> {
        self.locked.lock(rt).next_send(peer, from)
    }

    fn committed_sends<R: Wait>(&self, rt: &R) -> usize {
        self.locked.lock(rt).committed_sends()
    }

    fn committed_from<R: Wait>(
        &self,
        rt: &R,
        from: usize,
        most: usize,
    ) -> Result<Vec<Input>, NoMemory> {
        self.locked.lock(rt).committed_from(from, most)
    }

    fn is_running<R: Wait>(&self, rt: &R) -> bool {
        self.locked.lock(rt).state().is_running()
    }

    fn committed_count<R: Wait>(&self, rt: &R) -> usize {
        self.locked.lock(rt).state().committed_count()
    }

    fn bells(&self) -> &Bells<RoomBell> {
        &self.bells
    }

    fn stop<R: Wait>(&self, rt: &R) {
        self.locked.lock(rt).stop();
        self.bells.ring_all(rt);
    }
}
