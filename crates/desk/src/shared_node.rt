//! A node that several threads share.
ghost use Rattle.std.specs.Prelude.{◌≡◌, max, IfOk, MatchResult};
ghost use Rattle.desk.specs.Desks.{IsQueryOf, IsTakeOf};
ghost use Rattle.node_state.specs.Expected.{stopped};
ghost use Rattle.node_state.specs.Telling.{kept};

use crate::at_desk::BATCH;
use crate::bell::RoomBell;
use crate::bells::Bells;
use crate::gate::{Gate, OpenGate};
use node_state::{Asked, Receipt, Seat, Taken};
use status::TransactionId;
use std::rt::Clock as SystemClock;
use std::sync::Wait;
use stores::StoreFault;
use units::{NoMemory, Node, Refusal};
use wire::{Input, Message};

/// A node's state and its store, as the threads that share them see them. A thread brings a seat of its own to each
/// call whose result it notes. Functions over this trait reach one type in place of those of a desk.
pub trait SharedNode {
    ghost use Rattle.std.specs.Prelude.{ℕ, List, Option, Result};
    ghost use Rattle.units.specs.declared.code.Node.{Node as ANode};
    ghost use Rattle.wire.specs.declared.input.Input.{Input as AnInput};
    ghost use Rattle.wire.specs.declared.message.Message.{Message as AMessage};
    ghost use Rattle.stores.specs.declared.fault.StoreFault.{StoreFault as AFault};

    /// Of some state and store of this run, a commit of at most that many records had that result.
    ghost is_commit: { ℕ → Result ℕ AFault → Type 0 };

    /// Some state and store of this run had this to send to the peer, from that key on: the first committed message
    /// that no record acknowledges, with its key; or nothing.
    ghost is_to_send: { ANode → ℕ → Option (ℕ × AMessage) → Type 0 };

    /// Some state and store of this run had committed records that send that many messages.
    ghost have_sent: { ℕ → Type 0 };

    /// Some state and store of this run had these as its committed records from that place on, or the first ones of
    /// these, at most that many.
    ghost are_committed: { ℕ → ℕ → List AnInput → Type 0 };

    /// Some state and store of this run had that many records committed.
    ghost are_stored: { ℕ → Type 0 };

    /// Has the state take an input, and returns the result. The seat has kept it. While it holds the lock, before the
    /// state is asked, it passes the gate. No bell rings: the thread that commits is woken by the threads that wait in
    /// `confirm`, and looks every `LONGEST_QUIET` seconds by itself.
    ///
    /// If memory runs out before the state is asked, this returns refusal `OUT_OF_MEMORY` with the length of the
    /// journal, and the seat keeps only the length.
    fn take_at<R: Wait, G: Gate>(&self, rt: &R, seat: &mut Seat, input: Input, gate: &G) -> Taken
        ensures asked { result.asked ≡ Asked.Take input }
        ensures told { IsTakeOf input result }
        ensures seat { seat.new ≡ kept seat.old result };

    /// As `take_at`, with a gate that lets every thread pass.
    fn take<R: Wait>(&self, rt: &R, seat: &mut Seat, input: Input) -> Taken
        ensures asked { result.asked ≡ Asked.Take input }
        ensures told { IsTakeOf input result }
        ensures seat { seat.new ≡ kept seat.old result }
    {
        self.take_at(rt, seat, input, &OpenGate)
    }

    /// Asks the state where a transaction stands, and returns the result. The seat has kept it.
    ///
    /// If memory runs out before the state is asked, this returns refusal `OUT_OF_MEMORY` with the length of the
    /// journal, and the seat keeps only the length.
    fn query<R: Wait>(&self, rt: &R, seat: &mut Seat, id: TransactionId) -> Taken
        ensures asked { result.asked ≡ Asked.Query id }
        ensures told { IsQueryOf id result }
        ensures seat { seat.new ≡ kept seat.old result };

    /// As `confirm`, for a thread that doesn't have the seat with which this was taken. The thread that has the seat
    /// passes the receipt to `Seat::confirm`.
    fn receipt<R: Wait + SystemClock>(&self, rt: &R, taken: Taken) -> Result<Receipt, Refusal>
        ensures { MatchResult result
            (λ receipt. (receipt ≡ taken) × are_stored taken.length)
            (λ refusal. refusal ≡ stopped) };

    /// Waits until all records are committed that the journal had when this was taken, and returns a receipt of it. The
    /// seat has kept that they are. If they aren't committed yet, the thread that commits is woken. This looks after
    /// each commit, and every `LONGEST_QUIET` seconds by itself.
    ///
    /// Fails with `NODE_STOPPED` if the state stopped before that commit. The seat is then as it was.
    fn confirm<R: Wait + SystemClock>(
        &self,
        rt: &R,
        seat: &mut Seat,
        taken: Taken,
    ) -> Result<Receipt, Refusal>
        ensures { MatchResult result
            (λ receipt. (receipt ≡ taken)
            × (seat.new ≡ record seat.old { confirmed = max seat.old.confirmed taken.length })
            × are_stored taken.length)
            (λ refusal. (refusal ≡ stopped) × (seat.new ≡ seat.old)) }
    {
        match self.receipt(rt, taken) {
            Ok(receipt) => {
                seat.confirm(&receipt);
                Ok(receipt)
            }
            Err(refusal) => Err(refusal),
        }
    }

    /// Appends the first records that aren't committed, at most `BATCH`, to the store, and returns how many: these are
    /// committed now. It holds the lock until the store has them. If there are none, or the state was stopped, it
    /// returns 0, and the store is as it was. Otherwise it wakes the threads that wait for a commit, and those that
    /// send to the receivers of the committed messages.
    ///
    /// Fails as `append` of the store does. Then the state has stopped.
    fn commit_next<R: Wait>(&self, rt: &R) -> Result<usize, StoreFault>
        ensures { is_commit BATCH result };

    /// The least key, from `from` on, of a message to `peer` that the committed records send and no record of the
    /// journal acknowledges, with a copy of the message; or `None` if there is no such message, or if the state was
    /// stopped. Fails with `NoMemory` if memory ran out.
    fn next_send<R: Wait>(
        &self,
        rt: &R,
        peer: Node,
        from: usize,
    ) -> Result<Option<(usize, Message)>, NoMemory>
        ensures { IfOk result (λ found. is_to_send peer from found) };

    /// How many messages the committed records send: the keys of all of them are below it. There may be more once this
    /// returns.
    fn committed_sends<R: Wait>(&self, rt: &R) -> usize
        ensures { have_sent result };

    /// Copies of the committed records from place `from` on, at most `most` of them, the oldest first; none if no more
    /// are committed. There may be more once this returns. Fails with `NoMemory` if memory ran out.
    fn committed_from<R: Wait>(
        &self,
        rt: &R,
        from: usize,
        most: usize,
    ) -> Result<Vec<Input>, NoMemory>
        ensures { IfOk result (λ copies. are_committed from most copies.items) };

    /// Whether the state runs: it wasn't stopped, and no commit of it failed.
    fn is_running<R: Wait>(&self, rt: &R) -> bool;

    /// How many records are committed. There may be more once this returns.
    fn committed_count<R: Wait>(&self, rt: &R) -> usize;

    /// The bells, for threads that wait until there is more to commit or to send: read a bell's number, look at the
    /// node, and wait for another number if there is nothing to do. Such a wait also ends after `LONGEST_QUIET`
    /// seconds, so look again after it.
    fn bells(&self) -> &Bells<RoomBell>;

    /// Stops the state, and rings all bells. Calls that wait in `confirm` for a commit fail then.
    fn stop<R: Wait>(&self, rt: &R);
}
