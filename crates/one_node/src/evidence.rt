//! What bears out the results of an operator's lines: notes, and a replica of the node by which they are judged.
ghost use Rattle.std.specs.Prelude.{◌≡◌, [], IfOk, OnOk};
ghost use Rattle.one_node.specs.Operating.{Follows, IsCounted, empty_seat};
ghost use Rattle.world.specs.Cores.{journal_of, node_of, scheme_of};

use command_faults::OpFault;
use desk::{Seat, SharedNode, Unsettled};
use settling::Replica;
use std::alloc::Global;
use std::sync::Wait;
use units::Node;
use world::Core;

/// How many notes are kept before they are judged: some 2 MB. A node whose operator asks less never has its records in
/// memory twice, unless they are exported.
const MOST_NOTES: usize = 16_384;

/// How many records the replica follows at once. The node's lock is held while they are copied.
const PORTION: usize = 256;

/// Whether notes are being judged.
#[derive(Clone, Copy, Debug, PartialEq, Eq)]
enum Judging {
    /// There are few notes.
    Rests,
    /// There were many: the replica follows the node, until it bears out all notes.
    GoesOn,
}

/// The notes of an operator's results, and a replica of the node, which follows the node while its threads run. Notes
/// that the replica bears out are forgotten.
#[derive(Drop)]
pub(crate) struct Evidence {
    pub(crate) seat: Seat,
    pub(crate) replica: Replica<Core>,
    /// How many of the first notes the replica bears out.
    judged: usize,
    judging: Judging,
}

impl Evidence {
    /// No results, and a replica without records. The core has none.
    pub(crate) fn new(alloc: Global, core: Core) -> Evidence
        ensures seat { result.seat ≡ empty_seat }
        ensures replica { result.replica
            ≡ record { scheme = scheme_of core; node = node_of core; journal = journal_of core } }
        ensures judged { result.judged ≡ 0 }
    {
        Evidence {
            seat: Seat::new(alloc),
            replica: Replica::new(core),
            judged: 0,
            judging: Judging::Rests,
        }
    }

    /// The replica bears out that many of the first notes. If these are all, the seat forgets them.
    fn count_judged(&mut self, judged: usize)
        ensures replica { self.new.replica ≡ self.old.replica }
        ensures counted { IsCounted self.old.seat judged self.new.seat self.new.judged }
    {
        if self.seat.notes().len() == judged {
            self.seat.forget_notes();
            self.judged = 0;
        } else {
            self.judged = judged;
        }
    }

    /// Follows the node for a portion of its committed records, and forgets the notes once all of them are borne out.
    ///
    /// # Errors
    ///
    /// Fails with `Unsettled` if a note isn't borne out, and with `NoMemory` if memory ran out.
    fn follow<D: SharedNode, R: Wait>(
        &mut self,
        rt: &R,
        node: Node,
        desk: &D,
    ) -> Result<(), OpFault>
        ensures { OnOk result (Follows self.old self.new) }
    {
        let records = desk.committed_from(rt, self.replica.records().len(), PORTION)?;
        let notes = self.seat.notes();
        let first = self.judged.min(notes.len());
        match self.replica.follow(records.as_slice(), &notes[first..]) {
            Ok(count) => {
                let more = count.min(notes.len() - first);
                self.count_judged(first + more);
                Ok(())
            }
            Err(Unsettled::NoMemory) => Err(OpFault::NoMemory),
            Err(_) => Err(OpFault::Unsettled { node }),
        }
    }

    /// Follows the node if there are many notes, or were, and not all of those that are kept are borne out.
    ///
    /// # Errors
    ///
    /// Fails as `follow` does.
    pub(crate) fn keep_few<D: SharedNode, R: Wait>(
        &mut self,
        rt: &R,
        node: Node,
        desk: &D,
    ) -> Result<(), OpFault>
        ensures { OnOk result (Follows self.old self.new) }
    {
        let count = self.seat.notes().len();
        match self.judging {
            Judging::Rests if count < MOST_NOTES => Ok(()),
            Judging::GoesOn if count == 0 => {
                self.judging = Judging::Rests;
                Ok(())
            }
            _ => {
                self.judging = Judging::GoesOn;
                self.follow(rt, node, desk)
            }
        }
    }

    /// Follows the node until the replica has all records that are committed when this is called.
    ///
    /// # Errors
    ///
    /// Fails as `follow` does.
    pub(crate) fn catch_up<D: SharedNode, R: Wait>(
        &mut self,
        rt: &R,
        node: Node,
        desk: &D,
    ) -> Result<(), OpFault>
        ensures { OnOk result (Follows self.old self.new) }
    {
        let committed = desk.committed_count(rt);
        for _ in rt.forever() {
            if self.replica.records().len() >= committed {
                return Ok(());
            }
            self.follow(rt, node, desk)?;
        }
        unreachable!()
    }
}
