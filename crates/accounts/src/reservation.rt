//! The reservations of transactions.
ghost use Rattle.std.specs.BTreeMap as tree;
ghost use Rattle.std.specs.Prelude.{◌≡◌, ◌-◌, List, ◌∷◌, [], ◌++◌, length, take, None, OnOk, OnErr, if◌then◌else◌};
ghost use Rattle.units.specs.declared.block.Block.{Block};
ghost use Rattle.accounts.specs.declared.reservation.Share.{Share};
ghost use Rattle.accounts.specs.Reservations.{AreGiven};
ghost use Rattle.accounts.specs.Tables.{blocks_of, shares_of};
ghost use Rattle.status.specs.Id.{id_cmp, same_id};
ghost use Rattle.status.specs.declared.id.TransactionId.{TransactionId};

use status::TransactionId;
use std::alloc::Global;
use std::collections::BTreeMap;
use units::{Block, NoMemory};

/// A number of units of an account.
#[derive(Clone, Copy, Debug, PartialEq, Eq)]
pub(crate) struct Share {
    pub account: u64,
    pub count: u64,
}

/// The reservation of a transaction: blocks that share no unit, and the number of their units in each account.
#[derive(Debug)]
pub(crate) struct Reservation {
    pub blocks: Vec<Block>,
    pub shares: Vec<Share>,
}

// Written out, since a derived destructor is proved anew in each crate that lets a value go.
impl Drop for Reservation {
    fn drop(self) {
        let Reservation { blocks, shares } = self;
        drop(blocks);
        drop(shares);
    }
}

impl Reservation {
    /// Adds blocks and one share. After `NoMemory` nothing has changed.
    fn extend(&mut self, blocks: &[Block], share: Share) -> Result<(), NoMemory>
        ensures ok { OnOk result ((self.new.blocks.items ≡ self.old.blocks.items ++ blocks.now)
            × (self.new.shares.items ≡ self.old.shares.items ++ share ∷ [])) }
        ensures err { OnErr result ((self.new.blocks.items ≡ self.old.blocks.items)
            × (self.new.shares.items ≡ self.old.shares.items)) }
    {
        self.shares.reserve(1)?;
        self.blocks.extend_from_slice(blocks)?;
        self.shares.push_reserved(share);
        Ok(())
    }

    /// Removes the last `count` blocks and the last share.
    fn shorten(&mut self, count: usize)
        ensures blocks { self.new.blocks.items ≡ take (length self.old.blocks.items - count) self.old.blocks.items }
        ensures shares { self.new.shares.items ≡ take (length self.old.shares.items - 1) self.old.shares.items }
    {
        self.blocks
            .truncate(self.blocks.len().saturating_sub(count));
        self.shares.pop();
    }
}

/// Adds blocks and a share to the transaction's reservation, in its own lists. After `NoMemory` each reservation is as
/// it was.
pub(crate) fn extend(
    alloc: Global,
    reservations: &mut BTreeMap<TransactionId, Reservation>,
    id: TransactionId,
    blocks: &[Block],
    share: Share,
) -> Result<(), NoMemory>
    ensures ok { OnOk result (AreGiven id (blocks_of reservations.old id ++ blocks.now)
        (shares_of reservations.old id ++ share ∷ []) reservations.old reservations.new) }
    ensures err { OnErr result
        (AreGiven id (blocks_of reservations.old id)
        (shares_of reservations.old id) reservations.old reservations.new) }
{
    if let Some(reservation) = reservations.get_mut(&id) {
        return reservation.extend(blocks, share);
    }
    let mut reservation = Reservation {
        blocks: Vec::new(alloc),
        shares: Vec::new(alloc),
    };
    reservation.extend(blocks, share)?;
    reservations.insert(id, reservation)?;
    Ok(())
}

/// Removes the transaction's reservation, and returns it.
pub(crate) fn take(
    reservations: &mut BTreeMap<TransactionId, Reservation>,
    id: TransactionId,
) -> Option<Reservation>
    ensures was { result ≡ tree.get id_cmp reservations.old id }
    ensures left { (q : TransactionId)
        → tree.get id_cmp reservations.new q ≡ (if same_id id q then None else tree.get id_cmp reservations.old q) }
{
    reservations.remove(&id)
}

/// Removes the blocks and the share that `extend` added last. Takes no memory.
pub(crate) fn shorten(
    reservations: &mut BTreeMap<TransactionId, Reservation>,
    id: TransactionId,
    blocks: &[Block],
)
    ensures { (before : List Block) (earlier : List Share) (last : Share)
        → blocks_of reservations.old id ≡ before ++ blocks.now → shares_of reservations.old id ≡ earlier ++ last ∷ []
        → AreGiven id before earlier reservations.old reservations.new }
{
    if let Some(reservation) = reservations.get_mut(&id) {
        reservation.shorten(blocks.len());
    }
}
