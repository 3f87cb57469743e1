//! The interface of a node's store.
ghost use Rattle.std.specs.Prelude.{◌≡◌, ◌≤◌, ℕ, Bool, false, OnOk, take, drop};
ghost use Rattle.stores.specs.Calls.{Appends, Loads, Reopens};
ghost use Rattle.stores.specs.Faults.{faults_after};
ghost use Rattle.units.specs.declared.code.Node.{Node};
ghost use Rattle.stores.specs.Records.{Places, page_size};

use crate::fault::StoreFault;
use wire::Input;

/// The greatest number of records that are read at once: a page.
pub const PAGE: u64 = 256;

/// A node's records. They only grow, and a crash leaves them as they were before an append or after it.
///
/// After a fault of `append`, or a fault `Device` or `Full` of `load` or `load_page`, every call returns `Reopen` until
/// `reopen` succeeds. The reopening settles the content.
pub trait NodeStore {
    /// Nobody else wrote the store, and the device returned what was written. It may stop being honest at any call.
    ghost is_honest: { Self → Type 0 };

    /// The text at each place, while the store runs.
    ghost content: { Self → Places };

    /// The contents that a crash at this moment, or a reopening, may find.
    ghost may_hold: { Self → Places → Type 0 };

    /// A fault stopped it, and it must be reopened first.
    ghost must_reopen: { Self → Bool };

    /// What `fault_count` returns.
    ghost faults: { Self → ℕ };

    /// The node whose records they are.
    ghost whose: { Self → Node };

    /// What it keeps names that node as its owner.
    ghost is_own: { Self → Type 0 };

    /// Appends the whole batch, or nothing of it. An empty batch changes nothing.
    ///
    /// Fails with `Device` or `Full` where the device failed or has no room: the batch is there as a whole or not at
    /// all, and a reopening settles which. Fails with `NoMemory` for lack of memory: the content is as it was. After
    /// each of these the store must be opened again. Fails with `Reopen`, and changes nothing, where it already had to
    /// be opened again.
    fn append(&mut self, batch: &[Input]) -> Result<(), StoreFault>
        ensures appends { Appends is_honest content may_hold must_reopen self.old self.new batch.now result }
        ensures count { faults self.new ≡ faults_after (faults self.old) result }
        ensures whose { whose self.new ≡ whose self.old }
        ensures own { is_honest self.new → must_reopen self.new ≡ false → is_own self.old → is_own self.new };

    /// All records in their order.
    ///
    /// Fails with `Damaged(p)`, where `p` is the first place that is missing while a later one is there, or that has a
    /// text of no record, and with `NoMemory` for lack of memory: the store goes on as it was. Fails with `Device` or
    /// `Full` where the device failed: the store must be opened again, and a reopening finds the same content. Fails
    /// with `Reopen`, and changes nothing, where it already had to be opened again.
    fn load(&mut self) -> Result<Vec<Input>, StoreFault>
        ensures loads { Loads is_honest content may_hold must_reopen self.old self.new 0 (content self.old) result }
        ensures count { faults self.new ≡ faults_after (faults self.old) result }
        ensures whose { whose self.new ≡ whose self.old }
        ensures own { is_honest self.new → must_reopen self.new ≡ false → is_own self.old → is_own self.new };

    /// The records from place `from` on, at most `max`. Fails as `load` does, but only for the places that it reads.
    fn load_page(&mut self, from: u64, max: u64) -> Result<Vec<Input>, StoreFault>
        requires some { 1 ≤ max }
        requires few { max ≤ page_size }
        ensures loads { Loads is_honest content may_hold must_reopen self.old self.new from
            (take max (drop from (content self.old))) result }
        ensures count { faults self.new ≡ faults_after (faults self.old) result }
        ensures whose { whose self.new ≡ whose self.old }
        ensures own { is_honest self.new → must_reopen self.new ≡ false → is_own self.old → is_own self.new };

    /// Opens the store again, whether or not it must be. After `Ok` the content is one that it could hold before. After
    /// an error, which is never `Reopen`, it must still be opened again. After `WrongNode`, `WrongVersion`, and
    /// `Damaged(p)` where `p` isn't 0, the next reopening finds a content that it could have found before. After the
    /// other errors nothing is promised about it.
    fn reopen(&mut self) -> Result<(), StoreFault>
        ensures reopens { Reopens is_honest content may_hold must_reopen self.old self.new result }
        ensures count { faults self.new ≡ faults_after (faults self.old) result }
        ensures whose { whose self.new ≡ whose self.old }
        ensures own { is_honest self.new → OnOk result (is_own self.new) };

    /// A counter: each call that fails with `Device` or `Full` raises it by one, and no other call changes it; 0
    /// follows the greatest number. Its first value isn't specified.
    fn fault_count(&self) -> u64
        ensures { result ≡ faults self.now };
}
