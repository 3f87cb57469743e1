//! Loading a state from a store.
ghost use Rattle.std.specs.Prelude.{◌≡◌, ◌<◌, ◌^◌, [], false, true, length, take, drop, IfOk, Ok};
ghost use Rattle.stores.specs.Calls.{Loads};
ghost use Rattle.stores.specs.Faults.{faults_after};
ghost use Rattle.protocol.specs.Cores.{Replays};
ghost use Rattle.stores.specs.Records.{page_size};
ghost use Rattle.node_state.specs.Loading.{IsLoaded, IsReadOn, IsReadTo, damage_of, journal_in};
ghost use Rattle.node_state.specs.Views.{opened_with};

use crate::state::State;
use protocol::{NodeCore, ReplayFault, resume};
use std::alloc::Global;
use stores::{NodeStore, PAGE, StoreFault};
use wire::Input;

/// Whether a page that was read is the last.
#[derive(Clone, Copy, PartialEq)]
pub enum Page {
    /// It has `PAGE` records: more may come after it.
    Full,
    /// It has fewer: none comes after it.
    Last,
}

/// The records of the store from that place on, at most `PAGE`.
fn next_page<S: NodeStore>(store: &mut S, from: u64) -> Result<Vec<Input>, StoreFault>
    ensures loads { Loads S.is_honest S.content S.may_hold S.must_reopen store.old store.new from
        (take page_size (drop from (S.content store.old))) result }
    ensures faults { S.faults store.new ≡ faults_after (S.faults store.old) result }
    ensures whose { S.whose store.new ≡ S.whose store.old }
    ensures own { S.is_honest store.new → S.must_reopen store.new ≡ false → S.is_own store.old → S.is_own store.new }
    ensures honest { S.is_honest store.new → S.is_honest store.old }
    ensures runs { S.must_reopen store.new ≡ false → S.must_reopen store.old ≡ false }
{
    store.load_page(from, PAGE)
}

/// Why records of a store are no journal, as a fault of that store.
fn damage_of(fault: ReplayFault) -> StoreFault
    ensures { result ≡ damage_of fault }
{
    match fault {
        ReplayFault::NotRecorded(place) => StoreFault::Damaged(place as u64),
        ReplayFault::NoMemory => StoreFault::NoMemory,
    }
}

/// Takes the next records of the store into the core, at most a page.
fn read_on<C: NodeCore, S: NodeStore>(core: &mut C, store: &mut S) -> Result<Page, StoreFault>
    ensures scheme { C.scheme_of core.new ≡ C.scheme_of core.old }
    ensures node { C.node_of core.new ≡ C.node_of core.old }
    ensures read { (first : S) → IsReadTo S.NodeStore first store.old (C.journal_of core.old)
        → IsReadOn S.NodeStore (C.scheme_of core.old) (C.node_of core.old) first store.new
        (C.journal_of core.new) result }
    ensures grows { result ≡ Ok Page.Full → (length (C.journal_of core.old) < length (C.journal_of core.new))
        × (length (C.journal_of core.old) < 2 ^ 64) }
    ensures faults { S.faults store.new ≡ faults_after (S.faults store.old) result }
    ensures whose { S.whose store.new ≡ S.whose store.old }
    ensures own { S.is_honest store.new → S.must_reopen store.new ≡ false → S.is_own store.old → S.is_own store.new }
    ensures honest { S.is_honest store.new → S.is_honest store.old }
    ensures runs { S.must_reopen store.new ≡ false → S.must_reopen store.old ≡ false }
{
    let page = next_page(store, core.journal().len() as u64)?;
    let inputs = page.as_slice();
    match resume(core, inputs) {
        Ok(()) => {
            if inputs.len() < PAGE as usize {
                drop(page);
                return Ok(Page::Last);
            }
            drop(page);
            Ok(Page::Full)
        }
        Err(fault) => {
            drop(page);
            Err(damage_of(fault))
        }
    }
}

impl<C: NodeCore> State<C> {
    /// A state that runs and whose journal is the records of the store: the core takes all of them, a page at a time,
    /// and all are committed.
    ///
    /// Fails as `load_page` of the store does, also with `Damaged(p)` if the record at place p is the first that the
    /// core doesn't record after those before it, and with `NoMemory`. If places of several pages are damaged, the
    /// fault names one in the first of these pages: the first place without a record or, if each place has one, the
    /// first whose record isn't recorded. The store is then as `load_page` leaves it.
    pub fn load_from<S: NodeStore>(
        alloc: Global,
        mut core: C,
        store: &mut S,
    ) -> Result<State<C>, StoreFault>
        requires { C.journal_of core ≡ [] }
        ensures state { IfOk result (λ s. s ≡ opened_with (C.scheme_of core) (C.node_of core) s.journal) }
        ensures replays { IfOk result (λ s. Replays s.scheme s.node s.journal) }
        ensures loaded { IsLoaded S.NodeStore (C.scheme_of core) (C.node_of core) store.old store.new
            (journal_in result) }
        ensures faults { S.faults store.new ≡ faults_after (S.faults store.old) result }
        ensures whose { S.whose store.new ≡ S.whose store.old }
        ensures own { S.is_honest store.new → S.must_reopen store.new ≡ false → S.is_own store.old
            → S.is_own store.new }
    {
        while read_on(&mut core, store)? == Page::Full {}
        Ok(State::new(alloc, core))
    }
}
