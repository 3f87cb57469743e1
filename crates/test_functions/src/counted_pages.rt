ghost use Rattle.std.specs.Prelude.{◌≡◌};

use crate::nz_desk::{nz_core, stored_over, turn};
use crate::same::{assert_same, assert_same_in};
use crate::standing::{commit_stored, take_stored};
use desk::stores::{MemoryStore, NodeStore, StoreFault};
use desk::{State, Stored};
use protocol::NodeCore;
use protocol::units::{NoMemory, Node};
use protocol::wire::Input;
use registry_core::RegistryCore;
use std::alloc::Global;
use std::marker::Model;
use std::process::Abort;
use test_support::again;

/// A store that counts its calls. In contracts it is the inner store.
#[derive(Drop)]
struct CountedStore<S> {
    store: S,
    appends: u32,
    loads: u32,
    pages: u32,
}

impl<S> Model for CountedStore<S> {
    ghost Value = { S };

    ghost view = { λ c. c.store };
}

impl<S: NodeStore> NodeStore for CountedStore<S> {
    ghost is_honest = { λ c. S.is_honest c };

    ghost content = { λ c. S.content c };

    ghost may_hold = { λ c next. S.may_hold c next };

    ghost must_reopen = { λ c. S.must_reopen c };

    ghost faults = { λ c. S.faults c };

    ghost whose = { λ c. S.whose c };

    ghost is_own = { λ c. S.is_own c };

    fn append(&mut self, batch: &[Input]) -> Result<(), StoreFault> {
        self.appends = self.appends.saturating_add(1);
        self.store.append(batch)
    }

    fn load(&mut self) -> Result<Vec<Input>, StoreFault> {
        self.loads = self.loads.saturating_add(1);
        self.store.load()
    }

    fn load_page(&mut self, from: u64, max: u64) -> Result<Vec<Input>, StoreFault> {
        self.pages = self.pages.saturating_add(1);
        self.store.load_page(from, max)
    }

    fn reopen(&mut self) -> Result<(), StoreFault> {
        self.store.reopen()
    }

    fn fault_count(&self) -> u64 {
        self.store.fault_count()
    }
}

type Counted = CountedStore<MemoryStore>;

/// An empty store of that node.
fn counted(alloc: Global, node: Node) -> Counted
    ensures { result.node ≡ node }
{
    CountedStore {
        store: MemoryStore::new(alloc, node),
        appends: 0,
        loads: 0,
        pages: 0,
    }
}

/// NZ's state with an empty store.
fn stored(rt: &impl Abort, alloc: Global) -> Stored<RegistryCore, Counted> {
    let core = nz_core(rt, alloc);
    let store = counted(alloc, core.node());
    stored_over(rt, alloc, core, store)
}

/// A store of that many records, in which an account is closed and opened in turn, appended at once. `NoMemory` if it
/// ran out of memory.
fn store_of(rt: &impl Abort, alloc: Global, records: usize) -> Result<Counted, NoMemory> {
    let mut stored = stored(rt, alloc);
    for place in 0..records {
        drop(take_stored(rt, alloc, &mut stored, turn(place)));
    }
    assert_same(rt, commit_stored(rt, &mut stored, records)?, records);
    let (state, store) = stored.into_parts();
    drop(state);
    Ok(store)
}

/// How many records a state that is read from the store has, and how many pages the store was asked for.
fn records_read(
    rt: &impl Abort,
    alloc: Global,
    store: &mut Counted,
) -> Result<(usize, u32), StoreFault> {
    let before = store.pages;
    let state = State::load_from(alloc, nz_core(rt, alloc), store)?;
    let records = state.committed().len();
    drop(state);
    Ok((records, store.pages.saturating_sub(before)))
}

/// How many pages a store of that many records is asked for, when they are read. It is asked for nothing else.
fn pages_of(rt: &impl Abort, alloc: Global, records: usize) -> u32 {
    let made = again!(store_of(rt, alloc, records), Err(NoMemory) => ());
    let mut store = made.ok().expect(rt, "memory");
    let read = again!(
        records_read(rt, alloc, &mut store),
        Err(StoreFault::NoMemory) => assert_same(rt, (store.appends, store.loads), (1, 0))
    );
    let (read, pages) = read.expect(rt, "a state");
    assert_same(rt, read, records);
    assert_same(rt, (store.appends, store.loads), (1, 0));
    pages
}

#[test]
fn stores_are_read_by_pages(rt: HostRuntime) {
    let alloc = rt.alloc();
    for (records, pages) in [(1, 1), (255, 1), (256, 2), (1000, 4)] {
        assert_same_in(&rt, pages_of(&rt, alloc, records), pages, records);
    }
}
