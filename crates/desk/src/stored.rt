//! A node's state with the store that has its committed records.
ghost use Rattle.std.specs.Prelude.{◌≡◌, ◌<◌, false, true, [], length, IfOk, IfErr};
ghost use Rattle.stores.specs.Faults.{faults_after};
ghost use Rattle.node_state.specs.Calls.{Tells};
ghost use Rattle.desk.specs.Keeping.{Commits, IsKept};
ghost use Rattle.node_state.specs.Loading.{IsLoaded};
ghost use Rattle.node_state.specs.Views.{opened_with};

use node_state::{Asked, State, Taken};
use protocol::NodeCore;
use std::alloc::Global;
use std::marker::Model;
use stores::{NodeStore, StoreFault};
use wire::Input;

/// A node's state, and the store that has its committed records. Only a commit changes the two together.
pub struct Stored<C: NodeCore, S: NodeStore> {
    state: State<C>,
    store: S,
}

// Written out, since a derived destructor is proved anew in each crate that lets a value go.
impl<C: NodeCore, S: NodeStore + Drop> Drop for Stored<C, S> {
    fn drop(self) {
        let Stored { state, store } = self;
        drop(state);
        drop(store);
    }
}

impl<C: NodeCore, S: NodeStore> Model for Stored<C, S> {
    ghost use Rattle.std.specs.Coded.{codes};
    ghost use Rattle.scheme.specs.contracts.registries.Scheme as kept_scheme;
    ghost use Rattle.desk.specs.Keeping.{IsKept, StoredView};

    ghost Value = { StoredView S };

    ghost coded = { Prim.hlevel (codes, kept_scheme.the_row.coded, S.code) };

    ghost view = { λ s. record { state = s.state; store = s.store } };

    ghost invariant = { λ s. IsKept S.NodeStore (record { state = s.state; store = s.store }) };
}

impl<C: NodeCore, S: NodeStore> Stored<C, S> {
    /// A state with its store, which has the committed records of it.
    pub fn new(state: State<C>, store: S) -> Stored<C, S>
        requires { IsKept S.NodeStore (record { state = state; store = store }) }
        ensures { result ≡ record { state = state; store = store } }
    {
        Stored { state, store }
    }

    /// A state that runs and whose journal is the records of the store, as `State::load_from` makes it, with the store.
    ///
    /// Fails as `State::load_from` does, and gives the store back.
    pub fn load(alloc: Global, core: C, mut store: S) -> Result<Stored<C, S>, (StoreFault, S)>
        requires journal { C.journal_of core ≡ [] }
        requires whose { S.whose store ≡ C.node_of core }
        requires own { S.is_honest store → S.must_reopen store ≡ false → S.is_own store }
        ensures state { IfOk result (λ s. s.state ≡ opened_with (C.scheme_of core) (C.node_of core) s.state.journal) }
        ensures loaded { IfOk result
            (λ s. IsLoaded S.NodeStore (C.scheme_of core) (C.node_of core) store s.store (Ok s.state.journal)) }
        ensures failed { IfErr result
            (λ e. IsLoaded S.NodeStore (C.scheme_of core) (C.node_of core) store e.1 (Err e.0)) }
        ensures keeps { IfOk result (IsKept S.NodeStore) }
    {
        match State::load_from(alloc, core, &mut store) {
            Ok(state) => Ok(Stored { state, store }),
            Err(fault) => Err((fault, store)),
        }
    }

    /// The state.
    pub fn state(&self) -> &State<C>
        ensures state { result.now ≡ self.now.state }
        ensures keeps { IsKept S.NodeStore self.now }
    {
        &self.state
    }

    /// As `take` of the state.
    pub fn take(&mut self, input: Input) -> Taken
        ensures asked { result.asked ≡ Asked.Take input }
        ensures told { Tells self.old.state input result.told self.new.state }
        ensures length { result.length ≡ length self.new.state.journal }
        ensures store { self.new.store ≡ self.old.store }
        ensures kept { IsKept S.NodeStore self.old }
    {
        self.state.take(input)
    }

    /// Appends the first records that aren't committed, at most `max`, to the store, and returns how many: these are
    /// committed now. Returns 0 and changes nothing if the state was stopped, if all records are committed, or if `max`
    /// is 0.
    ///
    /// Fails as `append` of the store does. Then the state has stopped, and nothing else of it has changed.
    pub fn commit(&mut self, max: usize) -> Result<usize, StoreFault>
        ensures commits { Commits S.NodeStore self.old self.new max result }
        ensures faults { S.faults self.new.store ≡ faults_after (S.faults self.old.store) result }
        ensures kept { IsKept S.NodeStore self.old }
        ensures keeps { IsKept S.NodeStore self.new }
    {
        self.state.commit(&mut self.store, max)
    }

    /// As `stop` of the state.
    pub fn stop(&mut self)
        ensures state { self.new.state ≡ record self.old.state { runs = false } }
        ensures store { self.new.store ≡ self.old.store }
    {
        self.state.stop();
    }

    /// The state and its store, which has its committed records.
    pub fn into_parts(self) -> (State<C>, S)
        ensures state { result.0 ≡ self.state }
        ensures store { result.1 ≡ self.store }
        ensures keeps { IsKept S.NodeStore (record { state = result.0; store = result.1 }) }
    {
        let Stored { state, store } = self;
        (state, store)
    }
}

impl<C: NodeCore, S: NodeStore + Drop> Stored<C, S> {
    /// A state that runs, with this one's journal, all of which is committed and counts as that of the opening: the
    /// records that weren't committed are appended to the store first. A node goes on in this way once its threads have
    /// ended and its seats were settled; the seats needn't be kept.
    ///
    /// Fails as `append` of the store does. The store is closed then.
    pub fn reopen(self) -> Result<Stored<C, S>, StoreFault>
        requires { S.must_reopen self.store ≡ false }
        ensures state { IfOk result (λ s. s.state ≡ opened_with self.state.scheme self.state.node self.state.journal) }
        ensures keeps { IfOk result (IsKept S.NodeStore) }
        ensures faults { IfOk result (λ s. S.faults s.store ≡ S.faults self.store) }
    {
        let (mut state, mut store) = self.into_parts();
        state.go_on();
        let records = state.journal().len();
        match state.commit(&mut store, records) {
            Ok(_) => {
                state.open_anew();
                Ok(Stored { state, store })
            }
            Err(fault) => {
                drop(state);
                drop(store);
                Err(fault)
            }
        }
    }
}
