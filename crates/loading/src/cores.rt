//! The cores that the records of all nodes' stores lead to, and their states with the stores.
ghost use Rattle.std.specs.Prelude.{◌≡◌, ◌≤◌, ◌++◌, ◌∷◌, [], ℕ, All, IfErr, IfOk, OnOk, Some, length, map, slice_get, take};
ghost use Rattle.protocol.specs.Registries.{nodes};
ghost use Rattle.loading.specs.Stores.{AreLoaded, AreUnwritten, FailsToLoad, FailsToLoadAt, IsLoadedAs, IsUnwritten};
ghost use Rattle.loading.specs.Opened.{opened_core};
ghost use Rattle.desk.specs.Keeping.{IsKept};
ghost use Rattle.world.specs.Cores.{journal_of, node_of, scheme_of};

use command_faults::{OpFault, store_fault};
use desk::{State, Stored};
use protocol::scheme::Scheme;
use protocol::{NodeCore, node_at};
use std::alloc::Global;
use stores::NodeStore;
use units::{NoMemory, Node};
use weave::{Nobody, Watch};
use world::Core;

/// The core that the records of the node's store lead to.
fn load_one<S: NodeStore>(
    alloc: Global,
    scheme: &Scheme,
    node: Node,
    store: &mut S,
) -> Result<Core, OpFault>
    ensures ok { IfOk result (λ core. IsLoadedAs S.NodeStore scheme.now node store.old store.new (journal_of core)) }
    ensures scheme { IfOk result (λ core. scheme_of core ≡ scheme.now) }
    ensures node { IfOk result (λ core. node_of core ≡ node) }
    ensures err { IfErr result (FailsToLoadAt S.NodeStore scheme.now node store.old store.new) }
    ensures unwritten { IsUnwritten S.NodeStore store.old store.new }
{
    let core = Core::new(alloc, scheme, node)?;
    match State::load_from(alloc, core, store) {
        Ok(state) => Ok(state.into_core()),
        Err(fault) => Err(store_fault(node, fault)),
    }
}

fn push(cores: &mut Vec<Core>, core: Core) -> Result<(), NoMemory>
    ensures { OnOk result (cores.new.items ≡ cores.old.items ++ core ∷ []) }
{
    cores.push(core)?;
    Ok(())
}

/// The cores that the records of the first nodes' stores lead to: the log's, then those of the registries in the
/// scheme's order. Reports each store's records once they are read.
///
/// # Errors
///
/// - `Store`: a store could not be read, or has a damaged record; it is the first such store in that order. A record is
///   also damaged where its node doesn't record it after those before it.
/// - `NoMemory`: out of memory.
pub fn load_cores<S: NodeStore, P: Watch>(
    alloc: Global,
    scheme: &Scheme,
    stores: &mut [S],
    watch: &mut P,
) -> Result<Vec<Core>, OpFault>
    requires { length stores.old ≤ length (nodes scheme.now) }
    ensures ok { IfOk result (λ v. AreLoaded S.NodeStore scheme.now (nodes scheme.now) stores.old stores.new
        (map journal_of v.items)) }
    ensures nodes { IfOk result (λ v. map node_of v.items ≡ take (length stores.old) (nodes scheme.now)) }
    ensures schemes { IfOk result (λ v. All (λ core. scheme_of core ≡ scheme.now) v.items) }
    ensures err { IfErr result (FailsToLoad S.NodeStore scheme.now (nodes scheme.now) stores.old stores.new) }
    ensures unwritten { AreUnwritten S.NodeStore stores.old stores.new }
{
    let mut cores = Vec::new(alloc);
    for store in stores.iter_mut() {
        let node = node_at(scheme, cores.len());
        match load_one(alloc, scheme, node, store) {
            Ok(core) => {
                watch.read(core.records());
                push(&mut cores, core)?;
            }
            Err(fault) => return Err(fault),
        }
    }
    Ok(cores)
}

/// The state of each core with its store, which has the core's records.
pub(crate) fn pair_up<S: NodeStore + Drop>(
    alloc: Global,
    cores: Vec<Core>,
    stores: Vec<S>,
) -> Result<Vec<Stored<Core, S>>, NoMemory>
    requires count { length stores.items ≡ length cores.items }
    requires kept { (k : ℕ) (core : Core) (store : S) → slice_get cores.items k ≡ Some core
        → slice_get stores.items k ≡ Some store
        → IsKept S.NodeStore (record { state = opened_core core; store = store }) }
    ensures states { IfOk result (λ v. map (λ s. s.state) v.items ≡ map opened_core cores.items) }
    ensures stores { IfOk result (λ v. map (λ s. s.store) v.items ≡ stores.items) }
{
    let mut nodes = Vec::new(alloc);
    let mut stores = stores.into_iter();
    for core in cores {
        let Some(store) = stores.next() else {
            unreachable!();
        };
        nodes.push(Stored::new(State::new(alloc, core), store))?;
    }
    Ok(nodes)
}
