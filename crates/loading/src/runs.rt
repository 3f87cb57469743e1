//! The run that leads to the records of all stores.
ghost use Rattle.std.specs.Prelude.{◌≡◌, ◌≤◌, ℕ, false, All, List, IfErr, IfOk, OnOk, length, map, string_bytes};
ghost use Rattle.world.specs.Cores as node_cores;
ghost use Rattle.loading.specs.Runs.{FailsToFindRun, FailsToWeave, HasRun, IsAuditTable, of_weaving};
ghost use Rattle.loading.specs.Stores.{AreLoaded, AreUnwritten, FailsToLoad};
ghost use Rattle.node_state.specs.Views.{opened_with};
ghost use Rattle.protocol.specs.Scheme.{Scheme};
ghost use Rattle.weave.specs.Following.{IsWeaveFault, IsWoven, journal_of};
ghost use Rattle.protocol.specs.Input.{Input};
ghost use Rattle.protocol.specs.Registries.{nodes};

use crate::cores::{load_cores, pair_up};
use command_faults::OpFault;
use desk::Stored;
use protocol::scheme::Scheme;
use report::{Form, push_table};
use std::alloc::Global;
use stores::NodeStore;
use weave::{Nobody, Watch, WeaveFault, Woven, weave_cores};
use world::Core;

/// The command's fault for a fault of weaving.
pub fn fault_of(fault: WeaveFault) -> OpFault
    ensures { result ≡ of_weaving fault }
{
    match fault {
        WeaveFault::Stuck { node, place } => OpFault::Stuck { node, place },
        WeaveFault::NoMemory => OpFault::NoMemory,
    }
}

/// The table of the woven world, or the command's fault for the fault of weaving.
fn table_of_woven(
    alloc: Global,
    woven: Result<Woven, WeaveFault>,
    form: Form,
) -> Result<String, OpFault>
    ensures ok { (scheme : Scheme) (journals : List (List Input))
        → IfOk woven (λ w. IsWoven scheme (journal_of scheme journals) w.events.items w.world)
        → IfOk result (λ s. IsAuditTable form scheme journals (string_bytes s)) }
    ensures err { (scheme : Scheme) (journals : List (List Input))
        → IfErr woven (IsWeaveFault scheme (journal_of scheme journals)) → IfErr result (FailsToWeave scheme journals) }
{
    match woven {
        Ok(woven) => {
            let mut text = String::new(alloc);
            push_table(alloc, &mut text, &woven.world, form)?;
            Ok(text)
        }
        Err(fault) => Err(fault_of(fault)),
    }
}

/// The table of a run that leads to the records of these cores, one for each node: the log's, then those of the
/// registries in the scheme's order. Reports each record that is woven.
///
/// # Errors
///
/// - `Stuck`: no run leads to these records. Followed as far as they go, the node is the first with a record left, and
///   the place is that record's.
/// - `NoMemory`: out of memory.
pub fn table_of_cores<P: Watch>(
    alloc: Global,
    scheme: &Scheme,
    cores: Vec<Core>,
    form: Form,
    watch: &mut P,
) -> Result<String, OpFault>
    requires nodes { map node_cores.node_of cores.items ≡ nodes scheme.now }
    requires schemes { All (λ core. node_cores.scheme_of core ≡ scheme.now) cores.items }
    ensures ok { IfOk result (λ s. IsAuditTable form scheme.now (map node_cores.journal_of cores.items) (string_bytes s)) }
    ensures err { IfErr result (FailsToWeave scheme.now (map node_cores.journal_of cores.items)) }
{
    table_of_woven(alloc, weave_cores(alloc, scheme, cores, watch), form)
}

/// The cores of the world that was woven from these journals, each with its journal, or the command's fault.
fn cores_of_woven(woven: Result<Woven, WeaveFault>) -> Result<Vec<Core>, OpFault>
    ensures run { (scheme : Scheme) (journals : List (List Input)) → length journals ≡ length (nodes scheme)
        → IfOk woven (λ w. IsWoven scheme (journal_of scheme journals) w.events.items w.world)
        → OnOk result (HasRun scheme journals) }
    ensures nodes { (scheme : Scheme) (journals : List (List Input))
        → IfOk woven (λ w. IsWoven scheme (journal_of scheme journals) w.events.items w.world)
        → IfOk result (λ v. map node_cores.node_of v.items ≡ nodes scheme) }
    ensures schemes { (scheme : Scheme) (journals : List (List Input))
        → IfOk woven (λ w. IsWoven scheme (journal_of scheme journals) w.events.items w.world)
        → IfOk result (λ v. All (λ core. node_cores.scheme_of core ≡ scheme) v.items) }
    ensures journals { (scheme : Scheme) (journals : List (List Input)) → length journals ≡ length (nodes scheme)
        → IfOk woven (λ w. IsWoven scheme (journal_of scheme journals) w.events.items w.world)
        → IfOk result (λ v. map node_cores.journal_of v.items ≡ journals) }
    ensures err { (scheme : Scheme) (journals : List (List Input))
        → IfErr woven (IsWeaveFault scheme (journal_of scheme journals)) → IfErr result (FailsToWeave scheme journals) }
{
    match woven {
        Ok(woven) => {
            drop(woven.events);
            Ok(woven.world.into_cores()?)
        }
        Err(fault) => Err(fault_of(fault)),
    }
}

/// Finds a run that leads to the records of these cores, one for each node: the log's, then those of the registries in
/// the scheme's order, and returns cores with these records. Reports each record that is woven. Fails with `Stuck`
/// where there is no such run, and with `NoMemory` where memory ran out.
fn find_run<P: Watch>(
    alloc: Global,
    scheme: &Scheme,
    cores: Vec<Core>,
    watch: &mut P,
) -> Result<Vec<Core>, OpFault>
    requires nodes { map node_cores.node_of cores.items ≡ nodes scheme.now }
    requires schemes { All (λ core. node_cores.scheme_of core ≡ scheme.now) cores.items }
    ensures run { OnOk result (HasRun scheme.now (map node_cores.journal_of cores.items)) }
    ensures nodes { IfOk result (λ v. map node_cores.node_of v.items ≡ nodes scheme.now) }
    ensures schemes { IfOk result (λ v. All (λ core. node_cores.scheme_of core ≡ scheme.now) v.items) }
    ensures journals { IfOk result (λ v. map node_cores.journal_of v.items ≡ map node_cores.journal_of cores.items) }
    ensures err { IfErr result (FailsToWeave scheme.now (map node_cores.journal_of cores.items)) }
{
    cores_of_woven(weave_cores(alloc, scheme, cores, watch))
}

/// Reads the stores, one for each node: the log's, then those of the registries in the scheme's order. Where a run
/// leads to all their records, returns each with the state that its records lead to. This state runs. Reports the
/// records as they are read and woven.
///
/// The stores are read by pages, and nothing is written to them. Each record is taken once.
///
/// # Errors
///
/// The stores are then closed:
///
/// - `Store`: as for `load_cores`.
/// - `Stuck`: as for `table_of_cores`.
/// - `NoMemory`: out of memory.
pub fn load_run<S: NodeStore + Drop, P: Watch>(
    alloc: Global,
    scheme: &Scheme,
    mut stores: Vec<S>,
    watch: &mut P,
) -> Result<Vec<Stored<Core, S>>, OpFault>
    requires whose { map S.whose stores.items ≡ nodes scheme.now }
    requires own { All (λ s. S.is_honest s → S.must_reopen s ≡ false → S.is_own s) stores.items }
    ensures nodes { IfOk result (λ v. map (λ s. s.state.node) v.items ≡ nodes scheme.now) }
    ensures opened { IfOk result
        (λ v. All (λ s. s.state ≡ opened_with scheme.now s.state.node s.state.journal) v.items) }
    ensures loaded { IfOk result
        (λ v. AreLoaded S.NodeStore scheme.now (nodes scheme.now) stores.items (map (λ s. s.store) v.items)
        (map (λ s. s.state.journal) v.items)) }
    ensures unwritten { IfOk result (λ v. AreUnwritten S.NodeStore stores.items (map (λ s. s.store) v.items)) }
    ensures run { IfOk result (λ v. HasRun scheme.now (map (λ s. s.state.journal) v.items)) }
    ensures err { IfErr result (λ e. (left : List S) × FailsToFindRun S.NodeStore e scheme.now stores.items left
        × AreUnwritten S.NodeStore stores.items left) }
{
    let cores = match load_cores(alloc, scheme, stores.as_mut_slice(), watch) {
        Ok(cores) => cores,
        Err(fault) => {
            drop(stores);
            return Err(fault);
        }
    };
    match find_run(alloc, scheme, cores, watch) {
        Ok(cores) => {
            watch.finished();
            Ok(pair_up(alloc, cores, stores)?)
        }
        Err(fault) => {
            drop(stores);
            Err(fault)
        }
    }
}

/// Reads the stores of the first nodes: the log's, then those of the registries in the scheme's order. This finds a
/// fault of one of them before the fault of a later store that can't be opened.
///
/// # Errors
///
/// Fails as `load_cores` does.
pub fn read_first<S: NodeStore>(
    alloc: Global,
    scheme: &Scheme,
    stores: &mut [S],
) -> Result<(), OpFault>
    requires { length stores.old ≤ length (nodes scheme.now) }
    ensures ok { OnOk result ((journals : List (List Input))
        × AreLoaded S.NodeStore scheme.now (nodes scheme.now) stores.old stores.new journals) }
    ensures err { IfErr result (FailsToLoad S.NodeStore scheme.now (nodes scheme.now) stores.old stores.new) }
    ensures unwritten { AreUnwritten S.NodeStore stores.old stores.new }
{
    let _cores = load_cores(alloc, scheme, stores, &mut Nobody)?;
    Ok(())
}
