//! Cores that record the given journals, as far as the journals can be recorded.
ghost use Rattle.std.specs.Prelude.{◌≡◌, [], All, IfOk, OnOk, length, map};
ghost use Rattle.protocol.specs.Registries.{nodes};
ghost use Rattle.world.specs.Cores as node_cores;
ghost use Rattle.weave.specs.Ahead.{AreAhead, IsAhead};

use protocol::{NodeCore, ReplayFault, nodes_of, resume};
use scheme::Scheme;
use std::alloc::Global;
use units::{NoMemory, Node};
use wire::Input;
use world::Core;

/// The number of records of each core.
pub(crate) fn record_counts(alloc: Global, cores: &[Core]) -> Result<Vec<usize>, NoMemory>
    ensures { IfOk result (λ v. v.items ≡ map (λ core. length (node_cores.journal_of core)) cores.now) }
{
    let mut counts = Vec::new(alloc);
    for core in cores {
        counts.push(core.records())?;
    }
    Ok(counts)
}

/// The number of records of each journal.
pub(crate) fn lengths_of(alloc: Global, journals: &[&[Input]]) -> Result<Vec<usize>, NoMemory>
    ensures { IfOk result (λ v. v.items ≡ map (λ j. length j.now) journals.now) }
{
    let mut lengths = Vec::new(alloc);
    for journal in journals {
        lengths.push(journal.len())?;
    }
    Ok(lengths)
}

/// The node's core, with the first records of the journal: all of them, or those before the first one that it doesn't
/// record.
fn replayed_one(
    alloc: Global,
    scheme: &Scheme,
    node: Node,
    journal: &[Input],
) -> Result<Core, NoMemory>
    ensures scheme { IfOk result (λ core. node_cores.scheme_of core ≡ scheme.now) }
    ensures node { IfOk result (λ core. node_cores.node_of core ≡ node) }
    ensures ahead { IfOk result (λ core. IsAhead scheme.now node journal.now (node_cores.journal_of core)) }
{
    let mut core = Core::new(alloc, scheme, node)?;
    match resume(&mut core, journal) {
        Ok(()) => Ok(core),
        Err(ReplayFault::NotRecorded(_)) => Ok(core),
        Err(ReplayFault::NoMemory) => {
            drop(core);
            Err(NoMemory)
        }
    }
}

/// Adds a core for each of these nodes to an empty list. The nodes are all nodes of the scheme.
fn add_replayed(
    cores: &mut Vec<Core>,
    alloc: Global,
    scheme: &Scheme,
    names: &[Node],
    journals: &[&[Input]],
) -> Result<(), NoMemory>
    requires empty { cores.old.items ≡ [] }
    requires all { names.now ≡ nodes scheme.now }
    requires as_many { length journals.now ≡ length (nodes scheme.now) }
    ensures nodes { OnOk result (map node_cores.node_of cores.new.items ≡ nodes scheme.now) }
    ensures schemes { OnOk result (All (λ core. node_cores.scheme_of core ≡ scheme.now) cores.new.items) }
    ensures ahead { OnOk result
        (AreAhead scheme.now (map (λ j. j.now) journals.now) (map node_cores.journal_of cores.new.items)) }
{
    for at in 0..names.len() {
        cores.reserve(1)?;
        cores.push_reserved(replayed_one(alloc, scheme, names[at], journals[at])?);
    }
    Ok(())
}

/// A core for each journal, with the journal's first records: all of them, or those before the first one that isn't
/// recorded.
pub(crate) fn replayed(
    alloc: Global,
    scheme: &Scheme,
    journals: &[&[Input]],
) -> Result<Vec<Core>, NoMemory>
    requires { length journals.now ≡ length (nodes scheme.now) }
    ensures nodes { IfOk result (λ v. map node_cores.node_of v.items ≡ nodes scheme.now) }
    ensures schemes { IfOk result (λ v. All (λ core. node_cores.scheme_of core ≡ scheme.now) v.items) }
    ensures ahead { IfOk result
        (λ v. AreAhead scheme.now (map (λ j. j.now) journals.now) (map node_cores.journal_of v.items)) }
{
    let names = nodes_of(alloc, scheme)?;
    let mut cores = Vec::new(alloc);
    match add_replayed(&mut cores, alloc, scheme, names.as_slice(), journals) {
        Ok(()) => Ok(cores),
        Err(NoMemory) => {
            drop(cores);
            Err(NoMemory)
        }
    }
}
