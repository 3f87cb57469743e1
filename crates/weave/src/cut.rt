//! The furthest cut of journals, and the records that are left beyond it.
ghost use Rattle.std.specs.Prelude.{◌≡◌, ◌≤◌, All, IfNone, IfOk, IfSome, filter, length, map};
ghost use Rattle.protocol.specs.Registries.{nodes};
ghost use Rattle.world.specs.Cores as node_cores;
ghost use Rattle.weave.specs.Cuts.{IsCut};
ghost use Rattle.weave.specs.Following.{committed_at, journal_of};
ghost use Rattle.weave.specs.Left.{IsRest, has_rest};
ghost use Rattle.weave.specs.Steps.{whole_at};

use crate::committed::{committed_count, next_input};
use crate::following::{Following, follow};
use crate::watch::Watch;
use protocol::{WorldEvent, nodes_of};
use scheme::Scheme;
use std::alloc::Global;
use units::{NoMemory, Node};
use wire::Input;
use world::{Core, ReachedWorld, World};

/// The records of a node's journal beyond a cut.
#[derive(Debug, Drop)]
pub struct Rest {
    pub node: Node,
    /// The place of the first of them in the journal, counted from 0.
    pub place: usize,
    /// The number of these records, at least one.
    pub count: usize,
    /// The first of them: a received message that no node sends by its records in the cut.
    pub next: Input,
}

/// A list of events, the world that they lead to from the opening one, and the rest of each journal.
#[derive(Debug, Drop)]
pub struct Cut {
    pub events: Vec<WorldEvent>,
    pub world: World,
    /// For each node with records beyond the cut, in the order of the nodes.
    pub rests: Vec<Rest>,
}

/// The number of records of the node's journal, including its tail.
fn whole_count(world: &World, node: Node) -> usize
    ensures { result ≡ length (whole_at world.now node) }
{
    match world.journal(node) {
        Some(journal) => journal.len(),
        None => 0,
    }
}

/// The rest of the node's journal after the committed records, or `None` where nothing is left.
fn rest_of(world: &World, node: Node) -> Result<Option<Rest>, NoMemory>
    ensures some { IfOk result (λ o. IfSome o (IsRest world.now node)) }
    ensures none { IfOk result
        (λ o. IfNone o (length (whole_at world.now node) ≤ length (committed_at world.now node))) }
{
    let place = committed_count(world, node);
    let Some(next) = next_input(world, node) else {
        return Ok(None);
    };
    let next = next.copy()?;
    Ok(Some(Rest {
        node,
        place,
        count: whole_count(world, node) - place,
        next,
    }))
}

/// The rests of the journals of these nodes, for each node that has something left.
fn rests_of(alloc: Global, world: &World, among: &[Node]) -> Result<Vec<Rest>, NoMemory>
    ensures nodes { IfOk result (λ v. map (λ r. r.node) v.items ≡ filter (has_rest world.now) among.now) }
    ensures each { IfOk result (λ v. All (λ r. IsRest world.now r.node r) v.items) }
{
    let mut rests = Vec::new(alloc);
    for node in among {
        if let Some(rest) = rest_of(world, *node)? {
            rests.push(rest)?;
        }
    }
    Ok(rests)
}

/// The furthest cut of the journals of these cores, one for each node: the log's, then those of the registries in the
/// scheme's order. Of all lists of events that commit first records of the journals, its events commit the most at
/// every node. They commit each record at once, and post each message once, as soon as it is sent. Each record that is
/// woven is reported to the watch.
///
/// Where nothing is left of any journal, the result is that of `weave_cores`.
///
/// # Errors
///
/// Fails with `NoMemory` where there is no room. The cores are lost then.
pub fn cut_cores<W: Watch>(
    alloc: Global,
    scheme: &Scheme,
    cores: Vec<Core>,
    watch: &mut W,
) -> Result<Cut, NoMemory>
    requires nodes { map node_cores.node_of cores.items ≡ nodes scheme.now }
    requires schemes { All (λ core. node_cores.scheme_of core ≡ scheme.now) cores.items }
    ensures { IfOk result (IsCut scheme.now (journal_of scheme.now (map node_cores.journal_of cores.items))) }
{
    let nodes = nodes_of(alloc, scheme)?;
    let Following { world, events, .. } = follow(alloc, scheme, cores, watch)?;
    let rests = rests_of(alloc, &world, nodes.as_slice())?;
    if rests.is_empty() {
        return Ok(Cut {
            events,
            world,
            rests,
        });
    }
    // The cores of that world also have the records beyond the cut.
    drop(world);
    let reached = ReachedWorld::run(alloc, scheme, events.as_slice())?;
    let world = reached.into_world();
    Ok(Cut {
        events,
        world,
        rests,
    })
}
