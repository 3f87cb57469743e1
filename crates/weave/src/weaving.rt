//! From journals of all nodes back to one run.
ghost use Rattle.std.specs.Prelude.{◌≡◌, All, IfErr, IfOk, List, length, map};
ghost use Rattle.wire.specs.declared.input.Input.{Input};
ghost use Rattle.protocol.specs.Registries.{nodes};
ghost use Rattle.world.specs.Cores as node_cores;
ghost use Rattle.weave.specs.Ahead.{AreAhead};
ghost use Rattle.weave.specs.Following.{IsWeaveFault, IsWoven, journal_of};

use crate::cores::{lengths_of, record_counts, replayed};
use crate::fault::WeaveFault;
use crate::following::{Following, follow};
use crate::left::first_left;
use crate::watch::{Nobody, Watch};
use protocol::{WorldEvent, nodes_of};
use scheme::Scheme;
use std::alloc::Global;
use wire::Input;
use world::{Core, World};

/// A list of events, and the world that they lead to from the opening one.
#[derive(Debug, Drop)]
pub struct Woven {
    pub events: Vec<WorldEvent>,
    pub world: World,
}

/// A list of events that leads to these journals, one for each node: the log's, then those of the registries in the
/// scheme's order. The events commit each record at once, and post each message once, as soon as it is sent. Returns
/// with them the world that they lead to; everything that `ReachedWorld::run` states about its world holds for it.
///
/// # Errors
///
/// Fails with `Stuck` exactly when no list of events leads to the journals. The fault has the first node with a record
/// left after following them as far as they go, and the place of that record. Fails with `NoMemory` where there is no
/// room.
pub fn weave(alloc: Global, scheme: &Scheme, journals: &[&[Input]]) -> Result<Woven, WeaveFault>
    requires { length journals.now ≡ length (nodes scheme.now) }
    ensures ok { IfOk result (λ w. IsWoven scheme.now (journal_of scheme.now (map
        (λ j. j.now) journals.now)) w.events.items w.world) }
    ensures err { IfErr result (IsWeaveFault scheme.now (journal_of scheme.now (map (λ j. j.now) journals.now))) }
{
    let counts = lengths_of(alloc, journals)?;
    let cores = replayed(alloc, scheme, journals)?;
    weave_on(alloc, scheme, cores, counts.as_slice(), &mut Nobody)
}

/// Weaves the journals of these cores as `weave` does. There is one core for each node: the log's, then those of the
/// registries in the scheme's order. They are the cores of the world that is returned, and none of them takes a record
/// again. Each record that is woven is reported to the watch.
///
/// # Errors
///
/// Fails as `weave` does. The cores are lost then.
pub fn weave_cores<W: Watch>(
    alloc: Global,
    scheme: &Scheme,
    cores: Vec<Core>,
    watch: &mut W,
) -> Result<Woven, WeaveFault>
    requires nodes { map node_cores.node_of cores.items ≡ nodes scheme.now }
    requires schemes { All (λ core. node_cores.scheme_of core ≡ scheme.now) cores.items }
    ensures ok { IfOk result (λ w. IsWoven scheme.now (journal_of scheme.now
        (map node_cores.journal_of cores.items)) w.events.items w.world) }
    ensures err { IfErr result
        (IsWeaveFault scheme.now (journal_of scheme.now (map node_cores.journal_of cores.items))) }
{
    let counts = record_counts(alloc, cores.as_slice())?;
    weave_on(alloc, scheme, cores, counts.as_slice(), watch)
}

/// Weaves the journals as far as they are recorded; the cores have their first records. `counts` has the number of all
/// records of each journal.
fn weave_on<W: Watch>(
    alloc: Global,
    scheme: &Scheme,
    cores: Vec<Core>,
    counts: &[usize],
    watch: &mut W,
) -> Result<Woven, WeaveFault>
    requires nodes { map node_cores.node_of cores.items ≡ nodes scheme.now }
    requires schemes { All (λ core. node_cores.scheme_of core ≡ scheme.now) cores.items }
    ensures ok { (journals : List (List Input)) → counts.now ≡ map (λ j. length j) journals
        → AreAhead scheme.now journals (map node_cores.journal_of cores.items)
        → IfOk result (λ w. IsWoven scheme.now (journal_of scheme.now journals) w.events.items w.world) }
    ensures err { (journals : List (List Input)) → counts.now ≡ map (λ j. length j) journals
        → AreAhead scheme.now journals (map node_cores.journal_of cores.items)
        → IfErr result (IsWeaveFault scheme.now (journal_of scheme.now journals)) }
{
    let nodes = nodes_of(alloc, scheme)?;
    let Following { world, events, .. } = follow(alloc, scheme, cores, watch)?;
    if let Some(left) = first_left(&world, scheme, nodes.as_slice(), counts) {
        return Err(WeaveFault::Stuck {
            node: left.node,
            place: left.place,
        });
    }
    Ok(Woven { events, world })
}
