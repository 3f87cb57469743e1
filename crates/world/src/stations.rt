//! The stations of a world, one for each node.
ghost use Rattle.std.specs.BTreeSet.{contains};
ghost use Rattle.std.specs.Ordering.{nat_cmp};
ghost use Rattle.std.specs.Prelude.{◌≡◌, ◌++◌, ◌∷◌, [], ℕ, false, map, All, IfOk, OnOk};
ghost use Rattle.protocol.specs.Registries.{nodes};
ghost use Rattle.protocol.specs.World.{opening_station};
ghost use Rattle.world.specs.Cores.{node_of};
ghost use Rattle.world.specs.Kept.{IsFresh};
ghost use Rattle.world.specs.Stations.{station_of, uncommitted_station};

use crate::any_core::Core;
use crate::station::Station;
use scheme::Scheme;
use std::alloc::Global;
use units::{NoMemory, Node};

/// A station of that node, which has recorded nothing.
fn opening_station(alloc: Global, scheme: &Scheme, node: Node) -> Result<Station, NoMemory>
    ensures opens { IfOk result (λ s. station_of s ≡ opening_station node) }
    ensures fresh { IfOk result (IsFresh scheme.now) }
{
    let core = Core::new(alloc, scheme, node)?;
    Ok(Station::new(alloc, core))
}

/// Adds a station of that node, which has recorded nothing.
fn add_opening_station(
    stations: &mut Vec<Station>,
    alloc: Global,
    scheme: &Scheme,
    node: Node,
) -> Result<(), NoMemory>
    ensures opens { OnOk result
        (map station_of stations.new.items ≡ map station_of stations.old.items ++ opening_station node ∷ []) }
    ensures fresh { OnOk result (All (IsFresh scheme.now) stations.old.items
        → All (IsFresh scheme.now) stations.new.items) }
{
    stations.reserve(1)?;
    stations.push_reserved(opening_station(alloc, scheme, node)?);
    Ok(())
}

/// Adds the stations of the opening world to an empty list: the log, then the registries in the scheme's order.
fn add_opening_stations(
    stations: &mut Vec<Station>,
    alloc: Global,
    scheme: &Scheme,
) -> Result<(), NoMemory>
    requires empty { stations.old.items ≡ [] }
    ensures opens { OnOk result
        (map station_of stations.new.items
        ≡ opening_station Node.Itl ∷ map (λ m. opening_station (Node.Registry m.code)) scheme.now.members) }
    ensures fresh { OnOk result (All (IsFresh scheme.now) stations.new.items) }
{
    add_opening_station(stations, alloc, scheme, Node::Itl)?;
    for member in scheme.registries() {
        add_opening_station(stations, alloc, scheme, Node::Registry(member.code))?;
    }
    Ok(())
}

/// The stations of the opening world: the log, then the registries in the scheme's order.
pub(crate) fn opening_stations(alloc: Global, scheme: &Scheme) -> Result<Vec<Station>, NoMemory>
    ensures opens { IfOk result
        (λ v. map station_of v.items
        ≡ opening_station Node.Itl ∷ map (λ m. opening_station (Node.Registry m.code)) scheme.now.members) }
    ensures nodes { IfOk result (λ v. map (λ s. node_of s.core) v.items ≡ nodes scheme.now) }
    ensures fresh { IfOk result (λ v. All (IsFresh scheme.now) v.items) }
{
    let mut stations = Vec::new(alloc);
    match add_opening_stations(&mut stations, alloc, scheme) {
        Ok(()) => Ok(stations),
        Err(NoMemory) => {
            drop(stations);
            Err(NoMemory)
        }
    }
}

/// The cores of the stations, in their order.
pub(crate) fn cores_of(alloc: Global, stations: Vec<Station>) -> Result<Vec<Core>, NoMemory>
    ensures { IfOk result (λ v. v.items ≡ map (λ s. s.core) stations.items) }
{
    let mut cores = Vec::new(alloc);
    for station in stations {
        cores.push(station.core)?;
    }
    Ok(cores)
}

/// The stations of these cores; each has committed and posted nothing.
pub(crate) fn uncommitted_stations(
    alloc: Global,
    cores: Vec<Core>,
) -> Result<Vec<Station>, NoMemory>
    ensures cores { IfOk result (λ v. map (λ s. s.core) v.items ≡ cores.items) }
    ensures seen { IfOk result (λ v. All (λ s. station_of s ≡ uncommitted_station s.core) v.items) }
    ensures posted { IfOk result (λ v. All (λ s. (key : ℕ) → contains nat_cmp s.posted key ≡ false) v.items) }
{
    let mut stations = Vec::new(alloc);
    for core in cores {
        stations.push(Station::new(alloc, core))?;
    }
    Ok(stations)
}
