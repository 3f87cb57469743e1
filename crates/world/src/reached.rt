//! A world that events led to from the opening one, and what holds in each such world.
ghost use Rattle.std.specs.Prelude.{◌≡◌, IfOk, OnErr, OnOk};
ghost use Rattle.protocol.specs.Claims.{DeliversWelcome, committed_of, live_of};
ghost use Rattle.protocol.specs.Headline.{IsSafe};
ghost use Rattle.protocol.specs.Owner.{OwnersMove};
ghost use Rattle.protocol.specs.WayOut.{WayOut};
ghost use Rattle.protocol.specs.World.{opening, run, step};

use crate::world::World;
use protocol::{Outcome, WorldEvent};
use scheme::Scheme;
use std::alloc::Global;
use std::marker::Model;
use units::NoMemory;

/// A world that a list of events leads to from the opening world of its scheme. In contracts it is the protocol's
/// world.
///
/// In such a world no tonne is in two places and none is lost, for journals with their tails and for committed
/// journals: an allotted unit is held by one registry and owed by no transfer, or held by none and owed by exactly one
/// completed transfer; no unit is spendable in two registries; a registry that holds a unit is its owner in the log's
/// book; and no node has Completed for a transaction that another one has Rejected, Terminated or Cancelled. No
/// delivery to it is refused except where a journal is full. And starts, commits and messages alone lead from it to a
/// world at rest, where each allotted unit is spendable.
#[derive(Debug)]
pub struct ReachedWorld {
    world: World,
}

// Written out, since a derived destructor is proved anew in each crate that lets a value go.
impl Drop for ReachedWorld {
    fn drop(self) {
        let ReachedWorld { world } = self;
        drop(world);
    }
}

impl Model for ReachedWorld {
    ghost use Rattle.std.specs.Coded.{codes};
    ghost use Rattle.protocol.specs.World as protocol;
    ghost use Rattle.world.specs.Reached.{IsReached};
    ghost use Rattle.world.specs.contracts.world.World as kept_world;

    ghost Value = { protocol.World };

    ghost coded = { Prim.hlevel (codes, kept_world.the_row.coded) };

    ghost view = { λ r. r.world };

    ghost invariant = { λ r. IsReached r.world };
}

impl ReachedWorld {
    /// The opening world of a scheme: empty journals, an empty bag, all nodes running. Fails with `NoMemory` where
    /// memory runs out.
    pub fn new(alloc: Global, scheme: &Scheme) -> Result<ReachedWorld, NoMemory>
        ensures { IfOk result (λ w. w ≡ opening scheme.now) }
    {
        let world = World::new(alloc, scheme)?;
        Ok(ReachedWorld { world })
    }

    /// The world, whose nodes and messages can be looked at.
    pub fn as_world(&self) -> &World
        ensures { result.now ≡ self.now }
    {
        &self.world
    }

    /// The world, without the knowledge that events led to it.
    pub fn into_world(self) -> World
        ensures { result ≡ self }
    {
        let ReachedWorld { world } = self;
        world
    }

    /// Moves the world by an event, and returns the outcome. After `NoMemory` the world is as it was.
    ///
    /// After the event no tonne is in two places and none is lost, for journals with their tails and for committed
    /// journals. The event moves a unit's owner only by committing Completed of a transfer with the unit.
    pub fn apply(&mut self, event: &WorldEvent) -> Result<Outcome, NoMemory>
        ensures ok { IfOk result (λ o. record { world = self.new; outcome = o } ≡ step self.old event.now) }
        ensures err { OnErr result (self.new ≡ self.old) }
        ensures live { OnOk result (IsSafe self.old.scheme (live_of self.new)) }
        ensures committed { OnOk result (IsSafe self.old.scheme (committed_of self.new)) }
        ensures welcome { OnOk result (DeliversWelcome self.new) }
        ensures owners_move { OnOk result (OwnersMove self.old.scheme (committed_of self.old) (committed_of self.new)) }
        ensures way_out { OnOk result (WayOut self.new) }
    {
        self.world.step(event)
    }

    /// Moves the world by all these events, one after another.
    fn apply_all(&mut self, events: &[WorldEvent]) -> Result<(), NoMemory>
        ensures { OnOk result (self.new ≡ run self.old events.now) }
    {
        for event in events {
            self.apply(event)?;
        }
        Ok(())
    }

    /// The world that all these events lead to from the opening one, one after another, none left out. Fails with
    /// `NoMemory` where memory runs out.
    pub fn run(
        alloc: Global,
        scheme: &Scheme,
        events: &[WorldEvent],
    ) -> Result<ReachedWorld, NoMemory>
        ensures world { IfOk result (λ w. w ≡ run (opening scheme.now) events.now) }
        ensures live { IfOk result (λ w. IsSafe scheme.now (live_of w)) }
        ensures committed { IfOk result (λ w. IsSafe scheme.now (committed_of w)) }
        ensures welcome { IfOk result DeliversWelcome }
        ensures way_out { IfOk result WayOut }
    {
        let mut world = ReachedWorld::new(alloc, scheme)?;
        match world.apply_all(events) {
            Ok(()) => Ok(world),
            Err(NoMemory) => {
                drop(world);
                Err(NoMemory)
            }
        }
    }
}
