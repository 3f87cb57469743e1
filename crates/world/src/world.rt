//! The world: all nodes, and the bag of all messages that were ever posted.
ghost use Rattle.std.specs.Prelude.{◌≡◌, All, map, slice_get, option_map, option_and_then, option_copied, IfOk, OnErr};
ghost use Rattle.scheme.specs.declared.registries.Scheme.{Scheme};
ghost use Rattle.protocol.specs.Registries.{nodes};
ghost use Rattle.protocol.specs.World.{at_node, is_order, is_registry, journal, opening, sent, station, step, take_input, was_posted};
ghost use Rattle.protocol.specs.declared.event.WorldEvent.{WorldEvent};
ghost use Rattle.world.specs.Cores.{journal_of, node_of, scheme_of};
ghost use Rattle.world.specs.Stations.{uncommitted};

use crate::any_core::Core;
use crate::station::Station;
use crate::stations::{cores_of, opening_stations, uncommitted_stations};
use protocol::{Outcome, Posted, WorldEvent, index_of};
use scheme::Scheme;
use status::Moment;
use std::alloc::Global;
use std::marker::Model;
use units::{NoMemory, Node};
use wire::{Input, Message};

/// All nodes of a scheme, the log first and then the registries in byte order, and the bag of all messages that were
/// ever posted. In contracts it is the protocol's world.
#[derive(Debug)]
pub struct World {
    alloc: Global,
    pub(crate) scheme: Scheme,
    pub(crate) stations: Vec<Station>,
    pub(crate) bag: Vec<Posted>,
}

// Written out, since a derived destructor is proved anew in each crate that lets a value go.
impl Drop for World {
    fn drop(self) {
        let World {
            alloc: _,
            scheme,
            stations,
            bag,
        } = self;
        drop(scheme);
        drop(stations);
        drop(bag);
    }
}

impl Model for World {
    ghost use Rattle.std.specs.Coded.{codes};
    ghost use Rattle.scheme.specs.contracts.registries.Scheme as kept_scheme;
    ghost use Rattle.protocol.specs.World as protocol;
    ghost use Rattle.world.specs.Kept.{AreKept, world_of};

    ghost Value = { protocol.World };

    ghost coded = { Prim.hlevel (codes, kept_scheme.the_row.coded) };

    ghost view = { λ w. world_of w.scheme w.stations.items w.bag.items };

    ghost invariant = { λ w. AreKept w.scheme w.stations.items w.bag.items };
}

fn copied(message: Option<&Message>) -> Result<Option<Message>, NoMemory>
    ensures { IfOk result (λ m. m ≡ option_copied message.entry) }
{
    match message {
        Some(message) => Ok(Some(message.copy()?)),
        None => Ok(None),
    }
}

fn message_at(bag: &[Posted], index: u64) -> Option<&Message>
    ensures { option_copied result ≡ option_map (λ p. p.message) (slice_get bag.now index) }
{
    let posted = bag.get(index as usize)?;
    Some(&posted.message)
}

fn is_registry(node: Node) -> bool
    ensures { result ≡ is_registry node }
{
    match node {
        Node::Registry(_) => true,
        Node::Itl => false,
    }
}

impl World {
    /// The opening world of a scheme: empty journals, an empty bag, all nodes running. Fails with `NoMemory` where
    /// memory runs out.
    pub(crate) fn new(alloc: Global, scheme: &Scheme) -> Result<World, NoMemory>
        ensures { IfOk result (λ w. w ≡ opening scheme.now) }
    {
        let stations = opening_stations(alloc, scheme)?;
        Ok(World {
            alloc,
            scheme: scheme.copy(alloc)?,
            stations,
            bag: Vec::new(alloc),
        })
    }

    /// The world of these cores, one for each node of the scheme: the log's, then those of the registries in the
    /// scheme's order. Each node runs, its core's journal is its tail, nothing is committed, and no message is posted.
    /// Fails with `NoMemory` where memory runs out.
    ///
    /// No list of events need lead to this world: the guarantees of a `ReachedWorld` need not hold for it.
    pub fn uncommitted(alloc: Global, scheme: &Scheme, cores: Vec<Core>) -> Result<World, NoMemory>
        requires nodes { map node_of cores.items ≡ nodes scheme.now }
        requires schemes { All (λ core. scheme_of core ≡ scheme.now) cores.items }
        ensures { IfOk result (λ w. w ≡ uncommitted scheme.now cores.items) }
    {
        let stations = uncommitted_stations(alloc, cores)?;
        Ok(World {
            alloc,
            scheme: scheme.copy(alloc)?,
            stations,
            bag: Vec::new(alloc),
        })
    }

    /// The cores of all nodes, each with its journal and the tail: the log's, then those of the registries in the
    /// scheme's order. Each core has the world's scheme. Fails with `NoMemory` where memory runs out; the world is lost
    /// then too.
    pub fn into_cores(self) -> Result<Vec<Core>, NoMemory>
        ensures stations { map (λ s. s.node) self.stations ≡ nodes self.scheme }
        ensures nodes { IfOk result (λ v. map node_of v.items ≡ nodes self.scheme) }
        ensures schemes { IfOk result (λ v. All (λ core. scheme_of core ≡ self.scheme) v.items) }
        ensures journals { IfOk result (λ v. map journal_of v.items ≡ map journal self.stations) }
    {
        let World {
            alloc,
            scheme,
            stations,
            bag,
        } = self;
        drop(scheme);
        drop(bag);
        cores_of(alloc, stations)
    }

    /// Whether the node posted the message with that key.
    fn was_posted(&self, node: Node, key: u64) -> bool
        ensures { result ≡ was_posted self.now node key }
    {
        match index_of(&self.scheme, node) {
            Some(at) => self.stations[at].posted.contains(&key),
            None => false,
        }
    }

    /// Whether the node takes such inputs as orders, or the input acknowledges a message that it posted. A message that
    /// was received is no order.
    pub fn is_order(&self, node: Node, input: &Input) -> bool
        ensures { result ≡ is_order self.now node input.now }
    {
        match input {
            Input::Propose(_)
            | Input::Request(_)
            | Input::OpenAccount(_)
            | Input::CloseAccount(_) => is_registry(node),
            Input::CleanUp(_) | Input::Eligible { .. } => !is_registry(node),
            Input::Ack(key) => self.was_posted(node, key.value),
            Input::Received { .. } => false,
        }
    }

    /// The node takes an input.
    fn take(&mut self, node: Node, input: &Input) -> Result<Outcome, NoMemory>
        ensures ok { IfOk result
            (λ o. record { world = self.new; outcome = o }
            ≡ at_node self.old (station self.old node) (take_input self.old.scheme input.now)) }
        ensures err { OnErr result (self.new ≡ self.old) }
    {
        match index_of(&self.scheme, node) {
            Some(at) => self.stations[at].take(input),
            None => Ok(Outcome::NotPossible),
        }
    }

    /// The node takes an order.
    fn order(&mut self, node: Node, input: &Input) -> Result<Outcome, NoMemory>
        ensures ok { IfOk result
            (λ o. record { world = self.new; outcome = o } ≡ step self.old (WorldEvent.Take node input.now)) }
        ensures err { OnErr result (self.new ≡ self.old) }
    {
        if self.is_order(node, input) {
            self.take(node, input)
        } else {
            Ok(Outcome::NotPossible)
        }
    }

    fn commit(&mut self, node: Node, count: u64) -> Outcome
        ensures { record { world = self.new; outcome = result } ≡ step self.old (WorldEvent.Commit node count) }
    {
        match index_of(&self.scheme, node) {
            Some(at) => self.stations[at].commit(count),
            None => Outcome::NotPossible,
        }
    }

    fn crash(&mut self, node: Node, kept: u64) -> Result<Outcome, NoMemory>
        ensures ok { IfOk result
            (λ o. record { world = self.new; outcome = o } ≡ step self.old (WorldEvent.Crash node kept)) }
        ensures err { OnErr result (self.new ≡ self.old) }
    {
        match index_of(&self.scheme, node) {
            Some(at) => self.stations[at].crash(kept),
            None => Ok(Outcome::NotPossible),
        }
    }

    fn restart(&mut self, node: Node) -> Outcome
        ensures { record { world = self.new; outcome = result } ≡ step self.old (WorldEvent.Restart node) }
    {
        match index_of(&self.scheme, node) {
            Some(at) => self.stations[at].restart(),
            None => Outcome::NotPossible,
        }
    }

    fn post(&mut self, node: Node, key: u64) -> Result<Outcome, NoMemory>
        ensures ok { IfOk result
            (λ o. record { world = self.new; outcome = o } ≡ step self.old (WorldEvent.Post node key)) }
        ensures err { OnErr result (self.new ≡ self.old) }
    {
        let Some(at) = index_of(&self.scheme, node) else {
            return Ok(Outcome::NotPossible);
        };
        let Some(message) = copied(self.stations[at].sent(key))? else {
            return Ok(Outcome::NotPossible);
        };
        if self.bag.reserve(1).is_err() {
            drop(message);
            return Err(NoMemory);
        }
        if let Err(NoMemory) = self.stations[at].mark_posted(key) {
            drop(message);
            return Err(NoMemory);
        }
        self.bag.push_reserved(Posted { node, key, message });
        Ok(Outcome::Done)
    }

    fn deliver(&mut self, index: u64, moment: Moment) -> Result<Outcome, NoMemory>
        ensures ok { IfOk result
            (λ o. record { world = self.new; outcome = o } ≡ step self.old (WorldEvent.Deliver index moment)) }
        ensures err { OnErr result (self.new ≡ self.old) }
    {
        match copied(message_at(self.bag.as_slice(), index))? {
            Some(message) => {
                let node = message.to;
                let input = Input::Received { message, moment };
                let taken = self.take(node, &input);
                drop(input);
                taken
            }
            None => Ok(Outcome::NotPossible),
        }
    }

    /// Moves the world by an event, and returns the outcome. After `NoMemory` the world is as it was.
    ///
    /// Nothing is said of tonnes here, since events need not have led to this world: `ReachedWorld::apply` does.
    pub fn step(&mut self, event: &WorldEvent) -> Result<Outcome, NoMemory>
        ensures ok { IfOk result (λ o. record { world = self.new; outcome = o } ≡ step self.old event.now) }
        ensures err { OnErr result (self.new ≡ self.old) }
    {
        match event {
            WorldEvent::Take { node, input } => self.order(*node, input),
            WorldEvent::Commit { node, count } => Ok(self.commit(*node, *count)),
            WorldEvent::Post { node, key } => self.post(*node, *key),
            WorldEvent::Deliver { message, moment } => self.deliver(*message, *moment),
            WorldEvent::Crash { node, kept } => self.crash(*node, *kept),
            WorldEvent::Restart { node } => Ok(self.restart(*node)),
        }
    }
}
