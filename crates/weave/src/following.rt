//! Journals followed into one world, as far as posted messages allow.
//!
//! All records are in the world from the beginning. The records that have been followed are committed, and the others
//! are the tails. A step commits one record more: an order or an acknowledgement at any time, and a message where the
//! bag has it. After each step these hold:
//!
//! - the noted events lead from the opening world to this one without its tails;
//! - the committed records of a node and its tail are its whole journal, at every time the same one;
//! - each message that a committed record sends is in the bag, `numbers` has its number there, and `posted` counts it;
//! - a node that isn't pending rests: it has no record left, or no event of the world leads to its next one.
//!
//! A step makes the node pending that recorded, and the receiver of each message that it sent. No other node can go on
//! because of the step, since a node waits only for messages to itself. Where none is pending, all rest, and the
//! journals can't be followed further. The bag only grows, and no step stops another node: the order of the visits
//! doesn't matter.
ghost use Rattle.std.specs.Prelude.{◌≡◌, ◌<◌, ◌≤◌, ◌+◌, ◌++◌, ◌∷◌, [], All, IfOk, OnOk, Some, length, map, slice_index, vec_capacity, vec_len};
ghost use Rattle.units.specs.declared.code.Node.{Node};
ghost use Rattle.scheme.specs.declared.registries.Scheme.{Scheme};
ghost use Rattle.protocol.specs.Registries.{nodes, index_of};
ghost use Rattle.protocol.specs.Weave.{IsQuiet};
ghost use Rattle.protocol.specs.World.{step};
ghost use Rattle.protocol.specs.declared.event.WorldEvent.TheVariants.{Commit, Post};
ghost use Rattle.world.specs.Cores as node_cores;
ghost use Rattle.weave.specs.Following.{journal_of};
ghost use Rattle.weave.specs.Kept.{HasPosted, IsFewer, IsFewerOrDone, IsFollowing, IsFollowingWith, IsPosting, Takes, HasWholeSame};
ghost use Rattle.weave.specs.Steps.{whole_at, without_tails};

use crate::giving::next_event;
use crate::numbers::add_number;
use crate::watch::Watch;
use protocol::{Outcome, WorldEvent, index_of, nodes_of};
use scheme::Scheme;
use status::TransactionId;
use std::alloc::Global;
use std::collections::BTreeMap;
use units::{NoMemory, Node};
use world::{Core, World};

/// The outcome of a visit of a node.
#[derive(Clone, Copy)]
pub(crate) enum Visit {
    /// The world went on.
    Advanced,
    /// The world is as it was: the next record waits, or none is left.
    Rests,
}

/// How far the journals are followed, the events that lead there, and where to look next.
#[derive(Drop)]
pub(crate) struct Following {
    pub alloc: Global,
    /// The records that a node has taken are committed, and the remaining records of its journal are its tail: no core
    /// takes a record again that it has already.
    pub world: World,
    /// These lead to the world without its tails.
    pub events: Vec<WorldEvent>,
    /// The numbers in the bag of the messages of each transaction.
    pub numbers: BTreeMap<TransactionId, Vec<u64>>,
    /// How many messages each node posted, by the node's index.
    pub posted: Vec<u64>,
    /// The nodes that have to be looked at. At all others the next record waits, or none is left.
    pub pending: Vec<Node>,
}

/// Posts the node's message with that key, if there is one.
fn apply_post(world: &mut World, node: Node, key: u64) -> Result<Outcome, NoMemory>
    ensures { IfOk result (λ o. record { world = world.new; outcome = o } ≡ step world.old (Post node key)) }
{
    let event = WorldEvent::Post { node, key };
    let outcome = world.step(&event);
    drop(event);
    outcome
}

impl Following {
    /// The node commits its next record. Returns the event of the commit. There is room then for two events and for one
    /// more node that has to be looked at.
    fn commit_next(&mut self, node: Node) -> Result<WorldEvent, NoMemory>
        ensures event { IfOk result (λ e. e ≡ Commit node 1) }
        ensures world { OnOk result (self.new.world ≡ (step self.old.world (Commit node 1)).world) }
        ensures same { OnOk result ((self.new.events.items ≡ self.old.events.items)
            × (self.new.pending.items ≡ self.old.pending.items) × (self.new.numbers ≡ self.old.numbers)
            × (self.new.posted ≡ self.old.posted)) }
        ensures events { OnOk result (vec_len self.new.events + 2 ≤ vec_capacity self.new.events) }
        ensures pending { OnOk result (vec_len self.new.pending < vec_capacity self.new.pending) }
    {
        self.events.reserve(2)?;
        self.pending.reserve(1)?;
        let commit = WorldEvent::Commit { node, count: 1 };
        match self.world.step(&commit) {
            Ok(_) => Ok(commit),
            Err(NoMemory) => {
                drop(commit);
                Err(NoMemory)
            }
        }
    }

    /// The node commits its next record, which the event gives to the node. Then the node has to be looked at again.
    fn take(&mut self, node: Node, event: WorldEvent) -> Result<(), NoMemory>
        ensures { OnOk result (Takes self.old self.new node event) }
    {
        let commit = match self.commit_next(node) {
            Ok(commit) => commit,
            Err(NoMemory) => {
                drop(event);
                return Err(NoMemory);
            }
        };
        self.events.push_reserved(event);
        self.events.push_reserved(commit);
        self.pending.push_reserved(node);
        Ok(())
    }

    /// Posts the node's message with that key, if there is one. Then its receiver has to be looked at.
    fn post_one(&mut self, node: Node, key: u64) -> Result<Visit, NoMemory>
        ensures { IfOk result (HasPosted self.old self.new node key) }
    {
        let number = self.world.bag().len() as u64;
        match apply_post(&mut self.world, node, key)? {
            Outcome::Done => {}
            _ => return Ok(Visit::Rests),
        }
        let Some(posted) = self.world.bag_message(number) else {
            unreachable!()
        };
        let id = posted.message.id;
        let receiver = posted.message.to;
        add_number(self.alloc, &mut self.numbers, id, number)?;
        self.events.reserve(1)?;
        self.events.push_reserved(WorldEvent::Post { node, key });
        self.pending.push(receiver)?;
        Ok(Visit::Advanced)
    }

    /// Posts the node's messages from that key on, and returns the key that the next one will have.
    fn post_from(&mut self, node: Node, first: u64) -> Result<u64, NoMemory>
        ensures follows { (scheme : Scheme) → IsPosting scheme self.old node first
            → IfOk result (λ key. IsPosting scheme self.new node key × IsQuiet (without_tails self.new.world)) }
        ensures stations { OnOk result (self.new.world.stations ≡ self.old.world.stations) }
        ensures posted { OnOk result (self.new.posted.items ≡ self.old.posted.items) }
    {
        for key in first..u64::MAX {
            if let Visit::Rests = self.post_one(node, key)? {
                return Ok(key);
            }
        }
        // No machine has room for that many messages.
        Err(NoMemory)
    }

    /// Posts the messages that the node at that index has sent and not posted.
    fn post_all(&mut self, node: Node, at: usize) -> Result<(), NoMemory>
        requires { at < length self.old.posted.items }
        ensures follows { (scheme : Scheme) → index_of scheme node ≡ Some at
            → IsPosting scheme self.old node (slice_index self.old.posted.items at)
            → OnOk result (IsFollowing scheme self.new) }
        ensures stations { OnOk result (self.new.world.stations ≡ self.old.world.stations) }
    {
        let first = self.posted[at];
        let until = self.post_from(node, first)?;
        self.posted[at] = until;
        Ok(())
    }

    /// The node commits the next record of its journal and posts the messages that the record sends, if an event gives
    /// it the record now. Then the node has to be looked at again.
    fn record_next(&mut self, scheme: &Scheme, node: Node) -> Result<Visit, NoMemory>
        requires follows { IsFollowingWith scheme.now self.old (self.old.pending.items ++ node ∷ []) }
        requires quiet { IsQuiet (without_tails self.old.world) }
        ensures follows { IfOk result (λ visit. IsFollowing scheme.now self.new) }
        ensures whole { IfOk result (λ visit. HasWholeSame self.old.world self.new.world) }
        ensures fewer { IfOk result (IsFewer (nodes scheme.now) self.old self.new) }
    {
        let Some(at) = index_of(scheme, node) else {
            return Ok(Visit::Rests);
        };
        let Some(event) = next_event(&self.world, &self.numbers, node)? else {
            return Ok(Visit::Rests);
        };
        self.take(node, event)?;
        self.post_all(node, at)?;
        Ok(Visit::Advanced)
    }

    /// One of the nodes that have to be looked at records its next record, if any of them does.
    fn advance(&mut self, scheme: &Scheme) -> Result<Visit, NoMemory>
        requires { IsFollowing scheme.now self.old }
        ensures follows { IfOk result (λ visit. IsFollowing scheme.now self.new) }
        ensures whole { IfOk result (λ visit. HasWholeSame self.old.world self.new.world) }
        ensures fewer { IfOk result (IsFewerOrDone (nodes scheme.now) self.old self.new) }
    {
        while let Some(node) = self.pending.pop() {
            if let Visit::Advanced = self.record_next(scheme, node)? {
                return Ok(Visit::Advanced);
            }
        }
        Ok(Visit::Rests)
    }

    /// The opening world, with the cores' journals as tails. Each node has to be looked at.
    fn new(alloc: Global, scheme: &Scheme, cores: Vec<Core>) -> Result<Following, NoMemory>
        requires nodes { map node_cores.node_of cores.items ≡ nodes scheme.now }
        requires schemes { All (λ core. node_cores.scheme_of core ≡ scheme.now) cores.items }
        ensures follows { IfOk result (IsFollowing scheme.now) }
        ensures whole { IfOk result (λ f. (n : Node)
            → whole_at f.world n ≡ journal_of scheme.now (map node_cores.journal_of cores.items) n) }
    {
        let pending = nodes_of(alloc, scheme)?;
        Ok(Following {
            alloc,
            world: World::uncommitted(alloc, scheme, cores)?,
            events: Vec::new(alloc),
            numbers: BTreeMap::new(alloc),
            posted: vec![in alloc; 0; pending.len()]?,
            pending,
        })
    }
}

/// Follows the journals of the cores as far as they go, and reports each record to the watch.
pub(crate) fn follow<W: Watch>(
    alloc: Global,
    scheme: &Scheme,
    cores: Vec<Core>,
    watch: &mut W,
) -> Result<Following, NoMemory>
    requires nodes { map node_cores.node_of cores.items ≡ nodes scheme.now }
    requires schemes { All (λ core. node_cores.scheme_of core ≡ scheme.now) cores.items }
    ensures follows { IfOk result (IsFollowing scheme.now) }
    ensures whole { IfOk result (λ f. (n : Node)
        → whole_at f.world n ≡ journal_of scheme.now (map node_cores.journal_of cores.items) n) }
    ensures done { IfOk result (λ f. f.pending.items ≡ []) }
{
    let mut following = Following::new(alloc, scheme, cores)?;
    while let Visit::Advanced = following.advance(scheme)? {
        watch.woven();
    }
    Ok(following)
}
