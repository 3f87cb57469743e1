//! Queries on a world: for each node, its journal with the tail, and the contents of its core's tables.
ghost use Rattle.std.specs.List.{filter, filter_map, list_any};
ghost use Rattle.std.specs.Option.{option_copied, option_to_list};
ghost use Rattle.std.specs.Prelude.{◌≡◌, ◌++◌, [], cond, map, is_some, slice_get, Some, None, option_map, option_and_then, IfOk, IfNone, IfSome, OnOk};
ghost use Rattle.units.specs.Unit.{covers, have_unit};
ghost use Rattle.protocol.specs.Claims.{at_registry, live_of};
ghost use Rattle.protocol.specs.Cores.{Replays};
ghost use Rattle.protocol.specs.History.{holds, is_status, spendable, stands, transitions_of};
ghost use Rattle.protocol.specs.Registries.{has_member, is_node};
ghost use Rattle.protocol.specs.Table.{due, is_due, proposed, proposed_in, transactions};
ghost use Rattle.protocol.specs.World.{journal, station};
ghost use Rattle.registry_core.specs.Registry.{past};
ghost use Rattle.world.specs.Cores.{node_of, scheme_of};
ghost use Rattle.world.specs.RegistryLines.{registry_at};
ghost use Rattle.world.specs.Stations.{station_of};
ghost use Rattle.world.specs.Stocks.{AreStocks, HoldsIf};
ghost use Rattle.world.specs.Transfers.{transfer_of};

use crate::any_core::Core;
use crate::station::Station;
use crate::world::World;
use protocol::{NodeCore, Posted, index_of};
use registry_core::RegistryCore;
use registry_core::accounts::HeldBlock;
use scheme::Scheme;
use status::{Content, Status, TransactionId};
use std::alloc::Global;
use units::{Block, Code, Items, NoMemory, Node, Unit};
use wire::{Body, Input, Message};

/// The holdings of a registry: lines by account and then in the order of units.
#[derive(Debug)]
pub struct Stock {
    pub code: Code,
    pub lines: Items<HeldBlock>,
}

// Written out, since a derived destructor is proved anew in each crate that lets a value go.
impl Drop for Stock {
    fn drop(self) {
        let Stock { code: _, lines } = self;
        drop(lines);
    }
}

/// A transfer that a registry proposed.
#[derive(Clone, Copy, Debug)]
pub struct ProposedTransfer<'a> {
    pub id: TransactionId,
    pub content: &'a Content,
}

fn is_completed(status: Option<Status>) -> bool
    ensures { result ≡ is_status status Status.Completed }
{
    match status {
        Some(status) => status == Status::Completed,
        None => false,
    }
}

/// Whether one of the blocks has the unit.
fn has_unit_in(blocks: &[Block], unit: &Unit) -> bool
    ensures { result ≡ covers blocks.now unit.now }
{
    blocks.iter().any(|b| b.has(unit))
}

/// Whether the content has the unit.
fn has_unit(content: &Content, unit: &Unit) -> bool
    ensures { result ≡ have_unit content.now.units unit.now }
{
    has_unit_in(content.units(), unit)
}

/// The transfer that the message proposes, if it is a proposal.
fn proposed_by(message: &Message) -> Option<ProposedTransfer<'_>>
    ensures { option_map transfer_of result ≡ proposed_in message.now.id message.now.body }
{
    match &message.body {
        Body::Proposal(proposal) => Some(ProposedTransfer {
            id: message.id,
            content: &proposal.content,
        }),
        _ => None,
    }
}

/// Adds the transfer that the message proposes, if it is a proposal.
fn add_proposed<'a>(
    transfers: &mut Vec<ProposedTransfer<'a>>,
    message: Option<&'a Message>,
) -> Result<(), NoMemory>
    ensures { OnOk result (map transfer_of transfers.new.items ≡ map transfer_of transfers.old.items ++ option_to_list
        (option_and_then (λ m. proposed_in m.id m.body) (option_copied message.entry))) }
{
    let Some(message) = message else {
        return Ok(());
    };
    if let Some(transfer) = proposed_by(message) {
        transfers.push(transfer)?;
    }
    Ok(())
}

/// Adds the transfers that the registry proposed, in the order of the keys of its messages.
fn add_all_proposed<'a>(
    transfers: &mut Vec<ProposedTransfer<'a>>,
    core: &'a RegistryCore,
) -> Result<(), NoMemory>
    ensures { OnOk result
        (map transfer_of transfers.new.items ≡ map transfer_of transfers.old.items ++ proposed (past core.now)) }
{
    for key in 0..core.sends() {
        add_proposed(transfers, core.outbox(key))?;
    }
    Ok(())
}

impl World {
    /// The scheme of the world.
    pub fn scheme(&self) -> &Scheme
        ensures { result.now ≡ self.now.scheme }
    {
        &self.scheme
    }

    /// The station of that node, if the scheme has such a node.
    fn station(&self, node: Node) -> Option<&Station>
        ensures seen { option_map station_of (option_copied result) ≡ station self.now node }
        ensures there { is_some result ≡ is_node self.now.scheme node }
        ensures scheme { IfSome result (λ s. scheme_of s.now.core ≡ self.now.scheme) }
        ensures node { IfSome result (λ s. node_of s.now.core ≡ node) }
        ensures none { IfNone result (live_of self.now node ≡ []) }
    {
        let at = index_of(&self.scheme, node)?;
        Some(&self.stations[at])
    }

    /// Where a transaction stands at a node, or `None` where the node has no record of it or the scheme has no such
    /// node.
    pub fn status(&self, node: Node, id: TransactionId) -> Option<Status>
        ensures { result ≡ stands (transitions_of (live_of self.now node)) id }
    {
        let station = self.station(node)?;
        station.core.status_of(id)
    }

    /// A node's journal with its tail, or `None` where the scheme has no such node. Each record was recorded at its
    /// place after those before it.
    pub fn journal(&self, node: Node) -> Option<&[Input]>
        ensures value { option_copied result ≡ option_map journal (station self.now node) }
        ensures replays { IfSome result (λ j. Replays self.now.scheme node j.now) }
    {
        let station = self.station(node)?;
        Some(station.core.journal())
    }

    /// A node's committed journal, or `None` where the scheme has no such node.
    pub fn committed(&self, node: Node) -> Option<&[Input]>
        ensures { option_copied result ≡ option_map (λ s. s.committed) (station self.now node) }
    {
        let station = self.station(node)?;
        Some(&station.core.journal()[..station.committed])
    }

    /// The message with that number in the bag, with the node that posted it and its key there.
    pub fn bag_message(&self, index: u64) -> Option<&Posted>
        ensures { option_copied result ≡ slice_get self.now.bag index }
    {
        self.bag.get(index as usize)
    }

    /// The bag: every message that was ever posted, the oldest first.
    pub fn bag(&self) -> &[Posted]
        ensures { result.now ≡ self.now.bag }
    {
        self.bag.as_slice()
    }

    /// The core of the registry of that code, if the scheme has such a registry.
    fn registry(&self, code: Code) -> Option<&RegistryCore>
        ensures core { option_copied result
            ≡ cond (has_member self.now.scheme code) (Some (registry_at self.now code)) None }
        ensures none { IfNone result (live_of self.now (Node.Registry code) ≡ []) }
    {
        match &self.station(Node::Registry(code))?.core {
            Core::Registry(core) => Some(core),
            Core::Log(_) => None,
        }
    }

    /// Whether a registry holds a unit.
    pub fn held(&self, registry: Code, unit: &Unit) -> bool
        ensures { result ≡ holds self.now.scheme registry (at_registry (live_of self.now) registry) unit.now }
    {
        match self.registry(registry) {
            Some(core) => core.held(unit),
            None => false,
        }
    }

    /// Whether a registry holds a unit, and no transfer reserves it.
    pub fn spendable(&self, registry: Code, unit: &Unit) -> bool
        ensures { result ≡ spendable self.now.scheme registry (at_registry (live_of self.now) registry) unit.now }
    {
        match self.registry(registry) {
            Some(core) => core.spendable(unit),
            None => false,
        }
    }

    /// The holdings of a registry, as lines by account and then in the order of units; or `None` where the scheme has
    /// no such registry. Fails with `NoMemory` where memory runs out.
    pub fn holdings(&self, registry: Code) -> Result<Option<Vec<HeldBlock>>, NoMemory>
        ensures { IfOk result
            (λ found. HoldsIf (registry_at self.now registry) (has_member self.now.scheme registry)
            (option_map (λ v. v.items) found)) }
    {
        match self.registry(registry) {
            Some(core) => Ok(Some(core.lines()?)),
            None => Ok(None),
        }
    }

    /// The transfers that registries proposed, by code and then by number. Fails with `NoMemory` where memory runs out.
    pub fn transactions(&self, alloc: Global) -> Result<Vec<ProposedTransfer<'_>>, NoMemory>
        ensures { IfOk result (λ v. map transfer_of v.items ≡ transactions self.now) }
    {
        let mut transfers = Vec::new(alloc);
        for member in self.scheme.registries() {
            if let Some(core) = self.registry(member.code) {
                add_all_proposed(&mut transfers, core)?;
            }
        }
        Ok(transfers)
    }

    /// Whether the transfer stands Completed at its initiator and not at its acquirer.
    fn is_due(&self, transfer: ProposedTransfer<'_>) -> bool
        ensures { result ≡ is_due (live_of self.now) (transfer_of transfer.entry) }
    {
        let initiator = Node::Registry(transfer.id.code);
        let acquirer = Node::Registry(transfer.content.acquirer());
        is_completed(self.status(initiator, transfer.id))
            && !is_completed(self.status(acquirer, transfer.id))
    }

    /// The transfers that owe their units, by code and then by number: Completed at their initiators and not at their
    /// acquirers. Looks at each transfer once. Fails with `NoMemory` where memory runs out.
    pub fn due(&self, alloc: Global) -> Result<Vec<ProposedTransfer<'_>>, NoMemory>
        ensures { IfOk result (λ v. map transfer_of v.items ≡ due self.now) }
    {
        let transactions = self.transactions(alloc)?;
        let mut due = Vec::new(alloc);
        for transfer in transactions.as_slice() {
            if self.is_due(*transfer) {
                due.push(*transfer)?;
            }
        }
        Ok(due)
    }

    /// The transfers that owe a unit, by code and then by number. Fails with `NoMemory` where memory runs out.
    pub fn owed(&self, alloc: Global, unit: &Unit) -> Result<Vec<TransactionId>, NoMemory>
        ensures { IfOk result
            (λ v. v.items ≡ map (λ p. p.id) (filter (λ p. have_unit p.content.units unit.now) (due self.now))) }
    {
        let due = self.due(alloc)?;
        let mut owed = Vec::new(alloc);
        for transfer in due.as_slice() {
            if has_unit(transfer.content, unit) {
                owed.push(transfer.id)?;
            }
        }
        Ok(owed)
    }

    /// The holdings of each registry, in the scheme's order. Fails with `NoMemory` where memory runs out.
    pub fn stocks(&self, alloc: Global) -> Result<Vec<Stock>, NoMemory>
        ensures { IfOk result (λ v. AreStocks self.now self.now.scheme.members v.items) }
    {
        let mut stocks = Vec::new(alloc);
        for member in self.scheme.registries() {
            if let Some(core) = self.registry(member.code) {
                stocks.push(Stock {
                    code: member.code,
                    lines: Items::from_vec(core.lines()?),
                })?;
            }
        }
        Ok(stocks)
    }
}
