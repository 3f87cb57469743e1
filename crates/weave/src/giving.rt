//! Events that give a node an input.
ghost use Rattle.std.specs.BTreeMap as tree;
ghost use Rattle.std.specs.Option.{option_map_or};
ghost use Rattle.std.specs.Prelude.{◌≡◌, ◌↔◌, [], IfNone, IfOk, IfSome, IsTrue};
ghost use Rattle.status.specs.Id.{id_cmp};
ghost use Rattle.weave.specs.Steps.{AreAllNumbered, Fits, IsNextBy, IsNotRecorded, Waits, whole_at, without_tails};

use crate::committed::next_input;
use crate::numbers::number_in_bag;
use protocol::WorldEvent;
use status::{Moment, TransactionId};
use std::collections::BTreeMap;
use units::{NoMemory, Node};
use wire::{Input, Message};
use world::World;

fn are_same_nodes(a: Node, b: Node) -> bool
    ensures { IsTrue result ↔ a ≡ b }
{
    a == b
}

/// The delivery of a message to the node, where the message is for that node and in the bag.
fn delivery_of(
    world: &World,
    numbers: &BTreeMap<TransactionId, Vec<u64>>,
    node: Node,
    message: &Message,
    moment: Moment,
) -> Option<WorldEvent>
    requires { AreAllNumbered (λ t. option_map_or (λ v. v.items) (tree.get id_cmp numbers.now t) []) world.now.bag }
    ensures some { IfSome result (λ e. Fits world.now e node (Input.Received message.now moment)) }
    ensures none { IfNone result (IsNotRecorded (without_tails world.now) node (Input.Received message.now moment)) }
{
    if !are_same_nodes(message.to, node) {
        return None;
    }
    let number = number_in_bag(world, numbers, message)?;
    Some(WorldEvent::Deliver {
        message: number,
        moment,
    })
}

/// An event that gives the node the input, or `None` where no event makes the node record it after the committed ones.
fn event_for(
    world: &World,
    numbers: &BTreeMap<TransactionId, Vec<u64>>,
    node: Node,
    input: &Input,
) -> Result<Option<WorldEvent>, NoMemory>
    requires { AreAllNumbered (λ t. option_map_or (λ v. v.items) (tree.get id_cmp numbers.now t) []) world.now.bag }
    ensures some { IfOk result (λ o. IfSome o (λ e. Fits world.now e node input.now)) }
    ensures none { IfOk result (λ o. IfNone o (IsNotRecorded (without_tails world.now) node input.now)) }
{
    if let Input::Received { message, moment } = input {
        return Ok(delivery_of(world, numbers, node, message, *moment));
    }
    if !world.is_order(node, input) {
        return Ok(None);
    }
    let input = input.copy()?;
    Ok(Some(WorldEvent::Take { node, input }))
}

/// An event that gives the node the first record of its tail, or `None` where there is none or no event makes the node
/// record it after the committed ones.
pub(crate) fn next_event(
    world: &World,
    numbers: &BTreeMap<TransactionId, Vec<u64>>,
    node: Node,
) -> Result<Option<WorldEvent>, NoMemory>
    requires { AreAllNumbered (λ t. option_map_or (λ v. v.items) (tree.get id_cmp numbers.now t) []) world.now.bag }
    ensures some { IfOk result (λ o. IfSome o (IsNextBy world.now node)) }
    ensures none { IfOk result (λ o. IfNone o (Waits (without_tails world.now) (whole_at world.now) node)) }
{
    let Some(input) = next_input(world, node) else {
        return Ok(None);
    };
    event_for(world, numbers, node, input)
}
