//! The numbers in the bag of the messages of each transaction.
ghost use Rattle.std.specs.BTreeMap as tree;
ghost use Rattle.std.specs.Option.{option_map_or};
ghost use Rattle.std.specs.Prelude.{◌≡◌, ◌↔◌, ◌++◌, ◌∷◌, [], ℕ, Contains, IfNone, IfSome, IsTrue, OnOk, if◌then◌else◌};
ghost use Rattle.status.specs.Id.{id_cmp, same_id};
ghost use Rattle.status.specs.declared.id.TransactionId.{TransactionId};
ghost use Rattle.weave.specs.Steps.{AreAllNumbered, HasMessage};

use status::TransactionId;
use std::alloc::Global;
use std::collections::BTreeMap;
use units::NoMemory;
use wire::Message;
use world::World;

/// Adds a number to those of a transaction. After `NoMemory` the transaction may have an empty list.
pub(crate) fn add_number(
    alloc: Global,
    numbers: &mut BTreeMap<TransactionId, Vec<u64>>,
    id: TransactionId,
    number: u64,
) -> Result<(), NoMemory>
    ensures { OnOk result ((t : TransactionId) → option_map_or (λ v. v.items) (tree.get id_cmp numbers.new t) []
        ≡ (if same_id id t then option_map_or (λ v. v.items) (tree.get id_cmp numbers.old t) [] ++ number ∷
        [] else option_map_or (λ v. v.items) (tree.get id_cmp numbers.old t) [])) }
{
    if let Some(found) = numbers.get_mut(&id) {
        found.push(number)?;
        return Ok(());
    }
    let mut first = Vec::new(alloc);
    first.push(number)?;
    numbers.insert(id, first)?;
    Ok(())
}

/// Whether the bag has the message with that number.
fn is_there(world: &World, number: u64, message: &Message) -> bool
    ensures { IsTrue result ↔ HasMessage world.now.bag message.now number }
{
    match world.bag_message(number) {
        Some(posted) => posted.message.same(message),
        None => false,
    }
}

/// The first of the numbers with which the bag has the message.
fn find_number(world: &World, numbers: &[u64], message: &Message) -> Option<u64>
    ensures some { IfSome result (HasMessage world.now.bag message.now) }
    ensures none { IfNone result ((k : ℕ) → Contains numbers.now k → HasMessage world.now.bag message.now k → ⊥) }
{
    for number in numbers {
        if is_there(world, *number, message) {
            return Some(*number);
        }
    }
    None
}

/// A number with which the bag has the message, found by the numbers of its transaction.
pub(crate) fn number_in_bag(
    world: &World,
    numbers: &BTreeMap<TransactionId, Vec<u64>>,
    message: &Message,
) -> Option<u64>
    requires { AreAllNumbered (λ t. option_map_or (λ v. v.items) (tree.get id_cmp numbers.now t) []) world.now.bag }
    ensures some { IfSome result (HasMessage world.now.bag message.now) }
    ensures none { IfNone result ((k : ℕ) → HasMessage world.now.bag message.now k → ⊥) }
{
    let found = numbers.get(&message.id)?;
    find_number(world, found.as_slice(), message)
}
