//! The records that a node has committed, and the rest of its journal.
ghost use Rattle.std.specs.Prelude.{◌≡◌, IfSome, Ok, length, option_copied, slice_get};
ghost use Rattle.protocol.specs.Cores.{answer};
ghost use Rattle.protocol.specs.declared.node_core.Stepped.TheVariants as stepped;
ghost use Rattle.weave.specs.Following.{committed_at};
ghost use Rattle.weave.specs.Steps.{whole_at};

use units::Node;
use wire::Input;
use world::World;

/// The number of records that the node has committed.
pub(crate) fn committed_count(world: &World, node: Node) -> usize
    ensures { result ≡ length (committed_at world.now node) }
{
    match world.committed(node) {
        Some(committed) => committed.len(),
        None => 0,
    }
}

/// The record of the journal at that place.
fn record_at(journal: &[Input], place: usize) -> Option<&Input>
    ensures { option_copied result ≡ slice_get journal.now place }
{
    journal.get(place)
}

/// The first record of the node's tail; the node records it after the committed ones.
pub(crate) fn next_input(world: &World, node: Node) -> Option<&Input>
    ensures value { option_copied result ≡ slice_get (whole_at world.now node) (length (committed_at world.now node)) }
    ensures recorded { IfSome result
        (λ input. answer world.now.scheme node (committed_at world.now node) input.now
        ≡ Ok (stepped.Recorded (length (committed_at world.now node)))) }
{
    let journal = world.journal(node)?;
    record_at(journal, committed_count(world, node))
}
