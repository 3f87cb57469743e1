//! Records that are left.
ghost use Rattle.std.specs.Prelude.{◌≡◌, IfNone, IfSome, length};
ghost use Rattle.weave.specs.Left.{AreDoneBelow, IsLeft, count_at};

use crate::committed::committed_count;
use protocol::index_of;
use scheme::Scheme;
use units::Node;
use world::World;

/// A record that a node has not recorded yet.
#[derive(Clone, Copy)]
pub(crate) struct Left {
    pub node: Node,
    pub place: usize,
}

/// The number of records of that node's journal, by the node's index.
fn record_count(scheme: &Scheme, counts: &[usize], node: Node) -> usize
    ensures { result ≡ count_at scheme.now counts.now node }
{
    match index_of(scheme, node) {
        Some(at) => counts.get(at).copied().unwrap_or(0),
        None => 0,
    }
}

/// The first of the nodes with a record left, and that record's place. `counts` has the number of records of each
/// node's journal.
pub(crate) fn first_left(
    world: &World,
    scheme: &Scheme,
    among: &[Node],
    counts: &[usize],
) -> Option<Left>
    ensures some { IfSome result (λ l. IsLeft world.now (count_at scheme.now counts.now) among.now l.node l.place) }
    ensures none { IfNone result
        (AreDoneBelow world.now (count_at scheme.now counts.now) among.now (length among.now)) }
{
    for node in among {
        let place = committed_count(world, *node);
        if place < record_count(scheme, counts, *node) {
            return Some(Left { node: *node, place });
        }
    }
    None
}
