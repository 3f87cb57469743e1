//! Blocks that share a unit.
ghost use Rattle.std.specs.Prelude.{◌≡◌};
ghost use Rattle.std.specs.Bool.{OnTrue, OnFalse};
ghost use Rattle.std.specs.List.{list_any};
ghost use Rattle.units.specs.Apart.{AllApart};
ghost use Rattle.units.specs.Cutting.{blocks_meet};

use crate::block::Block;

/// Whether the two have one origin and period, and numbers that meet.
fn meet(a: &Block, b: &Block) -> bool
    ensures { result ≡ blocks_meet a.now.raw b.now.raw }
{
    a.raw.origin == b.raw.origin
        && a.raw.period == b.raw.period
        && a.raw.first <= b.raw.last
        && b.raw.first <= a.raw.last
}

/// Whether the block meets one of the others.
fn meets_any(block: &Block, others: &[Block]) -> bool
    ensures { result ≡ list_any (λ o. blocks_meet block.now.raw o.raw) others.now }
{
    others.iter().any(|other| meet(block, other))
}

/// Whether a unit is in two of the blocks, regardless of their kinds. Compares every pair of blocks. Takes no memory.
pub fn overlaps(blocks: &[Block]) -> bool
    ensures none { OnFalse result (AllApart blocks.now) }
    ensures some { OnTrue result (AllApart blocks.now → ⊥) }
{
    let mut rest = blocks;
    while let Some((block, later)) = rest.split_first() {
        if meets_any(block, later) {
            return true;
        }
        rest = later;
    }
    false
}
