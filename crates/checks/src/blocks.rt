//! Blocks that have a unit twice.
ghost use Rattle.std.specs.Prelude.{◌≡◌};
ghost use Rattle.status.specs.Content.{raws};
ghost use Rattle.protocol.specs.Pieces.{pieces, repeats};

use units::{Block, overlaps};

/// Whether a unit is in two of the blocks, regardless of their kinds. Takes no memory.
pub fn has_repeats(blocks: &[Block]) -> bool
    ensures { result ≡ repeats (pieces (raws blocks.now)) }
{
    overlaps(blocks)
}
