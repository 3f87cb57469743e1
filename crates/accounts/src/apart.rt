//! Blocks that share no unit.
ghost use Rattle.std.specs.Prelude.{◌≡◌, IfOk};
ghost use Rattle.units.specs.Apart.{AllApart};
ghost use Rattle.units.specs.Unit.{covers};
ghost use Rattle.units.specs.declared.block.Block.{Block};
ghost use Rattle.units.specs.declared.block.Unit.{Unit as Serial};
ghost use Rattle.accounts.specs.Refusals.{IsUnitOf};
ghost use Rattle.accounts.specs.Tables.{units_in};

use std::alloc::Global;
use units::{Block, NoMemory, UnitMap, blocks_of};

/// Blocks that share no unit and together have the units of the given blocks. Each unit has the kind of one of the
/// given blocks.
pub(crate) fn apart(alloc: Global, blocks: &[Block]) -> Result<Vec<Block>, NoMemory>
    ensures apart { IfOk result (λ v. AllApart v.items) }
    ensures same { IfOk result (λ v. (s : Serial) → covers v.items s ≡ covers blocks.now s) }
    ensures kinds { IfOk result (λ v. (p : Block) (s : Serial) → IsUnitOf v.items p s → (b : Block)
        × IsUnitOf blocks.now b s × (b.raw.kind ≡ p.raw.kind)) }
{
    let mut kinds = UnitMap::new(alloc);
    for block in blocks {
        kinds.set(block, Some(block.raw.kind))?;
    }
    let intervals = kinds.in_order()?;
    Ok(blocks_of(alloc, &intervals)?)
}

/// The number of units of the blocks.
pub(crate) fn count(blocks: &[Block]) -> u64
    requires { AllApart blocks.now }
    ensures { result ≡ units_in blocks.now }
{
    let mut count = 0;
    for block in blocks {
        count += block.count();
    }
    count
}
