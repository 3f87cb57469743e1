//! The units of a scheme's allotments, as a map from units to who holds them at the start.
ghost use Rattle.std.specs.Prelude.{◌≡◌, IfOk, OnOk, option_map};
ghost use Rattle.std.specs.FinMap as map;
ghost use Rattle.std.specs.List.{find};
ghost use Rattle.std.specs.Option.{option_or};
ghost use Rattle.units.specs.Unit.{has_unit};
ghost use Rattle.units.specs.declared.block.Unit.{Unit as Serial};
ghost use Rattle.scheme.specs.Allotted.{allotted, allotted_in, holder};

use crate::members::{Allotment, Holder};
use crate::registries::Scheme;
use std::alloc::Global;
use units::{Block, Code, NoMemory, UnitMap};

/// Gives the blocks' units to the account, even those that were given to another one.
fn put_blocks(
    holders: &mut UnitMap<Holder>,
    registry: Code,
    account: u64,
    blocks: &[Block],
) -> Result<(), NoMemory>
    ensures { OnOk result ((u : Serial)
        → map.get holders.new u
        ≡ option_or (option_map (λ b. holder registry account b.raw.kind) (find (λ b. has_unit b.raw u) blocks.now))
        (map.get holders.old u)) }
{
    // from the last block, since the first one with a unit decides
    let mut left = blocks.len();
    while left > 0 {
        left -= 1;
        let block = blocks[left];
        let kind = block.raw.kind;
        let holder = Holder {
            registry,
            account,
            kind,
        };
        holders.set(&block, Some(holder))?;
    }
    Ok(())
}

/// Gives each account of the registry the units that it has at the start.
fn put_allotted(
    holders: &mut UnitMap<Holder>,
    registry: Code,
    allotted: &[Allotment],
) -> Result<(), NoMemory>
    ensures { OnOk result ((u : Serial)
        → map.get holders.new u ≡ option_or (allotted_in registry allotted.now u) (map.get holders.old u)) }
{
    let mut left = allotted.len();
    while left > 0 {
        left -= 1;
        let allotment = &allotted[left];
        put_blocks(
            holders,
            registry,
            allotment.account,
            allotment.units.as_slice(),
        )?;
    }
    Ok(())
}

impl Scheme {
    /// Who holds each allotted unit at the start, or `NoMemory`.
    pub fn allotments(&self, alloc: Global) -> Result<UnitMap<Holder>, NoMemory>
        ensures { IfOk result (λ m. (u : Serial) → map.get m u ≡ allotted self.now.members u) }
    {
        let mut holders = UnitMap::new(alloc);
        let members = self.registries();
        let mut left = members.len();
        while left > 0 {
            left -= 1;
            let member = &members[left];
            put_allotted(&mut holders, member.code, member.allotted.as_slice())?;
        }
        Ok(holders)
    }
}
