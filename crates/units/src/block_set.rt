//! Sets of units with their kinds.
ghost use Rattle.std.specs.Prelude.{◌≡◌, ◌≢◌, ◌⊎◌, Some, None, IsTrue, IsSome, OnOk, OnErr, IfOk, IfErr, find, map as list_map, if◌then◌else◌};
ghost use Rattle.std.specs.Bool.{OnTrue, OnFalse};
ghost use Rattle.std.specs.FinMap as map;
ghost use Rattle.std.specs.List.{IsAmong};
ghost use Rattle.std.specs.Option.{option_map_or};
ghost use Rattle.units.specs.Apart.{AllApart};
ghost use Rattle.units.specs.Canonical.{AreCanonical, canonical as canonical_form, interval_of};
ghost use Rattle.units.specs.Intervals.{AreKept, label_at};
ghost use Rattle.units.specs.RefusalCodes.{out_of_memory, blocks_overlap, unit_not_held};
ghost use Rattle.units.specs.Spans.{intervals_of};
ghost use Rattle.units.specs.Unit.{has_unit, covers};
ghost use Rattle.units.specs.declared.block.Block.{Block};
ghost use Rattle.units.specs.declared.block.Unit.{Unit as Serial};

use crate::block::{Block, Kind, Unit};
use crate::interval::blocks_of;
use crate::memory::NoMemory;
use crate::overlap::overlaps;
use crate::refusal::Refusal;
use crate::unit_map::{Span, UnitMap};
use std::alloc::Global;
use std::collections::BTreeMap;
use std::marker::Model;

/// Which units there are, and the kind of each.
#[derive(Debug, Drop)]
pub struct BlockSet {
    kinds: UnitMap<Kind>,
}

impl Model for BlockSet {
    ghost use Rattle.std.specs.FinMap as map;
    ghost use Rattle.units.specs.Keys.{unit_cmp};
    ghost use Rattle.units.specs.declared.block.Kind.{Kind};
    ghost use Rattle.units.specs.contracts.block.Kind as kind;
    ghost use Rattle.units.specs.contracts.block.Unit as serial;

    ghost Value = { map.FinMap unit_cmp Kind };

    ghost coded = { map.code serial.the_row.coded kind.the_row.coded };

    ghost view = { λ s. s.kinds };
}

impl BlockSet {
    /// No units. Takes no memory.
    pub fn new(alloc: Global) -> BlockSet
        ensures { result ≡ map.empty }
    {
        BlockSet {
            kinds: UnitMap::new(alloc),
        }
    }

    /// Adds the block's units. Fails with `BLOCKS_OVERLAP` where one of them is there already, of any kind, and with
    /// `OUT_OF_MEMORY` only where none is there. After a refusal nothing has changed.
    pub fn add(&mut self, block: Block) -> Result<(), Refusal>
        ensures ok { OnOk result ((u : Serial)
            → map.get self.new u ≡ (if has_unit block.raw u then Some block.raw.kind else map.get self.old u)) }
        ensures fresh { OnOk result ((u : Serial) → IsTrue (has_unit block.raw u) → map.get self.old u ≡ None) }
        ensures there { IfErr result (λ r. r.code ≡ blocks_overlap → (u : Serial) × IsTrue (has_unit block.raw u)
            × IsSome (map.get self.old u)) }
        ensures memory { IfErr result (λ r. r.code ≡ out_of_memory → (u : Serial) → IsTrue (has_unit block.raw u)
            → map.get self.old u ≡ None) }
        ensures refusals { IfErr result (λ r. (r.code ≡ blocks_overlap) ⊎ (r.code ≡ out_of_memory)) }
        ensures err { OnErr result (self.new ≡ self.old) }
    {
        if !self.kinds.has_none_of(&block) {
            return Err(Refusal::OVERLAP);
        }
        self.kinds.set(&block, Some(block.raw.kind))?;
        Ok(())
    }

    /// Takes the block's units out. Fails with `UNIT_NOT_HELD` where one of them isn't there or is of another kind.
    /// Fails with `OUT_OF_MEMORY` only where all are there: the remaining units may need more blocks. After a refusal
    /// nothing has changed.
    pub fn take(&mut self, block: Block) -> Result<(), Refusal>
        ensures ok { OnOk result ((u : Serial)
            → map.get self.new u ≡ (if has_unit block.raw u then None else map.get self.old u)) }
        ensures held { OnOk result ((u : Serial) → IsTrue (has_unit block.raw u)
            → map.get self.old u ≡ Some block.raw.kind) }
        ensures missing { IfErr result (λ r. r.code ≡ unit_not_held → (u : Serial) × IsTrue (has_unit block.raw u)
            × (map.get self.old u ≢ Some block.raw.kind)) }
        ensures memory { IfErr result (λ r. r.code ≡ out_of_memory → (u : Serial) → IsTrue (has_unit block.raw u)
            → map.get self.old u ≡ Some block.raw.kind) }
        ensures refusals { IfErr result (λ r. (r.code ≡ unit_not_held) ⊎ (r.code ≡ out_of_memory)) }
        ensures err { OnErr result (self.new ≡ self.old) }
    {
        if !self.holds(&block) {
            return Err(Refusal::NOT_HELD);
        }
        self.kinds.set(&block, None)?;
        Ok(())
    }

    /// Adds the units of all the blocks, or of none. Fails with `BLOCKS_OVERLAP` where two of the blocks share a unit
    /// or one of their units is there already, of any kind, and with `OUT_OF_MEMORY` only where neither is the case.
    /// After a refusal nothing has changed.
    pub fn add_all(&mut self, blocks: &[Block]) -> Result<(), Refusal>
        ensures ok { OnOk result ((u : Serial)
            → map.get self.new u
            ≡ option_map_or (λ b. Some b.raw.kind) (find (λ b. has_unit b.raw u) blocks.now) (map.get self.old u)) }
        ensures apart { OnOk result (AllApart blocks.now) }
        ensures fresh { OnOk result ((u : Serial) → IsTrue (covers blocks.now u) → map.get self.old u ≡ None) }
        ensures there { IfErr result (λ r. r.code ≡ blocks_overlap → (AllApart blocks.now → ⊥)
            ⊎ ((u : Serial) × IsTrue (covers blocks.now u) × IsSome (map.get self.old u))) }
        ensures memory { IfErr result (λ r. r.code ≡ out_of_memory → AllApart blocks.now
            × ((u : Serial) → IsTrue (covers blocks.now u) → map.get self.old u ≡ None)) }
        ensures refusals { IfErr result (λ r. (r.code ≡ blocks_overlap) ⊎ (r.code ≡ out_of_memory)) }
        ensures err { OnErr result (self.new ≡ self.old) }
    {
        if overlaps(blocks) {
            return Err(Refusal::OVERLAP);
        }
        if !self.disjoint(blocks) {
            return Err(Refusal::OVERLAP);
        }
        self.kinds.set_all(blocks, |block| Some(block.raw.kind))?;
        Ok(())
    }

    /// Whether each of the block's units is there, of its kind.
    fn holds(&self, block: &Block) -> bool
        ensures all { OnTrue result ((u : Serial) → IsTrue (has_unit block.now.raw u)
            → map.get self.now u ≡ Some block.now.raw.kind) }
        ensures lacking { OnFalse result ((u : Serial) × IsTrue (has_unit block.now.raw u)
            × (map.get self.now u ≢ Some block.now.raw.kind)) }
    {
        let wanted = block.raw.kind;
        self.kinds.has_all_of(block, |kind| kind == wanted)
    }

    /// Whether each unit of the blocks is there, of its block's kind.
    fn holds_each(&self, blocks: &[Block]) -> bool
        ensures all { OnTrue result ((b : Block) (u : Serial) → IsAmong blocks.now b → IsTrue (has_unit b.raw u)
            → map.get self.now u ≡ Some b.raw.kind) }
        ensures lacking { OnFalse result ((b : Block) × (u : Serial) × IsAmong blocks.now b × IsTrue (has_unit b.raw u)
            × (map.get self.now u ≢ Some b.raw.kind)) }
    {
        blocks.iter().all(|block| self.holds(block))
    }

    /// Takes the units of all the blocks out, or of none. Fails with `BLOCKS_OVERLAP` where two of the blocks share a
    /// unit, otherwise with `UNIT_NOT_HELD` where a unit isn't there or is of another kind than its block, and with
    /// `OUT_OF_MEMORY` only where neither is the case. After a refusal nothing has changed.
    pub fn take_all(&mut self, blocks: &[Block]) -> Result<(), Refusal>
        ensures ok { OnOk result ((u : Serial)
            → map.get self.new u ≡ (if covers blocks.now u then None else map.get self.old u)) }
        ensures apart { OnOk result (AllApart blocks.now) }
        ensures held { OnOk result ((b : Block) (u : Serial) → IsAmong blocks.now b → IsTrue (has_unit b.raw u)
            → map.get self.old u ≡ Some b.raw.kind) }
        ensures shared { IfErr result (λ r. r.code ≡ blocks_overlap → AllApart blocks.now → ⊥) }
        ensures missing { IfErr result (λ r. r.code ≡ unit_not_held → AllApart blocks.now
            × ((b : Block) × (u : Serial) × IsAmong blocks.now b × IsTrue (has_unit b.raw u)
            × (map.get self.old u ≢ Some b.raw.kind))) }
        ensures memory { IfErr result (λ r. r.code ≡ out_of_memory → AllApart blocks.now
            × ((b : Block) (u : Serial) → IsAmong blocks.now b → IsTrue (has_unit b.raw u)
            → map.get self.old u ≡ Some b.raw.kind)) }
        ensures refusals { IfErr result (λ r. (r.code ≡ blocks_overlap)
            ⊎ ((r.code ≡ unit_not_held) ⊎ (r.code ≡ out_of_memory))) }
        ensures err { OnErr result (self.new ≡ self.old) }
    {
        if overlaps(blocks) {
            return Err(Refusal::OVERLAP);
        }
        if !self.holds_each(blocks) {
            return Err(Refusal::NOT_HELD);
        }
        self.kinds.set_all(blocks, |_| None)?;
        Ok(())
    }

    /// Whether each unit of the blocks is there, of any kind. Takes no memory.
    pub fn contains_all(&self, blocks: &[Block]) -> bool
        ensures all { OnTrue result ((u : Serial) → IsTrue (covers blocks.now u) → IsSome (map.get self.now u)) }
        ensures some { OnFalse result ((u : Serial) × IsTrue (covers blocks.now u) × (map.get self.now u ≡ None)) }
    {
        for block in blocks {
            if !self.kinds.has_all_of(block, |_| true) {
                return false;
            }
        }
        true
    }

    /// Whether no unit of the blocks is there, of any kind. Takes no memory.
    pub fn disjoint(&self, blocks: &[Block]) -> bool
        ensures none { OnTrue result ((u : Serial) → IsTrue (covers blocks.now u) → map.get self.now u ≡ None) }
        ensures some { OnFalse result ((u : Serial) × IsTrue (covers blocks.now u) × IsSome (map.get self.now u)) }
    {
        for block in blocks {
            if !self.kinds.has_none_of(block) {
                return false;
            }
        }
        true
    }

    /// The units with their kinds as intervals, keyed by their first units. No two intervals share a unit, and
    /// neighbours of one kind are joined. Takes no memory.
    pub fn pieces(&self) -> &BTreeMap<Unit, Span<Kind>>
        ensures kept { AreKept (intervals_of result.now.entries) }
        ensures joined { AreCanonical (λ _. 0) (intervals_of result.now.entries) }
        ensures means { (u : Serial) → label_at (intervals_of result.now.entries) u ≡ map.get self.now u }
    {
        self.kinds.pieces()
    }

    /// How many units there are. Takes no memory.
    pub fn count(&self) -> u64
        ensures { result ≡ map.len self.now }
    {
        self.kinds.count_where(|_| true)
    }

    /// The units as blocks in order, by origin, period and first number, with neighbours of one kind joined. Fails with
    /// `NoMemory` where memory runs out.
    pub fn canonical(&self, alloc: Global) -> Result<Vec<Block>, NoMemory>
        ensures ordered { IfOk result (λ v. AreCanonical (λ _. 0) (list_map interval_of v.items)) }
        ensures form { IfOk result
            (λ v. canonical_form (list_map (λ b. b.raw) v.items) ≡ list_map (λ b. b.raw) v.items) }
        ensures kept { IfOk result (λ v. AreKept (list_map interval_of v.items)) }
        ensures same { IfOk result (λ v. (u : Serial)
            → label_at (list_map interval_of v.items) u ≡ map.get self.now u) }
    {
        let intervals = self.kinds.in_order()?;
        Ok(blocks_of(alloc, &intervals)?)
    }

    /// An equal set, or `NoMemory`.
    pub fn copy(&self) -> Result<BlockSet, NoMemory>
        ensures { IfOk result (λ s. s ≡ self.now) }
    {
        Ok(BlockSet {
            kinds: self.kinds.copy()?,
        })
    }
}
