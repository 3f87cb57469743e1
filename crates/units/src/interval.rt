//! Intervals: units in a row with one label.
ghost use Rattle.std.specs.Prelude.{◌≡◌, ◌↔◌, ℕ, IsTrue, IfOk, map};
ghost use Rattle.units.specs.Canonical.{interval_of};
ghost use Rattle.units.specs.Cutting.{meets};
ghost use Rattle.units.specs.Facts.{IsRange};
ghost use Rattle.units.specs.Intervals.{AreKept, has};

use crate::block::{Block, Kind, Period, RawBlock, Unit};
use crate::code::Code;
use crate::memory::NoMemory;
use std::alloc::Global;

/// Units of one origin and period, from a first to a last number, both included, all with one label.
#[derive(Clone, Copy, Debug, PartialEq, Eq)]
pub struct Interval<M> {
    pub origin: Code,
    pub period: Period,
    /// At least 1 in a map, and at most `last`.
    pub first: u64,
    /// At most `LAST_UNIT` in a map.
    pub last: u64,
    pub label: M,
}

impl<M> Interval<M> {
    /// Whether it has that unit.
    pub fn has(&self, unit: &Unit) -> bool
        ensures { result ≡ has self.now unit.now }
    {
        self.origin == unit.origin
            && self.period == unit.period
            && self.first <= unit.number
            && unit.number <= self.last
    }

    /// The block of its units, of that kind.
    pub fn block(&self, kind: Kind) -> Block
        requires { IsRange self.now.first self.now.last }
        ensures { result.raw ≡ record {
          origin = self.now.origin;
          period = self.now.period;
          kind = kind;
          first = self.now.first;
          last = self.now.last;
        } }
    {
        let raw = RawBlock {
            origin: self.origin,
            period: self.period,
            kind,
            first: self.first,
            last: self.last,
        };
        Block { raw }
    }

    /// Whether it has a unit of the block, where its numbers are in order.
    pub(crate) fn meets(&self, block: &Block) -> bool
        ensures { result ≡ meets block.now.raw self.now }
    {
        self.origin == block.raw.origin
            && self.period == block.raw.period
            && self.first <= block.raw.last
            && block.raw.first <= self.last
    }
}

/// A label of units.
pub trait Label: Copy {
    /// The first key by which intervals are ordered, before their units. It is the same for all labels where labels
    /// have no order.
    ghost group: { Self → ℕ };

    /// The group of the label.
    fn group(&self) -> u64
        ensures { result ≡ group self.now };

    /// Whether the two are the same label. Neighbours with the same label are joined.
    fn is_same(&self, other: &Self) -> bool
        ensures { IsTrue result ↔ (self.now ≡ other.now) };
}

impl Label for Kind {
    ghost group = { λ _. 0 };

    fn group(&self) -> u64 {
        0
    }

    fn is_same(&self, other: &Kind) -> bool {
        self == other
    }
}

/// The blocks of the intervals, in their order. Each block's kind is the label of its interval. Fails with `NoMemory`
/// where memory runs out.
pub fn blocks_of(alloc: Global, intervals: &[Interval<Kind>]) -> Result<Vec<Block>, NoMemory>
    requires { AreKept intervals.now }
    ensures { IfOk result (λ v. map interval_of v.items ≡ intervals.now) }
{
    let mut blocks = Vec::with_capacity(alloc, intervals.len())?;
    for interval in intervals {
        blocks.push(interval.block(interval.label))?;
    }
    Ok(blocks)
}
