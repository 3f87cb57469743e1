//! Units, and blocks of them.
ghost use Rattle.std.specs.Prelude.{◌≡◌, ◌≤◌, ◌+◌, ℕ, Err, IfOk, IfSome, IfNone, string_bytes};
ghost use Rattle.units.specs.declared.block.Kind.{Kind};
ghost use Rattle.units.specs.Facts.{IsRange};
ghost use Rattle.units.specs.Limits.{last_unit};
ghost use Rattle.units.specs.Block.{AreNumbers};

use crate::code::Code;
use crate::limits::LAST_UNIT;
use crate::memory::NoMemory;
use crate::text::{cut, number};
use std::alloc::Global;
use std::fmt;
use thiserror::Error;

/// A commitment period: 1 is 2008 to 2012, 2 is 2013 to 2020.
#[derive(Clone, Copy, Debug, PartialEq, Eq, PartialOrd, Ord)]
pub enum Period {
    First,
    Second,
}

/// The kind of a unit, fixed by its allotment.
#[derive(Clone, Copy, Debug, PartialEq, Eq)]
pub enum Kind {
    Aau,
    Rmu,
    Eru,
    Cer,
    Tcer,
    Lcer,
}

/// All kinds.
const KINDS: &[Kind] = &[
    Kind::Aau,
    Kind::Rmu,
    Kind::Eru,
    Kind::Cer,
    Kind::Tcer,
    Kind::Lcer,
];

/// One unit, a tonne: its origin, its commitment period and its number.
#[derive(Clone, Copy, Debug, PartialEq, Eq, PartialOrd, Ord)]
pub struct Unit {
    /// The registry that issued it.
    pub origin: Code,
    pub period: Period,
    /// Any number; in a `Block` it is 1 to `LAST_UNIT`.
    pub number: u64,
}

/// A block as it was written; its numbers are not checked yet.
#[derive(Clone, Copy, Debug, PartialEq, Eq)]
pub struct RawBlock {
    pub origin: Code,
    pub period: Period,
    pub kind: Kind,
    /// Any number, even one above `last`.
    pub first: u64,
    /// Any number.
    pub last: u64,
}

/// The units of one origin, period and kind from a first to a last number, both included.
#[derive(Clone, Copy, Debug, PartialEq, Eq)]
pub struct Block {
    /// Its numbers: `first` is 1 to `last`, and `last` at most `LAST_UNIT`.
    pub raw: RawBlock,
    pub ghost in_range: { IsRange raw.first raw.last },
}

/// Why a text is no block.
#[derive(Clone, Copy, Debug, PartialEq, Eq, Error)]
pub enum BlockFault {
    /// It is not `CODE:PERIOD:FIRST-LAST:KIND`.
    #[error("no block")]
    Shape,
    /// Its first number is 0 or above its last one, or its last one is above
    /// 999,999,999,999,999.
    #[error("numbers out of range")]
    Range,
}

impl Period {
    ghost use Rattle.units.specs.Block.{period_text};
    ghost use Rattle.units.specs.declared.block.Period.{Period};

    /// The period that a text writes, `1` or `2`.
    pub fn read(text: &str) -> Option<Period>
        ensures some { IfSome result (λ p. text.now ≡ period_text p) }
        ensures none { IfNone result ((p : Period) → text.now ≡ period_text p → ⊥) }
    {
        match text.as_bytes() {
            b"1" => Some(Period::First),
            b"2" => Some(Period::Second),
            _ => None,
        }
    }
}

impl fmt::Display for Period {
    ghost use Rattle.std.specs.Prelude.{Some};
    ghost use Rattle.units.specs.Block.{period_text};

    ghost output = { λ p. Some (period_text p) };

    fn fmt<W: fmt::Write>(&self, f: &mut fmt::Formatter<W>) -> fmt::Result {
        match self {
            Period::First => write!(f, "1"),
            Period::Second => write!(f, "2"),
        }
    }
}

impl Kind {
    ghost use Rattle.units.specs.Block.{kind_text};
    ghost use Rattle.units.specs.declared.block.Kind.{Kind};

    /// The kind that a text writes, as `AAU` or `tCER`.
    pub fn read(text: &str) -> Option<Kind>
        ensures some { IfSome result (λ k. text.now ≡ kind_text k) }
        ensures none { IfNone result ((k : Kind) → text.now ≡ kind_text k → ⊥) }
    {
        for kind in KINDS {
            if text == kind.name() {
                return Some(*kind);
            }
        }
        None
    }

    /// The text of the kind.
    pub fn name(self) -> &'static str
        ensures { result.now ≡ kind_text self }
    {
        match self {
            Kind::Aau => "AAU",
            Kind::Rmu => "RMU",
            Kind::Eru => "ERU",
            Kind::Cer => "CER",
            Kind::Tcer => "tCER",
            Kind::Lcer => "lCER",
        }
    }
}

impl fmt::Display for Kind {
    ghost use Rattle.std.specs.Prelude.{Some};
    ghost use Rattle.units.specs.Block.{kind_text};

    ghost output = { λ k. Some (kind_text k) };

    fn fmt<W: fmt::Write>(&self, f: &mut fmt::Formatter<W>) -> fmt::Result {
        let name = self.name();
        write!(f, "{name}")
    }
}

/// The numbers and the kind, as in `1-100:AAU`.
fn numbers(text: &str) -> Option<(u64, u64, Kind)>
    ensures some { IfSome result (λ n. AreNumbers text.now n.0 n.1 n.2) }
    ensures none { IfNone result ((first last : ℕ) (kind : Kind) → AreNumbers text.now first last kind → ⊥) }
{
    let (first, rest) = cut(text, '-')?;
    let (last, kind) = cut(rest, ':')?;
    let first = number(first)?;
    let last = number(last)?;
    let kind = Kind::read(kind)?;
    Some((first, last, kind))
}

impl RawBlock {
    ghost use Rattle.units.specs.Block.{IsRawText};
    ghost use Rattle.units.specs.declared.block.RawBlock.{RawBlock};

    /// The block that a text writes, such as `NZ:1:1-100:AAU`. Its numbers need not be in range.
    pub fn read(text: &str) -> Option<RawBlock>
        ensures some { IfSome result (λ r. IsRawText text.now r) }
        ensures none { IfNone result ((r : RawBlock) → IsRawText text.now r → ⊥) }
    {
        let (origin, rest) = cut(text, ':')?;
        let (period, rest) = cut(rest, ':')?;
        let origin = Code::read(origin)?;
        let period = Period::read(period)?;
        let (first, last, kind) = numbers(rest)?;
        Some(RawBlock {
            origin,
            period,
            kind,
            first,
            last,
        })
    }
}

impl fmt::Display for RawBlock {
    ghost use Rattle.std.specs.Prelude.{Some};
    ghost use Rattle.units.specs.Block.{raw_text};

    ghost output = { λ r. Some (raw_text r) };

    fn fmt<W: fmt::Write>(&self, f: &mut fmt::Formatter<W>) -> fmt::Result {
        let origin = self.origin;
        let period = self.period;
        let first = self.first;
        let last = self.last;
        let kind = self.kind;
        write!(f, "{origin}:{period}:{first}-{last}:{kind}")
    }
}

impl Unit {
    ghost use Rattle.units.specs.Spans.{after_unit};

    /// The unit after it.
    pub(crate) fn after(&self) -> Unit
        requires { self.now.number ≤ last_unit }
        ensures { result ≡ after_unit self.now }
    {
        Unit {
            number: self.number + 1,
            ..*self
        }
    }
}

impl Block {
    ghost use Rattle.units.specs.Block.{IsRawText, raw_text};
    ghost use Rattle.units.specs.Keys.{first_unit, unit_numbered};
    ghost use Rattle.units.specs.Unit.{has_unit};
    ghost use Rattle.units.specs.declared.block.RawBlock.{RawBlock};

    /// The block with these numbers. Fails with `Range` where they are out of range.
    pub fn new(
        origin: Code,
        period: Period,
        kind: Kind,
        first: u64,
        last: u64,
    ) -> Result<Block, BlockFault>
        ensures ok { IfOk result
            (λ b. b.raw ≡ record { origin = origin; period = period; kind = kind; first = first; last = last }) }
        ensures shape { result ≡ Err BlockFault.Shape → ⊥ }
        ensures range { result ≡ Err BlockFault.Range → IsRange first last → ⊥ }
    {
        if first >= 1 && first <= last && last <= LAST_UNIT {
            let raw = RawBlock {
                origin,
                period,
                kind,
                first,
                last,
            };
            Ok(Block { raw })
        } else {
            Err(BlockFault::Range)
        }
    }

    /// The block that a text writes. Fails with `Range` where the text writes a block whose numbers are out of range,
    /// and with `Shape` where it writes no block at all.
    pub fn read(text: &str) -> Result<Block, BlockFault>
        ensures ok { IfOk result (λ b. IsRawText text.now b.raw) }
        ensures shape { result ≡ Err BlockFault.Shape → (r : RawBlock) → IsRawText text.now r → ⊥ }
        ensures range { result ≡ Err BlockFault.Range → (r : RawBlock) × IsRawText text.now r
            × (IsRange r.first r.last → ⊥) }
    {
        let Some(raw) = RawBlock::read(text) else {
            return Err(BlockFault::Shape);
        };
        Block::new(raw.origin, raw.period, raw.kind, raw.first, raw.last)
    }

    /// Its text, which `read` reads back.
    pub fn write(&self, alloc: Global) -> Result<String, NoMemory>
        ensures { IfOk result (λ s. string_bytes s ≡ raw_text self.now.raw) }
    {
        Ok(format!(in alloc; "{self}")?)
    }

    /// Whether it has that unit.
    pub fn has(&self, unit: &Unit) -> bool
        ensures { result ≡ has_unit self.now.raw unit.now }
    {
        self.raw.origin == unit.origin
            && self.raw.period == unit.period
            && self.raw.first <= unit.number
            && unit.number <= self.raw.last
    }

    /// The unit of its origin and period with this number.
    pub(crate) fn unit(&self, number: u64) -> Unit
        ensures { result ≡ unit_numbered self.now.raw number }
    {
        Unit {
            origin: self.raw.origin,
            period: self.raw.period,
            number,
        }
    }

    /// Its first unit.
    pub fn first_unit(&self) -> Unit
        ensures { result ≡ first_unit self.now.raw }
    {
        let raw = self.raw;
        Unit {
            origin: raw.origin,
            period: raw.period,
            number: raw.first,
        }
    }

    /// How many units it has.
    pub fn count(&self) -> u64
        ensures { result + self.now.raw.first ≡ self.now.raw.last + 1 }
    {
        self.raw.last + 1 - self.raw.first
    }
}

impl fmt::Display for Block {
    ghost use Rattle.std.specs.Prelude.{Some};
    ghost use Rattle.units.specs.Block.{raw_text};

    ghost output = { λ b. Some (raw_text b.raw) };

    fn fmt<W: fmt::Write>(&self, f: &mut fmt::Formatter<W>) -> fmt::Result {
        let raw = self.raw;
        write!(f, "{raw}")
    }
}
