//! A map from single units to labels.
ghost use Rattle.std.specs.Prelude.{◌≡◌, ◌≢◌, ◌⊎◌, Bool, true, false, not, Some, None, Option, IsTrue, IsSome, OnOk, OnErr, IfOk, find, option_map, count_by, if◌then◌else◌};
ghost use Rattle.std.specs.Bool.{OnTrue, OnFalse};
ghost use Rattle.std.specs.FinMap as map;
ghost use Rattle.std.specs.Option.{option_map_or};
ghost use Rattle.units.specs.Apart.{AllApart};
ghost use Rattle.units.specs.Canonical.{AreCanonical};
ghost use Rattle.units.specs.Intervals.{label_at, AreKept, labels_that};
ghost use Rattle.units.specs.Spans.{interval_at, intervals_of};
ghost use Rattle.units.specs.Unit.{has_unit, covers};
ghost use Rattle.units.specs.declared.block.Block.{Block};
ghost use Rattle.units.specs.declared.block.Unit.{Unit as Serial};

mod cutting;
mod finding;
mod joining;
mod listing;
mod reading;
mod setting;
mod walking;

use crate::block::{Block, Unit};
use crate::counting::count_where;
use crate::interval::{Interval, Label};
use crate::memory::NoMemory;
use crate::ordering::in_order;
use finding::interval_with;
use joining::join_along;
use listing::{copied, intervals};
use reading::{all_pass, some_passes};
use setting::set_each;
use std::alloc::Global;
use std::collections::BTreeMap;
use std::marker::Model;
use walking::change_in;

/// The last number and the label of units in a row. The first of these units is the key in an ordered map.
#[derive(Clone, Copy, Debug, PartialEq, Eq)]
pub struct Span<M> {
    /// The number of the last unit, at most `LAST_UNIT`.
    pub last: u64,
    pub label: M,
}

/// Which units there are, and the label of each. They are kept as intervals in order that share no unit, with
/// neighbours of one label joined.
#[derive(Debug)]
pub struct UnitMap<M> {
    alloc: Global,
    spans: BTreeMap<Unit, Span<M>>,
}

// Written out, since a derived destructor is proved anew in each crate that lets a value go.
impl<M: Drop> Drop for UnitMap<M> {
    fn drop(self) {
        let UnitMap { alloc: _, spans } = self;
        drop(spans);
    }
}

impl<M> Model for UnitMap<M> {
    ghost use Rattle.std.specs.FinMap as map;
    ghost use Rattle.units.specs.Intervals.{labels_of};
    ghost use Rattle.units.specs.Keys.{unit_cmp};
    ghost use Rattle.units.specs.Spans.{intervals_of, IsSpanMap};
    ghost use Rattle.units.specs.contracts.block.Unit as serial;

    ghost Value = { map.FinMap unit_cmp M };

    ghost coded = { map.code serial.the_row.coded M.code };

    ghost view = { λ s. labels_of (intervals_of s.spans.entries) };

    ghost invariant = { λ s. IsSpanMap s.spans };
}

impl<M: Copy> Span<M> {
    /// The interval from its first unit on.
    fn interval(&self, at: Unit) -> Interval<M>
        ensures { result ≡ interval_at at self.now }
    {
        Interval {
            origin: at.origin,
            period: at.period,
            first: at.number,
            last: self.last,
            label: self.label,
        }
    }
}

impl<M> UnitMap<M> {
    /// No units. Takes no memory.
    pub fn new(alloc: Global) -> UnitMap<M>
        ensures { result ≡ map.empty }
    {
        UnitMap {
            alloc,
            spans: BTreeMap::new(alloc),
        }
    }

    /// The intervals, keyed by their first units. No two intervals share a unit, and neighbours with equal labels are
    /// joined. Takes no memory.
    pub fn pieces(&self) -> &BTreeMap<Unit, Span<M>>
        ensures kept { AreKept (intervals_of result.now.entries) }
        ensures joined { AreCanonical (λ _. 0) (intervals_of result.now.entries) }
        ensures means { (u : Serial) → label_at (intervals_of result.now.entries) u ≡ map.get self.now u }
    {
        &self.spans
    }
}

impl<M: Copy> UnitMap<M> {
    /// The label of a unit that is there. Takes no memory.
    pub fn get(&self, unit: &Unit) -> Option<M>
        ensures { result ≡ map.get self.now unit.now }
    {
        let interval = interval_with(&self.spans, unit)?;
        Some(interval.label)
    }

    /// An equal map, or `NoMemory`.
    pub fn copy(&self) -> Result<UnitMap<M>, NoMemory>
        ensures { IfOk result (λ m. m ≡ self.now) }
    {
        let spans = copied(self.alloc, &self.spans)?;
        Ok(UnitMap {
            alloc: self.alloc,
            spans,
        })
    }

    /// Whether none of the block's units is there. Takes no memory.
    pub fn has_none_of(&self, block: &Block) -> bool
        ensures none { OnTrue result ((u : Serial) → IsTrue (has_unit block.now.raw u) → map.get self.now u ≡ None) }
        ensures some { OnFalse result ((u : Serial) × IsTrue (has_unit block.now.raw u) × IsSome (map.get self.now u)) }
    {
        !some_passes(&self.spans, block, |_| true)
    }

    /// Whether each of the block's units is there with a label that passes the test. Takes no memory.
    pub fn has_all_of<F: Fn(M) -> bool>(&self, block: &Block, test: F) -> bool
        requires { F.IsAlwaysCallable test }
        ensures all { (passes : M → Bool) → ((m : M) (r : Bool) → F.post test m r → r ≡ passes m)
            → OnTrue result ((u : Serial) → IsTrue (has_unit block.now.raw u)
            → option_map passes (map.get self.now u) ≡ Some true) }
        ensures some { (passes : M → Bool) → ((m : M) (r : Bool) → F.post test m r → r ≡ passes m)
            → OnFalse result ((u : Serial) × IsTrue (has_unit block.now.raw u)
            × (option_map passes (map.get self.now u) ≢ Some true)) }
    {
        all_pass(&self.spans, block, test)
    }

    /// Whether one of the block's units is there with a label that passes the test. Takes no memory.
    pub fn has_some_of<F: Fn(M) -> bool>(&self, block: &Block, test: F) -> bool
        requires { F.IsAlwaysCallable test }
        ensures some { (passes : M → Bool) → ((m : M) (r : Bool) → F.post test m r → r ≡ passes m)
            → OnTrue result ((u : Serial) × IsTrue (has_unit block.now.raw u)
            × (option_map passes (map.get self.now u) ≡ Some true)) }
        ensures none { (passes : M → Bool) → ((m : M) (r : Bool) → F.post test m r → r ≡ passes m)
            → OnFalse result ((u : Serial) → IsTrue (has_unit block.now.raw u)
            → option_map passes (map.get self.now u) ≢ Some true) }
    {
        some_passes(&self.spans, block, test)
    }

    /// The number of units whose label passes the test. Takes no memory.
    pub fn count_where<F: Fn(M) -> bool>(&self, test: F) -> u64
        requires { F.IsAlwaysCallable test }
        ensures { (passes : M → Bool) → ((m : M) (r : Bool) → F.post test m r → r ≡ passes m)
            → result ≡ count_by (λ e. passes e.1) (map.entries self.now) }
    {
        count_where(&self.spans, test)
    }

    /// Takes out the units whose labels pass the test. Only units of the blocks may have such labels. Takes no memory.
    pub fn remove_in<F: Fn(M) -> bool>(&mut self, blocks: &[Block], test: F)
        requires callable { F.IsAlwaysCallable test }
        requires only { (u : Serial) (m : M) → map.get self.old u ≡ Some m → F.post test m false
            ⊎ IsTrue (covers blocks.now u) }
        ensures { (passes : M → Bool) → ((m : M) (r : Bool) → F.post test m r → r ≡ passes m) → (u : Serial)
            → map.get self.new u ≡ labels_that (λ m. not (passes m)) (map.get self.old u) }
    {
        change_in(
            &mut self.spans,
            blocks,
            |label| if test(label) { None } else { Some(label) },
        );
    }
}

impl<M: Label> UnitMap<M> {
    /// Gives the block's units the label, whether they are there or not, or takes them out where `label` is `None`.
    /// After `NoMemory` nothing has changed.
    pub fn set(&mut self, block: &Block, label: Option<M>) -> Result<(), NoMemory>
        ensures ok { OnOk result ((u : Serial)
            → map.get self.new u ≡ (if has_unit block.now.raw u then label else map.get self.old u)) }
        ensures err { OnErr result (self.new ≡ self.old) }
    {
        self.set_all(&[*block], |_| label)
    }

    /// Gives the units of each block the label that the function returns for the block, whether they are there or not,
    /// or takes them out where it returns `None`. After `NoMemory` nothing has changed.
    pub fn set_all<F: Fn(Block) -> Option<M>>(
        &mut self,
        blocks: &[Block],
        label: F,
    ) -> Result<(), NoMemory>
        requires callable { F.IsAlwaysCallable label }
        requires apart { AllApart blocks.now }
        ensures ok { (labels : Block → Option M) → ((b : Block) (r : Option M) → F.post label b r → r ≡ labels b)
            → OnOk result ((u : Serial)
            → map.get self.new u
            ≡ option_map_or labels (find (λ b. has_unit b.raw u) blocks.now) (map.get self.old u)) }
        ensures err { OnErr result (self.new ≡ self.old) }
    {
        set_each(self.alloc, &mut self.spans, blocks, &label)?;
        join_along(&mut self.spans, blocks);
        Ok(())
    }

    /// Changes each label to the one that the function returns. Only units of the blocks may have labels that it
    /// changes. Takes no memory.
    pub fn relabel_in<F: Fn(M) -> M>(&mut self, blocks: &[Block], change: F)
        requires callable { F.IsAlwaysCallable change }
        requires only { (u : Serial) (m r : M) → map.get self.old u ≡ Some m → F.post change m r → (r ≡ m)
            ⊎ IsTrue (covers blocks.now u) }
        requires same { (u : Serial) (m : M) → map.get self.old u ≡ Some m → F.post change m m
            ⊎ IsTrue (covers blocks.now u) }
        ensures { (after : M → M) → ((m r : M) → F.post change m r → r ≡ after m)
            → ((m : M) → after (after m) ≡ after m) → (u : Serial)
            → map.get self.new u ≡ option_map after (map.get self.old u) }
    {
        change_in(&mut self.spans, blocks, |label| Some(change(label)));
        join_along(&mut self.spans, blocks);
    }

    /// The units as intervals in order, by the groups of their labels and then by origin, period and number, with
    /// neighbours of one label joined. Fails with `NoMemory` where memory runs out.
    pub fn in_order(&self) -> Result<Vec<Interval<M>>, NoMemory>
        ensures ordered { IfOk result (λ v. AreCanonical M.group v.items) }
        ensures kept { IfOk result (λ v. AreKept v.items) }
        ensures same { IfOk result (λ v. (u : Serial) → label_at v.items u ≡ map.get self.now u) }
    {
        let intervals = intervals(self.alloc, &self.spans)?;
        Ok(in_order(self.alloc, &intervals)?)
    }
}
