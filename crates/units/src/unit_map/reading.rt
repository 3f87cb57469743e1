//! Whether a block's units pass a test of their labels.
ghost use Rattle.std.specs.Prelude.{◌≡◌, ◌≢◌, Bool, true, Some, IsTrue, option_map};
ghost use Rattle.std.specs.BTreeMap as tree;
ghost use Rattle.std.specs.BTreeMap.{IsOrdered};
ghost use Rattle.std.specs.Bool.{OnTrue, OnFalse};
ghost use Rattle.units.specs.Keys.{unit_cmp};
ghost use Rattle.units.specs.Spans.{AreParted, labels_in};
ghost use Rattle.units.specs.Unit.{has_unit};
ghost use Rattle.units.specs.declared.block.Unit.{Unit as Serial};

use super::Span;
use super::finding::{floor, interval_with};
use crate::block::{Block, Unit};
use std::collections::BTreeMap;

/// Whether each of the block's units is in an interval whose label passes the test.
pub(super) fn all_pass<M: Copy, F: Fn(M) -> bool>(
    spans: &BTreeMap<Unit, Span<M>>,
    block: &Block,
    test: F,
) -> bool
    requires callable { F.IsAlwaysCallable test }
    requires parted { AreParted (tree.get unit_cmp spans.now) }
    requires ordered { IsOrdered unit_cmp spans.now }
    ensures all { (passes : M → Bool) → ((m : M) (r : Bool) → F.post test m r → r ≡ passes m)
        → OnTrue result ((u : Serial) → IsTrue (has_unit block.now.raw u)
        → option_map passes (labels_in spans.now u) ≡ Some true) }
    ensures some { (passes : M → Bool) → ((m : M) (r : Bool) → F.post test m r → r ≡ passes m)
        → OnFalse result ((u : Serial) × IsTrue (has_unit block.now.raw u)
        × (option_map passes (labels_in spans.now u) ≢ Some true)) }
{
    let mut number = block.raw.first;
    loop {
        let unit = block.unit(number);
        let Some(interval) = interval_with(spans, &unit) else {
            return false;
        };
        if !test(interval.label) {
            return false;
        }
        if block.raw.last <= interval.last {
            return true;
        }
        number = interval.last + 1;
    }
}

/// Whether one of the block's units is in an interval whose label passes the test. The walk goes from the block's end
/// to its front: each interval is the last one that begins before a number.
pub(super) fn some_passes<M: Copy, F: Fn(M) -> bool>(
    spans: &BTreeMap<Unit, Span<M>>,
    block: &Block,
    test: F,
) -> bool
    requires callable { F.IsAlwaysCallable test }
    requires parted { AreParted (tree.get unit_cmp spans.now) }
    requires ordered { IsOrdered unit_cmp spans.now }
    ensures some { (passes : M → Bool) → ((m : M) (r : Bool) → F.post test m r → r ≡ passes m)
        → OnTrue result ((u : Serial) × IsTrue (has_unit block.now.raw u)
        × (option_map passes (labels_in spans.now u) ≡ Some true)) }
    ensures none { (passes : M → Bool) → ((m : M) (r : Bool) → F.post test m r → r ≡ passes m)
        → OnFalse result ((u : Serial) → IsTrue (has_unit block.now.raw u)
        → option_map passes (labels_in spans.now u) ≢ Some true) }
{
    let mut number = block.raw.last;
    loop {
        let unit = block.unit(number);
        let Some((at, span)) = floor(spans, unit) else {
            return false;
        };
        if !span.interval(at).meets(block) {
            return false;
        }
        if test(span.label) {
            return true;
        }
        if at.number <= block.raw.first {
            return false;
        }
        number = at.number - 1;
    }
}
