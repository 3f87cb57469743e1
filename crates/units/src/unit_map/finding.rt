//! Which interval begins before a unit, which one after it, and which one has it.
ghost use Rattle.std.specs.Prelude.{◌≡◌, true, false, Some, None, IsSome, IfSome, IfNone};
ghost use Rattle.std.specs.BTreeMap as tree;
ghost use Rattle.std.specs.BTreeMap.{IsOrdered};
ghost use Rattle.std.specs.BTreeMap.Range.{IsLeBy};
ghost use Rattle.std.specs.Ordering.{is_lt};
ghost use Rattle.units.specs.Intervals.{has};
ghost use Rattle.units.specs.Keys.{unit_cmp};
ghost use Rattle.units.specs.Spans.{AreParted, labels_in};
ghost use Rattle.units.specs.declared.block.Unit.{Unit as Serial};

use super::Span;
use crate::block::Unit;
use crate::interval::Interval;
use std::collections::BTreeMap;

/// The interval that begins last, of those that begin at the unit or before it.
pub(super) fn floor<M: Copy>(spans: &BTreeMap<Unit, Span<M>>, unit: Unit) -> Option<(Unit, Span<M>)>
    ensures found { IfSome result (λ e. (tree.get unit_cmp spans.now e.0 ≡ Some e.1) × IsLeBy unit_cmp e.0 unit) }
    ensures last { IfSome result (λ e. (q : Serial) → IsLeBy unit_cmp q unit → IsSome (tree.get unit_cmp spans.now q)
        → is_lt (unit_cmp e.0 q) ≡ false) }
    ensures none { IfNone result ((q : Serial) → IsLeBy unit_cmp q unit → tree.get unit_cmp spans.now q ≡ None) }
{
    // Most often an interval begins at the unit itself, and a look-up is quicker than a range.
    if let Some(span) = spans.get(&unit) {
        return Some((unit, *span));
    }
    let (at, span) = spans.range(..=unit).next_back()?;
    Some((*at, *span))
}

/// The interval that begins first, of those that begin at the unit or after it.
pub(super) fn next<M: Copy>(spans: &BTreeMap<Unit, Span<M>>, unit: Unit) -> Option<(Unit, Span<M>)>
    ensures found { IfSome result (λ e. (tree.get unit_cmp spans.now e.0 ≡ Some e.1) × IsLeBy unit_cmp unit e.0) }
    ensures first { IfSome result (λ e. (q : Serial) → IsLeBy unit_cmp unit q → IsSome (tree.get unit_cmp spans.now q)
        → IsLeBy unit_cmp e.0 q) }
    ensures none { IfNone result ((q : Serial) → IsLeBy unit_cmp unit q → tree.get unit_cmp spans.now q ≡ None) }
{
    if let Some(span) = spans.get(&unit) {
        return Some((unit, *span));
    }
    let (at, span) = spans.range(unit..).next()?;
    Some((*at, *span))
}

/// The interval that has the unit.
pub(super) fn interval_with<M: Copy>(
    spans: &BTreeMap<Unit, Span<M>>,
    unit: &Unit,
) -> Option<Interval<M>>
    requires parted { AreParted (tree.get unit_cmp spans.now) }
    requires ordered { IsOrdered unit_cmp spans.now }
    ensures some { IfSome result (λ i. (has i unit.now ≡ true)
        × ((u : Serial) → has i u ≡ true → labels_in spans.now u ≡ Some i.label)) }
    ensures none { IfNone result (labels_in spans.now unit.now ≡ None) }
{
    let (at, span) = floor(spans, *unit)?;
    let interval = span.interval(at);
    if interval.has(unit) {
        Some(interval)
    } else {
        None
    }
}

/// Whether the unit comes after another one.
pub(super) fn is_past(unit: &Unit, other: &Unit) -> bool
    ensures { result ≡ is_lt (unit_cmp other.now unit.now) }
{
    other.cmp(unit).is_lt()
}
