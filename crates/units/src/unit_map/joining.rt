//! Neighbours with one label made one interval.
ghost use Rattle.std.specs.Prelude.{◌≡◌, ◌≤◌, ◌+◌, Option, false, Some, IsSome};
ghost use Rattle.std.specs.BTreeMap as tree;
ghost use Rattle.std.specs.BTreeMap.{IsOrdered};
ghost use Rattle.units.specs.Keys.{unit_cmp};
ghost use Rattle.units.specs.Limits.{last_unit};
ghost use Rattle.units.specs.SpanSteps.{AreJoinedIn};
ghost use Rattle.units.specs.Spans.{AreParted, Mean, IsSeam, is_between};
ghost use Rattle.units.specs.declared.block.Unit.{Unit as Serial};

use super::Span;
use super::cutting::overwrite;
use super::finding::{floor, is_past, next};
use crate::block::{Block, Unit};
use crate::interval::Label;
use crate::ordering::goes_on;
use std::collections::BTreeMap;

/// Makes the interval that begins at the unit a part of the one that ends before it, where the two have one label.
fn join<M: Label>(spans: &mut BTreeMap<Unit, Span<M>>, unit: Unit, right: Span<M>)
    requires right { tree.get unit_cmp spans.old unit ≡ Some right }
    requires parted { AreParted (tree.get unit_cmp spans.old) }
    requires ordered { IsOrdered unit_cmp spans.old }
    requires first { 1 ≤ unit.number }
    ensures parted { AreParted (tree.get unit_cmp spans.new) }
    ensures means { (labels : Serial → Option M) → Mean (tree.get unit_cmp spans.old) labels
        → Mean (tree.get unit_cmp spans.new) labels }
    ensures seams { (q : Serial) → IsSeam (tree.get unit_cmp spans.new) q → IsSeam (tree.get unit_cmp spans.old) q
        × (unit ≡ q → ⊥) }
    ensures keys { (q : Serial) → IsSome (tree.get unit_cmp spans.new q) → IsSome (tree.get unit_cmp spans.old q) }
    ensures ordered { IsOrdered unit_cmp spans.new }
{
    let before = Unit {
        number: unit.number - 1,
        ..unit
    };
    if let Some((at, left)) = floor(spans, before) {
        if goes_on(&left.interval(at), &right.interval(unit)) {
            let joined = Span {
                last: right.last,
                label: left.label,
            };
            overwrite(spans, at, joined);
            spans.remove(&unit);
        }
    }
}

/// Joins each interval that begins from one unit to another, both included, with the one that ends right before it,
/// where the two have one label.
fn join_between<M: Label>(spans: &mut BTreeMap<Unit, Span<M>>, from: Unit, to: Unit)
    requires parted { AreParted (tree.get unit_cmp spans.old) }
    requires ordered { IsOrdered unit_cmp spans.old }
    requires start { from.number ≤ last_unit + 1 }
    ensures parted { AreParted (tree.get unit_cmp spans.new) }
    ensures means { (labels : Serial → Option M) → Mean (tree.get unit_cmp spans.old) labels
        → Mean (tree.get unit_cmp spans.new) labels }
    ensures seams { (q : Serial) → IsSeam (tree.get unit_cmp spans.new) q → IsSeam (tree.get unit_cmp spans.old) q
        × (is_between from to q ≡ false) }
    ensures ordered { IsOrdered unit_cmp spans.new }
{
    let mut cursor = from;
    while let Some((unit, span)) = next(spans, cursor) {
        if is_past(&unit, &to) {
            break;
        }
        join(spans, unit, span);
        cursor = unit.after();
    }
}

/// Joins intervals in the blocks and at their ends.
pub(super) fn join_along<M: Label>(spans: &mut BTreeMap<Unit, Span<M>>, blocks: &[Block])
    requires parted { AreParted (tree.get unit_cmp spans.old) }
    requires ordered { IsOrdered unit_cmp spans.old }
    ensures { AreJoinedIn blocks.now spans.old spans.new }
{
    for block in blocks {
        join_between(
            spans,
            block.unit(block.raw.first),
            block.unit(block.raw.last + 1),
        );
    }
}
