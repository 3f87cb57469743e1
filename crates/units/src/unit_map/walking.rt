//! Labels that change, and intervals that are taken out, without taking memory.
ghost use Rattle.std.specs.Prelude.{◌≡◌, ◌≤◌, ◌+◌, Option, Some, None, true, false};
ghost use Rattle.std.specs.BTreeMap as tree;
ghost use Rattle.std.specs.BTreeMap.{IsOrdered};
ghost use Rattle.units.specs.Keys.{unit_cmp};
ghost use Rattle.units.specs.Limits.{last_unit};
ghost use Rattle.units.specs.SpanSteps.{AreChangedIn};
ghost use Rattle.units.specs.Spans.{AreParted, IsChanged, Puts, is_between, relabelled};
ghost use Rattle.units.specs.declared.block.Unit.{Unit as Serial};

use super::Span;
use super::cutting::overwrite;
use super::finding::{is_past, next};
use crate::block::{Block, Unit};
use std::collections::BTreeMap;

/// Gives an interval that is there the label, or takes it out.
fn respan<M: Copy>(spans: &mut BTreeMap<Unit, Span<M>>, at: Unit, span: Span<M>, label: Option<M>)
    requires { tree.get unit_cmp spans.old at ≡ Some span }
    ensures puts { Puts at (relabelled span label) (tree.get unit_cmp spans.old) (tree.get unit_cmp spans.new) }
    ensures ordered { IsOrdered unit_cmp spans.new }
{
    match label {
        Some(label) => overwrite(spans, at, Span { label, ..span }),
        None => {
            spans.remove(&at);
        }
    }
}

/// Changes the label of each interval that begins from one unit to another, both included, to the one that the function
/// returns, or takes the interval out where it returns `None`.
pub(super) fn change_between<M: Copy, F: Fn(M) -> Option<M>>(
    spans: &mut BTreeMap<Unit, Span<M>>,
    from: Unit,
    to: Unit,
    change: &F,
)
    requires callable { F.IsAlwaysCallable change.now }
    requires parted { AreParted (tree.get unit_cmp spans.old) }
    requires ordered { IsOrdered unit_cmp spans.old }
    requires start { from.number ≤ last_unit + 1 }
    ensures inside { (q : Serial) → is_between from to q ≡ true
        → IsChanged (F.post change.now) (tree.get unit_cmp spans.old q) (tree.get unit_cmp spans.new q) }
    ensures outside { (q : Serial) → is_between from to q ≡ false
        → tree.get unit_cmp spans.new q ≡ tree.get unit_cmp spans.old q }
    ensures parted { AreParted (tree.get unit_cmp spans.new) }
    ensures ordered { IsOrdered unit_cmp spans.new }
{
    let mut cursor = from;
    while let Some((unit, span)) = next(spans, cursor) {
        if is_past(&unit, &to) {
            break;
        }
        respan(spans, unit, span, change(span.label));
        cursor = unit.after();
    }
}

/// Changes the label of each interval that begins in one of the blocks to the one that the function returns, or takes
/// the interval out where it returns `None`.
pub(super) fn change_in<M: Copy, F: Fn(M) -> Option<M>>(
    spans: &mut BTreeMap<Unit, Span<M>>,
    blocks: &[Block],
    change: F,
)
    requires callable { F.IsAlwaysCallable change }
    requires parted { AreParted (tree.get unit_cmp spans.old) }
    requires ordered { IsOrdered unit_cmp spans.old }
    ensures { AreChangedIn (F.post change) blocks.now spans.old spans.new }
{
    for block in blocks {
        change_between(
            spans,
            block.unit(block.raw.first),
            block.unit(block.raw.last),
            &change,
        );
    }
}
