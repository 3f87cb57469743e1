//! Intervals that are cut in two to make one begin at a unit, and how a cut is undone.
ghost use Rattle.std.specs.Prelude.{◌≡◌, true, false, Some, None, Option, IsSome, IfOk, OnOk, OnErr};
ghost use Rattle.std.specs.BTreeMap as tree;
ghost use Rattle.std.specs.BTreeMap.{IsOrdered, IsUnchanged};
ghost use Rattle.units.specs.Facts.{IsRange};
ghost use Rattle.units.specs.Intervals.{has};
ghost use Rattle.units.specs.Keys.{unit_cmp};
ghost use Rattle.units.specs.SpanSteps.{Restores, IsBegun};
ghost use Rattle.units.specs.Spans.{AreParted, Puts, interval_at};
ghost use Rattle.units.specs.declared.block.Unit.{Unit as Serial};

use super::Span;
use super::finding::floor;
use crate::block::Unit;
use std::alloc::AllocError;
use std::collections::BTreeMap;

/// A change that makes an interval begin at a unit.
#[derive(Clone, Copy)]
pub(super) enum Step<M> {
    /// Nothing.
    Nothing,
    /// An interval of that unit alone was put in.
    Put(Unit),
    /// The interval that began at the first unit was cut in two before the second one.
    Cut(Unit, Unit, Span<M>),
}

/// Overwrites an interval that is there. Takes no memory.
pub(super) fn overwrite<M: Copy>(spans: &mut BTreeMap<Unit, Span<M>>, at: Unit, span: Span<M>)
    ensures puts { IsSome (tree.get unit_cmp spans.old at)
        → Puts at (Some span) (tree.get unit_cmp spans.old) (tree.get unit_cmp spans.new) }
    ensures ordered { IsOrdered unit_cmp spans.new }
{
    if let Some(held) = spans.get_mut(&at) {
        *held = span;
    }
}

/// Cuts the interval that begins at a unit in two. The second part begins at another unit of the interval.
fn cut<M: Copy>(
    spans: &mut BTreeMap<Unit, Span<M>>,
    at: Unit,
    span: Span<M>,
    unit: Unit,
) -> Result<Step<M>, AllocError>
    requires there { tree.get unit_cmp spans.old at ≡ Some span }
    requires within { has (interval_at at span) unit ≡ true }
    requires absent { tree.get unit_cmp spans.old unit ≡ None }
    requires parted { AreParted (tree.get unit_cmp spans.old) }
    ensures begun { (given : Option M)
        → OnOk result (IsBegun unit given (tree.get unit_cmp spans.old) (tree.get unit_cmp spans.new)) }
    ensures undo { IfOk result (λ step. Restores step (tree.get unit_cmp spans.old) (tree.get unit_cmp spans.new)) }
    ensures ordered { IsOrdered unit_cmp spans.new }
    ensures err { OnErr result (IsUnchanged spans.old spans.new) }
{
    spans.insert(unit, span)?;
    let left = Span {
        last: unit.number - 1,
        label: span.label,
    };
    overwrite(spans, at, left);
    Ok(Step::Cut(at, unit, span))
}

/// Puts in an interval of one unit, which no interval has.
fn put<M: Copy>(
    spans: &mut BTreeMap<Unit, Span<M>>,
    unit: Unit,
    label: M,
) -> Result<Step<M>, AllocError>
    requires none { (at : Serial) (span : Span M) → tree.get unit_cmp spans.old at ≡ Some span
        → has (interval_at at span) unit ≡ false }
    requires absent { tree.get unit_cmp spans.old unit ≡ None }
    requires parted { AreParted (tree.get unit_cmp spans.old) }
    requires range { IsRange unit.number unit.number }
    ensures begun { OnOk result
        (IsBegun unit (Some label) (tree.get unit_cmp spans.old) (tree.get unit_cmp spans.new)) }
    ensures undo { IfOk result (λ step. Restores step (tree.get unit_cmp spans.old) (tree.get unit_cmp spans.new)) }
    ensures ordered { IsOrdered unit_cmp spans.new }
    ensures err { OnErr result (IsUnchanged spans.old spans.new) }
{
    let span = Span {
        last: unit.number,
        label,
    };
    spans.insert(unit, span)?;
    Ok(Step::Put(unit))
}

/// Makes an interval begin at the unit: cuts the interval that has the unit, or where none has it, puts in one with the
/// label, if there is a label. After an error nothing has changed.
pub(super) fn begin<M: Copy>(
    spans: &mut BTreeMap<Unit, Span<M>>,
    unit: Unit,
    label: Option<M>,
) -> Result<Step<M>, AllocError>
    requires parted { AreParted (tree.get unit_cmp spans.old) }
    requires ordered { IsOrdered unit_cmp spans.old }
    requires range { IsSome label → IsRange unit.number unit.number }
    ensures begun { OnOk result (IsBegun unit label (tree.get unit_cmp spans.old) (tree.get unit_cmp spans.new)) }
    ensures undo { IfOk result (λ step. Restores step (tree.get unit_cmp spans.old) (tree.get unit_cmp spans.new)) }
    ensures ordered { IsOrdered unit_cmp spans.new }
    ensures err { OnErr result (IsUnchanged spans.old spans.new) }
{
    match floor(spans, unit) {
        Some((at, span)) if span.interval(at).has(&unit) => {
            if at.number == unit.number {
                return Ok(Step::Nothing);
            }
            cut(spans, at, span, unit)
        }
        _ => match label {
            Some(label) => put(spans, unit, label),
            None => Ok(Step::Nothing),
        },
    }
}

/// Takes the step back. Takes no memory.
pub(super) fn undo<M: Copy>(spans: &mut BTreeMap<Unit, Span<M>>, step: Step<M>)
    requires { IsOrdered unit_cmp spans.old }
    ensures restored { (before : Serial → Option (Span M)) → Restores step before (tree.get unit_cmp spans.old)
        → (q : Serial) → tree.get unit_cmp spans.new q ≡ before q }
    ensures ordered { IsOrdered unit_cmp spans.new }
{
    match step {
        Step::Nothing => {}
        Step::Put(unit) => {
            spans.remove(&unit);
        }
        Step::Cut(at, unit, span) => {
            spans.remove(&unit);
            overwrite(spans, at, span);
        }
    }
}
