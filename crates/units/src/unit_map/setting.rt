//! Labels given to the units of blocks, of all of them or of none.
ghost use Rattle.std.specs.Prelude.{◌≡◌, Option, IsSome, IfOk, OnOk, OnErr, Some, map, reverse};
ghost use Rattle.std.specs.BTreeMap as tree;
ghost use Rattle.std.specs.BTreeMap.{IsOrdered, IsUnchanged};
ghost use Rattle.std.specs.List.{AllByRecursion};
ghost use Rattle.units.specs.Apart.{AllApart};
ghost use Rattle.units.specs.Keys.{unit_cmp, first_unit};
ghost use Rattle.units.specs.SpanSteps.{ArePrepared, Prepares, AreSetIn, set_to};
ghost use Rattle.units.specs.Spans.{AreParted, Mean, filled};
ghost use Rattle.units.specs.declared.block.Unit.{Unit as Serial};

use super::Span;
use super::cutting::{Step, begin, overwrite, undo};
use super::walking::change_between;
use crate::block::{Block, Unit};
use std::alloc::{AllocError, Global};
use std::collections::{BTreeMap, VecDeque};

/// A block whose ends were prepared for its new label, with the two steps to undo.
#[derive(Clone, Copy)]
pub(super) struct Prepared<M> {
    block: Block,
    label: Option<M>,
    first: Step<M>,
    end: Step<M>,
}

/// Makes an interval begin at the block's first unit, where the unit is to have a label or is there, and another one
/// right after its last unit, where an interval goes on there. After an error nothing has changed.
fn prepare<M: Copy>(
    spans: &mut BTreeMap<Unit, Span<M>>,
    block: &Block,
    label: Option<M>,
) -> Result<Prepared<M>, AllocError>
    requires parted { AreParted (tree.get unit_cmp spans.old) }
    requires ordered { IsOrdered unit_cmp spans.old }
    ensures prepared { IfOk result (λ p. Prepares p (tree.get unit_cmp spans.old) (tree.get unit_cmp spans.new)) }
    ensures block { IfOk result (λ p. p.block ≡ block.now) }
    ensures label { IfOk result (λ p. p.label ≡ label) }
    ensures ordered { IsOrdered unit_cmp spans.new }
    ensures err { OnErr result (IsUnchanged spans.old spans.new) }
{
    let first = begin(spans, block.unit(block.raw.first), label)?;
    match begin(spans, block.unit(block.raw.last + 1), None) {
        Ok(end) => Ok(Prepared {
            block: *block,
            label,
            first,
            end,
        }),
        Err(refused) => {
            undo(spans, first);
            Err(refused)
        }
    }
}

/// Replaces the intervals that begin in the block by one, or by none.
fn fill<M: Copy>(spans: &mut BTreeMap<Unit, Span<M>>, block: &Block, label: Option<M>)
    requires parted { AreParted (tree.get unit_cmp spans.old) }
    requires ordered { IsOrdered unit_cmp spans.old }
    requires key { IsSome label → IsSome (tree.get unit_cmp spans.old (first_unit block.now.raw)) }
    ensures filled { (q : Serial)
        → tree.get unit_cmp spans.new q ≡ filled block.now.raw label (tree.get unit_cmp spans.old) q }
    ensures ordered { IsOrdered unit_cmp spans.new }
{
    let first = block.unit(block.raw.first);
    let last = block.unit(block.raw.last);
    match label {
        Some(label) => {
            let span = Span {
                last: block.raw.last,
                label,
            };
            change_between(spans, first.after(), last, &|_| None);
            overwrite(spans, first, span);
        }
        None => change_between(spans, first, last, &|_| None),
    }
}

/// Undoes the preparations, the newest first. Takes no memory.
fn undo_all<M: Copy>(spans: &mut BTreeMap<Unit, Span<M>>, mut prepared: VecDeque<Prepared<M>>)
    requires { IsOrdered unit_cmp spans.old }
    ensures restored { (before : Serial → Option (Span M))
        → ArePrepared prepared.items before (tree.get unit_cmp spans.old) → (q : Serial)
        → tree.get unit_cmp spans.new q ≡ before q }
    ensures ordered { IsOrdered unit_cmp spans.new }
{
    while let Some(newest) = prepared.pop_front() {
        undo(spans, newest.end);
        undo(spans, newest.first);
    }
}

/// Prepares the blocks in turn, and returns them with the newest first. After an error nothing has changed.
fn prepare_all<M: Copy, F: Fn(Block) -> Option<M>>(
    alloc: Global,
    spans: &mut BTreeMap<Unit, Span<M>>,
    blocks: &[Block],
    label: &F,
) -> Result<VecDeque<Prepared<M>>, AllocError>
    requires callable { F.IsAlwaysCallable label.now }
    requires parted { AreParted (tree.get unit_cmp spans.old) }
    requires ordered { IsOrdered unit_cmp spans.old }
    ensures prepared { IfOk result
        (λ ps. ArePrepared ps.items (tree.get unit_cmp spans.old) (tree.get unit_cmp spans.new)) }
    ensures same_blocks { IfOk result (λ ps. reverse (map (λ p. p.block) ps.items) ≡ blocks.now) }
    ensures labels { IfOk result (λ ps. AllByRecursion (λ p. F.post label.now p.block p.label) ps.items) }
    ensures parted { AreParted (tree.get unit_cmp spans.new) }
    ensures ordered { IsOrdered unit_cmp spans.new }
    ensures err { OnErr result (IsUnchanged spans.old spans.new) }
{
    let mut prepared = VecDeque::with_capacity(alloc, blocks.len())?;
    for block in blocks {
        match prepare(spans, block, label(*block)) {
            Ok(newest) => prepared.push_front_reserved(newest),
            Err(refused) => {
                undo_all(spans, prepared);
                return Err(refused);
            }
        }
    }
    Ok(prepared)
}

/// Gives the units of each block their label. All blocks are prepared before the first one is filled: only preparing
/// takes memory, and after an error the preparations are undone.
pub(super) fn set_each<M: Copy, F: Fn(Block) -> Option<M>>(
    alloc: Global,
    spans: &mut BTreeMap<Unit, Span<M>>,
    blocks: &[Block],
    label: &F,
) -> Result<(), AllocError>
    requires callable { F.IsAlwaysCallable label.now }
    requires apart { AllApart blocks.now }
    requires parted { AreParted (tree.get unit_cmp spans.old) }
    requires ordered { IsOrdered unit_cmp spans.old }
    ensures set { OnOk result (AreSetIn blocks.now (tree.get unit_cmp spans.old) (tree.get unit_cmp spans.new)) }
    ensures means { (given : Block → Option M) → ((b : Block) (r : Option M) → F.post label.now b r → r ≡ given b)
        → OnOk result ((labels : Serial → Option M) → Mean (tree.get unit_cmp spans.old) labels
        → Mean (tree.get unit_cmp spans.new) (set_to given blocks.now labels)) }
    ensures ordered { IsOrdered unit_cmp spans.new }
    ensures err { OnErr result (IsUnchanged spans.old spans.new) }
{
    let mut prepared = prepare_all(alloc, spans, blocks, label)?;
    while let Some(newest) = prepared.pop_front() {
        fill(spans, &newest.block, newest.label);
    }
    Ok(())
}
