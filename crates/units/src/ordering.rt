//! Intervals in order, with neighbours joined.
ghost use Rattle.std.specs.Ordering.{nat_cmp, ordering_then};
ghost use Rattle.std.specs.Prelude.{◌≡◌, ◌↔◌, IsTrue, IfOk, OnOk};
ghost use Rattle.units.specs.Canonical.{AreCanonical, GoesOn};
ghost use Rattle.units.specs.Following.{IsOnto, is_next};
ghost use Rattle.units.specs.Intervals.{AreKept, label_at, numbered};
ghost use Rattle.units.specs.Keys.{unit_cmp};
ghost use Rattle.units.specs.Unit.{period_index};
ghost use Rattle.units.specs.declared.block.Unit.{Unit as Serial};

use crate::block::Unit;
use crate::interval::{Interval, Label};
use std::alloc::{AllocError, Global};

/// The first of its units.
fn first_unit<M>(interval: &Interval<M>) -> Unit
    ensures { result ≡ numbered interval.now interval.now.first }
{
    Unit {
        origin: interval.origin,
        period: interval.period,
        number: interval.first,
    }
}

/// Whether `next` begins where `interval` ends.
fn is_next<M>(interval: &Interval<M>, next: &Interval<M>) -> bool
    ensures { result ≡ is_next interval.now next.now }
{
    interval.origin == next.origin
        && interval.period == next.period
        && interval.last < next.first
        && next.first - interval.last == 1
}

/// Whether `next` begins where `interval` ends, with the same label.
pub(crate) fn goes_on<M: Label>(interval: &Interval<M>, next: &Interval<M>) -> bool
    ensures { IsTrue result ↔ GoesOn interval.now next.now }
{
    is_next(interval, next) && interval.label.is_same(&next.label)
}

/// Adds an interval after the others, or lengthens the last one where the interval continues it.
fn push_joined<M: Label>(
    intervals: &mut Vec<Interval<M>>,
    next: Interval<M>,
) -> Result<(), AllocError>
    ensures { OnOk result (IsOnto intervals.old.items next intervals.new.items) }
{
    match intervals.last_mut() {
        Some(last) if goes_on(last, &next) => last.last = next.last,
        _ => intervals.push(next)?,
    }
    Ok(())
}

/// The intervals in order, by the groups of their labels and then by their units. Neighbours with the same label are
/// joined.
pub(crate) fn in_order<M: Label>(
    alloc: Global,
    intervals: &[Interval<M>],
) -> Result<Vec<Interval<M>>, AllocError>
    requires { AreKept intervals.now }
    ensures ordered { IfOk result (λ v. AreCanonical M.group v.items) }
    ensures kept { IfOk result (λ v. AreKept v.items) }
    ensures same { IfOk result (λ v. (u : Serial) → label_at v.items u ≡ label_at intervals.now u) }
{
    let mut sorted = Vec::from_slice(alloc, intervals)?;
    sorted.sort_unstable_by_key(|interval| (interval.label.group(), first_unit(interval)));
    let mut joined = Vec::new(alloc);
    for next in &sorted {
        push_joined(&mut joined, *next)?;
    }
    Ok(joined)
}

/// A law without code: units are ordered by the two letters of their origin, then by their period, then by their
/// number.
pub fn order_of_units()
    ensures { (a b : Serial) → unit_cmp a b ≡ ordering_then (ordering_then (nat_cmp a.origin.first b.origin.first)
        (nat_cmp a.origin.second b.origin.second))
        (ordering_then (nat_cmp (period_index a.period) (period_index b.period)) (nat_cmp a.number b.number)) }
{}
