//! Intervals of units as lines.
ghost use Rattle.std.specs.Prelude.{◌≡◌, map, IfOk};
ghost use Rattle.units.specs.Facts.{IsRange};
ghost use Rattle.units.specs.Intervals.{AreKept};
ghost use Rattle.accounts.specs.Lines.{unit_holding_interval};

use crate::unit_holding::{HeldBlock, UnitHolding};
use std::alloc::{AllocError, Global};
use units::Interval;

/// The interval as a line.
fn line(interval: &Interval<UnitHolding>) -> HeldBlock
    requires { IsRange interval.now.first interval.now.last }
    ensures { unit_holding_interval result ≡ interval.now }
{
    HeldBlock {
        account: interval.label.account,
        block: interval.block(interval.label.kind),
        reserving: interval.label.reserving,
    }
}

/// The intervals as lines, in their order.
pub(crate) fn lines(
    alloc: Global,
    intervals: &[Interval<UnitHolding>],
) -> Result<Vec<HeldBlock>, AllocError>
    requires { AreKept intervals.now }
    ensures { IfOk result (λ v. map unit_holding_interval v.items ≡ intervals.now) }
{
    let mut lines = Vec::new(alloc);
    for interval in intervals {
        lines.push(line(interval))?;
    }
    Ok(lines)
}
