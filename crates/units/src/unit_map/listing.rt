//! All intervals: as a list, and as another map.
ghost use Rattle.std.specs.Prelude.{◌≡◌, IfOk};
ghost use Rattle.std.specs.BTreeMap.{IsOrdered};
ghost use Rattle.units.specs.Keys.{unit_cmp};
ghost use Rattle.units.specs.Spans.{intervals_of};

use super::Span;
use crate::block::Unit;
use crate::interval::Interval;
use std::alloc::{AllocError, Global};
use std::collections::BTreeMap;

/// The intervals by their first units.
pub(super) fn intervals<M: Copy>(
    alloc: Global,
    spans: &BTreeMap<Unit, Span<M>>,
) -> Result<Vec<Interval<M>>, AllocError>
    ensures { IfOk result (λ v. v.items ≡ intervals_of spans.now.entries) }
{
    spans
        .iter()
        .map(|(unit, span)| span.interval(*unit))
        .collect(alloc)
}

/// An equal map.
pub(super) fn copied<M: Copy>(
    alloc: Global,
    spans: &BTreeMap<Unit, Span<M>>,
) -> Result<BTreeMap<Unit, Span<M>>, AllocError>
    requires { IsOrdered unit_cmp spans.now }
    ensures { IfOk result (λ m. m.entries ≡ spans.now.entries) }
{
    let mut copied = BTreeMap::new(alloc);
    for (unit, span) in spans {
        copied.insert(*unit, *span)?;
    }
    Ok(copied)
}
