//! How many units intervals have.
ghost use Rattle.std.specs.Prelude.{◌≡◌, Bool, count_by};
ghost use Rattle.std.specs.FinMap as map;
ghost use Rattle.units.specs.Intervals.{AreKept, labels_of};
ghost use Rattle.units.specs.Spans.{intervals_of};

use crate::block::Unit;
use crate::unit_map::Span;
use std::collections::BTreeMap;

/// The number of units of the intervals whose label passes the test. Takes no memory.
pub(crate) fn count_where<M: Copy, F: Fn(M) -> bool>(
    spans: &BTreeMap<Unit, Span<M>>,
    test: F,
) -> u64
    requires callable { F.IsAlwaysCallable test }
    requires kept { AreKept (intervals_of spans.now.entries) }
    ensures { (passes : M → Bool) → ((m : M) (r : Bool) → F.post test m r → r ≡ passes m)
        → result ≡ count_by (λ e. passes e.1) (map.entries (labels_of (intervals_of spans.now.entries))) }
{
    let mut count = 0;
    for (unit, span) in spans {
        if test(span.label) {
            count += span.last - unit.number + 1;
        }
    }
    count
}
