//! The laws of safety, joined.
ghost use Rattle.std.specs.Prelude.{List};
ghost use Rattle.protocol.specs.Claims.{committed_of, live_of};
ghost use Rattle.protocol.specs.Headline.{IsSafe};
ghost use Rattle.protocol.specs.World.{opening, run};
ghost use Rattle.protocol.specs.declared.event.WorldEvent.{WorldEvent};
ghost use Rattle.scheme.specs.declared.registries.Scheme.{Scheme};

use safety::{deliveries_are_welcome, holders_own, nodes_agree, units_stand_in_one_place};

/// For every list of events, no tonne is in two places and none is lost: by journals with their tails, and by committed
/// journals.
pub(crate) fn worlds_are_safe()
    ensures live { (scheme : Scheme) (events : List WorldEvent)
        → IsSafe scheme (live_of (run (opening scheme) events)) }
    ensures committed { (scheme : Scheme) (events : List WorldEvent)
        → IsSafe scheme (committed_of (run (opening scheme) events)) }
{
    nodes_agree();
    units_stand_in_one_place();
    holders_own();
    deliveries_are_welcome();
}
