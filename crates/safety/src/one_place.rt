//! Every allotted unit is in one place.
ghost use Rattle.std.specs.Prelude.{List};
ghost use Rattle.scheme.specs.declared.registries.Scheme.{Scheme};
ghost use Rattle.protocol.specs.Claims.{OnePlace, SpentOnce, committed_of, live_of};
ghost use Rattle.protocol.specs.World.{opening, run};
ghost use Rattle.protocol.specs.declared.event.WorldEvent.{WorldEvent};

/// Over every list of events an allotted unit is held by one registry and owed by no transfer, or held by none and owed
/// by exactly one completed transfer; no other unit is held or owed; and no unit is spendable in two registries. This
/// holds for journals with their tails and for committed journals.
pub fn units_stand_in_one_place()
    ensures live { (scheme : Scheme) (events : List WorldEvent)
        → OnePlace scheme (live_of (run (opening scheme) events)) }
    ensures committed { (scheme : Scheme) (events : List WorldEvent)
        → OnePlace scheme (committed_of (run (opening scheme) events)) }
    ensures spent_once { (scheme : Scheme) (events : List WorldEvent)
        → SpentOnce scheme (live_of (run (opening scheme) events)) }
    ensures spent_once_committed { (scheme : Scheme) (events : List WorldEvent)
        → SpentOnce scheme (committed_of (run (opening scheme) events)) }
{}
