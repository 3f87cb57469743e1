//! The accounts that units arrive in.
ghost use Rattle.std.specs.Prelude.{List};
ghost use Rattle.scheme.specs.declared.registries.Scheme.{Scheme};
ghost use Rattle.protocol.specs.Claims.{committed_of, live_of};
ghost use Rattle.protocol.specs.World.{opening, run};
ghost use Rattle.protocol.specs.declared.event.WorldEvent.{WorldEvent};
ghost use Rattle.unit_laws.specs.Arrivals.{ArriveAsProposed};

/// Over every list of events, a unit that a registry holds, and last took in by a transfer, is at the account that the
/// transfer's initiator named when it proposed the transfer, with this unit and for this registry. A unit that a
/// registry holds, and that never came by a transfer, is where the scheme allots it. This holds for journals with their
/// tails and for committed journals.
pub fn units_arrive_where_proposed()
    ensures live { (scheme : Scheme) (events : List WorldEvent)
        → ArriveAsProposed scheme (live_of (run (opening scheme) events)) }
    ensures committed { (scheme : Scheme) (events : List WorldEvent)
        → ArriveAsProposed scheme (committed_of (run (opening scheme) events)) }
{}
