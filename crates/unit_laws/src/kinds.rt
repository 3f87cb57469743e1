//! The kinds of units.
ghost use Rattle.std.specs.Prelude.{List};
ghost use Rattle.scheme.specs.declared.registries.Scheme.{Scheme};
ghost use Rattle.protocol.specs.Claims.{committed_of, live_of};
ghost use Rattle.protocol.specs.World.{opening, run};
ghost use Rattle.protocol.specs.declared.event.WorldEvent.{WorldEvent};
ghost use Rattle.unit_laws.specs.Kinds.{KeepsKinds};

/// Over every list of events a unit keeps the kind with which the scheme allots it: a registry holds it in this kind, a
/// completed transfer that owes it hands it on in this kind, and each transfer that a node knows, whatever became of
/// it, names each of its units with the unit's kind. This holds for journals with their tails and for committed
/// journals.
pub fn kinds_stay()
    ensures live { (scheme : Scheme) (events : List WorldEvent)
        → KeepsKinds scheme (live_of (run (opening scheme) events)) }
    ensures committed { (scheme : Scheme) (events : List WorldEvent)
        → KeepsKinds scheme (committed_of (run (opening scheme) events)) }
{}
