//! The refusals of deliveries.
ghost use Rattle.std.specs.Prelude.{List};
ghost use Rattle.scheme.specs.declared.registries.Scheme.{Scheme};
ghost use Rattle.protocol.specs.Claims.{DeliversWelcome, TerminatesForEligibility, committed_of, live_of};
ghost use Rattle.protocol.specs.World.{opening, run};
ghost use Rattle.protocol.specs.declared.event.WorldEvent.{WorldEvent};

/// Over every list of events a delivery is refused with 49, where a journal is full, or not at all; and where the log
/// notifies a registry of Terminated, its only codes are 207 and 208. This holds for journals with their tails and for
/// committed journals.
pub fn deliveries_are_welcome()
    ensures welcome { (scheme : Scheme) (events : List WorldEvent) → DeliversWelcome (run (opening scheme) events) }
    ensures eligibility { (scheme : Scheme) (events : List WorldEvent)
        → TerminatesForEligibility (live_of (run (opening scheme) events)) }
    ensures eligibility_committed { (scheme : Scheme) (events : List WorldEvent)
        → TerminatesForEligibility (committed_of (run (opening scheme) events)) }
{}
