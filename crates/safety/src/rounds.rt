//! A transfer that was proposed ends within six rounds.
ghost use Rattle.std.specs.Prelude.{List};
ghost use Rattle.scheme.specs.declared.registries.Scheme.{Scheme};
ghost use Rattle.safety.specs.Rounds.{OpenOnesWait, RoundsEnd, SettledStays, SettlesWhatIsReceived};
ghost use Rattle.safety.specs.RoundsLeft.{EndsInTime};
ghost use Rattle.protocol.specs.World.{opening, run};
ghost use Rattle.protocol.specs.declared.event.WorldEvent.{WorldEvent};

/// A transfer that was proposed has ended for good once, six times in turn, every message that was due has been
/// settled: its addressee has recorded it, or found it a repeat or late, in records that are committed. Any other
/// events may come before, between and after, and no journal needs room. Fewer rounds are enough for a transfer that
/// has come further, as its statuses tell. Of each open transfer some message was sent and isn't settled.
pub fn six_rounds_are_enough()
    ensures enough { (scheme : Scheme) (events : List WorldEvent) → RoundsEnd 6 (run (opening scheme) events) }
    ensures left { (scheme : Scheme) (events : List WorldEvent) → EndsInTime (run (opening scheme) events) }
    ensures waits { (scheme : Scheme) (events : List WorldEvent) → OpenOnesWait (run (opening scheme) events) }
{}

/// After five rounds a transfer may still be open: its acquirer has accepted it, and has not heard that it is
/// completed.
pub fn five_rounds_are_too_few()
    ensures { (scheme : Scheme) × (events : List WorldEvent) × (RoundsEnd 5 (run (opening scheme) events) → ⊥) }
{}

/// A message that its addressee has recorded, or found a repeat or late, is settled once the addressee has committed
/// the whole journal that it had then. It stays settled, whatever else happens.
pub fn what_is_received_is_settled()
    ensures received { (scheme : Scheme) (events : List WorldEvent)
        → SettlesWhatIsReceived (run (opening scheme) events) }
    ensures stays { (scheme : Scheme) (events : List WorldEvent) → SettledStays (run (opening scheme) events) }
{}
