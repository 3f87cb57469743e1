//! No two nodes stand at opposite ends of one transfer.
ghost use Rattle.std.specs.Prelude.{List};
ghost use Rattle.scheme.specs.declared.registries.Scheme.{Scheme};
ghost use Rattle.protocol.specs.Claims.{Agrees, live_of, committed_of};
ghost use Rattle.protocol.specs.World.{opening, run};
ghost use Rattle.protocol.specs.declared.event.WorldEvent.{WorldEvent};

/// Over every list of proposals, requests for cancellation, deliveries, losses, repeats, reorderings, clean-ups, failed
/// commits, failed sends, crashes and restarts, no node records Completed for a transaction that another one records
/// Rejected, Terminated or Cancelled. This holds for journals with their tails and for committed journals.
pub fn nodes_agree()
    ensures live { (scheme : Scheme) (events : List WorldEvent) → Agrees (live_of (run (opening scheme) events)) }
    ensures committed { (scheme : Scheme) (events : List WorldEvent)
        → Agrees (committed_of (run (opening scheme) events)) }
{}
