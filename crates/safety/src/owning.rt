//! Who owns a unit, by the journals of all nodes and by the log's book.
ghost use Rattle.std.specs.Prelude.{List};
ghost use Rattle.scheme.specs.declared.registries.Scheme.{Scheme};
ghost use Rattle.protocol.specs.Claims.{HolderOwns, committed_of, live_of};
ghost use Rattle.protocol.specs.Owner.{OneOwner, OwnersMove};
ghost use Rattle.protocol.specs.World.{opening, run, step};
ghost use Rattle.protocol.specs.declared.event.WorldEvent.{WorldEvent};

/// Over every list of events, a registry that holds a unit is its owner in the log's book. This holds for journals with
/// their tails and for committed journals.
pub fn holders_own()
    ensures live { (scheme : Scheme) (events : List WorldEvent)
        → HolderOwns scheme (live_of (run (opening scheme) events)) }
    ensures committed { (scheme : Scheme) (events : List WorldEvent)
        → HolderOwns scheme (committed_of (run (opening scheme) events)) }
{}

/// Over every list of events an allotted unit has one owner, a registry that holds it or a completed
/// transfer that owes it, and another unit has none.
pub fn units_have_one_owner()
    ensures live { (scheme : Scheme) (events : List WorldEvent)
        → OneOwner scheme (live_of (run (opening scheme) events)) }
    ensures committed { (scheme : Scheme) (events : List WorldEvent)
        → OneOwner scheme (committed_of (run (opening scheme) events)) }
{}

/// Over every list of events, one event more moves a unit's owner only by committing Completed of a transfer with the
/// unit: at its initiator from the registry to the transfer, at its acquirer from the transfer to the registry.
pub fn owners_move_by_completions()
    ensures { (scheme : Scheme) (events : List WorldEvent) (event : WorldEvent)
        → OwnersMove scheme (committed_of (run (opening scheme) events))
        (committed_of (step (run (opening scheme) events) event).world) }
{}
