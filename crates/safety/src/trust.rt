//! What the nodes that follow the protocol keep, whatever all others send.
ghost use Rattle.std.specs.Prelude.{◌≡◌, Bool, List, true};
ghost use Rattle.units.specs.declared.code.Node.{Node};
ghost use Rattle.units.specs.declared.code.Node.TheVariants.{Itl};
ghost use Rattle.wire.specs.declared.message.Message.{Message};
ghost use Rattle.scheme.specs.declared.registries.Scheme.{Scheme};
ghost use Rattle.protocol.specs.Claims.{live_of, committed_of};
ghost use Rattle.protocol.specs.World.{run};
ghost use Rattle.protocol.specs.declared.event.WorldEvent.{WorldEvent};
ghost use Rattle.safety.specs.Strangers.{AreStrange, opening_among};
ghost use Rattle.safety.specs.Trust.{IsSafeAmong, BookMovesByOwners, DeliversWelcomeAmong};

/// Over every list of events, whatever messages strangers send in their own names, the trusted nodes are safe if the
/// log is one of them. A unit that the log's book gives to a trusted registry is held by it, or is in exactly one
/// transfer that one of the two has completed and the other has not; the registry holds no other unit. This holds for
/// journals with their tails and for committed journals.
pub fn trusted_nodes_are_safe()
    ensures live { (scheme : Scheme) (trusted : Node → Bool) (strange : List Message) (events : List WorldEvent)
        → trusted Itl ≡ true → AreStrange trusted strange
        → IsSafeAmong trusted scheme (live_of (run (opening_among scheme strange) events)) }
    ensures committed { (scheme : Scheme) (trusted : Node → Bool) (strange : List Message) (events : List WorldEvent)
        → trusted Itl ≡ true → AreStrange trusted strange
        → IsSafeAmong trusted scheme (committed_of (run (opening_among scheme strange) events)) }
{}

/// At the log, for all messages that it receives, even forged ones, one record more moves a unit in the book only if it
/// is the notification of Completed by the unit's owner, about a transfer of this unit to its new owner.
pub fn book_moves_by_owners()
    ensures { (scheme : Scheme) → BookMovesByOwners scheme }
{}

/// Over every list of events, whatever messages strangers send in their own names, a delivery from one trusted node to
/// another is refused with 49, where the journal is full, or not at all, if the log is trusted.
pub fn trusted_deliveries_are_welcome()
    ensures { (scheme : Scheme) (trusted : Node → Bool) (strange : List Message) (events : List WorldEvent)
        → trusted Itl ≡ true → AreStrange trusted strange
        → DeliversWelcomeAmong trusted (run (opening_among scheme strange) events) }
{}
