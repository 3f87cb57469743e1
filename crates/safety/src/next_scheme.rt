//! The next scheme of a world, under which its units go on.
ghost use Rattle.std.specs.Prelude.{List, []};
ghost use Rattle.units.specs.declared.block.Block.{Block};
ghost use Rattle.scheme.specs.declared.registries.Scheme.{Scheme};
ghost use Rattle.protocol.specs.Claims.{committed_of, live_of};
ghost use Rattle.protocol.specs.World.{opening, run};
ghost use Rattle.protocol.specs.declared.event.WorldEvent.{WorldEvent};
ghost use Rattle.safety.specs.NextScheme.{AllotAlike, IsNext, KeepsUnits};

/// Over every list of events, if a scheme allots each unit where the committed journals have it, and new units besides,
/// then its opening world has each unit of the old world free at exactly one registry: the one that held it, at the
/// same account and in the same kind, or the acquirer of the completed transfer that owed it, at the account and in the
/// kind that the transfer's content names. Each added unit is at one registry, and no other unit is held or owed. The
/// number of units that the scheme allots is that of the old scheme and that of the added blocks together.
pub fn next_scheme_keeps_units()
    ensures { (scheme next : Scheme) (events : List WorldEvent) (added : List Block)
        → IsNext scheme (committed_of (run (opening scheme) events)) added next
        → KeepsUnits scheme (committed_of (run (opening scheme) events)) added next (live_of (opening next)) }
{}

/// Over every list of events, any two next schemes of the committed journals allot each unit of the old scheme to the
/// same registry, at the same account and in the same kind, regardless of the units that each of them adds.
pub fn next_schemes_are_alike()
    ensures { (scheme next other : Scheme) (events : List WorldEvent) (added more : List Block)
        → IsNext scheme (committed_of (run (opening scheme) events)) added next
        → IsNext scheme (committed_of (run (opening scheme) events)) more other
        → AllotAlike scheme next other }
{}

/// Where nothing has happened yet, each scheme is a next scheme of its own opening world, with nothing added.
pub fn a_scheme_follows_its_opening()
    ensures { (scheme : Scheme) → IsNext scheme (live_of (opening scheme)) [] scheme }
{}
