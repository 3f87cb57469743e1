//! No transfer is stuck for good.
ghost use Rattle.std.specs.Prelude.{List};
ghost use Rattle.scheme.specs.declared.registries.Scheme.{Scheme};
ghost use Rattle.protocol.specs.WayOut.{WayOut};
ghost use Rattle.protocol.specs.World.{opening, run};
ghost use Rattle.protocol.specs.declared.event.WorldEvent.{WorldEvent};

/// From every world that events lead to, where each journal has room for three records of each open transfer, some list
/// of starts, commits and messages alone, with no order and no decision of anybody, leads to a world at rest: every
/// node runs and has committed its whole journal, no transfer is open, and each allotted unit is spendable at a
/// registry.
pub fn there_is_a_way_out()
    ensures { (scheme : Scheme) (events : List WorldEvent) → WayOut (run (opening scheme) events) }
{}
