//! The table of a list of events.
ghost use Rattle.std.specs.Prelude.{List};
ghost use Rattle.scheme.specs.declared.registries.Scheme.{Scheme};
ghost use Rattle.protocol.specs.World.{opening, run};
ghost use Rattle.protocol.specs.declared.event.WorldEvent.{WorldEvent};
ghost use Rattle.unit_laws.specs.OneTable.{HasOneTable};

/// A list of events has at most one table in each form: two texts that are tables of the world to which the events lead
/// are equal.
pub fn events_have_one_table()
    ensures { (scheme : Scheme) (events : List WorldEvent) → HasOneTable (run (opening scheme) events) }
{}
