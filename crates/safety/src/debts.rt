//! The transfers that are due, and those that owe their units.
ghost use Rattle.std.specs.Prelude.{List, ◌≡◌};
ghost use Rattle.std.specs.List.{count_by};
ghost use Rattle.units.specs.Unit.{have_unit};
ghost use Rattle.units.specs.declared.block.Unit.{Unit as Serial};
ghost use Rattle.scheme.specs.declared.registries.Scheme.{Scheme};
ghost use Rattle.protocol.specs.Claims.{live_of, owed};
ghost use Rattle.protocol.specs.Table.{due};
ghost use Rattle.protocol.specs.World.{opening, run};
ghost use Rattle.protocol.specs.declared.event.WorldEvent.{WorldEvent};

/// Over every list of events, the number of proposals that are due and have a unit is the number of completed transfers
/// that owe it: one for an allotted unit that no registry holds, and none for any other unit, by
/// [`units_stand_in_one_place`](crate::units_stand_in_one_place).
pub fn debts_are_owed()
    ensures debts { (scheme : Scheme) (events : List WorldEvent) (s : Serial)
        → count_by (λ p. have_unit p.content.units s) (due (run (opening scheme) events))
        ≡ owed scheme (live_of (run (opening scheme) events)) s }
{}
