//! The number of all units.
ghost use Rattle.std.specs.List.{sum_by};
ghost use Rattle.std.specs.Prelude.{◌≡◌, ◌<◌, ◌+◌, List};
ghost use Rattle.registry_core.specs.HeldBlock.{HeldBlock};
ghost use Rattle.protocol.specs.Table.{due};
ghost use Rattle.protocol.specs.World.{opening, run};
ghost use Rattle.protocol.specs.declared.event.WorldEvent.{WorldEvent};
ghost use Rattle.scheme.specs.declared.registries.Scheme.{Scheme};
ghost use Rattle.report.specs.NumberOfUnits.{due_units, held_units};
ghost use Rattle.safety.specs.NumberOfUnits.{allotted_units};
ghost use Rattle.world.specs.RegistryLines.{AreLines};

/// For every list of events, the number of units that the registries hold, regardless of the lines that write their
/// holdings, and the number of units that completed transfers owe are together the number that the scheme allots. It is
/// below 2^64.
pub fn tonnes_add_up()
    ensures sums { (scheme : Scheme) (events : List WorldEvent) (lines : List (List HeldBlock))
        → AreLines (run (opening scheme) events) scheme.members lines
        → sum_by (λ ls. sum_by held_units ls) lines + sum_by due_units (due (run (opening scheme) events))
        ≡ allotted_units scheme }
    ensures fits { (scheme : Scheme) → allotted_units scheme < 18_446_744_073_709_551_616 }
{}
