//! Journals that some list of events leads to.
ghost use Rattle.std.specs.Prelude.{List, ◌≡◌, ◌⊎◌};
ghost use Rattle.units.specs.declared.code.Node.{Node};
ghost use Rattle.wire.specs.declared.input.Input.{Input};
ghost use Rattle.scheme.specs.declared.registries.Scheme.{Scheme};
ghost use Rattle.protocol.specs.Plausible.{IsPlausible};
ghost use Rattle.protocol.specs.Weave.{ArePrefixes, HasNext, InTurn, IsFurthestCut, Placed, Projects, StuckIsFinal, StuckIsFurthest, committed_by, journals_of};
ghost use Rattle.protocol.specs.World.{opening, run};
ghost use Rattle.protocol.specs.declared.event.WorldEvent.{WorldEvent};

/// Some list of events leads to the journals exactly when their records have an order in which each is next when its
/// turn comes. A part of such journals that falls short can always go on; and where none can go on, no list of events
/// leads to the journals.
pub fn journals_weave()
    ensures reached { (scheme : Scheme) (order : List Placed) → InTurn scheme order → (events : List WorldEvent)
        × Projects scheme events (journals_of order) }
    ensures ordered { (scheme : Scheme) (events : List WorldEvent) (journals : Node → List Input)
        → Projects scheme events journals → (order : List Placed) × InTurn scheme order
        × ((n : Node) → journals_of order n ≡ journals n) }
    ensures never_stuck { (scheme : Scheme) (events : List WorldEvent) (journals past : Node → List Input)
        → Projects scheme events journals → ArePrefixes past journals → ((n : Node) → past n ≡ journals n)
        ⊎ HasNext scheme past journals }
    ensures stuck { (scheme : Scheme) (events : List WorldEvent) (journals : Node → List Input)
        → StuckIsFinal (run (opening scheme) events) journals }
{}

/// Of all lists of events that commit first records of given journals, one commits the most at every node at once, and
/// all that do so commit the same. Where following them is stuck, no events commit more at any node.
pub fn there_is_a_furthest_cut()
    ensures exists { (scheme : Scheme) (journals : Node → List Input) → (events : List WorldEvent)
        × IsFurthestCut scheme journals events }
    ensures one { (scheme : Scheme) (journals : Node → List Input) (one other : List WorldEvent)
        → IsFurthestCut scheme journals one → IsFurthestCut scheme journals other
        → (n : Node) → committed_by scheme one n ≡ committed_by scheme other n }
    ensures stuck { (scheme : Scheme) (events : List WorldEvent) (journals : Node → List Input)
        → StuckIsFurthest (run (opening scheme) events) journals }
{}

/// It isn't enough that each record is recorded after those before it and that each received message is among all that
/// its sender sends: there are such journals that no list of events leads to. An order is needed.
pub fn plausible_is_not_enough()
    ensures { (scheme : Scheme) × (journals : Node → List Input) × IsPlausible scheme journals
        × ((events : List WorldEvent) → Projects scheme events journals → ⊥) }
{}
