//! One registry by itself.
ghost use Rattle.std.specs.Prelude.{List};
ghost use Rattle.units.specs.declared.code.Code.{Code};
ghost use Rattle.units.specs.declared.code.Node.TheVariants.{Registry};
ghost use Rattle.wire.specs.declared.input.Input.{Input};
ghost use Rattle.scheme.specs.declared.registries.Scheme.{Scheme};
ghost use Rattle.protocol.specs.History.{transitions_of};
ghost use Rattle.protocol.specs.Verdict.{history};
ghost use Rattle.protocol.specs.Claims.{CompletedOnce, CountedOnce, NextIsNew};

/// At one registry, for all inputs, even forged messages, a unit is counted once or not at all.
pub fn registry_counts_once()
    ensures { (scheme : Scheme) (c : Code) (journal : List Input)
        → CountedOnce scheme c (transitions_of (history scheme (Registry c) journal)) }
{}

/// At one registry, for all inputs, even forged messages, a transition to Completed is the newest of its transaction,
/// and its only one: the number of these transitions is the number of transactions.
pub fn completed_once()
    ensures { (scheme : Scheme) (c : Code) (journal : List Input)
        → CompletedOnce (transitions_of (history scheme (Registry c) journal)) }
{}

/// At one registry, for all inputs, even forged messages, no transaction has the number of the next proposal yet: the
/// status table has a row for each propose order that has a number.
pub fn numbers_are_new()
    ensures { (scheme : Scheme) (c : Code) (journal : List Input) → NextIsNew c (history scheme (Registry c) journal) }
{}
