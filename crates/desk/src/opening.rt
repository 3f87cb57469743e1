//! What is known of the nodes of a run when their desks open.
ghost use Rattle.std.specs.Prelude.{ℕ, List};
ghost use Rattle.units.specs.declared.code.Node.{Node};
ghost use Rattle.wire.specs.declared.input.Input.{Input};
ghost use Rattle.scheme.specs.declared.registries.Scheme.{Scheme};

use std::marker::Brand;

/// What is known of the nodes of a run when their desks open. It stays true of the state and store under each desk's
/// lock.
///
/// A run picks it when it calls a function that is generic in it, with `Brand` for the type. If nothing has to be
/// known, `Brand` itself says nothing.
pub trait Opening {
    /// A node has that scheme and that name, has these records when its desk opens, and its store has that count of
    /// faults.
    ghost opened: { Scheme → Node → List Input → ℕ → Type 0 };
}

impl Opening for Brand {
    ghost opened = { λ scheme node journal faults. Unit {0} };
}
