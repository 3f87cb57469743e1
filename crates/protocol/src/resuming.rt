//! Journals replayed into a core.
ghost use Rattle.std.specs.Prelude.{◌≡◌, ◌-◌, ◌<◌, [], ◌∷◌, ◌++◌, length, take, slice_get, IfOk, IfErr, OnOk, OnErr, Some};
ghost use Rattle.protocol.specs.Cores.{HasFault, IsAt};
ghost use Rattle.protocol.specs.declared.replay_fault.ReplayFault.TheVariants.{NoMemory};
ghost use Rattle.wire.specs.declared.input.Input.{Input};

use crate::node_core::{NodeCore, Stepped};
use crate::replay_fault::ReplayFault;
use units::Refusal;
use wire::Input;

/// Takes one more record. Where the input isn't recorded, nothing has changed.
fn resume_one<C: NodeCore>(core: &mut C, input: &Input) -> Result<(), ReplayFault>
    ensures scheme { C.scheme_of core.new ≡ C.scheme_of core.old }
    ensures node { C.node_of core.new ≡ C.node_of core.old }
    ensures ok { OnOk result (C.journal_of core.new ≡ C.journal_of core.old ++ input.now ∷ []) }
    ensures err { OnErr result (C.journal_of core.new ≡ C.journal_of core.old) }
    ensures fault { IfErr result
        (HasFault (C.scheme_of core.old) (C.node_of core.old) (C.journal_of core.old ++ input.now ∷ [])) }
    ensures place { IfErr result (IsAt (length (C.journal_of core.old))) }
    ensures memory { IfErr result (λ e. e ≡ NoMemory → C.lacked_memory core.old input.now) }
{
    let place = core.journal().len();
    match core.step(input) {
        Ok(Stepped::Recorded(_)) => Ok(()),
        Err(refusal) if refusal == Refusal::NO_MEMORY => Err(ReplayFault::NoMemory),
        Ok(Stepped::Repeat) => Err(ReplayFault::NotRecorded(place)),
        Ok(Stepped::Late) => Err(ReplayFault::NotRecorded(place)),
        Err(_) => Err(ReplayFault::NotRecorded(place)),
    }
}

/// Takes each of these inputs into the core, in their order, as a record after its journal.
///
/// Fails with `NotRecorded` at the first input that the core doesn't record there; the fault has the input's place in
/// the whole journal. Fails with `NoMemory` where the core lacked the memory for an input. In both cases the inputs
/// before that one are recorded, and no others.
pub fn resume<C: NodeCore>(core: &mut C, inputs: &[Input]) -> Result<(), ReplayFault>
    ensures scheme { C.scheme_of core.new ≡ C.scheme_of core.old }
    ensures node { C.node_of core.new ≡ C.node_of core.old }
    ensures ok { OnOk result (C.journal_of core.new ≡ C.journal_of core.old ++ inputs.now) }
    ensures prefix { C.journal_of core.new
        ≡ C.journal_of core.old ++ take (length (C.journal_of core.new) - length (C.journal_of core.old)) inputs.now }
    ensures left { OnErr result (length (C.journal_of core.new) < length (C.journal_of core.old ++ inputs.now)) }
    ensures fault { IfErr result
        (HasFault (C.scheme_of core.old) (C.node_of core.old) (C.journal_of core.old ++ inputs.now)) }
    ensures place { IfErr result (IsAt (length (C.journal_of core.new))) }
    ensures memory { IfErr result (λ e. e ≡ NoMemory → (before : C) × (input : Input)
        × (slice_get inputs.now (length (C.journal_of core.new) - length (C.journal_of core.old)) ≡ Some input)
        × (C.journal_of before ≡ C.journal_of core.new) × C.lacked_memory before input) }
{
    for input in inputs {
        resume_one(core, input)?;
    }
    Ok(())
}

/// The core of that journal, under the scheme and at the node of `core`, whose own journal doesn't matter.
///
/// Fails with `NotRecorded` at the first record that such a core doesn't record at its place, and with `NoMemory` where
/// memory ran out.
pub fn replay<C: NodeCore>(core: &C, journal: &[Input]) -> Result<C, ReplayFault>
    ensures scheme { IfOk result (λ c. C.scheme_of c ≡ C.scheme_of core.now) }
    ensures node { IfOk result (λ c. C.node_of c ≡ C.node_of core.now) }
    ensures journal { IfOk result (λ c. C.journal_of c ≡ journal.now) }
    ensures fault { IfErr result (HasFault (C.scheme_of core.now) (C.node_of core.now) journal.now) }
{
    let mut fresh = core.fresh()?;
    resume(&mut fresh, journal)?;
    Ok(fresh)
}
