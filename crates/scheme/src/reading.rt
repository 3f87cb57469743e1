//! Reading a scheme from its text.
ghost use Rattle.std.specs.Prelude.{◌≡◌, List, ℕ, IfOk, IfErr};
ghost use Rattle.serde_json.specs.View.{view};
ghost use Rattle.scheme.specs.Faults.{IsFault};
ghost use Rattle.scheme.specs.Text.{IsSchemeText};
ghost use Rattle.scheme.specs.Reading.{IsSchemeOf, IsFaultOf};
ghost use Rattle.scheme.specs.declared.members.SchemeFault.{SchemeFault};
ghost use Rattle.scheme.specs.declared.members.SchemeFault.TheVariants.{NoMemory};
ghost use Rattle.scheme.specs.declared.registries.Scheme.{Scheme};

use crate::faults::first_fault;
use crate::grammar::written;
use crate::members::SchemeFault;
use crate::registries::Scheme;
use serde_json::Value;
use std::alloc::Global;

/// The scheme that the value writes.
fn scheme(alloc: Global, value: &Value) -> Result<Scheme, SchemeFault>
    ensures ok { IfOk result (IsSchemeOf (view value.now)) }
    ensures fault { IfErr result (IsFaultOf (view value.now)) }
{
    let (records, listed) = written(alloc, value)?;
    let members = listed.into_sorted();
    match first_fault(alloc, members.as_slice())? {
        Some(fault) => Err(fault),
        None => Ok(Scheme { records, members }),
    }
}

impl Scheme {
    /// The scheme that a text writes, or the first of these faults that it has:
    ///
    /// - `NotJson`: the text is no JSON in UTF-8.
    /// - `Shape`: its JSON value has a key or a value outside the grammar, or lacks one.
    /// - `TooMany`: it has more than `MOST_REGISTRIES` registries, `MOST_ACCOUNTS` accounts
    ///   in one, or `MOST_ALLOTTED` blocks in all.
    /// - `TooFew`: it has fewer than two registries.
    /// - `CodeTwice`: two registries have one code.
    /// - `AccountTwice`: an account stands twice in its registry.
    /// - `UnknownAccount`: an allotment, even of no units, is to an account that its registry doesn't have.
    /// - `AllotmentOverlap`: a unit is in two blocks, of any kinds.
    ///
    /// `NoMemory`: an allocation was refused. It says nothing about the text.
    pub fn read(alloc: Global, bytes: &[u8]) -> Result<Scheme, SchemeFault>
        ensures ok { IfOk result (λ s. IsSchemeText bytes.now s) }
        ensures only { IfOk result (λ s. (t : Scheme) → IsSchemeText bytes.now t → t ≡ s) }
        ensures fault { IfErr result (IsFault bytes.now) }
    {
        match Value::from_slice(alloc, bytes) {
            Ok(value) => scheme(alloc, &value),
            Err(e) if e.is_memory() => Err(SchemeFault::NoMemory),
            Err(_) => Err(SchemeFault::NotJson),
        }
    }
}

/// A text has one result: a scheme or one fault. The exception is `NoMemory`, which every text may have.
pub fn one_answer()
    ensures no_fault { (bytes : List ℕ) (s : Scheme) (f : SchemeFault) → IsSchemeText bytes s → IsFault bytes f
        → f ≡ NoMemory }
    ensures one_fault { (bytes : List ℕ) (f g : SchemeFault) → IsFault bytes f → IsFault bytes g → (f ≡ NoMemory → ⊥)
        → (g ≡ NoMemory → ⊥) → f ≡ g }
{}
