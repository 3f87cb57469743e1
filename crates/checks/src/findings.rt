//! Findings by number.
ghost use Rattle.std.specs.Prelude.{◌≡◌, ◌++◌, ◌∷◌, [], OnOk};
ghost use Rattle.protocol.specs.Checks.{codes_of};

use units::NoMemory;

/// Adds the code, where its cause holds.
pub(crate) fn note(found: &mut Vec<u16>, cause: bool, code: u16) -> Result<(), NoMemory>
    ensures { OnOk result (found.new.items ≡ found.old.items ++ codes_of ((cause, code) ∷ [])) }
{
    if cause {
        found.push(code)?;
    }
    Ok(())
}
