//! Writing a whole text to a writer.
ghost use Rattle.std.specs.Prelude.{◌≡◌, ◌<◌, ℕ, length, take, IfErr, OnOk};
ghost use Rattle.std.specs.Io.KnownBytes.{Appends};

use crate::fault::OpFault;
use std::io::Write;
use streams::write_text;

/// Writes the text.
///
/// Fails with `Write` where the writer failed, after the number of bytes in the fault.
pub fn write_out<W: Write>(writer: &mut W, text: &str) -> Result<(), OpFault>
    ensures ok { OnOk result (Appends (W.contents writer.old) (W.contents writer.new) text.now) }
    ensures err { IfErr result (λ e. (count : ℕ) × (e ≡ OpFault.Write count) × (count < length text.now)
        × Appends (W.contents writer.old) (W.contents writer.new) (take count text.now)) }
{
    write_text(writer, text.as_bytes())?;
    Ok(())
}
