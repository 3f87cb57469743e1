//! The first line of an input.
ghost use Rattle.std.specs.Prelude.{◌≡◌, ◌<◌, length, Err, IfOk, IfErr};
ghost use Rattle.input_lines.specs.Lines.{IsLine, IsLineFault, IsTooLong, IsTruncated};

use command_faults::Cause;
use streams::{FirstLine, LONGEST_INPUT_LINE, first_line};

/// The first line of `bytes`, and the bytes after its newline. `room` is the number of bytes that the input may still
/// have.
///
/// # Errors
///
/// Fails with `TooLong` if the line or the input is over its limit, and with `Truncated` if there is no newline.
pub fn input_line(bytes: &[u8], room: usize) -> Result<(&[u8], &[u8]), Cause>
    ensures ok { IfOk result (λ p. IsLine bytes.now room p.0.now p.1.now) }
    ensures fault { IfErr result (λ cause. IsLineFault bytes.now room cause) }
    ensures too_long { IsTooLong bytes.now room → result ≡ Err Cause.TooLong }
    ensures truncated { IsTruncated bytes.now room → result ≡ Err Cause.Truncated }
    ensures shorter { IfOk result (λ p. length p.1.now < length bytes.now) }
{
    match first_line(bytes, LONGEST_INPUT_LINE.min(room)) {
        FirstLine::Whole(line, rest) if line.len() < room => Ok((line, rest)),
        FirstLine::Partial => Err(Cause::Truncated),
        _ => Err(Cause::TooLong),
    }
}
