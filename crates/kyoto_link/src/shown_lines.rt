//! Lines of an input, as a hint about a fault shows them.

use std::alloc::{AllocError, Global};
use std::fmt::Write;

/// After how many bytes a line that is shown is cut.
const LONGEST_SHOWN: usize = 200;

/// The line with that number, counted from 1, without its newline. `None` if there are fewer lines.
pub(crate) fn line_at(text: &[u8], number: u64) -> Option<&[u8]> {
    let mut at: u64 = 0;
    for line in text.split(|byte| *byte == b'\n') {
        at = at.saturating_add(1);
        if at == number {
            return Some(line);
        }
    }
    None
}

/// The line as one line for a terminal or a log: with an escape such as `\t` for each control character, `U+FFFD` for
/// bytes that aren't UTF-8, and `..` after `LONGEST_SHOWN` bytes.
///
/// # Errors
///
/// Fails if memory runs out.
pub(crate) fn shown(alloc: Global, line: &[u8]) -> Result<String, AllocError> {
    let text = String::from_utf8_lossy(alloc, line)?;
    let mut shown = String::new(alloc);
    for character in text.as_str().chars() {
        if shown.len() >= LONGEST_SHOWN {
            shown.push_str("..")?;
            break;
        }
        if character.is_control() {
            if write!(shown, "{}", character.escape_default()).is_err() {
                return Err(AllocError);
            }
        } else {
            shown.push(character)?;
        }
    }
    Ok(shown)
}
