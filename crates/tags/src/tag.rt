//! Tags, and lines that begin with one.
ghost use Rattle.std.specs.Prelude.{◌≡◌, ℕ, List, ◌↔◌, IsTrue, IfSome, IfNone, length};
ghost use Rattle.tags.specs.Tags.{hex_text, IsSplit};

use std::marker::Model;

/// How many bytes a tag has.
const TAG_BYTES: usize = 32;

/// How many hexadecimal digits write a tag.
pub const TAG_DIGITS: usize = 64;

/// The tag of a message or of a reply.
#[derive(Debug, Drop)]
pub struct Tag {
    bytes: [u8; TAG_BYTES],
}

impl Model for Tag {
    ghost use Rattle.std.specs.Prelude.{ℕ, List};

    ghost Value = { List ℕ };

    ghost view = { λ t. t.bytes };
}

/// Whether both have the same bytes. If the lengths are equal, always goes through all bytes, so that the time that it
/// takes doesn't depend on where they differ.
fn is_same(these: &[u8], those: &[u8]) -> bool
    ensures { IsTrue result ↔ (these.now ≡ those.now) }
{
    if these.len() != those.len() {
        return false;
    }
    let mut differing = 0u8;
    for i in 0..these.len() {
        differing |= these[i] ^ those[i];
    }
    differing == 0
}

impl Tag {
    /// The tag of those bytes.
    pub(crate) fn new(bytes: [u8; TAG_BYTES]) -> Tag
        ensures { result ≡ bytes }
    {
        Tag { bytes }
    }

    /// The text of the tag: 64 lowercase hexadecimal digits.
    pub fn hex(&self) -> [u8; TAG_DIGITS]
        ensures { result ≡ hex_text self.now }
    {
        let mut digits = [0u8; TAG_DIGITS];
        let written = hex::encode_to_slice(self.bytes.as_slice(), &mut digits);
        prove!(written.is_ok());
        digits
    }

    /// Whether those digits are the text of the tag. If there are `TAG_DIGITS` of them, always goes through all, so
    /// that the time that it takes doesn't reveal how many of the first digits of a guess are right.
    pub fn is_written(&self, digits: &[u8]) -> bool
        ensures { IsTrue result ↔ (digits.now ≡ hex_text self.now) }
    {
        is_same(digits, self.hex().as_slice())
    }
}

/// Splits a line into its first 64 bytes and the bytes after a space behind them: the digits of a tag and a text, in a
/// line that has them. `None` if the line is shorter, or has another byte in place of the space.
pub fn split_tagged(line: &[u8]) -> Option<(&[u8], &[u8])>
    ensures some { IfSome result (λ parts. IsSplit line.now parts.0.now parts.1.now) }
    ensures none { IfNone result ((digits text : List ℕ) → IsSplit line.now digits text → ⊥) }
{
    if line.len() <= TAG_DIGITS || line[TAG_DIGITS] != b' ' {
        return None;
    }
    let (digits, _) = line.split_at(TAG_DIGITS);
    let (_, text) = line.split_at(TAG_DIGITS + 1);
    Some((digits, text))
}
