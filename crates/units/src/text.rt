//! Numbers in a text, and a text cut in two.
ghost use Rattle.std.specs.Prelude.{◌≡◌, ℕ, ◌++◌, ◌∷◌, ◌<◌, IfSome, IfNone};
ghost use Rattle.units.specs.Text.{IsNumberText, IsFreeOf};

use crate::limits::MOST_DIGITS;

/// The text before the first such ASCII character, and the text after it.
pub fn cut(text: &str, at: char) -> Option<(&str, &str)>
    requires { at < 128 }
    ensures some { IfSome result (λ p. (text.now ≡ p.0.now ++ at ∷ p.1.now) × IsFreeOf at p.0.now) }
    ensures none { IfNone result (IsFreeOf at text.now) }
{
    text.split_once(at)
}

/// The number that a text writes in decimal, with at most `MOST_DIGITS` digits and no leading zero.
pub fn number(text: &str) -> Option<u64>
    ensures some { IfSome result (λ n. IsNumberText text.now n) }
    ensures none { IfNone result ((n : ℕ) → IsNumberText text.now n → ⊥) }
{
    if text.len() > MOST_DIGITS || text.starts_with('+') {
        return None;
    }
    if text.len() > 1 && text.starts_with('0') {
        return None;
    }
    text.parse::<u64>().ok()
}
