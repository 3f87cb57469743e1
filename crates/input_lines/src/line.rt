//! The words of a line, and the values that single words write.
ghost use Rattle.std.specs.Prelude.{◌≡◌, ◌<◌, [], ◌∷◌, ℕ, List, IfOk, IfSome, IfNone, decimal};
ghost use Rattle.units.specs.Code.{code_text, node_text};
ghost use Rattle.units.specs.Limits.{too_long};
ghost use Rattle.units.specs.declared.code.Code.{Code};
ghost use Rattle.units.specs.declared.code.Node.{Node};
ghost use Rattle.status.specs.Id.{id_text};
ghost use Rattle.status.specs.Moment.{IsMomentText};
ghost use Rattle.status.specs.declared.id.TransactionId.{TransactionId};
ghost use Rattle.status.specs.declared.moment.Moment.{Moment};
ghost use Rattle.input_lines.specs.Words.{AreCut, texts};

use status::{Moment, TransactionId};
use std::alloc::{AllocFailed, Global};
use units::{Code, NoMemory, Node, cut, number};
use wire::Number;

/// Why a line gives no event.
#[derive(Clone, Copy, Debug, PartialEq, Eq)]
pub enum WordsFault {
    /// The line writes no event.
    Order,
    /// Out of memory; the line may or may not write an event.
    NoMemory,
}

impl From<NoMemory> for WordsFault {
    ghost use Rattle.input_lines.specs.declared.line.WordsFault.TheVariants.{NoMemory};

    ghost from_gives = { λ _ e. e ≡ NoMemory };

    fn from(_: NoMemory) -> WordsFault {
        WordsFault::NoMemory
    }
}

impl<T: Drop> From<AllocFailed<T>> for WordsFault {
    ghost use Rattle.input_lines.specs.declared.line.WordsFault.TheVariants.{NoMemory};

    ghost from_gives = { λ _ e. e ≡ NoMemory };

    fn from(_: AllocFailed<T>) -> WordsFault {
        WordsFault::NoMemory
    }
}

/// The words of a line, cut at each space: two spaces side by side have an empty word between them. Fails with
/// `NoMemory` where memory ran out.
pub fn words_of(alloc: Global, line: &str) -> Result<Vec<&str>, NoMemory>
    ensures { IfOk result (λ v. AreCut line.now (texts v.items)) }
{
    let mut found = Vec::new(alloc);
    let mut rest = line;
    while let Some((word, after)) = cut(rest, ' ') {
        found.push(word)?;
        rest = after;
    }
    found.push(rest)?;
    Ok(found)
}

/// The first word, and the other words.
pub fn first_of<'w, 'a>(words: &'w [&'a str]) -> Option<(&'a str, &'w [&'a str])>
    ensures some { IfSome result (λ p. texts words.now ≡ p.0.now ∷ texts p.1.now) }
    ensures none { IfNone result (texts words.now ≡ []) }
{
    let (word, others) = words.split_first()?;
    Some((*word, others))
}

/// The word, where there is exactly one.
pub fn only_word<'a>(words: &[&'a str]) -> Option<&'a str>
    ensures some { IfSome result (λ w. texts words.now ≡ w.now ∷ []) }
    ensures none { IfNone result ((w : List ℕ) → texts words.now ≡ w ∷ [] → ⊥) }
{
    let (word, others) = first_of(words)?;
    if others.is_empty() { Some(word) } else { None }
}

/// The node that the first word writes, and the other words.
pub fn node_first<'w, 'a>(words: &'w [&'a str]) -> Option<(Node, &'w [&'a str])>
    ensures some { IfSome result (λ p. texts words.now ≡ node_text p.0 ∷ texts p.1.now) }
    ensures none { IfNone result ((n : Node) (others : List (List ℕ)) → texts words.now ≡ node_text n ∷ others → ⊥) }
{
    let (word, others) = first_of(words)?;
    let node = Node::read(word)?;
    Some((node, others))
}

/// The code that the first word writes, and the other words.
pub(crate) fn code_first<'w, 'a>(words: &'w [&'a str]) -> Option<(Code, &'w [&'a str])>
    ensures some { IfSome result (λ p. texts words.now ≡ code_text p.0 ∷ texts p.1.now) }
    ensures none { IfNone result ((c : Code) (others : List (List ℕ)) → texts words.now ≡ code_text c ∷ others → ⊥) }
{
    let (word, others) = first_of(words)?;
    let code = Code::read(word)?;
    Some((code, others))
}

/// The number that the first word writes, and the other words.
pub(crate) fn number_first<'w, 'a>(words: &'w [&'a str]) -> Option<(u64, &'w [&'a str])>
    ensures some { IfSome result (λ p. (texts words.now ≡ decimal p.0 ∷ texts p.1.now) × (p.0 < too_long)) }
    ensures none { IfNone result ((n : ℕ) (others : List (List ℕ)) → n < too_long
        → texts words.now ≡ decimal n ∷ others → ⊥) }
{
    let (word, others) = first_of(words)?;
    let n = number(word)?;
    Some((n, others))
}

/// The number that one word writes.
pub(crate) fn only_number(words: &[&str]) -> Option<Number>
    ensures some { IfSome result (λ n. texts words.now ≡ decimal n.value ∷ []) }
    ensures none { IfNone result ((k : ℕ) → k < too_long → texts words.now ≡ decimal k ∷ [] → ⊥) }
{
    let word = only_word(words)?;
    let n = number(word)?;
    Number::new(n)
}

/// The node and the number that two words write.
pub(crate) fn node_and_number(words: &[&str]) -> Option<(Node, Number)>
    ensures some { IfSome result (λ p. texts words.now ≡ node_text p.0 ∷ decimal p.1.value ∷ []) }
    ensures none { IfNone result ((n : Node) (k : ℕ) → k < too_long → texts words.now ≡ node_text n ∷ decimal k ∷ []
        → ⊥) }
{
    let (node, others) = node_first(words)?;
    let number = only_number(others)?;
    Some((node, number))
}

/// The transaction that one word names.
pub(crate) fn only_id(words: &[&str]) -> Option<TransactionId>
    ensures some { IfSome result (λ t. texts words.now ≡ id_text t ∷ []) }
    ensures none { IfNone result ((t : TransactionId) → texts words.now ≡ id_text t ∷ [] → ⊥) }
{
    TransactionId::read(only_word(words)?)
}

/// The moment that one word names.
pub(crate) fn only_moment(words: &[&str]) -> Option<Moment>
    ensures some { IfSome result (λ m. (text : List ℕ) × (texts words.now ≡ text ∷ []) × IsMomentText text m) }
    ensures none { IfNone result ((text : List ℕ) (m : Moment) → texts words.now ≡ text ∷ [] → IsMomentText text m
        → ⊥) }
{
    let word = only_word(words)?;
    match Moment::read(word) {
        Ok(moment) => Some(moment),
        Err(_) => None,
    }
}
