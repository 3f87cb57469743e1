//! The lines of a node's operator: orders and questions without the node's name.
ghost use Rattle.std.specs.Prelude.{◌≡◌, ◌≤◌, [], ◌∷◌, ℕ, List, Err, IfOk, IfSome, IfNone, MatchBool, codes, decimal};
ghost use Rattle.units.specs.declared.code.Node.{Node as ANode};
ghost use Rattle.status.specs.Id.{id_text};
ghost use Rattle.status.specs.Status.{status_text};
ghost use Rattle.status.specs.declared.id.TransactionId.{TransactionId as AnId};
ghost use Rattle.status.specs.declared.status.Status.{Status as AStatus};
ghost use Rattle.input_lines.specs.Instructions.{AreInstructionWords, IsInstruction, most_turns};
ghost use Rattle.input_lines.specs.Verbs.{line_verb_text};
ghost use Rattle.input_lines.specs.Words.{texts};
ghost use Rattle.input_lines.specs.declared.instruction.Instruction.{Instruction as AnInstruction};

use crate::instruction::{Instruction, MOST_TURNS};
use crate::line::{WordsFault, first_of, only_id, only_word, words_of};
use crate::orders::order_of;
use crate::verbs::LineVerb;
use status::{Status, TransactionId};
use std::alloc::Global;
use std::str::from_utf8;
use units::number;

/// The transaction that the first word names, and the other words.
fn id_first<'w, 'a>(words: &'w [&'a str]) -> Option<(TransactionId, &'w [&'a str])>
    ensures some { IfSome result (λ p. texts words.now ≡ id_text p.0 ∷ texts p.1.now) }
    ensures none { IfNone result ((t : AnId) (others : List (List ℕ)) → texts words.now ≡ id_text t ∷ others
        → ⊥) }
{
    let (word, others) = first_of(words)?;
    let id = TransactionId::read(word)?;
    Some((id, others))
}

/// The status that the first word names, and the other words.
fn status_first<'w, 'a>(words: &'w [&'a str]) -> Option<(Status, &'w [&'a str])>
    ensures some { IfSome result (λ p. texts words.now ≡ status_text p.0 ∷ texts p.1.now) }
    ensures none { IfNone result ((s : AStatus) (others : List (List ℕ)) → texts words.now ≡ status_text s ∷ others
        → ⊥) }
{
    let (word, others) = first_of(words)?;
    let status = Status::read(word)?;
    Some((status, others))
}

/// Whether a line may wait that number of turns.
fn is_turns(turns: u64) -> bool
    ensures { MatchBool result ((1 ≤ turns) × (turns ≤ most_turns)) ((1 ≤ turns) × (turns ≤ most_turns) → ⊥) }
{
    1 <= turns && turns <= MOST_TURNS
}

/// The number of turns that the word writes, where there is exactly one.
fn only_turns(words: &[&str]) -> Option<u64>
    ensures some { IfSome result (λ n. (texts words.now ≡ decimal n ∷ []) × (1 ≤ n) × (n ≤ most_turns)) }
    ensures none { IfNone result ((n : ℕ) → 1 ≤ n → n ≤ most_turns → texts words.now ≡ decimal n ∷ [] → ⊥) }
{
    let word = only_word(words)?;
    let turns = number(word)?;
    if is_turns(turns) { Some(turns) } else { None }
}

/// The status that a transaction is to reach, and the turns, that words write.
fn status_and_turns(words: &[&str]) -> Option<(Status, u64)>
    ensures some { IfSome result (λ p. (texts words.now ≡ status_text p.0 ∷ decimal p.1 ∷ []) × (1 ≤ p.1)
        × (p.1 ≤ most_turns)) }
    ensures none { IfNone result ((s : AStatus) (n : ℕ) → 1 ≤ n → n ≤ most_turns
        → texts words.now ≡ status_text s ∷ decimal n ∷ [] → ⊥) }
{
    let (status, words) = status_first(words)?;
    let turns = only_turns(words)?;
    Some((status, turns))
}

/// The question that the word after `status` writes.
fn status(words: &[&str]) -> Option<Instruction>
    ensures some { IfSome result (AreInstructionWords (codes "status" ∷ texts words.now)) }
    ensures none { IfNone result ((i : AnInstruction) → AreInstructionWords (codes "status" ∷ texts words.now) i → ⊥) }
{
    let id = only_id(words)?;
    Some(Instruction::Status(id))
}

/// The question that the words after `until` write.
fn until(words: &[&str]) -> Option<Instruction>
    ensures some { IfSome result (AreInstructionWords (codes "until" ∷ texts words.now)) }
    ensures none { IfNone result ((i : AnInstruction) → AreInstructionWords (codes "until" ∷ texts words.now) i → ⊥) }
{
    let (id, words) = id_first(words)?;
    let (status, turns) = status_and_turns(words)?;
    Some(Instruction::Until { id, status, turns })
}

/// The order or the question that a verb and the words after it write.
pub(crate) fn instruction_with(
    alloc: Global,
    verb: LineVerb,
    words: &[&str],
) -> Result<Instruction, WordsFault>
    ensures ok { IfOk result (AreInstructionWords (line_verb_text verb ∷ texts words.now)) }
    ensures order { result ≡ Err WordsFault.Order → (i : AnInstruction)
        → AreInstructionWords (line_verb_text verb ∷ texts words.now) i → ⊥ }
{
    match verb {
        LineVerb::Order(verb) => Ok(Instruction::Order(order_of(alloc, verb, words)?)),
        LineVerb::Status => status(words).ok_or(WordsFault::Order),
        LineVerb::Until => until(words).ok_or(WordsFault::Order),
    }
}

/// The order or the question that some words write.
fn instruction_of_words(alloc: Global, words: &[&str]) -> Result<Instruction, WordsFault>
    ensures ok { IfOk result (AreInstructionWords (texts words.now)) }
    ensures order { result ≡ Err WordsFault.Order → (i : AnInstruction) → AreInstructionWords (texts words.now) i → ⊥ }
{
    let (word, words) = first_of(words).ok_or(WordsFault::Order)?;
    let verb = LineVerb::read(word).ok_or(WordsFault::Order)?;
    instruction_with(alloc, verb, words)
}

/// The order or the question that a line writes, as a node's operator writes them: without the node's name.
///
/// # Errors
///
/// Fails with `Order` where the line writes none, and with `NoMemory` where memory ran out.
pub fn instruction_of(alloc: Global, line: &[u8]) -> Result<Instruction, WordsFault>
    ensures ok { IfOk result (IsInstruction line.now) }
    ensures order { result ≡ Err WordsFault.Order → (i : AnInstruction) → IsInstruction line.now i → ⊥ }
{
    let Ok(line) = from_utf8(line) else {
        return Err(WordsFault::Order);
    };
    let words = words_of(alloc, line)?;
    instruction_of_words(alloc, words.as_slice())
}
