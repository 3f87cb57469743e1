//! Event lines.
ghost use Rattle.std.specs.Prelude.{◌≡◌, ◌∷◌, Err, IfOk, IfSome, IfNone, codes};
ghost use Rattle.protocol.specs.declared.event.WorldEvent.{WorldEvent};
ghost use Rattle.input_lines.specs.EventLines.{AreWords, IsEventLine};
ghost use Rattle.input_lines.specs.Verbs.{numbered_text, order_verb_text, verb_text};
ghost use Rattle.input_lines.specs.Words.{texts};

use crate::line::{
    WordsFault, first_of, node_and_number, number_first, only_moment, only_word, words_of,
};
use crate::orders::order_of;
use crate::reading::WrittenLine;
use crate::script_line::named;
use crate::verbs::{LineVerb, Numbered, OrderVerb, Verb};
use protocol::WorldEvent;
use std::alloc::Global;
use std::str::from_utf8;
use units::Node;
use wire::Input;

/// The event that a verb writes with a node and a number after it.
fn numbered(verb: Numbered, words: &[&str]) -> Option<WorldEvent>
    ensures some { IfSome result (λ e. AreWords (numbered_text verb ∷ texts words.now) e) }
    ensures none { IfNone result ((e : WorldEvent) → AreWords (numbered_text verb ∷ texts words.now) e → ⊥) }
{
    let (node, number) = node_and_number(words)?;
    Some(match verb {
        Numbered::Ack => WorldEvent::Take {
            node,
            input: Input::Ack(number),
        },
        Numbered::Commit => WorldEvent::Commit {
            node,
            count: number.value,
        },
        Numbered::Post => WorldEvent::Post {
            node,
            key: number.value,
        },
        Numbered::Crash => WorldEvent::Crash {
            node,
            kept: number.value,
        },
    })
}

/// The order that a verb and the words after it write, with the node that takes it.
fn order(alloc: Global, verb: OrderVerb, words: &[&str]) -> Result<WorldEvent, WordsFault>
    ensures ok { IfOk result (λ e. AreWords (order_verb_text verb ∷ texts words.now) e) }
    ensures order { result ≡ Err WordsFault.Order → (e : WorldEvent)
        → AreWords (order_verb_text verb ∷ texts words.now) e → ⊥ }
{
    let (node, words) = named(LineVerb::Order(verb), words).ok_or(WordsFault::Order)?;
    let input = order_of(alloc, verb, words)?;
    Ok(WorldEvent::Take { node, input })
}

/// The delivery that the words after `deliver` write.
fn deliver(words: &[&str]) -> Option<WorldEvent>
    ensures some { IfSome result (λ e. AreWords (codes "deliver" ∷ texts words.now) e) }
    ensures none { IfNone result ((e : WorldEvent) → AreWords (codes "deliver" ∷ texts words.now) e → ⊥) }
{
    let (message, words) = number_first(words)?;
    let moment = only_moment(words)?;
    Some(WorldEvent::Deliver { message, moment })
}

/// The node that the word after `restart` writes.
fn restart(words: &[&str]) -> Option<WorldEvent>
    ensures some { IfSome result (λ e. AreWords (codes "restart" ∷ texts words.now) e) }
    ensures none { IfNone result ((e : WorldEvent) → AreWords (codes "restart" ∷ texts words.now) e → ⊥) }
{
    let node = Node::read(only_word(words)?)?;
    Some(WorldEvent::Restart { node })
}

/// The event that a verb and the words after it write.
fn event_of_verb(alloc: Global, verb: Verb, words: &[&str]) -> Result<WorldEvent, WordsFault>
    ensures ok { IfOk result (λ e. AreWords (verb_text verb ∷ texts words.now) e) }
    ensures order { result ≡ Err WordsFault.Order → (e : WorldEvent) → AreWords (verb_text verb ∷ texts words.now) e
        → ⊥ }
{
    let event = match verb {
        Verb::Order(verb) => return order(alloc, verb, words),
        Verb::Numbered(verb) => numbered(verb, words),
        Verb::Deliver => deliver(words),
        Verb::Restart => restart(words),
    };
    event.ok_or(WordsFault::Order)
}

/// The event that some words write.
fn event_with(alloc: Global, words: &[&str]) -> Result<WorldEvent, WordsFault>
    ensures ok { IfOk result (λ e. AreWords (texts words.now) e) }
    ensures order { result ≡ Err WordsFault.Order → (e : WorldEvent) → AreWords (texts words.now) e → ⊥ }
{
    let (word, words) = first_of(words).ok_or(WordsFault::Order)?;
    let verb = Verb::read(word).ok_or(WordsFault::Order)?;
    event_of_verb(alloc, verb, words)
}

/// The event that a line writes.
///
/// # Errors
///
/// Fails with `Order` where the line writes no event, and with `NoMemory`.
pub fn event_of(alloc: Global, line: &[u8]) -> Result<WorldEvent, WordsFault>
    ensures ok { IfOk result (λ e. IsEventLine line.now e) }
    ensures order { result ≡ Err WordsFault.Order → (e : WorldEvent) → IsEventLine line.now e → ⊥ }
    ensures one { (e : WorldEvent) → IsEventLine line.now e → IfOk result (λ r. r ≡ e) }
{
    let Ok(line) = from_utf8(line) else {
        return Err(WordsFault::Order);
    };
    let words = words_of(alloc, line)?;
    event_with(alloc, words.as_slice())
}

impl WrittenLine for WorldEvent {
    ghost use Rattle.input_lines.specs.EventLines.{IsEventLine};

    ghost writes = { IsEventLine };

    fn read(alloc: Global, line: &[u8]) -> Result<WorldEvent, WordsFault> {
        event_of(alloc, line)
    }
}
