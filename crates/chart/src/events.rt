//! The lines of events.
ghost use Rattle.std.specs.Prelude.{◌≡◌, ◌++◌, OnOk, codes, decimal, option_copied, string_bytes};
ghost use Rattle.units.specs.Code.{node_text};
ghost use Rattle.chart.specs.ChartLines.{deliver_line, event_line, note_line, order_text, post_line};

use crate::messages::{push_delivered, push_end};
use crate::orders::push_order;
use protocol::{Outcome, WorldEvent};
use std::fmt::Write;
use units::{NoMemory, Node};
use wire::{Input, Message};

/// Adds the part of a note before its words.
fn push_over(text: &mut String, node: Node) -> Result<(), NoMemory>
    ensures { OnOk result (string_bytes text.new ≡ string_bytes text.old ++
        (codes "    Note over " ++ node_text node ++ codes ": ")) }
{
    write!(text, "    Note over {node}: ")?;
    Ok(())
}

fn push_note(text: &mut String, node: Node, words: &str, outcome: Outcome) -> Result<(), NoMemory>
    ensures { OnOk result (string_bytes text.new ≡ string_bytes text.old ++ note_line node words.now outcome) }
{
    push_over(text, node)?;
    text.push_str(words)?;
    push_end(text, outcome)?;
    Ok(())
}

/// Adds words and a number.
fn push_counted(text: &mut String, words: &str, count: u64) -> Result<(), NoMemory>
    ensures { OnOk result (string_bytes text.new ≡ string_bytes text.old ++ (words.now ++ decimal count)) }
{
    text.push_str(words)?;
    write!(text, "{count}")?;
    Ok(())
}

/// A note of words and a number.
fn push_count(
    text: &mut String,
    node: Node,
    words: &str,
    count: u64,
    outcome: Outcome,
) -> Result<(), NoMemory>
    ensures { OnOk result (string_bytes text.new ≡ string_bytes text.old ++ note_line node
        (words.now ++ decimal count) outcome) }
{
    push_over(text, node)?;
    push_counted(text, words, count)?;
    push_end(text, outcome)?;
    Ok(())
}

fn push_take(text: &mut String, node: Node, input: &Input, outcome: Outcome) -> Result<(), NoMemory>
    ensures { OnOk result (string_bytes text.new ≡ string_bytes text.old ++ note_line node
        (order_text input.now) outcome) }
{
    push_over(text, node)?;
    push_order(text, input)?;
    push_end(text, outcome)?;
    Ok(())
}

fn push_post(text: &mut String, node: Node, key: u64, outcome: Outcome) -> Result<(), NoMemory>
    ensures { OnOk result (string_bytes text.new ≡ string_bytes text.old ++ post_line node key outcome) }
{
    if outcome == Outcome::NotPossible {
        push_count(text, node, "post ", key, outcome)?;
    }
    Ok(())
}

fn push_deliver(
    text: &mut String,
    message: Option<&Message>,
    index: u64,
    outcome: Outcome,
) -> Result<(), NoMemory>
    ensures { OnOk result (string_bytes text.new ≡ string_bytes text.old ++ deliver_line
        (option_copied message.entry) index outcome) }
{
    match message {
        Some(message) => push_delivered(text, message, outcome),
        None => push_count(text, Node::Itl, "deliver ", index, outcome),
    }
}

/// Adds the line of an event and its outcome. A message that is posted has no line of its own. For a delivery,
/// `message` is the one that the bag has with the event's number, or `None` where it has none.
///
/// # Errors
///
/// Fails with `NoMemory` where there is no room for the line. The text may then have a part of it.
pub(crate) fn push_event(
    text: &mut String,
    message: Option<&Message>,
    event: &WorldEvent,
    outcome: Outcome,
) -> Result<(), NoMemory>
    ensures { OnOk result (string_bytes text.new ≡ string_bytes text.old ++ event_line
        (option_copied message.entry) event.now outcome) }
{
    match event {
        WorldEvent::Take { node, input } => push_take(text, *node, input, outcome),
        WorldEvent::Commit { node, count } => push_count(text, *node, "commit ", *count, outcome),
        WorldEvent::Post { node, key } => push_post(text, *node, *key, outcome),
        WorldEvent::Deliver {
            message: index,
            moment: _,
        } => push_deliver(text, message, *index, outcome),
        WorldEvent::Crash { node, kept } => push_count(text, *node, "crash, kept ", *kept, outcome),
        WorldEvent::Restart { node } => push_note(text, *node, "restart", outcome),
    }
}
