//! The text of a run as lines of JSON.
ghost use Rattle.std.specs.Prelude.{◌≡◌, ◌++◌, IfOk, OnOk, codes, decimal, string_bytes};
ghost use Rattle.units.specs.Code.{node_text};
ghost use Rattle.protocol.specs.declared.event.WorldEvent.TheVariants.{Take, Commit, Post, Deliver, Crash, Restart};
ghost use Rattle.events.specs.Objects.{event_object, event_objects, run_objects};

use protocol::WorldEvent;
use protocol::scheme::Scheme;
use status::Moment;
use std::alloc::Global;
use units::{NoMemory, Node};
use wire::{Input, encode_input};

/// The last member of an object, which is the node, and a newline.
fn node_member(alloc: Global, node: Node) -> Result<String, NoMemory>
    ensures { IfOk result (λ s. string_bytes s ≡ codes ",\"node\":\"" ++ node_text node ++ codes "\"}\n") }
{
    Ok(format!(in alloc; ",\"node\":\"{node}\"}}\n")?)
}

/// Adds the three texts, one after another.
fn push_parts(text: &mut Vec<u8>, first: &[u8], second: &[u8], third: &[u8]) -> Result<(), NoMemory>
    ensures { OnOk result (text.new.items ≡ text.old.items ++ (first.now ++ second.now ++ third.now)) }
{
    text.extend_from_slice(first)?;
    text.extend_from_slice(second)?;
    text.extend_from_slice(third)?;
    Ok(())
}

/// Adds the object of a node's input.
fn push_take(alloc: Global, text: &mut Vec<u8>, node: Node, input: &Input) -> Result<(), NoMemory>
    ensures { OnOk result (text.new.items ≡ text.old.items ++ event_object (Take node input.now)) }
{
    let record = encode_input(alloc, input)?;
    let last = node_member(alloc, node)?;
    push_parts(
        text,
        b"{\"event\":\"take\",\"input\":",
        record.as_slice(),
        last.as_bytes(),
    )?;
    Ok(())
}

/// The object of an event in which a node commits records.
fn commit_object(alloc: Global, node: Node, count: u64) -> Result<String, NoMemory>
    ensures { IfOk result (λ s. string_bytes s ≡ event_object (Commit node count)) }
{
    Ok(format!(in alloc; "{{\"count\":{count},\"event\":\"commit\",\"node\":\"{node}\"}}\n")?)
}

/// The object of an event in which a node posts a message.
fn post_object(alloc: Global, node: Node, key: u64) -> Result<String, NoMemory>
    ensures { IfOk result (λ s. string_bytes s ≡ event_object (Post node key)) }
{
    Ok(format!(in alloc; "{{\"event\":\"post\",\"key\":{key},\"node\":\"{node}\"}}\n")?)
}

/// The object of an event in which a message is delivered at that moment.
fn deliver_object(alloc: Global, message: u64, moment: Moment) -> Result<String, NoMemory>
    ensures { IfOk result (λ s. string_bytes s ≡ event_object (Deliver message moment)) }
{
    let seconds = moment.seconds;
    Ok(format!(in alloc; "{{\"event\":\"deliver\",\"message\":{message},\"moment\":{seconds}}}\n")?)
}

/// The object of a node's stop.
fn crash_object(alloc: Global, node: Node, kept: u64) -> Result<String, NoMemory>
    ensures { IfOk result (λ s. string_bytes s ≡ event_object (Crash node kept)) }
{
    Ok(format!(in alloc; "{{\"event\":\"crash\",\"kept\":{kept},\"node\":\"{node}\"}}\n")?)
}

/// The object of a node's start.
fn restart_object(alloc: Global, node: Node) -> Result<String, NoMemory>
    ensures { IfOk result (λ s. string_bytes s ≡ event_object (Restart node)) }
{
    Ok(format!(in alloc; "{{\"event\":\"restart\",\"node\":\"{node}\"}}\n")?)
}

/// Adds the line.
fn push_string(text: &mut Vec<u8>, line: String) -> Result<(), NoMemory>
    ensures { OnOk result (text.new.items ≡ text.old.items ++ string_bytes line) }
{
    text.extend_from_slice(line.as_bytes())?;
    Ok(())
}

/// Adds the line of an event.
fn push_object(alloc: Global, text: &mut Vec<u8>, event: &WorldEvent) -> Result<(), NoMemory>
    ensures { OnOk result (text.new.items ≡ text.old.items ++ event_object event.now) }
{
    match event {
        WorldEvent::Take { node, input } => push_take(alloc, text, *node, input),
        WorldEvent::Commit { node, count } => push_string(
            text,
            commit_object(alloc, *node, *count)?,
        ),
        WorldEvent::Post { node, key } => push_string(text, post_object(alloc, *node, *key)?),
        WorldEvent::Deliver { message, moment } => {
            push_string(text, deliver_object(alloc, *message, *moment)?)
        }
        WorldEvent::Crash { node, kept } => push_string(text, crash_object(alloc, *node, *kept)?),
        WorldEvent::Restart { node } => push_string(text, restart_object(alloc, *node)?),
    }
}

/// Adds the lines of the events.
fn push_objects(alloc: Global, text: &mut Vec<u8>, events: &[WorldEvent]) -> Result<(), NoMemory>
    ensures { OnOk result (text.new.items ≡ text.old.items ++ event_objects events.now) }
{
    for event in events {
        push_object(alloc, text, event)?;
    }
    Ok(())
}

/// The text of a run as lines of JSON: the scheme's line, and an object for each event.
///
/// # Errors
///
/// Fails with `NoMemory` where there is no room for the text.
pub(crate) fn run_objects(
    alloc: Global,
    scheme: &Scheme,
    events: &[WorldEvent],
) -> Result<Vec<u8>, NoMemory>
    ensures { IfOk result (λ v. v.items ≡ run_objects scheme.now events.now) }
{
    let mut text = scheme.text(alloc)?;
    text.push(b'\n')?;
    push_objects(alloc, &mut text, events)?;
    Ok(text)
}
