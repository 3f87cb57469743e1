//! Lines that write events.
ghost use Rattle.std.specs.Prelude.{IfOk, string_bytes};
ghost use Rattle.input_lines.specs.EventLines.{IsEventLine};
ghost use Rattle.units.specs.Text.{IsFreeOf};

use crate::events::event_of;
use crate::line::WordsFault;
use protocol::WorldEvent;
use status::Order;
use std::alloc::Global;
use std::fmt::Write;
use units::{NoMemory, Node, cut};
use wire::Input;

/// Adds the words of an order to transfer units.
fn push_order(line: &mut String, node: Node, order: &Order) -> Result<(), NoMemory> {
    let account = order.account();
    let registry = order.acquirer();
    let to_account = order.to_account();
    write!(line, "propose {node} {account} {registry} {to_account}")?;
    for block in order.units() {
        write!(line, " {block}")?;
    }
    Ok(())
}

/// Adds the words of a node's input. No words write a received message, since it is delivered.
fn push_input(line: &mut String, node: Node, input: &Input) -> Result<(), NoMemory> {
    match input {
        Input::Propose(order) => push_order(line, node, order)?,
        Input::Request(id) => write!(line, "request {node} {id}")?,
        Input::OpenAccount(account) => write!(line, "open {node} {}", account.value)?,
        Input::CloseAccount(account) => write!(line, "close {node} {}", account.value)?,
        Input::Ack(key) => write!(line, "ack {node} {}", key.value)?,
        Input::CleanUp(moment) => write!(line, "clean-up {moment}")?,
        Input::Eligible { registry, may } => {
            let word = if *may { "yes" } else { "no" };
            write!(line, "eligible {registry} {word}")?;
        }
        Input::Received { .. } => {}
    }
    Ok(())
}

fn push_event(line: &mut String, event: &WorldEvent) -> Result<(), NoMemory> {
    match event {
        WorldEvent::Take { node, input } => push_input(line, *node, input)?,
        WorldEvent::Commit { node, count } => write!(line, "commit {node} {count}")?,
        WorldEvent::Post { node, key } => write!(line, "post {node} {key}")?,
        WorldEvent::Deliver { message, moment } => write!(line, "deliver {message} {moment}")?,
        WorldEvent::Crash { node, kept } => write!(line, "crash {node} {kept}")?,
        WorldEvent::Restart { node } => write!(line, "restart {node}")?,
    }
    Ok(())
}

/// The line that writes an event, without its newline. The line is read back before it is returned: `event_of` returns
/// this event for it.
///
/// # Errors
///
/// Fails with `Order` where no line writes the event: an event that gives a node a message or an order that isn't for
/// it, or that has a number of more than 18 digits. Fails with `NoMemory` where there is no room for the line.
pub fn line_of(alloc: Global, event: &WorldEvent) -> Result<String, WordsFault>
    ensures writes { IfOk result (λ s. IsEventLine (string_bytes s) event.now) }
    ensures free { IfOk result (λ s. IsFreeOf 10 (string_bytes s)) }
{
    let mut line = String::new(alloc);
    push_event(&mut line, event)?;
    let read = event_of(alloc, line.as_str().as_bytes())?;
    if cut(line.as_str(), '\n').is_none() && read.same(event) {
        Ok(line)
    } else {
        Err(WordsFault::Order)
    }
}
