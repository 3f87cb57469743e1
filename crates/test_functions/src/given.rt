//! The inputs that rows give a node: those of events by their lines, and messages by their texts.

use input_lines::event_of;
use protocol::WorldEvent;
use protocol::status::Moment;
use protocol::wire::Input;
use std::alloc::Global;
use std::process::Abort;
use test_support::READING;
use wire_lines::decode;

/// An input that a row gives a node.
#[derive(Clone, Copy, Debug)]
pub enum Given {
    /// The input in the event of that line. The row gives it to its own node, regardless of the node that the line
    /// names.
    Event(&'static str),
    /// The message of that text, at `MOMENT`.
    Message(&'static str),
}

/// The line of NZ's order for its hundred units.
pub const PROPOSE: &str = "propose NZ 1 JP 7 NZ:1:1-100:AAU";

/// The line of its order for the first sixty of them.
pub const PROPOSE_SIXTY: &str = "propose NZ 1 JP 7 NZ:1:1-60:AAU";

/// The moment at which messages are received, in seconds: 2012-05-01T00:00:00Z.
const MOMENT: u64 = 1_335_830_400;

/// The input that a node takes by the event.
fn taken(event: WorldEvent) -> Option<Input> {
    match event {
        WorldEvent::Take { input, .. } => Some(input),
        other => {
            drop(other);
            None
        }
    }
}

/// The message of that text, received at `MOMENT`.
fn received(rt: &impl Abort, alloc: Global, text: &str) -> Input {
    let message = decode(alloc, text.as_bytes()).expect(rt, READING);
    let moment = Moment::new(MOMENT).expect(rt, "in 2012");
    Input::Received { message, moment }
}

/// The input that the row gives.
pub fn input_of(rt: &impl Abort, alloc: Global, given: Given) -> Input {
    match given {
        Given::Event(line) => {
            let event = event_of(alloc, line.as_bytes()).expect(rt, READING);
            taken(event).expect(rt, "an input")
        }
        Given::Message(text) => received(rt, alloc, text),
    }
}

/// The inputs that are given.
pub fn inputs(rt: &impl Abort, alloc: Global, all: &[Given]) -> Vec<Input> {
    let mut inputs = Vec::new(alloc);
    for given in all {
        let input = input_of(rt, alloc, *given);
        inputs.push(input).expect(rt, READING);
    }
    inputs
}
