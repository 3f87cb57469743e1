//! Cores of the worked scheme, and rows of inputs for them.

use crate::given::{Given, input_of};
use crate::same::{assert_same, assert_same_in};
use protocol::Outcome::Refused;
use protocol::scheme::Scheme;
use protocol::units::refusal_code::OUT_OF_MEMORY;
use protocol::units::{NoMemory, Node, Refusal};
use protocol::wire::{Input, Message, encode};
use protocol::{NodeCore, Outcome, Stepped, replay};
use std::alloc::Global;
use std::process::Abort;
use test_support::texts::SCHEME;
use test_support::{READING, again};

/// The room of the worked scheme's journals.
pub const ROOM: &str = "1000";

/// The worked scheme, with room for that number of records.
pub fn scheme(rt: &impl Abort, alloc: Global, room: &str) -> Scheme {
    let (before, after) = SCHEME.split_once(ROOM).expect(rt, READING);
    let text = format!(in alloc; "{before}{room}{after}").expect(rt, READING);
    Scheme::read(alloc, text.as_bytes()).expect(rt, READING)
}

/// A core whose tables can be seen.
pub trait Seen: NodeCore {
    /// Whether its tables agree with those of the other.
    fn is_like(&self, rt: &impl Abort, other: &Self) -> bool;
}

/// Asserts that the core agrees with a replay of its journal.
fn assert_as_replayed<C: Seen>(rt: &impl Abort, core: &C) {
    let replayed = replay(core, core.journal()).expect(rt, "a core");
    assert_same(rt, core.sends(), replayed.sends());
    let (next, expected) = (
        core.next_unacknowledged(Node::Itl, 0),
        replayed.next_unacknowledged(Node::Itl, 0),
    );
    assert_same(rt, next, expected);
    assert!(rt; core.is_like(rt, &replayed));
    drop(replayed);
}

fn outcome(stepped: Result<Stepped, Refusal>) -> Outcome {
    match stepped {
        Ok(stepped) => Outcome::from(stepped),
        Err(refusal) => Refused(refusal.code),
    }
}

/// Asserts that the core has that number of records and messages, and agrees with a replay of its journal.
fn assert_unchanged<C: Seen>(rt: &impl Abort, core: &C, records: usize, sends: usize) {
    assert_same(rt, core.records(), records);
    assert_same(rt, core.sends(), sends);
    assert_as_replayed(rt, core);
}

/// Steps the core by the input. Where memory ran out, nothing has changed, and the core is stepped once more.
fn step<C: Seen>(rt: &impl Abort, core: &mut C, input: &Input) -> Outcome {
    let (records, sends) = (core.records(), core.sends());
    let stepped = again!(
        core.step(input),
        Err(Refusal { code: OUT_OF_MEMORY }) => assert_unchanged(rt, core, records, sends)
    );
    outcome(stepped)
}

/// The outcome of a step by the given input.
fn outcome_of<C: Seen>(rt: &impl Abort, alloc: Global, core: &mut C, given: Given) -> Outcome {
    let input = input_of(rt, alloc, given);
    let outcome = step(rt, core, &input);
    drop(input);
    outcome
}

/// Gives the core the inputs of the row, one after the other, and asserts the outcome of each.
pub fn walk<C: Seen>(rt: &impl Abort, alloc: Global, core: &mut C, row: &[(Given, Outcome)]) {
    for (given, expected) in row {
        let outcome = outcome_of(rt, alloc, core, *given);
        assert_same_in(rt, outcome, *expected, *given);
    }
}

/// Asserts that the message has that text.
pub fn assert_text(rt: &impl Abort, alloc: Global, message: &Message, expected: &str) {
    let text = again!(encode(alloc, message), Err(NoMemory) => ());
    let text = text.expect(rt, "memory");
    assert_same(rt, text.as_slice(), expected.as_bytes());
}

/// Asserts that the messages from that key on have these texts, and that there are no others after them.
pub fn assert_sent<C: NodeCore>(
    rt: &impl Abort,
    alloc: Global,
    core: &C,
    first: usize,
    texts: &[&str],
) {
    let mut key = first;
    for expected in texts {
        let message = core.outbox(key).expect(rt, "a message");
        assert_text(rt, alloc, message, expected);
        key = key.saturating_add(1);
    }
    assert_same(rt, core.sends(), key);
}
