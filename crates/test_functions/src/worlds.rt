//! Worlds of the worked scheme, and assertions about their views.

use crate::cores::{ROOM, assert_text, scheme};
use crate::given::{Given, input_of};
use crate::named::{block, code, id, node, unit};
use crate::same::{assert_same, assert_same_in};
use input_lines::event_of;
use protocol::WorldEvent;
use protocol::status::Status;
use protocol::units::NoMemory;
use protocol::wire::Input;
use registry_core::accounts::HeldBlock;
use std::alloc::Global;
use std::process::Abort;
use test_support::{READING, again};
use world::{ProposedTransfer, ReachedWorld, World};

/// A line of a registry's holdings: the account, the block, and the transaction that reserves it, if any.
pub type Line = (u64, &'static str, Option<&'static str>);

fn events(rt: &impl Abort, alloc: Global, lines: &[&str]) -> Vec<WorldEvent> {
    let mut events = Vec::new(alloc);
    for line in lines {
        let event = event_of(alloc, line.as_bytes()).expect(rt, READING);
        events.push(event).expect(rt, READING);
    }
    events
}

/// The world of the worked scheme that the events of these lines lead to.
pub fn world_of(rt: &impl Abort, alloc: Global, lines: &[&str]) -> World {
    let scheme = scheme(rt, alloc, ROOM);
    let events = events(rt, alloc, lines);
    let world = again!(
        ReachedWorld::run(alloc, &scheme, events.as_slice()),
        Err(NoMemory) => ()
    );
    drop(events);
    drop(scheme);
    world.expect(rt, "memory").into_world()
}

/// Asserts the status of the transaction at these nodes.
pub fn assert_stands(
    rt: &impl Abort,
    world: &World,
    transaction: &str,
    row: &[(&'static str, Option<Status>)],
) {
    let id = id(rt, transaction);
    for (name, expected) in row {
        let found = world.status(node(rt, *name), id);
        assert_same_in(rt, found, *expected, *name);
    }
}

/// Asserts that the input is the given one.
fn assert_input(rt: &impl Abort, alloc: Global, found: &Input, given: Given) {
    let expected = input_of(rt, alloc, given);
    let same = found.same(&expected);
    drop(expected);
    assert_same_in(rt, same, true, given);
}

fn assert_inputs(rt: &impl Abort, alloc: Global, found: &[Input], expected: &[Given]) {
    assert_same(rt, found.len(), expected.len());
    for (input, given) in found.iter().zip(expected) {
        assert_input(rt, alloc, input, *given);
    }
}

/// Asserts which records the node has, and how many of them are committed.
pub fn assert_journal(
    rt: &impl Abort,
    alloc: Global,
    world: &World,
    name: &str,
    records: &[Given],
    committed: usize,
) {
    let node = node(rt, name);
    let journal = world.journal(node).expect(rt, "a node");
    assert_inputs(rt, alloc, journal, records);
    let front = world.committed(node).expect(rt, "a node");
    assert_inputs(rt, alloc, front, &records[..committed.min(records.len())]);
}

/// Asserts which messages were posted, by which node and with which key there.
pub fn assert_bag(
    rt: &impl Abort,
    alloc: Global,
    world: &World,
    posted: &[(&'static str, u64, &'static str)],
) {
    assert_same(rt, world.bag().len(), posted.len());
    for (found, (name, key, text)) in world.bag().iter().zip(posted) {
        assert_same(rt, found.node, node(rt, *name));
        assert_same(rt, found.key, *key);
        assert_text(rt, alloc, &found.message, *text);
    }
}

fn held_block(rt: &impl Abort, line: Line) -> HeldBlock {
    let (account, text, reserving) = line;
    HeldBlock {
        account,
        block: block(rt, text),
        reserving: reserving.map(|text| id(rt, text)),
    }
}

fn assert_lines(rt: &impl Abort, found: &[HeldBlock], expected: &[Line]) {
    assert_same(rt, found.len(), expected.len());
    for (held, line) in found.iter().zip(expected) {
        assert_same(rt, *held, held_block(rt, *line));
    }
}

/// Asserts the holdings of the registry.
fn assert_holdings(rt: &impl Abort, world: &World, name: &str, expected: &[Line]) {
    let code = code(rt, name);
    let found = again!(world.holdings(code), Err(NoMemory) => ());
    let lines = found.expect(rt, "memory").expect(rt, "a registry");
    assert_lines(rt, lines.as_slice(), expected);
}

/// Asserts the holdings of each registry: these are all of them, in the scheme's order.
pub fn assert_stocks(
    rt: &impl Abort,
    alloc: Global,
    world: &World,
    expected: &[(&'static str, &'static [Line])],
) {
    let stocks = again!(world.stocks(alloc), Err(NoMemory) => ());
    let stocks = stocks.expect(rt, "memory");
    assert_same(rt, stocks.len(), expected.len());
    for (stock, (name, lines)) in stocks.iter().zip(expected) {
        assert_same(rt, stock.code, code(rt, *name));
        assert_lines(rt, stock.lines.as_slice(), *lines);
        assert_holdings(rt, world, *name, *lines);
    }
}

/// Asserts whether the registry holds the first unit of the block, and whether no transfer reserves it.
pub fn assert_unit(
    rt: &impl Abort,
    world: &World,
    name: &str,
    block: &'static str,
    held: bool,
    spendable: bool,
) {
    let (code, unit) = (code(rt, name), unit(rt, block));
    assert_same_in(rt, world.held(code, &unit), held, block);
    assert_same_in(rt, world.spendable(code, &unit), spendable, block);
}

/// Asserts which transfers owe the first unit of the block.
pub fn assert_owed(rt: &impl Abort, alloc: Global, world: &World, block: &str, expected: &[&str]) {
    let unit = unit(rt, block);
    let owed = again!(world.owed(alloc, &unit), Err(NoMemory) => ());
    let owed = owed.expect(rt, "memory");
    assert_same(rt, owed.len(), expected.len());
    for (found, text) in owed.iter().zip(expected) {
        assert_same(rt, *found, id(rt, *text));
    }
}

fn assert_proposed(rt: &impl Abort, found: &[ProposedTransfer<'_>], expected: &[&str]) {
    assert_same(rt, found.len(), expected.len());
    for (transfer, text) in found.iter().zip(expected) {
        assert_same(rt, transfer.id, id(rt, *text));
    }
}

/// Asserts which transfers there are, and which of them owe their units.
pub fn assert_transfers(
    rt: &impl Abort,
    alloc: Global,
    world: &World,
    all: &[&str],
    owing: &[&str],
) {
    let transactions = again!(world.transactions(alloc), Err(NoMemory) => ());
    let transactions = transactions.expect(rt, "memory");
    assert_proposed(rt, transactions.as_slice(), all);
    let due = again!(world.due(alloc), Err(NoMemory) => ());
    let due = due.expect(rt, "memory");
    assert_proposed(rt, due.as_slice(), owing);
}
