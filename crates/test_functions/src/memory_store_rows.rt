use crate::same::assert_same;
use crate::sample_records::{are_two, two};
use crate::store_calls::{append, append_two, assert_kept, assert_pages, assert_two, load, loaded};
use protocol::units::{Code, Node};
use protocol::wire::{Input, Number};
use std::alloc::Global;
use std::process::Abort;
use stores::{Kept, MemoryStore, NodeStore, StoreFault};
use test_support::{READING, again};

fn nz(rt: &impl Abort) -> Node {
    let code = Code::read("NZ").expect(rt, "a code");
    Node::Registry(code)
}

fn number(rt: &impl Abort, value: u64) -> Number {
    Number::new(value).expect(rt, "a short number")
}

/// An acknowledgement.
fn one(rt: &impl Abort, alloc: Global) -> Vec<Input> {
    Vec::from_array(alloc, [Input::Ack(number(rt, 7))]).expect(rt, READING)
}

/// Appends and loads through the bound, as callers of any store do.
fn append_and_load<S: NodeStore>(store: &mut S, batch: &[Input]) -> Result<Vec<Input>, StoreFault> {
    store.append(batch)?;
    store.reopen()?;
    store.load()
}

/// The same for a new store.
fn appended_and_loaded(
    rt: &impl Abort,
    alloc: Global,
    batch: &[Input],
) -> Result<Vec<Input>, StoreFault> {
    let mut store = MemoryStore::new(alloc, nz(rt));
    append_and_load(&mut store, batch)
}

/// Asserts that the store has that number of records.
fn assert_count(rt: &impl Abort, store: &mut MemoryStore, count: usize) {
    let records = loaded(rt, store);
    assert_same(rt, records.len(), count);
    drop(records);
}

/// Asserts the result of appending the batch to a store that has that number of records.
fn assert_append(
    rt: &impl Abort,
    store: &mut MemoryStore,
    records: usize,
    batch: &[Input],
    expected: Result<(), StoreFault>,
) {
    assert_same(rt, append(rt, store, records, batch), expected);
}

#[test]
fn records_are_kept_in_their_order(rt: HostRuntime) {
    let alloc = rt.alloc();
    let mut store = MemoryStore::new(alloc, nz(&rt));
    assert_same(&rt, store.node(), nz(&rt));
    append_two(&rt, alloc, &mut store);
    assert_kept(&rt, alloc, &mut store);
    assert_pages(&rt, alloc, &mut store);
}

#[test]
fn a_store_through_its_bound(rt: HostRuntime) {
    let alloc = rt.alloc();
    let batch = two(&rt, alloc);
    let records = again!(
        appended_and_loaded(&rt, alloc, &batch),
        Err(StoreFault::NoMemory) => ()
    );
    let records = records.expect(&rt, "no fault of the store");
    assert!(rt; are_two(alloc, &records));
    drop(records);
    drop(batch);
}

#[test]
fn the_fuse_keeps_the_whole_batch(rt: HostRuntime) {
    let alloc = rt.alloc();
    let batch = two(&rt, alloc);
    let mut store = MemoryStore::fused(alloc, nz(&rt), 0, Kept::All);
    assert_append(&rt, &mut store, 0, &[], Ok(()));
    assert_append(&rt, &mut store, 0, &batch, Err(StoreFault::Device));
    assert_same(&rt, load(&mut store).err(), Some(StoreFault::Reopen));
    assert_append(&rt, &mut store, 2, &[], Err(StoreFault::Reopen));
    assert_same(&rt, store.fault_count(), 1);
    assert_same(&rt, store.reopen(), Ok(()));
    assert_two(&rt, alloc, &mut store);
    assert_append(&rt, &mut store, 2, &batch, Ok(()));
    assert_count(&rt, &mut store, 4);
    drop(batch);
}

#[test]
fn the_fuse_keeps_nothing(rt: HostRuntime) {
    let alloc = rt.alloc();
    let ack = one(&rt, alloc);
    let batch = two(&rt, alloc);
    let mut store = MemoryStore::fused(alloc, nz(&rt), 1, Kept::None);
    assert_append(&rt, &mut store, 0, &[], Ok(()));
    assert_append(&rt, &mut store, 0, &ack, Ok(()));
    assert_append(&rt, &mut store, 1, &batch, Err(StoreFault::Device));
    assert_same(&rt, store.reopen(), Ok(()));
    assert_count(&rt, &mut store, 1);
    assert_append(&rt, &mut store, 1, &batch, Ok(()));
    assert_count(&rt, &mut store, 3);
    drop(batch);
    drop(ack);
}
