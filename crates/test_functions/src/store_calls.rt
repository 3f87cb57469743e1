//! Calls of stores, each repeated where memory ran out.

ghost use Rattle.std.specs.Prelude.{◌≤◌};

use crate::same::assert_same;
use crate::sample_records::{ACCEPTED, PROPOSE, are_two, has_text, two};
use protocol::wire::Input;
use std::alloc::Global;
use std::process::Abort;
use stores::{NodeStore, StoreFault};
use test_support::again;

/// The records of the store. Where memory ran out, the store goes on as it was.
pub fn load<S: NodeStore>(store: &mut S) -> Result<Vec<Input>, StoreFault> {
    again!(store.load(), Err(StoreFault::NoMemory) => ())
}

/// The records of a store without a fault.
pub fn loaded<S: NodeStore>(rt: &impl Abort, store: &mut S) -> Vec<Input> {
    load(store).expect(rt, "no fault of the store")
}

/// Asserts that the store has the two records.
pub fn assert_two<S: NodeStore>(rt: &impl Abort, alloc: Global, store: &mut S) {
    let records = loaded(rt, store);
    assert!(rt; are_two(alloc, &records));
    drop(records);
}

/// Whether the store must be opened again.
pub fn waits<S: NodeStore>(store: &mut S) -> bool {
    load(store).err() == Some(StoreFault::Reopen)
}

/// Opens the store again. Where memory ran out, it must still be opened again.
pub fn reopen<S: NodeStore>(rt: &impl Abort, store: &mut S) -> Result<(), StoreFault> {
    again!(store.reopen(), Err(StoreFault::NoMemory) => assert!(rt; waits(store)))
}

/// Opens a store again that lacked memory for an append. It must then be opened again, and has the same number of
/// records as before. Fails where a call of its files fails.
fn recover<S: NodeStore>(rt: &impl Abort, store: &mut S, records: usize) -> Result<(), StoreFault> {
    assert!(rt; waits(store));
    store.reopen()?;
    let kept = store.load()?;
    assert_same(rt, kept.len(), records);
    drop(kept);
    Ok(())
}

/// Appends the batch to a store that has that number of records.
pub fn append<S: NodeStore>(
    rt: &impl Abort,
    store: &mut S,
    records: usize,
    batch: &[Input],
) -> Result<(), StoreFault> {
    again!(
        store.append(batch),
        Err(StoreFault::NoMemory) => recover(rt, store, records)?
    )
}

/// Appends the two records to a store that has none.
pub fn append_two<S: NodeStore>(rt: &impl Abort, alloc: Global, store: &mut S) {
    let batch = two(rt, alloc);
    assert_same(rt, append(rt, store, 0, &batch), Ok(()));
    drop(batch);
}

/// Asserts that the store has the two records, that it still has them after it was opened again, and that it met no
/// fault.
pub fn assert_kept<S: NodeStore>(rt: &impl Abort, alloc: Global, store: &mut S) {
    assert_two(rt, alloc, store);
    assert_same(rt, reopen(rt, store), Ok(()));
    assert_two(rt, alloc, store);
    assert!(rt; store.fault_count() == 0);
}

/// Asserts that the store has that one record, or none, at the places from `from` on, at most `most` of them.
pub fn assert_page<S: NodeStore>(
    rt: &impl Abort,
    alloc: Global,
    store: &mut S,
    from: u64,
    most: u64,
    wanted: Option<&str>,
)
    requires some { 1 ≤ most }
    requires few { most ≤ 256 }
{
    let page = again!(store.load_page(from, most), Err(StoreFault::NoMemory) => ());
    let page = page.expect(rt, "no fault of the store");
    let is_so = match (page.as_slice(), wanted) {
        ([record], Some(text)) => has_text(alloc, record, text),
        ([], None) => true,
        _ => false,
    };
    assert!(rt; is_so);
    drop(page);
}

/// Asserts the pages of a store that has the two records.
pub fn assert_pages<S: NodeStore>(rt: &impl Abort, alloc: Global, store: &mut S) {
    assert_page(rt, alloc, store, 0, 1, Some(PROPOSE));
    assert_page(rt, alloc, store, 1, 256, Some(ACCEPTED));
    assert_page(rt, alloc, store, 2, 256, None);
}
