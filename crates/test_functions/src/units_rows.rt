use crate::same::assert_same;
use protocol::units::refusal_code::OUT_OF_MEMORY;
use protocol::units::{
    Block, BlockSet, Code, Items, Kind, NoMemory, Period, Refusal, Unit, UnitMap,
};
use std::alloc::Global;
use std::process::Abort;
use test_support::{READING, again};

/// The block is written as that text.
fn assert_written(rt: &impl Abort, alloc: Global, block: &Block, text: &str) {
    let written = again!(block.write(alloc), Err(NoMemory) => ());
    let written = written.expect(rt, "memory");
    assert_same(rt, written.as_str(), text);
}

#[test]
fn a_list_and_its_copy(rt: HostRuntime) {
    let alloc = rt.alloc();
    let numbers = Vec::from_slice(alloc, &[3u64, 1, 2]).expect(&rt, READING);
    let list = Items::from_vec(numbers);
    let copy = again!(list.copy(), Err(NoMemory) => ());
    let copy = copy.expect(&rt, "memory");
    assert_same(&rt, list.as_slice(), [3, 1, 2].as_slice());
    assert_same(&rt, copy.into_vec().as_slice(), [3, 1, 2].as_slice());
    let none: Items<u64> = Items::new(alloc);
    assert_same(&rt, none.as_slice().len(), 0);
    drop(none);
    drop(list);
}

fn nz(rt: &impl Abort, kind: Kind, first: u64, last: u64) -> Block {
    let origin = Code::new(b'N', b'Z').expect(rt, "two letters");
    Block::new(origin, Period::First, kind, first, last).expect(rt, "a block")
}

fn aau(rt: &impl Abort, first: u64, last: u64) -> Block {
    nz(rt, Kind::Aau, first, last)
}

fn refusal(code: u16) -> Result<(), Refusal> {
    Err(Refusal { code })
}

/// The number of units in the set, and the number of its intervals.
fn size(set: &BlockSet) -> (u64, usize) {
    (set.count(), set.pieces().len())
}

/// Adds the block to the set, and asserts the result.
fn assert_added(rt: &impl Abort, set: &mut BlockSet, block: Block, wanted: Result<(), Refusal>) {
    let old = size(set);
    let added = again!(
        set.add(block),
        Err(Refusal { code: OUT_OF_MEMORY }) => assert_same(rt, size(set), old)
    );
    assert_same(rt, added, wanted);
}

/// Takes the block out of the set, and asserts the result.
fn assert_taken(rt: &impl Abort, set: &mut BlockSet, block: Block, wanted: Result<(), Refusal>) {
    let old = size(set);
    let taken = again!(
        set.take(block),
        Err(Refusal { code: OUT_OF_MEMORY }) => assert_same(rt, size(set), old)
    );
    assert_same(rt, taken, wanted);
}

/// A hundred units, put in as two blocks.
fn hundred(rt: &impl Abort, alloc: Global) -> BlockSet {
    let mut set = BlockSet::new(alloc);
    for block in [aau(rt, 1, 50), aau(rt, 51, 100)] {
        assert_added(rt, &mut set, block, Ok(()));
    }
    set
}

/// The set is these blocks, and has `count` units.
fn assert_set(rt: &impl Abort, set: &BlockSet, alloc: Global, wanted: &[Block], count: u64) {
    assert_same(rt, set.count(), count);
    let blocks = again!(set.canonical(alloc), Err(NoMemory) => ());
    let blocks = blocks.expect(rt, "memory");
    assert!(rt; blocks.as_slice() == wanted);
}

#[test]
fn block_set(rt: HostRuntime) {
    let alloc = rt.alloc();
    let (low, high) = (aau(&rt, 1, 40), aau(&rt, 61, 100));
    let middle = nz(&rt, Kind::Cer, 41, 60);
    let mut set = hundred(&rt, alloc);
    assert_set(&rt, &set, alloc, &[aau(&rt, 1, 100)], 100);
    assert_taken(&rt, &mut set, aau(&rt, 41, 60), Ok(()));
    assert_taken(&rt, &mut set, aau(&rt, 40, 41), refusal(105));
    assert_added(&rt, &mut set, aau(&rt, 100, 101), refusal(103));
    assert_set(&rt, &set, alloc, &[low, high], 80);
    assert_added(&rt, &mut set, middle, Ok(()));
    assert_set(&rt, &set, alloc, &[low, middle, high], 100);
    assert_written(&rt, alloc, &high, "NZ:1:61-100:AAU");
    let copy = again!(set.copy(), Err(NoMemory) => ());
    let copy = copy.expect(&rt, "memory");
    assert_set(&rt, &copy, alloc, &[low, middle, high], 100);
    drop(copy);
    drop(set);
}

#[test]
fn blocks_of_a_set(rt: HostRuntime) {
    let (low, above) = (aau(&rt, 1, 40), aau(&rt, 101, 102));
    let (other, across) = (nz(&rt, Kind::Rmu, 40, 41), aau(&rt, 100, 101));
    let set = hundred(&rt, rt.alloc());
    for (blocks, has_all, has_none) in [
        ([low, other], true, false),
        ([low, across], false, false),
        ([above, above], false, true),
        ([above, low], false, false),
    ] {
        assert_same(&rt, set.contains_all(&blocks), has_all);
        assert_same(&rt, set.disjoint(&blocks), has_none);
    }
    drop(set);
}

/// Adds the blocks to the set, and asserts the result.
fn assert_all_added(
    rt: &impl Abort,
    set: &mut BlockSet,
    blocks: &[Block],
    wanted: Result<(), Refusal>,
) {
    let old = size(set);
    let added = again!(
        set.add_all(blocks),
        Err(Refusal { code: OUT_OF_MEMORY }) => assert_same(rt, size(set), old)
    );
    assert_same(rt, added, wanted);
}

/// Takes the blocks out of the set, and asserts the result.
fn assert_all_taken(
    rt: &impl Abort,
    set: &mut BlockSet,
    blocks: &[Block],
    wanted: Result<(), Refusal>,
) {
    let old = size(set);
    let taken = again!(
        set.take_all(blocks),
        Err(Refusal { code: OUT_OF_MEMORY }) => assert_same(rt, size(set), old)
    );
    assert_same(rt, taken, wanted);
}

#[test]
fn several_blocks_at_once(rt: HostRuntime) {
    let blocks = [aau(&rt, 1, 5), aau(&rt, 6, 10)];
    let shared = [aau(&rt, 11, 12), nz(&rt, Kind::Cer, 10, 10)];
    let beyond = [aau(&rt, 2, 3), aau(&rt, 8, 11)];
    let inside = [aau(&rt, 2, 3), aau(&rt, 5, 6)];
    let mut set = BlockSet::new(rt.alloc());
    assert_all_added(&rt, &mut set, &blocks, Ok(()));
    assert_all_added(&rt, &mut set, &shared, refusal(103));
    assert_all_taken(&rt, &mut set, &beyond, refusal(105));
    assert_same(&rt, size(&set), (10, 1));
    assert_all_taken(&rt, &mut set, &inside, Ok(()));
    assert_same(&rt, size(&set), (6, 3));
    drop(set);
}

/// Gives the units of the block that kind, or removes their kind.
fn label(rt: &impl Abort, kinds: &mut UnitMap<Kind>, block: &Block, kind: Option<Kind>) {
    let old = (kinds.count_where(|_| true), kinds.pieces().len());
    let set = again!(
        kinds.set(block, kind),
        Err(NoMemory) => assert_same(rt, (kinds.count_where(|_| true), kinds.pieces().len()), old)
    );
    set.expect(rt, "memory");
}

#[test]
fn labels_of_units(rt: HostRuntime) {
    let block = aau(&rt, 1, 10);
    let (origin, period) = (block.raw.origin, block.raw.period);
    let unit = Unit {
        origin,
        period,
        number: 10,
    };
    let mut kinds = UnitMap::new(rt.alloc());
    label(&rt, &mut kinds, &block, Some(Kind::Aau));
    assert_same(&rt, kinds.get(&unit), Some(Kind::Aau));
    label(&rt, &mut kinds, &nz(&rt, Kind::Cer, 4, 6), Some(Kind::Cer));
    assert_same(&rt, kinds.count_where(|kind| kind == Kind::Aau), 7);
    assert!(rt; kinds.has_some_of(&block, |kind| kind == Kind::Cer));
    assert_same(&rt, kinds.pieces().len(), 3);
    let copy = again!(kinds.copy(), Err(NoMemory) => ());
    let copy = copy.expect(&rt, "memory");
    label(&rt, &mut kinds, &block, None);
    assert_same(&rt, kinds.get(&unit), None);
    drop(kinds);
    assert_same(&rt, copy.get(&unit), Some(Kind::Aau));
    assert_same(&rt, copy.pieces().len(), 3);
    drop(copy);
}
