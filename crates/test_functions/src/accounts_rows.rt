use crate::named::{block, id};
use crate::same::assert_same;
use protocol::status::TransactionId;
use protocol::units::refusal_code::OUT_OF_MEMORY;
use protocol::units::{Block, NoMemory, Refusal};
use registry_core::accounts::{HeldBlock, Holdings};
use std::alloc::Global;
use std::process::Abort;
use test_support::again;

fn refusal(code: u16) -> Result<(), Refusal> {
    Err(Refusal { code })
}

/// A line of account 1.
fn line(rt: &impl Abort, text: &str, reserving: Option<TransactionId>) -> HeldBlock {
    HeldBlock {
        account: 1,
        block: block(rt, text),
        reserving,
    }
}

/// Accounts 1 and 2, and the block in the first.
fn credited(alloc: Global, block: Block) -> Result<Holdings, NoMemory> {
    let mut holdings = Holdings::new(alloc, &[1, 2])?;
    holdings.credit(1, &[block])?;
    Ok(holdings)
}

/// Accounts 1 and 2, and a hundred units in the first.
fn hundred(rt: &impl Abort, alloc: Global) -> Holdings {
    let block = block(rt, "NZ:1:1-100:AAU");
    let holdings = again!(credited(alloc, block), Err(NoMemory) => ());
    holdings.expect(rt, "memory")
}

/// The lines of the holdings.
fn lines(rt: &impl Abort, holdings: &Holdings, alloc: Global) -> Vec<HeldBlock> {
    let lines = again!(holdings.lines(alloc), Err(NoMemory) => ());
    lines.expect(rt, "memory")
}

/// The holdings are these lines.
fn assert_lines(rt: &impl Abort, holdings: &Holdings, alloc: Global, wanted: &[HeldBlock]) {
    let lines = lines(rt, holdings, alloc);
    assert!(rt; lines.as_slice() == wanted);
}

/// The holdings are these lines, and that number of units of account 1 is free.
fn assert_held(
    rt: &impl Abort,
    holdings: &Holdings,
    alloc: Global,
    wanted: &[HeldBlock],
    free: u64,
) {
    assert_lines(rt, holdings, alloc, wanted);
    assert_same(rt, holdings.free_count(1), free);
}

/// `check` refuses the block of that text with the code, and so does `reserve` for NZ2.
fn assert_refused(rt: &impl Abort, holdings: &mut Holdings, account: u64, text: &str, code: u16) {
    let blocks = [block(rt, text)];
    let checked = holdings.check(account, &blocks);
    let reserved = holdings.reserve(account, &blocks, id(rt, "NZ2"));
    assert_same(rt, (checked, reserved), (refusal(code), refusal(code)));
}

/// The transaction reserves the blocks of account 1. That number of its units is then free.
fn assert_reserved(
    rt: &impl Abort,
    holdings: &mut Holdings,
    alloc: Global,
    blocks: &[Block],
    id: TransactionId,
    free: u64,
) {
    let (old, old_free) = (lines(rt, holdings, alloc), holdings.free_count(1));
    let reserved = again!(
        holdings.reserve(1, blocks, id),
        Err(Refusal { code: OUT_OF_MEMORY }) => assert_held(rt, holdings, alloc, &old, old_free)
    );
    assert_same(rt, (reserved, holdings.free_count(1)), (Ok(()), free));
}

/// After the transaction's release that number of units of account 1 is free.
fn assert_released(rt: &impl Abort, holdings: &mut Holdings, id: TransactionId, free: u64) {
    holdings.release(id);
    assert_same(rt, holdings.free_count(1), free);
}

/// After the transaction's removal that number of units of account 1 is free.
fn assert_removed(rt: &impl Abort, holdings: &mut Holdings, id: TransactionId, free: u64) {
    holdings.remove(id);
    assert_same(rt, holdings.free_count(1), free);
}

/// An account, a block, and the code with which an order of the block from the account is refused, where the first
/// sixty of a hundred units are reserved.
const REFUSED: &[(u64, &str, u16)] = &[
    (1, "NZ:1:60-61:AAU", 106),
    (1, "NZ:1:100-101:AAU", 105),
    (1, "NZ:1:61-61:CER", 105),
    (2, "NZ:1:1-60:AAU", 105),
    (3, "NZ:1:1-60:AAU", 104),
];

fn assert_all_refused(rt: &impl Abort, holdings: &mut Holdings) {
    for (account, text, code) in REFUSED {
        assert_refused(rt, holdings, *account, text, *code);
    }
}

#[test]
fn holdings_are_reserved_once(rt: HostRuntime) {
    let first = id(&rt, "NZ1");
    let sixty = [block(&rt, "NZ:1:1-60:AAU")];
    let left = line(&rt, "NZ:1:61-100:AAU", None);
    let alloc = rt.alloc();
    let mut holdings = hundred(&rt, alloc);
    assert_reserved(&rt, &mut holdings, alloc, &sixty, first, 40);
    assert_all_refused(&rt, &mut holdings);
    assert_released(&rt, &mut holdings, id(&rt, "NZ2"), 40);
    assert_released(&rt, &mut holdings, first, 100);
    assert_reserved(&rt, &mut holdings, alloc, &sixty, first, 40);
    assert_removed(&rt, &mut holdings, first, 40);
    assert_lines(&rt, &holdings, alloc, &[left]);
    drop(holdings);
}

#[test]
fn two_blocks_are_taken_out(rt: HostRuntime) {
    let first = id(&rt, "NZ1");
    let blocks = [block(&rt, "NZ:1:1-30:AAU"), block(&rt, "NZ:1:31-60:AAU")];
    let left = line(&rt, "NZ:1:61-100:AAU", None);
    let alloc = rt.alloc();
    let mut holdings = hundred(&rt, alloc);
    assert_reserved(&rt, &mut holdings, alloc, &blocks, first, 40);
    assert_removed(&rt, &mut holdings, first, 40);
    assert!(rt; !holdings.holds_any(&blocks));
    assert!(rt; holdings.holds_any(&[blocks[0], left.block]));
    assert_lines(&rt, &holdings, alloc, &[left]);
    drop(holdings);
}

#[test]
fn one_transaction_reserves_twice(rt: HostRuntime) {
    let first = id(&rt, "NZ1");
    let shared = [block(&rt, "NZ:1:1-30:AAU"), block(&rt, "NZ:1:21-40:AAU")];
    let others = [block(&rt, "NZ:1:91-95:AAU")];
    let alloc = rt.alloc();
    let mut holdings = hundred(&rt, alloc);
    assert_reserved(&rt, &mut holdings, alloc, &shared, first, 60);
    assert_reserved(&rt, &mut holdings, alloc, &others, first, 55);
    assert_released(&rt, &mut holdings, first, 100);
    assert_reserved(&rt, &mut holdings, alloc, &shared, first, 60);
    assert_removed(&rt, &mut holdings, first, 60);
    assert_same(&rt, holdings.unit_holding(&shared[0].first_unit()), None);
    drop(holdings);
}

#[test]
fn pieces(rt: HostRuntime) {
    let (first, second) = (id(&rt, "NZ1"), id(&rt, "NZ2"));
    let low = line(&rt, "NZ:1:1-19:AAU", None);
    let of_first = line(&rt, "NZ:1:20-30:AAU", Some(first));
    let of_second = line(&rt, "NZ:1:31-40:AAU", Some(second));
    let high = line(&rt, "NZ:1:41-100:AAU", None);
    let joined = line(&rt, "NZ:1:31-100:AAU", None);
    let alloc = rt.alloc();
    let mut holdings = hundred(&rt, alloc);
    assert_reserved(&rt, &mut holdings, alloc, &[of_first.block], first, 89);
    assert_reserved(&rt, &mut holdings, alloc, &[of_second.block], second, 79);
    assert_lines(&rt, &holdings, alloc, &[low, of_first, of_second, high]);
    assert_same(&rt, holdings.pieces().len(), 4);
    assert_released(&rt, &mut holdings, second, 89);
    assert_lines(&rt, &holdings, alloc, &[low, of_first, joined]);
    assert_released(&rt, &mut holdings, first, 100);
    assert_lines(&rt, &holdings, alloc, &[line(&rt, "NZ:1:1-100:AAU", None)]);
    assert_same(&rt, holdings.pieces().len(), 1);
    drop(holdings);
}
