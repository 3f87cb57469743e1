//! The checks of an order to transfer units out of a registry.
ghost use Rattle.std.specs.Prelude.{◌≡◌, ◌⊎◌, ◌+◌, ◌==◌, ◌||◌, not, true, false, List, Some, None, length, nat_lt, IfOk, IfErr, OnOk, IfSome, IfNone};
ghost use Rattle.std.specs.Bool.{OnTrue, OnFalse};
ghost use Rattle.std.specs.List.{list_any};
ghost use Rattle.units.specs.Canonical.{canonical};
ghost use Rattle.units.specs.Limits.{most_blocks, last_account};
ghost use Rattle.units.specs.RefusalCodes.{out_of_memory, block_out_of_range};
ghost use Rattle.units.specs.declared.block.Block.{Block};
ghost use Rattle.units.specs.declared.code.Code.{Code};
ghost use Rattle.scheme.specs.declared.registries.Scheme.{Scheme};
ghost use Rattle.status.specs.Content.{raws};
ghost use Rattle.units.specs.Facts.{IsAccountNumber};
ghost use Rattle.status.specs.Id.{id_at};
ghost use Rattle.accounts.specs.Refusals.{MayReserve};
ghost use Rattle.protocol.specs.AtRegistry.{content_of};
ghost use Rattle.protocol.specs.Checks.{Holding, is_out_of_range};
ghost use Rattle.protocol.specs.Pieces.{pieces, repeats};
ghost use Rattle.protocol.specs.Registries.{has_member};
ghost use Rattle.checks.specs.Following.{block_refusals, holding_refusals, receiver_refusals};
ghost use Rattle.checks.specs.Knowing.{Knows};
ghost use Rattle.checks.specs.Refusing.{first_of, order_refusals};

use crate::blocks::has_repeats;
use crate::canonical::canonical;
use crate::registries::is_no_acquirer;
use accounts::Holdings;
use scheme::Scheme;
use status::{Content, Order, TransactionId};
use std::alloc::Global;
use units::limits::{LAST_ACCOUNT, LAST_UNIT, MOST_BLOCKS};
use units::refusal_code::{
    ACCOUNT_NOT_OPEN, ACCOUNT_OUT_OF_RANGE, BLOCK_OUT_OF_RANGE, NO_SUCH_ACQUIRER,
    TRANSACTIONS_USED_UP, WRONG_BLOCK_COUNT,
};
use units::{Block, Code, Items, NoMemory, RawBlock, Refusal};

/// The offer of an order that passes all checks.
#[derive(Debug, Drop)]
pub struct NewTransfer {
    pub id: TransactionId,
    /// Its units are the order's blocks in canonical form.
    pub content: Content,
}

/// Whether there is no block, or more than `MOST_BLOCKS`.
fn is_wrong_count(blocks: &[RawBlock]) -> bool
    ensures { result ≡ ((length blocks.now == 0) || nat_lt most_blocks (length blocks.now)) }
{
    blocks.is_empty() || blocks.len() > MOST_BLOCKS
}

/// Whether its numbers are out of order or out of range.
fn is_out_of_range(block: &RawBlock) -> bool
    ensures { result ≡ is_out_of_range block.now }
{
    block.last < block.first || (block.first == 0 || block.last > LAST_UNIT)
}

/// The block, whose numbers are in range.
fn block_of(raw: RawBlock) -> Block
    requires { is_out_of_range raw ≡ false }
    ensures { result.raw ≡ raw }
{
    Block { raw }
}

/// The blocks, where the numbers of each are in range.
fn blocks_of(alloc: Global, raw_blocks: &[RawBlock]) -> Result<Vec<Block>, Refusal>
    ensures ok { IfOk result (λ v. raws v.items ≡ raw_blocks.now) }
    ensures refused { IfErr result (λ r. (r.code ≡ out_of_memory)
        ⊎ ((r.code ≡ block_out_of_range) × (list_any is_out_of_range raw_blocks.now ≡ true))) }
{
    let mut blocks = Vec::new(alloc);
    for raw in raw_blocks {
        if is_out_of_range(raw) {
            return Err(Refusal {
                code: BLOCK_OUT_OF_RANGE,
            });
        }
        if blocks.push(block_of(*raw)).is_err() {
            return Err(Refusal::NO_MEMORY);
        }
    }
    Ok(blocks)
}

/// The blocks of an order that has 1 to `MOST_BLOCKS` blocks, whose numbers are in range and which share no unit.
fn checked_blocks(alloc: Global, raw_blocks: &[RawBlock]) -> Result<Vec<Block>, Refusal>
    ensures blocks { IfOk result (λ v. raws v.items ≡ raw_blocks.now) }
    ensures ok { OnOk result (first_of (block_refusals raw_blocks.now) ≡ None) }
    ensures refused { IfErr result (λ r. (r.code ≡ out_of_memory)
        ⊎ (first_of (block_refusals raw_blocks.now) ≡ Some r.code)) }
{
    if is_wrong_count(raw_blocks) {
        return Err(Refusal {
            code: WRONG_BLOCK_COUNT,
        });
    }
    let blocks = blocks_of(alloc, raw_blocks)?;
    if has_repeats(&blocks) {
        return Err(Refusal::OVERLAP);
    }
    Ok(blocks)
}

/// Whether no account can have that number.
fn is_no_account(number: u64) -> bool
    ensures value { result ≡ ((number == 0) || nat_lt last_account number) }
    ensures none { OnTrue result (IsAccountNumber number → ⊥) }
    ensures some { OnFalse result (IsAccountNumber number) }
{
    number == 0 || number > LAST_ACCOUNT
}

/// Checks that the account is open and holds the blocks' units, none of them reserved. An account whose number is out
/// of range isn't open, since no registry of a scheme has one.
fn check_holdings(holdings: &Holdings, order: &Order, blocks: &[Block]) -> Result<(), Refusal>
    requires { raws blocks.now ≡ order.now.units }
    ensures may { OnOk result (MayReserve holdings.now order.now.account blocks.now) }
    ensures number { OnOk result (IsAccountNumber order.now.account) }
    ensures ok { (scheme : Scheme) (code : Code) (known : Holding) → Knows scheme code holdings.now known
        → OnOk result (first_of (holding_refusals scheme code known order.now.account order.now.units) ≡ None) }
    ensures refused { (scheme : Scheme) (code : Code) (known : Holding) → Knows scheme code holdings.now known
        → IfErr result (λ r. first_of (holding_refusals scheme code known order.now.account order.now.units)
        ≡ Some r.code) }
{
    if is_no_account(order.account()) {
        return Err(Refusal {
            code: ACCOUNT_NOT_OPEN,
        });
    }
    holdings.check(order.account(), blocks)
}

/// Checks the registry and the account that the units are to go to.
fn check_receiver(scheme: &Scheme, code: Code, order: &Order) -> Result<(), Refusal>
    ensures ok { OnOk result (first_of (receiver_refusals scheme.now code order.now) ≡ None) }
    ensures number { OnOk result (IsAccountNumber order.now.to_account) }
    ensures refused { IfErr result (λ r. first_of (receiver_refusals scheme.now code order.now) ≡ Some r.code) }
{
    if is_no_acquirer(scheme, code, order.acquirer()) {
        return Err(Refusal {
            code: NO_SUCH_ACQUIRER,
        });
    }
    if is_no_account(order.to_account()) {
        return Err(Refusal {
            code: ACCOUNT_OUT_OF_RANGE,
        });
    }
    Ok(())
}

/// The identifier with the number after the last one given.
fn next_id(code: Code, last: u32) -> Option<TransactionId>
    ensures { result ≡ id_at code (last + 1) }
{
    TransactionId::new(code, last.checked_add(1)?)
}

/// The blocks of an order that passes the checks of its blocks.
fn order_blocks(alloc: Global, order: &Order) -> Result<Vec<Block>, Refusal>
    ensures blocks { IfOk result (λ v. raws v.items ≡ order.now.units) }
    ensures ok { OnOk result (first_of (block_refusals order.now.units) ≡ None) }
    ensures refused { IfErr result (λ r. (r.code ≡ out_of_memory)
        ⊎ (first_of (block_refusals order.now.units) ≡ Some r.code)) }
{
    checked_blocks(alloc, order.units())
}

/// The content of an order that passes its checks, with the units in canonical form.
fn new_content(order: &Order, units: Vec<Block>) -> Content
    requires units { raws units.items ≡ canonical order.now.units }
    requires blocks { first_of (block_refusals order.now.units) ≡ None }
    requires account { IsAccountNumber order.now.account }
    requires to_account { IsAccountNumber order.now.to_account }
    ensures { result ≡ content_of order.now }
{
    let content = Content::new(
        order.account(),
        order.acquirer(),
        order.to_account(),
        Items::from_vec(units),
    );
    content.unwrap()
}

/// The content of an order that passes its checks, with a copy of its blocks in canonical form; or `NoMemory`.
fn content_of(alloc: Global, order: &Order, blocks: &[Block]) -> Result<Content, NoMemory>
    requires units { raws blocks.now ≡ order.now.units }
    requires blocks { first_of (block_refusals order.now.units) ≡ None }
    requires account { IsAccountNumber order.now.account }
    requires to_account { IsAccountNumber order.now.to_account }
    ensures { IfOk result (λ c. c ≡ content_of order.now) }
{
    let units = canonical(alloc, blocks)?;
    Ok(new_content(order, units))
}

/// Checks an order to transfer units out of the registry of that code, with `last` transaction numbers given before.
/// Each check looks at all blocks before the next one does. Refused with `WRONG_BLOCK_COUNT`: there is no block, or
/// more than `MOST_BLOCKS`; `BLOCK_OUT_OF_RANGE`: the numbers of a block are out of order or out of range;
/// `BLOCKS_OVERLAP`: a unit is in two blocks; `ACCOUNT_NOT_OPEN`: the account is unknown or closed; `UNIT_NOT_HELD`:
/// a unit isn't held in the account with its block's kind; `UNIT_RESERVED`: a unit is reserved; `NO_SUCH_ACQUIRER`:
/// the acquiring registry is unknown, or is this one; `ACCOUNT_OUT_OF_RANGE`: no account can have the number of the
/// receiving one; `TRANSACTIONS_USED_UP`: no number is left; `OUT_OF_MEMORY`.
pub fn propose_check(
    alloc: Global,
    scheme: &Scheme,
    code: Code,
    holdings: &Holdings,
    last: u32,
    order: &Order,
) -> Result<NewTransfer, Refusal>
    ensures ok { (known : Holding) → Knows scheme.now code holdings.now known
        → IfOk result (λ new_transfer. first_of (order_refusals scheme.now code known last order.now) ≡ None) }
    ensures id { IfOk result (λ new_transfer. id_at code (last + 1) ≡ Some new_transfer.id) }
    ensures content { IfOk result (λ new_transfer. new_transfer.content ≡ content_of order.now) }
    ensures reservable { IfOk result (λ new_transfer. (blocks : List Block) → raws blocks ≡ new_transfer.content.units
        → MayReserve holdings.now new_transfer.content.account blocks) }
    ensures refused { (known : Holding) → Knows scheme.now code holdings.now known
        → IfErr result (λ r. (r.code ≡ out_of_memory)
        ⊎ (first_of (order_refusals scheme.now code known last order.now) ≡ Some r.code)) }
{
    let blocks = order_blocks(alloc, order)?;
    check_holdings(holdings, order, &blocks)?;
    check_receiver(scheme, code, order)?;
    let Some(id) = next_id(code, last) else {
        return Err(Refusal {
            code: TRANSACTIONS_USED_UP,
        });
    };
    let content = content_of(alloc, order, &blocks)?;
    Ok(NewTransfer { id, content })
}
