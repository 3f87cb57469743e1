//! Lists at the keys of an object.
ghost use Rattle.std.specs.Prelude.{◌≡◌, ◌<◌, ◌^◌, ℕ, IfSome, IfNone, codes};
ghost use Rattle.std.specs.List.{AllByRecursion};
ghost use Rattle.serde_json.specs.View.{view, items_view};
ghost use Rattle.units.specs.Limits.{too_long};
ghost use Rattle.units.specs.declared.block.Block.{Block};
ghost use Rattle.units.specs.declared.block.RawBlock.{RawBlock};
ghost use Rattle.status.specs.Content.{raws};
ghost use Rattle.json_fields.specs.Fields.{HasAt, EachIs};
ghost use Rattle.json_fields.specs.Found.{Finds, Reads};
ghost use Rattle.wire.specs.Objects.{numbers, blocks};
ghost use Rattle.wire.specs.Reading.{IsBlockItem, IsRawItem, IsCodeItem};

use json_fields::{TextFault, list_at};
use serde_json::Value;
use std::alloc::Global;
use units::{Block, Items, RawBlock};

/// The block that the value writes.
fn block(value: &Value) -> Option<Block>
    ensures { Reads (IsBlockItem (view value.now)) result }
{
    let text = value.as_str()?;
    Block::read(text).ok()
}

/// The block that the value writes, with numbers of any size.
fn raw_block(value: &Value) -> Option<RawBlock>
    ensures { Reads (IsRawItem (view value.now)) result }
{
    let text = value.as_str()?;
    RawBlock::read(text)
}

/// The code that the value writes.
fn code(value: &Value) -> Option<u16>
    ensures { Reads (IsCodeItem (view value.now)) result }
{
    let number = value.as_u64()?;
    u16::try_from(number).ok()
}

/// The blocks of an array.
fn each_block(alloc: Global, values: &[Value]) -> Result<Items<Block>, TextFault>
    ensures { Finds (EachIs IsBlockItem (items_view values.now)) result }
{
    let mut blocks = Vec::new(alloc);
    for value in values {
        let block = block(value).ok_or(TextFault::Shape)?;
        blocks.push(block)?;
    }
    Ok(Items::from_vec(blocks))
}

/// The blocks of an array, with numbers of any size.
fn each_raw_block(alloc: Global, values: &[Value]) -> Result<Items<RawBlock>, TextFault>
    ensures { Finds (EachIs IsRawItem (items_view values.now)) result }
{
    let mut blocks = Vec::new(alloc);
    for value in values {
        let block = raw_block(value).ok_or(TextFault::Shape)?;
        blocks.push(block)?;
    }
    Ok(Items::from_vec(blocks))
}

/// The codes of an array.
fn each_code(alloc: Global, values: &[Value]) -> Result<Items<u16>, TextFault>
    ensures { Finds (EachIs IsCodeItem (items_view values.now)) result }
{
    let mut codes = Vec::new(alloc);
    for value in values {
        let code = code(value).ok_or(TextFault::Shape)?;
        codes.push(code)?;
    }
    Ok(Items::from_vec(codes))
}

/// The blocks at the key `units`.
pub fn blocks(alloc: Global, value: &Value) -> Result<Items<Block>, TextFault>
    ensures { Finds (λ bs. HasAt (view value.now) (codes "units") (blocks (raws bs))) result }
{
    let list = list_at(value, "units").ok_or(TextFault::Shape)?;
    each_block(alloc, list.as_slice())
}

/// The blocks at the key `units`, with any numbers of at most `MOST_DIGITS` digits.
pub fn raw_blocks(alloc: Global, value: &Value) -> Result<Items<RawBlock>, TextFault>
    ensures { Finds (λ rs. HasAt (view value.now) (codes "units") (blocks rs)
        × AllByRecursion (λ b. (b.first < too_long) × (b.last < too_long)) rs) result }
{
    let list = list_at(value, "units").ok_or(TextFault::Shape)?;
    each_raw_block(alloc, list.as_slice())
}

/// The codes at the key `codes`, each below 2^16.
pub fn codes(alloc: Global, value: &Value) -> Result<Items<u16>, TextFault>
    ensures { Finds (λ cs. HasAt (view value.now) (codes "codes") (numbers cs)
        × AllByRecursion (λ c. c < 2 ^ 16) cs) result }
{
    let list = list_at(value, "codes").ok_or(TextFault::Shape)?;
    each_code(alloc, list.as_slice())
}
