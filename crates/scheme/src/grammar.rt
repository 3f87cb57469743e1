//! Reading registries from a JSON value.
ghost use Rattle.std.specs.Prelude.{◌≡◌, ◌≤◌, ◌∷◌, ℕ, IfSome, IfNone, codes};
ghost use Rattle.serde_json.specs.Data.{boolean, string};
ghost use Rattle.serde_json.specs.View.{view, items_view};
ghost use Rattle.units.specs.Code.{code_text};
ghost use Rattle.units.specs.declared.block.Block.{Block};
ghost use Rattle.units.specs.declared.block.Kind.{Kind};
ghost use Rattle.json_fields.specs.Fields.{HasAt, EachIs, HasList};
ghost use Rattle.json_fields.specs.Found.{Finds, Reads};
ghost use Rattle.scheme.specs.Grammar.{HasNoTwins, IsAccount, IsKind, IsBlock, IsAllotment, IsMember, IsWritten};
ghost use Rattle.scheme.specs.Reading.{IsCount, AreKinds};

use crate::listed::UnsortedRegistries;
use crate::members::{Allotment, SchemeRegistry};
use json_fields::{TextFault, bool_at, has_keys, list_at, number_at, text_at};
use serde_json::Value;
use std::alloc::Global;
use units::limits::{LAST_ACCOUNT, MOST_RECORDS};
use units::{Block, Code, Items, Kind};

/// The number at the key, from 1 to `most`.
fn count_at(value: &Value, key: &str, most: u64) -> Option<u64>
    ensures { Reads (IsCount key.now most (view value.now)) result }
{
    let number = number_at(value, key)?;
    if (1..=most).contains(&number) {
        Some(number)
    } else {
        None
    }
}

/// The registry's code.
fn code(value: &Value) -> Option<Code>
    ensures { Reads (λ c. HasAt (view value.now) (codes "code") (string (code_text c))) result }
{
    let text = text_at(value, "code")?;
    Code::read(text)
}

/// Whether the registry may take part in transfers.
fn eligible(value: &Value) -> Option<bool>
    ensures { Reads (λ b. HasAt (view value.now) (codes "eligible") (boolean b)) result }
{
    bool_at(value, "eligible")
}

/// The account of that number.
fn account(value: &Value) -> Option<u64>
    ensures { Reads (IsAccount (view value.now)) result }
{
    let number = value.as_u64()?;
    if (1..=LAST_ACCOUNT).contains(&number) {
        Some(number)
    } else {
        None
    }
}

/// The kind that the value names.
fn kind(value: &Value) -> Option<Kind>
    ensures { Reads (IsKind (view value.now)) result }
{
    let text = value.as_str()?;
    Kind::read(text)
}

/// The block that the value writes.
fn block(value: &Value) -> Option<Block>
    ensures { Reads (IsBlock (view value.now)) result }
{
    let text = value.as_str()?;
    Block::read(text).ok()
}

/// The accounts of an array.
fn each_account(alloc: Global, values: &[Value]) -> Result<Items<u64>, TextFault>
    ensures { Finds (EachIs IsAccount (items_view values.now)) result }
{
    let mut accounts = Vec::new(alloc);
    for value in values {
        let account = account(value).ok_or(TextFault::Shape)?;
        accounts.push(account)?;
    }
    Ok(Items::from_vec(accounts))
}

/// The kinds of an array, where no kind is in it twice.
fn different_kinds(alloc: Global, values: &[Value]) -> Result<Items<Kind>, TextFault>
    ensures { Finds (λ xs. EachIs IsKind (items_view values.now) xs × HasNoTwins xs) result }
{
    let mut kinds = Vec::new(alloc);
    for value in values {
        let kind = kind(value).ok_or(TextFault::Shape)?;
        if kinds.contains(&kind) {
            return Err(TextFault::Shape);
        }
        kinds.push(kind)?;
    }
    Ok(Items::from_vec(kinds))
}

/// The blocks of an array.
fn each_block(alloc: Global, values: &[Value]) -> Result<Items<Block>, TextFault>
    ensures { Finds (EachIs IsBlock (items_view values.now)) result }
{
    let mut blocks = Vec::new(alloc);
    for value in values {
        let block = block(value).ok_or(TextFault::Shape)?;
        blocks.push(block)?;
    }
    Ok(Items::from_vec(blocks))
}

/// The registry's accounts.
fn accounts(alloc: Global, value: &Value) -> Result<Items<u64>, TextFault>
    ensures { Finds (HasList IsAccount (view value.now) (codes "accounts")) result }
{
    let list = list_at(value, "accounts").ok_or(TextFault::Shape)?;
    each_account(alloc, list.as_slice())
}

/// The kinds of units that the registry takes.
fn kinds(alloc: Global, value: &Value) -> Result<Items<Kind>, TextFault>
    ensures { Finds (AreKinds (view value.now)) result }
{
    let list = list_at(value, "kinds").ok_or(TextFault::Shape)?;
    different_kinds(alloc, list.as_slice())
}

/// The blocks of an allotment.
fn units(alloc: Global, value: &Value) -> Result<Items<Block>, TextFault>
    ensures { Finds (HasList IsBlock (view value.now) (codes "units")) result }
{
    let list = list_at(value, "units").ok_or(TextFault::Shape)?;
    each_block(alloc, list.as_slice())
}

/// The blocks that an account has at the start.
fn allotment(alloc: Global, value: &Value) -> Result<Allotment, TextFault>
    ensures { Finds (IsAllotment (view value.now)) result }
{
    if !has_keys(value, 2) {
        return Err(TextFault::Shape);
    }
    let account = count_at(value, "account", LAST_ACCOUNT).ok_or(TextFault::Shape)?;
    let units = units(alloc, value)?;
    Ok(Allotment { account, units })
}

/// The allotments of an array.
fn each_allotment(alloc: Global, values: &[Value]) -> Result<Items<Allotment>, TextFault>
    ensures { Finds (EachIs IsAllotment (items_view values.now)) result }
{
    let mut allotted = Vec::new(alloc);
    for value in values {
        let allotment = allotment(alloc, value)?;
        allotted.push(allotment)?;
    }
    Ok(Items::from_vec(allotted))
}

/// The blocks that the registry's accounts have at the start.
fn allotted(alloc: Global, value: &Value) -> Result<Items<Allotment>, TextFault>
    ensures { Finds (HasList IsAllotment (view value.now) (codes "allotted")) result }
{
    let list = list_at(value, "allotted").ok_or(TextFault::Shape)?;
    each_allotment(alloc, list.as_slice())
}

/// A registry.
fn member(alloc: Global, value: &Value) -> Result<SchemeRegistry, TextFault>
    ensures { Finds (IsMember (view value.now)) result }
{
    if !has_keys(value, 5) {
        return Err(TextFault::Shape);
    }
    let code = code(value).ok_or(TextFault::Shape)?;
    let eligible = eligible(value).ok_or(TextFault::Shape)?;
    let accounts = accounts(alloc, value)?;
    let allotted = allotted(alloc, value)?;
    let kinds = kinds(alloc, value)?;
    Ok(SchemeRegistry {
        code,
        accounts,
        allotted,
        eligible,
        kinds,
    })
}

/// The registries of an array.
fn each_member(alloc: Global, values: &[Value]) -> Result<UnsortedRegistries, TextFault>
    ensures { Finds (EachIs IsMember (items_view values.now)) result }
{
    let mut members = Vec::new(alloc);
    for value in values {
        let member = member(alloc, value)?;
        members.push(member)?;
    }
    Ok(UnsortedRegistries::from_vec(members))
}

/// The registries of a scheme.
fn members(alloc: Global, value: &Value) -> Result<UnsortedRegistries, TextFault>
    ensures { Finds (HasList IsMember (view value.now) (codes "registries")) result }
{
    let list = list_at(value, "registries").ok_or(TextFault::Shape)?;
    each_member(alloc, list.as_slice())
}

/// The number of records and the registries that the value writes.
pub fn written(alloc: Global, value: &Value) -> Result<(u64, UnsortedRegistries), TextFault>
    ensures { Finds (λ p. IsWritten (view value.now) p.0 p.1) result }
{
    if !has_keys(value, 2) {
        return Err(TextFault::Shape);
    }
    let records = count_at(value, "records", MOST_RECORDS).ok_or(TextFault::Shape)?;
    let members = members(alloc, value)?;
    Ok((records, members))
}
