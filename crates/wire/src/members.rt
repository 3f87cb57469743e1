//! The members of JSON objects, written one after another.
ghost use Rattle.std.specs.Prelude.{◌≡◌, ◌++◌, IfOk, OnOk};
ghost use Rattle.serde_json.specs.Data.{string};
ghost use Rattle.status.specs.Content.{raws};
ghost use Rattle.status.specs.Id.{id_text};
ghost use Rattle.units.specs.Code.{code_text, node_text};
ghost use Rattle.units.specs.declared.block.Block.{Block as Specified};
ghost use Rattle.json_fields.specs.Objects.{whole};
ghost use Rattle.json_fields.specs.Writing.{after_field, each_tokens};
ghost use Rattle.wire.specs.Objects.{block_data, blocks, numbers};

use json_fields::JsonText;
use status::TransactionId;
use std::alloc::Global;
use units::{Block, Code, NoMemory, Node, RawBlock};

/// A member that is a registry's code.
pub(crate) fn put_code(
    alloc: Global,
    out: &mut JsonText,
    key: &str,
    code: Code,
) -> Result<(), NoMemory>
    ensures { OnOk result (out.new ≡ after_field out.old (key.now, string (code_text code))) }
{
    let text = format!(in alloc; "{code}")?;
    out.put_text(key, text.as_str())
}

/// A member that is a node.
pub(crate) fn put_node(
    alloc: Global,
    out: &mut JsonText,
    key: &str,
    node: Node,
) -> Result<(), NoMemory>
    ensures { OnOk result (out.new ≡ after_field out.old (key.now, string (node_text node))) }
{
    let text = format!(in alloc; "{node}")?;
    out.put_text(key, text.as_str())
}

/// A member that is a transaction.
pub(crate) fn put_id(
    alloc: Global,
    out: &mut JsonText,
    key: &str,
    id: TransactionId,
) -> Result<(), NoMemory>
    ensures { OnOk result (out.new ≡ after_field out.old (key.now, string (id_text id))) }
{
    let text = id.write(alloc)?;
    out.put_text(key, text.as_str())
}

/// The texts of blocks.
fn write_blocks(alloc: Global, out: &mut JsonText, blocks: &[Block]) -> Result<(), NoMemory>
    ensures { OnOk result (out.new ≡ out.old ++ each_tokens (λ (b : Specified). block_data b.raw) blocks.now) }
{
    for block in blocks {
        let text = block.write(alloc)?;
        out.string(text.as_str())?;
    }
    Ok(())
}

/// A member that is a list of blocks.
pub(crate) fn put_blocks(
    alloc: Global,
    out: &mut JsonText,
    key: &str,
    held: &[Block],
) -> Result<(), NoMemory>
    ensures { OnOk result (out.new ≡ after_field out.old (key.now, blocks (raws held.now))) }
{
    out.key(key)?;
    out.begin_array()?;
    write_blocks(alloc, out, held)?;
    out.end_array()
}

/// The texts of blocks as they were ordered.
fn write_ordered(alloc: Global, out: &mut JsonText, blocks: &[RawBlock]) -> Result<(), NoMemory>
    ensures { OnOk result (out.new ≡ out.old ++ each_tokens block_data blocks.now) }
{
    for block in blocks {
        let text = format!(in alloc; "{block}")?;
        out.string(text.as_str())?;
    }
    Ok(())
}

/// A member that is a list of blocks as they were ordered.
pub(crate) fn put_ordered(
    alloc: Global,
    out: &mut JsonText,
    key: &str,
    ordered: &[RawBlock],
) -> Result<(), NoMemory>
    ensures { OnOk result (out.new ≡ after_field out.old (key.now, blocks ordered.now)) }
{
    out.key(key)?;
    out.begin_array()?;
    write_ordered(alloc, out, ordered)?;
    out.end_array()
}

/// The codes of findings.
fn write_numbers(out: &mut JsonText, codes: &[u16]) -> Result<(), NoMemory>
    ensures { OnOk result (out.new ≡ out.old ++ each_tokens whole codes.now) }
{
    for code in codes {
        out.number(u64::from(*code))?;
    }
    Ok(())
}

/// A member that is a list of the codes of findings.
pub(crate) fn put_numbers(out: &mut JsonText, key: &str, codes: &[u16]) -> Result<(), NoMemory>
    ensures { OnOk result (out.new ≡ after_field out.old (key.now, numbers codes.now)) }
{
    out.key(key)?;
    out.begin_array()?;
    write_numbers(out, codes)?;
    out.end_array()
}
