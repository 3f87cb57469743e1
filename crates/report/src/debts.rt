//! The lines about the units that completed transfers owe, and the report's last line.
ghost use Rattle.std.specs.Prelude.{◌≡◌, ◌+◌, ◌++◌, OnOk, map, string_bytes, sum_by};
ghost use Rattle.std.specs.List.{flat_map};
ghost use Rattle.status.specs.Content.{raws};
ghost use Rattle.safety.specs.NumberOfUnits.{units_of};
ghost use Rattle.world.specs.Transfers.{transfer_of};
ghost use Rattle.report.specs.ReportLines.{due_line, due_lines, end_line, owed_line, owed_lines, owed_shown, shown};

use crate::form::Form;
use status::TransactionId;
use std::fmt::Write;
use units::{Block, NoMemory};
use world::ProposedTransfer;

/// `before` and the number of units of the blocks, or 2^64 - 1 where that is more.
fn units_in(before: u64, blocks: &[Block]) -> u64
    ensures { result ≡ shown (before + sum_by units_of (raws blocks.now)) }
{
    let mut count = before;
    for block in blocks {
        count = count.saturating_add(block.count());
    }
    count
}

/// The number of units of all the transfers, or 2^64 - 1 where there are more.
fn owed_in(transfers: &[ProposedTransfer<'_>]) -> u64
    ensures { result ≡ owed_shown (map transfer_of transfers.now) }
{
    let mut count = 0u64;
    for transfer in transfers {
        count = units_in(count, transfer.content.units());
    }
    count
}

/// Adds the line of a block that the transfer of that identifier owes.
fn push_block(
    text: &mut String,
    id: TransactionId,
    block: Block,
    form: Form,
) -> Result<(), NoMemory>
    ensures { OnOk result (string_bytes text.new ≡ string_bytes text.old ++ due_line form id block.raw) }
{
    match form {
        Form::Lines => writeln!(text, "due {id} {block}")?,
        Form::Json => writeln!(
            text,
            "{{\"line\":\"due\",\"transaction\":\"{id}\",\"units\":\"{block}\"}}"
        )?,
    }
    Ok(())
}

fn push_blocks(
    text: &mut String,
    id: TransactionId,
    blocks: &[Block],
    form: Form,
) -> Result<(), NoMemory>
    ensures { OnOk result (string_bytes text.new ≡ string_bytes text.old ++ flat_map (due_line form id) (raws blocks.now)) }
{
    for block in blocks {
        push_block(text, id, *block, form)?;
    }
    Ok(())
}

fn push_due(text: &mut String, transfer: ProposedTransfer<'_>, form: Form) -> Result<(), NoMemory>
    ensures { OnOk result (string_bytes text.new ≡ string_bytes text.old ++ due_lines form (transfer_of transfer.entry)) }
{
    push_blocks(text, transfer.id, transfer.content.units(), form)
}

fn push_each_due(
    text: &mut String,
    transfers: &[ProposedTransfer<'_>],
    form: Form,
) -> Result<(), NoMemory>
    ensures { OnOk result (string_bytes text.new ≡ string_bytes text.old ++
        flat_map (due_lines form) (map transfer_of transfers.now)) }
{
    for transfer in transfers {
        push_due(text, *transfer, form)?;
    }
    Ok(())
}

/// Adds the line of the number of units.
fn push_number(
    text: &mut String,
    transfers: &[ProposedTransfer<'_>],
    form: Form,
) -> Result<(), NoMemory>
    ensures { OnOk result
        (string_bytes text.new ≡ string_bytes text.old ++ owed_line form (map transfer_of transfers.now)) }
{
    let owed = owed_in(transfers);
    match form {
        Form::Lines => writeln!(text, "owed {owed}")?,
        Form::Json => writeln!(text, "{{\"line\":\"owed\",\"owed\":{owed}}}")?,
    }
    Ok(())
}

/// Adds the report's last line.
fn push_end(text: &mut String, form: Form) -> Result<(), NoMemory>
    ensures { OnOk result (string_bytes text.new ≡ string_bytes text.old ++ end_line form) }
{
    match form {
        Form::Lines => writeln!(text, "end")?,
        Form::Json => writeln!(text, "{{\"line\":\"end\"}}")?,
    }
    Ok(())
}

/// Adds the lines about the units that these transfers owe: their number, or 2^64 - 1 where there are more, and each
/// block of each transfer; then the report's last line.
///
/// # Errors
///
/// Fails with `NoMemory` where there is no room for the lines. The text may then have a part of them.
pub(crate) fn push_owed(
    text: &mut String,
    transfers: &[ProposedTransfer<'_>],
    form: Form,
) -> Result<(), NoMemory>
    ensures { OnOk result
        (string_bytes text.new ≡ string_bytes text.old ++ owed_lines form (map transfer_of transfers.now)) }
{
    push_number(text, transfers, form)?;
    push_each_due(text, transfers, form)?;
    push_end(text, form)
}
