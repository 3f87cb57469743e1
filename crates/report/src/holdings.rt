//! The lines about the holdings of a registry.
ghost use Rattle.std.specs.Prelude.{◌≡◌, ◌++◌, OnOk, string_bytes};
ghost use Rattle.std.specs.List.{flat_map};
ghost use Rattle.report.specs.ReportLines.{free_shown, free_units, held_shown, holding_line, registry_line, registry_lines};
ghost use Rattle.report.specs.declared.form.Form.TheVariants.{Json, Lines};

use crate::form::Form;
use registry_core::accounts::HeldBlock;
use status::TransactionId;
use std::fmt;
use std::fmt::Write;
use units::{Code, NoMemory};

#[derive(Drop)]
struct ReservingText(Option<TransactionId>);

impl fmt::Display for ReservingText {
    ghost use Rattle.std.specs.Prelude.{Some};
    ghost use Rattle.report.specs.ReportLines.{reserving_text};

    ghost output = { λ t. Some (reserving_text t.0) };

    fn fmt<W: fmt::Write>(&self, f: &mut fmt::Formatter<W>) -> fmt::Result {
        match self.0 {
            Some(id) => write!(f, "{id}"),
            None => write!(f, "free"),
        }
    }
}

#[derive(Drop)]
struct ReservingOrNull(Option<TransactionId>);

impl fmt::Display for ReservingOrNull {
    ghost use Rattle.std.specs.Prelude.{Some};
    ghost use Rattle.report.specs.ReportLines.{reserving_or_null};

    ghost output = { λ t. Some (reserving_or_null t.0) };

    fn fmt<W: fmt::Write>(&self, f: &mut fmt::Formatter<W>) -> fmt::Result {
        match self.0 {
            Some(id) => write!(f, "\"{id}\""),
            None => write!(f, "null"),
        }
    }
}

/// The number of units that no transfer reserves.
fn free_units(line: &HeldBlock) -> u64
    ensures { result ≡ free_units line.now }
{
    match line.reserving {
        Some(_) => 0,
        None => line.block.count(),
    }
}

/// The number of units, or 2^64 - 1 where there are more.
fn held_in(lines: &[HeldBlock]) -> u64
    ensures { result ≡ held_shown lines.now }
{
    let mut count = 0u64;
    for line in lines {
        count = count.saturating_add(line.block.count());
    }
    count
}

/// The number of free units, or 2^64 - 1 where there are more.
fn free_in(lines: &[HeldBlock]) -> u64
    ensures { result ≡ free_shown lines.now }
{
    let mut count = 0u64;
    for line in lines {
        count = count.saturating_add(free_units(line));
    }
    count
}

/// Adds the line with a registry's numbers of units.
fn push_numbers(
    text: &mut String,
    code: Code,
    held: u64,
    free: u64,
    form: Form,
) -> Result<(), NoMemory>
    ensures { OnOk result (string_bytes text.new ≡ string_bytes text.old ++ registry_line form code held free) }
{
    match form {
        Form::Lines => writeln!(text, "registry {code} held {held} spendable {free}")?,
        Form::Json => writeln!(
            text,
            "{{\"held\":{held},\"line\":\"registry\",\"registry\":\"{code}\",\"spendable\":{free}}}"
        )?,
    }
    Ok(())
}

fn push_words(text: &mut String, code: Code, line: &HeldBlock) -> Result<(), NoMemory>
    ensures { OnOk result (string_bytes text.new ≡ string_bytes text.old ++ holding_line Lines code line.now) }
{
    let account = line.account;
    let block = line.block;
    let reserving = ReservingText(line.reserving);
    writeln!(text, "holds {code} {account} {block} {reserving}")?;
    Ok(())
}

fn push_object(text: &mut String, code: Code, line: &HeldBlock) -> Result<(), NoMemory>
    ensures { OnOk result (string_bytes text.new ≡ string_bytes text.old ++ holding_line Json code line.now) }
{
    let account = line.account;
    let block = line.block;
    let reserving = ReservingOrNull(line.reserving);
    writeln!(
        text,
        "{{\"account\":{account},\"line\":\"holds\",\"registry\":\"{code}\",\"transaction\":{reserving},\"units\":\"{block}\"}}"
    )?;
    Ok(())
}

fn push_line(text: &mut String, code: Code, line: &HeldBlock, form: Form) -> Result<(), NoMemory>
    ensures { OnOk result (string_bytes text.new ≡ string_bytes text.old ++ holding_line form code line.now) }
{
    match form {
        Form::Lines => push_words(text, code, line),
        Form::Json => push_object(text, code, line),
    }
}

fn push_lines(
    text: &mut String,
    code: Code,
    lines: &[HeldBlock],
    form: Form,
) -> Result<(), NoMemory>
    ensures { OnOk result (string_bytes text.new ≡ string_bytes text.old ++ flat_map (holding_line form code) lines.now) }
{
    for line in lines {
        push_line(text, code, line, form)?;
    }
    Ok(())
}

/// Adds the lines about the holdings of the registry of that code: the number of its units and of the free ones among
/// them, or 2^64 - 1 where there are more, and then each line of its holdings.
///
/// # Errors
///
/// Fails with `NoMemory` where there is no room for the lines. The text may then have a part of them.
pub(crate) fn push_registry(
    text: &mut String,
    code: Code,
    lines: &[HeldBlock],
    form: Form,
) -> Result<(), NoMemory>
    ensures { OnOk result (string_bytes text.new ≡ string_bytes text.old ++ registry_lines form code lines.now) }
{
    push_numbers(text, code, held_in(lines), free_in(lines), form)?;
    push_lines(text, code, lines, form)
}
