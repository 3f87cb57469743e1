//! Writing a scheme as a text.
ghost use Rattle.std.specs.Prelude.{◌≡◌, ◌++◌, IfOk, OnOk, codes};
ghost use Rattle.serde_json.specs.Data.{string};
ghost use Rattle.units.specs.Code.{code_text};
ghost use Rattle.units.specs.Text.{IsFreeOf};
ghost use Rattle.json_fields.specs.Objects.{array_with, whole};
ghost use Rattle.json_fields.specs.Writing.{after_field, after_fields, data_tokens, each_tokens};
ghost use Rattle.scheme.specs.Text.{IsSchemeText};
ghost use Rattle.scheme.specs.Written.{allotment_data, block_data, kind_data, member_data, member_fields, scheme_data, scheme_text};

use crate::members::{Allotment, SchemeRegistry};
use crate::registries::Scheme;
use json_fields::JsonText;
use std::alloc::Global;
use units::{Block, Code, Kind, NoMemory};

fn write_accounts(out: &mut JsonText, accounts: &[u64]) -> Result<(), NoMemory>
    ensures { OnOk result (out.new ≡ out.old ++ each_tokens whole accounts.now) }
{
    for account in accounts {
        out.number(*account)?;
    }
    Ok(())
}

fn write_kinds(out: &mut JsonText, kinds: &[Kind]) -> Result<(), NoMemory>
    ensures { OnOk result (out.new ≡ out.old ++ each_tokens kind_data kinds.now) }
{
    for kind in kinds {
        out.string(kind.name())?;
    }
    Ok(())
}

fn write_blocks(alloc: Global, out: &mut JsonText, blocks: &[Block]) -> Result<(), NoMemory>
    ensures { OnOk result (out.new ≡ out.old ++ each_tokens block_data blocks.now) }
{
    for block in blocks {
        let text = block.write(alloc)?;
        out.string(text.as_str())?;
    }
    Ok(())
}

/// Writes the accounts of a registry.
fn put_accounts(out: &mut JsonText, accounts: &[u64]) -> Result<(), NoMemory>
    ensures { OnOk result (out.new ≡ after_field out.old (codes "accounts", array_with whole accounts.now)) }
{
    out.key("accounts")?;
    out.begin_array()?;
    write_accounts(out, accounts)?;
    out.end_array()
}

/// Writes the kinds of units that a registry takes.
fn put_kinds(out: &mut JsonText, kinds: &[Kind]) -> Result<(), NoMemory>
    ensures { OnOk result (out.new ≡ after_field out.old (codes "kinds", array_with kind_data kinds.now)) }
{
    out.key("kinds")?;
    out.begin_array()?;
    write_kinds(out, kinds)?;
    out.end_array()
}

/// Writes the blocks of an allotment.
fn put_units(alloc: Global, out: &mut JsonText, units: &[Block]) -> Result<(), NoMemory>
    ensures { OnOk result (out.new ≡ after_field out.old (codes "units", array_with block_data units.now)) }
{
    out.key("units")?;
    out.begin_array()?;
    write_blocks(alloc, out, units)?;
    out.end_array()
}

/// Writes the blocks that an account has at the start.
fn write_allotment(alloc: Global, out: &mut JsonText, allotment: &Allotment) -> Result<(), NoMemory>
    ensures { OnOk result (out.new ≡ out.old ++ data_tokens (allotment_data allotment.now)) }
{
    out.begin_object()?;
    out.put_number("account", allotment.account)?;
    put_units(alloc, out, allotment.units.as_slice())?;
    out.end_object()
}

fn write_allotments(
    alloc: Global,
    out: &mut JsonText,
    allotted: &[Allotment],
) -> Result<(), NoMemory>
    ensures { OnOk result (out.new ≡ out.old ++ each_tokens allotment_data allotted.now) }
{
    for allotment in allotted {
        write_allotment(alloc, out, allotment)?;
    }
    Ok(())
}

/// Writes the blocks that the accounts of a registry have at the start.
fn put_allotted(alloc: Global, out: &mut JsonText, allotted: &[Allotment]) -> Result<(), NoMemory>
    ensures { OnOk result
        (out.new ≡ after_field out.old (codes "allotted", array_with allotment_data allotted.now)) }
{
    out.key("allotted")?;
    out.begin_array()?;
    write_allotments(alloc, out, allotted)?;
    out.end_array()
}

/// Writes the code of a registry.
fn put_code(alloc: Global, out: &mut JsonText, code: Code) -> Result<(), NoMemory>
    ensures { OnOk result (out.new ≡ after_field out.old (codes "code", string (code_text code))) }
{
    let text = format!(in alloc; "{code}")?;
    out.put_text("code", text.as_str())
}

fn put_member(alloc: Global, out: &mut JsonText, member: &SchemeRegistry) -> Result<(), NoMemory>
    ensures { OnOk result (out.new ≡ after_fields out.old (member_fields member.now)) }
{
    put_accounts(out, member.accounts.as_slice())?;
    put_allotted(alloc, out, member.allotted.as_slice())?;
    put_code(alloc, out, member.code)?;
    out.put_boolean("eligible", member.eligible)?;
    put_kinds(out, member.kinds.as_slice())
}

/// Writes a registry.
fn write_member(alloc: Global, out: &mut JsonText, member: &SchemeRegistry) -> Result<(), NoMemory>
    ensures { OnOk result (out.new ≡ out.old ++ data_tokens (member_data member.now)) }
{
    out.begin_object()?;
    put_member(alloc, out, member)?;
    out.end_object()
}

fn write_members(
    alloc: Global,
    out: &mut JsonText,
    members: &[SchemeRegistry],
) -> Result<(), NoMemory>
    ensures { OnOk result (out.new ≡ out.old ++ each_tokens member_data members.now) }
{
    for member in members {
        write_member(alloc, out, member)?;
    }
    Ok(())
}

/// Writes the registries of a scheme.
fn put_members(
    alloc: Global,
    out: &mut JsonText,
    members: &[SchemeRegistry],
) -> Result<(), NoMemory>
    ensures { OnOk result
        (out.new ≡ after_field out.old (codes "registries", array_with member_data members.now)) }
{
    out.key("registries")?;
    out.begin_array()?;
    write_members(alloc, out, members)?;
    out.end_array()
}

/// Writes a scheme.
fn write_scheme(alloc: Global, out: &mut JsonText, scheme: &Scheme) -> Result<(), NoMemory>
    ensures { OnOk result (out.new ≡ out.old ++ data_tokens (scheme_data scheme.now)) }
{
    out.begin_object()?;
    out.put_number("records", scheme.records)?;
    put_members(alloc, out, scheme.members.as_slice())?;
    out.end_object()
}

impl Scheme {
    /// The text of the scheme, which `read` reads as an equal one: compact JSON in UTF-8, keys in byte order,
    /// registries in byte order of their codes, no newline.
    ///
    /// # Errors
    ///
    /// Fails with `NoMemory` where there is no room for the text.
    pub fn text(&self, alloc: Global) -> Result<Vec<u8>, NoMemory>
        ensures text { IfOk result (λ v. v.items ≡ scheme_text self.now) }
        ensures writes { IfOk result (λ v. IsSchemeText v.items self.now) }
        ensures line { IfOk result (λ v. IsFreeOf 10 v.items) }
    {
        let mut out = JsonText::new(alloc)?;
        write_scheme(alloc, &mut out, self)?;
        Ok(out.into_bytes())
    }
}
