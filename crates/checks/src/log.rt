//! The findings of the log in a proposal.
ghost use Rattle.std.specs.Prelude.{◌≡◌, ◌&&◌, ◌++◌, not, false, is_some, is_none, unwrap_or, IfOk, OnOk};
ghost use Rattle.std.specs.BTreeMap as tree;
ghost use Rattle.std.specs.FinMap as map;
ghost use Rattle.std.specs.List.{list_any};
ghost use Rattle.units.specs.Keys.{code_cmp};
ghost use Rattle.units.specs.RefusalCodes.{wrong_acquirer, acquirer_not_eligible};
ghost use Rattle.status.specs.Content.{raws};
ghost use Rattle.wire.specs.Codes.{Ascends};
ghost use Rattle.protocol.specs.Checks.{Ledger, codes_of, has_other_kind, log_findings};
ghost use Rattle.protocol.specs.Pieces.{pieces_of};
ghost use Rattle.protocol.specs.Registries.{has_member};
ghost use Rattle.checks.specs.Finding.{codes_in};
ghost use Rattle.checks.specs.Following.{is_of_other, unit_causes};
ghost use Rattle.checks.specs.Knowing.{Registers, starts_eligible};

use crate::blocks::has_repeats;
use crate::findings::note;
use crate::register::{BookEntry, Register, UnderWay};
use crate::registries::is_no_acquirer;
use scheme::{Holder, Scheme};
use status::Content;
use std::alloc::Global;
use std::collections::BTreeMap;
use units::refusal_code::{
    ACQUIRER_NOT_ELIGIBLE, INITIATOR_NOT_ELIGIBLE, OTHER_KIND, OTHER_OWNER, OTHER_TRANSFER,
    UNIT_NOT_ALLOTTED, UNIT_REPEATED, WRONG_ACQUIRER,
};
use units::{Block, Code, Items, NoMemory, UnitMap};
use wire::LogCodes;

/// Whether one of the block's units isn't allotted.
fn is_unallotted(allotments: &UnitMap<Holder>, block: &Block) -> bool
    ensures { result ≡ list_any (λ p. is_none (map.get allotments.now p.unit)) (pieces_of block.now.raw) }
{
    !allotments.has_all_of(block, |_| true)
}

/// Whether another registry owns one of the block's units.
fn is_of_another(book: &UnitMap<BookEntry>, registry: Code, block: &Block) -> bool
    ensures { result ≡ list_any (λ p. is_of_other registry (map.get book.now p.unit)) (pieces_of block.now.raw) }
{
    book.has_some_of(block, |owner| owner.registry != registry)
}

/// Whether one of the block's units is in a transfer.
fn is_busy(under_way: &UnitMap<UnderWay>, block: &Block) -> bool
    ensures { result ≡ list_any (λ p. is_some (map.get under_way.now p.unit)) (pieces_of block.now.raw) }
{
    !under_way.has_none_of(block)
}

/// Whether one of the block's units is allotted with another kind.
fn is_of_other_kind(allotments: &UnitMap<Holder>, block: &Block) -> bool
    ensures { result ≡ list_any (λ p. has_other_kind (map.get allotments.now p.unit) p.kind) (pieces_of block.now.raw) }
{
    let kind = block.raw.kind;
    allotments.has_some_of(block, |holder| holder.kind != kind)
}

/// Whether one of the blocks' units isn't allotted.
fn has_unallotted(allotments: &UnitMap<Holder>, blocks: &[Block]) -> bool
    ensures { result ≡ list_any
        (λ b. list_any (λ p. is_none (map.get allotments.now p.unit)) (pieces_of b.raw)) blocks.now }
{
    blocks.iter().any(|block| is_unallotted(allotments, block))
}

/// Whether another registry owns one of the blocks' units.
fn has_other_owner(book: &UnitMap<BookEntry>, registry: Code, blocks: &[Block]) -> bool
    ensures { result ≡ list_any
        (λ b. list_any (λ p. is_of_other registry (map.get book.now p.unit)) (pieces_of b.raw)) blocks.now }
{
    blocks
        .iter()
        .any(|block| is_of_another(book, registry, block))
}

/// Whether one of the blocks' units is in a transfer.
fn has_busy(under_way: &UnitMap<UnderWay>, blocks: &[Block]) -> bool
    ensures { result ≡ list_any
        (λ b. list_any (λ p. is_some (map.get under_way.now p.unit)) (pieces_of b.raw)) blocks.now }
{
    blocks.iter().any(|block| is_busy(under_way, block))
}

/// Whether one of the blocks' units is allotted with another kind.
fn has_other_kind(allotments: &UnitMap<Holder>, blocks: &[Block]) -> bool
    ensures { result ≡ list_any
        (λ b. list_any (λ p. has_other_kind (map.get allotments.now p.unit) p.kind) (pieces_of b.raw)) blocks.now }
{
    blocks
        .iter()
        .any(|block| is_of_other_kind(allotments, block))
}

/// Whether the registry may take part in transfers at the start.
fn starts_eligible(scheme: &Scheme, code: Code) -> bool
    ensures { result ≡ starts_eligible scheme.now code }
{
    match scheme.member(code) {
        Some(member) => member.eligible,
        None => false,
    }
}

/// Whether the registry may take part in transfers: by the last order for it, or else as at the start.
pub fn is_eligible(scheme: &Scheme, orders: &BTreeMap<Code, bool>, code: Code) -> bool
    ensures { result ≡ unwrap_or (tree.get code_cmp orders.now code) (starts_eligible scheme.now code) }
{
    match orders.get(&code) {
        Some(may) => *may,
        None => starts_eligible(scheme, code),
    }
}

/// Whether a registry of the scheme may not take part in transfers.
fn is_barred(scheme: &Scheme, orders: &BTreeMap<Code, bool>, code: Code) -> bool
    ensures { result ≡ (has_member scheme.now code && not
        (unwrap_or (tree.get code_cmp orders.now code) (starts_eligible scheme.now code))) }
{
    scheme.member(code).is_some() && !is_eligible(scheme, orders, code)
}

/// Adds the codes of the findings in the blocks.
fn note_units(
    found: &mut Vec<u16>,
    register: &Register,
    initiator: Code,
    blocks: &[Block],
) -> Result<(), NoMemory>
    ensures { OnOk result (found.new.items ≡ found.old.items ++ codes_of (unit_causes register.now initiator
        (raws blocks.now))) }
{
    let allotments = &register.allotments;
    note(found, has_repeats(blocks), UNIT_REPEATED)?;
    note(found, has_unallotted(allotments, blocks), UNIT_NOT_ALLOTTED)?;
    note(
        found,
        has_other_owner(&register.book, initiator, blocks),
        OTHER_OWNER,
    )?;
    note(found, has_busy(&register.under_way, blocks), OTHER_TRANSFER)?;
    note(found, has_other_kind(allotments, blocks), OTHER_KIND)
}

/// The codes, or `None` where there are none.
fn some_codes(codes: Vec<u16>) -> Option<LogCodes>
    requires { Ascends wrong_acquirer acquirer_not_eligible codes.items }
    ensures { codes_in result ≡ codes.items }
{
    LogCodes::new(Items::from_vec(codes))
}

/// The findings of the log in a proposal of that initiator: every cause that holds, each with its code, or `None` where
/// none does. `WRONG_ACQUIRER`: the acquirer is unknown, or is the initiator; `UNIT_REPEATED`: a unit is in two blocks;
/// `UNIT_NOT_ALLOTTED`: a unit isn't allotted; `OTHER_OWNER`: an allotted unit is owned by another registry;
/// `OTHER_TRANSFER`: a unit is in a transfer that stands Checked or Accepted; `OTHER_KIND`: a unit is allotted with
/// another kind than its block's; `INITIATOR_NOT_ELIGIBLE`: the initiator may not take part in transfers;
/// `ACQUIRER_NOT_ELIGIBLE`: the acquirer is a registry of the scheme that may not. Fails with `NoMemory` where memory
/// runs out.
pub fn log_findings(
    alloc: Global,
    scheme: &Scheme,
    register: &Register,
    initiator: Code,
    content: &Content,
) -> Result<Option<LogCodes>, NoMemory>
    ensures { (known : Ledger) → Registers scheme.now register.now known
        → IfOk result (λ found. codes_in found ≡ log_findings scheme.now known initiator content.now) }
{
    let acquirer = content.acquirer();
    let orders = &register.orders;
    let mut found = Vec::new(alloc);
    let stranger = is_no_acquirer(scheme, initiator, acquirer);
    note(&mut found, stranger, WRONG_ACQUIRER)?;
    note_units(&mut found, register, initiator, content.units())?;
    let may = is_eligible(scheme, orders, initiator);
    note(&mut found, !may, INITIATOR_NOT_ELIGIBLE)?;
    let barred = is_barred(scheme, orders, acquirer);
    note(&mut found, barred, ACQUIRER_NOT_ELIGIBLE)?;
    Ok(some_codes(found))
}
