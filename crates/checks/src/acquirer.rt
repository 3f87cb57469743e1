//! The findings of the acquirer in a transfer.
ghost use Rattle.std.specs.Prelude.{◌≡◌, ◌&&◌, not, IfOk};
ghost use Rattle.std.specs.List.{list_any};
ghost use Rattle.units.specs.RefusalCodes.{receiver_unknown, kind_not_taken};
ghost use Rattle.units.specs.Unit.{same_kind};
ghost use Rattle.units.specs.declared.code.Code.{Code};
ghost use Rattle.status.specs.Content.{raws};
ghost use Rattle.wire.specs.Codes.{Ascends};
ghost use Rattle.scheme.specs.declared.registries.Scheme.{Scheme};
ghost use Rattle.protocol.specs.Checks.{Holding, acquirer_findings};
ghost use Rattle.protocol.specs.Pieces.{pieces};
ghost use Rattle.protocol.specs.Registries.{has_account, takes_kind};
ghost use Rattle.checks.specs.Finding.{codes_in};
ghost use Rattle.checks.specs.Knowing.{Knows};

use crate::findings::note;
use accounts::Holdings;
use scheme::Scheme;
use status::Content;
use std::alloc::Global;
use units::refusal_code::{KIND_NOT_TAKEN, RECEIVER_CLOSED, RECEIVER_UNKNOWN, UNIT_ALREADY_HELD};
use units::{Block, Code, Items, Kind, NoMemory};
use wire::AcquirerCodes;

/// Whether the registry has no such account.
fn is_unknown(holdings: &Holdings, account: u64) -> bool
    ensures { (scheme : Scheme) (code : Code) (known : Holding) → Knows scheme code holdings.now known
        → result ≡ not (has_account scheme code account) }
{
    holdings.is_open(account).is_none()
}

/// Whether the registry has the account, and it is closed.
fn is_closed(holdings: &Holdings, account: u64) -> bool
    ensures { (scheme : Scheme) (code : Code) (known : Holding) → Knows scheme code holdings.now known
        → result ≡ (has_account scheme code account && known.is_closed account) }
{
    match holdings.is_open(account) {
        Some(open) => !open,
        None => false,
    }
}

/// Whether the registry holds one of the blocks' units. Takes no memory.
pub fn holds_some(holdings: &Holdings, blocks: &[Block]) -> bool
    ensures { (scheme : Scheme) (code : Code) (known : Holding) → Knows scheme code holdings.now known
        → result ≡ list_any (λ p. known.is_held p.unit) (pieces (raws blocks.now)) }
{
    holdings.holds_any(blocks)
}

/// Whether the kind is one of these.
fn has_kind(kinds: &[Kind], kind: Kind) -> bool
    ensures { result ≡ list_any (λ k. same_kind k kind) kinds.now }
{
    kinds.iter().any(|other| *other == kind)
}

/// Whether the registry takes units of the kind.
fn takes_kind(scheme: &Scheme, code: Code, kind: Kind) -> bool
    ensures { result ≡ takes_kind scheme.now code kind }
{
    match scheme.member(code) {
        Some(member) => has_kind(member.kinds.as_slice(), kind),
        None => false,
    }
}

/// Whether one of the blocks is of a kind that the registry doesn't take.
fn has_untaken(scheme: &Scheme, code: Code, blocks: &[Block]) -> bool
    ensures { result ≡ list_any (λ b. not (takes_kind scheme.now code b.raw.kind)) blocks.now }
{
    blocks
        .iter()
        .any(|block| !takes_kind(scheme, code, block.raw.kind))
}

/// The codes, or `None` where there are none.
fn some_codes(codes: Vec<u16>) -> Option<AcquirerCodes>
    requires { Ascends receiver_unknown kind_not_taken codes.items }
    ensures { codes_in result ≡ codes.items }
{
    AcquirerCodes::new(Items::from_vec(codes))
}

/// The findings of the registry of that code as the acquirer of a transfer: every cause that holds, each with its code,
/// or `None` where none does. `RECEIVER_UNKNOWN`: the registry has no such receiving account; `RECEIVER_CLOSED`: it is
/// closed; `UNIT_ALREADY_HELD`: the registry holds a unit; `KIND_NOT_TAKEN`: a block is of a kind that the registry
/// doesn't take. Fails with `NoMemory` where memory runs out.
pub fn acquirer_findings(
    alloc: Global,
    scheme: &Scheme,
    code: Code,
    holdings: &Holdings,
    content: &Content,
) -> Result<Option<AcquirerCodes>, NoMemory>
    ensures { (known : Holding) → Knows scheme.now code holdings.now known
        → IfOk result (λ found. codes_in found ≡ acquirer_findings scheme.now code known content.now) }
{
    let account = content.to_account();
    let blocks = content.units();
    let mut found = Vec::new(alloc);
    note(&mut found, is_unknown(holdings, account), RECEIVER_UNKNOWN)?;
    note(&mut found, is_closed(holdings, account), RECEIVER_CLOSED)?;
    note(&mut found, holds_some(holdings, blocks), UNIT_ALREADY_HELD)?;
    note(
        &mut found,
        has_untaken(scheme, code, blocks),
        KIND_NOT_TAKEN,
    )?;
    Ok(some_codes(found))
}
