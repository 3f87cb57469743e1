//! The holdings with which a registry starts.
ghost use Rattle.std.specs.Prelude.{◌≡◌, ℕ, [], IfOk, OnOk};
ghost use Rattle.std.specs.FinMap as map;
ghost use Rattle.std.specs.List.{AllByRecursion};
ghost use Rattle.units.specs.Apart.{AllApart};
ghost use Rattle.units.specs.declared.block.Unit.{Unit as Serial};
ghost use Rattle.accounts.specs.Refusals.{IsOpen};
ghost use Rattle.scheme.specs.Order.{blocks_of};
ghost use Rattle.protocol.specs.Held.{unit_holding_at, account_status_at};
ghost use Rattle.protocol.specs.Held.{allotted_unit_holding};

use accounts::Holdings;
use scheme::{Allotment, Scheme, SchemeRegistry};
use std::alloc::Global;
use units::{Code, NoMemory};

/// Credits the units of the allotments to holdings that are empty. Each of their accounts is open, and they share no
/// unit.
fn credit_each(holdings: &mut Holdings, allotted: &[Allotment]) -> Result<(), NoMemory>
    requires empty { holdings.old.unit_holdings ≡ map.empty }
    requires open_accounts { AllByRecursion (λ a. IsOpen holdings.old a.account) allotted.now }
    requires apart { AllApart (blocks_of allotted.now) }
    ensures accounts { holdings.new.accounts ≡ holdings.old.accounts }
    ensures unit_holdings { OnOk result ((s : Serial)
        → map.get holdings.new.unit_holdings s ≡ allotted_unit_holding allotted.now s) }
{
    for allotment in allotted {
        holdings.credit(allotment.account, allotment.units.as_slice())?;
    }
    Ok(())
}

/// The holdings of a registry at the start: its accounts, open, with the units that the scheme allots to them; or
/// `NoMemory`.
pub(crate) fn opening_holdings(
    alloc: Global,
    scheme: &Scheme,
    code: Code,
) -> Result<Holdings, NoMemory>
    ensures accounts { IfOk result (λ h. (n : ℕ) → map.get h.accounts n ≡ account_status_at scheme.now code [] n) }
    ensures unit_holdings { IfOk result (λ h. (s : Serial)
        → map.get h.unit_holdings s ≡ unit_holding_at scheme.now code [] s) }
{
    let Some(member) = scheme.member(code) else {
        return Holdings::new(alloc, &[]);
    };
    let mut holdings = Holdings::new(alloc, member.accounts.as_slice())?;
    credit_each(&mut holdings, member.allotted.as_slice())?;
    Ok(holdings)
}
