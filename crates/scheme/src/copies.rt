//! Copies of registries.
ghost use Rattle.std.specs.Prelude.{◌≡◌, IfOk};

use crate::members::{Allotment, SchemeRegistry};
use std::alloc::Global;
use units::{Items, NoMemory};

fn copied_allotment(allotment: &Allotment) -> Result<Allotment, NoMemory>
    ensures { IfOk result (λ a. a ≡ allotment.now) }
{
    Ok(Allotment {
        account: allotment.account,
        units: allotment.units.copy()?,
    })
}

fn copied_allotments(alloc: Global, allotted: &[Allotment]) -> Result<Items<Allotment>, NoMemory>
    ensures { IfOk result (λ c. c ≡ allotted.now) }
{
    let mut copies = Vec::with_capacity(alloc, allotted.len())?;
    for allotment in allotted {
        copies.push(copied_allotment(allotment)?)?;
    }
    Ok(Items::from_vec(copies))
}

fn copied_member(alloc: Global, member: &SchemeRegistry) -> Result<SchemeRegistry, NoMemory>
    ensures { IfOk result (λ m. m ≡ member.now) }
{
    Ok(SchemeRegistry {
        code: member.code,
        accounts: member.accounts.copy()?,
        allotted: copied_allotments(alloc, member.allotted.as_slice())?,
        eligible: member.eligible,
        kinds: member.kinds.copy()?,
    })
}

/// Equal registries in the same order.
pub fn copied_members(
    alloc: Global,
    members: &[SchemeRegistry],
) -> Result<Items<SchemeRegistry>, NoMemory>
    ensures { IfOk result (λ c. c ≡ members.now) }
{
    let mut copies = Vec::with_capacity(alloc, members.len())?;
    for member in members {
        copies.push(copied_member(alloc, member)?)?;
    }
    Ok(Items::from_vec(copies))
}
