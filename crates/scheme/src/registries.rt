//! The scheme.
ghost use Rattle.std.specs.Prelude.{◌≡◌, ◌≤◌, IfOk};
ghost use Rattle.std.specs.List.{find, position_from};
ghost use Rattle.std.specs.Option.{option_copied};
ghost use Rattle.units.specs.Code.{same_code};
ghost use Rattle.units.specs.Limits.{most_records};
ghost use Rattle.units.specs.Unit.{has_unit};
ghost use Rattle.scheme.specs.Order.{AreMembers, member};
ghost use Rattle.scheme.specs.Allotted.{allotted, allotted_in};
ghost use Rattle.scheme.specs.Props.{AreMembers-prop};

use crate::copies::copied_members;
use crate::members::{Allotment, Holder, SchemeRegistry};
use std::alloc::Global;
use units::{Block, Code, Items, NoMemory, Unit};

/// The registries, in byte order of their codes, and the number of records that each node's journal may have.
#[derive(Debug)]
pub struct Scheme {
    /// The greatest number of records of each node's journal: 1 to `MOST_RECORDS`.
    pub records: u64,
    /// `LEAST_REGISTRIES` to `MOST_REGISTRIES`, in byte order of their codes.
    pub members: Items<SchemeRegistry>,
    pub ghost in_range: { (1 ≤ records) × (records ≤ most_records) },
    pub ghost sound: { AreMembers members } by { AreMembers-prop members },
}

// Written out, since a derived destructor is proved anew in each crate that lets a value go.
impl Drop for Scheme {
    fn drop(self) {
        let Scheme {
            records: _,
            members,
        } = self;
        drop(members);
    }
}

/// The block of the allotment that has the unit.
fn block_of<'a>(allotment: &'a Allotment, unit: &Unit) -> Option<&'a Block>
    ensures { option_copied result ≡ find (λ b. has_unit b.raw unit.now) allotment.now.units }
{
    allotment.units.as_slice().iter().find(|b| b.has(unit))
}

/// The holder of the unit by the allotments of a registry.
fn holder_in(code: Code, allotted: &[Allotment], unit: &Unit) -> Option<Holder>
    ensures { result ≡ allotted_in code allotted.now unit.now }
{
    for allotment in allotted {
        if let Some(block) = block_of(allotment, unit) {
            return Some(Holder {
                registry: code,
                account: allotment.account,
                kind: block.raw.kind,
            });
        }
    }
    None
}

impl Scheme {
    /// An equal scheme, or `NoMemory`.
    pub fn copy(&self, alloc: Global) -> Result<Scheme, NoMemory>
        ensures { IfOk result (λ s. s ≡ self.now) }
    {
        Ok(Scheme {
            records: self.records,
            members: copied_members(alloc, self.members.as_slice())?,
        })
    }

    /// The greatest number of records of each node's journal.
    pub fn records(&self) -> u64
        ensures { result ≡ self.now.records }
    {
        self.records
    }

    /// The registries, in byte order of their codes.
    pub fn registries(&self) -> &[SchemeRegistry]
        ensures { result.now ≡ self.now.members }
    {
        self.members.as_slice()
    }

    /// The index of the registry of that code among the registries.
    pub fn index_of(&self, code: Code) -> Option<usize>
        ensures { result ≡ position_from (λ m. same_code m.code code) 0 self.now.members }
    {
        self.registries()
            .binary_search_by_key(&code, |member| member.code)
            .ok()
    }

    /// The registry of that code.
    pub fn member(&self, code: Code) -> Option<&SchemeRegistry>
        ensures { option_copied result ≡ member self.now.members code }
    {
        let index = self.index_of(code)?;
        self.registries().get(index)
    }

    /// The holder of the unit at the start.
    pub fn allotted(&self, unit: &Unit) -> Option<Holder>
        ensures { result ≡ allotted self.now.members unit.now }
    {
        for member in self.members.as_slice() {
            let holder = holder_in(member.code, member.allotted.as_slice(), unit);
            if holder.is_some() {
                return holder;
            }
        }
        None
    }
}
