//! The faults of registries, in the order in which they are looked for.
ghost use Rattle.std.specs.Prelude.{◌≡◌, ◌↔◌, ◌++◌, ◌≤◌, length, IfOk, IfSome, IfNone, OnOk, IsTrue, IsPermutation};
ghost use Rattle.std.specs.declared.cmp.Ordering.TheVariants.{Less};
ghost use Rattle.std.specs.List.{AllByRecursion};
ghost use Rattle.std.specs.List.Sorted.{IsNonDecreasing, IsSortedByKey};
ghost use Rattle.units.specs.Apart.{Pairwise, AllApart};
ghost use Rattle.units.specs.Keys.{code_cmp, unit_cmp, first_unit};
ghost use Rattle.units.specs.Limits.{most_accounts};
ghost use Rattle.scheme.specs.Grammar.{HasNoTwins};
ghost use Rattle.scheme.specs.Order.{AreFew, IsFreeOf, AreMembers, AreNumbered, HaveDifferentKinds, all_blocks, blocks_of, faults_in_order};
ghost use Rattle.scheme.specs.Faults.{IsFirst};
ghost use Rattle.scheme.specs.Reading.{AreSorted, IsKnown};
ghost use Rattle.scheme.specs.declared.members.SchemeFault.TheVariants.{AccountTwice, UnknownAccount};

use crate::members::{Allotment, SchemeFault, SchemeRegistry};
use std::alloc::{AllocError, Global};
use units::Block;
use units::limits::{LEAST_REGISTRIES, MOST_ACCOUNTS, MOST_ALLOTTED, MOST_REGISTRIES};

/// Adds the blocks of all the allotments at the end.
fn push_units(all: &mut Vec<Block>, allotted: &[Allotment]) -> Result<(), AllocError>
    ensures { OnOk result (all.new.items ≡ all.old.items ++ blocks_of allotted.now) }
{
    for allotment in allotted {
        all.extend_from_slice(allotment.units.as_slice())?;
    }
    Ok(())
}

/// All blocks that the registries allot.
fn allotted_blocks(alloc: Global, members: &[SchemeRegistry]) -> Result<Vec<Block>, AllocError>
    ensures { IfOk result (λ v. v.items ≡ all_blocks members.now) }
{
    let mut all = Vec::new(alloc);
    for member in members {
        push_units(&mut all, member.allotted.as_slice())?;
    }
    Ok(all)
}

/// Whether none of the registries has too many accounts.
fn have_few_accounts(members: &[SchemeRegistry]) -> bool
    ensures { IsTrue result ↔ AllByRecursion (λ m. length m.accounts ≤ most_accounts) members.now }
{
    for member in members {
        if member.accounts.as_slice().len() > MOST_ACCOUNTS {
            return false;
        }
    }
    true
}

/// Whether there are too many neither of the registries, nor of their accounts, nor of their blocks. `blocks` is the
/// number of blocks.
fn are_few(members: &[SchemeRegistry], blocks: usize) -> bool
    requires { blocks ≡ length (all_blocks members.now) }
    ensures { IsTrue result ↔ AreFew members.now }
{
    if members.len() > MOST_REGISTRIES || blocks > MOST_ALLOTTED {
        return false;
    }
    have_few_accounts(members)
}

/// Whether all codes are different. The registries are in order: two with one code are neighbours.
fn have_different_codes(members: &[SchemeRegistry]) -> bool
    requires { AreSorted members.now }
    ensures { IsTrue result ↔ Pairwise (λ a b. code_cmp a.code b.code ≡ Less) members.now }
{
    for i in 1..members.len() {
        if members[i - 1].code == members[i].code {
            return false;
        }
    }
    true
}

/// The numbers in ascending order.
fn ascending(alloc: Global, numbers: &[u64]) -> Result<Vec<u64>, AllocError>
    ensures moved { IfOk result (λ v. IsPermutation numbers.now v.items) }
    ensures sorted { IfOk result (λ v. IsNonDecreasing v.items) }
{
    let mut sorted = Vec::from_slice(alloc, numbers)?;
    sorted.sort_unstable();
    Ok(sorted)
}

/// Whether no two of the numbers are the same.
fn are_different(numbers: &[u64]) -> bool
    requires { IsNonDecreasing numbers.now }
    ensures { IsTrue result ↔ HasNoTwins numbers.now }
{
    for i in 1..numbers.len() {
        if numbers[i - 1] == numbers[i] {
            return false;
        }
    }
    true
}

/// Whether each allotment is to one of the accounts.
fn are_known(accounts: &[u64], allotted: &[Allotment]) -> bool
    requires { IsNonDecreasing accounts.now }
    ensures { IsTrue result ↔ AllByRecursion (λ a. IsKnown accounts.now a.account) allotted.now }
{
    for allotment in allotted {
        if accounts.binary_search(&allotment.account).is_err() {
            return false;
        }
    }
    true
}

/// Whether no registry has an account twice.
fn have_different_accounts(alloc: Global, members: &[SchemeRegistry]) -> Result<bool, AllocError>
    ensures { IfOk result (λ free. IsTrue free ↔ IsFreeOf AccountTwice members.now) }
{
    for member in members {
        let accounts = ascending(alloc, member.accounts.as_slice())?;
        if !are_different(accounts.as_slice()) {
            return Ok(false);
        }
    }
    Ok(true)
}

/// Whether no allotment is to an account that its registry doesn't have.
fn have_known_accounts(alloc: Global, members: &[SchemeRegistry]) -> Result<bool, AllocError>
    ensures { IfOk result (λ free. IsTrue free ↔ IsFreeOf UnknownAccount members.now) }
{
    for member in members {
        let accounts = ascending(alloc, member.accounts.as_slice())?;
        if !are_known(accounts.as_slice(), member.allotted.as_slice()) {
            return Ok(false);
        }
    }
    Ok(true)
}

/// Puts the blocks in the order of their first units.
fn sort(blocks: &mut [Block])
    ensures moved { IsPermutation blocks.old blocks.new }
    ensures sorted { IsSortedByKey (λ b. first_unit b.raw) unit_cmp blocks.new }
{
    blocks.sort_unstable_by_key(|block| block.first_unit());
}

/// Whether no unit is in two of the blocks. Puts them in the order of their first units: a block that shares a unit
/// with a later one has the first unit of its neighbour.
fn are_apart(blocks: &mut [Block]) -> bool
    ensures { IsTrue result ↔ AllApart blocks.old }
{
    sort(blocks);
    for i in 1..blocks.len() {
        if blocks[i - 1].has(&blocks[i].first_unit()) {
            return false;
        }
    }
    true
}

/// The first fault of registries in order, or `None` where they are those of a scheme.
pub fn first_fault(
    alloc: Global,
    members: &[SchemeRegistry],
) -> Result<Option<SchemeFault>, AllocError>
    requires sorted { AreSorted members.now }
    requires numbered { AreNumbered members.now }
    requires kinds { HaveDifferentKinds members.now }
    ensures some { IfOk result (λ o. IfSome o (IsFirst faults_in_order members.now)) }
    ensures none { IfOk result (λ o. IfNone o (AreMembers members.now)) }
{
    let mut blocks = allotted_blocks(alloc, members)?;
    if !are_few(members, blocks.len()) {
        return Ok(Some(SchemeFault::TooMany));
    }
    if members.len() < LEAST_REGISTRIES {
        return Ok(Some(SchemeFault::TooFew));
    }
    if !have_different_codes(members) {
        return Ok(Some(SchemeFault::CodeTwice));
    }
    if !have_different_accounts(alloc, members)? {
        return Ok(Some(SchemeFault::AccountTwice));
    }
    if !have_known_accounts(alloc, members)? {
        return Ok(Some(SchemeFault::UnknownAccount));
    }
    if !are_apart(blocks.as_mut_slice()) {
        return Ok(Some(SchemeFault::AllotmentOverlap));
    }
    Ok(None)
}
