//! The accounts of a registry, by their numbers.
ghost use Rattle.std.specs.BTreeMap as tree;
ghost use Rattle.std.specs.List.{list_any};
ghost use Rattle.std.specs.Ordering.{nat_cmp};
ghost use Rattle.std.specs.Prelude.{◌≡◌, ◌==◌, ◌+◌, ◌<◌, ◌≤◌, ◌^◌, ℕ, Some, None, option_map, IfOk, if◌then◌else◌};
ghost use Rattle.accounts.specs.Accounts.{opened, with_account_status};
ghost use Rattle.accounts.specs.Tables.{held_at, free_at, with_units, with_fewer_free, with_more_free, with_fewer, share_of};

use crate::reservation::Share;
use crate::unit_holding::AccountStatus;
use std::alloc::Global;
use std::collections::BTreeMap;
use units::NoMemory;

/// An account of the registry: the number of its units, and the number of those that are free.
#[derive(Clone, Copy, Debug, PartialEq, Eq)]
pub(crate) struct Account {
    pub account_status: AccountStatus,
    pub held: u64,
    pub free: u64,
}

/// Open accounts of these numbers, which hold nothing.
pub(crate) fn open_accounts(
    alloc: Global,
    numbers: &[u64],
) -> Result<BTreeMap<u64, Account>, NoMemory>
    ensures { IfOk result (λ m. (n : ℕ)
        → tree.get nat_cmp m n ≡ (if list_any (λ a. a == n) numbers.now then Some opened else None)) }
{
    let mut accounts = BTreeMap::new(alloc);
    for number in numbers {
        let account = Account {
            account_status: AccountStatus::Open,
            held: 0,
            free: 0,
        };
        accounts.insert(*number, account)?;
    }
    Ok(accounts)
}

/// Gives the account of that number the status, if there is such an account.
pub(crate) fn set_account_status(
    accounts: &mut BTreeMap<u64, Account>,
    number: u64,
    account_status: AccountStatus,
)
    ensures { (n : ℕ) → tree.get nat_cmp accounts.new n
        ≡ (if n == number then option_map (with_account_status account_status)
        (tree.get nat_cmp accounts.old n) else tree.get nat_cmp accounts.old n) }
{
    if let Some(account) = accounts.get_mut(&number) {
        account.account_status = account_status;
    }
}

/// Adds `count` free units to the account of that number.
pub(crate) fn put_in(accounts: &mut BTreeMap<u64, Account>, number: u64, count: u64)
    requires held { held_at accounts.old number + count < 2 ^ 64 }
    requires free { free_at accounts.old number + count < 2 ^ 64 }
    ensures { (n : ℕ) → tree.get nat_cmp accounts.new n
        ≡ (if n == number then option_map (with_units count)
        (tree.get nat_cmp accounts.old n) else tree.get nat_cmp accounts.old n) }
{
    if let Some(account) = accounts.get_mut(&number) {
        account.held += count;
        account.free += count;
    }
}

/// Makes `count` of the account's free units reserved.
pub(crate) fn reserve(accounts: &mut BTreeMap<u64, Account>, number: u64, count: u64)
    requires { count ≤ free_at accounts.old number }
    ensures { (n : ℕ) → tree.get nat_cmp accounts.new n
        ≡ (if n == number then option_map (with_fewer_free count)
        (tree.get nat_cmp accounts.old n) else tree.get nat_cmp accounts.old n) }
{
    if let Some(account) = accounts.get_mut(&number) {
        account.free -= count;
    }
}

/// Makes `count` of the account's reserved units free.
fn release(accounts: &mut BTreeMap<u64, Account>, number: u64, count: u64)
    requires { free_at accounts.old number + count < 2 ^ 64 }
    ensures { (n : ℕ) → tree.get nat_cmp accounts.new n
        ≡ (if n == number then option_map (with_more_free count)
        (tree.get nat_cmp accounts.old n) else tree.get nat_cmp accounts.old n) }
{
    if let Some(account) = accounts.get_mut(&number) {
        account.free += count;
    }
}

/// Takes `count` units out of the account.
fn take_out(accounts: &mut BTreeMap<u64, Account>, number: u64, count: u64)
    requires { count ≤ held_at accounts.old number }
    ensures { (n : ℕ) → tree.get nat_cmp accounts.new n
        ≡ (if n == number then option_map (with_fewer count)
        (tree.get nat_cmp accounts.old n) else tree.get nat_cmp accounts.old n) }
{
    if let Some(account) = accounts.get_mut(&number) {
        account.held -= count;
    }
}

/// Makes the shares' units, which were reserved, free.
pub(crate) fn release_all(accounts: &mut BTreeMap<u64, Account>, shares: &[Share])
    requires { (n : ℕ) → free_at accounts.old n + share_of shares.now n < 2 ^ 64 }
    ensures { (n : ℕ) → tree.get nat_cmp accounts.new n
        ≡ option_map (with_more_free (share_of shares.now n)) (tree.get nat_cmp accounts.old n) }
{
    for share in shares {
        release(accounts, share.account, share.count);
    }
}

/// Takes the shares' units, which were reserved, out of their accounts.
pub(crate) fn take_out_all(accounts: &mut BTreeMap<u64, Account>, shares: &[Share])
    requires { (n : ℕ) → share_of shares.now n ≤ held_at accounts.old n }
    ensures { (n : ℕ) → tree.get nat_cmp accounts.new n
        ≡ option_map (with_fewer (share_of shares.now n)) (tree.get nat_cmp accounts.old n) }
{
    for share in shares {
        take_out(accounts, share.account, share.count);
    }
}
