//! What each address pays for.

ghost use Rattle.std.specs.Prelude.{◌≡◌, ◌≤◌, ◌^◌, IfOk, IfErr, sum_by, map};
ghost use Rattle.std.specs.List.{AllByRecursion};
ghost use Rattle.std.specs.List.Sorted.{IsPermutation, IsNonDecreasingBy};
ghost use Rattle.line_model.specs.observer.Accounts.{accounts_of, payer};
ghost use Rattle.call_accounts.specs.Entries.{digit_at, IsRank, IsRanked, account_of_call, account_of_entry, summed};

use line_model::address::Address;
use line_model::call::{Account, CallRecord};
use line_model::fault::Fault;
use std::alloc::{AllocError, Allocator};

/// A call by the address that pays for it.
#[derive(Drop)]
struct AccountEntry {
    /// A number that is in the order of the addresses, so that a sort compares numbers.
    rank: u128,
    /// A copy in the entry, so that reading sorted entries reads no record of a call.
    address: Address,
    segments: u64,
}

impl AccountEntry {
    /// The account of the call alone.
    fn account(&self) -> Account
        ensures { result ≡ account_of_entry self.now }
    {
        Account {
            address: self.address.copied(),
            calls: 1,
            segments: self.segments,
        }
    }
}

/// The address that pays for a call.
fn payer<A: Allocator>(call: &CallRecord<A>) -> &Address
    ensures { result.now ≡ payer call.now }
{
    if call.reverse {
        &call.called
    } else {
        &call.calling
    }
}

/// The digit of the octet at an index, from 1 on, and 0 past the end.
fn digit(octets: &[u8], index: usize) -> u128
    ensures digit { result ≡ digit_at octets.now index }
    ensures few { result ≤ 256 }
{
    match octets.get(index) {
        Some(octet) => u128::from(*octet) + 1,
        None => 0,
    }
}

/// The digits of an address as a number of base 257, which is in the order of the addresses.
fn rank(address: &Address) -> u128
    ensures { IsRank result address.now }
{
    let octets = address.as_bytes();
    let mut rank = 0;
    for index in 0..15 {
        rank = rank * 257 + digit(octets, index);
    }
    rank
}

/// The calls as entries, in their order.
fn entries<A: Allocator>(
    alloc: A,
    calls: &[CallRecord<A>],
) -> Result<Vec<AccountEntry, A>, AllocError>
    ensures entries { IfOk result (λ v.
        map account_of_entry v.items ≡ map account_of_call calls.now) }
    ensures ranked { IfOk result (λ v. AllByRecursion IsRanked v.items) }
{
    let mut entries = Vec::with_capacity(alloc, calls.len())?;
    for call in calls {
        let address = payer(call);
        entries.push(AccountEntry {
            rank: rank(address),
            address: address.copied(),
            segments: call.segments,
        })?;
    }
    Ok(entries)
}

/// Entries in the order of their addresses.
fn by_address<A: Allocator>(mut entries: Vec<AccountEntry, A>) -> Vec<AccountEntry, A>
    ensures permutation { IsPermutation entries.items result.items }
    ensures sorted { IsNonDecreasingBy (λ e. e.rank) result.items }
{
    entries.sort_unstable_by_key(|entry| entry.rank);
    entries
}

/// Adds up the accounts of sorted entries, in which those of one address are neighbours.
fn added_up<A: Allocator>(alloc: A, entries: &[AccountEntry]) -> Result<Vec<Account, A>, AllocError>
    requires few_segments { sum_by (λ e. e.segments) entries.now ≤ 2 ^ 63 }
    ensures { IfOk result (λ v. v.items ≡ summed entries.now) }
{
    let mut accounts = Vec::new(alloc);
    let Some((first, rest)) = entries.split_first() else {
        return Ok(accounts);
    };
    let mut rank = first.rank;
    let mut last = first.account();
    for entry in rest {
        if entry.rank == rank {
            last.calls += 1;
            last.segments += entry.segments;
        } else {
            accounts.push(last)?;
            rank = entry.rank;
            last = entry.account();
        }
    }
    accounts.push(last)?;
    Ok(accounts)
}

/// Returns the accounts of the addresses that pay for calls, each once, by the bytes of the addresses, the absent one
/// first: how many calls it pays for, and their segments. The called address pays where the opening packet asks
/// reverse charging (X.25, 6.18), otherwise the calling one. The order is profile. Fails only when memory is refused.
pub fn accounts_of<A: Allocator + Clone>(
    alloc: A,
    calls: &[CallRecord<A>],
) -> Result<Vec<Account, A>, Fault>
    requires few_segments { sum_by (λ c. c.segments) calls.now ≤ 2 ^ 63 }
    ensures accounts { IfOk result (λ v. v.items ≡ accounts_of calls.now) }
    ensures memory { IfErr result (λ f. f ≡ Fault.Memory) }
{
    let entries = by_address(entries(alloc.clone()?, calls)?);
    Ok(added_up(alloc, &entries)?)
}
