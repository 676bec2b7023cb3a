//! The World that the eight opening lists state together: books of three lists, and a policy of five.

ghost use Rattle.std.specs.Prelude.{◌≡◌, ◌⊎◌, [], IfErr, IfOk, Ok, Err, map};
ghost use Rattle.std.specs.List.Sorted.{IsNonDecreasingBy};
ghost use Rattle.bank_books.specs.Room.{AreInOrder, world_of};
ghost use Rattle.bank_policy.specs.Policy.{PolicyLists};
ghost use Rattle.bank_policy.specs.PolicyKeys.{set_key};
ghost use Rattle.list_opening.specs.Opening.{IsReported, ledger_of, opened, opening, policy_of, sets_of};

use crate::item_sets::item_sets;
use crate::list_fault::{ListFault, ListName};
use crate::reading::{read_list, read_triples};
use crate::set_member::SetMember;
use bank_books::{Lists, World};
use bank_policy::{ItemSet, Policy, PolicyRows};
use std::alloc::Global;

/// The books that three lists state, in which nothing is entered yet; or the first bad record.
fn read_books(
    alloc: Global,
    branches: &[u8],
    tellers: &[u8],
    accounts: &[u8],
) -> Result<Lists, ListFault>
    ensures stated { IfOk result (λ lists. ledger_of branches.now tellers.now accounts.now ≡ Ok (record { branches = lists.branches.items; tellers = lists.tellers.items; accounts = lists.accounts.items })) }
    ensures opened { IfOk result (λ lists. (policy : PolicyLists) → world_of lists policy 0 ≡ opened (record { branches = lists.branches.items; tellers = lists.tellers.items; accounts = lists.accounts.items }) policy) }
    ensures in_order { IfOk result AreInOrder }
    ensures bad { IfErr result (λ fault. (fault ≡ ListFault.Memory) ⊎ (ledger_of branches.now tellers.now accounts.now ≡ Err fault)) }
{
    let mut lists = Lists::new(alloc);
    lists.branches = read_list(alloc, ListName::Branches, branches)?;
    lists.tellers = read_list(alloc, ListName::Tellers, tellers)?;
    lists.accounts = read_list(alloc, ListName::Accounts, accounts)?;
    Ok(lists)
}

/// The sets of a list of members, in order of their numbers; or its first bad record.
fn read_sets(alloc: Global, sets: &[u8]) -> Result<Vec<ItemSet>, ListFault>
    ensures stated { IfOk result (λ rows. sets_of sets.now ≡ Ok rows.items) }
    ensures in_order { IfOk result (λ rows. IsNonDecreasingBy set_key rows.items) }
    ensures bad { IfErr result (λ fault. (fault ≡ ListFault.Memory) ⊎ (sets_of sets.now ≡ Err fault)) }
{
    let members: Vec<SetMember> = read_list(alloc, ListName::Sets, sets)?;
    Ok(item_sets(alloc, &members)?)
}

/// The policy that five lists state, or the first bad record.
fn read_policy(
    alloc: Global,
    users: &[u8],
    sets: &[u8],
    relations: &[u8],
    triples: &[u8],
    certifiers: &[u8],
) -> Result<Policy, ListFault>
    ensures stated { IfOk result (λ policy. policy_of users.now sets.now relations.now triples.now certifiers.now ≡ Ok policy) }
    ensures bad { IfErr result (λ fault. (fault ≡ ListFault.Memory) ⊎ (policy_of users.now sets.now relations.now triples.now certifiers.now ≡ Err fault)) }
{
    let users = read_list(alloc, ListName::Users, users)?;
    let sets = read_sets(alloc, sets)?;
    let relations = read_list(alloc, ListName::Relations, relations)?;
    let triples = read_triples(alloc, triples)?;
    let certifiers = read_list(alloc, ListName::Certifiers, certifiers)?;
    Ok(Policy::from_rows(PolicyRows {
        users,
        sets,
        relations,
        triples,
        certifiers,
    }))
}

/// The World that the texts of the eight opening lists state, which are given in the order of `ListName`. Every branch is on
/// its first day, and nothing is entered. The fault is the first bad record of the first list that has one, or that memory
/// was refused, which may come at any record. Rows of one key stand in the order of their records.
pub fn read_lists(alloc: Global, texts: &[&[u8]; 8]) -> Result<World, ListFault>
    ensures { IsReported (opening (map (λ t. t.now) texts.now)) result }
{
    let [
        branches,
        tellers,
        accounts,
        users,
        sets,
        relations,
        triples,
        certifiers,
    ] = *texts;
    let books = read_books(alloc, branches, tellers, accounts)?;
    let policy = read_policy(alloc, users, sets, relations, triples, certifiers)?;
    Ok(World::from_lists(books, policy, 0).unwrap())
}
