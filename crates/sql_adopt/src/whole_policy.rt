//! A policy put together from the users and the tables of its rows, where each stands in order of its key.

ghost use Rattle.std.specs.Prelude.{◌≡◌, ◌↔◌, map, IfOk, IfSome, IsSome, IsTrue, Some};
ghost use Rattle.bank_policy.specs.Policy.{PolicyLists};
ghost use Rattle.book_kept.specs.Keepable.{IsPolicyKeepable};
ghost use Rattle.sql_adopt.specs.ReadBack.{AreGrantsInOrder, AreUsersOrdered, IsPolicyOf, policy_read_back};

use crate::item_sets::item_sets;
use crate::made::all_made;
use bank_policy::{ItemSet, Policy, PolicyRows};
use book_kept::KeptUser;
use keyed_rows::are_in_order;
use money::Fault;
use sql_whole::{GrantRows, PolicyTables};
use std::alloc::Global;

/// The policy of these rows, or none where a table does not stand in order of its key, or a member is
/// not at its place. A policy whose rows stand in order, each once, is found from its rows.
pub(crate) fn whole_policy(
    alloc: Global,
    users: &[KeptUser],
    tables: PolicyTables,
) -> Result<Option<Policy>, Fault>
    ensures stated { IfOk result (λ found. IfSome found (IsPolicyOf users.now tables)) }
    ensures found { (policy : PolicyLists) → IsPolicyOf users.now tables policy → IsPolicyKeepable policy → IfOk result (λ found. found ≡ Some policy) }
{
    match item_sets(alloc, &tables.sets.sets, &tables.sets.members)? {
        Some(sets) => policy_with(alloc, users, sets, tables.grants),
        None => Ok(None),
    }
}

/// The policy of these users, sets and grants, or none where a list does not stand in order of its key.
fn policy_with(
    alloc: Global,
    users: &[KeptUser],
    sets: Vec<ItemSet>,
    grants: GrantRows,
) -> Result<Option<Policy>, Fault>
    ensures stated { IfOk result (λ found. IfSome found (λ policy. policy ≡ policy_read_back users.now sets.items grants)) }
    ensures found { IsPolicyKeepable (policy_read_back users.now sets.items grants) → IfOk result IsSome }
{
    let users = all_made(alloc, users)?;
    if are_in_order(&users) && are_in_order(&sets) && are_grants_in_order(&grants) {
        Ok(Some(Policy::from_rows(PolicyRows {
            users,
            sets,
            relations: grants.relations,
            triples: grants.triples,
            certifiers: grants.certifiers,
        })))
    } else {
        Ok(None)
    }
}

/// Whether the rows of who may do what stand in order of their keys.
fn are_grants_in_order(grants: &GrantRows) -> bool
    ensures { IsTrue result ↔ AreGrantsInOrder grants.now }
{
    are_in_order(&grants.relations)
        && are_in_order(&grants.triples)
        && are_in_order(&grants.certifiers)
}

/// A policy of these users and no more, or none where they do not stand in order.
pub(crate) fn users_alone(alloc: Global, users: &[KeptUser]) -> Result<Option<Policy>, Fault>
    ensures stated { IfOk result (λ found. IfSome found (λ policy. policy.users ≡ map (λ u. u.row) users.now)) }
    ensures found { AreUsersOrdered users.now → IfOk result IsSome }
{
    let none = GrantRows {
        relations: Vec::new(alloc),
        triples: Vec::new(alloc),
        certifiers: Vec::new(alloc),
    };
    policy_with(alloc, users, Vec::new(alloc), none)
}
