//! The policy of a synthetic bank: a user who may post, and one who certified that.

use bank_policy::{ItemSet, Member, Name, Policy, Relation, Triple, User};
use bank_terms::{Kind, MAX_MOMENT, Procedure};
use money::Fault;
use std::alloc::Global;

/// The user who makes all entries and lines, and may post.
pub const USER: u32 = 1;

/// The user who certified all that there is.
const CERTIFIER: u32 = 2;

/// The greatest number of an item.
const LAST: u32 = 999_999_999;

/// Up to how many cents each triple goes.
const LIMIT: u32 = 999_999;

/// A policy with one user who may post by `triples` triples, and one who certified posts on their sets.
pub(crate) fn synthetic_policy(alloc: Global, triples: u32) -> Result<Policy, Fault> {
    let mut policy = Policy::new(alloc);
    policy.add_user(user(alloc, USER, "Ann")?)?;
    policy.add_user(user(alloc, CERTIFIER, "Bob")?)?;
    for set in 1..=triples {
        let members = if set == triples {
            all_items(alloc)?
        } else {
            one_account(alloc, set)?
        };
        policy.add_set(ItemSet::new(set, members))?;
        add_right(&mut policy, set)?;
    }
    Ok(policy)
}

/// A user whose first session is open.
fn user(alloc: Global, number: u32, name: &str) -> Result<User, Fault> {
    Ok(User {
        user: number,
        name: Name::new(alloc, name)?,
        officer: false,
        suspended: false,
        session: 1,
        on: true,
    })
}

/// The items of the last set: all that a post can touch.
fn all_items(alloc: Global) -> Result<Vec<Member>, Fault> {
    let mut members = Vec::new(alloc);
    for kind in [
        Kind::Account,
        Kind::Teller,
        Kind::Branch,
        Kind::History,
        Kind::Drawer,
    ] {
        members.push(Member {
            kind,
            low: 1,
            high: LAST,
        })?;
    }
    Ok(members)
}

/// The items of every other set: one account.
fn one_account(alloc: Global, account: u32) -> Result<Vec<Member>, Fault> {
    let mut members = Vec::new(alloc);
    members.push(Member {
        kind: Kind::Account,
        low: account,
        high: account,
    })?;
    Ok(members)
}

/// Certifies posts on a set, and lets the user post on it.
fn add_right(policy: &mut Policy, set: u32) -> Result<(), Fault> {
    policy.add_relation(Relation {
        procedure: Procedure::Post,
        set,
        by: CERTIFIER,
    })?;
    policy.add_triple(Triple {
        user: USER,
        procedure: Procedure::Post,
        set,
        limit: LIMIT,
        first: 0,
        last: MAX_MOMENT,
    })?;
    Ok(())
}
