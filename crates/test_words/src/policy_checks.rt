//! The check of a small policy, sound as it is, with one row too many.

use bank_policy::{Certifier, ItemSet, Member, Name, Policy, Relation, Triple, User};
use bank_terms::{Kind, MAX_MOMENT, Procedure};
use policy_check::{PolicyFault, check_policy};
use std::alloc::Global;
use std::process::Abort;

/// Tess posts, and certifies posts too.
const OF_TESS: PolicyFault = PolicyFault::Separation {
    user: 7,
    procedure: Procedure::Post,
};

/// Olga, who is an officer, has a triple.
const OF_OLGA: PolicyFault = PolicyFault::OfficerHolds { user: 1 };

fn relation(procedure: Procedure, set: u32, by: u32) -> Relation {
    Relation { procedure, set, by }
}

fn triple(user: u32, procedure: Procedure, limit: u32) -> Triple {
    Triple {
        user,
        procedure,
        set: 1,
        limit,
        first: 0,
        last: MAX_MOMENT,
    }
}

fn of_posts(user: u32) -> Certifier {
    Certifier {
        user,
        procedure: Procedure::Post,
    }
}

fn add_user(rt: &impl Abort, policy: &mut Policy, alloc: Global, user: u32, name: &str) {
    let user = User {
        user,
        name: Name::new(alloc, name).expect(rt, "memory"),
        officer: user == 1,
        suspended: false,
        session: 0,
        on: false,
    };
    policy.add_user(user).expect(rt, "memory");
}

/// Adds a set of the accounts from `low` to `high`.
fn add_set(rt: &impl Abort, policy: &mut Policy, alloc: Global, set: u32, low: u32, high: u32) {
    let accounts = Member {
        kind: Kind::Account,
        low,
        high,
    };
    let members = vec![in alloc; accounts].expect(rt, "memory");
    policy
        .add_set(ItemSet::new(set, members))
        .expect(rt, "memory");
}

fn add_relation(rt: &impl Abort, policy: &mut Policy, relation: Relation) {
    policy.add_relation(relation).expect(rt, "memory");
}

fn add_triple(rt: &impl Abort, policy: &mut Policy, triple: Triple) {
    policy.add_triple(triple).expect(rt, "memory");
}

fn add_certifier(rt: &impl Abort, policy: &mut Policy, certifier: Certifier) {
    policy.add_certifier(certifier).expect(rt, "memory");
}

/// An officer, a certifier of posts, one who has certified transfers and was dismissed, and a teller who posts.
fn small_policy(rt: &impl Abort, alloc: Global) -> Policy {
    let mut policy = Policy::new(alloc);
    for (user, name) in [(7, "Tess"), (1, "Olga"), (2, "Carl"), (3, "Cora")] {
        add_user(rt, &mut policy, alloc, user, name);
    }
    add_set(rt, &mut policy, alloc, 1, 101, 102);
    add_relation(rt, &mut policy, relation(Procedure::Post, 1, 2));
    add_relation(rt, &mut policy, relation(Procedure::Transfer, 1, 3));
    add_triple(rt, &mut policy, triple(7, Procedure::Post, 1_000));
    add_certifier(rt, &mut policy, of_posts(2));
    policy
}

fn is_at_fault(rt: &impl Abort, policy: &Policy, fault: PolicyFault) {
    assert!(rt; check_policy(policy) == Err(fault));
}

#[test]
fn the_small_policy_is_sound(rt: HostRuntime) {
    assert!(rt; check_policy(&small_policy(&rt, rt.alloc())).is_ok());
}

#[test]
fn one_user_more_is_at_fault(rt: HostRuntime) {
    for (user, name) in [
        (7, "Tess"),
        (0, "Nil"),
        (10_000, "Max"),
        (9, ""),
        (9, "of twenty-one letters"),
        (9, "tab\t"),
    ] {
        let mut policy = small_policy(&rt, rt.alloc());
        add_user(&rt, &mut policy, rt.alloc(), user, name);
        is_at_fault(&rt, &policy, PolicyFault::Dangling);
    }
}

#[test]
fn one_set_more_is_at_fault(rt: HostRuntime) {
    for (set, low, high) in [
        (1, 101, 102),
        (0, 101, 102),
        (2, 0, 102),
        (2, 102, 101),
        (2, 1, 1_000_000_000),
    ] {
        let mut policy = small_policy(&rt, rt.alloc());
        add_set(&rt, &mut policy, rt.alloc(), set, low, high);
        is_at_fault(&rt, &policy, PolicyFault::Dangling);
    }
}

#[test]
fn one_relation_more_is_at_fault(rt: HostRuntime) {
    for (set, by) in [(1, 3), (2, 2), (1, 9)] {
        let mut policy = small_policy(&rt, rt.alloc());
        add_relation(&rt, &mut policy, relation(Procedure::Post, set, by));
        is_at_fault(&rt, &policy, PolicyFault::Dangling);
    }
}

#[test]
fn one_triple_more_is_at_fault(rt: HostRuntime) {
    for (user, procedure, limit) in [
        (7, Procedure::Post, 1_000),
        (9, Procedure::Post, 1_000),
        (7, Procedure::Correct, 1_000),
        (7, Procedure::Transfer, 1_000_000_000),
    ] {
        let mut policy = small_policy(&rt, rt.alloc());
        add_triple(&rt, &mut policy, triple(user, procedure, limit));
        is_at_fault(&rt, &policy, PolicyFault::Dangling);
    }
}

/// The small policy, where Tess may make transfers from the first of these moments to the last.
fn with_moments(rt: &impl Abort, alloc: Global, first: u64, last: u64) -> Policy {
    let mut policy = small_policy(rt, alloc);
    let moments = Triple {
        first,
        last,
        ..triple(7, Procedure::Transfer, 1_000)
    };
    add_triple(rt, &mut policy, moments);
    policy
}

#[test]
fn triples_may_begin_and_end_at_any_moment(rt: HostRuntime) {
    for (first, last) in [
        (0, MAX_MOMENT),
        (0, 0),
        (MAX_MOMENT, MAX_MOMENT),
        (800, 800),
        (800, 900),
    ] {
        let policy = with_moments(&rt, rt.alloc(), first, last);
        assert!(rt; check_policy(&policy).is_ok(), "{first} {last}");
    }
}

#[test]
fn a_triple_with_other_moments_is_at_fault(rt: HostRuntime) {
    for (first, last) in [
        (1, 0),
        (801, 800),
        (MAX_MOMENT, MAX_MOMENT - 1),
        (0, MAX_MOMENT + 1),
        (MAX_MOMENT + 1, MAX_MOMENT + 1),
        (MAX_MOMENT + 1, MAX_MOMENT),
        (0, u64::MAX),
    ] {
        let policy = with_moments(&rt, rt.alloc(), first, last);
        is_at_fault(&rt, &policy, PolicyFault::Dangling);
    }
}

#[test]
fn one_certifier_more_is_at_fault(rt: HostRuntime) {
    for user in [2, 9] {
        let mut policy = small_policy(&rt, rt.alloc());
        add_certifier(&rt, &mut policy, of_posts(user));
        is_at_fault(&rt, &policy, PolicyFault::Dangling);
    }
}

#[test]
fn the_least_who_breaks_separation_is_named(rt: HostRuntime) {
    let mut policy = small_policy(&rt, rt.alloc());
    add_certifier(&rt, &mut policy, of_posts(7));
    is_at_fault(&rt, &policy, OF_TESS);

    add_triple(&rt, &mut policy, triple(3, Procedure::Post, 0));
    is_at_fault(&rt, &policy, OF_TESS);
    add_triple(&rt, &mut policy, triple(3, Procedure::Transfer, 0));
    let of_cora = PolicyFault::Separation {
        user: 3,
        procedure: Procedure::Transfer,
    };
    is_at_fault(&rt, &policy, of_cora);

    add_triple(&rt, &mut policy, triple(1, Procedure::Transfer, 0));
    is_at_fault(&rt, &policy, OF_OLGA);
}

#[test]
fn a_fault_names_who_is_at_fault(rt: HostRuntime) {
    for (fault, text) in [
        (OF_TESS, "separation, user 7, procedure post"),
        (OF_OLGA, "officer holds, user 1"),
    ] {
        let printed = format!(in rt.alloc(); "{fault}").expect(&rt, "memory");
        assert!(rt; printed.as_str() == text);
    }
}
