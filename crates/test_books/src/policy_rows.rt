//! What the policy of the sample allows: a user's limit on the items of an operation, and whether that is certified.

use bank_policy::{Policy, best_limit, is_certified, relations_of, triples_of};
use bank_terms::{Cdi, Kind, Procedure};
use sample_bank::sample_world;
use std::alloc::Global;
use std::process::Abort;

fn item(kind: Kind, key: u32) -> Cdi {
    Cdi { kind, key }
}

/// The items that a post touches.
fn of_post(account: u32, teller: u32, branch: u32) -> [Cdi; 5] {
    [
        item(Kind::Account, account),
        item(Kind::Teller, teller),
        item(Kind::Branch, branch),
        item(Kind::History, branch),
        item(Kind::Drawer, teller),
    ]
}

/// The items that a transfer from the first account to the second touches.
fn of_transfer(first: u32, second: u32, teller: u32, branch: u32) -> [Cdi; 6] {
    [
        item(Kind::Account, first),
        item(Kind::Account, second),
        item(Kind::Teller, teller),
        item(Kind::Branch, branch),
        item(Kind::History, branch),
        item(Kind::Drawer, teller),
    ]
}

/// Up to which amount the user may carry out the procedure on these items at moment 700, and whether it is certified on them.
fn authorization_of(
    rt: &impl Abort,
    alloc: Global,
    policy: &Policy,
    user: u32,
    procedure: Procedure,
    items: &[Cdi],
) -> (Option<u32>, bool) {
    let held = triples_of(alloc, policy, user, procedure).expect(rt, "memory");
    let certified = relations_of(alloc, policy, procedure).expect(rt, "memory");
    (
        best_limit(&held, items, 700),
        is_certified(&certified, items),
    )
}

#[test]
fn posts_of_the_sample_have_the_limit_of_their_set(rt: HostRuntime) {
    let alloc = rt.alloc();
    let world = sample_world(alloc).expect(&rt, "memory");
    for (user, account, teller, branch, due) in [
        // Tom: the first branch's accounts up to 500.00, all else up to 10.00.
        (8, 101, 12, 1, (Some(50_000), true)),
        (8, 201, 12, 1, (Some(50_000), true)),
        (8, 150, 12, 1, (Some(1_000), true)),
        (8, 101, 21, 2, (Some(1_000), true)),
        (8, 999_999, 999, 99, (Some(1_000), true)),
        (8, 1_000_000, 12, 1, (None, false)),
        (8, 101, 1_000, 1, (None, false)),
        // Tess: the first branch's accounts alone.
        (7, 102, 11, 1, (Some(999_999), true)),
        (7, 150, 11, 1, (None, true)),
        (7, 101, 21, 2, (None, true)),
        (7, 1_000_000, 11, 1, (None, false)),
        // Carl certifies posts, Sue is not authorized to post.
        (2, 101, 11, 1, (None, true)),
        (9, 101, 11, 1, (None, true)),
    ] {
        let items = of_post(account, teller, branch);
        let given = authorization_of(&rt, alloc, world.policy(), user, Procedure::Post, &items);
        assert!(rt; given == due, "{user} {account} {teller}");
    }
}

#[test]
fn sets_of_the_sample_are_never_joined(rt: HostRuntime) {
    let alloc = rt.alloc();
    let world = sample_world(alloc).expect(&rt, "memory");
    for (user, first, second, due) in [
        // Each of Tess's two sets has one of the accounts, and no set has both.
        (7, 101, 102, (None, true)),
        (7, 101, 101, (Some(50_000), true)),
        (7, 102, 102, (Some(50_000), true)),
        (8, 101, 102, (Some(50_000), true)),
        (8, 101, 150, (Some(1_000), true)),
        (8, 101, 1_000_000, (None, false)),
    ] {
        let items = of_transfer(first, second, 11, 1);
        let given = authorization_of(
            &rt,
            alloc,
            world.policy(),
            user,
            Procedure::Transfer,
            &items,
        );
        assert!(rt; given == due, "{user} {first} {second}");
    }
}

#[test]
fn a_limit_of_nothing_is_an_authorization_all_the_same(rt: HostRuntime) {
    let alloc = rt.alloc();
    let world = sample_world(alloc).expect(&rt, "memory");
    for (user, procedure, account, due) in [
        (7, Procedure::Balance, 102, (Some(0), true)),
        (7, Procedure::Balance, 150, (None, true)),
        (8, Procedure::Balance, 102, (None, true)),
        (7, Procedure::Statement, 201, (Some(0), true)),
        (7, Procedure::Statement, 202, (None, false)),
        (7, Procedure::Accounts, 199, (Some(0), true)),
        (7, Procedure::Accounts, 200, (None, false)),
        (9, Procedure::NewAccount, 500, (Some(0), true)),
    ] {
        let items = [item(Kind::Account, account)];
        let given = authorization_of(&rt, alloc, world.policy(), user, procedure, &items);
        assert!(rt; given == due, "{user} {account}");
    }
}
