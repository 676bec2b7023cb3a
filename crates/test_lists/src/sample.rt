//! The sample's lists state the sample bank as it is opened, before anyone had a session.

use crate::sample_lists::{BADGES, OPENING};
use list_opening::{read_badges, read_lists};
use sample_bank::{badge_user, opened_world};
use std::test::Fail;

#[test]
fn the_lists_state_the_books_of_the_sample(rt: HostRuntime) -> Result<(), Fail> {
    let world = read_lists(rt.alloc(), &OPENING)?;
    let opened = opened_world(rt.alloc())?;
    assert!(rt; world.branches() == opened.branches());
    assert!(rt; world.tellers() == opened.tellers());
    assert!(rt; world.accounts() == opened.accounts());
    assert!(rt; world.entries().is_empty());
    assert!(rt; world.lines().is_empty());
    assert!(rt; world.proofs().is_empty());
    assert!(rt; world.releases().is_empty());
    assert!(rt; world.version() == 0);
    Ok(())
}

#[test]
fn the_lists_state_the_policy_of_the_sample(rt: HostRuntime) -> Result<(), Fail> {
    let world = read_lists(rt.alloc(), &OPENING)?;
    let opened = opened_world(rt.alloc())?;
    let (policy, due) = (world.policy(), opened.policy());
    assert!(rt; policy.relations() == due.relations());
    assert!(rt; policy.triples() == due.triples());
    assert!(rt; policy.certifiers() == due.certifiers());
    assert!(rt; policy.sets().len() == due.sets().len());
    for (set, due) in policy.sets().iter().zip(due.sets()) {
        assert!(rt; set.set() == due.set());
        assert!(rt; set.members() == due.members());
    }
    assert!(rt; policy.users().len() == due.users().len());
    for (user, due) in policy.users().iter().zip(due.users()) {
        assert!(rt; user.user == due.user);
        assert!(rt; user.name.as_str() == due.name.as_str());
        assert!(rt; user.officer == due.officer);
        assert!(rt; !user.suspended);
        assert!(rt; user.session == 0);
        assert!(rt; !user.on);
    }
    Ok(())
}

#[test]
fn the_lists_have_as_many_rows_as_the_sample(rt: HostRuntime) -> Result<(), Fail> {
    let world = read_lists(rt.alloc(), &OPENING)?;
    let policy = world.policy();
    let mut members = 0;
    for set in policy.sets() {
        members += set.members().len();
    }
    assert!(rt; policy.users().len() == 6);
    assert!(rt; policy.certifiers().len() == 26);
    assert!(rt; policy.sets().len() == 5);
    assert!(rt; members == 25);
    assert!(rt; policy.relations().len() == 18);
    assert!(rt; policy.triples().len() == 21);
    Ok(())
}

#[test]
fn the_badges_are_those_of_the_sample(rt: HostRuntime) -> Result<(), Fail> {
    let badges = read_badges(rt.alloc(), BADGES)?;
    for badge in [
        "olga", "carl", "cora", "tess", "tom", "sue", "Olga", "ol", "olga ", "",
    ] {
        assert!(rt; badges.user_of(badge.as_bytes()) == badge_user(badge.as_bytes()));
    }
    Ok(())
}
