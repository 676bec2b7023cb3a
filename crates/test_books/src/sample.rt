//! The policy of the sample, and the user of each badge.

use bank_policy::user_row;
use policy_check::check_policy;
use sample_bank::{badge_user, sample_world};
use std::alloc::AllocError;

/// How many rows the policy has, and that it is sound: no row dangles, and nobody may execute what they certify.
#[test]
fn policy_is_sound(rt: HostRuntime) -> Result<(), AllocError> {
    let world = sample_world(rt.alloc())?;
    let policy = world.policy();
    assert!(rt; check_policy(policy).is_ok());
    assert!(rt; (policy.users().len(), policy.certifiers().len()) == (6, 26));
    assert!(rt; (policy.relations().len(), policy.triples().len()) == (18, 21));
    assert!(rt;
        policy
            .sets()
            .iter()
            .map(|row| row.members().len())
            .eq([6usize, 7, 5, 5, 2])
    );
    Ok(())
}

/// Each badge is that of a user of the policy whose first session is open. The officer is Olga alone.
#[test]
fn each_badge_has_its_user(rt: HostRuntime) -> Result<(), AllocError> {
    let world = sample_world(rt.alloc())?;
    let policy = world.policy();
    for (badge, number, name) in [
        (b"olga".as_slice(), 1, "Olga"),
        (b"carl", 2, "Carl"),
        (b"cora", 3, "Cora"),
        (b"tess", 7, "Tess"),
        (b"tom", 8, "Tom"),
        (b"sue", 9, "Sue"),
    ] {
        assert!(rt; badge_user(badge) == Some(number));
        match user_row(policy, number) {
            Some(user) => {
                assert!(rt; user.name.as_str() == name);
                assert!(rt;
                    (user.officer, user.suspended) == (number == 1, false),
                    "{name}"
                );
                assert!(rt; (user.session, user.on) == (1, true), "{name}");
            }
            None => panic!(rt; "{name}"),
        }
    }
    Ok(())
}
