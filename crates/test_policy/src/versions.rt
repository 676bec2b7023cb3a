//! The greatest version of a policy, and a plan that changes no policy.

use bank_books::{Lists, Release, RowWrite, World};
use bank_terms::{MAX_VERSION, OperationRow, Procedure};
use sample_bank::sample_policy;
use store_rows::{ListStore, PolicyReads, Store};

/// A release that Sue has given Tess.
const GIVEN: Release = Release {
    user: 7,
    number: 1,
    giver: 9,
    branch: 1,
    day: 1,
    operation: OperationRow {
        form: Procedure::Post,
        members: [0; 8],
    },
    used: false,
};

#[test]
fn the_greatest_version_refuses_no_plan_of_the_books(rt: HostRuntime) {
    let alloc = rt.alloc();
    let policy = sample_policy(alloc).expect(&rt, "memory");
    let world = World::from_lists(Lists::new(alloc), policy, MAX_VERSION);
    let mut store = ListStore::new(world.expect(&rt, "rows in order"));
    let plan = vec![in alloc; RowWrite::Release(GIVEN)].expect(&rt, "memory");
    assert!(rt; store.apply(alloc, plan).is_ok());
    assert!(rt; store.release(alloc, 7, 1) == Ok(Some(GIVEN)));
    assert!(rt; store.version(alloc) == Ok(MAX_VERSION));
}
