//! What the check of the books says of slips, and what is read of them.

use bank_books::{RowWrite, Slip, World};
use bank_terms::{OperationRow, Procedure};
use book_check::{BooksFault, check_books};
use book_sums::Kept;
use sample_bank::sample_world;
use std::alloc::Global;
use std::process::Abort;
use world_reads::{slip, slip_count};

/// A post of 25.00 to an account at teller 11.
fn post(account: i64) -> OperationRow {
    OperationRow {
        form: Procedure::Post,
        members: [account, 11, 1, 2_500, 0, 0, 0, 0],
    }
}

/// The sample, where Tess has a slip 5 that was taken with a post to account 101, and this user one of this number.
fn bank_with(
    rt: &impl Abort,
    alloc: Global,
    user: u32,
    number: u32,
    operation: OperationRow,
) -> World {
    let mut world = sample_world(alloc).expect(rt, "memory");
    let plan = vec![in alloc;
        RowWrite::Slip(Slip::new(7, 5, post(101), Vec::new(alloc))),
        RowWrite::Slip(Slip::new(user, number, operation, Vec::new(alloc))),
    ]
    .expect(rt, "memory");
    world.apply(alloc, plan).expect(rt, "memory");
    world
}

#[test]
fn slips_have_limits(rt: HostRuntime) {
    let alloc = rt.alloc();
    for (user, number, account, verdict) in [
        (7, 6, 101, Ok(())),
        (8, 5, 101, Ok(())),
        (7, 1, 101, Ok(())),
        (7, 999_999_999, 101, Ok(())),
        // an account that is not there, which an operation may name
        (7, 6, 999, Ok(())),
        // one that none may name
        (7, 6, 0, Err(BooksFault::Range)),
        // one number twice
        (7, 5, 101, Err(BooksFault::Range)),
        (7, 0, 101, Err(BooksFault::Range)),
        (7, 1_000_000_000, 101, Err(BooksFault::Range)),
        // a user who is not there
        (99, 5, 101, Err(BooksFault::Range)),
    ] {
        let world = bank_with(&rt, alloc, user, number, post(account));
        let kept = Kept::of(alloc, &world).expect(&rt, "memory");
        let checked = check_books(alloc, &world, &kept).expect(&rt, "memory");
        assert!(rt; checked == verdict, "{number} of {user}");
    }
}

#[test]
fn slips_are_found_by_their_user_and_number(rt: HostRuntime) {
    let alloc = rt.alloc();
    let world = bank_with(&rt, alloc, 8, 5, post(102));
    for (user, number, account) in [
        (7, 5, Some(101i64)),
        (8, 5, Some(102)),
        (7, 6, None),
        (9, 5, None),
        (5, 7, None),
    ] {
        let found = slip(alloc, &world, user, number).expect(&rt, "memory");
        let found_account = found.map(|row| row.operation().members[0]);
        assert!(rt; found_account == account, "{number} of {user}");
    }
    for (user, count) in [(7, 1), (8, 1), (9, 0)] {
        assert!(rt; slip_count(&world, user) == count, "{user}");
    }
}
