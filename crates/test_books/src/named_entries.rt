//! What the check of the books says of an entry that names other entries.

use bank_books::{Entry, EntryForm, RowWrite, World};
use book_check::{BooksFault, check_books};
use book_sums::Kept;
use money::Delta;
use sample_bank::sample_world;
use std::alloc::Global;
use std::process::Abort;

/// An entry of 100 cents of the branch, whose turn is its number there. Branch 1 has its entries on
/// account 101 at teller 11, branch 2 on account 201 at teller 21.
fn entry(rt: &impl Abort, branch: u32, number: u32) -> Entry {
    let (account, teller) = if branch == 1 { (101, 11) } else { (201, 21) };
    Entry {
        branch,
        number,
        account,
        turn: number,
        teller,
        delta: Delta::new(100).expect(rt, "100 cents"),
        moment: 0,
        day: 1,
        user: 7,
        form: EntryForm::Post,
        partner: 0,
        undoes: 0,
    }
}

/// The sample with entries 1 and 2 of branch 1, the second of which names these, and entries 1 to 3 of
/// branch 2.
fn bank_that_names(rt: &impl Abort, alloc: Global, partner: u32, undoes: u32) -> World {
    let mut world = sample_world(alloc).expect(rt, "memory");
    let naming = Entry {
        partner,
        undoes,
        ..entry(rt, 1, 2)
    };
    let plan = vec![in alloc;
        RowWrite::Entry(entry(rt, 1, 1)),
        RowWrite::Entry(entry(rt, 2, 1)),
        RowWrite::Entry(entry(rt, 2, 2)),
        RowWrite::Entry(entry(rt, 2, 3)),
        RowWrite::Entry(naming),
    ]
    .expect(rt, "memory");
    world.apply(alloc, plan).expect(rt, "memory");
    world
}

#[test]
fn entries_name_entries_of_their_branch(rt: HostRuntime) {
    let alloc = rt.alloc();
    for (partner, undoes, verdict) in [
        (0, 0, Ok(())),
        (1, 0, Ok(())),
        (0, 1, Ok(())),
        // itself, which is there
        (2, 2, Ok(())),
        // one that is not there
        (4, 0, Err(BooksFault::Range)),
        (0, 4, Err(BooksFault::Range)),
        // one that is there in branch 2 alone
        (3, 0, Err(BooksFault::Range)),
        (0, 3, Err(BooksFault::Range)),
    ] {
        let world = bank_that_names(&rt, alloc, partner, undoes);
        let kept = Kept::of(alloc, &world).expect(&rt, "memory");
        let checked = check_books(alloc, &world, &kept).expect(&rt, "memory");
        assert!(rt; checked == verdict, "{partner} {undoes}");
    }
}
