//! The books of the sample after its drawers were put on: their sums, worked out by hand, and what a
//! check says of one number that was changed.

use bank_books::{AccountRecord, BranchRecord, TellerRecord, World, cash_of, holder_of};
use book_check::{BooksFault, check_books};
use book_sums::Kept;
use sample_bank::sample_world;
use std::alloc::Global;
use std::process::Abort;

/// What is kept of the bank, with these numbers in place of teller 12's balance, account 101's
/// balance and the vault of branch 1.
fn kept_with(
    rt: &impl Abort,
    alloc: Global,
    world: &World,
    teller: i128,
    account: i128,
    vault: i128,
) -> Kept {
    let kept = Kept::of(alloc, world).expect(rt, "memory");
    let (mut branches, mut tellers, mut accounts) = (
        Vec::new(alloc),
        Vec::new(alloc),
        Vec::new(alloc),
    );
    for row in kept.branches() {
        let vault = if row.row.branch == 1 {
            vault
        } else {
            row.vault
        };
        branches
            .push(BranchRecord { vault, ..*row })
            .expect(rt, "memory");
    }
    for row in kept.tellers() {
        let balance = if row.row.teller == 12 {
            teller
        } else {
            row.balance
        };
        tellers
            .push(TellerRecord { balance, ..*row })
            .expect(rt, "memory");
    }
    for row in kept.accounts() {
        let balance = if row.row.account == 101 {
            account
        } else {
            row.balance
        };
        accounts
            .push(AccountRecord { balance, ..*row })
            .expect(rt, "memory");
    }
    let users = Vec::from_slice(alloc, kept.users()).expect(rt, "memory");
    Kept::new(branches, tellers, accounts, Vec::new(alloc), users)
}

#[test]
fn sums_of_the_sample_are_those_worked_out_by_hand(rt: HostRuntime) {
    let alloc = rt.alloc();
    let world = sample_world(alloc).expect(&rt, "memory");
    for (branch, place, cash) in [
        (1, 0, 55_000),
        (1, 11, 40_000),
        (1, 12, 5_000),
        (2, 0, 50_000),
        (2, 21, 0),
        (3, 0, 0),
    ] {
        assert!(rt; cash_of(&world, branch, place) == cash);
    }
    for (teller, holder) in [(11, Some(7)), (12, Some(8)), (21, None)] {
        assert!(rt; holder_of(&world, teller) == holder);
    }
    let kept = Kept::of(alloc, &world).expect(&rt, "memory");
    assert!(rt; kept.entries().is_empty());
    assert!(rt;
        kept.users()
            .iter()
            .map(|row| row.user)
            .eq([1u32, 2, 3, 7, 8, 9])
    );
    assert!(rt; kept.users().iter().all(|row| row.releases == 0));
    let first = kept.branches().first().copied().expect(&rt, "branch 1");
    assert!(rt; (first.balance, first.vault, first.drawers) == (60_000, 55_000, 45_000));
    assert!(rt; (first.entries, first.lines, first.accounts) == (0, 4, 2));
    assert!(rt; (first.history, first.cash_entries, first.differences) == (0, 0, 0));
}

#[test]
fn each_changed_number_is_reported_as_its_fault(rt: HostRuntime) {
    let alloc = rt.alloc();
    let world = sample_world(alloc).expect(&rt, "memory");
    for (teller, account, vault, verdict) in [
        (0, 50_000, 55_000, Ok(())),
        (1, 50_000, 55_000, Err(BooksFault::ConditionB { branch: 1 })),
        (0, 50_001, 55_000, Err(BooksFault::ConditionC { branch: 1 })),
        (0, 50_000, 55_001, Err(BooksFault::Cash { branch: 1 })),
        (1_000_000_000_000, 50_000, 55_000, Err(BooksFault::Range)),
        (0, -1, 55_000, Err(BooksFault::Range)),
    ] {
        let kept = kept_with(&rt, alloc, &world, teller, account, vault);
        let checked = check_books(alloc, &world, &kept).expect(&rt, "memory");
        assert!(rt; checked == verdict, "{teller} {account} {vault}");
    }
}
