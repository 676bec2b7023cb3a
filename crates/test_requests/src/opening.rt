//! Synthetic banks, with the policy of the sample, and its branches, tellers and accounts.

use crate::amounts::{MOST, cents};
use bank_books::{Account, Branch, CashLine, LineForm, RowWrite, Teller, World};
use book_check::check_books;
use book_sums::Kept;
use sample_bank::sample_policy;
use std::alloc::Global;
use std::process::Abort;

/// What a synthetic bank opens with, in cents.
#[derive(Clone, Copy)]
pub(crate) struct Opening {
    /// The balances of accounts 101, 102 and 201. An account may not fall below zero or, where that is less, below
    /// what it opens with.
    pub(crate) accounts: [i64; 3],
    /// The balances of tellers 11, 12 and 21.
    pub(crate) tellers: [i64; 3],
    /// The balances of branches 1 and 2.
    pub(crate) branches: [i64; 2],
    /// The cash of the vault of branch 1.
    pub(crate) cash: i64,
}

/// What the sample bank opens with.
pub(crate) const SAMPLE: Opening = Opening {
    accounts: [50_000, 0, 30_000],
    tellers: [60_000, 0, 20_000],
    branches: [60_000, 20_000],
    cash: 100_000,
};

/// Account 102 stands at the greatest amount, and teller 21 and branch 2 with it.
pub(crate) const TARGET_AT_MOST: Opening = Opening {
    accounts: [1_000, MOST, 0],
    tellers: [1_000, 0, MOST],
    branches: [1_000, MOST],
    cash: 100_000,
};

/// The vault of branch 1 has the greatest amount of cash.
pub(crate) const VAULT_AT_MOST: Opening = Opening {
    cash: MOST,
    ..SAMPLE
};

/// A bank that opens so, with no drawer on.
pub(crate) fn opened(rt: &impl Abort, alloc: Global, opening: Opening) -> World {
    let policy = sample_policy(alloc).expect(rt, "memory");
    let mut world = World::new(alloc, policy);
    add_branches(rt, &mut world, opening);
    add_tellers(rt, &mut world, opening);
    add_accounts(rt, &mut world, opening);
    world
}

fn add_branches(rt: &impl Abort, world: &mut World, opening: Opening) {
    let [first, second] = opening.branches;
    for (branch, opening, cash) in [(1, first, opening.cash), (2, second, 50_000)] {
        let row = Branch {
            branch,
            opening: cents(rt, opening),
            cash: cents(rt, cash),
            day: 1,
        };
        world.add_branch(row).expect(rt, "memory");
    }
}

fn add_tellers(rt: &impl Abort, world: &mut World, opening: Opening) {
    let [first, second, other] = opening.tellers;
    for (teller, branch, opening) in [(11, 1, first), (12, 1, second), (21, 2, other)] {
        let row = Teller {
            teller,
            branch,
            opening: cents(rt, opening),
        };
        world.add_teller(row).expect(rt, "memory");
    }
}

fn add_accounts(rt: &impl Abort, world: &mut World, opening: Opening) {
    let [first, second, other] = opening.accounts;
    for (account, home, opening) in [(101, 1, first), (102, 1, second), (201, 2, other)] {
        add_account(rt, world, account, home, opening);
    }
}

fn add_account(rt: &impl Abort, world: &mut World, account: u32, home: u32, opening: i64) {
    let row = Account {
        account,
        home,
        opening: cents(rt, opening),
        floor: cents(rt, opening.min(0)),
    };
    world.add_account(row).expect(rt, "memory");
}

/// Writes lines into the cash book of branch 1, which bear these places, amounts in cents, forms and users, and the
/// numbers from 1 on.
pub(crate) fn write_lines(
    rt: &impl Abort,
    alloc: Global,
    world: &mut World,
    lines: &[(u32, i64, LineForm, u32)],
) {
    let mut number = 0u32;
    for &(place, amount, form, user) in lines {
        number = number.saturating_add(1);
        let line = CashLine {
            branch: 1,
            number,
            place,
            amount: cents(rt, amount),
            form,
            moment: 0,
            day: 1,
            user,
        };
        let plan = vec![in alloc; RowWrite::Line(line)].expect(rt, "memory");
        world.apply(alloc, plan).expect(rt, "memory");
    }
}

/// Has Tess and Tom put drawers 11 and 12 on as in the sample.
fn put_drawers_on(rt: &impl Abort, alloc: Global, world: &mut World) {
    let lines = [
        (0, -40_000, LineForm::On, 7),
        (11, 40_000, LineForm::On, 7),
        (0, -5_000, LineForm::On, 8),
        (12, 5_000, LineForm::On, 8),
    ];
    write_lines(rt, alloc, world, &lines);
}

/// A bank that opens so, and then Tess and Tom have put drawers 11 and 12 on as in the sample.
pub(crate) fn with_drawers_on(rt: &impl Abort, alloc: Global, opening: Opening) -> World {
    let mut world = opened(rt, alloc, opening);
    put_drawers_on(rt, alloc, &mut world);
    world
}

/// A bank whose account 101, its teller 11 and its branch 1 stand at this balance, with drawers 11 and 12 on.
pub(crate) fn opening_at(rt: &impl Abort, alloc: Global, balance: i64) -> World {
    let opening = Opening {
        accounts: [balance, 0, 20_000],
        tellers: [balance, 0, 20_000],
        branches: [balance, 20_000],
        cash: 100_000,
    };
    with_drawers_on(rt, alloc, opening)
}

/// A bank whose teller 12 and branch 1 stand at this balance, with drawers 11 and 12 on. Account 101 has 10.00, and
/// account 102 owes as much.
pub(crate) fn teller_12_at(rt: &impl Abort, alloc: Global, balance: i64) -> World {
    let against = 0i64.saturating_sub(balance);
    let opening = Opening {
        accounts: [1_000, -1_000, 0],
        tellers: [0, balance, against],
        branches: [balance, against],
        cash: 100_000,
    };
    with_drawers_on(rt, alloc, opening)
}

/// A bank whose drawer 11, which Tess holds, is 9 cents below the greatest amount. Nobody holds drawer 12, and the vault
/// has 109 cents.
pub(crate) fn with_a_full_drawer(rt: &impl Abort, alloc: Global) -> World {
    let mut world = opened(rt, alloc, VAULT_AT_MOST);
    let lines = [
        (0, -(MOST - 109), LineForm::On, 7),
        (11, MOST - 109, LineForm::On, 7),
        (11, 100, LineForm::CashEntry, 7),
    ];
    write_lines(rt, alloc, &mut world, &lines);
    world
}

/// A bank whose cash that came with entries is the greatest amount. It is in the vault, and drawer 11, which Tess holds,
/// is empty.
pub(crate) fn with_all_cash_of_entries(rt: &impl Abort, alloc: Global) -> World {
    let mut world = opened(rt, alloc, Opening { cash: 0, ..SAMPLE });
    let lines = [
        (0, 0, LineForm::On, 7),
        (11, 0, LineForm::On, 7),
        (11, MOST, LineForm::CashEntry, 7),
        (11, -MOST, LineForm::Move, 7),
        (0, MOST, LineForm::Move, 7),
    ];
    write_lines(rt, alloc, &mut world, &lines);
    world
}

/// Asks for books that hold.
fn holds(rt: &impl Abort, alloc: Global, world: World) {
    let kept = Kept::of(alloc, &world).expect(rt, "memory");
    let checked = check_books(alloc, &world, &kept).expect(rt, "memory");
    assert!(rt; checked.is_ok());
}

#[test]
fn synthetic_books_hold(rt: HostRuntime) {
    let alloc = rt.alloc();
    for opening in [SAMPLE, TARGET_AT_MOST, VAULT_AT_MOST] {
        holds(&rt, alloc, opened(&rt, alloc, opening));
        holds(&rt, alloc, with_drawers_on(&rt, alloc, opening));
    }
    for balance in [MOST, -MOST] {
        holds(&rt, alloc, teller_12_at(&rt, alloc, balance));
    }
}

#[test]
fn synthetic_books_at_the_ends_of_the_range_hold(rt: HostRuntime) {
    let alloc = rt.alloc();
    holds(&rt, alloc, opening_at(&rt, alloc, MOST));
    holds(&rt, alloc, with_a_full_drawer(&rt, alloc));
    holds(&rt, alloc, with_all_cash_of_entries(&rt, alloc));
}
