//! Reads of a small World: entries of an account, the accounts that a user may list, and rows of the policy.

use bank_books::{Account, Entry, EntryForm, Lists, World};
use bank_policy::{Certifier, ItemSet, Member, Name, Policy, Relation, Triple, User};
use bank_terms::{Kind, Procedure};
use money::{Cents, Delta};
use std::alloc::Global;
use std::process::Abort;
use world_reads::{PolicyKey, PolicyRow, entries_of, entry_at, next_shown, policy_rows, shown};

fn cents(rt: &impl Abort, amount: i64) -> Cents {
    Cents::new(amount).expect(rt, "an amount of money")
}

fn member(low: u32, high: u32) -> Member {
    Member {
        kind: Kind::Account,
        low,
        high,
    }
}

fn add_users(rt: &impl Abort, alloc: Global, policy: &mut Policy) {
    for (user, name, session) in [(7, "Tess", 3), (2, "Carl", 0)] {
        let user = User {
            user,
            name: Name::new(alloc, name).expect(rt, "memory"),
            officer: false,
            suspended: false,
            session,
            on: session != 0,
        };
        policy.add_user(user).expect(rt, "memory");
    }
}

fn add_set(rt: &impl Abort, alloc: Global, policy: &mut Policy) {
    let members = vec![in alloc; member(101, 102), member(105, 106)].expect(rt, "memory");
    policy
        .add_set(ItemSet::new(4, members))
        .expect(rt, "memory");
}

/// A user who may list the accounts 101 to 102 and 105 to 106 from moment 800 to 900, and one who certified that.
fn small_policy(rt: &impl Abort, alloc: Global) -> Policy {
    let mut policy = Policy::new(alloc);
    let procedure = Procedure::Accounts;
    add_users(rt, alloc, &mut policy);
    add_set(rt, alloc, &mut policy);
    policy
        .add_certifier(Certifier { user: 2, procedure })
        .expect(rt, "memory");
    policy
        .add_relation(Relation {
            procedure,
            set: 4,
            by: 2,
        })
        .expect(rt, "memory");
    policy
        .add_triple(Triple {
            user: 7,
            procedure,
            set: 4,
            limit: 0,
            first: 800,
            last: 900,
        })
        .expect(rt, "memory");
    policy
}

/// An entry of 500 cents, or of 500 less where it undoes another.
fn entry_row(rt: &impl Abort, branch: u32, number: u32, turn: u32, undoes: u32) -> Entry {
    let (delta, form) = if undoes == 0 {
        (500, EntryForm::Post)
    } else {
        (-500, EntryForm::Correction)
    };
    Entry {
        branch,
        number,
        account: 101,
        turn,
        teller: if branch == 1 { 11 } else { 21 },
        delta: Delta::new(delta).expect(rt, "an amount to add"),
        moment: 9,
        day: 1,
        user: 7,
        form,
        partner: 0,
        undoes,
    }
}

fn add_accounts(rt: &impl Abort, lists: &mut Lists) {
    for account in [101, 103, 105] {
        let row = Account {
            account,
            home: 1,
            opening: cents(rt, 1_000),
            floor: cents(rt, 0),
        };
        lists.accounts.push(row).expect(rt, "memory");
    }
}

fn add_entries(rt: &impl Abort, lists: &mut Lists) {
    for (branch, number, turn, undoes) in [(1, 1, 1, 0), (2, 1, 2, 0), (2, 2, 3, 1)] {
        let row = entry_row(rt, branch, number, turn, undoes);
        lists.entries.push(row).expect(rt, "memory");
    }
}

/// Three accounts, of which 101 has turns at two branches, and the last undoes the one before it.
fn small_world(rt: &impl Abort, alloc: Global) -> World {
    let mut lists = Lists::new(alloc);
    add_accounts(rt, &mut lists);
    add_entries(rt, &mut lists);
    World::from_lists(lists, small_policy(rt, alloc), 0).expect(rt, "rows in order")
}

#[test]
fn entries_of_an_account_are_returned(rt: HostRuntime) {
    let world = small_world(&rt, rt.alloc());
    let balance_after = entry_at(&world, 101, 2).map(|row| row.balance_after);
    assert!(rt; balance_after == Some(2_000));
    let rows = entries_of(rt.alloc(), &world, 101, 2, 5).expect(&rt, "memory");
    let turns = rows.iter().map(|row| (row.row.turn, row.balance_after));
    assert!(rt; turns.eq([(2, 2_000), (3, 1_500)]));
    let first = entries_of(rt.alloc(), &world, 101, 1, 1).expect(&rt, "memory");
    assert!(rt; first.len() == 1);
}

#[test]
fn accounts_between_intervals_are_left_out(rt: HostRuntime) {
    let world = small_world(&rt, rt.alloc());
    let rows = shown(rt.alloc(), &world, 7, 0, 9, 800).expect(&rt, "memory");
    assert!(rt; rows.iter().map(|row| row.row.account).eq([101, 105]));
    let next = next_shown(rt.alloc(), &world, 7, 101, 800);
    assert!(rt; next == Ok(rows.get(1).copied()));
}

#[test]
fn accounts_are_shown_up_to_their_count(rt: HostRuntime) {
    let world = small_world(&rt, rt.alloc());
    let first = shown(rt.alloc(), &world, 7, 0, 1, 800).expect(&rt, "memory");
    assert!(rt; first.len() == 1);
    assert!(rt; next_shown(rt.alloc(), &world, 2, 0, 800) == Ok(None));
}

#[test]
fn accounts_are_shown_while_the_triple_is_valid(rt: HostRuntime) {
    let world = small_world(&rt, rt.alloc());
    for (moment, count) in [(799, 0), (800, 2), (900, 2), (901, 0)] {
        let rows = shown(rt.alloc(), &world, 7, 0, 9, moment).expect(&rt, "memory");
        assert!(rt; rows.len() == count, "{moment}");
        let next = next_shown(rt.alloc(), &world, 7, 0, moment).expect(&rt, "memory");
        assert!(rt; next.is_some() == (count > 0), "{moment}");
    }
}

#[test]
fn lines_of_the_policy_are_returned(rt: HostRuntime) {
    let world = small_world(&rt, rt.alloc());
    let rows = policy_rows(rt.alloc(), &world).expect(&rt, "memory");
    assert!(rt; rows.len() == 7);
    assert!(rt; rows[0].key() == PolicyKey::User { user: 2 });
    assert!(rt; rows[4].key() == PolicyKey::Member { set: 4, place: 2 });
    assert!(rt; rows[3].key().is_before(rows[4].key()));
    assert!(rt; matches!(&rows[1], PolicyRow::User(row) if row.name.as_str() == "Tess"));
}
