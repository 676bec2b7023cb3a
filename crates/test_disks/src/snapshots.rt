//! Snapshots of a bank: what its store returned to each read. Two banks are compared by them.

use money::Fault;
use std::fmt::Debug;
use store_rows::Store;
use test_counter::Runtime;

/// What a store returned of its bank.
#[derive(PartialEq, Eq, Drop)]
pub struct Snapshot {
    /// Of its books, of its policy and of its slips.
    text: String,
    /// What account 101 holds, in cents.
    pub balance: Option<i128>,
    /// Which account the first release of Tess is for.
    pub released: Option<i64>,
}

/// Adds an answer of the store, in a line of its own.
fn add_answer<A: Debug + Drop>(rt: &impl Runtime, text: &mut String, answer: Result<A, Fault>) {
    let answer = answer.expect(rt, "no fault");
    let line = format!(in rt.alloc(); "{answer:?}\n").expect(rt, "memory");
    assert!(rt; text.push_str(line.as_str()).is_ok());
}

/// Adds the balances, the cash and the counts of entries of the sample's accounts, tellers and branches, the days of
/// these, and who holds which drawer.
fn add_places<S: Store>(rt: &impl Runtime, bank: &mut S, text: &mut String) {
    for account in [101, 102, 201] {
        add_answer(rt, text, bank.account(rt.alloc(), account));
    }
    for teller in [11, 12, 21] {
        add_answer(rt, text, bank.teller(rt.alloc(), teller));
    }
    for branch in [1, 2] {
        add_answer(rt, text, bank.branch(rt.alloc(), branch));
    }
    for teller in [11, 12] {
        add_answer(rt, text, bank.drawer(rt.alloc(), teller));
    }
}

/// Adds the first entries of branch 1, which of them are undone, and those of account 101.
fn add_history<S: Store>(rt: &impl Runtime, bank: &mut S, text: &mut String) {
    for number in [1, 2, 3] {
        add_answer(rt, text, bank.entry(rt.alloc(), 1, number));
        add_answer(rt, text, bank.undone(rt.alloc(), 1, number));
    }
    add_answer(rt, text, bank.entries_of(rt.alloc(), 101, 1, 9));
}

/// Adds who has a session open, the first releases of Tess and Tom, the rows of the policy, and what Tess may do.
fn add_policy<S: Store>(rt: &impl Runtime, bank: &mut S, text: &mut String) {
    for user in [7, 8, 9] {
        add_answer(rt, text, bank.user(rt.alloc(), user));
    }
    for user in [7, 8] {
        add_answer(rt, text, bank.release(rt.alloc(), user, 1));
    }
    add_answer(rt, text, bank.policy_rows(rt.alloc()));
    add_answer(rt, text, bank.shown(rt.alloc(), 7, 0, 9, 700));
}

/// Adds how many slips Tess, Tom and Sue have, and the first of them.
fn add_slips<S: Store>(rt: &impl Runtime, bank: &mut S, text: &mut String) {
    for user in [7, 8, 9] {
        add_answer(rt, text, bank.slips(rt.alloc(), user));
        for number in [1, 2] {
            add_answer(rt, text, bank.slip(rt.alloc(), user, number));
        }
    }
}

/// What account 101 holds.
fn balance<S: Store>(rt: &impl Runtime, bank: &mut S) -> Option<i128> {
    let account = bank.account(rt.alloc(), 101).expect(rt, "no fault")?;
    Some(account.balance)
}

/// Which account the first release of Tess is for.
fn released<S: Store>(rt: &impl Runtime, bank: &mut S) -> Option<i64> {
    let release = bank.release(rt.alloc(), 7, 1).expect(rt, "no fault")?;
    Some(release.operation.members[0])
}

/// The snapshot of a store's bank.
pub fn snapshot_of<S: Store>(rt: &impl Runtime, bank: &mut S) -> Snapshot {
    let mut text = String::new(rt.alloc());
    add_places(rt, bank, &mut text);
    add_history(rt, bank, &mut text);
    add_policy(rt, bank, &mut text);
    add_slips(rt, bank, &mut text);
    Snapshot {
        text,
        balance: balance(rt, bank),
        released: released(rt, bank),
    }
}
