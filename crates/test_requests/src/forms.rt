//! The operations that are asked for. Each is at branch 1 but a post, which names its branch.

use crate::amounts::delta;
use counter_ops::{Balance, Correct, DrawerOn, MoveCash, Post, Transfer};
use decide::Op;
use std::process::Abort;

/// A post of `added` cents.
pub(crate) fn post(rt: &impl Abort, account: u32, teller: u32, branch: u32, added: i64) -> Op {
    Op::Post(Post {
        account,
        branch,
        delta: delta(rt, added),
        teller,
    })
}

/// A transfer at teller 12, who is Tom's.
pub(crate) fn transfer(source: u32, target: u32, amount: u32) -> Op {
    Op::Transfer(Transfer {
        source,
        target,
        teller: 12,
        branch: 1,
        amount,
    })
}

/// The correction of an entry that names this account and added so much to it.
pub(crate) fn correct(
    rt: &impl Abort,
    entry: u32,
    account: u32,
    other: u32,
    teller: u32,
    added: i64,
) -> Op {
    Op::Correct(Correct {
        branch: 1,
        entry,
        account,
        other,
        teller,
        delta: delta(rt, added),
    })
}

/// A drawer put on with so much cash.
pub(crate) fn on(teller: u32, cash: u32) -> Op {
    Op::DrawerOn(DrawerOn {
        teller,
        branch: 1,
        cash,
    })
}

/// Cash moved from one place to another. The vault is 0.
pub(crate) fn moved(source: u32, target: u32, amount: u32) -> Op {
    Op::MoveCash(MoveCash {
        source,
        target,
        branch: 1,
        amount,
    })
}

/// The question for the balance of an account.
pub(crate) fn balance(account: u32) -> Op {
    Op::Balance(Balance { account })
}
