//! Which rule denies a request first, judged by rows that the sample never has.

use bank_books::{BranchRecord, Slip};
use counter_ops::NewAccount;
use decide::{
    Asked, BookRows, Loaded, Op, OpeningRows, OperationRows, PolicyRows, Request, Rule, SlipRows,
    Who, first_rule,
};
use sample_bank::sample_world;
use std::alloc::Global;
use std::process::Abort;
use store_rows::{BookReads, ListStore, PolicyReads};

/// A request of this user, in this session of theirs, at the moment 700.
fn request(user: u32, session: u32, asked: Asked) -> Request {
    Request {
        who: Who {
            user: Some(user),
            session,
            release: 0,
            slip: 0,
        },
        moment: 700,
        asked,
    }
}

/// The first rule against an operation that this user asks for in their session 1, and that is judged by these rows.
fn first_against(policy: PolicyRows, books: BookRows, user: u32, op: Op) -> Option<Rule> {
    let rows = Loaded::Operation(OperationRows {
        policy,
        books,
        slip: SlipRows {
            found: None,
            count: 0,
        },
    });
    first_rule(&rows, &request(user, 1, Asked::Operation(op)))
}

/// The sample in lists.
fn sample(rt: &impl Abort, alloc: Global) -> ListStore {
    ListStore::new(sample_world(alloc).expect(rt, "memory"))
}

/// The rows of the policy by which an operation of this user is judged.
fn policy_of(
    rt: &impl Abort,
    alloc: Global,
    store: &mut ListStore,
    user: u32,
    op: &Op,
) -> PolicyRows {
    let row = store.user(alloc, user).expect(rt, "no fault");
    let relations = store
        .relations_of(alloc, op.procedure())
        .expect(rt, "no fault");
    let held = store
        .triples_of(alloc, user, op.procedure())
        .expect(rt, "no fault");
    PolicyRows {
        standing: row.map(|row| row.standing),
        relations,
        held,
        released: None,
    }
}

/// The opening of an account at the first branch.
fn opening(account: u32) -> Op {
    Op::NewAccount(NewAccount {
        account,
        branch: 1,
        floor: 0,
    })
}

/// The first rule against Sue's opening an account at a branch that has this number of them.
fn first_against_opening(
    rt: &impl Abort,
    alloc: Global,
    store: &mut ListStore,
    account: u32,
    accounts: u64,
) -> Option<Rule> {
    let op = opening(account);
    let policy = policy_of(rt, alloc, store, 9, &op);
    let there = store.account(alloc, account).expect(rt, "no fault");
    let branch = store.branch(alloc, 1).expect(rt, "no fault");
    let branch = branch.map(|row| BranchRecord { accounts, ..row });
    let books = BookRows::NewAccount(OpeningRows::of(there, branch));
    first_against(policy, books, 9, op)
}

/// The slip of number 5 of Sue that was taken with the opening of an account.
fn slip_of_opening(alloc: Global, account: u32) -> Slip {
    Slip::new(9, 5, opening(account).to_row(), Vec::new(alloc))
}

/// The first rule against Sue's opening of an account with her slip 5, of which that is found, if she has this number of slips.
fn first_with_slip(
    rt: &impl Abort,
    alloc: Global,
    account: u32,
    found: Option<Slip>,
    count: u64,
) -> Option<Rule> {
    let mut store = sample(rt, alloc);
    let op = opening(account);
    let policy = policy_of(rt, alloc, &mut store, 9, &op);
    let there = store.account(alloc, account).expect(rt, "no fault");
    let branch = store.branch(alloc, 1).expect(rt, "no fault");
    let rows = Loaded::Operation(OperationRows {
        policy,
        books: BookRows::NewAccount(OpeningRows::of(there, branch)),
        slip: SlipRows { found, count },
    });
    let mut asked = request(9, 1, Asked::Operation(op));
    asked.who.slip = 5;
    first_rule(&rows, &asked)
}

/// Account 101 is there, so its opening is denied. The rule on slips comes before that, and the one on their number after it.
#[test]
fn slips_are_judged_by_their_rows(rt: HostRuntime) {
    let alloc = rt.alloc();
    for (account, taken_with, count, first) in [
        (103u32, None, 99_999u64, None),
        (103, None, 100_000, Some(Rule::Full)),
        (101, None, 100_000, Some(Rule::Taken)),
        (103, Some(103u32), 100_000, None),
        (103, Some(104), 1, Some(Rule::Slip)),
        (101, Some(103), 100_000, Some(Rule::Slip)),
    ] {
        let found = taken_with.map(|other| slip_of_opening(alloc, other));
        let given = first_with_slip(&rt, alloc, account, found, count);
        assert!(rt; given == first, "{account} at {count}");
    }
}

#[test]
fn openings_are_judged_by_their_rows(rt: HostRuntime) {
    let alloc = rt.alloc();
    let mut store = sample(&rt, alloc);
    for (account, accounts, first) in [
        (103u32, 2u64, None),
        (101, 2, Some(Rule::Taken)),
        (103, 99_999, None),
        (103, 100_000, Some(Rule::Full)),
        (101, 100_000, Some(Rule::Taken)),
    ] {
        let given = first_against_opening(&rt, alloc, &mut store, account, accounts);
        assert!(rt; given == first);
    }
}
