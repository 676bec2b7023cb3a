//! How many rows of a bank are read for a user who is denied.

use crate::cached_reads::counted_sample;
use crate::counting::Counting;
use counter_ops::Balance;
use decide::{Decision, Op, PolicyOp, Reply, Rule, Who, carry_out, decide, decide_policy};
use policy_commands::UserKey;
use std::alloc::Global;
use std::process::Abort;
use store_rows::{Bank, StoreState};
use test_counter::Watched;

/// The sample in lists whose reads are counted.
fn counted_bank(rt: &impl Abort, alloc: Global) -> Bank<Watched<Counting>> {
    Bank {
        store: counted_sample(rt, alloc),
    }
}

/// A user in a session of this number.
fn who(user: u32, session: u32) -> Who {
    Who {
        user: Some(user),
        session,
        release: 0,
        slip: 0,
    }
}

/// Asks for the balance of account 201, which this rule has to deny, and answers how often rows were read.
fn reads_of_denied(rt: &impl Abort, alloc: Global, who: Who, rule: Rule) -> u64 {
    let mut bank = counted_bank(rt, alloc);
    let op = Op::Balance(Balance { account: 201 });
    match decide(&mut bank, alloc, who, 700, &op) {
        Ok(Decision::Denied(denial)) => assert!(rt; denial.rule() == rule),
        Ok(Decision::Repeated(done)) => {
            done.into_body();
            panic!(rt; "a repeat");
        }
        Ok(Decision::Allowed(permit)) => match carry_out(permit) {
            Ok(Reply::Done(done)) => {
                done.into_body();
                panic!(rt; "it is allowed");
            }
            Ok(Reply::Report(report)) => {
                report.release();
                panic!(rt; "a report");
            }
            Err(fault) => panic!(rt; "{fault}"),
        },
        Err(fault) => panic!(rt; "{fault}"),
    }
    assert!(rt; bank.store.faults() == 0);
    bank.store.watch().all()
}

/// Of a user who has no session their own row alone is read.
#[test]
fn of_who_has_no_session_one_row_is_read(rt: HostRuntime) {
    let reads = reads_of_denied(&rt, rt.alloc(), who(7, 2), Rule::Identity);
    assert!(rt; reads == 1);
}

/// An account that a user's triples do not hold is not looked for.
#[test]
fn an_account_outside_the_triples_is_not_read(rt: HostRuntime) {
    let reads = reads_of_denied(&rt, rt.alloc(), who(8, 1), Rule::NoTriple);
    assert!(rt; reads == 3);
}

/// For a command, too, a user who has no session has their own row read alone.
#[test]
fn a_command_without_a_session_reads_one_row(rt: HostRuntime) {
    let alloc = rt.alloc();
    let mut bank = counted_bank(&rt, alloc);
    let suspend = PolicyOp::Suspend(UserKey { user: 7 });
    let answer = decide_policy(&mut bank, alloc, who(1, 2), suspend);
    assert!(rt; answer == Ok(Err(Rule::Identity)));
    assert!(rt; bank.store.watch().all() == 1);
}
