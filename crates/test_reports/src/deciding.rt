//! Reports that are decided on: the listing of the policy, and the operations that are answered by one.

use crate::counter::asked_of;
use crate::failing::{Cause, Failing};
use crate::questions::{OF_ACCOUNTS, OF_LISTING, OF_PROOF, OF_STATEMENT, Question};
use counter_ops::{Accounts, Proof, Statement};
use decide::{Decision, Listed, Op, Reply, Rule, Who, carry_out, decide, list_policy};
use reports::Report;
use store_rows::{Bank, ReportReads, StoreState};
use test_counter::{Runtime, whole_sink};

/// This user, in their first session.
fn in_first_session(user: u32) -> Who {
    Who {
        user: Some(user),
        session: 1,
        release: 0,
        slip: 0,
    }
}

/// Asks that a report is the one that is due, and has its text written.
fn is_due<S: ReportReads>(rt: &impl Runtime, report: Report<'_, S>, question: &Question) {
    let due = question.text.as_bytes();
    assert!(rt; report.length() == due.len() as u64);
    let mut writer = whole_sink(rt);
    assert!(rt; report.write(&mut writer).is_ok());
    assert!(rt; writer.into_inner().bytes.as_slice() == due);
}

/// The rule by which the listing of the policy is denied, or none where it is the one that is due.
fn rule_against_listing(rt: &impl Runtime, who: Who) -> Option<Rule> {
    let mut bank = Bank {
        store: asked_of(rt, &OF_LISTING),
    };
    match list_policy(&mut bank, rt.alloc(), who) {
        Ok(Listed::Report(report)) => {
            is_due(rt, report, &OF_LISTING);
            None
        }
        Ok(Listed::Denied(denial)) => Some(denial.rule()),
        Err(fault) => panic!(rt; "{fault}"),
    }
}

#[test]
fn the_policy_is_listed_to_an_officer_in_their_session(rt: HostRuntime) {
    let later = Who {
        session: 2,
        ..in_first_session(1)
    };
    let nobody = Who {
        user: None,
        ..in_first_session(1)
    };
    for (asks, rule) in [
        (in_first_session(1), None),
        (in_first_session(7), Some(Rule::Officer)),
        (in_first_session(55), Some(Rule::Identity)),
        (later, Some(Rule::Identity)),
        (nobody, Some(Rule::Identity)),
    ] {
        assert!(rt; rule_against_listing(&rt, asks) == rule);
    }
}

/// Has a read fail while the listing is decided on. Answers whether that fault was returned, and not the listing.
fn fails_listing(rt: &impl Runtime, read: u64, cause: Cause) -> bool {
    let mut bank = Bank {
        store: Failing::over(asked_of(rt, &OF_LISTING), read, cause),
    };
    match list_policy(&mut bank, rt.alloc(), in_first_session(1)) {
        Ok(Listed::Report(report)) => {
            report.release();
            false
        }
        Ok(Listed::Denied(denial)) => panic!(rt; "{}", denial.rule().name()),
        Err(fault) => {
            assert!(rt; fault == cause.fault() && bank.store.faults() == 1);
            true
        }
    }
}

/// The row of the officer is read, then each row of the policy, and that there is no other.
#[test]
fn faults_are_reported_while_the_policy_is_listed(rt: HostRuntime) {
    for cause in [Cause::Memory, Cause::Disk] {
        for read in 1..=98u64 {
            assert!(rt; fails_listing(&rt, read, cause), "at {read}");
        }
        assert!(rt; !fails_listing(&rt, 99, cause));
    }
}

/// Asks for an operation that is answered by a report.
fn reports(rt: &impl Runtime, question: &Question, user: u32, op: Op) {
    let mut bank = Bank {
        store: asked_of(rt, question),
    };
    match decide(&mut bank, rt.alloc(), in_first_session(user), 700, &op) {
        Ok(Decision::Allowed(permit)) => match carry_out(permit) {
            Ok(Reply::Report(report)) => is_due(rt, report, question),
            Ok(Reply::Done(done)) => {
                let _ = done.into_body();
                panic!(rt; "a text");
            }
            Err(fault) => panic!(rt; "{fault}"),
        },
        Ok(Decision::Repeated(done)) => {
            let _ = done.into_body();
            panic!(rt; "a repeat");
        }
        Ok(Decision::Denied(denial)) => panic!(rt; "{}", denial.rule().name()),
        Err(fault) => panic!(rt; "{fault}"),
    }
}

#[test]
fn operations_are_answered_by_reports(rt: HostRuntime) {
    let statement = Statement {
        account: 101,
        start: 1,
        count: 10,
    };
    let accounts = Accounts {
        after: 0,
        count: 10,
    };
    reports(&rt, &OF_STATEMENT, 7, Op::Statement(statement));
    reports(&rt, &OF_ACCOUNTS, 7, Op::Accounts(accounts));
    reports(&rt, &OF_PROOF, 9, Op::Proof(Proof { branch: 1 }));
}
