//! Transfers, whose two entries stand at one teller: what stays in range.

use crate::amounts::MOST;
use crate::asking::{Desk, SAMPLE_LEDGER, TOM};
use crate::forms::transfer;
use crate::opening::{TARGET_AT_MOST, teller_12_at, with_drawers_on};
use decide::Rule;
use rule_tests::Ledger;
use std::alloc::Global;
use std::process::Abort;

#[test]
fn the_target_of_a_transfer_stays_in_range(rt: HostRuntime) {
    let alloc = rt.alloc();
    let mut desk = Desk::over(alloc, with_drawers_on(&rt, alloc, TARGET_AT_MOST));
    desk.denied(&rt, TOM, transfer(101, 102, 1), Rule::Range);
    desk.account_is(&rt, 101, 1_000, 0);
    let body = r#"{"branch":1,"first":1,"second":2,"source":999999999998,"target":1001}"#;
    desk.done(&rt, TOM, transfer(102, 101, 1), body);
    let body = r#"{"branch":1,"first":3,"second":4,"source":1000,"target":999999999999}"#;
    desk.done(&rt, TOM, transfer(101, 102, 1), body);
}

/// Has Tom transfer 10.00, where his teller and his branch stand at this balance.
fn stays_at(rt: &impl Abort, alloc: Global, end: i64) {
    let mut desk = Desk::over(alloc, teller_12_at(rt, alloc, end));
    let body = r#"{"branch":1,"first":1,"second":2,"source":0,"target":0}"#;
    desk.done(rt, TOM, transfer(101, 102, 1_000), body);
    desk.teller_is(rt, 12, i128::from(end));
    let ledger = Ledger {
        balance: i128::from(end),
        entries: 2,
        ..SAMPLE_LEDGER
    };
    desk.ledger_is(rt, 1, ledger);
}

/// The teller and the branch of a transfer stand at an end of the range, which one of its entries alone would leave.
#[test]
fn the_range_is_judged_after_both_entries(rt: HostRuntime) {
    stays_at(&rt, rt.alloc(), MOST);
    stays_at(&rt, rt.alloc(), -MOST);
}
