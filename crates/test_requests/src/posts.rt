//! Posts: what is denied, and what stays in range.

use crate::asking::{Desk, SAMPLE_CASH_BOOK, SAMPLE_LEDGER, TESS, TOM};
use crate::forms::post;
use crate::opening::{opening_at, with_a_full_drawer, with_all_cash_of_entries};
use decide::Rule;
use rule_tests::{CashBook, Ledger};
use std::process::Abort;

/// Has one post denied by each rule on posts.
fn deny_posts(rt: &impl Abort, desk: &mut Desk) {
    for (who, account, teller, added, rule) in [
        (TESS, 101, 11, 1, Rule::Range),
        (TESS, 102, 12, -1, Rule::Drawer),
        (TESS, 102, 11, -1, Rule::Floor),
        (TESS, 101, 11, -40_001, Rule::Cash),
        (TOM, 101, 21, 100, Rule::Branch),
        (TOM, 999, 11, 100, Rule::Unknown),
    ] {
        desk.denied(rt, who, post(rt, account, teller, 1, added), rule);
    }
}

#[test]
fn a_rule_that_denies_changes_nothing(rt: HostRuntime) {
    let alloc = rt.alloc();
    let mut desk = Desk::over(alloc, opening_at(&rt, alloc, 999_999_999_999));
    deny_posts(&rt, &mut desk);
    desk.account_is(&rt, 101, 999_999_999_999, 0);
    let ledger = Ledger {
        balance: 999_999_999_999,
        ..SAMPLE_LEDGER
    };
    desk.ledger_is(&rt, 1, ledger);
    desk.cash_is(&rt, SAMPLE_CASH_BOOK, 55_000);
    let body = r#"{"balance":999999999998,"branch":1,"entry":1}"#;
    desk.done(&rt, TESS, post(&rt, 101, 11, 1, -1), body);
}

#[test]
fn the_drawer_of_a_post_stays_in_range(rt: HostRuntime) {
    let alloc = rt.alloc();
    let mut desk = Desk::over(alloc, with_a_full_drawer(&rt, alloc));
    desk.denied(&rt, TESS, post(&rt, 101, 11, 1, 10), Rule::Range);
    let body = r#"{"balance":50009,"branch":1,"entry":1}"#;
    desk.done(&rt, TESS, post(&rt, 101, 11, 1, 9), body);
    desk.drawer_is(&rt, 11, 999_999_999_999, Some(7));
}

#[test]
fn the_cash_of_entries_stays_in_range(rt: HostRuntime) {
    let alloc = rt.alloc();
    let mut desk = Desk::over(alloc, with_all_cash_of_entries(&rt, alloc));
    desk.denied(&rt, TESS, post(&rt, 101, 11, 1, 1), Rule::Range);
    let body = r#"{"balance":50000,"branch":1,"entry":1}"#;
    desk.done(&rt, TESS, post(&rt, 101, 11, 1, 0), body);
    let book = CashBook {
        lines: 6,
        drawers: 0,
        cash_entries: 999_999_999_999,
        ..SAMPLE_CASH_BOOK
    };
    desk.cash_is(&rt, book, 999_999_999_999);
}
