//! Posts over synthetic rows: what their plan writes, what stays in range, and the order of their rules.

use crate::plans::{apply, line, lines_end_with, plan_of};
use crate::rows::{
    BY_TESS, CASH_BOOK, FULL_CASH_BOOK, LEDGER, MOST, ONE_OF_EACH, account_with, delta, teller_of,
    teller_with,
};
use bank_books::{
    LineForm, Plan, TellerRecord, World, account_record, branch_record, teller_record,
};
use bank_terms::Rule;
use counter_ops::Post;
use postings::{PostRows, plan_post, rule_against_post};
use rule_tests::{CashBook, Ledger};
use sample_bank::sample_world;
use std::alloc::Global;
use std::process::Abort;

/// A post to account 101 at teller 11.
fn post_of(rt: &impl Abort, added: i64) -> Post {
    Post {
        account: 101,
        branch: 1,
        delta: delta(rt, added),
        teller: 11,
    }
}

/// The plan of a withdrawal of 25.00 by Tess.
fn withdrawal(rt: &impl Abort, alloc: Global, world: &World) -> Plan {
    let rows = PostRows::of(
        account_record(world, 101),
        teller_record(world, 11),
        branch_record(world, 1),
    );
    plan_of(rt, plan_post(alloc, &rows, &post_of(rt, -2_500), BY_TESS))
}

#[test]
fn a_post_writes_its_cash(rt: HostRuntime) {
    let alloc = rt.alloc();
    let mut world = sample_world(alloc).expect(&rt, "memory");
    let plan = withdrawal(&rt, alloc, &world);
    apply(&rt, alloc, &mut world, plan);
    let cash = line(&rt, 5, 11, -2_500, LineForm::CashEntry, BY_TESS);
    lines_end_with(&rt, &world, 5, &[cash]);
}

/// The rows of a post with these numbers, in cents: the balance of account 101, the balance of teller 11 and the cash of
/// drawer 11, which Tess holds, the balance of branch 1 and the sum of its history, the sum of its drawers and that of its
/// cash that came with entries. `counts` are turns of the account, entries and lines.
pub(crate) fn rows_at(rt: &impl Abort, numbers: [i64; 7], counts: [u64; 3]) -> PostRows {
    let [
        account,
        teller,
        drawer,
        branch,
        history,
        drawers,
        cash_entries,
    ] = numbers;
    let [turns, entries, lines] = counts;
    PostRows {
        account: Some(account_with(rt, 101, account, turns)),
        teller: Some(TellerRecord {
            balance: i128::from(teller),
            ..teller_with(rt, drawer)
        }),
        ledger: Some(Ledger {
            balance: i128::from(branch),
            history: i128::from(history),
            entries,
            ..LEDGER
        }),
        cash_book: Some(CashBook {
            drawers: i128::from(drawers),
            cash_entries: i128::from(cash_entries),
            lines,
            ..CASH_BOOK
        }),
    }
}

/// Asks for this first rule against a post of `added` cents.
fn first_is(rt: &impl Abort, rows: &PostRows, added: i64, rule: Option<Rule>) {
    let first = rule_against_post(rows, &post_of(rt, added), BY_TESS);
    assert!(rt; first == rule);
}

#[test]
fn every_number_that_a_post_moves_stays_in_range(rt: HostRuntime) {
    for place in 0..7usize {
        let mut numbers = [100; 7];
        numbers[place] = MOST;
        let rows = rows_at(&rt, numbers, [0; 3]);
        first_is(&rt, &rows, 1, Some(Rule::Range));
        first_is(&rt, &rows, 0, None);
    }
}

#[test]
fn a_post_needs_a_number_of_each_kind(rt: HostRuntime) {
    for (counts, first) in ONE_OF_EACH {
        first_is(&rt, &rows_at(&rt, [100; 7], counts), 1, first);
    }
}

/// Rows against which every rule speaks for a withdrawal of 1.00, and which are mended one after another.
#[test]
fn rules_of_a_post_stand_in_order(rt: HostRuntime) {
    let mut rows = PostRows {
        account: None,
        teller: Some(teller_of(&rt, 2, 99)),
        ledger: Some(Ledger {
            history: -i128::from(MOST),
            ..LEDGER
        }),
        cash_book: Some(FULL_CASH_BOOK),
    };
    first_is(&rt, &rows, -100, Some(Rule::Unknown));
    rows.account = Some(account_with(&rt, 101, 99, 0));
    first_is(&rt, &rows, -100, Some(Rule::Branch));
    rows.teller = Some(teller_of(&rt, 1, 99));
    first_is(&rt, &rows, -100, Some(Rule::Drawer));
    rows.teller = Some(teller_with(&rt, 99));
    first_is(&rt, &rows, -100, Some(Rule::Floor));
    rows.account = Some(account_with(&rt, 101, 100, 0));
    first_is(&rt, &rows, -100, Some(Rule::Cash));
    rows.teller = Some(teller_with(&rt, 100));
    first_is(&rt, &rows, -100, Some(Rule::Range));
    rows.ledger = Some(LEDGER);
    first_is(&rt, &rows, -100, Some(Rule::Full));
    rows.cash_book = Some(CASH_BOOK);
    first_is(&rt, &rows, -100, None);
}
