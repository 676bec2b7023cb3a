//! Corrections over synthetic rows: what their plan writes, what stays in range, which numbers are left, and the order
//! of their rules.

use crate::plans::{apply, line, lines_end_with, plan_of};
use crate::posts::rows_at;
use crate::rows::{
    BY_TESS, BY_TOM, FULL_CASH_BOOK, LEDGER, MOST, ONE_OF_EACH, TWO_ENTRIES, account_with, delta,
    teller_of, teller_with,
};
use bank_books::{
    Entry, EntryForm, LineForm, Plan, World, account_record, branch_record, teller_record,
};
use bank_terms::Rule;
use counter_ops::Correct;
use postings::{CorrectRows, plan_correct, rule_against_correct};
use rule_tests::Ledger;
use sample_bank::sample_world;
use std::alloc::Global;
use std::process::Abort;

/// The correction of the first entry of branch 1, that names account 101 and added so much to it. Where there is another
/// account, it is that of a transfer.
fn correct(rt: &impl Abort, other: u32, teller: u32, added: i64) -> Correct {
    Correct {
        branch: 1,
        entry: 1,
        account: 101,
        other,
        teller,
        delta: delta(rt, added),
    }
}

/// The post of 25.00 that is the first entry of branch 1, made by Tess.
fn first_post(rt: &impl Abort) -> Entry {
    Entry {
        branch: 1,
        number: 1,
        account: 101,
        turn: 1,
        teller: 11,
        delta: delta(rt, 2_500),
        moment: 700,
        day: 1,
        user: 7,
        form: EntryForm::Post,
        partner: 0,
        undoes: 0,
    }
}

/// The plan by which Tom undoes that post.
fn undone_post(rt: &impl Abort, alloc: Global, world: &World) -> Plan {
    let rows = CorrectRows::of(
        account_record(world, 101),
        None,
        teller_record(world, 12),
        branch_record(world, 1),
        Some(first_post(rt)),
        None,
        false,
    );
    let undoing = correct(rt, 0, 12, 2_500);
    plan_of(rt, plan_correct(alloc, &rows, &undoing, BY_TOM))
}

#[test]
fn a_correction_writes_its_cash(rt: HostRuntime) {
    let alloc = rt.alloc();
    let mut world = sample_world(alloc).expect(&rt, "memory");
    let plan = undone_post(&rt, alloc, &world);
    apply(&rt, alloc, &mut world, plan);
    let cash = line(&rt, 5, 12, -2_500, LineForm::CashEntry, BY_TOM);
    lines_end_with(&rt, &world, 5, &[cash]);
}

/// The rows of the correction of a post of `added` cents by Tom, with these numbers, and `counts`
/// of turns of the account, entries and lines.
fn rows_of_post(rt: &impl Abort, added: i64, numbers: [i64; 7], counts: [u64; 3]) -> CorrectRows {
    let rows = rows_at(rt, numbers, counts);
    let entry = Entry {
        delta: delta(rt, added),
        user: 8,
        ..first_post(rt)
    };
    CorrectRows {
        account: rows.account,
        other: None,
        teller: rows.teller,
        ledger: rows.ledger,
        cash_book: rows.cash_book,
        entry: Some(entry),
        partner: None,
        is_undone: false,
    }
}

/// Asks for this first rule against the correction at teller 11 of a post of `added` cents or, if there is another
/// account, of a transfer.
fn first_is(rt: &impl Abort, rows: &CorrectRows, other: u32, added: i64, rule: Option<Rule>) {
    let first = rule_against_correct(rows, &correct(rt, other, 11, added), BY_TESS);
    assert!(rt; first == rule);
}

#[test]
fn every_number_that_a_correction_moves_stays_in_range(rt: HostRuntime) {
    for place in 0..7usize {
        let mut numbers = [100; 7];
        numbers[place] = MOST;
        let rows = rows_of_post(&rt, -1, numbers, [0; 3]);
        first_is(&rt, &rows, 0, -1, Some(Rule::Range));
        numbers[place] = MOST - 1;
        let rows = rows_of_post(&rt, -1, numbers, [0; 3]);
        first_is(&rt, &rows, 0, -1, None);
    }
}

#[test]
fn a_correction_of_a_post_needs_a_number_of_each_kind(rt: HostRuntime) {
    for (counts, first) in ONE_OF_EACH {
        let rows = rows_of_post(&rt, 100, [100; 7], counts);
        first_is(&rt, &rows, 0, 100, first);
    }
}

/// The rows of the correction of a transfer of 1.00 to account 102 by Tom. `counts` are turns of each account, and
/// entries. It writes no line, and so needs no number of one.
fn rows_of_transfer(rt: &impl Abort, counts: [u64; 3]) -> CorrectRows {
    let [turns, other_turns, entries] = counts;
    let leg = Entry {
        delta: delta(rt, -100),
        user: 8,
        form: EntryForm::TransferLeg,
        partner: 2,
        ..first_post(rt)
    };
    let partner = Entry {
        number: 2,
        account: 102,
        delta: delta(rt, 100),
        partner: 1,
        ..leg
    };
    CorrectRows {
        account: Some(account_with(rt, 101, 100, turns)),
        other: Some(account_with(rt, 102, 100, other_turns)),
        teller: Some(teller_with(rt, 100)),
        ledger: Some(Ledger { entries, ..LEDGER }),
        cash_book: Some(FULL_CASH_BOOK),
        entry: Some(leg),
        partner: Some(partner),
        is_undone: false,
    }
}

#[test]
fn a_correction_of_a_transfer_needs_two_entry_numbers(rt: HostRuntime) {
    for (counts, first) in TWO_ENTRIES {
        first_is(&rt, &rows_of_transfer(&rt, counts), 102, -100, first);
    }
}

/// Rows against which every rule speaks for a post of 1.00, and which are mended one after another.
#[test]
fn rules_of_a_correction_stand_in_order(rt: HostRuntime) {
    let mended = rows_of_post(&rt, 100, [100; 7], [0; 3]);
    let mut rows = CorrectRows {
        account: None,
        teller: Some(teller_of(&rt, 2, 99)),
        ledger: Some(Ledger {
            history: -i128::from(MOST),
            ..LEDGER
        }),
        cash_book: Some(FULL_CASH_BOOK),
        entry: Some(first_post(&rt)),
        is_undone: true,
        ..mended
    };
    first_is(&rt, &rows, 0, 100, Some(Rule::Unknown));
    rows.account = Some(account_with(&rt, 101, 99, 0));
    first_is(&rt, &rows, 0, 100, Some(Rule::Branch));
    rows.teller = Some(teller_of(&rt, 1, 99));
    first_is(&rt, &rows, 0, 100, Some(Rule::Drawer));
    rows.teller = Some(teller_with(&rt, 99));
    first_is(&rt, &rows, 0, 100, Some(Rule::SecondPerson));
    rows.entry = mended.entry;
    first_is(&rt, &rows, 0, 100, Some(Rule::Entry));
    rows.is_undone = false;
    first_is(&rt, &rows, 0, 100, Some(Rule::Floor));
    rows.account = mended.account;
    first_is(&rt, &rows, 0, 100, Some(Rule::Cash));
    rows.teller = mended.teller;
    first_is(&rt, &rows, 0, 100, Some(Rule::Range));
    rows.ledger = mended.ledger;
    first_is(&rt, &rows, 0, 100, Some(Rule::Full));
    rows.cash_book = mended.cash_book;
    first_is(&rt, &rows, 0, 100, None);
}
