//! Moves of cash over synthetic rows: what their plan writes, which numbers are left, and the order of the rules.

use crate::plans::{apply, line, lines_end_with, plan_of};
use crate::rows::{BY_TESS, CASH_BOOK, FULL_CASH_BOOK, MOST, teller_of, teller_with};
use bank_books::{LineForm, branch_record, teller_record};
use bank_terms::Rule;
use counter_ops::MoveCash;
use drawers::{MoveRows, plan_move, rule_against_move_cash};
use rule_tests::CashBook;
use sample_bank::sample_world;
use std::process::Abort;

/// 50.00 from Tess's drawer to the vault.
const TO_VAULT: MoveCash = MoveCash {
    source: 11,
    target: 0,
    branch: 1,
    amount: 5_000,
};

/// 50.00 from the vault to Tess's drawer.
const FROM_VAULT: MoveCash = MoveCash {
    source: 0,
    target: 11,
    branch: 1,
    amount: 5_000,
};

#[test]
fn a_move_writes_two_lines(rt: HostRuntime) {
    let alloc = rt.alloc();
    let mut world = sample_world(alloc).expect(&rt, "memory");
    let rows = MoveRows::of(
        None,
        teller_record(&world, 11),
        branch_record(&world, 1),
        &FROM_VAULT,
    );
    let plan = plan_of(&rt, plan_move(alloc, &rows, &FROM_VAULT, BY_TESS));
    apply(&rt, alloc, &mut world, plan);
    let lines = [
        line(&rt, 5, 0, -5_000, LineForm::Move, BY_TESS),
        line(&rt, 6, 11, 5_000, LineForm::Move, BY_TESS),
    ];
    lines_end_with(&rt, &world, 6, &lines);
}

/// Asks for this first rule against a move of Tess's.
fn first_is(rt: &impl Abort, rows: &MoveRows, form: &MoveCash, rule: Option<Rule>) {
    let first = rule_against_move_cash(rows, form, BY_TESS);
    assert!(rt; first == rule);
}

#[test]
fn a_move_needs_two_line_numbers(rt: HostRuntime) {
    for (lines, first) in [(999_999_997, None), (999_999_998, Some(Rule::Full))] {
        let rows = MoveRows {
            source: Some(teller_with(&rt, 5_000)),
            target: None,
            cash_book: Some(CashBook { lines, ..CASH_BOOK }),
            vault: Some(0),
        };
        first_is(&rt, &rows, &TO_VAULT, first);
    }
}

/// Rows against which every rule speaks, and which are mended one after another.
#[test]
fn rules_of_a_move_stand_in_order(rt: HostRuntime) {
    let mut rows = MoveRows {
        source: None,
        target: None,
        cash_book: Some(CashBook {
            drawers: i128::from(MOST),
            ..FULL_CASH_BOOK
        }),
        vault: Some(4_999),
    };
    first_is(&rt, &rows, &FROM_VAULT, Some(Rule::Unknown));
    rows.target = Some(teller_of(&rt, 2, 0));
    first_is(&rt, &rows, &FROM_VAULT, Some(Rule::Branch));
    rows.target = Some(teller_of(&rt, 1, 0));
    first_is(&rt, &rows, &FROM_VAULT, Some(Rule::Drawer));
    rows.target = Some(teller_with(&rt, 0));
    first_is(&rt, &rows, &FROM_VAULT, Some(Rule::Cash));
    rows.vault = Some(5_000);
    first_is(&rt, &rows, &FROM_VAULT, Some(Rule::Range));
    rows.cash_book = Some(FULL_CASH_BOOK);
    first_is(&rt, &rows, &FROM_VAULT, Some(Rule::Full));
    rows.cash_book = Some(CASH_BOOK);
    first_is(&rt, &rows, &FROM_VAULT, None);
}
