//! Drawers that are put on and off over synthetic rows: what their plans write, what stays in range, and the order of their
//! rules.

use crate::plans::{apply, line, lines_end_with, plan_of};
use crate::rows::{
    BY_TESS, BY_TOM, CASH_BOOK, FULL_CASH_BOOK, MOST, cents, teller_of, teller_with,
};
use bank_books::{LineForm, Signature, World, branch_record, teller_record};
use bank_terms::Rule;
use counter_ops::{DrawerOff, DrawerOn};
use drawers::{
    DrawerRows, plan_drawer_off, plan_drawer_on, rule_against_drawer_off, rule_against_drawer_on,
};
use rule_tests::CashBook;
use sample_bank::{opened_world, sample_world};
use std::alloc::Global;
use std::process::Abort;

/// Drawer 11 as Tess puts it on in the sample.
const ON_11: DrawerOn = DrawerOn {
    teller: 11,
    branch: 1,
    cash: 40_000,
};

/// Drawer 12 as Tom puts it on there.
const ON_12: DrawerOn = DrawerOn {
    teller: 12,
    branch: 1,
    cash: 5_000,
};

/// A drawer of branch 1 in which `counted` cents were counted.
fn off(rt: &impl Abort, teller: u32, counted: i64) -> DrawerOff {
    DrawerOff {
        teller,
        branch: 1,
        counted: cents(rt, counted),
    }
}

/// Has a bank put a drawer on.
fn put_on(rt: &impl Abort, alloc: Global, world: &mut World, form: DrawerOn, by: Signature) {
    let rows = DrawerRows::of(
        teller_record(world, form.teller),
        branch_record(world, form.branch),
    );
    let plan = plan_of(rt, plan_drawer_on(alloc, &rows, &form, by));
    apply(rt, alloc, world, plan);
}

#[test]
fn lines_of_the_sample_are_those_of_two_drawers_put_on(rt: HostRuntime) {
    let alloc = rt.alloc();
    let mut world = opened_world(alloc).expect(&rt, "memory");
    let at = |user: u32| Signature { user, moment: 0 };
    put_on(&rt, alloc, &mut world, ON_11, at(7));
    put_on(&rt, alloc, &mut world, ON_12, at(8));
    let sample = sample_world(alloc).expect(&rt, "memory");
    assert!(rt; world.lines().len() == 4);
    assert!(rt; world.lines() == sample.lines());
}

#[test]
fn a_drawer_put_off_writes_three_lines(rt: HostRuntime) {
    let alloc = rt.alloc();
    let mut world = sample_world(alloc).expect(&rt, "memory");
    let rows = DrawerRows::of(teller_record(&world, 12), branch_record(&world, 1));
    let form = off(&rt, 12, 4_900);
    let plan = plan_of(&rt, plan_drawer_off(alloc, &rows, &form, BY_TOM));
    apply(&rt, alloc, &mut world, plan);
    let lines = [
        line(&rt, 5, 12, -100, LineForm::Difference, BY_TOM),
        line(&rt, 6, 12, -4_900, LineForm::Off, BY_TOM),
        line(&rt, 7, 0, 4_900, LineForm::Off, BY_TOM),
    ];
    lines_end_with(&rt, &world, 7, &lines);
}

/// The rows of a drawer of Tess's that holds 1.00. The cash book has `lines` lines, and `differences` is their sum.
fn held_rows(rt: &impl Abort, lines: u64, differences: i128) -> DrawerRows {
    DrawerRows {
        teller: Some(teller_with(rt, 100)),
        cash_book: Some(CashBook {
            lines,
            drawers: 100,
            differences,
            ..CASH_BOOK
        }),
        vault: Some(0),
    }
}

/// Asks for this first rule against drawer 11 as Tess puts it off, with `counted` cents counted.
fn first_off_is(rt: &impl Abort, rows: &DrawerRows, counted: i64, rule: Option<Rule>) {
    let first = rule_against_drawer_off(rows, &off(rt, 11, counted), BY_TESS);
    assert!(rt; first == rule);
}

#[test]
fn the_differences_stay_in_range(rt: HostRuntime) {
    let most = i128::from(MOST);
    for (counted, differences, first) in [
        (101, most - 1, None),
        (102, most - 1, Some(Rule::Range)),
        (99, 1 - most, None),
        (98, 1 - most, Some(Rule::Range)),
    ] {
        first_off_is(&rt, &held_rows(&rt, 0, differences), counted, first);
    }
}

/// Asks for this first rule against drawer 11 as it is put on.
fn first_on_is(rt: &impl Abort, rows: &DrawerRows, rule: Option<Rule>) {
    let first = rule_against_drawer_on(rows, &ON_11);
    assert!(rt; first == rule);
}

#[test]
fn a_drawer_put_on_needs_two_line_numbers(rt: HostRuntime) {
    for (lines, first) in [(999_999_997, None), (999_999_998, Some(Rule::Full))] {
        let rows = DrawerRows {
            teller: Some(teller_of(&rt, 1, 0)),
            cash_book: Some(CashBook { lines, ..CASH_BOOK }),
            vault: Some(40_000),
        };
        first_on_is(&rt, &rows, first);
    }
}

#[test]
fn a_drawer_put_off_needs_three_line_numbers(rt: HostRuntime) {
    for (lines, first) in [(999_999_996, None), (999_999_997, Some(Rule::Full))] {
        first_off_is(&rt, &held_rows(&rt, lines, 0), 100, first);
    }
}

/// Rows against which every rule speaks, and which are mended one after another.
#[test]
fn rules_of_a_drawer_put_on_stand_in_order(rt: HostRuntime) {
    let mut rows = DrawerRows {
        teller: None,
        cash_book: Some(CashBook {
            drawers: i128::from(MOST),
            ..FULL_CASH_BOOK
        }),
        vault: Some(39_999),
    };
    first_on_is(&rt, &rows, Some(Rule::Unknown));
    rows.teller = Some(teller_of(&rt, 2, 0));
    first_on_is(&rt, &rows, Some(Rule::Branch));
    rows.teller = Some(teller_with(&rt, 0));
    first_on_is(&rt, &rows, Some(Rule::Drawer));
    rows.teller = Some(teller_of(&rt, 1, 0));
    first_on_is(&rt, &rows, Some(Rule::Cash));
    rows.vault = Some(40_000);
    first_on_is(&rt, &rows, Some(Rule::Range));
    rows.cash_book = Some(FULL_CASH_BOOK);
    first_on_is(&rt, &rows, Some(Rule::Full));
    rows.cash_book = Some(CASH_BOOK);
    first_on_is(&rt, &rows, None);
}

/// The same. No count brings a place below zero, so the rule of cash does not speak.
#[test]
fn rules_of_a_drawer_put_off_stand_in_order(rt: HostRuntime) {
    let mut rows = DrawerRows {
        teller: Some(teller_of(&rt, 2, 100)),
        cash_book: Some(FULL_CASH_BOOK),
        vault: None,
    };
    first_off_is(&rt, &rows, 100, Some(Rule::Unknown));
    rows.vault = Some(i128::from(MOST));
    first_off_is(&rt, &rows, 100, Some(Rule::Branch));
    rows.teller = Some(teller_of(&rt, 1, 100));
    first_off_is(&rt, &rows, 100, Some(Rule::Drawer));
    rows.teller = Some(teller_with(&rt, 100));
    first_off_is(&rt, &rows, 100, Some(Rule::Range));
    rows.vault = Some(i128::from(MOST - 100));
    first_off_is(&rt, &rows, 100, Some(Rule::Full));
    rows.cash_book = Some(CASH_BOOK);
    first_off_is(&rt, &rows, 100, None);
}
