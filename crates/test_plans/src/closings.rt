//! The closing of a day over synthetic rows: its proof, the day that follows, and the order of its rules.

use crate::plans::{apply, plan_of};
use crate::rows::{LEDGER, MOST, cents};
use bank_books::{Proof, World, branch_record};
use bank_terms::Rule;
use counter_ops::CloseDay;
use drawers::{ClosingRows, plan_close_day, rule_against_close_day};
use rule_tests::Ledger;
use sample_bank::opened_world;
use std::alloc::Global;
use std::process::Abort;

/// The end of the day of branch 1.
const CLOSE: CloseDay = CloseDay { branch: 1 };

/// Has branch 1 of a bank end its day.
fn close(rt: &impl Abort, alloc: Global, world: &mut World) {
    let rows = ClosingRows::of(branch_record(world, 1), &[]);
    let plan = plan_of(rt, plan_close_day(alloc, &rows, &CLOSE));
    apply(rt, alloc, world, plan);
}

/// The proof of the first day of branch 1 of the sample's opening, with no entry.
fn first_proof(rt: &impl Abort) -> Proof {
    Proof {
        branch: 1,
        day: 1,
        entries: 0,
        balance: cents(rt, 60_000),
        cash: cents(rt, 100_000),
    }
}

#[test]
fn a_day_that_ends_is_proved(rt: HostRuntime) {
    let alloc = rt.alloc();
    let mut world = opened_world(alloc).expect(&rt, "memory");
    close(&rt, alloc, &mut world);
    assert!(rt; world.proofs() == [first_proof(&rt)].as_slice());
    let branch = branch_record(&world, 1).expect(&rt, "branch 1");
    assert!(rt; branch.row.day == 2);
}

/// Asks for this first rule against the end of a day.
fn first_is(rt: &impl Abort, rows: &ClosingRows, rule: Option<Rule>) {
    assert!(rt; rule_against_close_day(rows) == rule);
}

/// The history of a branch on this day, with `entries` entries.
fn ledger(day: u32, entries: u64) -> Ledger {
    Ledger {
        day,
        entries,
        ..LEDGER
    }
}

#[test]
fn a_day_has_a_day_after_it(rt: HostRuntime) {
    for (day, entries, first) in [(999_998, 999_999_999, None), (999_999, 0, Some(Rule::Full))] {
        let rows = ClosingRows {
            ledger: Some(ledger(day, entries)),
            vault: Some(0),
            holds_a_drawer: false,
        };
        first_is(&rt, &rows, first);
    }
}

/// Rows against which every rule speaks, and which are mended one after another.
#[test]
fn rules_of_a_closing_stand_in_order(rt: HostRuntime) {
    let mut rows = ClosingRows {
        ledger: Some(ledger(999_999, 0)),
        vault: None,
        holds_a_drawer: true,
    };
    first_is(&rt, &rows, Some(Rule::Unknown));
    rows.vault = Some(i128::from(MOST) + 1);
    first_is(&rt, &rows, Some(Rule::Range));
    rows.vault = Some(i128::from(MOST));
    first_is(&rt, &rows, Some(Rule::Day));
    rows.holds_a_drawer = false;
    first_is(&rt, &rows, Some(Rule::Full));
    rows.ledger = Some(LEDGER);
    first_is(&rt, &rows, None);
}
