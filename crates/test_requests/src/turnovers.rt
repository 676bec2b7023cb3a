//! Drawers that are put on: what they make of the opening, and what stays in range.

use crate::asking::{Desk, SAMPLE_CASH_BOOK, SAMPLE_LEDGER, TESS, TOM};
use crate::forms::on;
use crate::opening::with_a_full_drawer;
use decide::Rule;
use sample_bank::opened_world;
use std::process::Abort;

/// Asks for the numbers of branch 1 of the sample.
fn stands_as_the_sample(rt: &impl Abort, desk: &mut Desk) {
    desk.drawer_is(rt, 11, 40_000, Some(7));
    desk.drawer_is(rt, 12, 5_000, Some(8));
    desk.teller_is(rt, 11, 60_000);
    desk.teller_is(rt, 12, 0);
    desk.ledger_is(rt, 1, SAMPLE_LEDGER);
    desk.cash_is(rt, SAMPLE_CASH_BOOK, 55_000);
}

#[test]
fn the_sample_is_what_two_requests_make_of_its_opening(rt: HostRuntime) {
    let alloc = rt.alloc();
    let mut desk = Desk::over(alloc, opened_world(alloc).expect(&rt, "memory"));
    let body = r#"{"cash":40000,"teller":11,"vault":60000}"#;
    desk.done_at(&rt, TESS, 0, on(11, 40_000), body);
    let body = r#"{"cash":5000,"teller":12,"vault":55000}"#;
    desk.done_at(&rt, TOM, 0, on(12, 5_000), body);
    stands_as_the_sample(&rt, &mut desk);
    stands_as_the_sample(&rt, &mut Desk::of_sample(&rt, alloc));
}

/// What drawer 12 may be given is bound by what drawer 11 has.
#[test]
fn the_drawers_stay_in_range_together(rt: HostRuntime) {
    let alloc = rt.alloc();
    let mut desk = Desk::over(alloc, with_a_full_drawer(&rt, alloc));
    desk.denied(&rt, TOM, on(12, 10), Rule::Range);
    let body = r#"{"cash":9,"teller":12,"vault":100}"#;
    desk.done(&rt, TOM, on(12, 9), body);
}
