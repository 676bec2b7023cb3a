//! Corrections of posts and of transfers: what stays in range.

use crate::amounts::MOST;
use crate::asking::{Desk, TESS, TOM};
use crate::forms::{correct, post, transfer};
use crate::opening::{TARGET_AT_MOST, opening_at, with_drawers_on};
use decide::Rule;
use std::process::Abort;

/// Has Tess post 5 cents less, and as much more.
fn post_down_and_up(rt: &impl Abort, desk: &mut Desk) {
    for (added, body) in [
        (-5, r#"{"balance":999999999994,"branch":1,"entry":1}"#),
        (5, r#"{"balance":999999999999,"branch":1,"entry":2}"#),
    ] {
        desk.done(rt, TESS, post(rt, 101, 11, 1, added), body);
    }
}

#[test]
fn a_post_that_is_undone_stays_in_range(rt: HostRuntime) {
    let alloc = rt.alloc();
    let mut desk = Desk::over(alloc, opening_at(&rt, alloc, MOST));
    post_down_and_up(&rt, &mut desk);
    let upwards = correct(&rt, 1, 101, 0, 12, -5);
    desk.denied(&rt, TOM, upwards, Rule::Range);
    let downwards = correct(&rt, 2, 101, 0, 12, 5);
    let body = r#"{"balance":999999999994,"branch":1,"entry":3}"#;
    desk.done(&rt, TOM, downwards, body);
    let upwards = correct(&rt, 1, 101, 0, 12, -5);
    let body = r#"{"balance":999999999999,"branch":1,"entry":4}"#;
    desk.done(&rt, TOM, upwards, body);
}

/// Has Tom transfer 5 cents from account 102, and Tess post as much to it. Then neither leg can be undone.
fn transfer_and_fill(rt: &impl Abort, desk: &mut Desk) {
    let body = r#"{"branch":1,"first":1,"second":2,"source":999999999994,"target":1005}"#;
    desk.done(rt, TOM, transfer(102, 101, 5), body);
    let body = r#"{"balance":999999999999,"branch":1,"entry":3}"#;
    desk.done(rt, TESS, post(rt, 102, 11, 1, 5), body);
    let by_first = correct(rt, 1, 102, 101, 11, -5);
    desk.denied(rt, TESS, by_first, Rule::Range);
    let by_second = correct(rt, 2, 101, 102, 11, 5);
    desk.denied(rt, TESS, by_second, Rule::Range);
}

#[test]
fn a_transfer_that_is_undone_stays_in_range(rt: HostRuntime) {
    let alloc = rt.alloc();
    let mut desk = Desk::over(alloc, with_drawers_on(&rt, alloc, TARGET_AT_MOST));
    transfer_and_fill(&rt, &mut desk);
    let by_second = correct(&rt, 2, 101, 102, 11, 5);
    let body = r#"{"balance":999999999994,"branch":1,"entry":4}"#;
    desk.done(&rt, TESS, post(&rt, 102, 11, 1, -5), body);
    let body = r#"{"branch":1,"first":5,"second":6,"source":1000,"target":999999999999}"#;
    desk.done(&rt, TESS, by_second, body);
}
