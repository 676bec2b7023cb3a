//! Requests over a bank whose disk fails at some call. Each is answered by its reply until the disk fails, which is
//! reported once; from then on the bank is stopped. Opened again, the bank is the one before the request at which the
//! disk failed, or the one after it.

use crate::making::sample_held;
use crate::snapshots::snapshot_once;
use std::process::Abort;
use store_rows::{Bank, Store};
use test_counter::{Runtime, listed_bank};
use test_disks::{
    Act, CLOSING, COMMANDS, Deed, ENDING, Exchange, Failers, Failing, Frail, Held, OPENING,
    Outcome, POST, RELEASED, Snapshot, TRANSFER, done_with, failing_files, is_reply, left_by,
    let_go, open_frail, reply, snapshot_of,
};

/// How often the bank from before the request at which the disk failed was found, and how often the one after it; and the
/// snapshots that were taken for that, by the files.
#[derive(Drop)]
struct Found {
    before: u32,
    after: u32,
    seen: Vec<(Held, Snapshot)>,
}

/// The snapshots of a bank before these requests and after each of them. It answers them as is due.
fn states_of<S: Store>(
    rt: &impl Runtime,
    bank: &mut Bank<S>,
    stream: &[Exchange],
) -> Vec<Snapshot> {
    let mut states = Vec::new(rt.alloc());
    push(rt, &mut states, snapshot_of(rt, &mut bank.store));
    for exchange in stream {
        let answer = reply(rt, bank, exchange);
        assert!(rt; is_reply(rt, answer.as_slice(), exchange.due));
        push(rt, &mut states, snapshot_of(rt, &mut bank.store));
    }
    states
}

/// Those snapshots of the sample bank in lists.
fn listed_states(rt: &impl Runtime, stream: &[Exchange]) -> Vec<Snapshot> {
    states_of(rt, &mut listed_bank(rt), stream)
}

fn push(rt: &impl Abort, states: &mut Vec<Snapshot>, state: Snapshot) {
    assert!(rt; states.push(state).is_ok());
}

/// Asks that the files hold the bank of that state or of the next, and counts which it is where they differ.
fn check(rt: &impl Runtime, held: Held, states: &[Snapshot], count: usize, found: &mut Found) {
    let snapshot = snapshot_once(rt, &mut found.seen, held);
    let before = states.get(count).expect(rt, "a state");
    let after = states.get(count.saturating_add(1)).unwrap_or(before);
    if snapshot == before {
        if before != after {
            found.before = found.before.saturating_add(1);
        }
    } else {
        assert!(rt; snapshot == after);
        found.after = found.after.saturating_add(1);
    }
}

/// Serves requests over the bank in a database. Answers how many got their reply, and the files.
pub fn served(rt: &impl Runtime, conn: Frail, stream: &[Exchange]) -> (usize, Failers) {
    let (outcome, conn) = done_with(rt, conn, Deed::Open(Act::Serve(stream))).expect(rt, "a bank");
    (count_of(rt, outcome), let_go(conn))
}

/// How many requests got their reply.
pub fn count_of(rt: &impl Abort, outcome: Outcome) -> usize {
    match outcome {
        Outcome::Served(count) => count,
        _ => panic!(rt; "how many were served"),
    }
}

/// Serves requests over the sample bank with a disk that fails at its first call after those by which the files are
/// opened, then over one that fails at its second, and so on until one has not failed. Answers at how many it failed.
fn fail_each_call(
    rt: &impl Runtime,
    stream: &[Exchange],
    which: Failing,
    found: &mut Found,
) -> u32 {
    let held = sample_held(rt);
    let states = listed_states(rt, stream);
    let mut failures = 0u32;
    for calls in 0..10_000u64 {
        // (a disk that fails while the files are opened is for the tests of making)
        let Ok(conn) = open_frail(rt, failing_files(rt, &held, which, calls)) else {
            continue;
        };
        let (count, files) = served(rt, conn, stream);
        let left = left_by(rt, files);
        check(rt, left.written, &states, count, found);
        check(rt, left.synced, &states, count, found);
        if !left.failed {
            assert!(rt; count == stream.len());
            return failures;
        }
        failures = failures.saturating_add(1);
    }
    panic!(rt; "a disk that has not failed");
}

/// Asks that the disk failed, and that the bank was found afterwards both as it was before a request and as it is after one.
fn fail_both(rt: &impl Runtime, stream: &[Exchange]) {
    let mut found = Found {
        before: 0,
        after: 0,
        seen: Vec::new(rt.alloc()),
    };
    assert!(rt; fail_each_call(rt, stream, Failing::Log, &mut found) > 0);
    assert!(rt; found.before > 0 && found.after > 0);
    assert!(rt; fail_each_call(rt, stream, Failing::Database, &mut found) > 0);
}

#[test]
fn a_post_is_made_or_not(rt: HostRuntime) {
    fail_both(&rt, &POST);
}

#[test]
fn a_transfer_is_made_or_not(rt: HostRuntime) {
    fail_both(&rt, &TRANSFER);
}

#[test]
fn a_release_is_used_with_its_post_or_not(rt: HostRuntime) {
    fail_both(&rt, &RELEASED);
}

#[test]
fn a_day_is_closed_or_not(rt: HostRuntime) {
    fail_both(&rt, &CLOSING);
}

#[test]
fn a_command_is_done_or_not(rt: HostRuntime) {
    fail_both(&rt, &COMMANDS);
}

#[test]
fn a_session_is_opened_or_not(rt: HostRuntime) {
    fail_both(&rt, &OPENING);
}

#[test]
fn a_session_is_ended_or_not(rt: HostRuntime) {
    fail_both(&rt, &ENDING);
}
