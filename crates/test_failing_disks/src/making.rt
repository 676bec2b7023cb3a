//! A bank that is made on a disk that fails at some call, and one that is looked for there.

use crate::snapshots::{reopened_snapshot, snapshot_once};
use money::Fault;
use sql_adopt::AdoptFault;
use std::process::Abort;
use test_counter::Runtime;
use test_disks::{
    Deed, Failers, Failing, Frail, Held, Outcome, Snapshot, closed_by, done_with, failing_files,
    left_by, let_go, nothing, open_frail, reopened, seen,
};

/// Makes the sample bank in a database, or looks for it there. Answers whether that was done, and the files.
fn tried(rt: &impl Runtime, conn: Frail, deed: Deed<'_>) -> (bool, Failers) {
    let (outcome, conn) = done_with(rt, conn, deed).expect(rt, "the connection");
    (is_done(rt, outcome), let_go(conn))
}

/// Whether a bank was made, or found. It is the disk's fault where it was not.
fn is_done(rt: &impl Abort, outcome: Outcome) -> bool {
    match outcome {
        Outcome::Made(well) => well,
        Outcome::Found(answer) => {
            assert!(rt; answer.is_ok() || answer == Err(AdoptFault::Fault(Fault::Disk)));
            answer.is_ok()
        }
        _ => panic!(rt; "whether it was done"),
    }
}

/// What files hold after the sample bank was made there. It is in the log, and was not copied into the database file.
fn made_over(rt: &impl Runtime, held: &Held) -> Held {
    let (was_made, files) = tried(rt, reopened(rt, held), Deed::Make);
    assert!(rt; was_made);
    seen(rt, &files)
}

/// What new files hold in which the sample bank was made.
pub fn sample_held(rt: &impl Runtime) -> Held {
    made_over(rt, &nothing(rt))
}

/// Makes the sample bank in files that fail. Answers whether it was made, and the files.
fn make_in(rt: &impl Runtime, files: Failers) -> (bool, Failers) {
    match open_frail(rt, files) {
        Ok(conn) => tried(rt, conn, Deed::Make),
        Err(files) => (false, files),
    }
}

/// Looks for the bank in files that fail. Answers whether it was found, or none where the files failed as they were
/// opened, and the files.
fn find_in(rt: &impl Runtime, files: Failers) -> (Option<bool>, Failers) {
    match open_frail(rt, files) {
        Ok(conn) => {
            let (was_found, files) = tried(rt, conn, Deed::Find);
            (Some(was_found), files)
        }
        Err(files) => (None, files),
    }
}

/// Asks that files hold the whole bank, or none and then one can be made there, and answers which of these.
fn is_there(rt: &impl Runtime, held: &Held, whole: &Snapshot) -> bool {
    match reopened_snapshot(rt, held) {
        Ok(snapshot) => {
            assert!(rt; snapshot == *whole);
            true
        }
        Err(fault) => {
            assert!(rt; fault == AdoptFault::NotABank);
            assert!(rt; reopened_snapshot(rt, &made_over(rt, held)).expect(rt, "a bank") == *whole);
            false
        }
    }
}

/// Makes the bank on a disk that fails at its first call, then on one that fails at its second, and so on until one has
/// not failed. Where this returned that the bank was made, it is there. Answers how often no bank was there, and how often
/// one was there though the disk's fault was returned.
fn make_at_each_call(rt: &impl Runtime, which: Failing, whole: &Snapshot) -> (u32, u32) {
    let mut absent = 0u32;
    let mut unreported = 0u32;
    for calls in 0..10_000u64 {
        let files = failing_files(rt, &nothing(rt), which, calls);
        let (was_made, files) = make_in(rt, files);
        let left = left_by(rt, files);
        for held in [&left.written, &left.synced] {
            let there = is_there(rt, held, whole);
            assert!(rt; there || !was_made);
            absent = absent.saturating_add(u32::from(!there));
            unreported = unreported.saturating_add(u32::from(there && !was_made));
        }
        if !left.failed {
            assert!(rt; was_made);
            return (absent, unreported);
        }
    }
    panic!(rt; "a disk that has not failed");
}

#[test]
fn a_bank_is_made_whole_or_not(rt: HostRuntime) {
    let whole = reopened_snapshot(&rt, &sample_held(&rt)).expect(&rt, "a bank");
    let (absent, unreported) = make_at_each_call(&rt, Failing::Log, &whole);
    assert!(rt; absent > 0 && unreported > 0);
    let (absent, _) = make_at_each_call(&rt, Failing::Database, &whole);
    assert!(rt; absent > 0);
}

/// Looks for the bank on a disk that fails at its first call, then on one that fails at its second, and so on until one
/// has not failed. Nothing is changed. Answers how often the disk failed once the files were open.
fn find_at_each_call(rt: &impl Runtime, held: &Held, which: Failing, whole: &Snapshot) -> u32 {
    let mut seen = Vec::new(rt.alloc());
    let mut refused = 0u32;
    for calls in 0..10_000u64 {
        let files = failing_files(rt, held, which, calls);
        let (was_found, files) = find_in(rt, files);
        let left = left_by(rt, files);
        assert!(rt; snapshot_once(rt, &mut seen, left.written) == whole);
        assert!(rt; snapshot_once(rt, &mut seen, left.synced) == whole);
        refused = refused.saturating_add(u32::from(was_found == Some(false)));
        if !left.failed {
            assert!(rt; was_found == Some(true));
            return refused;
        }
    }
    panic!(rt; "a disk that has not failed");
}

#[test]
fn a_bank_is_found_or_left_as_it_is(rt: HostRuntime) {
    let held = sample_held(&rt);
    let whole = reopened_snapshot(&rt, &held).expect(&rt, "a bank");
    assert!(rt; find_at_each_call(&rt, &held, Failing::Log, &whole) > 0);
    let closed = closed_by(&rt, reopened(&rt, &held));
    assert!(rt; find_at_each_call(&rt, &closed, Failing::Database, &whole) > 0);
}
