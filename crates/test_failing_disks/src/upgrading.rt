//! A bank of an older schema version that is carried over on a disk which fails at some call. It is there whole in the
//! tables of that version, from which it can be carried over, or in those of the newest.

use crate::snapshots::reopened_snapshot;
use money::Fault;
use sql_adopt::AdoptFault;
use test_counter::{Runtime, listed_bank};
use test_disks::{
    Deed, Failers, Failing, Frail, Held, Outcome, Snapshot, done_in, done_with, failing_files,
    first_files, left_by, let_go, open_frail, second_files, snapshot_of, work, worked_files,
};

/// The snapshot of the worked bank in lists.
fn worked_snapshot(rt: &impl Runtime) -> Snapshot {
    let mut bank = listed_bank(rt);
    work(rt, &mut bank);
    snapshot_of(rt, &mut bank.store)
}

/// Whether the bank was carried over. It is the disk's fault where it was not.
fn is_carried(rt: &impl Runtime, outcome: Outcome) -> bool {
    match outcome {
        Outcome::Upgraded(answer) => {
            assert!(rt; answer.is_ok() || answer == Err(AdoptFault::Fault(Fault::Disk)));
            answer.is_ok()
        }
        _ => panic!(rt; "whether it was carried over"),
    }
}

/// Carries the bank of a database over. Answers whether that was done, and the files.
fn carried(rt: &impl Runtime, conn: Frail) -> (bool, Failers) {
    let (outcome, conn) = done_with(rt, conn, Deed::Upgrade).expect(rt, "the connection");
    (is_carried(rt, outcome), let_go(conn))
}

/// Whether files hold this bank in the newest schema version. Where they do not, they hold it in an older one, from which
/// it is carried over.
fn is_newest(rt: &impl Runtime, held: &Held, whole: &Snapshot) -> bool {
    match reopened_snapshot(rt, held) {
        Ok(snapshot) => {
            assert!(rt; snapshot == *whole);
            true
        }
        Err(fault) => {
            assert!(rt; fault == AdoptFault::Version);
            let (outcome, after) = done_in(rt, held, Deed::Upgrade);
            assert!(rt; is_carried(rt, outcome));
            assert!(rt; reopened_snapshot(rt, &after).expect(rt, "a bank") == *whole);
            false
        }
    }
}

/// Files that were looked at, and whether they hold the newest schema version.
type Seen = Vec<(Held, bool)>;

/// The same of files of which those that hold the same are looked at once.
fn is_newest_once(rt: &impl Runtime, seen: &mut Seen, held: Held, whole: &Snapshot) -> bool {
    for (it, answer) in seen.iter() {
        if *it == held {
            return *answer;
        }
    }
    let answer = is_newest(rt, &held, whole);
    assert!(rt; seen.push((held, answer)).is_ok());
    answer
}

/// How often the older schema version was found after a crash, and how often the newest though the disk's fault was
/// returned.
#[derive(Clone, Copy, Debug)]
struct Found {
    older: u32,
    unreported: u32,
}

/// Carries the worked bank of these files over on a disk that fails at its first call after those by which the files are
/// opened, then on one that fails at its second, and so on until one has not failed. Where this returned that the bank was
/// carried over, it is.
fn carry_at_each_call(rt: &impl Runtime, held: &Held, which: Failing) -> Found {
    let whole = worked_snapshot(rt);
    let mut seen = Vec::new(rt.alloc());
    let mut found = Found {
        older: 0,
        unreported: 0,
    };
    for calls in 0..10_000u64 {
        let Ok(conn) = open_frail(rt, failing_files(rt, held, which, calls)) else {
            continue;
        };
        let (was_carried, files) = carried(rt, conn);
        let left = left_by(rt, files);
        for it in [left.written, left.synced] {
            let newest = is_newest_once(rt, &mut seen, it, &whole);
            assert!(rt; newest || !was_carried);
            found.older = found.older.saturating_add(u32::from(!newest));
            found.unreported = found
                .unreported
                .saturating_add(u32::from(newest && !was_carried));
        }
        if !left.failed {
            assert!(rt; was_carried);
            return found;
        }
    }
    panic!(rt; "a disk that has not failed");
}

/// Asks that the worked bank of these files is carried over whole or not, whichever of the two files fails.
fn carry_over_both(rt: &impl Runtime, held: &Held) {
    let found = carry_at_each_call(rt, held, Failing::Log);
    assert!(rt; found.older > 0 && found.unreported > 0);
    let found = carry_at_each_call(rt, held, Failing::Database);
    assert!(rt; found.older > 0);
}

#[test]
fn a_bank_of_the_first_version_is_carried_over_whole_or_not(rt: HostRuntime) {
    carry_over_both(&rt, &first_files(&rt));
}

#[test]
fn a_bank_of_the_second_version_is_carried_over_whole_or_not(rt: HostRuntime) {
    carry_over_both(&rt, &second_files(&rt));
}

/// Makes a triple of Tess's valid from moment 800 to 900.
const DURING: &str =
    "UPDATE grants SET first_at = 800, last_at = 900 WHERE user_no = 7 AND procedure = 11";

/// What files hold whose bank was carried over.
fn carried_files(rt: &impl Runtime, held: &Held) -> Held {
    let (outcome, after) = done_in(rt, held, Deed::Upgrade);
    assert!(rt; is_carried(rt, outcome));
    after
}

/// The snapshot of the bank in these files, which can be adopted.
fn found_snapshot(rt: &impl Runtime, held: &Held) -> Snapshot {
    reopened_snapshot(rt, held).expect(rt, "a bank")
}

#[test]
fn moments_of_the_second_version_are_carried_over(rt: HostRuntime) {
    let (_, second) = done_in(&rt, &second_files(&rt), Deed::Change(DURING));
    let (_, newest) = done_in(&rt, &worked_files(&rt), Deed::Change(DURING));
    let upgraded = found_snapshot(&rt, &carried_files(&rt, &second));
    assert!(rt; upgraded == found_snapshot(&rt, &newest));
    assert!(rt; upgraded != worked_snapshot(&rt));
}
