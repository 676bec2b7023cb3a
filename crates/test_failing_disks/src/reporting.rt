//! Reports over a bank whose disk fails at some call. Each is answered whole, or by the fault, or breaks after its head;
//! and the bank is the one before.

use crate::making::sample_held;
use crate::snapshots::snapshot_once;
use test_counter::{ASKS_LISTING, ASKS_PROOF, ASKS_STATEMENT, Runtime, listed_bank};
use test_disks::{
    Act, Asked, Deed, Ending, Failers, Failing, Frail, Held, Outcome, Snapshot, done_with,
    failing_files, left_by, let_go, open_forgetful, reopened, run, seen, snapshot_of, work,
    worked_files,
};

/// What the worked bank in lists answers to a message, and its snapshot.
fn listed(rt: &impl Runtime, message: &[u8]) -> (Vec<u8>, Snapshot) {
    let mut bank = listed_bank(rt);
    work(rt, &mut bank);
    (
        run(rt, &mut bank, message).bytes,
        snapshot_of(rt, &mut bank.store),
    )
}

/// What files hold whose worked bank is in the log, and was not copied into the database file.
fn worked_in_log(rt: &impl Runtime) -> Held {
    let conn = reopened(rt, &sample_held(rt));
    let (_, conn) = done_with(rt, conn, Deed::Open(Act::Work)).expect(rt, "a bank");
    seen(rt, &let_go(conn))
}

/// The worked bank in files, of which this one is read.
fn held_in(rt: &impl Runtime, which: Failing) -> Held {
    match which {
        Failing::Log => worked_in_log(rt),
        Failing::Database => worked_files(rt),
    }
}

/// How many of the replies were refused, and how many broke.
#[derive(Clone, Copy, Debug, PartialEq, Eq)]
struct Ends {
    refused: u32,
    broken: u32,
}

impl Ends {
    fn count(&mut self, ending: Ending) {
        match ending {
            Ending::Whole => {}
            Ending::Refused => self.refused = self.refused.saturating_add(1),
            Ending::Broken => self.broken = self.broken.saturating_add(1),
        }
    }
}

/// Asks for a report of the bank in a database. Answers how its reply ended, and the files.
fn asked(rt: &impl Runtime, conn: Frail, asked: Asked<'_>) -> (Ending, Failers) {
    let (outcome, conn) = done_with(rt, conn, Deed::Open(Act::Ask(asked))).expect(rt, "a bank");
    match outcome {
        Outcome::Reported(ending) => (ending, let_go(conn)),
        _ => panic!(rt; "how a report ended"),
    }
}

/// Asks for a report with a disk that fails at its first call after those by which the files are opened, then with one
/// that fails at its second, and so on until one has not failed.
fn fail_each_call(rt: &impl Runtime, message: &'static [u8], which: Failing) -> Ends {
    let held = held_in(rt, which);
    let (reply, before) = listed(rt, message);
    let due = Asked {
        message,
        reply: reply.as_slice(),
    };
    let mut seen = Vec::new(rt.alloc());
    let mut ends = Ends {
        refused: 0,
        broken: 0,
    };
    for calls in 0..10_000u64 {
        let Ok(conn) = open_forgetful(rt, failing_files(rt, &held, which, calls)) else {
            continue;
        };
        let (ending, files) = asked(rt, conn, due);
        let left = left_by(rt, files);
        assert!(rt; *snapshot_once(rt, &mut seen, left.written) == before);
        assert!(rt; *snapshot_once(rt, &mut seen, left.synced) == before);
        ends.count(ending);
        if !left.failed {
            assert!(rt; ending == Ending::Whole);
            return ends;
        }
    }
    panic!(rt; "a disk that has not failed");
}

/// Asks for a report with a disk that fails at each call of either file. Answers how often it broke at the least. It is
/// refused where the disk fails early.
fn fail_both(rt: &impl Runtime, message: &'static [u8]) -> u32 {
    let in_log = fail_each_call(rt, message, Failing::Log);
    let in_database = fail_each_call(rt, message, Failing::Database);
    assert!(rt; in_log.refused > 0 && in_database.refused > 0);
    in_log.broken.min(in_database.broken)
}

#[test]
fn a_statement_is_written_or_breaks(rt: HostRuntime) {
    assert!(rt; fail_both(&rt, ASKS_STATEMENT) > 0);
}

/// The rows after its head are on one page, which was read last and is still in memory.
#[test]
fn a_proof_is_written_or_refused(rt: HostRuntime) {
    let _ = fail_both(&rt, ASKS_PROOF);
}

#[test]
fn a_listing_is_written_or_breaks(rt: HostRuntime) {
    assert!(rt; fail_both(&rt, ASKS_LISTING) > 0);
}
