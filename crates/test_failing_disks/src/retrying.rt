//! Requests with slips over a bank whose disk fails at some call, sent again to the bank opened anew, from the first that was
//! not answered. Each gets the reply that is due to it once, and the bank is the one that has had each of them once.

use crate::making::sample_held;
use crate::serving::{count_of, served};
use crate::snapshots::reopened_snapshot;
use test_counter::{Runtime, listed_bank};
use test_disks::{
    Act, Deed, Exchange, Failing, Held, SLIPPED, Snapshot, answered, done_in, failing_files,
    left_by, open_frail, snapshot_of,
};

/// The snapshot of the sample bank in lists after these requests.
fn whole_snapshot(rt: &impl Runtime, stream: &[Exchange]) -> Snapshot {
    let mut bank = listed_bank(rt);
    assert!(rt; answered(rt, &mut bank, stream) == stream.len());
    snapshot_of(rt, &mut bank.store)
}

/// Sends these requests to the bank of these files, opened anew. Each has to get its reply. Answers what the files hold then.
fn sent_again(rt: &impl Runtime, held: &Held, stream: &[Exchange]) -> Held {
    let (outcome, after) = done_in(rt, held, Deed::Adopt(Act::Serve(stream)));
    assert!(rt; count_of(rt, outcome) == stream.len());
    after
}

/// Files that were looked at, and how many requests were sent again.
type Seen = Vec<(Held, usize)>;

/// Asks that the bank of these files is the whole one once these requests were sent again. Answers whether that was not asked
/// before.
fn is_whole(
    rt: &impl Runtime,
    seen: &mut Seen,
    held: Held,
    rest: &[Exchange],
    whole: &Snapshot,
) -> bool {
    for (it, count) in seen.iter() {
        if *it == held && *count == rest.len() {
            return false;
        }
    }
    let after = sent_again(rt, &held, rest);
    assert!(rt;
        reopened_snapshot(rt, &after).expect(rt, "a bank") == *whole,
        "{} again",
        rest.len()
    );
    assert!(rt; seen.push((held, rest.len())).is_ok());
    true
}

/// Serves the requests with a disk that fails at its first call after those by which the files are opened, then with one that
/// fails at its second, and so on until one has not failed; and sends those again that were not answered. Answers how many
/// banks were looked at.
fn retry_at_each_call(rt: &impl Runtime, which: Failing, stream: &[Exchange]) -> u32 {
    let held = sample_held(rt);
    let whole = whole_snapshot(rt, stream);
    let mut seen = Vec::new(rt.alloc());
    let mut banks = 0u32;
    for calls in 0..10_000u64 {
        let Ok(conn) = open_frail(rt, failing_files(rt, &held, which, calls)) else {
            continue;
        };
        let (count, files) = served(rt, conn, stream);
        let rest = stream.get(count..).expect(rt, "requests");
        let left = left_by(rt, files);
        for it in [left.written, left.synced] {
            let is_new = is_whole(rt, &mut seen, it, rest, &whole);
            banks = banks.saturating_add(u32::from(is_new));
        }
        if !left.failed {
            assert!(rt; rest.is_empty());
            return banks;
        }
    }
    panic!(rt; "a disk that has not failed");
}

/// After each of the requests but the last, the disk has failed both before the next was committed and after that.
#[test]
fn what_is_sent_again_acts_once_as_the_log_fails(rt: HostRuntime) {
    let banks = retry_at_each_call(&rt, Failing::Log, &SLIPPED);
    assert!(rt; banks >= 10, "{banks}");
}

#[test]
fn what_is_sent_again_acts_once_as_the_file_fails(rt: HostRuntime) {
    let banks = retry_at_each_call(&rt, Failing::Database, &SLIPPED);
    assert!(rt; banks >= 5, "{banks}");
}

/// All of them, answered before.
#[test]
fn what_is_sent_twice_acts_once(rt: HostRuntime) {
    let once = sent_again(&rt, &sample_held(&rt), &SLIPPED);
    let twice = sent_again(&rt, &once, &SLIPPED);
    let whole = whole_snapshot(&rt, &SLIPPED);
    for held in [&once, &twice] {
        assert!(rt; reopened_snapshot(&rt, held).expect(&rt, "a bank") == whole);
    }
}
