//! Banks that are adopted, and what they answer then.

use crate::refusals::{TAKEN, changed, judged, untouched};
use money::Fault;
use sql_adopt::AdoptFault;
use test_counter::Runtime;
use test_disks::{Act, Deed, Exchange, Held, Outcome, Snapshot, done_in, tried_in, worked_files};

/// The snapshot of the bank in these files, and how they are left.
fn snapshot_by(rt: &impl Runtime, held: &Held, deed: Deed<'_>) -> (Snapshot, Held) {
    let (outcome, after) = done_in(rt, held, deed);
    match outcome {
        Outcome::Read(snapshot) => (snapshot, after),
        _ => panic!(rt; "a snapshot"),
    }
}

/// What one more command answers in the bank of these files, and how it leaves them.
fn commanded(rt: &impl Runtime, held: &Held) -> (Result<bool, Fault>, Held) {
    let (outcome, after) = done_in(rt, held, Deed::Adopt(Act::Command));
    match outcome {
        Outcome::Commanded(answer) => (answer, after),
        _ => panic!(rt; "an answer"),
    }
}

#[test]
fn a_bank_answers_as_before(rt: HostRuntime) {
    let files = worked_files(&rt);
    let (before, _) = snapshot_by(&rt, &files, Deed::Open(Act::Read));
    let (again, after) = snapshot_by(&rt, &files, Deed::Adopt(Act::Read));
    assert!(rt; before.balance == Some(52_500));
    assert!(rt; again == before);
    assert!(rt; untouched(&rt, &files) == after);
}

#[test]
fn a_bank_of_other_tables_is_refused(rt: HostRuntime) {
    let files = worked_files(&rt);
    let other = changed(&rt, &files, "UPDATE bank SET version = 7");
    match tried_in(&rt, &other, Deed::Adopt(Act::Read)) {
        Ok(_) => panic!(rt; "version 7 is adopted"),
        Err(fault) => assert!(rt; fault == AdoptFault::Version, "{fault}"),
    }
}

#[test]
fn a_release_may_be_for_an_account_that_is_not_there(rt: HostRuntime) {
    let files = worked_files(&rt);
    let change = "UPDATE releases SET member1 = 999";
    assert!(rt; judged(&rt, &files, change) == Ok(()));
    let other = changed(&rt, &files, change);
    let (read, _) = snapshot_by(&rt, &other, Deed::Adopt(Act::Read));
    assert!(rt; read.released == Some(999));
}

/// Tess sends the post again with which her slip 5 was taken.
const SENT_AGAIN: [Exchange; 1] = [Exchange {
    slip: Some(5),
    asked: (
        "tess",
        None,
        "/do/post",
        r#"{"account":101,"branch":1,"delta":2500,"teller":11}"#,
    ),
    due: ("200 OK", "{}"),
}];

#[test]
fn a_slip_that_stands_in_the_table_is_answered(rt: HostRuntime) {
    let files = changed(&rt, &worked_files(&rt), TAKEN);
    let (before, _) = snapshot_by(&rt, &files, Deed::Adopt(Act::Read));
    let (outcome, after) = done_in(&rt, &files, Deed::Adopt(Act::Serve(&SENT_AGAIN)));
    match outcome {
        Outcome::Served(count) => assert!(rt; count == 1),
        _ => panic!(rt; "how many were served"),
    }
    let (again, _) = snapshot_by(&rt, &after, Deed::Adopt(Act::Read));
    assert!(rt; again == before);
}

#[test]
fn a_command_leads_to_the_last_version(rt: HostRuntime) {
    let change = "UPDATE bank SET policy = 999999999998";
    let files = changed(&rt, &worked_files(&rt), change);
    let (answer, _) = commanded(&rt, &files);
    assert!(rt; answer == Ok(true));
}

#[test]
fn no_command_leads_past_the_last_version(rt: HostRuntime) {
    let change = "UPDATE bank SET policy = 999999999999";
    let files = changed(&rt, &worked_files(&rt), change);
    let (before, _) = snapshot_by(&rt, &files, Deed::Open(Act::Read));
    let (answer, after) = commanded(&rt, &files);
    assert!(rt; answer == Err(Fault::Size));
    assert!(rt; untouched(&rt, &files) == after);
    let (again, _) = snapshot_by(&rt, &after, Deed::Open(Act::Read));
    assert!(rt; again == before);
}
