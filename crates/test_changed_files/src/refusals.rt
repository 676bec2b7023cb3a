//! The refusals of the worked bank, each after a change of its tables.

use sql_adopt::AdoptFault;
use test_counter::Runtime;
use test_disks::{Deed, Held, Outcome, closed_by, done_in, reopened, worked_files};

/// A change of a bank's tables, and why the bank is then refused.
pub type Refusal = (&'static str, AdoptFault);

/// Tess has a slip 5, which was taken with a post, and of which `{}` was replied. It leaves the worked bank sound.
pub const TAKEN: &str =
    "INSERT INTO slips VALUES (7, 5, 1, 101, 11, 1, 2500, 0, 0, 0, 0, x'7b7d'); UPDATE slip_counts SET slips = 1 WHERE user_no = 7";

/// What files hold after a change of their bank's tables.
pub fn changed(rt: &impl Runtime, bank: &Held, change: &str) -> Held {
    done_in(rt, bank, Deed::Change(change)).1
}

/// What files hold that were opened and closed, with nothing else done.
pub fn untouched(rt: &impl Runtime, held: &Held) -> Held {
    closed_by(rt, reopened(rt, held))
}

/// What adopting a bank answers after a change of its tables. It has to leave the files as opening and closing
/// them alone does, byte for byte.
pub fn judged(rt: &impl Runtime, bank: &Held, change: &str) -> Result<(), AdoptFault> {
    let held = changed(rt, bank, change);
    let (outcome, after) = done_in(rt, &held, Deed::Find);
    assert!(rt; untouched(rt, &held) == after, "{change}");
    match outcome {
        Outcome::Found(answer) => answer,
        _ => panic!(rt; "an answer"),
    }
}

/// Asks that the worked bank is refused for this fault after a change.
fn is_refused(rt: &impl Runtime, sound: &Held, change: &str, fault: AdoptFault) {
    let answer = judged(rt, sound, change);
    assert!(rt; answer == Err(fault), "{change}: {answer:?}");
}

/// Asks for these refusals, each of the worked bank after one change.
pub fn refused(rt: &impl Runtime, refusals: &[Refusal]) {
    let sound = worked_files(rt);
    for (change, fault) in refusals {
        is_refused(rt, &sound, change, *fault);
    }
}

/// Asks that the worked bank is refused for this fault after each of these changes.
pub fn refused_for(rt: &impl Runtime, fault: AdoptFault, changes: &[&str]) {
    let sound = worked_files(rt);
    for change in changes {
        is_refused(rt, &sound, change, fault);
    }
}

/// The same of the worked bank after a change that leaves it sound.
pub fn refused_after_sound_change(
    rt: &impl Runtime,
    first: &str,
    fault: AdoptFault,
    changes: &[&str],
) {
    let worked = worked_files(rt);
    assert!(rt; judged(rt, &worked, first) == Ok(()));
    let sound = changed(rt, &worked, first);
    for change in changes {
        is_refused(rt, &sound, change, fault);
    }
}
