//! Snapshots of the banks in files.

use sql_adopt::AdoptFault;
use test_counter::Runtime;
use test_disks::{Act, Deed, Held, Outcome, Snapshot, done_with, let_go, reopened};

/// The snapshot of the bank that these files hold, opened anew and adopted.
pub fn reopened_snapshot(rt: &impl Runtime, held: &Held) -> Result<Snapshot, AdoptFault> {
    let (outcome, conn) = done_with(rt, reopened(rt, held), Deed::Adopt(Act::Read))?;
    let _ = let_go(conn);
    match outcome {
        Outcome::Read(snapshot) => Ok(snapshot),
        _ => panic!(rt; "a snapshot"),
    }
}

/// The snapshot of the bank in these files. Files that hold the same are opened once.
pub fn snapshot_once<'a>(
    rt: &impl Runtime,
    seen: &'a mut Vec<(Held, Snapshot)>,
    held: Held,
) -> &'a Snapshot {
    let known = seen.iter().position(|(it, _)| *it == held);
    let place = known.unwrap_or(seen.len());
    if known.is_none() {
        let snapshot = reopened_snapshot(rt, &held).expect(rt, "a bank");
        assert!(rt; seen.push((held, snapshot)).is_ok());
    }
    &seen.get(place).expect(rt, "files").1
}
