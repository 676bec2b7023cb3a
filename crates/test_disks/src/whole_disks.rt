//! What is done with files that do not fail, and the files of the worked bank.

use crate::deeds::{Act, Deed, Outcome, done_with};
use crate::disks::{Held, closed_by, nothing, reopened};
use sql_adopt::AdoptFault;
use test_counter::Runtime;

/// Does this with files that do not fail, and answers what came of it, and what they hold when they are closed. They are
/// lost where their bank is not adopted.
pub fn tried_in(
    rt: &impl Runtime,
    held: &Held,
    deed: Deed<'_>,
) -> Result<(Outcome, Held), AdoptFault> {
    let (outcome, conn) = done_with(rt, reopened(rt, held), deed)?;
    Ok((outcome, closed_by(rt, conn)))
}

/// The same with files whose bank has to be adopted, where that is asked for.
pub fn done_in(rt: &impl Runtime, held: &Held, deed: Deed<'_>) -> (Outcome, Held) {
    tried_in(rt, held, deed).expect(rt, "a bank that is adopted")
}

/// What the files of the worked bank hold.
pub fn worked_files(rt: &impl Runtime) -> Held {
    let (_, sample) = done_in(rt, &nothing(rt), Deed::Make);
    done_in(rt, &sample, Deed::Open(Act::Work)).1
}
