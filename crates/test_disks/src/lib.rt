//! What tests of banks in files share, and no test: files in memory that fail after n calls, and what
//! they hold then; what is done with the bank in a database, and what comes of it; requests and reports
//! with the replies that are due; and snapshots of a bank. Nothing here is proved or used by a program.
#![tactic(auto)]

mod bank;
mod deeds;
mod disks;
mod older_versions;
mod report_replies;
mod snapshots;
mod streams;
mod whole_disks;

pub use bank::{answered, work};
pub use deeds::{Act, Deed, Outcome, done_with};
pub use disks::{
    Failers, Failing, Frail, Held, Left, closed_by, failing_files, left_by, let_go, nothing,
    open_forgetful, open_frail, reopened, seen,
};
pub use older_versions::{first_files, second_files};
pub use report_replies::{Asked, Ending};
pub use snapshots::{Snapshot, snapshot_of};
pub use streams::{
    CLOSING, COMMANDS, ENDING, Exchange, OPENING, POST, RELEASED, SLIPPED, TRANSFER, is_reply,
    reply, run,
};
pub use whole_disks::{done_in, tried_in, worked_files};
