//! A bank made in a file. `init_file` makes that of opening lists, which `opening_of` reads wherever they stand, before
//! it opens the file; `upgrade_file` makes the newest tables of a bank of an earlier schema version, in its file;
//! `forward_file` makes in a new file the next year's bank, where every branch is closed, and the old file holds what
//! it held. A crash leaves a bank whole, as it was or as it is made.
#![tactic(auto)]

mod faults;
mod folder;
mod forwarding;
mod init;
mod lists;
mod making;
mod reading;
mod upgrading;

pub use forwarding::forward_file;
pub use init::init_file;
pub use lists::{OpeningLists, opening_of, read_opening};
pub use making::make_in;
pub use upgrading::{upgrade_file, upgrade_in};
