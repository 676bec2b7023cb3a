//! The bank in a file served to many connections at once: `attend_in` in an open file, `attend_file` in the one at a
//! path. The bank is found, the place is acquired and printed, the connections that come are served with a cache of the
//! policy in front, until that is ended by order, and the bank is closed. How a place of each kind is acquired is only
//! tested; descriptor 3 alone is taken over by its number.
#![tactic(auto)]

mod actions;
mod attending;
mod faults;
mod in_file;
mod inherited;
pub mod laws;
mod listener;
mod listening;
mod machine;
mod notices;
mod place;
mod places;
mod probed;
mod socket;

pub use actions::attend_file;
pub use in_file::attend_in;
pub use listening::Listening;
pub use machine::MachinePlaces;
pub use place::PlaceLeft;
pub use places::{Places, Visited};
